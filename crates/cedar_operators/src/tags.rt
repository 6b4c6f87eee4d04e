// Tags of entities.
ghost use Rattle.std.specs.Prelude.{◌≡◌, Option};
ghost use Rattle.std.specs.FinMap as finite;
ghost use Rattle.std.specs.Option.{option_map};
ghost use Rattle.std.specs.Rc.{rc_str_bytes};
ghost use Rattle.either.specs.declared.Either.TheVariants.{Left, Right};
ghost use Rattle.cedar_language.specs.Facts.{Facts};
ghost use Rattle.cedar_language.specs.Operators.{applied, truth, is_there, or_fails};
ghost use Rattle.cedar_language.specs.Value as language;
ghost use Rattle.cedar_language.specs.Value.{EntityAttrDoesNotExist};
ghost use Rattle.cedar_language.specs.Tree.{GetTag, HasTag, Tree};
ghost use Rattle.cedar_restricted.specs.PartialValues.{partial_of};
ghost use Rattle.cedar_extensions.specs.Giving.{Gives, GivesBy};
ghost use Rattle.cedar_value_operators.specs.Operands.{two};
ghost use Rattle.cedar_operators.specs.Store.{HasFacts};

use crate::held::held;
use crate::lookups::still_unknown;
use cedar_entities::entity::Entity;
use cedar_entities::store::Entities;
use cedar_extensions::evaluation_error::EvaluationError;
use cedar_literals::literals::Literal;
use cedar_literals::uids::EntityUID;
use cedar_names::places::Loc;
use cedar_restricted::partial_values::PartialValue;
use cedar_value_operators::{copied, get_as_entity, get_as_string};
use cedar_values::values::Value;
use std::alloc::Global;
use std::rc::{Rc, RcStr};

/// The value of a tag of an entity that is held. Attributes play no part. (Cedar language reference,
/// "getTag() (entity tag access)".)
///
/// It errs with `TypeError` where `arg1` is no entity, then where `arg2` is no string;
/// `EntityDoesNotExist` where the entity isn't held, at the place of `arg1`; `EntityAttrDoesNotExist` at `loc`
/// where it has no such tag; and with `Memory`. It errs with `NonValue` where a residual stands at the tag,
/// or a partial store holds no such entity.
pub fn get_tag(
    alloc: Global,
    entities: &Entities,
    arg1: &Value,
    arg2: &Value,
    loc: Option<&Loc>,
) -> Result<Value, EvaluationError>
    ensures { (facts : Facts) → HasFacts entities.now facts →
        Gives (λ v. v) ⊥ result (applied facts GetTag (two arg1.now arg2.now)) }
{
    let uid = get_as_entity(alloc, arg1)?;
    let tag = get_as_string(alloc, arg2)?;
    let entity = held(alloc, entities, uid)?;
    match entity {
        Some(entity) => tag_of(alloc, uid, entity, tag, loc),
        None => {
            let loc = copied(alloc, arg1.source_loc())?;
            Err(EvaluationError::entity_does_not_exist(uid.clone()?, loc))
        }
    }
}

/// Whether an entity has a tag. An entity that isn't held has none. (Cedar language reference, "hasTag()
/// (presence of entity tag test)".)
///
/// It errs with `TypeError` where `arg1` is no entity, then where `arg2` is no string; with `NonValue` where a
/// partial store holds no such entity; and with `Memory`. A tag whose value isn't known yet is there.
pub fn has_tag(
    alloc: Global,
    entities: &Entities,
    arg1: &Value,
    arg2: &Value,
) -> Result<Value, EvaluationError>
    ensures { (facts : Facts) → HasFacts entities.now facts →
        Gives (λ v. v) ⊥ result (applied facts HasTag (two arg1.now arg2.now)) }
{
    let uid = get_as_entity(alloc, arg1)?;
    let tag = get_as_string(alloc, arg2)?;
    let entity = held(alloc, entities, uid)?;
    match entity {
        Some(entity) => Ok(Value::from(Literal::Bool(is_held(entity, tag.as_str())))),
        None => Ok(Value::from(Literal::Bool(false))),
    }
}

fn is_held(entity: &Entity, tag: &str) -> bool
    ensures { (v : Option language.Value) → finite.get entity.now.tags tag.now ≡ option_map Left v →
        is_there (or_fails EntityAttrDoesNotExist v) ≡ truth result }
{
    entity.get_tag(tag).is_some()
}

// The tag of an entity that is held. NonValue where it isn't known yet.
fn tag_of(
    alloc: Global,
    uid: &Rc<EntityUID>,
    entity: &Entity,
    tag: &RcStr,
    loc: Option<&Loc>,
) -> Result<Value, EvaluationError>
    ensures { (v : Option language.Value) → finite.get entity.now.tags (rc_str_bytes tag.now) ≡ option_map Left v →
        Gives (λ w. w) ⊥ result (or_fails EntityAttrDoesNotExist v) }
{
    match entity.get_tag(tag.as_str()) {
        Some(found) => told(alloc, found),
        None => {
            let loc = copied(alloc, loc)?;
            let tag = tag.clone()?;
            Err(EvaluationError::entity_tag_does_not_exist(uid.clone()?, tag, loc))
        }
    }
}

// The value that stands there. NonValue where it is a residual.
fn told(alloc: Global, found: &PartialValue) -> Result<Value, EvaluationError>
    ensures { GivesBy (λ v. partial_of found.now ≡ Left v)
        (λ k. (t : Tree) × (partial_of found.now ≡ Right t)) ⊥ result }
{
    match found {
        PartialValue::Value(value) => Ok(value.clone(alloc)?),
        PartialValue::Residual(residual) => Err(still_unknown(alloc, residual)?),
    }
}
