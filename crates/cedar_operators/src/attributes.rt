// Attributes of records and entities.
ghost use Rattle.std.specs.Prelude.{◌≡◌, map};
ghost use Rattle.std.specs.Rc.{rc_str_bytes};
ghost use Rattle.cedar_language.specs.Facts.{Facts};
ghost use Rattle.cedar_language.specs.Operators.{applied};
ghost use Rattle.cedar_language.specs.Value.{Outcome};
ghost use Rattle.cedar_language.specs.Tree.{GetAttr, HasAttr, HasPath};
ghost use Rattle.cedar_extensions.specs.Giving.{Gives};
ghost use Rattle.cedar_value_operators.specs.Operands.{one};
ghost use Rattle.cedar_operators.specs.Store.{HasFacts};
ghost use Rattle.cedar_operators.specs.Lookups.{Shows};

use crate::lookups::{Lookup, find, find_along, is_found, still_unknown};
use cedar_entities::store::Entities;
use cedar_extensions::evaluation_error::EvaluationError;
use cedar_literals::literals::Literal;
use cedar_names::places::Loc;
use cedar_trees::unknowns::NonEmpty;
use cedar_value_operators::copied;
use cedar_values::values::Value;
use std::alloc::Global;
use std::rc::RcStr;

/// The value of an attribute of a record, or of an entity that is held. Tags play no part. (Cedar language
/// reference, "Access operators".)
///
/// It errs with `TypeError` where `of` is neither a record nor an entity; for an entity with
/// `EntityDoesNotExist` where it isn't held, at the place of `of`, and else with `EntityAttrDoesNotExist` at
/// `loc` where it has no such attribute; for a record with `RecordAttrDoesNotExist` at `loc`; and with
/// `Memory`. It errs with `NonValue` where a residual stands at the name, or a partial store holds no such
/// entity.
pub fn get_attr(
    alloc: Global,
    entities: &Entities,
    of: &Value,
    attr: &RcStr,
    loc: Option<&Loc>,
) -> Result<Value, EvaluationError>
    ensures { (facts : Facts) → HasFacts entities.now facts →
        Gives (λ v. v) ⊥ result (applied facts (GetAttr (rc_str_bytes attr.now)) (one of.now)) }
{
    let lookup = find(alloc, entities, of, attr.as_str())?;
    read(alloc, lookup, of, attr, loc)
}

// What the look-up of `attr` in `of` found, or the error where it is missing.
fn read(
    alloc: Global,
    lookup: Lookup<'_>,
    of: &Value,
    attr: &RcStr,
    loc: Option<&Loc>,
) -> Result<Value, EvaluationError>
    ensures { (meant : Outcome) → Shows (λ o. meant ≡ o) lookup.entry → Gives (λ v. v) ⊥ result meant }
{
    match lookup {
        Lookup::Value(value) => Ok(value.clone(alloc)?),
        Lookup::Residual(residual) => Err(still_unknown(alloc, residual)?),
        Lookup::NoEntity(uid) => {
            let loc = copied(alloc, of.source_loc())?;
            Err(EvaluationError::entity_does_not_exist(uid.clone()?, loc))
        }
        Lookup::NoAttribute(uid) => {
            let loc = copied(alloc, loc)?;
            let attr = attr.clone()?;
            Err(EvaluationError::entity_attr_does_not_exist(uid.clone()?, attr, loc))
        }
        Lookup::NoKey => {
            let loc = copied(alloc, loc)?;
            Err(EvaluationError::record_attr_does_not_exist(attr.clone()?, loc))
        }
    }
}

/// Whether a record, or an entity, has an attribute. An entity that isn't held has none. (Cedar language
/// reference, "has (presence of attribute test)".)
///
/// It errs with `TypeError` where `of` is neither a record nor an entity, with `NonValue` where a partial
/// store holds no such entity, and with `Memory`. An attribute whose value isn't known yet is there.
pub fn has_attr(
    alloc: Global,
    entities: &Entities,
    of: &Value,
    attr: &RcStr,
) -> Result<Value, EvaluationError>
    ensures { (facts : Facts) → HasFacts entities.now facts →
        Gives (λ v. v) ⊥ result (applied facts (HasAttr (rc_str_bytes attr.now)) (one of.now)) }
{
    let lookup = find(alloc, entities, of, attr.as_str())?;
    Ok(Value::from(Literal::Bool(is_found(lookup))))
}

/// Whether a chain of attributes is there: whether `of` has the first, its value the second, and so on. The
/// value of the last isn't read. (Cedar language reference, "has (presence of attribute test)".)
///
/// It errs with `TypeError` where `of`, or the value of an attribute before the last, is neither a record nor
/// an entity; nothing behind the first attribute that is missing counts. It errs with `NonValue` where an
/// attribute before the last isn't known yet, or a partial store holds no such entity; and with `Memory`.
/// Each link is one look-up by name, and for an entity one by hash before it.
pub fn has_path(
    alloc: Global,
    entities: &Entities,
    of: &Value,
    attrs: &NonEmpty<RcStr>,
) -> Result<Value, EvaluationError>
    ensures { (facts : Facts) → HasFacts entities.now facts →
        Gives (λ v. v) ⊥ result (applied facts
        (HasPath (rc_str_bytes attrs.now.head) (map rc_str_bytes attrs.now.tail.items)) (one of.now)) }
{
    let first = find(alloc, entities, of, attrs.head.as_str())?;
    let last = find_along(alloc, entities, first, &attrs.tail)?;
    Ok(Value::from(Literal::Bool(is_found(last))))
}
