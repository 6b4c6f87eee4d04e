// `in`.
ghost use Rattle.std.specs.Prelude.{◌≡◌, IfOk, None, false};
ghost use Rattle.std.specs.List.{list_any};
ghost use Rattle.std.specs.Option.{option_map, option_map_or, option_copied};
ghost use Rattle.std.specs.FinSet as set;
ghost use Rattle.cedar_language.specs.Facts.{Facts};
ghost use Rattle.cedar_language.specs.Operators.{applied, uids_in};
ghost use Rattle.cedar_language.specs.Order.{all_of};
ghost use Rattle.cedar_language.specs.Tree.{In};
ghost use Rattle.cedar_language.specs.Value.{TypeError};
ghost use Rattle.cedar_extensions.specs.Failures.{OfKind, failure_of};
ghost use Rattle.cedar_extensions.specs.Giving.{Gives};
ghost use Rattle.cedar_value_operators.specs.Operands.{two, uid_in, IsOperand};
ghost use Rattle.cedar_operators.specs.Store.{HasFacts};
ghost use Rattle.cedar_operators.specs.Hierarchy.{is_within_entity, within_of};
ghost use Rattle.cedar_entities.specs.Data.{ancestors_of};

use crate::held::held;
use cedar_entities::entity::Entity;
use cedar_entities::store::Entities;
use cedar_extensions::evaluation_error::EvaluationError;
use cedar_literals::literals::Literal;
use cedar_literals::types::Type;
use cedar_literals::uids::EntityUID;
use cedar_trees::unknowns::NonEmpty;
use cedar_value_operators::{any_entity_type, get_as_entity};
use cedar_values::values::Value;
use std::alloc::{AllocError, Global};
use std::rc::Rc;

/// Whether an entity is another one, or has it as an ancestor; or whether this holds of some member of a
/// set of entities. An entity that isn't held has no ancestors. (Cedar language reference, "in (hierarchy
/// membership)".)
///
/// It errs with `TypeError` where `arg1` is no entity, then where `arg2` is neither an entity nor a set, or
/// is a set with a member that is no entity, also where another member would do; and with `Memory`. Where a
/// partial store holds no entity of `arg1`, it errs with `NonValue`. Two uids are compared, and one is looked
/// up by hash: that takes no memory on a store that isn't partial.
pub fn is_in(
    alloc: Global,
    entities: &Entities,
    arg1: &Value,
    arg2: &Value,
) -> Result<Value, EvaluationError>
    ensures { (facts : Facts) → HasFacts entities.now facts →
        Gives (λ v. v) ⊥ result (applied facts In (two arg1.now arg2.now)) }
{
    let uid1 = get_as_entity(alloc, arg1)?;
    let entity1 = held(alloc, entities, uid1)?;
    let is_within = eval_in(alloc, uid1, entity1, arg2)?;
    Ok(Value::from(Literal::Bool(is_within)))
}

fn eval_in(
    alloc: Global,
    uid1: &Rc<EntityUID>,
    entity1: Option<&Entity>,
    arg2: &Value,
) -> Result<bool, EvaluationError>
    ensures { IsOperand (λ b. b)
        (within_of (is_within_entity uid1.now.value (option_copied entity1.entry)) arg2.now) result }
{
    match arg2.as_entity() {
        Some(uid2) => Ok(is_within(uid1, entity1, uid2)),
        None => is_in_set(alloc, uid1, entity1, arg2),
    }
}

// The same for what is no entity.
fn is_in_set(
    alloc: Global,
    uid1: &Rc<EntityUID>,
    entity1: Option<&Entity>,
    arg2: &Value,
) -> Result<bool, EvaluationError>
    ensures { uid_in arg2.now ≡ None → IsOperand (λ b. b)
        (within_of (is_within_entity uid1.now.value (option_copied entity1.entry)) arg2.now) result }
{
    match arg2.as_set() {
        Some(members) => is_within_some(alloc, uid1, entity1, members.authoritative()),
        None => Err(not_in_hierarchy(alloc, arg2)?),
    }
}

// Whether the entity is one of these, or below one. TypeError where one of them is no entity.
fn is_within_some(
    alloc: Global,
    uid1: &Rc<EntityUID>,
    entity1: Option<&Entity>,
    members: &[Value],
) -> Result<bool, EvaluationError>
    ensures { IsOperand (λ b. b)
        (option_map (list_any (is_within_entity uid1.now.value (option_copied entity1.entry)))
        (uids_in (all_of members.now))) result }
{
    let mut is_found = false;
    for member in members {
        let uid2 = get_as_entity(alloc, member)?;
        is_found = is_found || is_within(uid1, entity1, uid2);
    }
    Ok(is_found)
}

fn is_within(uid1: &Rc<EntityUID>, entity1: Option<&Entity>, uid2: &Rc<EntityUID>) -> bool
    ensures { result ≡ is_within_entity uid1.now.value (option_copied entity1.entry) uid2.now.value }
{
    **uid1 == **uid2 || is_descendant(entity1, uid2)
}

fn is_descendant(entity1: Option<&Entity>, uid2: &EntityUID) -> bool
    ensures { result ≡
        option_map_or (λ held. set.contains (ancestors_of held) uid2.now) (option_copied entity1.entry) false }
{
    match entity1 {
        Some(entity) => entity.is_descendant_of(uid2),
        None => false,
    }
}

// The error of a right operand that is neither an entity nor a set; refused for memory alone.
fn not_in_hierarchy(alloc: Global, value: &Value) -> Result<EvaluationError, AllocError>
    ensures { IfOk result (λ error. failure_of error ≡ OfKind TypeError) }
{
    let mut tail = Vec::new(alloc);
    tail.push(any_entity_type(alloc)?)?;
    let head = Type::Set;
    EvaluationError::type_error(alloc, NonEmpty { head, tail }, value)
}
