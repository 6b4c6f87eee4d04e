// What an operand is, or TypeError where it isn't of the type that an operator takes.
ghost use Rattle.std.specs.Prelude.{◌≡◌, [], ◌∷◌, IfOk, codes};
ghost use Rattle.std.specs.Option.{option_copied};
ghost use Rattle.std.specs.Rc.{rc_str_bytes};
ghost use Rattle.cedar_language.specs.Order.{all_of};
ghost use Rattle.cedar_language.specs.Tree.{EntityType};
ghost use Rattle.cedar_literals.specs.Types.{value_type_of};
ghost use Rattle.cedar_value_operators.specs.Operands.{boolean_in, long_in, text_in, uid_in, members_in, IsOperand};

use cedar_extensions::evaluation_error::EvaluationError;
use cedar_literals::literals::Integer;
use cedar_literals::types::Type;
use cedar_literals::uids::EntityUID;
use cedar_names::names::Name;
use cedar_names::places::Loc;
use cedar_values::values::{Set, Value};
use std::alloc::{AllocError, Global};
use std::rc::{Rc, RcStr};

/// The Boolean that an operand has to be. It errs with `TypeError` where it is none, and for memory.
pub fn get_as_bool(alloc: Global, value: &Value) -> Result<bool, EvaluationError>
    ensures { IsOperand (λ b. b) (boolean_in value.now) result }
{
    match value.as_bool() {
        Some(b) => Ok(b),
        None => Err(EvaluationError::type_error_single(alloc, Type::Bool, value)?),
    }
}

// The long that an operand has to be.
pub(crate) fn get_as_long(alloc: Global, value: &Value) -> Result<Integer, EvaluationError>
    ensures { IsOperand (λ n. n) (long_in value.now) result }
{
    match value.as_long() {
        Some(n) => Ok(n),
        None => Err(EvaluationError::type_error_single(alloc, Type::Long, value)?),
    }
}

/// The string that an operand has to be. It errs with `TypeError` where it is none, and for memory.
pub fn get_as_string(alloc: Global, value: &Value) -> Result<&RcStr, EvaluationError>
    ensures { IsOperand (λ text. rc_str_bytes text.now) (text_in value.now) result }
{
    match value.as_string() {
        Some(text) => Ok(text),
        None => Err(EvaluationError::type_error_single(alloc, Type::String, value)?),
    }
}

// The set that an operand has to be.
pub(crate) fn get_as_set(alloc: Global, value: &Value) -> Result<&Set, EvaluationError>
    ensures { IsOperand (λ set. all_of set.now) (members_in value.now) result }
{
    match value.as_set() {
        Some(set) => Ok(set),
        None => Err(EvaluationError::type_error_single(alloc, Type::Set, value)?),
    }
}

/// The entity that an operand has to be. It errs with `TypeError` where it is none, and for memory.
pub fn get_as_entity(alloc: Global, value: &Value) -> Result<&Rc<EntityUID>, EvaluationError>
    ensures { IsOperand (λ uid. uid.now.value) (uid_in value.now) result }
{
    match value.as_entity() {
        Some(uid) => Ok(uid),
        None => Err(EvaluationError::type_error_single(alloc, any_entity_type(alloc)?, value)?),
    }
}

/// What errors call the type of all entities. Refused for want of memory alone.
pub fn any_entity_type(alloc: Global) -> Result<Type, AllocError>
    ensures { IfOk result (λ ty. value_type_of ty ≡ EntityType (codes "any_entity_type" ∷ [])) }
{
    Ok(Type::entity_type(Name::of_identifier(alloc, "any_entity_type")?))
}

/// A copy of a place, if there is one. Refused for want of memory alone.
pub fn copied(alloc: Global, loc: Option<&Loc>) -> Result<Option<Loc>, AllocError>
    ensures { IfOk result (λ copy. copy ≡ option_copied loc.entry) }
{
    match loc {
        None => Ok(None),
        Some(loc) => Ok(Some(loc.clone(alloc)?)),
    }
}
