// The types of sets and records, by those of their items.
ghost use Rattle.std.specs.Prelude.{◌≡◌, IfOk, map};
ghost use Rattle.std.specs.Option.{option_map};
ghost use Rattle.cedar_typing.specs.Containers as typing;
ghost use Rattle.cedar_typechecker.specs.Containers.{lub_onto};
ghost use Rattle.cedar_typechecker.specs.Results.{FindsType};
ghost use Rattle.cedar_typechecker.specs.Types.{type_view};

use crate::faults::{TypingError, TypingFault};
use crate::types::ExprType;
use std::alloc::{AllocError, Global};
use std::rc::Rc;

// The least type above a type and those before it, if there is one; refused for memory alone.
#[tactic(auto, using(crate::proofs::Contained::lub_kept, crate::proofs::Contained::lub_lost))]
fn lub_onto(
    alloc: Global,
    types: Vec<ExprType>,
    last: ExprType,
) -> Result<Option<ExprType>, AllocError>
    ensures { IfOk result (λ found. option_map type_view found ≡ lub_onto (map type_view types.items) (type_view last)) }
{
    let mut types = types;
    let mut least = last;
    while let Some(before) = types.pop() {
        match before.lub(alloc, &least)? {
            Some(both) => least = both,
            None => return Ok(None),
        }
    }
    Ok(Some(least))
}

/// The type of a set of items of these types, which must have something in common.
#[tactic(auto, using(crate::proofs::Contained::set_of_last))]
pub(crate) fn set_type(alloc: Global, types: Vec<ExprType>) -> Result<ExprType, TypingError>
    ensures { FindsType (typing.set_type (map type_view types.items)) result }
{
    let mut types = types;
    let Some(last) = types.pop() else {
        return Err(TypingError::Faulty(TypingFault::EmptySetForbidden));
    };
    match lub_onto(alloc, types, last)? {
        Some(element) => Ok(ExprType::Set(Rc::new(alloc, element)?)),
        None => Err(TypingError::Faulty(TypingFault::IncompatibleTypes)),
    }
}
