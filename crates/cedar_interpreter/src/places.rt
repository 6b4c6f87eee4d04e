// Places of answers.
ghost use Rattle.std.specs.Prelude.{⊤};
ghost use Rattle.cedar_partial_evaluation.specs.Partial.{Answer};
ghost use Rattle.cedar_interpreter.specs.Meeting.{MeetsAt, IsLimit};

use cedar_extensions::evaluation_error::EvaluationError;
use cedar_names::places::Loc;
use cedar_restricted::partial_values::PartialValue;
use cedar_trees::expr::Expr;
use std::alloc::{AllocError, Global};

// A copy of the place of an expression.
fn place_of(alloc: Global, expr: &Expr) -> Result<Option<Loc>, AllocError> {
    match &expr.source_loc {
        None => Ok(None),
        Some(loc) => Ok(Some(loc.clone(alloc)?)),
    }
}

/// An answer at the place of its expression; an error that has a place keeps it.
#[inline(never)]
pub(crate) fn at_place(
    alloc: Global,
    answer: Result<PartialValue, EvaluationError>,
    expr: &Expr,
) -> Result<PartialValue, EvaluationError>
    ensures found { (b : Answer) → MeetsAt ⊤ b answer → MeetsAt ⊤ b result }
    ensures limit { IsLimit result → IsLimit answer }
{
    match answer {
        Ok(found) => Ok(found.with_maybe_source_loc(place_of(alloc, expr)?)),
        Err(error) => {
            if error.source_loc().is_some() {
                return Err(error);
            }
            Err(error.with_maybe_source_loc(place_of(alloc, expr)?))
        }
    }
}
