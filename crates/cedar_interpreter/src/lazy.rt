// Operators that evaluate what they need.
ghost use Rattle.std.specs.Prelude.{◌≡◌, ⊤, true, false, ◌⊎◌};
ghost use Rattle.cedar_language.specs.Facts.{Facts};
ghost use Rattle.cedar_language.specs.Tree as tree;
ghost use Rattle.cedar_language.specs.Tree.{Lit, Boolean};
ghost use Rattle.cedar_partial_evaluation.specs.Partial.{Answer, ResidualTree, last_answer, best_effort as effort};
ghost use Rattle.cedar_extensions.specs.Failures.{failure_of};
ghost use Rattle.cedar_trees.specs.Bare.{bare};
ghost use Rattle.cedar_interpreter.specs.Meeting.{MeetsAt, TestsAt, EffortAt, IsLimit, tested_answer, is_passed_up};

use crate::nodes::{both_true, one_true, truth};
use cedar_extensions::evaluation_error::EvaluationError;
use cedar_extensions::lookups::ExtensionFunctionLookupError;
use cedar_literals::literals::Literal;
use cedar_literals::types::Type;
use cedar_names::conversions::FromIn;
use cedar_restricted::partial_values::PartialValue;
use cedar_trees::expr::Expr;
use std::alloc::Global;
use std::rc::Rc;

/// What an operand that is tested is found to be.
#[derive(Drop)]
pub(crate) enum Tested {
    /// False.
    No,
    /// True.
    Yes,
    /// Not known yet; this is left of it.
    Open(Expr),
}

/// Tests an answer, which must be Boolean.
pub(crate) fn test_answer(
    alloc: Global,
    answer: Result<PartialValue, EvaluationError>,
) -> Result<Tested, EvaluationError>
    ensures found { (b : Answer) → MeetsAt ⊤ b answer → TestsAt (tested_answer b) result }
    ensures limit { IsLimit result → IsLimit answer }
{
    match answer {
        Err(error) => Err(error),
        Ok(PartialValue::Residual(rest)) => Ok(Tested::Open(rest)),
        Ok(PartialValue::Value(value)) => match value.as_bool() {
            Some(true) => Ok(Tested::Yes),
            Some(false) => Ok(Tested::No),
            None => Err(EvaluationError::type_error_single(alloc, Type::Bool, &value)?),
        },
    }
}

/// The answer of `&&` whose left operand is true, by its right one's.
pub fn last_of_and(
    alloc: Global,
    answer: Result<PartialValue, EvaluationError>,
) -> Result<PartialValue, EvaluationError>
    ensures found { (y : Answer) → MeetsAt ⊤ y answer → MeetsAt ⊤ (last_answer (tree.And (Lit (Boolean true))) y) result }
    ensures limit { IsLimit result → IsLimit answer }
{
    match test_answer(alloc, answer)? {
        Tested::No => Ok(truth(false)),
        Tested::Yes => Ok(truth(true)),
        Tested::Open(rest) => {
            let left = Rc::new(alloc, Expr::val(Literal::Bool(true)))?;
            let right = Rc::new(alloc, rest)?;
            Ok(PartialValue::from(both_true(left, right)))
        }
    }
}

/// The answer of `||` whose left operand is false, by its right one's.
pub(crate) fn last_of_or(
    alloc: Global,
    answer: Result<PartialValue, EvaluationError>,
) -> Result<PartialValue, EvaluationError>
    ensures found { (y : Answer) → MeetsAt ⊤ y answer → MeetsAt ⊤ (last_answer (tree.Or (Lit (Boolean false))) y) result }
    ensures limit { IsLimit result → IsLimit answer }
{
    match test_answer(alloc, answer)? {
        Tested::No => Ok(truth(false)),
        Tested::Yes => Ok(truth(true)),
        Tested::Open(rest) => {
            let left = Rc::new(alloc, Expr::val(Literal::Bool(false)))?;
            let right = Rc::new(alloc, rest)?;
            Ok(PartialValue::from(one_true(left, right)))
        }
    }
}

// Whether best effort hands an error on: where the limit was met, and where memory ran out.
fn passes_up(error: &EvaluationError) -> bool
    ensures { result ≡ is_passed_up (failure_of error.now) }
{
    match error {
        EvaluationError::RecursionLimit(_) => true,
        EvaluationError::Memory => true,
        EvaluationError::EntityDoesNotExist(_) => false,
        EvaluationError::EntityAttrDoesNotExist(_) => false,
        EvaluationError::RecordAttrDoesNotExist(_) => false,
        EvaluationError::FailedExtensionFunctionLookup(error) => match error {
            ExtensionFunctionLookupError::Memory(_) => true,
            ExtensionFunctionLookupError::FuncDoesNotExist(_) => false,
        },
        EvaluationError::TypeError(_) => false,
        EvaluationError::WrongNumArguments(_) => false,
        EvaluationError::IntegerOverflow(_) => false,
        EvaluationError::UnlinkedSlot(_) => false,
        EvaluationError::FailedExtensionFunctionExecution(_) => false,
        EvaluationError::NonValue(_) => false,
    }
}

// An answer as an expression, or the original where it errs.
fn best_effort(
    alloc: Global,
    answer: Result<PartialValue, EvaluationError>,
    original: &Rc<Expr>,
) -> Result<Rc<Expr>, EvaluationError>
    ensures found { (facts : Facts) (y : Answer) → MeetsAt ⊤ y answer → EffortAt (effort facts y (bare original.now.value)) result }
    ensures limit { IsLimit result → IsLimit answer }
{
    match answer {
        Ok(found) => Ok(Rc::new(alloc, Expr::from_in(alloc, found)?)?),
        Err(error) => {
            if passes_up(&error) {
                return Err(error);
            }
            Ok(original.clone()?)
        }
    }
}

/// What is left of `&&` whose left operand isn't known: the right one stands there as it was written
/// where it errs.
pub(crate) fn open_and(
    alloc: Global,
    rest: Expr,
    answer: Result<PartialValue, EvaluationError>,
    original: &Rc<Expr>,
) -> Result<PartialValue, EvaluationError>
    ensures found { (facts : Facts) (y : Answer) → MeetsAt ⊤ y answer →
        MeetsAt ⊤ (ResidualTree (tree.And (bare rest) (effort facts y (bare original.now.value)))) result }
    ensures limit { IsLimit result → IsLimit answer }
{
    let right = best_effort(alloc, answer, original)?;
    let left = Rc::new(alloc, rest)?;
    Ok(PartialValue::from(both_true(left, right)))
}

/// What is left of `||` whose left operand isn't known.
pub(crate) fn open_or(
    alloc: Global,
    rest: Expr,
    answer: Result<PartialValue, EvaluationError>,
    original: &Rc<Expr>,
) -> Result<PartialValue, EvaluationError>
    ensures found { (facts : Facts) (y : Answer) → MeetsAt ⊤ y answer →
        MeetsAt ⊤ (ResidualTree (tree.Or (bare rest) (effort facts y (bare original.now.value)))) result }
    ensures limit { IsLimit result → IsLimit answer }
{
    let right = best_effort(alloc, answer, original)?;
    let left = Rc::new(alloc, rest)?;
    Ok(PartialValue::from(one_true(left, right)))
}

/// What is left of `if` whose test isn't known.
pub(crate) fn open_if(
    alloc: Global,
    rest: Expr,
    yes: Result<PartialValue, EvaluationError>,
    yes_original: &Rc<Expr>,
    no: Result<PartialValue, EvaluationError>,
    no_original: &Rc<Expr>,
) -> Result<PartialValue, EvaluationError>
    ensures found { (facts : Facts) (y z : Answer) → MeetsAt ⊤ y yes → MeetsAt ⊤ z no →
        MeetsAt ⊤ (ResidualTree (tree.If (bare rest) (effort facts y (bare yes_original.now.value)) (effort facts z (bare no_original.now.value)))) result }
    ensures limit { IsLimit result → IsLimit yes ⊎ IsLimit no }
{
    let then_expr = best_effort(alloc, yes, yes_original)?;
    let else_expr = best_effort(alloc, no, no_original)?;
    let test_expr = Rc::new(alloc, rest)?;
    Ok(PartialValue::from(Expr::ite_arc(test_expr, then_expr, else_expr)))
}
