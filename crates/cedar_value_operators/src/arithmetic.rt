// Arithmetic of two longs.
ghost use Rattle.std.specs.Prelude.{◌≡◌, ◌+ℤ◌, ◌-ℤ◌, ◌*ℤ◌, true, IfOk};
ghost use Rattle.cedar_language.specs.Operators.{applied, arithmetic};
ghost use Rattle.cedar_language.specs.Facts.{Facts};
ghost use Rattle.cedar_language.specs.Value.{IntegerOverflow};
ghost use Rattle.cedar_literals.specs.Operators.{binary_operator_of};
ghost use Rattle.cedar_extensions.specs.Failures.{OfKind, failure_of};
ghost use Rattle.cedar_extensions.specs.Giving.{Gives};
ghost use Rattle.cedar_value_operators.specs.Operands.{two, is_arithmetic};

use crate::operands::{copied, get_as_long};
use cedar_extensions::evaluation_error::EvaluationError;
use cedar_extensions::operands::{BinaryOpOverflowError, IntegerOverflowError};
use cedar_literals::literals::Literal;
use cedar_literals::operators::BinaryOp;
use cedar_names::places::Loc;
use cedar_values::values::Value;
use std::alloc::{AllocError, Global};

/// What `+`, `-` or `*` gives for two longs. (Cedar language reference, "Arithmetic operators and
/// functions".)
///
/// It errs with `TypeError` where one of them is no long, the first one before the second,
/// `IntegerOverflow` at `loc` where the result is no long, and `Memory`.
pub fn binary_arith(
    alloc: Global,
    op: BinaryOp,
    arg1: Value,
    arg2: Value,
    loc: Option<&Loc>,
) -> Result<Value, EvaluationError>
    requires { is_arithmetic op ≡ true }
    ensures { (facts : Facts) → Gives (λ v. v) ⊥ result (applied facts (binary_operator_of op) (two arg1 arg2)) }
{
    match op {
        BinaryOp::Add => add(alloc, arg1, arg2, loc),
        BinaryOp::Sub => subtract(alloc, arg1, arg2, loc),
        BinaryOp::Mul => multiply(alloc, arg1, arg2, loc),
        _ => unreachable!(),
    }
}

#[tactic(auto, using(crate::proofs::ByOperand::sum_at))]
fn add(
    alloc: Global,
    left: Value,
    right: Value,
    loc: Option<&Loc>,
) -> Result<Value, EvaluationError>
    ensures { Gives (λ v. v) ⊥ result (arithmetic (λ x y. x +ℤ y) (two left right)) }
{
    let x = get_as_long(alloc, &left)?;
    let y = get_as_long(alloc, &right)?;
    match x.checked_add(y) {
        Some(sum) => Ok(Value::from(Literal::Long(sum))),
        None => Err(overflow(alloc, BinaryOp::Add, left, right, loc)?),
    }
}

#[tactic(auto, using(crate::proofs::ByOperand::difference_at))]
fn subtract(
    alloc: Global,
    left: Value,
    right: Value,
    loc: Option<&Loc>,
) -> Result<Value, EvaluationError>
    ensures { Gives (λ v. v) ⊥ result (arithmetic (λ x y. x -ℤ y) (two left right)) }
{
    let x = get_as_long(alloc, &left)?;
    let y = get_as_long(alloc, &right)?;
    match x.checked_sub(y) {
        Some(difference) => Ok(Value::from(Literal::Long(difference))),
        None => Err(overflow(alloc, BinaryOp::Sub, left, right, loc)?),
    }
}

#[tactic(auto, using(crate::proofs::ByOperand::product_at))]
fn multiply(
    alloc: Global,
    left: Value,
    right: Value,
    loc: Option<&Loc>,
) -> Result<Value, EvaluationError>
    ensures { Gives (λ v. v) ⊥ result (arithmetic (λ x y. x *ℤ y) (two left right)) }
{
    let x = get_as_long(alloc, &left)?;
    let y = get_as_long(alloc, &right)?;
    match x.checked_mul(y) {
        Some(product) => Ok(Value::from(Literal::Long(product))),
        None => Err(overflow(alloc, BinaryOp::Mul, left, right, loc)?),
    }
}

// The error of an operator whose result is no long; refused for memory alone.
fn overflow(
    alloc: Global,
    op: BinaryOp,
    left: Value,
    right: Value,
    loc: Option<&Loc>,
) -> Result<EvaluationError, AllocError>
    ensures { IfOk result (λ error. failure_of error ≡ OfKind IntegerOverflow) }
{
    let error = BinaryOpOverflowError::new(alloc, op, left, right, copied(alloc, loc)?)?;
    Ok(EvaluationError::from(IntegerOverflowError::from(error)))
}
