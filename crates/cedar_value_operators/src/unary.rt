// Operators of one operand.
ghost use Rattle.cedar_language.specs.Operators.{applied, not_of, negated, is_empty};
ghost use Rattle.cedar_language.specs.Facts.{Facts};
ghost use Rattle.cedar_literals.specs.Operators.{unary_operator_of};
ghost use Rattle.cedar_extensions.specs.Giving.{Gives};
ghost use Rattle.cedar_value_operators.specs.Operands.{one};

use crate::operands::{copied, get_as_bool, get_as_long, get_as_set};
use cedar_extensions::evaluation_error::EvaluationError;
use cedar_extensions::operands::{IntegerOverflowError, UnaryOpOverflowError};
use cedar_literals::literals::Literal;
use cedar_literals::operators::UnaryOp;
use cedar_names::places::Loc;
use cedar_values::values::Value;
use std::alloc::Global;

/// What an operator of one operand gives: `!` of a Boolean, `-` of a long, `isEmpty` of a set. (Cedar
/// language reference, "Operators and functions".)
///
/// It errs with `TypeError` for an operand of another type, `IntegerOverflow` at `loc` where the
/// negative is no long, and `Memory`.
pub fn unary_app(
    alloc: Global,
    op: UnaryOp,
    arg: Value,
    loc: Option<&Loc>,
) -> Result<Value, EvaluationError>
    ensures { (facts : Facts) → Gives (λ v. v) ⊥ result (applied facts (unary_operator_of op) (one arg)) }
{
    match op {
        UnaryOp::Not => not(alloc, &arg),
        UnaryOp::Neg => negate(alloc, arg, loc),
        UnaryOp::IsEmpty => is_empty(alloc, &arg),
    }
}

#[tactic(auto, using(crate::proofs::ByOperand::not_at))]
fn not(alloc: Global, arg: &Value) -> Result<Value, EvaluationError>
    ensures { Gives (λ v. v) ⊥ result (not_of (one arg.now)) }
{
    let b = get_as_bool(alloc, arg)?;
    Ok(Value::from(Literal::Bool(!b)))
}

#[tactic(auto, using(crate::proofs::ByOperand::negated_at))]
fn negate(alloc: Global, arg: Value, loc: Option<&Loc>) -> Result<Value, EvaluationError>
    ensures { Gives (λ v. v) ⊥ result (negated (one arg)) }
{
    let n = get_as_long(alloc, &arg)?;
    match n.checked_neg() {
        Some(negative) => Ok(Value::from(Literal::Long(negative))),
        None => {
            let error = UnaryOpOverflowError::new(alloc, UnaryOp::Neg, arg, copied(alloc, loc)?)?;
            Err(EvaluationError::from(IntegerOverflowError::from(error)))
        }
    }
}

fn is_empty(alloc: Global, arg: &Value) -> Result<Value, EvaluationError>
    ensures { Gives (λ v. v) ⊥ result (is_empty (one arg.now)) }
{
    let set = get_as_set(alloc, arg)?;
    Ok(Value::from(Literal::Bool(set.is_empty())))
}
