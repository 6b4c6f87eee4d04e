// Equality and order of two values.
ghost use Rattle.std.specs.Prelude.{◌≡◌, true, IfOk};
ghost use Rattle.std.specs.Option.{option_map};
ghost use Rattle.cedar_language.specs.Operators.{applied, less_of, less_eq_of, are_comparable};
ghost use Rattle.cedar_language.specs.Facts.{Facts};
ghost use Rattle.cedar_literals.specs.Operators.{binary_operator_of};
ghost use Rattle.cedar_language.specs.Value.{TypeError};
ghost use Rattle.cedar_extensions.specs.Failures.{OfKind, failure_of};
ghost use Rattle.cedar_extensions.specs.Giving.{Gives};
ghost use Rattle.cedar_value_operators.specs.Operands.{two, long_in, extension_in, IsOperand};
ghost use Rattle.cedar_value_operators.specs.Comparing.{is_relation, order_of_longs, order_of_extensions, order_of, seen};

use cedar_extensions::evaluation_error::EvaluationError;
use cedar_extensions::extensions::Extensions;
use cedar_literals::literals::Literal;
use cedar_literals::operators::BinaryOp;
use cedar_literals::types::Type;
use cedar_trees::unknowns::NonEmpty;
use cedar_values::extension_values::ExtensionValue;
use cedar_values::values::Value;
use std::alloc::{AllocError, Global};

// Whether a value is below another one, and whether it is below it or equal to it.
#[derive(Clone, Copy)]
struct Comparison {
    is_less: bool,
    is_less_or_equal: bool,
}

/// What `==`, `<` or `<=` gives for two values. `==` takes all values; the others take two longs, or two
/// extension values of one type that supports ordering, which go by the bytes of their keys. (Cedar
/// language reference, "Comparison operators and functions".)
///
/// It errs with `TypeError` for other operands of `<` and `<=`, which tells the types of `extensions`
/// that support ordering where neither operand is of a type that can be compared, and `Memory`.
pub fn binary_relation<F>(
    alloc: Global,
    op: BinaryOp,
    arg1: &Value,
    arg2: &Value,
    extensions: &Extensions<'_, F>,
) -> Result<Value, EvaluationError>
    requires { is_relation op ≡ true }
    ensures { (facts : Facts) → Gives (λ v. v) ⊥ result (applied facts (binary_operator_of op) (two arg1.now arg2.now)) }
{
    match op {
        BinaryOp::Eq => Ok(Value::from(Literal::Bool(arg1 == arg2))),
        BinaryOp::Less => less(alloc, arg1, arg2, extensions),
        BinaryOp::LessEq => less_eq(alloc, arg1, arg2, extensions),
        _ => unreachable!(),
    }
}

#[tactic(auto, using(crate::proofs::ByOrder::less_at))]
fn less<F>(
    alloc: Global,
    left: &Value,
    right: &Value,
    extensions: &Extensions<'_, F>,
) -> Result<Value, EvaluationError>
    ensures { Gives (λ v. v) ⊥ result (less_of (two left.now right.now)) }
{
    let comparison = compare(alloc, left, right, extensions)?;
    Ok(Value::from(Literal::Bool(comparison.is_less)))
}

#[tactic(auto, using(crate::proofs::ByOrder::less_eq_at))]
fn less_eq<F>(
    alloc: Global,
    left: &Value,
    right: &Value,
    extensions: &Extensions<'_, F>,
) -> Result<Value, EvaluationError>
    ensures { Gives (λ v. v) ⊥ result (less_eq_of (two left.now right.now)) }
{
    let comparison = compare(alloc, left, right, extensions)?;
    Ok(Value::from(Literal::Bool(comparison.is_less_or_equal)))
}

fn compare<F>(
    alloc: Global,
    left: &Value,
    right: &Value,
    extensions: &Extensions<'_, F>,
) -> Result<Comparison, EvaluationError>
    ensures { IsOperand seen (order_of left.now right.now) result }
{
    match order(left, right) {
        Some(comparison) => Ok(comparison),
        None => Err(not_comparable(alloc, left, right, extensions)?),
    }
}

fn order(left: &Value, right: &Value) -> Option<Comparison>
    ensures { order_of left.now right.now ≡ option_map seen result }
{
    match longs_order(left, right) {
        Some(comparison) => Some(comparison),
        None => extensions_order(left, right),
    }
}

fn longs_order(left: &Value, right: &Value) -> Option<Comparison>
    ensures { order_of_longs (long_in left.now) (long_in right.now) ≡ option_map seen result }
{
    let x = left.as_long()?;
    let y = right.as_long()?;
    Some(Comparison {
        is_less: x < y,
        is_less_or_equal: x <= y,
    })
}

fn extensions_order(left: &Value, right: &Value) -> Option<Comparison>
    ensures { order_of_extensions (extension_in left.now) (extension_in right.now) ≡ option_map seen result }
{
    let x = left.as_extension_value()?;
    let y = right.as_extension_value()?;
    if are_comparable(x, y) {
        let order = x.key().cmp(y.key());
        Some(Comparison {
            is_less: order.is_lt(),
            is_less_or_equal: order.is_le(),
        })
    } else {
        None
    }
}

fn are_comparable(x: &ExtensionValue, y: &ExtensionValue) -> bool
    ensures { result ≡ are_comparable x.now y.now }
{
    x.typename() == y.typename()
        && x.supports_operator_overloading()
        && y.supports_operator_overloading()
}

// The type that the other operand of a comparison fixes, if it is of one that can be compared.
fn type_to_compare(alloc: Global, value: &Value) -> Result<Option<Type>, AllocError> {
    if value.as_long().is_some() {
        return Ok(Some(Type::Long));
    }
    match value.as_extension_value() {
        Some(value) if value.supports_operator_overloading() => {
            let name = value.typename().clone(alloc)?;
            Ok(Some(Type::Extension { name }))
        }
        _ => Ok(None),
    }
}

// The error of a comparison of these values; refused for memory alone.
fn not_comparable<F>(
    alloc: Global,
    left: &Value,
    right: &Value,
    extensions: &Extensions<'_, F>,
) -> Result<EvaluationError, AllocError>
    ensures { IfOk result (λ error. failure_of error ≡ OfKind TypeError) }
{
    if let Some(ty) = type_to_compare(alloc, left)? {
        return EvaluationError::type_error_single(alloc, ty, right);
    }
    if let Some(ty) = type_to_compare(alloc, right)? {
        return EvaluationError::type_error_single(alloc, ty, left);
    }
    EvaluationError::type_error(alloc, comparable_types(alloc, extensions)?, left)
}

// The types whose values can be compared; refused for memory alone.
fn comparable_types<F>(
    alloc: Global,
    extensions: &Extensions<'_, F>,
) -> Result<NonEmpty<Type>, AllocError> {
    let mut tail = Vec::new(alloc);
    let mut names = extensions.types_with_operator_overloading();
    while let Some(name) = names.next() {
        let name = name.clone(alloc)?;
        tail.push(Type::Extension { name })?;
    }
    Ok(NonEmpty {
        head: Type::Long,
        tail,
    })
}
