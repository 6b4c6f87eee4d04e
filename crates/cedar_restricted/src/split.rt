// Partial values split into values, or expressions.
ghost use Rattle.std.specs.Prelude.{◌≡◌, map, true, false, IfOk};
ghost use Rattle.std.specs.List.{list_any};
ghost use Rattle.cedar_restricted.specs.PartialValues.{partial_of};
ghost use Rattle.cedar_restricted.specs.Splitting.{IsSplitOf, ExpressEach, is_residual as is_residual_part};
ghost use Rattle.cedar_trees.specs.Bare.{bare};
ghost use Rattle.either.specs.declared.Either.TheVariants.{Left};

use crate::partial_values::PartialValue;
use cedar_names::conversions::FromIn;
use cedar_trees::expr::Expr;
use cedar_values::values::Value;
use either::Either;
use std::alloc::{AllocError, Global};

/// The values, where no item is a residual; else an expression for each item. Both are in the order
/// of the items. Refused for memory alone.
pub fn split(
    alloc: Global,
    items: Vec<PartialValue>,
) -> Result<Either<Vec<Value>, Vec<Expr>>, AllocError>
    ensures { IfOk result (λ split. IsSplitOf (map partial_of items.items) split) }
{
    if has_residual(&items) {
        Ok(Either::Right(exprs(alloc, items)?))
    } else {
        Ok(Either::Left(values(alloc, items)?))
    }
}

fn has_residual(items: &[PartialValue]) -> bool
    ensures { result ≡ list_any (λ item. is_residual_part (partial_of item)) items.now }
{
    items.iter().any(|item| is_residual(item))
}

fn is_residual(item: &PartialValue) -> bool
    ensures { result ≡ is_residual_part (partial_of item.now) }
{
    matches!(item, PartialValue::Residual(_))
}

fn values(alloc: Global, items: Vec<PartialValue>) -> Result<Vec<Value>, AllocError>
    requires { list_any is_residual_part (map partial_of items.items) ≡ false }
    ensures { IfOk result (λ values. map partial_of items.items ≡ map Left values.items) }
{
    let mut values = Vec::new(alloc);
    for item in items {
        match item {
            PartialValue::Value(value) => values.push(value)?,
            PartialValue::Residual(_) => unreachable!(),
        }
    }
    Ok(values)
}

fn exprs(alloc: Global, items: Vec<PartialValue>) -> Result<Vec<Expr>, AllocError>
    ensures { IfOk result (λ exprs. ExpressEach (map partial_of items.items) (map bare exprs.items)) }
{
    let mut exprs = Vec::new(alloc);
    for item in items {
        exprs.push(Expr::from_in(alloc, item)?)?;
    }
    Ok(exprs)
}
