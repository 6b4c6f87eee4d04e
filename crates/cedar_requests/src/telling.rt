// Contexts once values are told.
ghost use Rattle.std.specs.Prelude.{◌≡◌, true, IfOk};
ghost use Rattle.std.specs.Option.{option_copied};
ghost use Rattle.cedar_language.specs.Restricted.{is_restricted};
ghost use Rattle.cedar_trees.specs.Bare.{bare};
ghost use Rattle.cedar_trees.specs.Unknowns.{unknown_type};
ghost use Rattle.cedar_extensions.specs.Table.{as_table};
ghost use Rattle.cedar_substitution.specs.Typed.{mistyped as mistyped_value, mistyped_in};
ghost use Rattle.cedar_requests.specs.Contexts.{is_record};
ghost use Rattle.cedar_requests.specs.Telling.{IsMistypingOf, TellsRecord};

use crate::contexts::Context;
use crate::evaluating::evaluated;
use cedar_extensions::evaluation_error::EvaluationError;
use cedar_extensions::extensions::Extensions;
use cedar_extensions::objects::ExtensionFunctionObject;
use cedar_literals::types::StaticallyTyped;
use cedar_restricted::borrowed::BorrowedRestrictedExpr;
use cedar_restricted::partial_value_laws::written_values_are_restricted;
use cedar_shapes::iteration::Unknowns;
use cedar_substitution::finding::find_told;
use cedar_substitution::told_values::Substitute;
use cedar_trees::expr::Expr;
use cedar_trees::unknowns::Unknown;
use cedar_values::values::Value;
use std::alloc::{AllocError, Global};
use std::collections::BTreeMap;
use std::rc::RcStr;

/// The context that a record gives once values are told.
pub(crate) fn record_told<F: ExtensionFunctionObject>(
    alloc: Global,
    expr: &Expr,
    told: &BTreeMap<RcStr, Value>,
    extensions: &Extensions<'_, F>,
    depth: u32,
) -> Result<Context, EvaluationError>
    requires record { is_record (bare expr.now) ≡ true }
    requires restricted { is_restricted (bare expr.now) ≡ true }
    ensures { TellsRecord (as_table F.answers extensions.now) depth told.now.entries (bare expr.now) (mistyped_in told.now.entries (bare expr.now)) result }
{
    if let Some(error) = mistyped(alloc, expr, told)? {
        return Err(error);
    }
    written_values_are_restricted();
    let expr = expr.substitute(alloc, told)?;
    let expr = BorrowedRestrictedExpr::new_unchecked(&expr);
    evaluated(alloc, expr, extensions, depth)
}

// The error of the leftmost unknown that is told a value of another type than its own. The unknowns come
// from the last to the first.
fn mistyped(
    alloc: Global,
    expr: &Expr,
    told: &BTreeMap<RcStr, Value>,
) -> Result<Option<EvaluationError>, AllocError>
    ensures { IfOk result (λ error. IsMistypingOf (mistyped_in told.now.entries (bare expr.now)) error) }
{
    let mut leftmost = None;
    for unknown in Unknowns::new(alloc, expr)? {
        let error = mistyped_one(alloc, unknown, find_told(told, unknown.name.as_str()))?;
        leftmost = error.or(leftmost);
    }
    Ok(leftmost)
}

// The error of an unknown that is told a value of another type than its own.
fn mistyped_one(
    alloc: Global,
    unknown: &Unknown,
    told: Option<&Value>,
) -> Result<Option<EvaluationError>, AllocError>
    ensures { IfOk result (λ error. IsMistypingOf (mistyped_value (unknown_type unknown.now) (option_copied told.entry)) error) }
{
    let Some(expected) = &unknown.type_annotation else {
        return Ok(None);
    };
    let Some(value) = told else {
        return Ok(None);
    };
    if *expected == value.type_of(alloc)? {
        return Ok(None);
    }
    let expected = expected.clone()?;
    Ok(Some(EvaluationError::type_error_single(alloc, expected, value)?))
}
