// Contexts from the evaluation of records.
ghost use Rattle.std.specs.Prelude.{◌≡◌, ◌≤◌, true, IfOk, map};
ghost use Rattle.either.specs.declared.Either.TheVariants.{Left, Right};
ghost use Rattle.cedar_language.specs.Height.{height};
ghost use Rattle.cedar_language.specs.Value.{RecordOf};
ghost use Rattle.cedar_trees.specs.Bare.{bare, bare_entries, record_tree};
ghost use Rattle.cedar_values.specs.Kinds.{keys_of, values_of};
ghost use Rattle.cedar_extensions.specs.Table.{as_table};
ghost use Rattle.cedar_restricted.specs.PartialValues.{partial_of};
ghost use Rattle.cedar_restricted.specs.Views.{borrowed_tree};
ghost use Rattle.cedar_restricted_evaluation.specs.Evaluations.{IsLeft};
ghost use Rattle.cedar_requests.specs.Contexts.{context_part, is_record};
ghost use Rattle.cedar_requests.specs.Creating.{MeansContext, AnswersContext, is_record_part, is_record_value};

use crate::contexts::Context;
use crate::residuals::ResidualEntries;
use cedar_extensions::evaluation_error::EvaluationError;
use cedar_extensions::extensions::Extensions;
use cedar_extensions::objects::ExtensionFunctionObject;
use cedar_restricted::borrowed::BorrowedRestrictedExpr;
use cedar_restricted::partial_values::PartialValue;
use cedar_restricted_evaluation::interpret_restricted;
use cedar_trees::expr::{Expr, ExprKind};
use cedar_values::values::{Value, ValueKind};
use std::alloc::{AllocError, Global};
use std::collections::BTreeMap;
use std::rc::{Rc, RcStr};

/// The context that a record is evaluated to within this depth, or why it has none.
pub(crate) fn evaluated<F: ExtensionFunctionObject>(
    alloc: Global,
    expr: BorrowedRestrictedExpr<'_>,
    extensions: &Extensions<'_, F>,
    depth: u32,
) -> Result<Context, EvaluationError>
    requires { is_record (borrowed_tree expr) ≡ true }
    ensures meaning { MeansContext (as_table F.answers extensions.now) depth (borrowed_tree expr.entry) result }
    ensures answer { AnswersContext (as_table F.answers extensions.now) depth (borrowed_tree expr.entry) result }
    ensures limit { IfOk result (λ context. height (borrowed_tree expr.entry) ≤ depth) }
{
    let found = interpret_restricted(alloc, expr, extensions, depth)?;
    Ok(context_of(&found)?)
}

// The context that this record is, or what is left of one.
fn context_of(found: &PartialValue) -> Result<Context, AllocError>
    requires record { is_record_part (partial_of found.now) ≡ true }
    requires left { IsLeft (partial_of found.now) }
    ensures { IfOk result (λ context. context_part context ≡ partial_of found.now) }
{
    match found {
        PartialValue::Value(value) => Ok(Context::Value(fields_of(value)?)),
        PartialValue::Residual(expr) => Ok(Context::RestrictedResidual(ResidualEntries::new(
            entries_of(expr)?,
        ))),
    }
}

// The attributes of the record that a value is.
fn fields_of(value: &Value) -> Result<Rc<BTreeMap<RcStr, Value>>, AllocError>
    requires { is_record_value value.now ≡ true }
    ensures { IfOk result (λ fields. RecordOf (keys_of fields.value.entries) (values_of fields.value.entries) ≡ value.now) }
{
    match value.value_kind() {
        ValueKind::Record(fields) => fields.clone(),
        ValueKind::Lit(_) => unreachable!(),
        ValueKind::Set(_) => unreachable!(),
        ValueKind::ExtensionValue(_) => unreachable!(),
    }
}

/// The entries of the record that an expression is.
pub(crate) fn entries_of(expr: &Expr) -> Result<Rc<BTreeMap<RcStr, Expr>>, AllocError>
    requires { is_record (bare expr.now) ≡ true }
    ensures { IfOk result (λ entries. record_tree (bare_entries entries.value.entries) ≡ bare expr.now) }
{
    match &expr.expr_kind {
        ExprKind::Record(entries) => entries.clone(),
        _ => unreachable!(),
    }
}
