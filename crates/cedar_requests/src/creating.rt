// Contexts from expressions.
ghost use Rattle.std.specs.Prelude.{◌≡◌};
ghost use Rattle.cedar_trees.specs.Bare.{bare};
ghost use Rattle.cedar_trees.specs.Records.{record_made};
ghost use Rattle.cedar_extensions.specs.Table.{as_table};
ghost use Rattle.cedar_restricted.specs.Views.{borrowed_tree, restricted_entries};
ghost use Rattle.cedar_requests.specs.Contexts.{is_record as is_record_tree};
ghost use Rattle.cedar_requests.specs.Creating.{Creates, CreatesOf, DuplicateInContext};

use crate::contexts::Context;
use crate::errors::{ContextCreationError, NotARecord};
use crate::evaluating::evaluated;
use cedar_extensions::extensions::Extensions;
use cedar_extensions::objects::ExtensionFunctionObject;
use cedar_names::shared::Shared;
use cedar_restricted::borrowed::BorrowedRestrictedExpr;
use cedar_restricted::restricted::RestrictedExpr;
use cedar_trees::errors::ExpressionConstructionError;
use cedar_trees::expr::{Expr, ExprKind};
use std::alloc::Global;
use std::rc::RcStr;

impl Context {
    /// The context that an expression is evaluated to, evaluations nesting within `depth`, the outermost
    /// at 1: the record of its values, or what is left of it where something in it is unknown.
    ///
    /// Refused `NotARecord` exactly where it isn't written as a record, `Evaluation` where its evaluation
    /// errs or meets the limit, which it may only where the expression nests deeper, and for memory.
    /// (Cedar language reference, "Record".)
    pub fn from_expr<F: ExtensionFunctionObject>(
        alloc: Global,
        expr: BorrowedRestrictedExpr<'_>,
        extensions: &Extensions<'_, F>,
        depth: u32,
    ) -> Result<Context, ContextCreationError>
        ensures { Creates (as_table F.answers extensions.now) depth (borrowed_tree expr.entry) result }
    {
        if !is_record(expr.as_expr()) {
            return Err(ContextCreationError::NotARecord(NotARecord {
                expr: Shared::new(alloc, expr.as_expr().clone(alloc)?)?,
            }));
        }
        Ok(evaluated(alloc, expr, extensions, depth)?)
    }

    /// The context of these entries: that of the record of them. Refused `ExpressionConstruction` for the
    /// first key that stands before it too, `in context`; else as that record is by `from_expr`.
    pub fn from_pairs<F: ExtensionFunctionObject>(
        alloc: Global,
        pairs: Vec<(RcStr, RestrictedExpr)>,
        extensions: &Extensions<'_, F>,
        depth: u32,
    ) -> Result<Context, ContextCreationError>
        ensures { CreatesOf (as_table F.answers extensions.now) depth (record_made (restricted_entries pairs.items)) result }
    {
        match RestrictedExpr::record(alloc, pairs) {
            Ok(record) => Context::from_expr(alloc, record.as_borrowed(), extensions, depth),
            Err(error) => Err(in_context(error)),
        }
    }
}

fn is_record(expr: &Expr) -> bool
    ensures { result ≡ is_record_tree (bare expr.now) }
{
    match &expr.expr_kind {
        ExprKind::Record(_) => true,
        _ => false,
    }
}

// A key that stands twice in a context.
fn in_context(error: ExpressionConstructionError) -> ContextCreationError
    ensures { DuplicateInContext error result }
{
    match error {
        ExpressionConstructionError::DuplicateKey(error) => {
            ContextCreationError::ExpressionConstruction(ExpressionConstructionError::DuplicateKey(
                error.with_context("in context"),
            ))
        }
        ExpressionConstructionError::Memory(error) => ContextCreationError::Memory(error),
    }
}
