// Contexts of requests.

use crate::residuals::ResidualEntries;
use crate::telling::record_told;
use cedar_extensions::evaluation_error::EvaluationError;
use cedar_extensions::extensions::Extensions;
use cedar_extensions::objects::ExtensionFunctionObject;
use cedar_names::conversions::FromIn;
use cedar_restricted::partial_values::PartialValue;
use cedar_restricted::restricted::RestrictedExpr;
use cedar_trees::expr::Expr;
use cedar_values::values::Value;
use std::alloc::{AllocError, Global};
use std::collections::BTreeMap;
use std::rc::{Rc, RcStr};

/// What else is known of a request: a record, of values, or of what is left of them where something is
/// unknown. Copies share its entries. Contracts see it by `context_part`: the record, or the tree of what
/// is left of it. (Cedar language reference, "Request".)
#[derive(Debug)]
pub enum Context {
    /// Every entry is a value.
    Value(Rc<BTreeMap<RcStr, Value>>),
    /// Some entry waits for a value of an unknown.
    RestrictedResidual(ResidualEntries),
}

// By hand, so that letting go of one is a call, whichever it is.
impl Drop for Context {
    fn drop(self) {
        match self {
            Context::Value(_entries) => {}
            Context::RestrictedResidual(_entries) => {}
        }
    }
}

impl Context {
    ghost use Rattle.std.specs.Prelude.{◌≡◌, [], IfOk, length};
    ghost use Rattle.either.specs.declared.Either.TheVariants.{Left};
    ghost use Rattle.cedar_language.specs.Value.{RecordOf, no_values};
    ghost use Rattle.cedar_requests.specs.Contexts.{context_part, context_keys};

    /// The context without entries; refused for memory alone.
    pub fn empty(alloc: Global) -> Result<Context, AllocError>
        ensures { IfOk result (λ context. context_part context ≡ Left (RecordOf [] no_values)) }
    {
        Ok(Context::Value(Rc::new(alloc, BTreeMap::new(alloc))?))
    }

    /// How many entries it has.
    pub fn num_keys(&self) -> usize
        ensures { result ≡ length (context_keys self.now) }
    {
        match self {
            Context::Value(entries) => entries.len(),
            Context::RestrictedResidual(residual) => residual.entries().len(),
        }
    }

    /// A copy that shares the entries; refused for memory alone.
    pub fn clone(&self, _alloc: Global) -> Result<Context, AllocError>
        ensures { IfOk result (λ copy. context_part copy ≡ context_part self.now) }
    {
        match self {
            Context::Value(entries) => Ok(Context::Value(entries.clone()?)),
            Context::RestrictedResidual(residual) => Ok(Context::RestrictedResidual(
                ResidualEntries::new(residual.entries().clone()?),
            )),
        }
    }
}

impl Context {
    ghost use Rattle.std.specs.Prelude.{◌≡◌, IfOk};
    ghost use Rattle.cedar_restricted.specs.PartialValues.{partial_of, PartExpresses};
    ghost use Rattle.cedar_restricted.specs.Views.{restricted_tree};
    ghost use Rattle.cedar_requests.specs.Contexts.{context_part};

    fn into_partial_value(self) -> PartialValue
        ensures { partial_of result ≡ context_part self }
    {
        match self {
            Context::Value(entries) => PartialValue::from(Value::record_arc(entries, None)),
            Context::RestrictedResidual(residual) => {
                PartialValue::from(Expr::record_arc(residual.into_entries()))
            }
        }
    }

    fn into_restricted(self, alloc: Global) -> Result<RestrictedExpr, AllocError>
        ensures { IfOk result (λ expr. PartExpresses (context_part self) (restricted_tree expr)) }
    {
        match self {
            Context::Value(entries) => {
                RestrictedExpr::from_in(alloc, Value::record_arc(entries, None))
            }
            Context::RestrictedResidual(residual) => Ok(RestrictedExpr::new_unchecked(
                Expr::record_arc(residual.into_entries()),
            )),
        }
    }
}

impl Context {
    ghost use Rattle.cedar_extensions.specs.Table.{as_table};
    ghost use Rattle.cedar_requests.specs.Contexts.{context_part};
    ghost use Rattle.cedar_requests.specs.Telling.{TellsContext};

    /// The context with the values that are told in the places of their unknowns, evaluated again,
    /// evaluations nesting within `depth`, the outermost at 1. A context of values is given back as it is.
    ///
    /// It errs with `TypeError` where an unknown whose type is stated is told a value of another type,
    /// with these types at the leftmost one, records in the order of their keys; else with what the
    /// evaluation errs with, `RecursionLimit` where what is evaluated nests deeper than `depth`; and with
    /// `Memory`. (Cedar language reference, "Partial evaluation".)
    pub fn substitute<F: ExtensionFunctionObject>(
        self,
        alloc: Global,
        told: &BTreeMap<RcStr, Value>,
        extensions: &Extensions<'_, F>,
        depth: u32,
    ) -> Result<Context, EvaluationError>
        ensures { TellsContext (as_table F.answers extensions.now) depth told.now.entries (context_part self) result }
    {
        match self {
            Context::Value(entries) => Ok(Context::Value(entries)),
            Context::RestrictedResidual(residual) => {
                let record = Expr::record_arc(residual.into_entries());
                record_told(alloc, &record, told, extensions, depth)
            }
        }
    }
}

impl From<Context> for PartialValue {
    ghost use Rattle.std.specs.Prelude.{◌≡◌};
    ghost use Rattle.cedar_restricted.specs.PartialValues.{partial_of};
    ghost use Rattle.cedar_requests.specs.Contexts.{context_part};

    ghost from_gives = { λ context partial. partial_of partial ≡ context_part context };

    /// The record of the values, or what is left of it; both have no place.
    fn from(context: Context) -> PartialValue {
        context.into_partial_value()
    }
}

impl FromIn<Context> for RestrictedExpr {
    type Error = AllocError;

    ghost use Rattle.std.specs.Prelude.{IfOk};
    ghost use Rattle.cedar_restricted.specs.PartialValues.{PartExpresses};
    ghost use Rattle.cedar_restricted.specs.Views.{restricted_tree};
    ghost use Rattle.cedar_requests.specs.Contexts.{context_part};

    ghost from_in_gives = { λ context result. IfOk result (λ expr. PartExpresses (context_part context) (restricted_tree expr)) };

    /// What writes the record of the values, or what is left of it; refused for memory alone.
    fn from_in(alloc: Global, context: Context) -> Result<RestrictedExpr, AllocError> {
        context.into_restricted(alloc)
    }
}
