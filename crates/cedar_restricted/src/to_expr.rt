// Values as expressions.
ghost use Rattle.std.specs.Prelude.{◌≡◌, IfOk, map};
ghost use Rattle.cedar_language.specs.Order.{all_of};
ghost use Rattle.cedar_language.specs.Tree.{Tree};
ghost use Rattle.cedar_grammar.specs.Build.{trees, keys};
ghost use Rattle.cedar_trees.specs.Bare.{bare, bare_entries};
ghost use Rattle.cedar_values.specs.Kinds.{value_of, keys_of, values_of};
ghost use Rattle.cedar_restricted.specs.Expressing.{Expresses, ExpressAll};

use crate::constructing::construction;
use crate::partial_values::PartialValue;
use crate::representations::{argument_expr, call_expr};
use cedar_names::conversions::FromIn;
use cedar_trees::expr::Expr;
use cedar_values::extension_values::{Argument, RepresentableExtensionValue};
use cedar_values::values::{Set, Value, ValueKind};
use std::alloc::{AllocError, Global};
use std::collections::BTreeMap;
use std::rc::{Rc, RcStr};

/// What is written as an expression.
pub trait ToExpr {
    // holds of it and each tree that may write it
    ghost is_written: { Self → Tree → Type 0 };

    /// An expression that writes it; refused for memory alone.
    fn to_expr(&self, alloc: Global) -> Result<Expr, AllocError>
        ensures { IfOk result (λ expr. is_written self.now (bare expr)) };
}

impl ToExpr for Value {
    ghost use Rattle.cedar_restricted.specs.Expressing.{Expresses};

    ghost is_written = { Expresses };

    /// Its literal, its members, its attributes, or the call of the language's own constructor that gives
    /// it again, each at its own place.
    fn to_expr(&self, alloc: Global) -> Result<Expr, AllocError> {
        value_expr(alloc, self)
    }
}

impl ToExpr for ValueKind {
    ghost use Rattle.cedar_values.specs.Kinds.{value_of};
    ghost use Rattle.cedar_restricted.specs.Expressing.{Expresses};

    ghost is_written = { λ kind tree. Expresses (value_of kind) tree };

    /// The expression of its value, without a place; what stands in it has its own.
    fn to_expr(&self, alloc: Global) -> Result<Expr, AllocError> {
        kind_expr(alloc, self)
    }
}

impl ToExpr for RepresentableExtensionValue {
    ghost use Rattle.std.specs.Prelude.{◌≡◌, true};
    ghost use Rattle.cedar_values.specs.Representations.{written_call};
    ghost use Rattle.cedar_restricted.specs.Expressing.{is_ground};

    ghost is_written = { λ value tree. (tree ≡ written_call value) × (is_ground tree ≡ true) };

    /// Its representation: the call of the function that makes it.
    fn to_expr(&self, alloc: Global) -> Result<Expr, AllocError> {
        call_expr(alloc, self)
    }
}

impl ToExpr for Argument {
    ghost use Rattle.std.specs.Prelude.{◌≡◌, true};
    ghost use Rattle.cedar_values.specs.Representations.{written};
    ghost use Rattle.cedar_restricted.specs.Expressing.{is_ground};

    ghost is_written = { λ argument tree. (tree ≡ written argument) × (is_ground tree ≡ true) };

    fn to_expr(&self, alloc: Global) -> Result<Expr, AllocError> {
        argument_expr(alloc, self)
    }
}

impl ToExpr for PartialValue {
    ghost use Rattle.cedar_restricted.specs.PartialValues.{partial_of, PartExpresses};

    ghost is_written = { λ partial tree. PartExpresses (partial_of partial) tree };

    /// The expression of its value, or the residual itself.
    fn to_expr(&self, alloc: Global) -> Result<Expr, AllocError> {
        match self {
            PartialValue::Value(value) => value_expr(alloc, value),
            PartialValue::Residual(expr) => expr.clone(alloc),
        }
    }
}

impl FromIn<PartialValue> for Expr {
    type Error = AllocError;

    ghost use Rattle.std.specs.Prelude.{IfOk};
    ghost use Rattle.cedar_trees.specs.Bare.{bare};
    ghost use Rattle.cedar_restricted.specs.PartialValues.{partial_of, PartExpresses};

    ghost from_in_gives = { λ partial result. IfOk result (λ expr. PartExpresses (partial_of partial) (bare expr)) };

    /// The expression of the value, or the residual itself; refused for memory alone.
    fn from_in(alloc: Global, partial: PartialValue) -> Result<Expr, AllocError> {
        match partial {
            PartialValue::Value(value) => value_expr(alloc, &value),
            PartialValue::Residual(expr) => Ok(expr),
        }
    }
}

#[cycle(value_expr)]
fn value_expr(alloc: Global, value: &Value) -> Result<Expr, AllocError>
    ensures { IfOk result (λ expr. Expresses value.now (bare expr)) }
{
    let expr = kind_expr(alloc, value.value_kind())?;
    let source_loc = match value.source_loc() {
        None => None,
        Some(loc) => Some(loc.clone(alloc)?),
    };
    Ok(expr.with_maybe_source_loc(source_loc))
}

#[cycle(value_expr)]
fn kind_expr(alloc: Global, kind: &ValueKind) -> Result<Expr, AllocError>
    ensures { IfOk result (λ expr. Expresses (value_of kind.now) (bare expr)) }
{
    match kind {
        ValueKind::Lit(literal) => Ok(Expr::val(literal.clone()?)),
        ValueKind::Set(set) => Expr::set(alloc, member_exprs(alloc, set)?),
        ValueKind::Record(fields) => {
            let entries = field_exprs(alloc, fields)?;
            Ok(Expr::record_arc(Rc::new(alloc, entries)?))
        }
        ValueKind::ExtensionValue(value) => construction(alloc, value.value()),
    }
}

#[cycle(value_expr)]
fn member_exprs(alloc: Global, set: &Set) -> Result<Vec<Expr>, AllocError>
    ensures { IfOk result (λ exprs. ExpressAll (all_of set.now) (trees (map bare exprs.items))) }
{
    let mut exprs = Vec::new(alloc);
    for member in set.authoritative() {
        exprs.push(value_expr(alloc, member)?)?;
    }
    Ok(exprs)
}

#[cycle(value_expr)]
fn field_exprs(
    alloc: Global,
    fields: &BTreeMap<RcStr, Value>,
) -> Result<BTreeMap<RcStr, Expr>, AllocError>
    ensures keys { IfOk result (λ exprs. keys (bare_entries exprs.entries) ≡ keys_of fields.now.entries) }
    ensures values { IfOk result (λ exprs. ExpressAll (values_of fields.now.entries) (trees (map (λ e. e.1) (bare_entries exprs.entries)))) }
{
    let mut exprs = BTreeMap::new(alloc);
    for (key, value) in fields {
        let expr = value_expr(alloc, value)?;
        exprs.insert(key.clone()?, expr)?;
    }
    Ok(exprs)
}
