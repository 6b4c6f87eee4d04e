// Tests of the leaves of an expression, which take no memory.
ghost use Rattle.std.specs.Prelude.{◌≡◌};
ghost use Rattle.std.specs.List.{list_any, list_all};
ghost use Rattle.cedar_trees.specs.Bare.{bare};
ghost use Rattle.cedar_shapes.specs.Leaves.{is_unknown_tree, holds_unknown, is_projectable, is_projectable_kind};
ghost use Rattle.cedar_shapes.specs.PartsLeft.{parts_left};
ghost use Rattle.cedar_shapes.specs.Positions.{waiting};

use crate::parts::Parts;
use cedar_trees::expr::{Expr, ExprKind};

fn is_unknown<T>(expr: &Expr<T>) -> bool
    ensures { result ≡ is_unknown_tree (bare expr.now) }
{
    match &expr.expr_kind {
        ExprKind::Unknown(_) => true,
        _ => false,
    }
}

/// Whether an unknown stands in an expression. A loop goes down the first parts, so that a chain of
/// them takes no stack.
#[cycle(has_unknown)]
pub(crate) fn has_unknown<T>(expr: &Expr<T>) -> bool
    ensures { result ≡ holds_unknown (bare expr.now) }
{
    let mut e = expr;
    loop {
        if is_unknown(e) {
            return true;
        }
        let Some((first, others)) = Parts::split_first(e) else {
            return false;
        };
        if any_has_unknown(others) {
            return true;
        }
        e = first;
    }
}

#[cycle(has_unknown)]
#[tactic(auto, using(crate::proofs::Walking::any_here, crate::proofs::Walking::any_later))]
fn any_has_unknown<T>(parts: Parts<'_, T>) -> bool
    ensures { result ≡ list_any is_unknown_tree (waiting (parts_left parts.entry)) }
{
    for part in parts {
        if has_unknown(part) {
            return true;
        }
    }
    false
}

fn has_projectable_kind<T>(expr: &Expr<T>) -> bool
    ensures { result ≡ is_projectable_kind (bare expr.now) }
{
    match &expr.expr_kind {
        ExprKind::Lit(_)
        | ExprKind::Unknown(_)
        | ExprKind::Var(_)
        | ExprKind::Set(_)
        | ExprKind::Record(_) => true,
        _ => false,
    }
}

/// Whether literals, unknowns, variables, sets and records are all that stand in an expression.
#[cycle(projectable)]
pub(crate) fn projectable<T>(expr: &Expr<T>) -> bool
    ensures { result ≡ is_projectable (bare expr.now) }
{
    if !has_projectable_kind(expr) {
        return false;
    }
    all_projectable(Parts::of(expr))
}

#[cycle(projectable)]
fn all_projectable<T>(parts: Parts<'_, T>) -> bool
    ensures { result ≡ list_all is_projectable (parts_left parts.entry) }
{
    for part in parts {
        if !projectable(part) {
            return false;
        }
    }
    true
}
