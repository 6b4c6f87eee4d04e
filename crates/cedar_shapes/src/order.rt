// Walks that compare expressions and feed them to a hasher. A text may hold a chain as `a && b && ..`
// of hundreds of thousands of links, each the first part of the next: a loop goes down the first
// parts, and only the others are walked by recursion.
ghost use Rattle.std.specs.Prelude.{◌≡◌};
ghost use Rattle.std.specs.List.{fold};
ghost use Rattle.cedar_trees.specs.Bare.{bare};
ghost use Rattle.cedar_shapes.specs.Lists.{fed_of, here_cmp, here_fed, pairs_cmp};
ghost use Rattle.cedar_shapes.specs.PairsLeft.{pairs_left};
ghost use Rattle.cedar_shapes.specs.PartsLeft.{parts_left};
ghost use Rattle.cedar_shapes.specs.ShapeHash.{shape_hash};
ghost use Rattle.cedar_shapes.specs.ShapeOrder.{tree_cmp};

use crate::marks::{cmp_marks, feed_mark};
use crate::pairs::{Pairs, split_both};
use crate::parts::Parts;
use cedar_trees::expr::Expr;
use std::cmp::Ordering;
use std::hash::Hasher;

fn cmp_here<T, U>(a: &Expr<T>, b: &Expr<U>) -> Ordering
    ensures { result ≡ here_cmp (bare a.now) (bare b.now) }
{
    let counts = Parts::of(a).len().cmp(&Parts::of(b).len());
    counts.then(cmp_marks(&a.expr_kind, &b.expr_kind))
}

/// The order of two expressions by their shapes.
#[cycle(compare)]
pub(crate) fn compare<T, U>(left: &Expr<T>, right: &Expr<U>) -> Ordering
    ensures { result ≡ tree_cmp (bare left.now) (bare right.now) }
{
    let mut a = left;
    let mut b = right;
    loop {
        let here = cmp_here(a, b);
        if here.is_ne() {
            return here;
        }
        let Some((x, y, others)) = split_both(a, b) else {
            return Ordering::Equal;
        };
        let order = compare_all(others);
        if order.is_ne() {
            return order;
        }
        a = x;
        b = y;
    }
}

#[cycle(compare)]
fn compare_all<T, U>(pairs: Pairs<'_, T, U>) -> Ordering
    ensures { result ≡ pairs_cmp (pairs_left pairs.entry) }
{
    for (x, y) in pairs {
        let order = compare(x, y);
        if order.is_ne() {
            return order;
        }
    }
    Ordering::Equal
}

fn feed_here<T, H: Hasher>(expr: &Expr<T>, state: &mut H)
    ensures { state.new ≡ fold H.write state.old (here_fed (bare expr.now)) }
{
    state.write_usize(Parts::of(expr).len());
    feed_mark(&expr.expr_kind, state);
}

/// Feeds a hasher an expression's shape.
#[cycle(feed)]
pub(crate) fn feed<T, H: Hasher>(expr: &Expr<T>, state: &mut H)
    ensures { state.new ≡ fold H.write state.old (shape_hash (bare expr.now)) }
{
    let mut e = expr;
    loop {
        feed_here(e, state);
        let Some((first, others)) = Parts::split_first(e) else {
            return;
        };
        feed_all(others, state);
        e = first;
    }
}

#[cycle(feed)]
fn feed_all<T, H: Hasher>(parts: Parts<'_, T>, state: &mut H)
    ensures { state.new ≡ fold H.write state.old (fed_of (parts_left parts.entry)) }
{
    for part in parts {
        feed(part, state);
    }
}
