// The parts of an expression.
ghost use Rattle.std.specs.Prelude.{◌≡◌, [], ◌∷◌, length, MatchOption};
ghost use Rattle.cedar_trees.specs.Bare.{bare};
ghost use Rattle.cedar_shapes.specs.Parts.{parts as parts_of};
ghost use Rattle.cedar_shapes.specs.PartsLeft.{operands_left, parts_left};

use cedar_trees::expr::{Expr, ExprKind};
use std::collections::btree_map::Values;
use std::rc::RcStr;
use std::slice::Iter;

/// The expressions right below one, from the left: operands, items, arguments, and the expressions of
/// a record in the order of its keys.
#[derive(Drop)]
pub enum Parts<'a, T> {
    /// The operands of a construct that has up to three.
    Few(Operands<'a, T>),
    /// The items of a set, or the arguments of a call.
    Items(Iter<'a, Expr<T>>),
    /// The expressions of a record.
    Entries(Values<'a, RcStr, Expr<T>>),
}

/// Up to three expressions, the first one taken first.
#[derive(Drop)]
pub struct Operands<'a, T> {
    first: Option<&'a Expr<T>>,
    second: Option<&'a Expr<T>>,
    third: Option<&'a Expr<T>>,
}

impl<'a, T> Operands<'a, T> {
    fn none() -> Operands<'a, T>
        ensures { operands_left result ≡ [] }
    {
        Operands {
            first: None,
            second: None,
            third: None,
        }
    }

    fn one(first: &'a Expr<T>) -> Operands<'a, T>
        ensures { operands_left result ≡ bare first.now ∷ [] }
    {
        Operands {
            first: Some(first),
            second: None,
            third: None,
        }
    }

    fn two(first: &'a Expr<T>, second: &'a Expr<T>) -> Operands<'a, T>
        ensures { operands_left result ≡ bare first.now ∷ bare second.now ∷ [] }
    {
        Operands {
            first: Some(first),
            second: Some(second),
            third: None,
        }
    }

    fn three(first: &'a Expr<T>, second: &'a Expr<T>, third: &'a Expr<T>) -> Operands<'a, T>
        ensures { operands_left result ≡ bare first.now ∷ bare second.now ∷ bare third.now ∷ [] }
    {
        Operands {
            first: Some(first),
            second: Some(second),
            third: Some(third),
        }
    }

    fn len(&self) -> usize
        ensures { result ≡ length (operands_left self.now) }
    {
        match (&self.first, &self.second, &self.third) {
            (None, _, _) => 0,
            (Some(_), None, _) => 1,
            (Some(_), Some(_), None) => 2,
            (Some(_), Some(_), Some(_)) => 3,
        }
    }
}

impl<'a, T> Iterator for Operands<'a, T> {
    type Item = &'a Expr<T>;

    ghost use Rattle.std.specs.Iterator.{YieldsFirstBy, item_count};
    ghost use Rattle.cedar_trees.specs.Bare.{bare};
    ghost use Rattle.cedar_shapes.specs.PartsLeft.{operands_left};

    ghost next_gives = { YieldsFirstBy (λ x. bare x.now) operands_left };

    ghost remaining = { item_count operands_left };

    fn next(&mut self) -> Option<&'a Expr<T>> {
        let part = self.first.take()?;
        self.first = self.second.take();
        self.second = self.third.take();
        Some(part)
    }
}

impl<'a, T> Parts<'a, T> {
    /// The parts of an expression, from the left; none where it is a literal, a variable, a slot or an
    /// unknown. Takes no memory.
    pub fn of(expr: &'a Expr<T>) -> Parts<'a, T>
        ensures { parts_left result ≡ parts_of (bare expr.now) }
    {
        match &expr.expr_kind {
            ExprKind::Lit(_) | ExprKind::Var(_) | ExprKind::Slot(_) | ExprKind::Unknown(_) => {
                Parts::Few(Operands::none())
            }
            ExprKind::If {
                test_expr,
                then_expr,
                else_expr,
            } => Parts::Few(Operands::three(test_expr, then_expr, else_expr)),
            ExprKind::And { left, right } | ExprKind::Or { left, right } => {
                Parts::Few(Operands::two(left, right))
            }
            ExprKind::UnaryApp { arg, .. } => Parts::Few(Operands::one(arg)),
            ExprKind::BinaryApp { arg1, arg2, .. } => Parts::Few(Operands::two(arg1, arg2)),
            ExprKind::GetAttr { expr, .. }
            | ExprKind::HasAttr { expr, .. }
            | ExprKind::ExtHasAttr { expr, .. }
            | ExprKind::Like { expr, .. }
            | ExprKind::Is { expr, .. } => Parts::Few(Operands::one(expr)),
            ExprKind::ExtensionFunctionApp { args, .. } => Parts::Items(args.iter()),
            ExprKind::Set(items) => Parts::Items(items.iter()),
            ExprKind::Record(entries) => Parts::Entries(entries.values()),
        }
    }

    /// The first part of an expression, and those after it; none where it has no part.
    pub fn split_first(expr: &'a Expr<T>) -> Option<(&'a Expr<T>, Parts<'a, T>)>
        ensures { MatchOption result (parts_of (bare expr.now) ≡ []) (λ p. parts_of (bare expr.now) ≡ bare p.0.now ∷ parts_left p.1) }
    {
        let mut parts = Parts::of(expr);
        let first = parts.next()?;
        Some((first, parts))
    }

    /// How many parts are left to be taken.
    pub fn len(&self) -> usize
        ensures { result ≡ length (parts_left self.now) }
    {
        match self {
            Parts::Few(operands) => operands.len(),
            Parts::Items(items) => items.len(),
            Parts::Entries(entries) => entries.len(),
        }
    }
}

impl<'a, T> Iterator for Parts<'a, T> {
    type Item = &'a Expr<T>;

    ghost use Rattle.std.specs.Iterator.{YieldsFirstBy, item_count};
    ghost use Rattle.cedar_trees.specs.Bare.{bare};
    ghost use Rattle.cedar_shapes.specs.PartsLeft.{parts_left};

    ghost next_gives = { YieldsFirstBy (λ x. bare x.now) parts_left };

    ghost remaining = { item_count parts_left };

    fn next(&mut self) -> Option<&'a Expr<T>> {
        match self {
            Parts::Few(operands) => operands.next(),
            Parts::Items(items) => items.next(),
            Parts::Entries(entries) => entries.next(),
        }
    }
}
