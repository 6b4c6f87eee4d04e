// Walks over the positions of an expression.
ghost use Rattle.std.specs.Prelude.{◌≡◌, ◌+◌, ◌≤◌, ◌++◌, length, IfOk};
ghost use Rattle.std.specs.Option.{option_copied};
ghost use Rattle.std.specs.Vec.{vec_len, vec_capacity};
ghost use Rattle.cedar_trees.specs.Bare.{bare};
ghost use Rattle.cedar_shapes.specs.Leaves.{slots_among, unknowns_among};
ghost use Rattle.cedar_shapes.specs.Parts.{parts};
ghost use Rattle.cedar_shapes.specs.Positions.{positions, need_all};
ghost use Rattle.cedar_shapes.specs.Stack.{stack_of};

use crate::parts::Parts;
use cedar_literals::slots::{Slot, SlotId};
use cedar_names::places::Loc;
use cedar_trees::expr::{Expr, ExprKind};
use cedar_trees::unknowns::Unknown;
use std::alloc::{AllocError, Global};

// Puts the parts onto a stack that has room for them, the first one lowest.
fn push_parts<'a, T>(ahead: &mut Vec<&'a Expr<T>>, expr: &'a Expr<T>)
    requires room { vec_len ahead.old + length (parts (bare expr.now)) ≤ vec_capacity ahead.old }
    ensures items { stack_of ahead.new.items ≡ stack_of ahead.old.items ++ parts (bare expr.now) }
    ensures capacity { vec_capacity ahead.new ≡ vec_capacity ahead.old }
{
    for part in Parts::of(expr) {
        ahead.push_reserved(part);
    }
}

/// A walk over an expression and all that are in it: each position once, an expression before those
/// in it, its last part before its first. It ends, and takes no memory after `new`. Contracts see the
/// tree of each; that it is this position's own, with its place and its data, rows show.
#[derive(Drop)]
pub struct ExprIterator<'a, T = ()> {
    ahead: Vec<&'a Expr<T>>,
    pub ghost fits: { need_all (stack_of ahead.items) ≤ vec_capacity ahead },
}

impl<'a, T> ExprIterator<'a, T> {
    ghost use Rattle.cedar_shapes.specs.PositionsLeft.{positions_left};

    /// The walk over `expr`; refused for memory alone. It is walked here once, so that the walk's
    /// stack is as large as it gets.
    pub fn new(alloc: Global, expr: &'a Expr<T>) -> Result<ExprIterator<'a, T>, AllocError>
        ensures { IfOk result (λ it. positions_left it ≡ positions (bare expr.now)) }
    {
        let mut ahead = Vec::with_capacity(alloc, 1)?;
        ahead.push_reserved(expr);
        while let Some(next) = ahead.pop() {
            ahead.reserve(Parts::of(next).len())?;
            push_parts(&mut ahead, next);
        }
        ahead.reserve(1)?;
        ahead.push_reserved(expr);
        Ok(ExprIterator { ahead })
    }
}

impl<'a, T> Iterator for ExprIterator<'a, T> {
    type Item = &'a Expr<T>;

    ghost use Rattle.std.specs.Iterator.{YieldsFirstBy, item_count};
    ghost use Rattle.cedar_trees.specs.Bare.{bare};
    ghost use Rattle.cedar_shapes.specs.PositionsLeft.{positions_left};

    ghost next_gives = { YieldsFirstBy (λ x. bare x.now) positions_left };

    ghost remaining = { item_count positions_left };

    fn next(&mut self) -> Option<&'a Expr<T>> {
        let next = self.ahead.pop()?;
        push_parts(&mut self.ahead, next);
        Some(next)
    }
}

/// A slot in an expression, and its place.
#[derive(Drop)]
pub struct SlotRef<'a> {
    /// Which slot it is.
    pub id: SlotId,
    /// Where it was read, if it was.
    pub loc: Option<&'a Loc>,
}

impl SlotRef<'_> {
    /// The slot, with a copy of its place; refused for memory alone.
    pub fn to_slot(&self, alloc: Global) -> Result<Slot, AllocError>
        ensures slot { IfOk result (λ slot. slot.id ≡ self.now.id) }
        ensures place { IfOk result (λ slot. slot.loc ≡ option_copied self.now.loc) }
    {
        let loc = match self.loc {
            None => None,
            Some(loc) => Some(loc.clone(alloc)?),
        };
        Ok(Slot { id: self.id, loc })
    }
}

/// The slots of an expression, one for each position that holds one, in the order of `ExprIterator`.
#[derive(Drop)]
pub struct Slots<'a, T = ()> {
    positions: ExprIterator<'a, T>,
}

impl<'a, T> Slots<'a, T> {
    ghost use Rattle.cedar_shapes.specs.PositionsLeft.{slots_left};

    /// Of an expression; refused for memory alone.
    pub fn new(alloc: Global, expr: &'a Expr<T>) -> Result<Slots<'a, T>, AllocError>
        ensures { IfOk result (λ it. slots_left it ≡ slots_among (positions (bare expr.now))) }
    {
        Ok(Slots {
            positions: ExprIterator::new(alloc, expr)?,
        })
    }
}

impl<'a, T> Iterator for Slots<'a, T> {
    type Item = SlotRef<'a>;

    ghost use Rattle.std.specs.Iterator.{YieldsFirstBy, item_count};
    ghost use Rattle.cedar_shapes.specs.PositionsLeft.{slots_left};

    ghost next_gives = { YieldsFirstBy (λ x. x.id) slots_left };

    ghost remaining = { item_count slots_left };

    fn next(&mut self) -> Option<SlotRef<'a>> {
        while let Some(expr) = self.positions.next() {
            if let ExprKind::Slot(id) = &expr.expr_kind {
                return Some(SlotRef {
                    id: *id,
                    loc: expr.source_loc.as_ref(),
                });
            }
        }
        None
    }
}

/// The unknowns of an expression, one for each position that holds one, in the order of
/// `ExprIterator`.
#[derive(Drop)]
pub struct Unknowns<'a, T = ()> {
    positions: ExprIterator<'a, T>,
}

impl<'a, T> Unknowns<'a, T> {
    ghost use Rattle.cedar_shapes.specs.PositionsLeft.{unknowns_left};

    /// Of an expression; refused for memory alone.
    pub fn new(alloc: Global, expr: &'a Expr<T>) -> Result<Unknowns<'a, T>, AllocError>
        ensures { IfOk result (λ it. unknowns_left it ≡ unknowns_among (positions (bare expr.now))) }
    {
        Ok(Unknowns {
            positions: ExprIterator::new(alloc, expr)?,
        })
    }
}

impl<'a, T> Iterator for Unknowns<'a, T> {
    type Item = &'a Unknown;

    ghost use Rattle.std.specs.Iterator.{YieldsFirstBy, item_count};
    ghost use Rattle.cedar_trees.specs.Unknowns.{unknown_name, unknown_type};
    ghost use Rattle.cedar_shapes.specs.PositionsLeft.{unknowns_left};

    ghost next_gives = { YieldsFirstBy (λ x. (unknown_name x.now, unknown_type x.now)) unknowns_left };

    ghost remaining = { item_count unknowns_left };

    fn next(&mut self) -> Option<&'a Unknown> {
        while let Some(expr) = self.positions.next() {
            if let ExprKind::Unknown(unknown) = &expr.expr_kind {
                return Some(unknown);
            }
        }
        None
    }
}
