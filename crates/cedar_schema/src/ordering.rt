// Numbers of a graph in an order in which what edges lead to comes first.
ghost use Rattle.std.specs.Prelude.{◌≡◌, ◌≤◌, ◌<◌, ◌+◌, ◌-◌, ◌*◌, ℕ, [], ◌∷◌, ◌++◌, length, false, not, IsTrue, IfOk, OnOk, IfErr, IfSome, IfNone, slice_index, count_by};
ghost use Rattle.std.specs.List.{slice_index_or};
ghost use Rattle.cedar_language.specs.Facts.{Reaches};
ghost use Rattle.cedar_schema.specs.Orders.{targets_of, HasTarget, AreWithin, IsOrder, IsCycleOf};
ghost use Rattle.cedar_schema.specs.Walks.{IsWalk};

use std::alloc::{AllocError, AllocFailed, Global};

/// Why numbers have no such order.
#[derive(Debug, Drop)]
pub enum OrderError {
    /// One or more edges lead from this number to itself.
    Cycle(usize),
    /// Memory ran out.
    Memory,
}

impl From<AllocError> for OrderError {
    ghost use Rattle.cedar_schema.specs.declared.ordering.OrderError.TheVariants.{Memory};

    ghost from_gives = { λ _ e. e ≡ Memory };

    fn from(_error: AllocError) -> OrderError {
        OrderError::Memory
    }
}

impl<T: Drop> From<AllocFailed<T>> for OrderError {
    ghost use Rattle.cedar_schema.specs.declared.ordering.OrderError.TheVariants.{Memory};

    ghost from_gives = { λ _ e. e ≡ Memory };

    fn from(_failed: AllocFailed<T>) -> OrderError {
        OrderError::Memory
    }
}

// A walk along edges, each number's from its last to its first.
#[derive(Drop)]
struct Walk<'e> {
    edges: &'e [Vec<usize>],
    // how many edges of each number are still to be followed
    left: Vec<usize>,
    is_seen: Vec<bool>,
    is_done: Vec<bool>,
    // the numbers that are seen and aren't done, each led to from those before it
    path: Vec<usize>,
    // those that are done
    order: Vec<usize>,
}

// How many edges each number has.
fn edge_counts(alloc: Global, edges: &[Vec<usize>]) -> Result<Vec<usize>, AllocError>
    ensures { IfOk result (λ counts. (length counts.items ≡ length edges.now)
        × ((v : ℕ) → slice_index counts.items v ≡ length (targets_of edges.now v))) }
{
    let mut counts = Vec::with_capacity(alloc, edges.len())?;
    for targets in edges {
        counts.push(targets.len())?;
    }
    Ok(counts)
}

impl<'e> Walk<'e> {
    // The walk before its first step.
    fn new(alloc: Global, edges: &'e [Vec<usize>]) -> Result<Walk<'e>, AllocError>
        ensures walk { IfOk result IsWalk }
        ensures edges { IfOk result (λ walk. walk.edges.now ≡ edges.now) }
        ensures path { IfOk result (λ walk. walk.path.items ≡ []) }
    {
        Ok(Walk {
            edges,
            left: edge_counts(alloc, edges)?,
            is_seen: vec![in alloc; false; edges.len()]?,
            is_done: vec![in alloc; false; edges.len()]?,
            path: Vec::new(alloc),
            order: Vec::new(alloc),
        })
    }

    // Where the next edge leads that is to be followed from a number.
    fn following_target(&self, from: usize) -> usize
        requires walk { IsWalk self.now }
        requires below { from < length self.now.edges.now }
        requires within { AreWithin self.now.edges.now }
        requires some { 0 < slice_index self.now.left.items from }
        ensures target { HasTarget self.now.edges.now from result }
        ensures place { slice_index (targets_of self.now.edges.now from) (slice_index self.now.left.items from - 1) ≡ result }
        ensures below { result < length self.now.is_done.items }
    {
        self.edges[from][self.left[from] - 1]
    }

    // Follows the next edge from a number; what it leads to is done.
    fn follow(&mut self, from: usize)
        requires walk { IsWalk self.old }
        requires below { from < length self.old.edges.now }
        requires some { 0 < slice_index self.old.left.items from }
        requires done { IsTrue (slice_index_or self.old.is_done.items
            (slice_index (targets_of self.old.edges.now from) (slice_index self.old.left.items from - 1)) false) }
        ensures walk { IsWalk self.new }
        ensures same { self.new ≡ record self.old { left = self.new.left } }
        ensures less { slice_index self.new.left.items from + 1 ≡ slice_index self.old.left.items from }
    {
        self.left[from] -= 1;
    }

    // Follows the edges from a number up to one that leads to a number which isn't done, and answers that.
    fn next_target(&mut self, from: usize) -> Option<usize>
        requires walk { IsWalk self.old }
        requires within { AreWithin self.old.edges.now }
        requires below { from < length self.old.edges.now }
        ensures walk { IsWalk self.new }
        ensures same { self.new ≡ record self.old { left = self.new.left } }
        ensures target { IfSome result (λ target. HasTarget self.old.edges.now from target
            × (slice_index_or self.old.is_done.items target false ≡ false)) }
        ensures none { IfNone result (slice_index self.new.left.items from ≡ 0) }
    {
        while self.left[from] > 0 {
            let target = self.following_target(from);
            if !self.is_done[target] {
                return Some(target);
            }
            self.follow(from);
        }
        None
    }

    // Puts a number that isn't seen yet behind the path.
    fn enter(&mut self, number: usize) -> Result<(), AllocError>
        requires walk { IsWalk self.old }
        requires below { number < length self.old.edges.now }
        requires unseen { slice_index_or self.old.is_seen.items number false ≡ false }
        requires leads { (k : ℕ) → k < length self.old.path.items
            → Reaches (HasTarget self.old.edges.now) (slice_index self.old.path.items k) number }
        ensures walk { OnOk result (IsWalk self.new) }
        ensures edges { OnOk result (self.new.edges.now ≡ self.old.edges.now) }
        ensures path { OnOk result (self.new.path.items ≡ self.old.path.items ++ number ∷ []) }
        ensures seen { OnOk result (count_by not self.new.is_seen.items + 1 ≡ count_by not self.old.is_seen.items) }
        ensures kept { OnOk result ((q : ℕ) → IsTrue (slice_index_or self.old.is_seen.items q false)
            → IsTrue (slice_index_or self.new.is_seen.items q false)) }
        ensures is_seen { OnOk result (IsTrue (slice_index_or self.new.is_seen.items number false)) }
    {
        self.path.push(number)?;
        self.is_seen[number] = true;
        Ok(())
    }

    // Takes the last number off the path, all of its edges followed, and puts it behind the order.
    fn leave(&mut self, number: usize) -> Result<(), AllocError>
        requires walk { IsWalk self.old }
        requires below { number < length self.old.edges.now }
        requires followed { slice_index self.old.left.items number ≡ 0 }
        requires last { 0 < length self.old.path.items }
        requires number { slice_index self.old.path.items (length self.old.path.items - 1) ≡ number }
        ensures walk { OnOk result (IsWalk self.new) }
        ensures edges { OnOk result (self.new.edges.now ≡ self.old.edges.now) }
        ensures path { OnOk result (length self.new.path.items + 1 ≡ length self.old.path.items) }
        ensures seen { OnOk result (self.new.is_seen.items ≡ self.old.is_seen.items) }
    {
        self.order.push(number)?;
        self.path.pop();
        self.is_done[number] = true;
        Ok(())
    }

    // The last number of the path.
    fn top(&self) -> Option<usize>
        ensures some { IfSome result (λ top. (0 < length self.now.path.items)
            × (slice_index self.now.path.items (length self.now.path.items - 1) ≡ top)) }
        ensures none { IfNone result (self.now.path.items ≡ []) }
    {
        let last = self.path.last()?;
        Some(*last)
    }

    // One step from the last number of the path: on to one that isn't seen, or back where none is left.
    fn step(&mut self, top: usize) -> Result<(), OrderError>
        requires walk { IsWalk self.old }
        requires within { AreWithin self.old.edges.now }
        requires some { 0 < length self.old.path.items }
        requires top { slice_index self.old.path.items (length self.old.path.items - 1) ≡ top }
        ensures walk { OnOk result (IsWalk self.new) }
        ensures edges { OnOk result (self.new.edges.now ≡ self.old.edges.now) }
        ensures kept { OnOk result ((q : ℕ) → IsTrue (slice_index_or self.old.is_seen.items q false)
            → IsTrue (slice_index_or self.new.is_seen.items q false)) }
        ensures less { OnOk result (2 * count_by not self.new.is_seen.items + length self.new.path.items
            < 2 * count_by not self.old.is_seen.items + length self.old.path.items) }
        ensures cycle { IfErr result (IsCycleOf self.old.edges.now) }
    {
        match self.next_target(top) {
            Some(target) if self.is_seen[target] => Err(OrderError::Cycle(target)),
            Some(target) => Ok(self.enter(target)?),
            None => Ok(self.leave(top)?),
        }
    }

    // Puts a number that isn't seen yet behind the order, after all that edges lead to from it.
    fn walk_from(&mut self, root: usize) -> Result<(), OrderError>
        requires walk { IsWalk self.old }
        requires within { AreWithin self.old.edges.now }
        requires below { root < length self.old.edges.now }
        requires unseen { slice_index_or self.old.is_seen.items root false ≡ false }
        requires path { self.old.path.items ≡ [] }
        ensures walk { OnOk result (IsWalk self.new) }
        ensures edges { OnOk result (self.new.edges.now ≡ self.old.edges.now) }
        ensures path { OnOk result (self.new.path.items ≡ []) }
        ensures kept { OnOk result ((q : ℕ) → IsTrue (slice_index_or self.old.is_seen.items q false)
            → IsTrue (slice_index_or self.new.is_seen.items q false)) }
        ensures is_seen { OnOk result (IsTrue (slice_index_or self.new.is_seen.items root false)) }
        ensures cycle { IfErr result (IsCycleOf self.old.edges.now) }
    {
        self.enter(root)?;
        while let Some(top) = self.top() {
            self.step(top)?;
        }
        Ok(())
    }
}

/// The numbers of a graph, each behind those that edges lead to from it. It takes time linear in its edges.
///
/// `Cycle` tells a number that one or more edges lead back to; there is no such order then.
pub fn order_by_targets(alloc: Global, edges: &[Vec<usize>]) -> Result<Vec<usize>, OrderError>
    requires { AreWithin edges.now }
    ensures order { IfOk result (λ order. IsOrder edges.now order.items) }
    ensures cycle { IfErr result (IsCycleOf edges.now) }
{
    let mut walk = Walk::new(alloc, edges)?;
    for number in 0..edges.len() {
        if !walk.is_seen[number] {
            walk.walk_from(number)?;
        }
    }
    Ok(walk.order)
}
