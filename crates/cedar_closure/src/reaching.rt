//! The numbers that each number reaches in a graph over numbers.
ghost use Rattle.std.specs.Prelude.{◌≡◌, ◌↔◌, ℕ, [], length, ◌<◌, ◌≤◌, false, true, nat_eq, IfOk, OnOk, IsTrue, slice_index_or};
ghost use Rattle.std.specs.Set.{is_member};
ghost use Rattle.cedar_language.specs.Facts.{Reaches};
ghost use Rattle.cedar_closure.specs.Numbers.{IsSet, numbers_at, HasTarget, AreWithin, AreReached};
ghost use Rattle.cedar_closure.specs.Searching.{AreRows, GoesOn};

use crate::numbers::NumberSet;
use crate::ordering::targets_first;
use std::alloc::{AllocError, Global};

// Rows of the first numbers of a graph. Where a row is known it is all that its number reaches.
#[derive(Drop)]
struct Rows<'a> {
    edges: &'a [Vec<usize>],
    rows: Vec<Vec<usize>>,
    is_known: Vec<bool>,
}

// What is found, and those of it whose edges are still to be looked at.
#[derive(Drop)]
struct Search {
    found: NumberSet,
    pending: Vec<usize>,
}

impl<'a> Rows<'a> {
    // Rows of which none is known.
    fn unknown(alloc: Global, edges: &'a [Vec<usize>], count: usize) -> Result<Rows<'a>, AllocError>
        requires { AreWithin edges.now }
        ensures rows { IfOk result (λ rows. AreRows rows) }
        ensures edges { IfOk result (λ rows. rows.edges.now ≡ edges.now) }
        ensures count { IfOk result (λ rows. length rows.rows.items ≡ count) }
    {
        let mut rows = Vec::new(alloc);
        for _ in 0..count {
            rows.push(Vec::new(alloc))?;
        }
        let is_known = vec![in alloc; false; edges.len()]?;
        Ok(Rows {
            edges,
            rows,
            is_known,
        })
    }

    // Makes the row of a number known.
    fn set(&mut self, number: usize, row: Vec<usize>)
        requires rows { AreRows self.old }
        requires below { number < length self.old.rows.items }
        requires inside { number < length self.old.edges.now }
        requires reached { (q : ℕ) → IsTrue (is_member nat_eq row.items q) ↔ Reaches (HasTarget self.old.edges.now) number q }
        ensures rows { AreRows self.new }
        ensures edges { self.new.edges.now ≡ self.old.edges.now }
        ensures count { length self.new.rows.items ≡ length self.old.rows.items }
        ensures known { IsTrue (slice_index_or self.new.is_known.items number false) }
        ensures kept { (q : ℕ) → IsTrue (slice_index_or self.old.is_known.items q false) → IsTrue (slice_index_or self.new.is_known.items q false) }
    {
        self.rows[number] = row;
        self.is_known[number] = true;
    }
}

impl Search {
    // Finds a number, and its row where it is known.
    fn insert(&mut self, rows: &Rows<'_>, number: usize) -> Result<(), AllocError>
        requires rows { AreRows rows.now }
        requires set { IsSet self.old.found }
        requires bound { length self.old.found.is_member.items ≡ length rows.now.edges.now }
        requires below { number < length rows.now.edges.now }
        ensures set { OnOk result (IsSet self.new.found) }
        ensures bound { OnOk result (length self.new.found.is_member.items ≡ length self.old.found.is_member.items) }
        ensures found { OnOk result (IsTrue (is_member nat_eq self.new.found.members.items number)) }
        ensures more { OnOk result (GoesOn rows.now.edges.now (λ a. HasTarget rows.now.edges.now a number) self.old self.new) }
    {
        if !self.found.insert(number)? {
            return Ok(());
        }
        if rows.is_known[number] {
            self.found.insert_all(&rows.rows[number])?;
        } else {
            self.pending.push(number)?;
        }
        Ok(())
    }

    // Finds the numbers to which edges lead from a number.
    fn insert_targets(&mut self, rows: &Rows<'_>, via: usize) -> Result<(), AllocError>
        requires rows { AreRows rows.now }
        requires set { IsSet self.old.found }
        requires bound { length self.old.found.is_member.items ≡ length rows.now.edges.now }
        requires below { via < length rows.now.edges.now }
        ensures set { OnOk result (IsSet self.new.found) }
        ensures bound { OnOk result (length self.new.found.is_member.items ≡ length self.old.found.is_member.items) }
        ensures found { OnOk result ((q : ℕ) → HasTarget rows.now.edges.now via q → IsTrue (is_member nat_eq self.new.found.members.items q)) }
        ensures more { OnOk result (GoesOn rows.now.edges.now (λ a. a ≡ via) self.old self.new) }
    {
        for number in &rows.edges[via] {
            self.insert(rows, *number)?;
        }
        Ok(())
    }

    // Finds all that a number reaches.
    fn find_reached(&mut self, rows: &Rows<'_>, from: usize) -> Result<(), AllocError>
        requires rows { AreRows rows.now }
        requires set { IsSet self.old.found }
        requires none_found { self.old.found.members.items ≡ [] }
        requires none_pending { self.old.pending.items ≡ [] }
        requires bound { length self.old.found.is_member.items ≡ length rows.now.edges.now }
        requires from_below { from < length rows.now.edges.now }
        ensures set { OnOk result (IsSet self.new.found) }
        ensures reached { OnOk result ((q : ℕ) →
            IsTrue (is_member nat_eq self.new.found.members.items q) ↔ Reaches (HasTarget rows.now.edges.now) from q) }
        ensures none_pending { OnOk result (self.new.pending.items ≡ []) }
        ensures bound { OnOk result (length self.new.found.is_member.items ≡ length self.old.found.is_member.items) }
    {
        self.pending.push(from)?;
        while let Some(via) = self.pending.pop() {
            self.insert_targets(rows, via)?;
        }
        Ok(())
    }
}

/// The numbers that each of the first numbers reaches by one or more edges. What edges lead to comes before it where
/// no cycle is in the way, and what is known of it is taken whole. Refused where memory runs out.
pub(crate) fn reached_by_each(
    alloc: Global,
    edges: &[Vec<usize>],
    count: usize,
) -> Result<Vec<Vec<usize>>, AllocError>
    requires count { count ≤ length edges.now }
    requires within { AreWithin edges.now }
    ensures count { IfOk result (λ all. length all.items ≡ count) }
    ensures reached { IfOk result (λ all. AreReached edges.now all.items) }
{
    let order = targets_first(alloc, edges, count)?;
    let mut rows = Rows::unknown(alloc, edges, count)?;
    let mut search = Search {
        found: NumberSet::below(alloc, edges.len())?,
        pending: Vec::new(alloc),
    };
    for index in 0..order.len() {
        let number = order.member(index);
        search.find_reached(&rows, number)?;
        rows.set(number, search.found.sorted(alloc)?);
        search.found.clear();
    }
    Ok(rows.rows)
}
