//! An order in which what edges lead to comes first.
ghost use Rattle.std.specs.Prelude.{◌≡◌, ℕ, List, ◌++◌, length, ◌<◌, ◌≤◌, nat_eq, IfOk, OnOk, IsTrue};
ghost use Rattle.std.specs.Set.{is_member};
ghost use Rattle.cedar_closure.specs.Numbers.{IsSet, AreWithin};

use crate::numbers::NumberSet;
use std::alloc::{AllocError, Global};

// Adds a number at each of the first numbers to which edges lead from it.
fn add_source(
    sources: &mut Vec<Vec<usize>>,
    targets: &[usize],
    from: usize,
) -> Result<(), AllocError>
    requires from_below { from < length sources.old.items }
    requires within { AreWithin sources.old.items }
    ensures within { OnOk result (AreWithin sources.new.items) }
    ensures count { OnOk result (length sources.new.items ≡ length sources.old.items) }
{
    for target in targets {
        if *target < sources.len() {
            sources[*target].push(from)?;
        }
    }
    Ok(())
}

// At each of the first numbers those of them from which edges lead to it.
fn sources_of_each(
    alloc: Global,
    edges: &[Vec<usize>],
    count: usize,
) -> Result<Vec<Vec<usize>>, AllocError>
    requires { count ≤ length edges.now }
    ensures within { IfOk result (λ sources. AreWithin sources.items) }
    ensures count { IfOk result (λ sources. length sources.items ≡ count) }
{
    let mut sources = Vec::new(alloc);
    for _ in 0..count {
        sources.push(Vec::new(alloc))?;
    }
    for from in 0..count {
        add_source(&mut sources, &edges[from], from)?;
    }
    Ok(sources)
}

// How many of the targets are below a bound.
fn count_below(targets: &[usize], bound: usize) -> usize {
    let mut count = 0;
    for target in targets {
        if *target < bound {
            count += 1;
        }
    }
    count
}

// How many edges lead from each of the first numbers to one of them.
fn target_counts(
    alloc: Global,
    edges: &[Vec<usize>],
    count: usize,
) -> Result<Vec<usize>, AllocError>
    requires { count ≤ length edges.now }
    ensures { IfOk result (λ counts. length counts.items ≡ count) }
{
    let mut counts = Vec::new(alloc);
    for from in 0..count {
        counts.push(count_below(&edges[from], count))?;
    }
    Ok(counts)
}

// Counts one edge less from each of the sources, and takes those from which none is left.
fn insert_freed(
    order: &mut NumberSet,
    left: &mut Vec<usize>,
    sources: &[usize],
) -> Result<(), AllocError>
    requires set { IsSet order.old }
    requires left { length left.old.items ≡ length order.old.is_member.items }
    requires below { (q : ℕ) → IsTrue (is_member nat_eq sources.now q) → q < length left.old.items }
    ensures set { OnOk result (IsSet order.new) }
    ensures left { OnOk result (length left.new.items ≡ length left.old.items) }
    ensures behind { OnOk result ((more : List ℕ) × (order.new.members.items ≡ order.old.members.items ++ more)) }
    ensures bound { OnOk result (length order.new.is_member.items ≡ length order.old.is_member.items) }
{
    for source in sources {
        left[*source] = left[*source].saturating_sub(1);
        if left[*source] == 0 {
            order.insert(*source)?;
        }
    }
    Ok(())
}

// Takes each number from which no edges lead, and then each from which all lead to numbers that are taken.
fn insert_without_cycles(
    order: &mut NumberSet,
    left: &mut Vec<usize>,
    sources: &[Vec<usize>],
) -> Result<(), AllocError>
    requires set { IsSet order.old }
    requires left { length left.old.items ≡ length sources.now }
    requires bound { length order.old.is_member.items ≡ length sources.now }
    requires within { AreWithin sources.now }
    ensures set { OnOk result (IsSet order.new) }
    ensures bound { OnOk result (length order.new.is_member.items ≡ length order.old.is_member.items) }
{
    for number in 0..left.len() {
        if left[number] == 0 {
            order.insert(number)?;
        }
    }
    let mut taken = 0;
    while taken < order.len() {
        let number = order.member(taken);
        insert_freed(order, left, &sources[number])?;
        taken += 1;
    }
    Ok(())
}

/// The first numbers of a graph. Those of them to which edges lead from a number come before it, where no cycle is in
/// the way. Refused where memory runs out.
pub(crate) fn targets_first(
    alloc: Global,
    edges: &[Vec<usize>],
    count: usize,
) -> Result<NumberSet, AllocError>
    requires { count ≤ length edges.now }
    ensures set { IfOk result (λ order. IsSet order) }
    ensures bound { IfOk result (λ order. length order.is_member.items ≡ count) }
    ensures whole { IfOk result (λ order. (q : ℕ) → q < count → IsTrue (is_member nat_eq order.members.items q)) }
{
    let sources = sources_of_each(alloc, edges, count)?;
    let mut left = target_counts(alloc, edges, count)?;
    let mut order = NumberSet::below(alloc, count)?;
    insert_without_cycles(&mut order, &mut left, &sources)?;
    for number in 0..count {
        order.insert(number)?;
    }
    Ok(order)
}
