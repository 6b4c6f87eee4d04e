// The policies of a set by their positions and by what their scopes name.
ghost use Rattle.std.specs.Prelude.{◌≡◌, ◌+◌, ◌<◌, ◌^◌, OnOk, OnErr, length, option_map, slice_get};
ghost use Rattle.std.specs.Option.{option_copied};
ghost use Rattle.cedar_policy_set.specs.ScopeFinding.{covered, KeepsFound};
ghost use Rattle.cedar_policy_set.specs.Bounds.{entry_of, entries_of, policy_seen};
ghost use Rattle.cedar_policy_set.specs.Scopes.{IsEntryFound, Covers, policy_stood};

use crate::bounds::{Bound, BoundKind};
use crate::policy_map::PolicyMap;
use crate::scope_index::index::ScopeIndex;
use crate::sets::PolicySet;
use cedar_policies::policies::Policy;
use std::alloc::{AllocError, Global};

impl PolicySet {
    /// Sees to it that the index of scopes covers the whole set. What is covered already isn't looked at.
    /// Refused for memory alone; what was covered till then stays so. Contracts don't see how much of a set is covered:
    /// they promise that no entry changes, and that what `scopes` gives covers a beginning.
    pub fn index_scopes(&mut self, alloc: Global) -> Result<(), AllocError>
        ensures { self.new ≡ self.old }
    {
        cover(alloc, &mut self.scopes, &self.bound)
    }

    /// The index of scopes, which covers a beginning of the set: policies that are added are behind what it
    /// covers.
    pub fn scopes(&self) -> &ScopeIndex
        ensures { Covers self.now result.now }
    {
        &self.scopes
    }

    /// The static policy or link at a position in the order of the set.
    pub fn policy_at(&self, position: usize) -> Option<&Policy>
        ensures { option_map policy_seen (option_copied result) ≡ policy_stood (slice_get self.now position) }
    {
        let (_, bound) = self.bound.get_index(position)?;
        bound.as_policy()
    }
}

// Covers what isn't covered yet: all is covered then.
fn cover(alloc: Global, scopes: &mut ScopeIndex, bound: &PolicyMap<Bound>) -> Result<(), AllocError>
    requires { Covers (entries_of bound.now) scopes.old }
    ensures covers { Covers (entries_of bound.now) scopes.new }
    ensures whole { OnOk result (covered scopes.new ≡ length bound.now) }
{
    let _len = bound.len();
    while let Some((_, next)) = bound.get_index(scopes.len()) {
        cover_next(alloc, scopes, next)?;
    }
    Ok(())
}

// Covers the next position, at which this stands.
fn cover_next(alloc: Global, scopes: &mut ScopeIndex, next: &Bound) -> Result<(), AllocError>
    requires { covered scopes.old < 2 ^ 63 }
    ensures covered { OnOk result (covered scopes.new ≡ covered scopes.old + 1) }
    ensures found { OnOk result (IsEntryFound scopes.new (covered scopes.old) (entry_of next.now)) }
    ensures kept { KeepsFound scopes.old scopes.new }
    ensures err { OnErr result (covered scopes.new ≡ covered scopes.old) }
{
    match next.kind() {
        BoundKind::Policy(policy) => scopes.push(alloc, policy),
        BoundKind::Template(_) => {
            scopes.skip();
            Ok(())
        }
    }
}
