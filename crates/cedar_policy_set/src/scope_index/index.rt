// The index of scopes.
ghost use Rattle.std.specs.Prelude.{◌≡◌, ◌+◌, ◌<◌, ◌≤◌, ◌^◌, ℕ, [], ◌∷◌, ◌++◌, true, OnOk, OnErr};
ghost use Rattle.cedar_grammar.specs.Policy.{Policy as PolicySyntax};
ghost use Rattle.cedar_grammar.specs.Bindings.{Bindings};
ghost use Rattle.cedar_policies.specs.Policies.{bindings_of, policy_syntax};
ghost use Rattle.cedar_policy_set.specs.ScopeFinding.{IsFound, IsListedFor, KeepsFound, covered, stands_at, is_listed, others_of, positions_at};
ghost use Rattle.cedar_policy_set.specs.ScopeKeys.{IsKey};
ghost use Rattle.cedar_policy_set.specs.ClosedPlaces.{closed_up};

use crate::gaps::Gaps;
use crate::scope_index::keys::{Key, key_of};
use crate::scope_index::positions::Positions;
use cedar_literals::uids::EntityUID;
use cedar_policies::policies::Policy;
use std::alloc::{AllocError, Global};

/// Policies of a set by what their scopes name: each is found by one entity, or by none. It covers the
/// positions below its length. What is listed is a place, which a policy keeps while those before it are taken
/// out; `positions` tells where it stands. Contracts see by `IsFound` where a policy is listed.
pub struct ScopeIndex {
    principals: Positions,
    actions: Positions,
    resources: Positions,
    paired_principals: Positions,
    paired_resources: Positions,
    others: Vec<usize>,
    gaps: Gaps,
    len: usize,
}

// Written by hand, so that a function which may return early lets go of an index by a call.
impl Drop for ScopeIndex {
    fn drop(self) {
        let ScopeIndex {
            principals: _principals,
            actions: _actions,
            resources: _resources,
            paired_principals: _paired_principals,
            paired_resources: _paired_resources,
            others: _others,
            gaps: _gaps,
            len: _len,
        } = self;
    }
}

impl ScopeIndex {
    /// No position is covered; takes no memory.
    pub fn new(alloc: Global) -> ScopeIndex
        ensures { covered result ≡ 0 }
    {
        ScopeIndex {
            principals: Positions::new(alloc),
            actions: Positions::new(alloc),
            resources: Positions::new(alloc),
            paired_principals: Positions::new(alloc),
            paired_resources: Positions::new(alloc),
            others: Vec::new(alloc),
            gaps: Gaps::new(alloc),
            len: 0,
        }
    }

    /// The positions below this one are covered.
    pub fn len(&self) -> usize
        ensures { result ≡ covered self.now }
    {
        self.len
    }

    /// Those of policies that are found by the principal that their scopes name.
    pub fn principals(&self) -> &Positions
        ensures { result.now ≡ self.now.principals }
    {
        &self.principals
    }

    /// Those of policies that are found by the one action that their scopes name.
    pub fn actions(&self) -> &Positions
        ensures { result.now ≡ self.now.actions }
    {
        &self.actions
    }

    /// Those of policies that are found by the resource that their scopes name.
    pub fn resources(&self) -> &Positions
        ensures { result.now ≡ self.now.resources }
    {
        &self.resources
    }

    /// Those of policies that are found by the principal or by the resource, by the principal that their scopes name.
    pub fn paired_principals(&self) -> &Positions
        ensures { result.now ≡ self.now.paired_principals }
    {
        &self.paired_principals
    }

    /// The same, by the resource that their scopes name.
    pub fn paired_resources(&self) -> &Positions
        ensures { result.now ≡ self.now.paired_resources }
    {
        &self.paired_resources
    }

    /// Those of policies that are found by no entity.
    pub fn others(&self) -> &[usize]
        ensures { result.now ≡ others_of self.now }
    {
        &self.others
    }

    /// Covers the next position, at which this policy stands. Refused for memory alone; it isn't covered then. That it
    /// is found by an entity of its scope, in place of by none, no contract says: it saves looks alone.
    pub fn push(&mut self, alloc: Global, policy: &Policy) -> Result<(), AllocError>
        requires { covered self.old < 2 ^ 63 }
        ensures covered { OnOk result (covered self.new ≡ covered self.old + 1) }
        ensures found { OnOk result (IsFound self.new (covered self.old) (bindings_of policy.now) (policy_syntax policy.now)) }
        ensures kept { KeepsFound self.old self.new }
        ensures err { OnErr result (covered self.new ≡ covered self.old) }
    {
        let place = self.gaps.place(self.len);
        self.list(alloc, key_of(policy), place)?;
        self.len += 1;
        Ok(())
    }

    /// Covers the next position, at which no policy stands.
    pub fn skip(&mut self)
        requires { covered self.old < 2 ^ 63 }
        ensures covered { covered self.new ≡ covered self.old + 1 }
        ensures kept { KeepsFound self.old self.new }
    {
        self.len += 1;
    }

    /// A position of the set is taken out, and those behind it move up. Nothing is covered any more where
    /// more than half of the places were taken out already, or where memory lacks; that it is so only there, no
    /// contract says.
    pub fn take_out(&mut self, alloc: Global, position: usize)
        requires { covered self.old < 2 ^ 63 }
        ensures within { covered self.new ≤ covered self.old }
        ensures fewer { position < covered self.old → covered self.new < covered self.old }
        ensures kept { (p : ℕ) (b : Bindings) (s : PolicySyntax) → closed_up position p < covered self.new → IsFound self.old p b s → IsFound self.new (closed_up position p) b s }
    {
        if position >= self.len {
            return;
        }
        if self.gaps.len() > self.len / 2 {
            *self = ScopeIndex::new(alloc);
            return;
        }
        match self.gaps.take_out(position) {
            Ok(()) => self.len -= 1,
            Err(_) => *self = ScopeIndex::new(alloc),
        }
    }

    /// The positions at which now stands what is listed at these places. What was taken out stands where the
    /// next one does.
    pub fn positions(&self, places: Vec<usize>) -> Vec<usize>
        ensures { (t : ℕ) → is_listed places.items t ≡ true → is_listed result.items (stands_at self.now t) ≡ true }
    {
        self.gaps.positions(places)
    }

    // Lists a place where a policy of this key is found.
    fn list(&mut self, alloc: Global, key: Key<'_>, place: usize) -> Result<(), AllocError>
        ensures found { OnOk result ((b : Bindings) (s : PolicySyntax) → IsKey b s key.entry → IsListedFor self.new place b s) }
        ensures kept { KeepsFound self.old self.new }
        ensures gaps { self.new.gaps ≡ self.old.gaps }
        ensures covered { covered self.new ≡ covered self.old }
    {
        match key {
            Key::Principal(uid) => self.principals.list(alloc, uid, place),
            Key::Action(uid) => self.actions.list(alloc, uid, place),
            Key::Resource(uid) => self.resources.list(alloc, uid, place),
            Key::Pair(principal, resource) => self.list_pair(alloc, principal, resource, place),
            Key::Nothing => list_last(&mut self.others, place),
        }
    }

    // Lists a place both under a principal and under a resource. Where memory lacks it may stand under the first alone.
    fn list_pair(
        &mut self,
        alloc: Global,
        principal: &EntityUID,
        resource: &EntityUID,
        place: usize,
    ) -> Result<(), AllocError>
        ensures principal { OnOk result (is_listed (positions_at self.new.paired_principals principal.now) place ≡ true) }
        ensures resource { OnOk result (is_listed (positions_at self.new.paired_resources resource.now) place ≡ true) }
        ensures kept { KeepsFound self.old self.new }
        ensures gaps { self.new.gaps ≡ self.old.gaps }
        ensures covered { covered self.new ≡ covered self.old }
    {
        self.paired_principals.list(alloc, principal, place)?;
        self.paired_resources.list(alloc, resource, place)
    }
}

// Lists a position behind these.
fn list_last(positions: &mut Vec<usize>, position: usize) -> Result<(), AllocError>
    ensures listed { OnOk result (positions.new.items ≡ positions.old.items ++ position ∷ []) }
    ensures err { OnErr result (positions.new.items ≡ positions.old.items) }
{
    positions.push(position)?;
    Ok(())
}
