// The policy set as one map from ids.
ghost use Rattle.std.specs.Prelude.{◌≡◌, ◌↔◌, ◌^◌, ◌<◌, ◌≤◌, [], ◌∷◌, ◌++◌, IsTrue, IfOk, IfSome, OnOk, OnErr, Some, None, true, false, length, option_map};
ghost use Rattle.std.specs.Map.{values_of};
ghost use Rattle.std.specs.Option.{option_copied};
ghost use Rattle.cedar_language.specs.Uid.{Text};
ghost use Rattle.cedar_grammar.specs.Policy.{Policy as PolicySyntax};

use crate::bounds::Bound;
use crate::comparing::bind_alike;
use crate::map_values::{IntoValues, Values};
use crate::numbers::{Numbers, numbered_id};
use crate::policy_map::PolicyMap;
use crate::scope_index::index::ScopeIndex;
use cedar_policy_parts::PolicyID;
use std::alloc::{AllocError, Global};
use std::fmt;
use std::marker::Model;

/// Static policies, templates and links by their ids, in the order in which they came: a new one last, and
/// a removal closes up. Each link names a template of the set and gives exactly its slots, and each template
/// lists its slots. Contracts see the ids, each with what it is bound to. (Cedar language reference,
/// "Policies" and "Policy templates".)
pub struct PolicySet {
    pub(crate) bound: PolicyMap<Bound>,
    numbers: Numbers,
    // covers a beginning of what is bound
    pub(crate) scopes: ScopeIndex,
}

/// What is bound, without what is known of it beside.
impl fmt::Debug for PolicySet {
    fn fmt<W: fmt::Write>(&self, f: &mut fmt::Formatter<W>) -> fmt::Result {
        f.debug_struct("PolicySet")
            .field("bound", &self.bound)
            .finish_non_exhaustive()
    }
}

// Written by hand, so that a function which may return early lets go of a set by a call.
impl Drop for PolicySet {
    fn drop(self) {
        let PolicySet {
            bound: _bound,
            numbers: _numbers,
            scopes: _scopes,
        } = self;
    }
}

impl Model for PolicySet {
    ghost use Rattle.std.specs.Coded.{coded_list, coded×};
    ghost use Rattle.cedar_language.specs.OrderLaws.{text_code};
    ghost use Rattle.cedar_policy_set.specs.Entries.{Entries};
    ghost use Rattle.cedar_policy_set.specs.EntryNodes.{entry_code};

    ghost Value = { Entries };

    ghost coded = { coded_list (coded× text_code entry_code) };

    ghost use Rattle.cedar_policy_set.specs.Bounds.{entries_of};
    ghost use Rattle.cedar_policy_set.specs.Scopes.{IsKept};

    ghost view = { λ s. entries_of s.bound };

    ghost invariant = { λ s. IsKept s.bound s.numbers s.scopes };
}

/// Both bind the same ids to the same things, in whatever order; places don't count.
impl PartialEq for PolicySet {
    ghost use Rattle.std.specs.Cmp.{partial_equiv_from_equiv};
    ghost use Rattle.cedar_policy_set.specs.SameSets.{same_sets, same_sets_equiv};

    ghost eq = { same_sets };

    ghost laws = { partial_equiv_from_equiv same_sets_equiv };

    fn eq(&self, other: &PolicySet) -> bool {
        bind_alike(self, self, other) && bind_alike(other, self, other)
    }
}

impl Eq for PolicySet {
    ghost use Rattle.cedar_policy_set.specs.SameSets.{same_sets_equiv};

    ghost laws = { same_sets_equiv };
}

impl PolicySet {
    ghost use Rattle.cedar_policy_set.specs.Entries.{bound_at, is_bound, without, HasItsTemplate, IsFull, IsWhole, template, has_links};
    ghost use Rattle.cedar_policy_set.specs.Bounds.{entry_of, bound_id, entries_of, seen, IsNamed, IsSound, ListsSlots, ListTheirSlots};
    ghost use Rattle.cedar_policy_set.specs.Numbers.{BindsNumbers, FindsUnbound};

    /// The empty set; takes no memory.
    pub fn new(alloc: Global) -> PolicySet
        ensures { result ≡ [] }
    {
        PolicySet {
            bound: PolicyMap::new(alloc),
            numbers: Numbers::new(alloc),
            scopes: ScopeIndex::new(alloc),
        }
    }

    /// The set that binds just these, in their order; takes no memory. The caller sees to it that they are
    /// such a set: each stands under its own id, each link names a template among them and gives exactly its
    /// slots, and each template lists its slots.
    pub fn from_raw_components(bound: PolicyMap<Bound>) -> PolicySet
        requires { IsSound bound }
        ensures { result ≡ entries_of bound }
    {
        let alloc = *bound.allocator();
        PolicySet {
            bound,
            numbers: Numbers::new(alloc),
            scopes: ScopeIndex::new(alloc),
        }
    }

    /// A copy that shares policies' parts. The index of scopes is not copied: it is made again where it is asked
    /// for. Refused for memory alone.
    pub fn clone(&self, alloc: Global) -> Result<PolicySet, AllocError>
        ensures { IfOk result (λ copy. copy ≡ self.now) }
    {
        let bound = self.bound.clone(alloc)?;
        Ok(PolicySet::from_raw_components(bound))
    }

    /// What an id is bound to, if it is: a static policy, a link or a template.
    pub fn bound(&self, id: &PolicyID) -> Option<&Bound>
        ensures entry { option_map entry_of (option_copied result) ≡ bound_at self.now id.now }
        ensures id { IfSome result (λ bound. bound_id bound.now ≡ id.now) }
    {
        self.bound.get(id)
    }

    /// Whether an id is bound.
    pub fn is_bound(&self, id: &PolicyID) -> bool
        ensures { result ≡ is_bound self.now id.now }
    {
        self.bound.contains_key(id)
    }

    /// The first number from this one on whose id `policyN` isn't bound, with that id; none where each from there on
    /// is bound. Numbers that are known to be bound aren't looked at. Refused for memory alone.
    pub fn next_unbound(
        &self,
        alloc: Global,
        from: u64,
    ) -> Result<Option<(u64, PolicyID)>, AllocError>
        ensures { IfOk result (FindsUnbound self.now from) }
    {
        let mut number = self.skip_bound(from);
        while number < u64::MAX {
            let id = numbered_id(alloc, number)?;
            if !self.is_bound(&id) {
                return Ok(Some((number, id)));
            }
            number = self.skip_bound(number + 1);
        }
        Ok(None)
    }

    // Where a search for a free id `policyN` may begin that looks at no number below this one. How far on that is
    // no contract says: it saves looks alone.
    fn skip_bound(&self, from: u64) -> u64
        ensures from { from ≤ result }
        ensures bound { BindsNumbers self.now from result }
    {
        self.numbers.next(from)
    }

    /// How many ids are bound.
    pub fn len(&self) -> usize
        ensures len { result ≡ length self.now }
        ensures small { result < 2 ^ 63 }
        ensures whole { IsWhole self.now }
    {
        self.bound.len()
    }

    /// Whether no id is bound.
    pub fn is_empty(&self) -> bool
        ensures { IsTrue result ↔ (self.now ≡ []) }
    {
        self.bound.is_empty()
    }

    /// What the ids are bound to, lent, in the order in which they came.
    pub fn values(&self) -> Values<'_, Bound>
        ensures entries { seen result ≡ self.now }
        ensures listed { ListTheirSlots result }
    {
        self.bound.values()
    }

    /// What the ids are bound to, given up, in the order in which they came.
    pub fn into_values(self) -> IntoValues<Bound>
        ensures { seen result ≡ self }
    {
        let PolicySet {
            bound,
            numbers: _numbers,
            scopes: _scopes,
        } = self;
        bound.into_values()
    }

    // Binds an id that isn't bound.
    pub(crate) fn bind(&mut self, id: PolicyID, bound: Bound) -> Result<(), AllocError>
        requires free { bound_at self.old id ≡ None }
        requires named { bound_id bound ≡ id }
        requires listed { ListsSlots bound }
        requires template { HasItsTemplate self.old (entry_of bound) }
        requires full { IsFull (entry_of bound) }
        ensures bound { OnOk result (self.new ≡ self.old ++ (id, entry_of bound) ∷ []) }
        ensures err { OnErr result (self.new ≡ self.old) }
    {
        self.bound.push(id, bound)?;
        Ok(())
    }

    /// Binds these after what is bound, in their order. The caller sees to it that each stands under its own
    /// id, that no id is bound already, that each link names a template that is bound then and gives exactly
    /// its slots, and that each template lists its slots. Refused for memory alone; a refused call changes
    /// nothing.
    pub fn append(&mut self, more: PolicyMap<Bound>) -> Result<(), AllocError>
        requires named { IsNamed more }
        requires listed { ListTheirSlots (values_of more) }
        requires whole { IsWhole (self.old ++ entries_of more) }
        ensures appended { OnOk result (self.new ≡ self.old ++ entries_of more) }
        ensures err { OnErr result (self.new ≡ self.old) }
    {
        self.bind_all(more)?;
        // Merges append, and they alone look for free ids.
        self.numbers.advance(&self.bound);
        Ok(())
    }

    // Binds these as `append` does, without a look at which numbers are bound then.
    pub(crate) fn bind_all(&mut self, more: PolicyMap<Bound>) -> Result<(), AllocError>
        requires named { IsNamed more }
        requires listed { ListTheirSlots (values_of more) }
        requires whole { IsWhole (self.old ++ entries_of more) }
        ensures appended { OnOk result (self.new ≡ self.old ++ entries_of more) }
        ensures err { OnErr result (self.new ≡ self.old) }
    {
        self.bound.append(more)?;
        Ok(())
    }

    // Takes away an id that no link names as its template.
    pub(crate) fn take_away(&mut self, id: &PolicyID) -> Option<Bound>
        requires { (s : PolicySyntax) → bound_at self.old id.now ≡ Some (template s) → has_links self.old id.now ≡ false }
        ensures removed { self.new ≡ without id.now self.old }
        ensures entry { option_map entry_of result ≡ bound_at self.old id.now }
        ensures id { IfSome result (λ bound. bound_id bound ≡ id.now) }
    {
        self.numbers.take_away(id);
        let alloc = *self.bound.allocator();
        // The length is what says that a position fits.
        let _len = self.bound.len();
        match self.bound.shift_remove_full(id) {
            None => None,
            Some((position, bound)) => {
                self.scopes.take_out(alloc, position);
                Some(bound)
            }
        }
    }
}
