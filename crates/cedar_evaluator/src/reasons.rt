//! The reasons of a response: `Reasons`, ids of policies in an order.
ghost use Rattle.std.specs.Prelude.{◌≡◌, ◌↔◌, [], IfOk, IsTrue, OnErr, OnOk, length, not};
ghost use Rattle.std.specs.Iterator.{at_most};
ghost use Rattle.std.specs.List.{list_all};
ghost use Rattle.std.specs.Map.Iter.{TakesFirst, deref};
ghost use Rattle.std.specs.Set.{is_member};
ghost use Rattle.cedar_language.specs.Order.{same_text};
ghost use Rattle.cedar_evaluator.specs.Reasons.{put_id};

use cedar_policy_parts::PolicyID;
use cedar_policy_set::policy_map::PolicyMap;
use std::alloc::{AllocError, Global};
use std::marker::Model;
use std::{fmt, slice};

/// Ids of policies, each once, in the order in which they came. An id is found by an order of ids, so that no
/// choice of ids makes it slow. Contracts see the ids.
#[derive(Drop)]
pub struct Reasons {
    pub(crate) ids: PolicyMap<()>,
}

impl Model for Reasons {
    ghost use Rattle.std.specs.Prelude.{List};
    ghost use Rattle.std.specs.Map.{keys_of};
    ghost use Rattle.cedar_language.specs.Uid.{Text};

    ghost Value = { List Text };

    ghost view = { λ r. keys_of r.ids };
}

/// The ids, in their order.
impl fmt::Debug for Reasons {
    fn fmt<W: fmt::Write>(&self, f: &mut fmt::Formatter<W>) -> fmt::Result {
        let mut set = f.debug_set();
        for id in self {
            set.entry(id);
        }
        set.finish()
    }
}

/// Both have the same ids, in whatever order.
impl PartialEq for Reasons {
    ghost use Rattle.std.specs.Cmp.{partial_equiv_from_equiv};
    ghost use Rattle.cedar_evaluator.specs.Reasons.{same_ids, same_ids_equiv};

    ghost eq = { same_ids };

    ghost laws = { partial_equiv_from_equiv same_ids_equiv };

    fn eq(&self, other: &Reasons) -> bool {
        other.contains_all(self) && self.contains_all(other)
    }
}

impl Eq for Reasons {
    ghost use Rattle.cedar_evaluator.specs.Reasons.{same_ids_equiv};

    ghost laws = { same_ids_equiv };
}

impl Reasons {
    /// No ids; takes no memory.
    pub fn new(alloc: Global) -> Reasons
        ensures { result ≡ [] }
    {
        Reasons {
            ids: PolicyMap::new(alloc),
        }
    }

    /// How many ids there are.
    pub fn len(&self) -> usize
        ensures { result ≡ length self.now }
    {
        self.ids.len()
    }

    /// Whether there is no id.
    pub fn is_empty(&self) -> bool
        ensures { IsTrue result ↔ (length self.now ≡ 0) }
    {
        self.ids.is_empty()
    }

    /// Whether an id is among these.
    pub fn contains(&self, id: &PolicyID) -> bool
        ensures { result ≡ is_member same_text self.now id.now }
    {
        self.ids.contains_key(id)
    }

    /// The ids, lent, in their order.
    pub fn iter(&self) -> Iter<'_>
        ensures { result ≡ self.now }
    {
        Iter {
            entries: self.ids.iter(),
        }
    }

    /// Puts an id last, and tells whether it is new: one that is there stays in its place. Refused for memory
    /// alone; a refused call changes nothing.
    pub fn insert(&mut self, id: PolicyID) -> Result<bool, AllocError>
        ensures put { OnOk result (self.new ≡ put_id self.old id) }
        ensures added { IfOk result (λ added. added ≡ not (is_member same_text self.old id)) }
        ensures err { OnErr result (self.new ≡ self.old) }
    {
        if self.contains(&id) {
            return Ok(false);
        }
        self.ids.push(id, ())?;
        Ok(true)
    }

    // Whether each of these ids is among those.
    fn contains_all(&self, ids: &Reasons) -> bool
        ensures { result ≡ list_all (is_member same_text self.now) ids.now }
    {
        for id in ids {
            if !self.contains(id) {
                return false;
            }
        }
        true
    }
}

/// The ids of reasons, lent, in their order.
#[derive(Drop)]
pub struct Iter<'a> {
    entries: slice::Iter<'a, (PolicyID, ())>,
}

impl<'a> Model for Iter<'a> {
    ghost use Rattle.std.specs.Prelude.{List};
    ghost use Rattle.std.specs.Map.{keys_of};
    ghost use Rattle.std.specs.Slice.Iter.{iter_rest};
    ghost use Rattle.cedar_language.specs.Uid.{Text};

    ghost Value = { List Text };

    ghost view = { λ a. keys_of (iter_rest a.entries) };
}

impl<'a> Iterator for Iter<'a> {
    type Item = &'a PolicyID;

    ghost next_gives = { TakesFirst deref };

    ghost remaining = { λ s. at_most (length s) };

    fn next(&mut self) -> Option<&'a PolicyID> {
        let (id, _) = self.entries.next()?;
        Some(id)
    }
}

impl<'a> IntoIterator for &'a Reasons {
    type Item = &'a PolicyID;

    type IntoIter = Iter<'a>;

    ghost into_iter_gives = { λ reasons ids. ids ≡ reasons.now };

    fn into_iter(self) -> Iter<'a> {
        self.iter()
    }
}
