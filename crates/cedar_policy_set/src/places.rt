// Where ids stand in an order, by places that a removal leaves as they are.
ghost use Rattle.std.specs.Prelude.{◌≡◌, ◌^◌, ◌<◌, ◌++◌, List, [], ◌∷◌, Some, IfOk, OnOk, OnErr, false, length, position, remove};
ghost use Rattle.std.specs.List.{list_any};
ghost use Rattle.cedar_language.specs.Uid.{Text};
ghost use Rattle.cedar_language.specs.Order.{same_text};
ghost use Rattle.cedar_policy_set.specs.Places.{Tells};

use crate::gaps::Gaps;
use cedar_policy_parts::PolicyID;
use std::alloc::{AllocError, Global};
use std::collections::BTreeMap;

// The places of ids. An id is found by an order of ids, so that no choice of ids makes it slow.
#[derive(Drop)]
pub(crate) struct Places {
    // of each id
    of_ids: BTreeMap<PolicyID, usize>,
    // of those that were taken away
    gaps: Gaps,
    len: usize,
}

impl Places {
    // Of no ids; takes no memory.
    pub(crate) fn new(alloc: Global) -> Places
        ensures { Tells result [] }
    {
        Places {
            of_ids: BTreeMap::new(alloc),
            gaps: Gaps::new(alloc),
            len: 0,
        }
    }

    // Whether more were taken away than are left.
    pub(crate) fn is_sparse(&self) -> bool {
        self.gaps.len() > self.len
    }

    // The position of an id.
    pub(crate) fn position(&self, id: &PolicyID) -> Option<usize>
        ensures { (ids : List Text) → Tells self.now ids → result ≡ position (same_text id.now) ids }
    {
        let place = self.of_ids.get(id)?;
        Some(self.gaps.position(*place))
    }

    // An id comes last. A refused call leaves the places as they were.
    pub(crate) fn push(&mut self, id: PolicyID) -> Result<(), AllocError>
        requires { self.old.len < 2 ^ 63 }
        ensures told { OnOk result ((ids : List Text) → Tells self.old ids → list_any (same_text id) ids ≡ false → Tells self.new (ids ++ id ∷ [])) }
        ensures err { OnErr result ((ids : List Text) → Tells self.old ids → Tells self.new ids) }
    {
        let place = self.gaps.place(self.len);
        self.of_ids.insert(id, place)?;
        self.len += 1;
        Ok(())
    }

    // Takes the id away that stands at a position. Refused for memory alone; the places are as they were then.
    pub(crate) fn take_out(&mut self, id: &PolicyID, at: usize) -> Result<(), AllocError>
        requires within { at < self.old.len }
        requires small { self.old.len < 2 ^ 63 }
        ensures { OnOk result ((ids : List Text) → Tells self.old ids → Some at ≡ position (same_text id.now) ids → Tells self.new (remove ids at)) }
    {
        self.gaps.take_out(at)?;
        self.of_ids.remove(id);
        self.len -= 1;
        Ok(())
    }
}
