// Places by entities.
ghost use Rattle.std.specs.BTreeMap.{get};
ghost use Rattle.std.specs.Prelude.{◌≡◌, ◌↔◌, [], ◌∷◌, ◌++◌, IsTrue, OnOk, OnErr, cond};
ghost use Rattle.cedar_language.specs.Uid.{Uid};
ghost use Rattle.cedar_language.specs.Order.{same_text, text_cmp};
ghost use Rattle.cedar_policy_set.specs.ScopeLists.{ListsSome};

use cedar_literals::uids::{Eid, EntityUID};
use std::alloc::{AllocError, Global};
use std::collections::BTreeMap;

/// Places of policies, listed under entities. They are kept by the id alone, so that what is listed under an
/// entity stands under those of other types that have its id, too. Contracts see those of an entity through
/// `positions_at`.
pub struct Positions {
    by_id: BTreeMap<Eid, Vec<usize>>,
    ghost listing: { ListsSome (get text_cmp by_id) },
}

// Written by hand, so that a function which may return early lets go of them by a call.
impl Drop for Positions {
    fn drop(self) {
        let Positions { by_id: _by_id } = self;
    }
}

impl Positions {
    ghost use Rattle.cedar_policy_set.specs.ScopeFinding.{positions_at, AreAmong};

    // None is listed; takes no memory.
    pub(crate) fn new(alloc: Global) -> Positions
        ensures { (uid : Uid) → positions_at result uid ≡ [] }
    {
        Positions {
            by_id: BTreeMap::new(alloc),
        }
    }

    /// Those listed under an entity, in the order in which they were listed.
    pub fn at(&self, uid: &EntityUID) -> &[usize]
        ensures { result.now ≡ positions_at self.now uid.now }
    {
        match self.by_id.get(uid.eid()) {
            Some(places) => places,
            None => &[],
        }
    }

    /// Whether none is listed under any entity.
    pub fn is_empty(&self) -> bool
        ensures { IsTrue result ↔ ((uid : Uid) → positions_at self.now uid ≡ []) }
    {
        self.by_id.is_empty()
    }

    /// Appends all that are listed under any entity, in no order that is told. Refused for memory alone.
    pub fn push_all(&self, found: &mut Vec<usize>) -> Result<(), AllocError>
        ensures kept { OnOk result (AreAmong found.old.items found.new.items) }
        ensures added { OnOk result ((uid : Uid) → AreAmong (positions_at self.now uid) found.new.items) }
    {
        for places in self.by_id.values() {
            found.extend_from_slice(places)?;
        }
        Ok(())
    }

    // Lists one more under an entity; refused for memory alone, and nothing is then listed.
    pub(crate) fn list(
        &mut self,
        alloc: Global,
        uid: &EntityUID,
        place: usize,
    ) -> Result<(), AllocError>
        ensures listed { OnOk result ((u : Uid) → positions_at self.new u ≡ cond (same_text uid.now.id u.id) (positions_at self.old u ++ place ∷ []) (positions_at self.old u)) }
        ensures err { OnErr result ((u : Uid) → positions_at self.new u ≡ positions_at self.old u) }
    {
        match self.by_id.get_mut(uid.eid()) {
            Some(places) => Ok(places.push(place)?),
            None => self.list_first(alloc, uid, place),
        }
    }

    // The same where none is listed under the entity yet.
    fn list_first(&mut self, alloc: Global, uid: &EntityUID, place: usize) -> Result<(), AllocError>
        requires { positions_at self.old uid.now ≡ [] }
        ensures listed { OnOk result ((u : Uid) → positions_at self.new u ≡ cond (same_text uid.now.id u.id) (positions_at self.old u ++ place ∷ []) (positions_at self.old u)) }
        ensures err { OnErr result ((u : Uid) → positions_at self.new u ≡ positions_at self.old u) }
    {
        let id = uid.eid().clone(alloc)?;
        // Most entities are named by one scope.
        let mut places = Vec::with_capacity(alloc, 1)?;
        places.push(place)?;
        self.by_id.insert(id, places)?;
        Ok(())
    }
}
