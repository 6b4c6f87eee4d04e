//! Lists of uids in rising order.
ghost use Rattle.std.specs.Prelude.{◌≡◌, ◌↔◌, ◌<◌, ◌≤◌, ◌+◌, ◌^◌, ◌||◌, OnOk, OnErr, IfOk, IsTrue, length};
ghost use Rattle.std.specs.Vec.{vec_len, vec_capacity};
ghost use Rattle.std.specs.FinSet as set;
ghost use Rattle.std.specs.List.{list_any};
ghost use Rattle.cedar_language.specs.Order.{same_uid};
ghost use Rattle.cedar_language.specs.Uid.{Uid};
ghost use Rattle.cedar_entities.specs.Lists.{AreRising, AreInTurn};

use crate::iteration::Uids;
use cedar_literals::uids::EntityUID;
use std::alloc::{AllocError, Global};
use std::collections::BTreeSet;
use std::marker::Model;
use std::mem;

// The greatest number of uids that are looked at one after another: to see that two differ mostly takes a look at their ids alone.
const FEW: usize = 16;

/// Uids, each once, as one list in rising order. Contracts see the set of them.
pub struct EntityUIDs {
    alloc: Global,
    uids: Vec<EntityUID>,
}

impl Drop for EntityUIDs {
    fn drop(self) {
        let EntityUIDs { alloc: _, uids: _ } = self;
    }
}

impl Model for EntityUIDs {
    ghost use Rattle.std.specs.FinSet as set;
    ghost use Rattle.cedar_entities.specs.Lists.{UidSet, uids_code, IsKept};

    ghost Value = { UidSet };

    ghost coded = { uids_code };

    ghost view = { λ a. set.from_list a.uids.items };

    ghost invariant = { λ a. IsKept a.uids.items };
}

// ---- makers

impl EntityUIDs {
    /// No uids.
    pub fn new(alloc: Global) -> EntityUIDs
        ensures { result ≡ set.empty }
    {
        EntityUIDs {
            alloc,
            uids: Vec::new(alloc),
        }
    }

    // The uids of a list that rises.
    fn of_rising(alloc: Global, uids: Vec<EntityUID>) -> EntityUIDs
        requires { AreRising uids.items }
        ensures { result ≡ set.from_list uids.items }
    {
        EntityUIDs { alloc, uids }
    }

    /// The uids of a list, in any order and any number of times. It is sorted once, and its room to grow given back;
    /// refused for memory alone.
    pub fn from_vec(alloc: Global, uids: Vec<EntityUID>) -> Result<EntityUIDs, AllocError>
        ensures { IfOk result (λ made. made ≡ set.from_list uids.items) }
    {
        let mut uids = uids;
        uids.sort()?;
        uids.dedup();
        uids.shrink_to_fit();
        Ok(EntityUIDs::of_rising(alloc, uids))
    }
}

// ---- readers

// Whether the uid is in the set.
fn is_in(set: &BTreeSet<EntityUID>, uid: &EntityUID) -> bool
    ensures { result ≡ list_any (same_uid uid.now) set.now.keys }
{
    set.contains(uid)
}

// Whether the uid is one of the listed: a look at each.
fn is_listed(listed: &[EntityUID], uid: &EntityUID) -> bool
    ensures { result ≡ list_any (same_uid uid.now) listed.now }
{
    listed.iter().any(|one| *uid == *one)
}

// Whether one of the listed uids is in the set.
fn stands_among(uids: &[EntityUID], set: &BTreeSet<EntityUID>) -> bool
    ensures { result ≡ list_any (λ u. list_any (same_uid u) set.now.keys) uids.now }
{
    uids.iter().any(|uid| is_in(set, uid))
}

impl EntityUIDs {
    /// The uids, each below the next.
    pub fn as_slice(&self) -> &[EntityUID]
        ensures rising { AreRising result.now }
        ensures listed { set.from_list result.now ≡ self.now }
        ensures small { length result.now < 2 ^ 63 }
    {
        self.uids.as_slice()
    }

    /// Whether there are none.
    pub(crate) fn is_empty(&self) -> bool
        ensures { IsTrue result ↔ (self.now ≡ set.empty) }
    {
        self.as_slice().is_empty()
    }

    /// Whether the uid is one of them: of few by a look at each, else by a binary search.
    pub fn contains(&self, uid: &EntityUID) -> bool
        ensures { result ≡ set.contains self.now uid.now }
    {
        let listed = self.as_slice();
        if listed.len() <= FEW {
            return is_listed(listed, uid);
        }
        listed.binary_search(uid).is_ok()
    }

    // Whether one of the uids of the set is one of these.
    fn has_one_of(&self, uids: &BTreeSet<EntityUID>) -> bool
        ensures { result ≡ list_any (set.contains self.now) uids.now.keys }
    {
        uids.iter().any(|uid| self.contains(uid))
    }

    /// Whether one of the uids of the set is one of these: a look-up for each uid of the smaller one.
    pub fn meets(&self, uids: &BTreeSet<EntityUID>) -> bool
        ensures { result ≡ list_any (set.contains self.now) uids.now.keys }
    {
        let listed = self.as_slice();
        if listed.len() < uids.len() {
            stands_among(listed, uids)
        } else {
            self.has_one_of(uids)
        }
    }

    /// The uids, each below the next.
    pub fn iter(&self) -> Uids<'_>
        ensures rising { AreRising result }
        ensures listed { set.from_list result ≡ self.now }
        ensures fits { length result < 2 ^ 64 }
    {
        let none: &[EntityUID] = &[];
        Uids {
            first: self.as_slice().iter(),
            others: none.iter(),
            passed: self,
        }
    }

    /// The uids, each below the next, and then those of the others that aren't among them, each below the next.
    pub fn followed_by<'a>(&'a self, others: &'a EntityUIDs) -> Uids<'a>
        ensures in_turn { AreInTurn self.now others.now result }
        ensures fits { length result < 2 ^ 64 }
    {
        Uids {
            first: self.as_slice().iter(),
            others: others.as_slice().iter(),
            passed: self,
        }
    }
}

impl Clone for EntityUIDs {
    ghost is_clone = { λ uids copy. copy ≡ uids };

    fn clone(&self) -> Result<EntityUIDs, AllocError> {
        let uids = Vec::from_clones(self.alloc, self.as_slice())?;
        Ok(EntityUIDs::of_rising(self.alloc, uids))
    }
}

// ---- changes

// So many at most are put in their places one by one.
const SHORT: usize = 64;

// Puts a uid in its place in a list that rises and has room, where it isn't there.
fn insert_in_turn(list: &mut Vec<EntityUID>, uid: EntityUID)
    requires rising { AreRising list.old.items }
    requires room { vec_len list.old < vec_capacity list.old }
    ensures rising { AreRising list.new.items }
    ensures added { (q : Uid) → list_any (same_uid q) list.new.items ≡ (same_uid q uid || list_any (same_uid q) list.old.items) }
    ensures capacity { vec_capacity list.new ≡ vec_capacity list.old }
    ensures len { vec_len list.new ≤ vec_len list.old + 1 }
{
    let Err(place) = list.as_slice().binary_search(&uid) else {
        return;
    };
    let _inserted = list.insert(place, uid);
}

// Puts each of the uids in its place in a list that rises. Refused for memory alone, before one is put.
fn insert_each_in_turn(list: &mut Vec<EntityUID>, uids: Vec<EntityUID>) -> Result<(), AllocError>
    requires { AreRising list.old.items }
    ensures rising { AreRising list.new.items }
    ensures added { OnOk result ((q : Uid) → list_any (same_uid q) list.new.items
        ≡ (list_any (same_uid q) uids.items || list_any (same_uid q) list.old.items)) }
    ensures err { OnErr result (list.new.items ≡ list.old.items) }
{
    list.reserve(uids.len())?;
    for uid in uids {
        insert_in_turn(list, uid);
    }
    Ok(())
}

impl EntityUIDs {
    /// A copy, whose uids share their parts; refused for memory alone.
    pub fn clone(&self, _alloc: Global) -> Result<EntityUIDs, AllocError>
        ensures { IfOk result (λ copy. copy ≡ self.now) }
    {
        Clone::clone(self)
    }

    /// Adds the uids of a list, in any order and any number of times. A few are put in their places, and more sorted
    /// once with the others. Refused for memory alone; nothing is then added.
    pub fn extend(&mut self, uids: Vec<EntityUID>) -> Result<(), AllocError>
        ensures added { OnOk result (self.new ≡ set.union self.old (set.from_list uids.items)) }
        ensures err { OnErr result (self.new ≡ self.old) }
    {
        if uids.len() <= SHORT {
            return insert_each_in_turn(&mut self.uids, uids);
        }
        self.extend_sorted(uids)
    }

    // The same by a sort of all.
    fn extend_sorted(&mut self, uids: Vec<EntityUID>) -> Result<(), AllocError>
        ensures added { OnOk result (self.new ≡ set.union self.old (set.from_list uids.items)) }
        ensures err { OnErr result (self.new ≡ self.old) }
    {
        let mut uids = uids;
        uids.extend_with_clones(self.as_slice())?;
        *self = EntityUIDs::from_vec(self.alloc, uids)?;
        Ok(())
    }

    /// Adds a uid. Refused for memory alone; nothing is then added.
    pub fn insert(&mut self, uid: EntityUID) -> Result<(), AllocError>
        ensures added { OnOk result (self.new ≡ set.insert self.old uid) }
        ensures err { OnErr result (self.new ≡ self.old) }
    {
        let mut uids = Vec::new(self.alloc);
        uids.push(uid)?;
        self.extend(uids)
    }

    /// The uids, each below the next.
    pub(crate) fn into_vec(self) -> Vec<EntityUID>
        ensures rising { AreRising result.items }
        ensures listed { set.from_list result.items ≡ self }
    {
        let EntityUIDs { alloc: _, uids } = self;
        uids
    }

    // The same; none stay here.
    fn take(&mut self) -> Vec<EntityUID>
        ensures rising { AreRising result.items }
        ensures listed { set.from_list result.items ≡ self.old }
    {
        let none = EntityUIDs::new(self.alloc);
        mem::replace(self, none).into_vec()
    }

    /// Takes the uids of a set away.
    pub fn remove_all(&mut self, gone: &BTreeSet<EntityUID>)
        ensures { self.new ≡ set.difference self.old (set.from_list gone.now.keys) }
    {
        if self.meets(gone) {
            self.cut(gone);
        }
    }

    fn cut(&mut self, gone: &BTreeSet<EntityUID>)
        ensures { self.new ≡ set.difference self.old (set.from_list gone.now.keys) }
    {
        let mut left = self.take();
        left.retain(|uid| !is_in(gone, uid));
        *self = EntityUIDs::of_rising(self.alloc, left);
    }

    /// Takes the uids of another list away.
    pub(crate) fn subtract(&mut self, gone: &EntityUIDs)
        ensures { self.new ≡ set.difference self.old gone.now }
    {
        let mut left = self.take();
        left.retain(|uid| !gone.contains(uid));
        *self = EntityUIDs::of_rising(self.alloc, left);
    }

    /// Takes a uid away, if it is one of them.
    pub fn remove(&mut self, uid: &EntityUID)
        ensures { self.new ≡ set.remove self.old uid.now }
    {
        if self.contains(uid) {
            let mut left = self.take();
            left.retain(|kept| kept != uid);
            *self = EntityUIDs::of_rising(self.alloc, left);
        }
    }

    /// Takes all uids away.
    pub fn clear(&mut self)
        ensures { self.new ≡ set.empty }
    {
        *self = EntityUIDs::new(self.alloc);
    }
}
