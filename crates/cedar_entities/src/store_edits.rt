//! Edits of a store in place: a refused one leaves the store as it was.
ghost use Rattle.std.specs.Prelude.{◌≡◌, [], ◌∷◌, IsTrue, OnOk, OnErr, IfOk, IfErr, IfSome};
ghost use Rattle.std.specs.FinSet as set;
ghost use Rattle.std.specs.List.{list_all};
ghost use Rattle.cedar_language.specs.Order.{uid_cmp};
ghost use Rattle.cedar_entities.specs.Data.{EntityData};
ghost use Rattle.cedar_entities.specs.Edits.{put, remove, ArePlain};
ghost use Rattle.cedar_entities.specs.Gaining.{GainsEdges, ListsBelow, is_new_in};
ghost use Rattle.cedar_entities.specs.Beside.{CoversEntities};
ghost use Rattle.cedar_entities.specs.InPlace.{left_by, IsLeft};
ghost use Rattle.cedar_entities.specs.Kept.{Covers, put_over};
ghost use Rattle.cedar_entities.specs.Modes.{IsComputed, IsClosureRefusal};
ghost use Rattle.cedar_entities.specs.Refusals.{IsMemory};
ghost use Rattle.cedar_entities.specs.Store.{found_in, held_at, IsClosed, is_partial_store, Leaves, AddsAs, Adds};
ghost use Rattle.cedar_entities.specs.declared.closing.TCComputation.TheVariants.{ComputeNow};

use crate::children::{edges_of, forget, make_known};
use crate::closing::TCComputation;
use crate::edits::uids_of;
use crate::entity::Entity;
use crate::errors::EntitiesError;
use crate::gaining::{Gain, are_new, gain_in_place, gained_by, gains_edges};
use crate::in_place::{add_in_place, put_in_place, remove_in_place};
use crate::store::Entities;
use crate::touching::{are_few, few_or_touched, touched_below};
use cedar_literals::uids::EntityUID;
use std::alloc::{AllocError, Global};
use std::collections::BTreeSet;

// ---- what an edit touches

impl Entities {
    // Whether an edit of so many uids may touch few, the ancestors kept being whole.
    fn takes_few(&self, edited: usize) -> bool {
        self.is_closed && are_few(edited, self.len())
    }

    // The uids of the entities that an edit of these uids touches, where they are few, children are known and the
    // ancestors kept are whole.
    fn touched_few(
        &self,
        alloc: Global,
        uids: &BTreeSet<EntityUID>,
    ) -> Result<Option<Vec<EntityUID>>, AllocError>
        ensures { IfOk result (λ few. IfSome few (λ touched. IsClosed self.now × Covers (found_in self.now) uids.now.keys touched.items)) }
    {
        if !self.is_closed {
            return Ok(None);
        }
        match &self.children {
            Some(index) => touched_below(alloc, &self.entities, index, uids),
            None => Ok(None),
        }
    }

    // The same of an edit of these entities: the ancestors of all others stay whole.
    fn touched_by(
        &self,
        alloc: Global,
        entities: &[Entity],
    ) -> Result<Option<Vec<EntityUID>>, AllocError>
        ensures { IfOk result (λ few. IfSome few (λ touched. IsClosed self.now × CoversEntities (found_in self.now) entities.now touched.items)) }
    {
        let uids = uids_of(alloc, entities)?;
        self.touched_few(alloc, &uids)
    }
}

// ---- edits of one entity that only add edges

impl Entities {
    // Whether the edit is one, the ancestors kept being whole.
    fn only_gains(&self, entities: &[Entity]) -> bool
        ensures { IsTrue result → IsClosed self.now × GainsEdges (found_in self.now) entities.now }
    {
        if !self.is_closed {
            return false;
        }
        gains_edges(&self.entities, entities)
    }

    // The uids of the entities below those edited, where these gain ancestors: few are found by their children, and
    // many by a look at all.
    fn gaining(
        &self,
        alloc: Global,
        entities: &[Entity],
        gain: &Gain,
    ) -> Result<Vec<EntityUID>, AllocError>
        ensures { IfOk result (λ below. (e : EntityData) → entities.now ≡ e ∷ [] → ListsBelow (found_in self.now) e.uid gain.now.more below.items) }
    {
        if gain.is_nothing() {
            return Ok(Vec::new(alloc));
        }
        let uids = uids_of(alloc, entities)?;
        let few = self.touched_few(alloc, &uids)?;
        few_or_touched(alloc, &self.entities, few, &uids)
    }

    // Puts the entity, and adds what it gains to those below it.
    fn gain(&mut self, alloc: Global, entities: Vec<Entity>) -> Result<(), EntitiesError>
        requires closed { IsClosed self.old }
        requires gains { GainsEdges (found_in self.old) entities.items }
        ensures edited { OnOk result (IsComputed (put_over (found_in self.old) entities.items) (found_in self.new)) }
        ensures refused { IfErr result (IsClosureRefusal ComputeNow (put_over (found_in self.old) entities.items)) }
        ensures left { OnErr result (IsLeft self.old self.new) }
        ensures partial { is_partial_store self.new ≡ is_partial_store self.old }
    {
        let gain = gained_by(alloc, &self.entities, &entities)?;
        let below = self.gaining(alloc, &entities, &gain)?;
        let edges = edges_of(alloc, &self.entities, &entities, &[])?;
        let edited = gain_in_place(
            alloc,
            &mut self.entities,
            &mut self.children,
            entities,
            gain,
            &below,
        );
        forget(&mut self.children, &self.entities, &edges);
        edited
    }
}

// ---- puts

impl Entities {
    /// Puts these entities in the place of those of the same uids, as `upsert_entities` does with `ComputeNow`, but
    /// in the store itself: a refused call leaves what was held, with its ancestors.
    ///
    /// Refused `TransitiveClosureError` for a cycle of parents, and where memory runs out. It closes again the listed
    /// entities and those below them, without a look at others, but that the first edit in place of a store looks
    /// once at each entity for its parents. Where those touched aren't few, or the store isn't known to be closed, it
    /// edits a copy, and the next edit in place is a first one. One entity that keeps each parent of the one held is
    /// put at the cost of its ancestors and of those that it gains at each entity below it; where it gains none, no
    /// other entity is looked at.
    pub fn upsert_in_place(
        &mut self,
        alloc: Global,
        entities: Vec<Entity>,
    ) -> Result<(), EntitiesError>
        ensures put { Leaves (put (held_at self.old) entities.items) (left_by result self.new) }
        ensures left { OnErr result (IsLeft self.old self.new) }
        ensures partial { is_partial_store self.new ≡ is_partial_store self.old }
    {
        if !self.takes_few(entities.len()) {
            return self.upsert_copied(alloc, entities);
        }
        make_known(alloc, &self.entities, &mut self.children)?;
        if self.only_gains(&entities) {
            return self.put_gaining(alloc, entities);
        }
        match self.touched_by(alloc, &entities)? {
            Some(stale) => self.upsert_at(alloc, entities, &stale),
            None => self.upsert_copied(alloc, entities),
        }
    }

    // The same of one entity that keeps each parent of the one held.
    fn put_gaining(&mut self, alloc: Global, entities: Vec<Entity>) -> Result<(), EntitiesError>
        requires closed { IsClosed self.old }
        requires gains { GainsEdges (found_in self.old) entities.items }
        ensures put { Leaves (put (held_at self.old) entities.items) (left_by result self.new) }
        ensures left { OnErr result (IsLeft self.old self.new) }
        ensures partial { is_partial_store self.new ≡ is_partial_store self.old }
    {
        self.gain(alloc, entities)
    }

    // The same, where those that are stale then are known.
    fn upsert_at(
        &mut self,
        alloc: Global,
        entities: Vec<Entity>,
        stale: &[EntityUID],
    ) -> Result<(), EntitiesError>
        requires closed { IsClosed self.old }
        requires covers { CoversEntities (found_in self.old) entities.items stale.now }
        ensures put { Leaves (put (held_at self.old) entities.items) (left_by result self.new) }
        ensures left { OnErr result (IsLeft self.old self.new) }
        ensures partial { is_partial_store self.new ≡ is_partial_store self.old }
    {
        let edges = edges_of(alloc, &self.entities, &entities, stale)?;
        let edited = put_in_place(
            alloc,
            &mut self.entities,
            &mut self.children,
            entities,
            stale,
        );
        forget(&mut self.children, &self.entities, &edges);
        edited
    }

    // The same, on a copy that takes the store's place.
    fn upsert_copied(&mut self, alloc: Global, entities: Vec<Entity>) -> Result<(), EntitiesError>
        ensures put { Leaves (put (held_at self.old) entities.items) (left_by result self.new) }
        ensures left { OnErr result (IsLeft self.old self.new) }
        ensures partial { is_partial_store self.new ≡ is_partial_store self.old }
    {
        let copy = self.clone(alloc)?;
        *self = copy.upsert_entities(alloc, entities, TCComputation::ComputeNow)?;
        Ok(())
    }
}

// ---- additions

impl Entities {
    /// Adds these entities, as `add_entities` does with `ComputeNow`, but to the store itself: a refused call leaves
    /// what was held, with its ancestors.
    ///
    /// Refused as `add_entities` is, at the cost told at `upsert_in_place`.
    pub fn add_in_place(
        &mut self,
        alloc: Global,
        entities: Vec<Entity>,
    ) -> Result<(), EntitiesError>
        ensures edited { AddsAs ComputeNow (found_in self.old) entities.items (left_by result self.new) }
        ensures added { IsClosed self.old → ArePlain entities.items → Adds (held_at self.old) entities.items (left_by result self.new) }
        ensures left { OnErr result (IsLeft self.old self.new) }
        ensures partial { is_partial_store self.new ≡ is_partial_store self.old }
    {
        if !self.takes_few(entities.len()) {
            return self.add_copied(alloc, entities);
        }
        make_known(alloc, &self.entities, &mut self.children)?;
        if self.only_gains(&entities) && are_new(&self.entities, &entities) {
            return self.add_gaining(alloc, entities);
        }
        match self.touched_by(alloc, &entities)? {
            Some(stale) => self.add_at(alloc, entities, &stale),
            None => self.add_copied(alloc, entities),
        }
    }

    // The same of one entity, where none of its uid is held.
    fn add_gaining(&mut self, alloc: Global, entities: Vec<Entity>) -> Result<(), EntitiesError>
        requires closed { IsClosed self.old }
        requires gains { GainsEdges (found_in self.old) entities.items }
        requires new { IsTrue (list_all (is_new_in (found_in self.old)) entities.items) }
        ensures edited { AddsAs ComputeNow (found_in self.old) entities.items (left_by result self.new) }
        ensures added { ArePlain entities.items → Adds (held_at self.old) entities.items (left_by result self.new) }
        ensures left { OnErr result (IsLeft self.old self.new) }
        ensures partial { is_partial_store self.new ≡ is_partial_store self.old }
    {
        self.gain(alloc, entities)
    }

    // The same, where those that are stale then are known.
    fn add_at(
        &mut self,
        alloc: Global,
        entities: Vec<Entity>,
        stale: &[EntityUID],
    ) -> Result<(), EntitiesError>
        requires closed { IsClosed self.old }
        requires covers { CoversEntities (found_in self.old) entities.items stale.now }
        ensures edited { AddsAs ComputeNow (found_in self.old) entities.items (left_by result self.new) }
        ensures added { ArePlain entities.items → Adds (held_at self.old) entities.items (left_by result self.new) }
        ensures left { OnErr result (IsLeft self.old self.new) }
        ensures partial { is_partial_store self.new ≡ is_partial_store self.old }
    {
        let edges = edges_of(alloc, &self.entities, &entities, stale)?;
        let edited = add_in_place(
            alloc,
            &mut self.entities,
            &mut self.children,
            entities,
            stale,
        );
        forget(&mut self.children, &self.entities, &edges);
        edited
    }

    // The same, on a copy that takes the store's place.
    fn add_copied(&mut self, alloc: Global, entities: Vec<Entity>) -> Result<(), EntitiesError>
        ensures edited { AddsAs ComputeNow (found_in self.old) entities.items (left_by result self.new) }
        ensures added { IsClosed self.old → ArePlain entities.items → Adds (held_at self.old) entities.items (left_by result self.new) }
        ensures left { OnErr result (IsLeft self.old self.new) }
        ensures partial { is_partial_store self.new ≡ is_partial_store self.old }
    {
        let copy = self.clone(alloc)?;
        *self = copy.add_entities(alloc, entities, TCComputation::ComputeNow)?;
        Ok(())
    }
}

// ---- removals

impl Entities {
    /// Removes the entities of these uids with all parent edges from and to them, as `remove_entities` does with
    /// `ComputeNow`, but from the store itself: a refused call leaves what was held, with its ancestors.
    ///
    /// A closed store is refused for memory alone, and any other one for a cycle of parents too; at the cost told at
    /// `upsert_in_place`.
    pub fn remove_in_place(
        &mut self,
        alloc: Global,
        uids: &BTreeSet<EntityUID>,
    ) -> Result<(), EntitiesError>
        ensures removed { Leaves (remove (held_at self.old) (set.from_list {R = uid_cmp} uids.now.keys)) (left_by result self.new) }
        ensures only_memory { IsClosed self.old → IfErr result IsMemory }
        ensures left { OnErr result (IsLeft self.old self.new) }
        ensures partial { is_partial_store self.new ≡ is_partial_store self.old }
    {
        if !self.takes_few(uids.len()) {
            return self.remove_copied(alloc, uids);
        }
        make_known(alloc, &self.entities, &mut self.children)?;
        match self.touched_few(alloc, uids)? {
            Some(touched) => self.remove_at(alloc, uids, &touched),
            None => self.remove_copied(alloc, uids),
        }
    }

    // The same, where those that it touches are known.
    fn remove_at(
        &mut self,
        alloc: Global,
        uids: &BTreeSet<EntityUID>,
        touched: &[EntityUID],
    ) -> Result<(), EntitiesError>
        requires closed { IsClosed self.old }
        requires covers { Covers (found_in self.old) uids.now.keys touched.now }
        ensures removed { Leaves (remove (held_at self.old) (set.from_list {R = uid_cmp} uids.now.keys)) (left_by result self.new) }
        ensures only_memory { IfErr result IsMemory }
        ensures left { OnErr result (IsLeft self.old self.new) }
        ensures partial { is_partial_store self.new ≡ is_partial_store self.old }
    {
        let edges = edges_of(alloc, &self.entities, &[], touched)?;
        let edited = remove_in_place(alloc, &mut self.entities, touched, uids);
        forget(&mut self.children, &self.entities, &edges);
        edited
    }

    // The same, on a copy that takes the store's place.
    fn remove_copied(
        &mut self,
        alloc: Global,
        uids: &BTreeSet<EntityUID>,
    ) -> Result<(), EntitiesError>
        ensures removed { Leaves (remove (held_at self.old) (set.from_list {R = uid_cmp} uids.now.keys)) (left_by result self.new) }
        ensures only_memory { IsClosed self.old → IfErr result IsMemory }
        ensures left { OnErr result (IsLeft self.old self.new) }
        ensures partial { is_partial_store self.new ≡ is_partial_store self.old }
    {
        let copy = self.clone(alloc)?;
        *self = copy.remove_entities(alloc, uids, TCComputation::ComputeNow)?;
        Ok(())
    }
}
