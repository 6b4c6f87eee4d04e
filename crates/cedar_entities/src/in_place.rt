//! Edits of a map of entities in place, with their ancestors closed again. A refused one is taken back.
ghost use Rattle.std.specs.Prelude.{OnOk, OnErr, IfErr};
ghost use Rattle.std.specs.FinSet as set;
ghost use Rattle.cedar_language.specs.Order.{uid_cmp};
ghost use Rattle.cedar_entities.specs.Kept.{in_map, put_over, added_to, removed_from, AreVersions, KeepsAncestors, IsByUid, Covers};
ghost use Rattle.cedar_entities.specs.Modes.{IsComputed, IsClosureRefusal};
ghost use Rattle.cedar_entities.specs.Refusals.{IsMemory, IsAdditionRefusal};
ghost use Rattle.cedar_entities.specs.Children.{KnowsIfAny};
ghost use Rattle.cedar_entities.specs.Beside.{among, nowhere, IsSameBeside, CoversEntities, cut_from};
ghost use Rattle.cedar_entities.specs.declared.closing.TCComputation.TheVariants.{ComputeNow};

use crate::children::learn;
use crate::closing::TCComputation;
use crate::edits::{add_all, cut_all, drop_all, put_all};
use crate::entity::Entity;
use crate::errors::EntitiesError;
use crate::taking_back::{put_all_back, saved};
use cedar_closure::Sources;
use cedar_literals::uids::EntityUID;
use std::alloc::Global;
use std::collections::{BTreeMap, BTreeSet};

// Puts the entities into the map, and closes again the ancestors of those that are stale then.
fn put_and_close(
    alloc: Global,
    map: &mut BTreeMap<EntityUID, Entity>,
    entities: Vec<Entity>,
    stale: &[EntityUID],
) -> Result<(), EntitiesError>
    requires closed { KeepsAncestors (in_map map.old) }
    requires covers { CoversEntities (in_map map.old) entities.items stale.now }
    ensures edited { OnOk result (IsComputed (put_over (in_map map.old) entities.items) (in_map map.new)) }
    ensures refused { IfErr result (IsClosureRefusal ComputeNow (put_over (in_map map.old) entities.items)) }
    ensures beside { OnErr result (IsSameBeside (among stale.now) (in_map map.old) (in_map map.new)) }
    ensures by_uid { IsByUid (in_map map.old) → IsByUid (in_map map.new) }
{
    put_all(alloc, map, entities)?;
    TCComputation::compute_at(alloc, map, stale)
}

/// Puts the entities into a map whose ancestors are closed, and closes them again; those stale then are known. A
/// refused call leaves the map as it was. Either way the children of what the map holds are known, where they were.
pub(crate) fn put_in_place(
    alloc: Global,
    map: &mut BTreeMap<EntityUID, Entity>,
    children: &mut Option<Sources<EntityUID>>,
    entities: Vec<Entity>,
    stale: &[EntityUID],
) -> Result<(), EntitiesError>
    requires closed { KeepsAncestors (in_map map.old) }
    requires covers { CoversEntities (in_map map.old) entities.items stale.now }
    requires known { KnowsIfAny (in_map map.old) children.old }
    ensures edited { OnOk result (IsComputed (put_over (in_map map.old) entities.items) (in_map map.new)) }
    ensures refused { IfErr result (IsClosureRefusal ComputeNow (put_over (in_map map.old) entities.items)) }
    ensures left { OnErr result (IsSameBeside nowhere (in_map map.old) (in_map map.new)) }
    ensures by_uid { IsByUid (in_map map.old) → IsByUid (in_map map.new) }
    ensures known { KnowsIfAny (in_map map.new) children.new }
{
    let before = saved(alloc, map, stale)?;
    learn(alloc, children, &entities)?;
    match put_and_close(alloc, map, entities, stale) {
        Ok(()) => Ok(()),
        Err(error) => {
            put_all_back(map, before);
            Err(error)
        }
    }
}

// Adds the entities to the map, and closes again the ancestors of those that are stale then.
fn add_and_close(
    alloc: Global,
    map: &mut BTreeMap<EntityUID, Entity>,
    entities: Vec<Entity>,
    stale: &[EntityUID],
) -> Result<(), EntitiesError>
    requires closed { KeepsAncestors (in_map map.old) }
    requires covers { CoversEntities (in_map map.old) entities.items stale.now }
    ensures edited { OnOk result (IsComputed (added_to (in_map map.old) entities.items) (in_map map.new)) }
    ensures versions { OnOk result (AreVersions (added_to (in_map map.old) entities.items) entities.items) }
    ensures refused { IfErr result (IsAdditionRefusal (in_map map.old) entities.items) }
    ensures beside { OnErr result (IsSameBeside (among stale.now) (in_map map.old) (in_map map.new)) }
    ensures by_uid { IsByUid (in_map map.old) → IsByUid (in_map map.new) }
{
    add_all(alloc, map, entities)?;
    TCComputation::compute_at(alloc, map, stale)
}

/// Adds the entities to a map whose ancestors are closed, and closes them again; those stale then are known. A
/// refused call leaves the map as it was. Either way the children of what the map holds are known, where they were.
pub(crate) fn add_in_place(
    alloc: Global,
    map: &mut BTreeMap<EntityUID, Entity>,
    children: &mut Option<Sources<EntityUID>>,
    entities: Vec<Entity>,
    stale: &[EntityUID],
) -> Result<(), EntitiesError>
    requires closed { KeepsAncestors (in_map map.old) }
    requires covers { CoversEntities (in_map map.old) entities.items stale.now }
    requires known { KnowsIfAny (in_map map.old) children.old }
    ensures edited { OnOk result (IsComputed (added_to (in_map map.old) entities.items) (in_map map.new)) }
    ensures versions { OnOk result (AreVersions (added_to (in_map map.old) entities.items) entities.items) }
    ensures refused { IfErr result (IsAdditionRefusal (in_map map.old) entities.items) }
    ensures left { OnErr result (IsSameBeside nowhere (in_map map.old) (in_map map.new)) }
    ensures by_uid { IsByUid (in_map map.old) → IsByUid (in_map map.new) }
    ensures known { KnowsIfAny (in_map map.new) children.new }
{
    let before = saved(alloc, map, stale)?;
    learn(alloc, children, &entities)?;
    match add_and_close(alloc, map, entities, stale) {
        Ok(()) => Ok(()),
        Err(error) => {
            put_all_back(map, before);
            Err(error)
        }
    }
}

// Takes the uids from the ancestors of the entities touched, and closes these again. Without edges no cycle comes.
fn cut_and_close(
    alloc: Global,
    map: &mut BTreeMap<EntityUID, Entity>,
    touched: &[EntityUID],
    uids: &BTreeSet<EntityUID>,
) -> Result<(), EntitiesError>
    requires closed { KeepsAncestors (in_map map.old) }
    requires covers { Covers (in_map map.old) uids.now.keys touched.now }
    ensures edited { OnOk result (IsComputed (cut_from (in_map map.old) (set.from_list {R = uid_cmp} uids.now.keys)) (in_map map.new)) }
    ensures refused { IfErr result IsMemory }
    ensures beside { OnErr result (IsSameBeside (among touched.now) (in_map map.old) (in_map map.new)) }
    ensures by_uid { IsByUid (in_map map.old) → IsByUid (in_map map.new) }
{
    cut_all(map, touched, uids);
    TCComputation::compute_at(alloc, map, touched)
}

/// Takes the entities of these uids, and all edges from and to them, from a map whose ancestors are closed, and closes
/// them again; those touched are known. Refused for memory alone; the map is then as it was.
pub(crate) fn remove_in_place(
    alloc: Global,
    map: &mut BTreeMap<EntityUID, Entity>,
    touched: &[EntityUID],
    uids: &BTreeSet<EntityUID>,
) -> Result<(), EntitiesError>
    requires closed { KeepsAncestors (in_map map.old) }
    requires covers { Covers (in_map map.old) uids.now.keys touched.now }
    ensures edited { OnOk result (IsComputed (removed_from (in_map map.old) (set.from_list {R = uid_cmp} uids.now.keys)) (in_map map.new)) }
    ensures refused { IfErr result IsMemory }
    ensures left { OnErr result (IsSameBeside nowhere (in_map map.old) (in_map map.new)) }
    ensures by_uid { IsByUid (in_map map.old) → IsByUid (in_map map.new) }
{
    let before = saved(alloc, map, touched)?;
    match cut_and_close(alloc, map, touched, uids) {
        Ok(()) => {
            drop_all(map, uids);
            Ok(())
        }
        Err(error) => {
            put_all_back(map, before);
            Err(error)
        }
    }
}
