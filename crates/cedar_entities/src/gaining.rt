//! An edit of one entity that only adds edges to parents. What reached it then reaches what its new parents reach,
//! and nothing else changes, so that no entity is closed again along its edges.
ghost use Rattle.std.specs.Prelude.{◌≡◌, ◌↔◌, ◌||◌, ◌&&◌, not, [], ◌∷◌, cond, IsTrue, IfOk, IfErr, OnOk, OnErr};
ghost use Rattle.std.specs.Option.{option_map, is_some};
ghost use Rattle.std.specs.FinSet as set;
ghost use Rattle.std.specs.List.{list_all, list_any};
ghost use Rattle.cedar_language.specs.Order.{same_uid};
ghost use Rattle.cedar_language.specs.Uid.{Uid};
ghost use Rattle.cedar_entities.specs.Beside.{among, nowhere, IsSameBeside};
ghost use Rattle.cedar_entities.specs.Children.{KnowsIfAny};
ghost use Rattle.cedar_entities.specs.Data.{EntityData};
ghost use Rattle.cedar_entities.specs.Gaining.{put_one, KeepsParents, GainsEdges, is_new_in, IsThrough, IsGain, ListsBelow, Gains, HasGained, losing};
ghost use Rattle.cedar_entities.specs.Kept.{in_map, kept_at, put_over, IsByUid, KeepsAncestors, Lookup};
ghost use Rattle.cedar_entities.specs.Modes.{IsComputed, IsClosureRefusal};
ghost use Rattle.cedar_entities.specs.declared.closing.TCComputation.TheVariants.{ComputeNow};

use crate::children::learn;
use crate::entity::Entity;
use crate::errors::EntitiesError;
use crate::uid_lists::EntityUIDs;
use cedar_closure::{HasCycle, Sources, TCGraph, TcError};
use cedar_literals::uids::EntityUID;
use std::alloc::{AllocError, Global};
use std::collections::BTreeMap;

/// The ancestors of an entity once it is put, and those of them that what is held at its uid lacks.
#[derive(Drop)]
pub(crate) struct Gain {
    above: EntityUIDs,
    more: EntityUIDs,
}

// ---- what is gained

// Whether the entity keeps each parent of the one held.
fn keeps_parents(map: &BTreeMap<EntityUID, Entity>, entity: &Entity) -> bool
    ensures { IsTrue result → KeepsParents (in_map map.now) entity.now }
{
    match map.get(entity.uid()) {
        Some(held) => held.shares_parents(entity),
        None => true,
    }
}

/// Whether it is one entity, and keeps each parent of the one held.
pub(crate) fn gains_edges(map: &BTreeMap<EntityUID, Entity>, entities: &[Entity]) -> bool
    ensures { IsTrue result → GainsEdges (in_map map.now) entities.now }
{
    if entities.len() != 1 {
        return false;
    }
    keeps_parents(map, &entities[0])
}

// Whether nothing is held at the entity's uid.
fn is_new(map: &BTreeMap<EntityUID, Entity>, entity: &Entity) -> bool
    ensures { result ≡ not (is_some (in_map map.now entity.now.uid)) }
{
    !map.contains_key(entity.uid())
}

/// Whether nothing is held at the uids of the entities.
pub(crate) fn are_new(map: &BTreeMap<EntityUID, Entity>, entities: &[Entity]) -> bool
    ensures { result ≡ list_all (is_new_in (in_map map.now)) entities.now }
{
    entities.iter().all(|entity| is_new(map, entity))
}

// Adds copies of the ancestors kept of what is held at a uid.
fn push_kept(
    alloc: Global,
    uids: &mut Vec<EntityUID>,
    map: &BTreeMap<EntityUID, Entity>,
    at: &EntityUID,
) -> Result<(), AllocError>
    ensures { OnOk result ((q : Uid) → list_any (same_uid q) uids.new.items
        ≡ (list_any (same_uid q) uids.old.items || set.contains (kept_at (in_map map.now) at.now) q)) }
{
    let Some(entity) = map.get(at) else {
        return Ok(());
    };
    for uid in entity.ancestors() {
        uids.push(uid.clone(alloc)?)?;
    }
    Ok(())
}

// The parents of the entity, and the ancestors kept of these.
fn reached_by(
    alloc: Global,
    map: &BTreeMap<EntityUID, Entity>,
    entity: &Entity,
) -> Result<EntityUIDs, AllocError>
    ensures { IfOk result (IsThrough (in_map map.now) entity.now.parents) }
{
    let mut uids = Vec::new(alloc);
    for parent in entity.parents() {
        uids.push(parent.clone(alloc)?)?;
        push_kept(alloc, &mut uids, map, parent)?;
    }
    EntityUIDs::from_vec(alloc, uids)
}

// Those of the uids that aren't ancestors of what is held at a uid.
fn lacking_at(
    alloc: Global,
    map: &BTreeMap<EntityUID, Entity>,
    at: &EntityUID,
    uids: &EntityUIDs,
) -> Result<EntityUIDs, AllocError>
    ensures { IfOk result (λ others. (q : Uid) → set.contains others q ≡ (set.contains uids.now q && not (set.contains (kept_at (in_map map.now) at.now) q))) }
{
    match map.get(at) {
        Some(entity) => entity.lacking(uids),
        None => uids.clone(alloc),
    }
}

// What an entity gains, which keeps each parent of the one held. Refused where it would be an ancestor of itself, and
// where memory runs out.
fn gain_of(
    alloc: Global,
    map: &BTreeMap<EntityUID, Entity>,
    entity: &Entity,
) -> Result<Gain, EntitiesError>
    requires closed { KeepsAncestors (in_map map.now) }
    requires keeps { KeepsParents (in_map map.now) entity.now }
    ensures gain { IfOk result (IsGain (in_map map.now) entity.now) }
    ensures refused { IfErr result (IsClosureRefusal ComputeNow (put_one (in_map map.now) entity.now)) }
{
    let above = reached_by(alloc, map, entity)?;
    let at = entity.uid();
    if above.contains(at) {
        let vertex_with_loop = at.clone(alloc)?;
        let cycle = TcError::HasCycle(HasCycle { vertex_with_loop });
        return Err(EntitiesError::TransitiveClosureError(cycle));
    }
    let more = lacking_at(alloc, map, at, &above)?;
    Ok(Gain { above, more })
}

/// The same of the one entity of a list.
pub(crate) fn gained_by(
    alloc: Global,
    map: &BTreeMap<EntityUID, Entity>,
    entities: &[Entity],
) -> Result<Gain, EntitiesError>
    requires closed { KeepsAncestors (in_map map.now) }
    requires gains { GainsEdges (in_map map.now) entities.now }
    ensures gain { IfOk result (λ gain. (e : EntityData) → entities.now ≡ e ∷ [] → IsGain (in_map map.now) e gain) }
    ensures refused { IfErr result (IsClosureRefusal ComputeNow (put_over (in_map map.now) entities.now)) }
{
    gain_of(alloc, map, &entities[0])
}

impl Gain {
    /// Whether the one held has all these ancestors.
    pub(crate) fn is_nothing(&self) -> bool
        ensures { IsTrue result ↔ (self.now.more ≡ set.empty) }
    {
        self.more.is_empty()
    }
}

// ---- what is added below it

// Those of the uids that what is held at a uid lacks, where it has the one as an ancestor.
fn lacking_below(
    alloc: Global,
    map: &BTreeMap<EntityUID, Entity>,
    at: &EntityUID,
    from: &EntityUID,
    more: &EntityUIDs,
) -> Result<EntityUIDs, AllocError>
    ensures { IfOk result (λ us. (q : Uid) → set.contains us q
        ≡ (set.contains (kept_at (in_map map.now) at.now) from.now && (set.contains more.now q && not (set.contains (kept_at (in_map map.now) at.now) q)))) }
{
    let none = EntityUIDs::new(alloc);
    let Some(entity) = map.get(at) else {
        return Ok(none);
    };
    if entity.is_descendant_of(from) {
        return entity.lacking(more);
    }
    Ok(none)
}

// Adds to the ancestors kept at a uid those that it lacks, where it has the one. They are told first.
fn gain_at(
    alloc: Global,
    map: &mut BTreeMap<EntityUID, Entity>,
    at: &EntityUID,
    from: &EntityUID,
    more: &EntityUIDs,
    added: &mut Vec<(EntityUID, EntityUIDs)>,
) -> Result<(), AllocError>
    ensures gains { OnOk result (Gains (in_map map.old) (in_map map.new) from.now more.now (same_uid at.now)) }
    ensures gained { (before : Lookup) → HasGained before (in_map map.old) added.old.items → HasGained before (in_map map.new) added.new.items }
{
    let lacking = lacking_below(alloc, map, at, from, more)?;
    let told = lacking.clone(alloc)?;
    let key = at.clone(alloc)?;
    added.push((key, told))?;
    map.add_edges_at(at, lacking.into_vec())
}

// The same at each of the uids.
fn gain_each(
    alloc: Global,
    map: &mut BTreeMap<EntityUID, Entity>,
    below: &[EntityUID],
    from: &EntityUID,
    more: &EntityUIDs,
    added: &mut Vec<(EntityUID, EntityUIDs)>,
) -> Result<(), AllocError>
    ensures gains { OnOk result (Gains (in_map map.old) (in_map map.new) from.now more.now (among below.now)) }
    ensures gained { (before : Lookup) → HasGained before (in_map map.old) added.old.items → HasGained before (in_map map.new) added.new.items }
{
    for at in below {
        gain_at(alloc, map, at, from, more, added)?;
    }
    Ok(())
}

// Puts the entity with its ancestors, and adds what it gains to those below it. What is added there is told.
fn gain_all(
    alloc: Global,
    map: &mut BTreeMap<EntityUID, Entity>,
    entity: Entity,
    gain: Gain,
    below: &[EntityUID],
    added: &mut Vec<(EntityUID, EntityUIDs)>,
) -> Result<(), AllocError>
    requires closed { KeepsAncestors (in_map map.old) }
    requires gain { IsGain (in_map map.old) entity gain }
    requires below { ListsBelow (in_map map.old) entity.uid gain.more below.now }
    requires none { added.old.items ≡ [] }
    ensures edited { OnOk result (IsComputed (put_one (in_map map.old) entity) (in_map map.new)) }
    ensures gained { OnErr result (HasGained (in_map map.old) (in_map map.new) added.new.items) }
    ensures by_uid { IsByUid (in_map map.old) → IsByUid (in_map map.new) }
{
    let Gain { above, more } = gain;
    let uid = entity.uid().clone(alloc)?;
    gain_each(alloc, map, below, &uid, &more, added)?;
    let mut entity = entity;
    entity.set_ancestors(above);
    map.insert(uid, entity)?;
    Ok(())
}

// ---- what is taken back

// Takes the uids from the ancestors kept beside the parents at a uid.
fn take_at(map: &mut BTreeMap<EntityUID, Entity>, at: &EntityUID, gone: &EntityUIDs)
    ensures { (q : Uid) → in_map map.new q ≡ cond (same_uid at.now q) (option_map (losing gone.now) (in_map map.old q)) (in_map map.old q) }
{
    match map.get_mut(at) {
        Some(entity) => entity.remove_indirect_ancestors(gone),
        None => {}
    }
}

// Takes back what was added. Takes no memory.
fn take_back(map: &mut BTreeMap<EntityUID, Entity>, added: Vec<(EntityUID, EntityUIDs)>)
    ensures { (before : Lookup) → HasGained before (in_map map.old) added.items → IsSameBeside nowhere before (in_map map.new) }
{
    for (at, gone) in added {
        take_at(map, &at, &gone);
    }
}

/// Puts an entity that keeps each parent of the one held into a map whose ancestors are closed, and closes them again:
/// those below it are listed, where it gains ancestors. A refused call leaves the map as it was. Either way the
/// children of what the map holds are known, where they were.
pub(crate) fn gain_in_place(
    alloc: Global,
    map: &mut BTreeMap<EntityUID, Entity>,
    children: &mut Option<Sources<EntityUID>>,
    entities: Vec<Entity>,
    gain: Gain,
    below: &[EntityUID],
) -> Result<(), EntitiesError>
    requires closed { KeepsAncestors (in_map map.old) }
    requires gains { GainsEdges (in_map map.old) entities.items }
    requires gain { (e : EntityData) → entities.items ≡ e ∷ [] → IsGain (in_map map.old) e gain }
    requires below { (e : EntityData) → entities.items ≡ e ∷ [] → ListsBelow (in_map map.old) e.uid gain.more below.now }
    requires known { KnowsIfAny (in_map map.old) children.old }
    ensures edited { OnOk result (IsComputed (put_over (in_map map.old) entities.items) (in_map map.new)) }
    ensures refused { IfErr result (IsClosureRefusal ComputeNow (put_over (in_map map.old) entities.items)) }
    ensures left { OnErr result (IsSameBeside nowhere (in_map map.old) (in_map map.new)) }
    ensures by_uid { IsByUid (in_map map.old) → IsByUid (in_map map.new) }
    ensures known { KnowsIfAny (in_map map.new) children.new }
{
    learn(alloc, children, &entities)?;
    let mut entities = entities;
    let entity = entities.remove(0);
    let mut added = Vec::new(alloc);
    match gain_all(alloc, map, entity, gain, below, &mut added) {
        Ok(()) => Ok(()),
        Err(error) => {
            take_back(map, added);
            Err(EntitiesError::Memory(error))
        }
    }
}
