//! Which entities are children of which, so that an edit finds what it touches without a look at all entities.
ghost use Rattle.std.specs.Prelude.{◌≡◌, OnOk, IfOk, IfSome, IsTrue};
ghost use Rattle.std.specs.Option.{IsSome};
ghost use Rattle.std.specs.FinSet as set;
ghost use Rattle.cedar_language.specs.Uid.{Uid};
ghost use Rattle.cedar_language.specs.Order.{uid_cmp};
ghost use Rattle.cedar_closure.specs.Sources.{has_source};
ghost use Rattle.cedar_entities.specs.Held.{parents_of, IsParent};
ghost use Rattle.cedar_entities.specs.Kept.{in_map, held_in, Lookup};
ghost use Rattle.cedar_entities.specs.Children.{KnowsParents, KnowsAll, KnowsChildren, KnowsIfAny, KeepsKnown};

use crate::entity::Entity;
use cedar_closure::Sources;
use cedar_literals::uids::EntityUID;
use std::alloc::{AllocError, Global};
use std::collections::BTreeMap;

/// An edge from an entity to one of its parents, both by their uids.
#[derive(Drop)]
pub(crate) struct ParentEdge {
    child: EntityUID,
    parent: EntityUID,
}

// ---- what is made known

// Makes an entity known as a child of each of its parents.
fn add_child(
    alloc: Global,
    index: &mut Sources<EntityUID>,
    uid: &EntityUID,
    entity: &Entity,
) -> Result<(), AllocError>
    ensures known { OnOk result ((b : Uid) → IsTrue (set.contains entity.now.parents b) → IsTrue (has_source uid_cmp index.new b uid.now)) }
    ensures kept { KeepsKnown index.old index.new }
{
    for parent in entity.parents() {
        index.add(alloc, parent, uid)?;
    }
    Ok(())
}

// The children of all entities of a map.
fn children_of(
    alloc: Global,
    map: &BTreeMap<EntityUID, Entity>,
) -> Result<Sources<EntityUID>, AllocError>
    ensures { IfOk result (KnowsChildren (in_map map.now)) }
{
    let mut index = Sources::new(alloc);
    for (uid, entity) in map.iter() {
        add_child(alloc, &mut index, uid, entity)?;
    }
    Ok(index)
}

/// Makes the children of a map's entities known, where they aren't; then it looks once at each entity. Refused for
/// memory alone.
pub(crate) fn make_known(
    alloc: Global,
    map: &BTreeMap<EntityUID, Entity>,
    children: &mut Option<Sources<EntityUID>>,
) -> Result<(), AllocError>
    requires { KnowsIfAny (in_map map.now) children.old }
    ensures known { OnOk result (IsSome children.new) }
    ensures children { KnowsIfAny (in_map map.now) children.new }
{
    if children.is_none() {
        *children = Some(children_of(alloc, map)?);
    }
    Ok(())
}

// Makes each of the entities known as a child of its parents.
fn add_children(
    alloc: Global,
    index: &mut Sources<EntityUID>,
    entities: &[Entity],
) -> Result<(), AllocError>
    ensures known { OnOk result (KnowsAll index.new entities.now) }
    ensures kept { KeepsKnown index.old index.new }
{
    for entity in entities {
        add_child(alloc, index, entity.uid(), entity)?;
    }
    Ok(())
}

/// Makes each of the entities known as a child of its parents, where children are known. Refused for memory alone;
/// what was known stays.
pub(crate) fn learn(
    alloc: Global,
    children: &mut Option<Sources<EntityUID>>,
    entities: &[Entity],
) -> Result<(), AllocError>
    ensures known { OnOk result (IfSome children.new (λ index. KnowsAll index entities.now)) }
    ensures kept { (found : Lookup) → KnowsIfAny found children.old → KnowsIfAny found children.new }
{
    match children {
        Some(index) => add_children(alloc, index, entities),
        None => Ok(()),
    }
}

// ---- what is forgotten

// Adds an entity's edges to its parents.
fn push_edges(
    alloc: Global,
    edges: &mut Vec<ParentEdge>,
    entity: &Entity,
) -> Result<(), AllocError> {
    for parent in entity.parents() {
        edges.push(ParentEdge {
            child: entity.uid().clone(alloc)?,
            parent: parent.clone(alloc)?,
        })?;
    }
    Ok(())
}

/// The edges from the entities, and from those that a map has at the uids, to their parents.
pub(crate) fn edges_of(
    alloc: Global,
    map: &BTreeMap<EntityUID, Entity>,
    entities: &[Entity],
    uids: &[EntityUID],
) -> Result<Vec<ParentEdge>, AllocError> {
    let mut edges = Vec::new(alloc);
    for entity in entities {
        push_edges(alloc, &mut edges, entity)?;
    }
    for uid in uids {
        if let Some(entity) = map.get(uid) {
            push_edges(alloc, &mut edges, entity)?;
        }
    }
    Ok(edges)
}

// Whether the map's entity of the one uid has the other as a parent.
fn is_child(map: &BTreeMap<EntityUID, Entity>, child: &EntityUID, parent: &EntityUID) -> bool
    ensures { result ≡ set.contains (parents_of (held_in (in_map map.now) child.now)) parent.now }
{
    match map.get(child) {
        Some(entity) => entity.is_child_of(parent),
        None => false,
    }
}

// Forgets a child, where it isn't one in the map.
fn forget_lost(
    index: &mut Sources<EntityUID>,
    map: &BTreeMap<EntityUID, Entity>,
    child: &EntityUID,
    parent: &EntityUID,
)
    ensures lost { IsTrue (has_source uid_cmp index.new parent.now child.now) → IsParent (held_in (in_map map.now)) child.now parent.now }
    ensures children { KnowsChildren (in_map map.now) index.old → KnowsChildren (in_map map.now) index.new }
{
    if !is_child(map, child, parent) {
        index.remove(parent, child);
    }
}

// Forgets the child of each edge, where it isn't one in the map.
fn forget_all_lost(
    index: &mut Sources<EntityUID>,
    map: &BTreeMap<EntityUID, Entity>,
    edges: &[ParentEdge],
)
    ensures { KnowsChildren (in_map map.now) index.old → KnowsChildren (in_map map.now) index.new }
{
    for edge in edges {
        forget_lost(index, map, &edge.child, &edge.parent);
    }
}

/// Forgets the child of each edge, where it isn't one in the map and children are known. Takes no memory.
pub(crate) fn forget(
    children: &mut Option<Sources<EntityUID>>,
    map: &BTreeMap<EntityUID, Entity>,
    edges: &[ParentEdge],
)
    ensures { KnowsIfAny (in_map map.now) children.old → KnowsIfAny (in_map map.now) children.new }
{
    if let Some(index) = children {
        forget_all_lost(index, map, edges);
    }
}
