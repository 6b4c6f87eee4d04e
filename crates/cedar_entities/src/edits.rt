//! Edits of a map of entities.
ghost use Rattle.std.specs.Prelude.{◌≡◌, OnOk, IfOk, IfErr, Some, None, cond};
ghost use Rattle.std.specs.Option.{option_map, IsSomeAnd};
ghost use Rattle.std.specs.FinSet as set;
ghost use Rattle.std.specs.List.{list_any};
ghost use Rattle.cedar_language.specs.Uid.{Uid};
ghost use Rattle.cedar_language.specs.Order.{same_uid, uid_cmp};
ghost use Rattle.cedar_entities.specs.Data.{IsSameEntity, without};
ghost use Rattle.cedar_entities.specs.Edits.{or_first};
ghost use Rattle.cedar_entities.specs.Kept.{in_map, put_over, added_to, removed_from, AreVersions, Covers};
ghost use Rattle.cedar_entities.specs.Beside.{IsSameBeside, among, among_entities};
ghost use Rattle.cedar_entities.specs.Refusals.{IsAddRefusal, IsOneRefusal};

use crate::entity::Entity;
use crate::errors::{Duplicate, EntitiesError};
use cedar_literals::uids::EntityUID;
use std::alloc::{AllocError, Global};
use std::collections::{BTreeMap, BTreeSet};

/// Puts the entities into the map in turn: the last version of a uid stays.
pub(crate) fn put_all(
    alloc: Global,
    map: &mut BTreeMap<EntityUID, Entity>,
    entities: Vec<Entity>,
) -> Result<(), AllocError>
    ensures put { OnOk result ((uid : Uid) → in_map map.new uid ≡ put_over (in_map map.old) entities.items uid) }
    ensures beside { IsSameBeside (among_entities entities.items) (in_map map.old) (in_map map.new) }
{
    for entity in entities {
        let key = entity.uid().clone(alloc)?;
        map.insert(key, entity)?;
    }
    Ok(())
}

// Adds an entity, where none of its uid is there; one that is there has to be the same.
fn add_one(
    alloc: Global,
    map: &mut BTreeMap<EntityUID, Entity>,
    entity: Entity,
) -> Result<(), EntitiesError>
    ensures added { OnOk result ((uid : Uid) → in_map map.new uid ≡ or_first (in_map map.old uid) (cond (same_uid entity.uid uid) (Some entity) None)) }
    ensures same { OnOk result (IsSomeAnd (or_first (in_map map.old entity.uid) (Some entity)) (λ kept. IsSameEntity kept entity)) }
    ensures beside { IsSameBeside (λ q. same_uid q entity.uid) (in_map map.old) (in_map map.new) }
    ensures refused { IfErr result (IsOneRefusal entity.uid (¬ (IsSomeAnd (or_first (in_map map.old entity.uid) (Some entity)) (λ kept. IsSameEntity kept entity)))) }
{
    match map.get(entity.uid()) {
        Some(kept) => {
            if kept.deep_eq(&entity) {
                Ok(())
            } else {
                Err(EntitiesError::Duplicate(Duplicate {
                    euid: entity.uid().clone(alloc)?,
                }))
            }
        }
        None => {
            let uid = entity.uid().clone(alloc)?;
            map.insert(uid, entity)?;
            Ok(())
        }
    }
}

/// Adds the entities in turn: what is there stays, and each further version has to be the same.
pub(crate) fn add_all(
    alloc: Global,
    map: &mut BTreeMap<EntityUID, Entity>,
    entities: Vec<Entity>,
) -> Result<(), EntitiesError>
    ensures added { OnOk result ((uid : Uid) → in_map map.new uid ≡ added_to (in_map map.old) entities.items uid) }
    ensures versions { OnOk result (AreVersions (added_to (in_map map.old) entities.items) entities.items) }
    ensures beside { IsSameBeside (among_entities entities.items) (in_map map.old) (in_map map.new) }
    ensures refused { IfErr result (IsAddRefusal (in_map map.old) entities.items) }
{
    for entity in entities {
        add_one(alloc, map, entity)?;
    }
    Ok(())
}

/// The uids of the entities.
pub(crate) fn uids_of(alloc: Global, entities: &[Entity]) -> Result<BTreeSet<EntityUID>, AllocError>
    ensures { IfOk result (λ uids. (q : Uid) → list_any (same_uid q) uids.keys ≡ list_any (λ e. same_uid q e.uid) entities.now) }
{
    let mut uids = BTreeSet::new(alloc);
    for entity in entities {
        uids.insert(entity.uid().clone(alloc)?)?;
    }
    Ok(uids)
}

/// Takes the entities of these uids away.
pub(crate) fn drop_all(map: &mut BTreeMap<EntityUID, Entity>, uids: &BTreeSet<EntityUID>)
    ensures { (uid : Uid) → in_map map.new uid ≡ cond (set.contains (set.from_list {R = uid_cmp} uids.now.keys) uid) None (in_map map.old uid) }
{
    for uid in uids {
        map.remove(uid);
    }
}

// Takes the uids away from the ancestors of the entity at one uid.
fn cut_one(map: &mut BTreeMap<EntityUID, Entity>, at: &EntityUID, uids: &BTreeSet<EntityUID>)
    ensures beside { IsSameBeside (λ q. same_uid q at.now) (in_map map.old) (in_map map.new) }
    ensures cut { (uid : Uid) → in_map map.new uid
        ≡ cond (same_uid at.now uid) (option_map (without (set.from_list {R = uid_cmp} uids.now.keys)) (in_map map.old uid)) (in_map map.old uid) }
{
    match map.get_mut(at) {
        Some(entity) => entity.remove_ancestors(uids),
        None => {}
    }
}

/// Takes the uids away from the ancestors of each entity, none of the others having one of them.
pub(crate) fn cut_all(
    map: &mut BTreeMap<EntityUID, Entity>,
    touched: &[EntityUID],
    uids: &BTreeSet<EntityUID>,
)
    requires { Covers (in_map map.old) uids.now.keys touched.now }
    ensures beside { IsSameBeside (among touched.now) (in_map map.old) (in_map map.new) }
    ensures cut { (uid : Uid) → in_map map.new uid ≡ option_map (without (set.from_list {R = uid_cmp} uids.now.keys)) (in_map map.old uid) }
{
    for at in touched {
        cut_one(map, at, uids);
    }
}

/// Takes the entities of these uids away, and the uids from the ancestors of those that stay: of those touched, none
/// of the others having one of them.
pub(crate) fn remove_all(
    map: &mut BTreeMap<EntityUID, Entity>,
    touched: &[EntityUID],
    uids: &BTreeSet<EntityUID>,
)
    requires { Covers (in_map map.old) uids.now.keys touched.now }
    ensures { (uid : Uid) → in_map map.new uid ≡ removed_from (in_map map.old) (set.from_list {R = uid_cmp} uids.now.keys) uid }
{
    cut_all(map, touched, uids);
    drop_all(map, uids);
}
