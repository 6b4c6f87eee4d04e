//! What stood at some uids before an edit, to be put back where the edit is refused.
ghost use Rattle.std.specs.Prelude.{◌≡◌, IfOk};
ghost use Rattle.std.specs.Prelude.{cond};
ghost use Rattle.std.specs.Option.{IsSome};
ghost use Rattle.cedar_language.specs.Uid.{Uid};
ghost use Rattle.cedar_language.specs.Order.{same_uid};
ghost use Rattle.cedar_entities.specs.Kept.{in_map, Lookup};
ghost use Rattle.cedar_entities.specs.Beside.{among, nowhere, IsSameBeside, AreSaved, among_saved};

use crate::entity::Entity;
use cedar_literals::uids::EntityUID;
use std::alloc::{AllocError, Global};
use std::collections::BTreeMap;

// A copy of what stands at a uid.
fn copy_at(
    alloc: Global,
    map: &BTreeMap<EntityUID, Entity>,
    uid: &EntityUID,
) -> Result<Option<Entity>, AllocError>
    ensures { IfOk result (λ entity. entity ≡ in_map map.now uid.now) }
{
    match map.get(uid) {
        Some(entity) => Ok(Some(entity.clone(alloc)?)),
        None => Ok(None),
    }
}

/// Copies of what stands at these uids, which share attributes and tags.
pub(crate) fn saved(
    alloc: Global,
    map: &BTreeMap<EntityUID, Entity>,
    uids: &[EntityUID],
) -> Result<Vec<(EntityUID, Option<Entity>)>, AllocError>
    ensures stood { IfOk result (λ all. AreSaved (in_map map.now) all.items) }
    ensures listed { IfOk result (λ all. (q : Uid) → among_saved all.items q ≡ among uids.now q) }
{
    let mut all = Vec::new(alloc);
    for uid in uids {
        let entity = copy_at(alloc, map, uid)?;
        all.push((uid.clone(alloc)?, entity))?;
    }
    Ok(all)
}

// Puts back what stood at a uid.
fn put_back(map: &mut BTreeMap<EntityUID, Entity>, uid: EntityUID, entity: Option<Entity>)
    ensures { (IsSome entity → IsSome (in_map map.old uid)) → (q : Uid) → in_map map.new q ≡ cond (same_uid uid q) entity (in_map map.old q) }
{
    match entity {
        Some(entity) => {
            if let Some(held) = map.get_mut(&uid) {
                *held = entity;
            }
        }
        None => {
            map.remove(&uid);
        }
    }
}

/// Puts back what was saved, where at all other uids the same is held as before. Takes no memory.
pub(crate) fn put_all_back(
    map: &mut BTreeMap<EntityUID, Entity>,
    all: Vec<(EntityUID, Option<Entity>)>,
)
    ensures { (before : Lookup) → AreSaved before all.items → IsSameBeside (among_saved all.items) before (in_map map.old) → IsSameBeside nowhere before (in_map map.new) }
{
    for (uid, entity) in all {
        put_back(map, uid, entity);
    }
}
