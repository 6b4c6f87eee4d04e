//! Whether two stores hold the same.
ghost use Rattle.std.specs.Prelude.{◌↔◌, IsTrue};
ghost use Rattle.cedar_entities.specs.Kept.{in_map, IsSameAt, HoldsAllOf, HoldsUidsOf};

use crate::entity::Entity;
use cedar_literals::uids::EntityUID;
use std::collections::BTreeMap;

// Whether the maps have the same entity at a uid, or none.
fn is_same_at(
    entities: &BTreeMap<EntityUID, Entity>,
    others: &BTreeMap<EntityUID, Entity>,
    uid: &EntityUID,
) -> bool
    ensures { IsTrue result ↔ IsSameAt (in_map entities.now) (in_map others.now) uid.now }
{
    match (entities.get(uid), others.get(uid)) {
        (Some(entity), Some(other)) => entity.deep_eq(other),
        (None, None) => true,
        _ => false,
    }
}

/// Whether the second map has all entities of the first, the same.
pub(crate) fn agree_where_held(
    entities: &BTreeMap<EntityUID, Entity>,
    others: &BTreeMap<EntityUID, Entity>,
) -> bool
    ensures { IsTrue result ↔ HoldsAllOf (in_map entities.now) (in_map others.now) }
{
    for uid in entities.keys() {
        if !is_same_at(entities, others, uid) {
            return false;
        }
    }
    true
}

/// Whether the first map has an entity at each uid at which the second has one.
pub(crate) fn has_uids_of(
    entities: &BTreeMap<EntityUID, Entity>,
    others: &BTreeMap<EntityUID, Entity>,
) -> bool
    ensures { IsTrue result ↔ HoldsUidsOf (in_map entities.now) (in_map others.now) }
{
    for uid in others.keys() {
        if !entities.contains_key(uid) {
            return false;
        }
    }
    true
}
