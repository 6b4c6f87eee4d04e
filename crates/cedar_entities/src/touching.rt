//! Which entities an edit touches: those edited, and those that have one of these among their ancestors.
ghost use Rattle.std.specs.Prelude.{◌≡◌, IfOk, IfSome, IsTrue};
ghost use Rattle.std.specs.List.{list_any};
ghost use Rattle.cedar_language.specs.Uid.{Uid};
ghost use Rattle.cedar_language.specs.Order.{same_uid};
ghost use Rattle.cedar_entities.specs.Children.{KnowsChildren};
ghost use Rattle.cedar_entities.specs.Kept.{in_map, KeepsAncestors, Covers};

use crate::entity::Entity;
use cedar_closure::Sources;
use cedar_literals::uids::EntityUID;
use std::alloc::{AllocError, Global};
use std::collections::{BTreeMap, BTreeSet};

// The uids of a set as a list.
fn listed(alloc: Global, uids: &BTreeSet<EntityUID>) -> Result<Vec<EntityUID>, AllocError>
    ensures { IfOk result (λ list. (q : Uid) → list_any (same_uid q) list.items ≡ list_any (same_uid q) uids.now.keys) }
{
    let mut list = Vec::new(alloc);
    for uid in uids {
        list.push(uid.clone(alloc)?)?;
    }
    Ok(list)
}

/// The uids of the entities that an edit of these uids touches, the edited ones among them. It looks at each entity
/// once, and then as `meets` says for each of its two lists.
pub(crate) fn touched(
    alloc: Global,
    map: &BTreeMap<EntityUID, Entity>,
    edited: &BTreeSet<EntityUID>,
) -> Result<Vec<EntityUID>, AllocError>
    ensures { IfOk result (λ uids. Covers (in_map map.now) edited.now.keys uids.items) }
{
    let mut uids = listed(alloc, edited)?;
    for (uid, entity) in map.iter() {
        if entity.is_descendant_of_one(edited) {
            uids.push(uid.clone(alloc)?)?;
        }
    }
    Ok(uids)
}

/// The same, where they are few: the edited and those below them, found by the children that are known, without a look
/// at others.
pub(crate) fn touched_below(
    alloc: Global,
    map: &BTreeMap<EntityUID, Entity>,
    index: &Sources<EntityUID>,
    edited: &BTreeSet<EntityUID>,
) -> Result<Option<Vec<EntityUID>>, AllocError>
    requires closed { KeepsAncestors (in_map map.now) }
    requires children { KnowsChildren (in_map map.now) index.now }
    ensures { IfOk result (λ few. IfSome few (λ uids. Covers (in_map map.now) edited.now.keys uids.items)) }
{
    let edited = listed(alloc, edited)?;
    index.that_lead_to(alloc, &edited, most_of_few(map.len()))
}

/// The few, or else those that an edit of the uids touches, found by a look at all.
pub(crate) fn few_or_touched(
    alloc: Global,
    map: &BTreeMap<EntityUID, Entity>,
    few: Option<Vec<EntityUID>>,
    edited: &BTreeSet<EntityUID>,
) -> Result<Vec<EntityUID>, AllocError>
    requires { IfSome few (λ uids. Covers (in_map map.now) edited.now.keys uids.items) }
    ensures { IfOk result (λ uids. Covers (in_map map.now) edited.now.keys uids.items) }
{
    match few {
        Some(uids) => Ok(uids),
        None => touched(alloc, map, edited),
    }
}

// One in so many is few at most: where more are touched, a look at all costs less than to find and close those alone.
const FEW: usize = 3;

// How many of so many entities are few at most.
fn most_of_few(entities: usize) -> usize {
    (entities / FEW).max(8)
}

/// Whether an edit that touches so many entities is one of few among these: then their ancestors alone are closed
/// again.
pub(crate) fn are_few(touched: usize, entities: usize) -> bool {
    touched <= most_of_few(entities)
}

/// The uids, where the ancestors kept of all others are whole and the uids are few.
pub(crate) fn few(is_closed: bool, uids: Vec<EntityUID>, entities: usize) -> Option<Vec<EntityUID>>
    ensures { IfSome result (λ some. IsTrue is_closed × (some.items ≡ uids.items)) }
{
    if is_closed && are_few(uids.len(), entities) {
        Some(uids)
    } else {
        None
    }
}
