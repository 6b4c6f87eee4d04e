// Edits of a whole store, which leave it as it was where they are refused.
ghost use Rattle.std.specs.Prelude.{◌≡◌, OnErr, List};
ghost use Rattle.std.specs.FinSet as set;
ghost use Rattle.cedar_language.specs.Order.{uid_cmp};
ghost use Rattle.cedar_language.specs.Uid.{Uid};
ghost use Rattle.cedar_world.specs.EntityEdits.{Version};
ghost use Rattle.cedar_world.specs.World as world;
ghost use Rattle.cedar_entities.specs.InPlace.{left_by};
ghost use Rattle.cedar_entities.specs.Store.{held_at};
ghost use Rattle.cedar_held.specs.Shown.{as_entities, Shows};
ghost use Rattle.cedar_held.specs.HoldingEntities.{IsWhole};
ghost use Rattle.cedar_held.specs.Refusals.{refusal_of};
ghost use Rattle.cedar_held.specs.Stores.{PutsVersions, AddsVersions, RemovesUids};

use crate::worlds::{adds_are_the_worlds, puts_are_the_worlds, removes_are_the_worlds};
use cedar_entities::entity::Entity;
use cedar_entities::errors::EntitiesError;
use cedar_entities::store::Entities;
use cedar_literals::uids::EntityUID;
use cedar_replies::Refusal;
use std::alloc::Global;
use std::collections::BTreeSet;

// What a refused edit of a store is refused as.
fn refusal(error: EntitiesError) -> Refusal
    ensures { result ≡ refusal_of error }
{
    match error {
        EntitiesError::Duplicate(_) => Refusal::Duplicate,
        EntitiesError::TransitiveClosureError(_) => Refusal::Cycle,
        EntitiesError::Memory(_) => Refusal::Memory,
    }
}

// Puts these versions into the store.
pub fn put_into(alloc: Global, store: &mut Entities, versions: Vec<Entity>) -> Result<(), Refusal>
    requires { IsWhole store.old }
    ensures edited { (old : world.Entities) (vs : List Version) → Shows (held_at store.old) old → versions.items ≡ as_entities vs → PutsVersions old vs (left_by result store.new) }
    ensures left { OnErr result ((uid : Uid) → held_at store.new uid ≡ held_at store.old uid) }
    ensures whole { IsWhole store.new }
{
    puts_are_the_worlds();
    match store.upsert_in_place(alloc, versions) {
        Ok(()) => Ok(()),
        Err(error) => Err(refusal(error)),
    }
}

// Adds these versions to the store.
pub fn add_to(alloc: Global, store: &mut Entities, versions: Vec<Entity>) -> Result<(), Refusal>
    requires { IsWhole store.old }
    ensures edited { (old : world.Entities) (vs : List Version) → Shows (held_at store.old) old → versions.items ≡ as_entities vs → AddsVersions old vs (left_by result store.new) }
    ensures left { OnErr result ((uid : Uid) → held_at store.new uid ≡ held_at store.old uid) }
    ensures whole { IsWhole store.new }
{
    adds_are_the_worlds();
    match store.add_in_place(alloc, versions) {
        Ok(()) => Ok(()),
        Err(error) => Err(refusal(error)),
    }
}

// Removes these uids from the store.
pub fn remove_from(
    alloc: Global,
    store: &mut Entities,
    uids: &BTreeSet<EntityUID>,
) -> Result<(), Refusal>
    requires { IsWhole store.old }
    ensures edited { (old : world.Entities) → Shows (held_at store.old) old → RemovesUids old (set.from_list {R = uid_cmp} uids.now.keys) (left_by result store.new) }
    ensures left { OnErr result ((uid : Uid) → held_at store.new uid ≡ held_at store.old uid) }
    ensures whole { IsWhole store.new }
{
    removes_are_the_worlds();
    match store.remove_in_place(alloc, uids) {
        Ok(()) => Ok(()),
        Err(error) => Err(refusal(error)),
    }
}
