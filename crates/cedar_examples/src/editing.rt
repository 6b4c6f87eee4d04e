//! A store of entities that is edited: entities are added, put in the place of others and removed, and in
//! between the ancestors that an entity then has are printed.

use anyhow::Result;
use cedar_store::ast::{Entity, EntityUID};
use cedar_store::entities::{Entities, EntitiesError, TCComputation};
use std::alloc::Global;
use std::collections::BTreeSet;
use std::io;

/// Makes a store, edits it, and prints after each edit in which teams alice is.
pub(crate) fn show(rt: &impl Print, alloc: Global) -> Result<()> {
    println!(rt; "editing")?;
    let store = made(alloc)?;
    print_teams(rt, alloc, "made: alice in web, web in engineering", &store)?;
    let store = added(alloc, store)?;
    print_teams(rt, alloc, "added: engineering in company", &store)?;
    add_another_version(rt, alloc, &store)?;
    put_a_cycle(rt, alloc, &store)?;
    let store = put(alloc, store)?;
    print_teams(rt, alloc, "put: web in design", &store)?;
    let store = removed(alloc, store)?;
    print_teams(rt, alloc, "removed: web", &store)
}

fn team(alloc: Global, name: &str) -> Result<EntityUID> {
    Ok(EntityUID::with_eid_and_type(alloc, "Team", name)?)
}

/// An entity that has a team as its parent.
fn in_team(alloc: Global, uid: EntityUID, parent: &str) -> Result<Entity> {
    let mut entity = Entity::with_uid(alloc, uid)?;
    entity.add_parent(team(alloc, parent)?)?;
    Ok(entity)
}

/// A new store. `ComputeNow` finds the ancestors that the parents lead to, here and after each edit.
fn made(alloc: Global) -> Result<Entities> {
    let alice = EntityUID::with_eid_and_type(alloc, "User", "alice")?;
    let mut entities = Vec::new(alloc);
    entities.push(in_team(alloc, alice, "web")?)?;
    entities.push(in_team(alloc, team(alloc, "web")?, "engineering")?)?;
    Ok(Entities::from_entities(alloc, entities, TCComputation::ComputeNow)?)
}

/// What is added may not be held already, unless it is the same.
fn added(alloc: Global, store: Entities) -> Result<Entities> {
    let engineering = in_team(alloc, team(alloc, "engineering")?, "company")?;
    let entities = vec![in alloc; engineering]?;
    Ok(store.add_entities(alloc, entities, TCComputation::ComputeNow)?)
}

/// What is put takes the place of what is held under its uid, parents and all.
fn put(alloc: Global, store: Entities) -> Result<Entities> {
    let web = in_team(alloc, team(alloc, "web")?, "design")?;
    let entities = vec![in alloc; web]?;
    Ok(store.upsert_entities(alloc, entities, TCComputation::ComputeNow)?)
}

/// What is removed is nobody's parent any more.
fn removed(alloc: Global, store: Entities) -> Result<Entities> {
    let mut uids = BTreeSet::new(alloc);
    uids.insert(team(alloc, "web")?)?;
    Ok(store.remove_entities(alloc, &uids, TCComputation::ComputeNow)?)
}

/// An edit takes the store, so that one that may be refused is tried on a copy.
fn add_another_version(rt: &impl Print, alloc: Global, store: &Entities) -> Result<()> {
    let web = in_team(alloc, team(alloc, "web")?, "design")?;
    let entities = vec![in alloc; web]?;
    let copy = store.clone(alloc)?;
    let edited = copy.add_entities(alloc, entities, TCComputation::ComputeNow);
    Ok(print_edited(rt, edited)?)
}

/// Engineering holds web already.
fn put_a_cycle(rt: &impl Print, alloc: Global, store: &Entities) -> Result<()> {
    let engineering = in_team(alloc, team(alloc, "engineering")?, "web")?;
    let entities = vec![in alloc; engineering]?;
    let copy = store.clone(alloc)?;
    let edited = copy.upsert_entities(alloc, entities, TCComputation::ComputeNow);
    Ok(print_edited(rt, edited)?)
}

fn print_edited(rt: &impl Print, edited: Result<Entities, EntitiesError>) -> io::Result<()> {
    match edited {
        Ok(store) => println!(rt; "  taken: {} entities", store.len()),
        Err(EntitiesError::TransitiveClosureError(_)) => println!(rt; "  refused: a cycle"),
        Err(error) => println!(rt; "  refused: {error}"),
    }
}

/// Prints what was done, and those of the teams in which alice is.
fn print_teams(rt: &impl Print, alloc: Global, edit: &str, store: &Entities) -> Result<()> {
    println!(rt; "  {edit}")?;
    for name in ["web", "engineering", "company", "design"] {
        if is_in_team(alloc, store, name)? {
            println!(rt; "    alice is in {name}")?;
        }
    }
    Ok(())
}

/// Whether alice is held, and the team is one of her ancestors.
fn is_in_team(alloc: Global, store: &Entities, name: &str) -> Result<bool> {
    let alice = EntityUID::with_eid_and_type(alloc, "User", "alice")?;
    let team = team(alloc, name)?;
    let Some(entity) = store.get(&alice) else {
        return Ok(false);
    };
    Ok(entity.is_descendant_of(&team))
}
