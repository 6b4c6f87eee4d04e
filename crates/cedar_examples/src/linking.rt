//! Templates: one is read from its text, linked for two principals, and one of the links is taken away.

use crate::DEPTH;
use crate::asking::{ask, read_policies, request};
use anyhow::Result;
use cedar_evaluator::ast::Context;
use cedar_evaluator::{Authorizer, Extensions};
use cedar_expressions::ast::SlotId;
use cedar_store::ast::{EntityUID, Policy, PolicyID, PolicySet, PolicySetUnlinkError, SlotEnv};
use cedar_store::entities::Entities;
use std::alloc::Global;
use std::io;

/// It stands under `policy0`.
const TEMPLATE: &str = r#"
permit(principal == ?principal, action == Action::"edit", resource == ?resource);
"#;

/// Reads the template, and asks as its links come and go.
pub(crate) fn show(rt: &impl Print, alloc: Global, extensions: &Extensions<'_>) -> Result<()> {
    println!(rt; "linking")?;
    let mut policies = read_policies(alloc, extensions, TEMPLATE)?;
    let entities = Entities::new(alloc);
    let authorizer = Authorizer::new(extensions, DEPTH);
    link_and_unlink(rt, alloc, &authorizer, &mut policies, &entities)
}

fn link_and_unlink(
    rt: &impl Print,
    alloc: Global,
    authorizer: &Authorizer<'_, '_>,
    policies: &mut PolicySet,
    entities: &Entities,
) -> Result<()> {
    ask_to_edit(rt, alloc, authorizer, policies, entities, "bob")?;

    link(alloc, policies, "alice may edit", "alice")?;
    link(alloc, policies, "bob may edit", "bob")?;
    print_links(rt, alloc, policies)?;
    ask_to_edit(rt, alloc, authorizer, policies, entities, "alice")?;
    ask_to_edit(rt, alloc, authorizer, policies, entities, "bob")?;

    unlink(rt, alloc, policies, "bob may edit")?;
    unlink(rt, alloc, policies, "bob may edit")?;
    ask_to_edit(rt, alloc, authorizer, policies, entities, "alice")?;
    ask_to_edit(rt, alloc, authorizer, policies, entities, "bob")
}

/// Links the template for a user, under an id of the link's own.
fn link(alloc: Global, policies: &mut PolicySet, id: &str, user: &str) -> Result<()> {
    let template = PolicyID::from_string(alloc, "policy0")?;
    let id = PolicyID::from_string(alloc, id)?;
    Ok(policies.link(alloc, template, id, slots(alloc, user)?)?)
}

/// The entities of the template's slots.
fn slots(alloc: Global, user: &str) -> Result<SlotEnv> {
    let user = EntityUID::with_eid_and_type(alloc, "User", user)?;
    let photo = EntityUID::with_eid_and_type(alloc, "Photo", "beach.jpg")?;
    let mut slots = SlotEnv::new();
    slots.insert(SlotId::principal(), user);
    slots.insert(SlotId::resource(), photo);
    Ok(slots)
}

fn print_links(rt: &impl Print, alloc: Global, policies: &PolicySet) -> Result<()> {
    let template = PolicyID::from_string(alloc, "policy0")?;
    for id in policies.get_linked_policies(&template)? {
        println!(rt; "  link {id}")?;
    }
    Ok(())
}

/// Takes a link away, and prints its id, or why it is refused.
fn unlink(rt: &impl Print, alloc: Global, policies: &mut PolicySet, id: &str) -> Result<()> {
    let id = PolicyID::from_string(alloc, id)?;
    Ok(print_unlinked(rt, policies.unlink(&id))?)
}

fn print_unlinked(
    rt: &impl Print,
    unlinked: Result<Policy, PolicySetUnlinkError>,
) -> io::Result<()> {
    match unlinked {
        Ok(policy) => println!(rt; "  unlinked {}", policy.id()),
        Err(error) => println!(rt; "  refused: {error}"),
    }
}

fn ask_to_edit(
    rt: &impl Print,
    alloc: Global,
    authorizer: &Authorizer<'_, '_>,
    policies: &PolicySet,
    entities: &Entities,
    user: &str,
) -> Result<()> {
    println!(rt; "  {user} edits the photo")?;
    let editing = request(alloc, user, "edit", Context::empty(alloc)?)?;
    ask(rt, alloc, authorizer, policies, entities, editing)
}
