//! Asking by the libraries: a text is read as policies, entities are made with parents and attributes, a
//! request is made with a context, and what it comes to is printed: the decision, its reasons, and the errors
//! of policies. The table of extensions is made by `main`.

use crate::DEPTH;
use anyhow::Result;
use cedar_evaluator::ast::{Context, EntityUIDEntry, Request};
use cedar_evaluator::{Authorizer, Diagnostics, Extensions, Response};
use cedar_expressions::ast::{Literal, RestrictedExpr};
use cedar_parser::strict::parse_policyset;
use cedar_store::ast::{Entity, EntityUID, PolicySet};
use cedar_store::entities::{Entities, TCComputation};
use cedar_store::prelude::{EvaluateEntity, FromIn};
use std::alloc::Global;
use std::collections::BTreeMap;
use std::io;
use std::rc::RcStr;

/// They stand under `policy0`, `policy1` and `policy2`.
const POLICIES: &str = r#"
permit(principal in Group::"friends", action == Action::"view", resource);

forbid(principal, action, resource)
when { resource.private }
unless { principal == resource.owner };

permit(principal, action == Action::"delete", resource)
when { principal == resource.owner && context.confirmed };
"#;

/// Reads the policies, makes the entities, and asks four requests.
pub(crate) fn show(rt: &impl Print, alloc: Global, extensions: &Extensions<'_>) -> Result<()> {
    println!(rt; "asking")?;
    let policies = read_policies(alloc, extensions, POLICIES)?;
    let entities = make_entities(alloc, extensions)?;
    let authorizer = Authorizer::new(extensions, DEPTH);
    ask_each(rt, alloc, extensions, &authorizer, &policies, &entities)
}

/// The policies of a text.
pub(crate) fn read_policies(
    alloc: Global,
    extensions: &Extensions<'_>,
    text: &str,
) -> Result<PolicySet> {
    Ok(parse_policyset(alloc, text, extensions, DEPTH)?)
}

/// Alice is in the family, which is among the friends; bob is among these too; and there is a photo.
fn make_entities(alloc: Global, extensions: &Extensions<'_>) -> Result<Entities> {
    let mut entities = Vec::new(alloc);
    entities.push(member(alloc, "User", "alice", "family")?)?;
    entities.push(member(alloc, "User", "bob", "friends")?)?;
    entities.push(member(alloc, "Group", "family", "friends")?)?;
    entities.push(photo(alloc, extensions)?)?;
    Ok(Entities::from_entities(alloc, entities, TCComputation::ComputeNow)?)
}

/// The entity of this type and id, with a group as its parent.
pub(crate) fn member(alloc: Global, type_name: &str, id: &str, group: &str) -> Result<Entity> {
    let uid = EntityUID::with_eid_and_type(alloc, type_name, id)?;
    let mut entity = Entity::with_uid(alloc, uid)?;
    entity.add_parent(EntityUID::with_eid_and_type(alloc, "Group", group)?)?;
    Ok(entity)
}

/// A photo without parents and tags, whose attributes are expressions that are evaluated.
fn photo(alloc: Global, extensions: &Extensions<'_>) -> Result<Entity> {
    let uid = EntityUID::with_eid_and_type(alloc, "Photo", "beach.jpg")?;
    let attributes = photo_attributes(alloc)?;
    Ok(Entity::new(
        alloc,
        uid,
        attributes,
        Vec::new(alloc),
        Vec::new(alloc),
        BTreeMap::new(alloc),
        extensions,
        DEPTH,
    )?)
}

fn photo_attributes(alloc: Global) -> Result<BTreeMap<RcStr, RestrictedExpr>> {
    let owner = EntityUID::with_eid_and_type(alloc, "User", "alice")?;
    let owner = Literal::from_in(alloc, owner)?;
    let mut attributes = BTreeMap::new(alloc);
    add_attribute(alloc, &mut attributes, "owner", owner)?;
    add_attribute(alloc, &mut attributes, "private", Literal::from(true))?;
    Ok(attributes)
}

fn add_attribute(
    alloc: Global,
    attributes: &mut BTreeMap<RcStr, RestrictedExpr>,
    name: &str,
    literal: Literal,
) -> Result<()> {
    let name = RcStr::from_str(alloc, name)?;
    attributes.insert(name, RestrictedExpr::val(literal))?;
    Ok(())
}

/// Bob is a friend as well, but the photo is private and isn't his. The last request lacks what confirms a
/// deletion, so that `policy2` errs.
fn ask_each(
    rt: &impl Print,
    alloc: Global,
    extensions: &Extensions<'_>,
    authorizer: &Authorizer<'_, '_>,
    policies: &PolicySet,
    entities: &Entities,
) -> Result<()> {
    println!(rt; "  alice views her photo")?;
    let viewing = request(alloc, "alice", "view", Context::empty(alloc)?)?;
    ask(rt, alloc, authorizer, policies, entities, viewing)?;

    println!(rt; "  bob views it")?;
    let viewing = request(alloc, "bob", "view", Context::empty(alloc)?)?;
    ask(rt, alloc, authorizer, policies, entities, viewing)?;

    println!(rt; "  alice deletes it, confirmed")?;
    let deleting = request(alloc, "alice", "delete", confirmed(alloc, extensions)?)?;
    ask(rt, alloc, authorizer, policies, entities, deleting)?;

    println!(rt; "  alice deletes it")?;
    let deleting = request(alloc, "alice", "delete", Context::empty(alloc)?)?;
    ask(rt, alloc, authorizer, policies, entities, deleting)
}

/// The context `{confirmed: true}`.
fn confirmed(alloc: Global, extensions: &Extensions<'_>) -> Result<Context> {
    let key = RcStr::from_str(alloc, "confirmed")?;
    let pairs = vec![in alloc; (key, RestrictedExpr::val(Literal::from(true)))]?;
    Ok(Context::from_pairs(alloc, pairs, extensions, DEPTH)?)
}

/// Asks a request, and prints what it comes to.
pub(crate) fn ask(
    rt: &impl Print,
    alloc: Global,
    authorizer: &Authorizer<'_, '_>,
    policies: &PolicySet,
    entities: &Entities,
    request: Request,
) -> Result<()> {
    let response = authorizer.is_authorized(alloc, request, policies, entities)?;
    Ok(print_response(rt, response)?)
}

/// A user asks to do something to the photo.
pub(crate) fn request(
    alloc: Global,
    user: &str,
    action: &str,
    context: Context,
) -> Result<Request> {
    let principal = known(alloc, "User", user)?;
    let action = known(alloc, "Action", action)?;
    let resource = known(alloc, "Photo", "beach.jpg")?;
    Ok(Request::new_unchecked(principal, action, resource, Some(context)))
}

/// A part of a request that is known.
pub(crate) fn known(alloc: Global, type_name: &str, id: &str) -> Result<EntityUIDEntry> {
    let uid = EntityUID::with_eid_and_type(alloc, type_name, id)?;
    Ok(EntityUIDEntry::known(alloc, uid, None)?)
}

/// Prints the decision, the policies that are its reasons, and the errors of policies.
fn print_response(rt: &impl Print, response: Response) -> io::Result<()> {
    println!(rt; "    {:?}", response.decision)?;
    print_diagnostics(rt, &response.diagnostics)
}

fn print_diagnostics(rt: &impl Print, diagnostics: &Diagnostics) -> io::Result<()> {
    for id in &diagnostics.reason {
        println!(rt; "      reason {id}")?;
    }
    for error in &diagnostics.errors {
        println!(rt; "      error {error}")?;
    }
    Ok(())
}
