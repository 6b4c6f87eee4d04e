// Lists of uids, and of entities.
ghost use Rattle.std.specs.Prelude.{◌≡◌, IfOk, map, option_map, codes};
ghost use Rattle.cedar_grammar.specs.Build.{trees};
ghost use Rattle.cedar_trees.specs.Bare.{bare};
ghost use Rattle.cedar_world.specs.Bodies as world;
ghost use Rattle.cedar_held.specs.Lent.{fields_in};
ghost use Rattle.cedar_held.specs.Entities.{listed_uids, listed_or_none, written_fields, written_body, written_bodies, written_of, all_written, entity_bodies_of};

use crate::fields::{field, has_only, optional_record, required_entity};
use crate::laws::bodies_are_written;
use crate::literals::{entity_of, entries_of, items_of};
use cedar_literals::uids::EntityUID;
use cedar_trees::expr::Expr;
use std::alloc::{AllocError, Global};
use std::collections::BTreeMap;
use std::rc::RcStr;

/// An entity as a list gives it: its attributes and tags are not yet evaluated.
#[derive(Drop)]
pub struct EntityBody<'e> {
    pub uid: &'e EntityUID,
    pub parents: Vec<EntityUID>,
    /// The attributes, where some are given.
    pub attrs: Option<&'e BTreeMap<RcStr, Expr>>,
    /// The tags, where some are given.
    pub tags: Option<&'e BTreeMap<RcStr, Expr>>,
}

fn listed(alloc: Global, items: &[Expr]) -> Result<Option<Vec<EntityUID>>, AllocError>
    ensures { IfOk result (λ uids. option_map listed_uids uids ≡ world.each world.entity_of (trees (map bare items.now))) }
{
    let mut uids = Vec::new(alloc);
    for item in items {
        match entity_of(item) {
            None => return Ok(None),
            Some(uid) => uids.push(uid.clone(alloc)?)?,
        }
    }
    Ok(Some(uids))
}

/// The uids of a list of entities, in its order. It errs for want of memory alone.
pub fn uids_of(alloc: Global, expr: &Expr) -> Result<Option<Vec<EntityUID>>, AllocError>
    ensures { IfOk result (λ uids. option_map listed_uids uids ≡ world.uids_of (bare expr.now)) }
{
    match items_of(expr) {
        None => Ok(None),
        Some(items) => listed(alloc, items),
    }
}

// The parents that a field gives, and none at all where there is no such field.
fn parents_of(
    alloc: Global,
    entries: &BTreeMap<RcStr, Expr>,
) -> Result<Option<Vec<EntityUID>>, AllocError>
    ensures { IfOk result (λ parents. option_map listed_uids parents ≡
        option_map listed_or_none (world.optional world.uids_of (codes "parents") (fields_in entries.now))) }
{
    match field(entries, "parents") {
        None => Ok(Some(Vec::new(alloc))),
        Some(value) => uids_of(alloc, value),
    }
}

fn entity_fields(
    alloc: Global,
    entries: &BTreeMap<RcStr, Expr>,
) -> Result<Option<EntityBody<'_>>, AllocError>
    ensures { IfOk result (λ body. option_map written_of body ≡ written_fields (fields_in entries.now)) }
{
    let Some(uid) = required_entity(entries, "uid") else {
        return Ok(None);
    };
    let Some(attrs) = optional_record(entries, "attrs") else {
        return Ok(None);
    };
    let Some(tags) = optional_record(entries, "tags") else {
        return Ok(None);
    };
    match parents_of(alloc, entries)? {
        None => Ok(None),
        Some(parents) => Ok(Some(EntityBody {
            uid,
            parents,
            attrs,
            tags,
        })),
    }
}

fn entity_body(alloc: Global, expr: &Expr) -> Result<Option<EntityBody<'_>>, AllocError>
    ensures { IfOk result (λ body. option_map written_of body ≡ written_body (bare expr.now)) }
{
    match entries_of(expr) {
        None => Ok(None),
        Some(entries) => {
            if has_only(entries, &["uid", "parents", "attrs", "tags"]) {
                entity_fields(alloc, entries)
            } else {
                Ok(None)
            }
        }
    }
}

fn listed_bodies(alloc: Global, items: &[Expr]) -> Result<Option<Vec<EntityBody<'_>>>, AllocError>
    ensures { IfOk result (λ bodies. option_map all_written bodies ≡ world.each written_body (trees (map bare items.now))) }
{
    let mut bodies = Vec::new(alloc);
    for item in items {
        match entity_body(alloc, item)? {
            None => return Ok(None),
            Some(body) => bodies.push(body)?,
        }
    }
    Ok(Some(bodies))
}

/// The entities that a body lists, in its order: each a record of the entity `uid`, of a list of
/// entities `parents` or none, of records `attrs` and `tags` or none, and of nothing else. It errs for
/// want of memory alone.
pub fn entity_bodies(alloc: Global, expr: &Expr) -> Result<Option<Vec<EntityBody<'_>>>, AllocError>
    ensures bodies { IfOk result (λ bodies. option_map entity_bodies_of bodies ≡ world.entity_bodies (bare expr.now)) }
    ensures written { IfOk result (λ bodies. option_map all_written bodies ≡ written_bodies (bare expr.now)) }
{
    bodies_are_written();
    match items_of(expr) {
        None => Ok(None),
        Some(items) => listed_bodies(alloc, items),
    }
}
