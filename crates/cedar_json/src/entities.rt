// Which JSON is entities. Keys that come twice were refused before.
ghost use Rattle.std.specs.Prelude.{◌≡◌, is_some, codes};
ghost use Rattle.json.specs.Json.{object};
ghost use Rattle.json.specs.Strict.{HasUniqueKeys, ItemsHaveUniqueKeys};
ghost use Rattle.json.specs.Value.{value_view, items_view, members_view};
ghost use Rattle.cedar_world.specs.Bodies.{and_then};
ghost use Rattle.cedar_json.specs.Entities.{entity_in, each_entity, parents_in, fields_in, under, if_there, body_of, body_in, bodies_of, entities_in};

use crate::object_keys::has_only;
use crate::values::{is_record, is_uid};
use crate::writing::{Members, find};
use json::Value;

/// Whether a value is an entity, perhaps under `__entity`.
pub fn is_entity(value: &Value<'_>) -> bool
    ensures { result ≡ is_some (entity_in (value_view value.now)) }
{
    let Value::Object(members) = value else {
        return false;
    };
    if members.len() != 1 {
        return is_uid(value);
    }
    let member = &members[0];
    if member.0 != "__entity" {
        return false;
    }
    is_uid(&member.1)
}

fn are_entities(items: &Vec<Value<'_>>) -> bool
    ensures { result ≡ is_some (each_entity (items_view items.now.items)) }
{
    for item in items {
        if !is_entity(item) {
            return false;
        }
    }
    true
}

/// Whether a value is a list of entities.
pub fn are_parents(value: &Value<'_>) -> bool
    ensures { result ≡ is_some (parents_in (value_view value.now)) }
{
    match value {
        Value::Array(items) => are_entities(items),
        _ => false,
    }
}

fn has_uid(members: &Members<'_>) -> bool
    ensures { result ≡ is_some (and_then (under (codes "uid") (members_view members.now.items)) entity_in) }
{
    match find(members, "uid") {
        Some(value) => is_entity(value),
        None => false,
    }
}

fn has_parents(members: &Members<'_>) -> bool
    ensures { result ≡ is_some (if_there parents_in (under (codes "parents") (members_view members.now.items))) }
{
    match find(members, "parents") {
        Some(value) => are_parents(value),
        None => true,
    }
}

/// Whether what stands under a key, if anything does, is an object of values.
pub fn has_fields(members: &Members<'_>, key: &str) -> bool
    ensures { HasUniqueKeys (object (members_view members.now.items))
        → result ≡ is_some (if_there fields_in (under key.now (members_view members.now.items))) }
{
    match find(members, key) {
        Some(value) => is_record(value),
        None => true,
    }
}

/// Whether members have the parts of an entity, other keys aside.
fn is_body(members: &Members<'_>) -> bool
    ensures { HasUniqueKeys (object (members_view members.now.items))
        → result ≡ is_some (body_of (members_view members.now.items)) }
{
    if !has_uid(members) {
        return false;
    }
    if !has_parents(members) {
        return false;
    }
    if !has_fields(members, "attrs") {
        return false;
    }
    has_fields(members, "tags")
}

/// Whether a value is an entity with its parts.
fn is_entity_body(value: &Value<'_>) -> bool
    ensures { HasUniqueKeys (value_view value.now)
        → result ≡ is_some (body_in (value_view value.now)) }
{
    let Value::Object(members) = value else {
        return false;
    };
    if !has_only(members, &["uid", "parents", "attrs", "tags"]) {
        return false;
    }
    is_body(members)
}

fn are_bodies(items: &Vec<Value<'_>>) -> bool
    ensures { ItemsHaveUniqueKeys (items_view items.now.items)
        → result ≡ is_some (bodies_of (items_view items.now.items)) }
{
    for item in items {
        if !is_entity_body(item) {
            return false;
        }
    }
    true
}

/// Whether a value is a list of entities with their parts.
pub fn is_entities(value: &Value<'_>) -> bool
    ensures { HasUniqueKeys (value_view value.now)
        → result ≡ is_some (entities_in (value_view value.now)) }
{
    match value {
        Value::Array(items) => are_bodies(items),
        _ => false,
    }
}
