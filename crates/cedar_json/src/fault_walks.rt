// The first fault of a value of JSON. What is found is only tested.
use crate::entities::is_entity;
use crate::faults::FaultKind;
use crate::found::{Found, MaybeFound, at_key, behind, here};
use crate::object_keys::is_one_of;
use crate::places::Step;
use crate::reading::Unread;
use crate::scalars::{is_long, is_name};
use crate::told::write_told;
use crate::values::{is_escape, is_uid};
use crate::writing::{Members, find, two_strings};
use json::Value;
use std::alloc::{AllocError, Global};
use std::collections::BTreeMap;

/// The first key that stood before.
fn twice_found<'v>(alloc: Global, members: &'v Members<'_>) -> MaybeFound<'v> {
    let mut seen: BTreeMap<&str, usize> = BTreeMap::new(alloc);
    for number in 0..members.len() {
        let key = members[number].0;
        if seen.insert(key, number)?.is_some() {
            return at_key(alloc, FaultKind::TwiceKey, key, number, "");
        }
    }
    Ok(None)
}

/// The first key that is none of these.
fn key_found<'v>(
    alloc: Global,
    members: &'v Members<'_>,
    names: &[&str],
    expected: &'static str,
) -> MaybeFound<'v> {
    for number in 0..members.len() {
        let key = members[number].0;
        if !is_one_of(key, names) {
            return at_key(alloc, FaultKind::Key, key, number, expected);
        }
    }
    Ok(None)
}

/// What is wrong with a number that is no long.
fn number_found<'v>(alloc: Global, digits: &'v str) -> MaybeFound<'v> {
    if is_long(digits) {
        return Ok(None);
    }
    if digits.contains('.') || digits.contains('e') || digits.contains('E') {
        return here(alloc, FaultKind::Float, digits, "");
    }
    here(alloc, FaultKind::Range, digits, "")
}

const REFERENCE: &str = "{\"type\", \"id\"}";

/// What is wrong with an entity by its type and its id.
fn uid_found<'v>(alloc: Global, value: &'v Value<'_>) -> MaybeFound<'v> {
    if is_uid(value) {
        return Ok(None);
    }
    let Some(pair) = two_strings(value) else {
        return here(alloc, FaultKind::Uid, "", REFERENCE);
    };
    if pair.first.0 == "type" && pair.second.0 == "id" {
        let found = Found::new(alloc, FaultKind::Type, pair.first.1, "entity type");
        return behind(Some(found), Step::Member("type", 0));
    }
    if pair.first.0 == "id" && pair.second.0 == "type" {
        let found = Found::new(alloc, FaultKind::Type, pair.second.1, "entity type");
        return behind(Some(found), Step::Member("type", 1));
    }
    here(alloc, FaultKind::Uid, "", REFERENCE)
}

/// What is wrong with an entity, which perhaps stands under `__entity`.
fn entity_found<'v>(alloc: Global, value: &'v Value<'_>) -> MaybeFound<'v> {
    if is_entity(value) {
        return Ok(None);
    }
    let Value::Object(members) = value else {
        return here(alloc, FaultKind::Uid, "", REFERENCE);
    };
    if members.len() == 1 && members[0].0 == "__entity" {
        let found = uid_found(alloc, &members[0].1)?;
        return behind(found, Step::Member("__entity", 0));
    }
    uid_found(alloc, value)
}

/// What is wrong with a value.
#[cycle(found)]
pub fn value_found<'v>(alloc: Global, value: &'v Value<'_>) -> MaybeFound<'v> {
    match value {
        Value::Null => here(alloc, FaultKind::Null, "", ""),
        Value::Bool(_) => Ok(None),
        Value::Number(digits) => number_found(alloc, digits),
        Value::String(_) => Ok(None),
        Value::Array(items) => items_found(alloc, items),
        Value::Object(members) => object_found(alloc, members),
    }
}

#[cycle(found)]
fn items_found<'v>(alloc: Global, items: &'v Vec<Value<'_>>) -> MaybeFound<'v> {
    for number in 0..items.len() {
        let item = &items[number];
        let found = value_found(alloc, item)?;
        if found.is_some() {
            return behind(found, Step::Item(number));
        }
    }
    Ok(None)
}

#[cycle(found)]
fn object_found<'v>(alloc: Global, members: &'v Members<'_>) -> MaybeFound<'v> {
    if members.len() == 1 {
        let member = &members[0];
        if member.0 == "__entity" {
            let found = uid_found(alloc, &member.1)?;
            return behind(found, Step::Member("__entity", 0));
        }
        if member.0 == "__extn" {
            let found = call_found(alloc, &member.1)?;
            return behind(found, Step::Member("__extn", 0));
        }
    }
    entries_found(alloc, members)
}

/// What is wrong with the members of a record.
#[cycle(found)]
fn entries_found<'v>(alloc: Global, members: &'v Members<'_>) -> MaybeFound<'v> {
    let twice = twice_found(alloc, members)?;
    if twice.is_some() {
        return Ok(twice);
    }
    for number in 0..members.len() {
        let member = &members[number];
        if member.0 == "__expr" {
            return at_key(
                alloc,
                FaultKind::Extn,
                member.0,
                number,
                "`__expr` was removed in Cedar 3",
            );
        }
        if is_escape(member.0) {
            return at_key(
                alloc,
                FaultKind::Key,
                member.0,
                number,
                "a record's: it stands alone",
            );
        }
        let found = value_found(alloc, &member.1)?;
        if found.is_some() {
            return behind(found, Step::Member(member.0, number));
        }
    }
    Ok(None)
}

const CALL: &str = "expected {\"fn\", \"arg\"} or {\"fn\", \"args\"}";

/// What is wrong with a call.
#[cycle(found)]
fn call_found<'v>(alloc: Global, value: &'v Value<'_>) -> MaybeFound<'v> {
    let Value::Object(members) = value else {
        return here(alloc, FaultKind::Extn, "", CALL);
    };
    let twice = twice_found(alloc, members)?;
    if twice.is_some() {
        return Ok(twice);
    }
    let mut named = false;
    for number in 0..members.len() {
        let member = &members[number];
        let found = call_part_found(alloc, member.0, &member.1)?;
        if found.is_some() {
            return behind(found, Step::Member(member.0, number));
        }
        named = named || member.0 == "fn";
    }
    if named && members.len() == 2 {
        return Ok(None);
    }
    here(alloc, FaultKind::Extn, "", CALL)
}

/// What is wrong with a part of a call.
#[cycle(found)]
fn call_part_found<'v>(alloc: Global, key: &str, value: &'v Value<'_>) -> MaybeFound<'v> {
    if key == "fn" {
        return match value {
            Value::String(name) => name_found(alloc, name),
            _ => here(alloc, FaultKind::Kind, "the function", "string"),
        };
    }
    if key == "arg" {
        return value_found(alloc, value);
    }
    if key != "args" {
        return here(alloc, FaultKind::Extn, "", CALL);
    }
    match value {
        Value::Array(items) => items_found(alloc, items),
        _ => here(alloc, FaultKind::Kind, "what stands under args", "list"),
    }
}

/// What is wrong with the name of a function.
fn name_found<'v>(alloc: Global, name: &'v str) -> MaybeFound<'v> {
    if is_name(name) {
        return Ok(None);
    }
    here(alloc, FaultKind::Type, name, "function")
}

/// What is wrong with an object of values.
pub fn record_found<'v>(alloc: Global, value: &'v Value<'_>) -> MaybeFound<'v> {
    match value {
        Value::Object(members) => entries_found(alloc, members),
        _ => here(alloc, FaultKind::Kind, "what stands there", "object"),
    }
}

/// What is wrong with a list of entities.
pub fn parents_found<'v>(alloc: Global, value: &'v Value<'_>) -> MaybeFound<'v> {
    let Value::Array(items) = value else {
        return here(alloc, FaultKind::Kind, "what stands there", "list");
    };
    for number in 0..items.len() {
        let item = &items[number];
        let found = entity_found(alloc, item)?;
        if found.is_some() {
            return behind(found, Step::Item(number));
        }
    }
    Ok(None)
}

/// What is wrong with a part of an entity.
fn entity_part_found<'v>(alloc: Global, key: &str, value: &'v Value<'_>) -> MaybeFound<'v> {
    match key {
        "uid" => entity_found(alloc, value),
        "parents" => parents_found(alloc, value),
        _ => record_found(alloc, value),
    }
}

/// What is wrong with an entity and its parts.
fn body_found<'v>(alloc: Global, value: &'v Value<'_>) -> MaybeFound<'v> {
    let Value::Object(members) = value else {
        return here(alloc, FaultKind::Kind, "the entity", "object");
    };
    let keys = keys_found(
        alloc,
        members,
        &["uid", "parents", "attrs", "tags"],
        "uid, parents, attrs, tags",
    )?;
    if keys.is_some() {
        return Ok(keys);
    }
    if find(members, "uid").is_none() {
        return here(alloc, FaultKind::Missing, "uid", "");
    }
    for number in 0..members.len() {
        let member = &members[number];
        let found = entity_part_found(alloc, member.0, &member.1)?;
        if found.is_some() {
            return behind(found, Step::Member(member.0, number));
        }
    }
    Ok(None)
}

/// What is wrong with the keys of an object.
pub fn keys_found<'v>(
    alloc: Global,
    members: &'v Members<'_>,
    names: &[&str],
    expected: &'static str,
) -> MaybeFound<'v> {
    let other = key_found(alloc, members, names, expected)?;
    if other.is_some() {
        return Ok(other);
    }
    twice_found(alloc, members)
}

/// What is wrong with a list of entities and their parts.
pub fn entities_found<'v>(alloc: Global, value: &'v Value<'_>) -> MaybeFound<'v> {
    let Value::Array(items) = value else {
        return here(alloc, FaultKind::Kind, "what stands there", "list");
    };
    for number in 0..items.len() {
        let item = &items[number];
        let found = body_found(alloc, item)?;
        if found.is_some() {
            return behind(found, Step::Item(number));
        }
    }
    Ok(None)
}

/// What is wrong with an entity of a question.
pub fn asked_found<'v>(alloc: Global, value: &'v Value<'_>) -> MaybeFound<'v> {
    let Value::String(text) = value else {
        return entity_found(alloc, value);
    };
    let mut written = String::new(alloc);
    match write_told(alloc, &mut written, text) {
        Ok(()) => Ok(None),
        Err(Unread::Memory) => Err(AllocError),
        Err(Unread::Unsaid) => here(
            alloc,
            FaultKind::Uid,
            "",
            "{\"type\", \"id\"} or a string as U::\"x\"",
        ),
    }
}

/// The first part of a question that is missing.
fn missing_part(members: &Members<'_>) -> Option<&'static str> {
    for part in ["principal", "action", "resource"] {
        if find(members, part).is_none() {
            return Some(part);
        }
    }
    None
}

/// What is wrong with a question.
pub fn question_found<'v>(alloc: Global, value: &'v Value<'_>) -> MaybeFound<'v> {
    let Value::Object(members) = value else {
        return here(alloc, FaultKind::Kind, "what stands there", "object");
    };
    let names = ["principal", "action", "resource", "context"];
    let keys = keys_found(
        alloc,
        members,
        &names,
        "principal, action, resource, context",
    )?;
    if keys.is_some() {
        return Ok(keys);
    }
    if let Some(part) = missing_part(members) {
        return here(alloc, FaultKind::Missing, part, "");
    }
    for number in 0..members.len() {
        let member = &members[number];
        let found = match member.0 {
            "context" => record_found(alloc, &member.1)?,
            _ => asked_found(alloc, &member.1)?,
        };
        if found.is_some() {
            return behind(found, Step::Member(member.0, number));
        }
    }
    Ok(None)
}
