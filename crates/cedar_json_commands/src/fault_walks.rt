// The first fault of a value of JSON as the body of a command. What is found is only tested.
use crate::partial_questions::stated_type;
use crate::verbs::JsonVerb;
use cedar_json::fault_walks::{
    asked_found, entities_found, keys_found, parents_found, question_found, record_found,
};
use cedar_json::found::{Found, MaybeFound, behind, here};
use cedar_json::{FaultKind, Members, Step, find, is_name};
use json::Value;
use std::alloc::Global;

/// What is wrong with a string.
fn string_found<'v>(alloc: Global, value: &'v Value<'_>) -> MaybeFound<'v> {
    match value {
        Value::String(_) => Ok(None),
        _ => here(alloc, FaultKind::Kind, "what stands there", "string"),
    }
}

/// The keys of a link: of its template, of its id and of its slots.
#[derive(Clone, Copy)]
struct Spelling {
    keys: [&'static str; 3],
    listed: &'static str,
}

const OF_A_FILE: Spelling = Spelling {
    keys: ["template_id", "link_id", "args"],
    listed: "template_id, link_id, args",
};

const OF_A_CALL: Spelling = Spelling {
    keys: ["templateId", "newId", "values"],
    listed: "templateId, newId, values",
};

/// The spelling that the first key of a link is of; that of a file where it is of none.
fn spelling_of(members: &Members<'_>) -> Spelling {
    match members.first() {
        Some(member) if OF_A_CALL.keys.contains(&member.0) => OF_A_CALL,
        _ => OF_A_FILE,
    }
}

/// The first of these keys that is missing.
fn missing_key(members: &Members<'_>, keys: &[&'static str; 3]) -> Option<&'static str> {
    for key in keys {
        if find(members, key).is_none() {
            return Some(*key);
        }
    }
    None
}

/// What is wrong with the slots of a link.
fn slots_found<'v>(alloc: Global, value: &'v Value<'_>) -> MaybeFound<'v> {
    let Value::Object(members) = value else {
        return here(alloc, FaultKind::Kind, "what stands there", "object");
    };
    let keys = keys_found(
        alloc,
        members,
        &["?principal", "?resource"],
        "?principal, ?resource",
    )?;
    if keys.is_some() {
        return Ok(keys);
    }
    for number in 0..members.len() {
        let member = &members[number];
        let found = asked_found(alloc, &member.1)?;
        if found.is_some() {
            return behind(found, Step::Member(member.0, number));
        }
    }
    Ok(None)
}

/// What is wrong with a link.
fn link_found<'v>(alloc: Global, value: &'v Value<'_>) -> MaybeFound<'v> {
    let Value::Object(members) = value else {
        return here(alloc, FaultKind::Kind, "what stands there", "object");
    };
    let spelling = spelling_of(members);
    let keys = keys_found(alloc, members, &spelling.keys, spelling.listed)?;
    if keys.is_some() {
        return Ok(keys);
    }
    if let Some(key) = missing_key(members, &spelling.keys) {
        return here(alloc, FaultKind::Missing, key, "");
    }
    for number in 0..members.len() {
        let member = &members[number];
        let found = match member.0 {
            "args" | "values" => slots_found(alloc, &member.1)?,
            _ => string_found(alloc, &member.1)?,
        };
        if found.is_some() {
            return behind(found, Step::Member(member.0, number));
        }
    }
    Ok(None)
}

/// What is wrong with a principal or a resource, of which perhaps the type alone is stated.
fn open_part_found<'v>(alloc: Global, value: &'v Value<'_>) -> MaybeFound<'v> {
    let Some(name) = stated_type(value) else {
        return asked_found(alloc, value);
    };
    if is_name(name) {
        return Ok(None);
    }
    let found = Found::new(alloc, FaultKind::Type, name, "entity type");
    behind(Some(found), Step::Member("type", 0))
}

/// What is wrong with a context, which may be said to be unknown.
fn open_context_found<'v>(alloc: Global, value: &'v Value<'_>) -> MaybeFound<'v> {
    match value {
        Value::String("unknown") => Ok(None),
        _ => record_found(alloc, value),
    }
}

/// What is wrong with a question, parts of which may be left open.
fn partial_question_found<'v>(alloc: Global, value: &'v Value<'_>) -> MaybeFound<'v> {
    let Value::Object(members) = value else {
        return here(alloc, FaultKind::Kind, "what stands there", "object");
    };
    let names = ["principal", "action", "resource", "context"];
    let keys = keys_found(
        alloc,
        members,
        &names,
        "principal, action, resource, context",
    )?;
    if keys.is_some() {
        return Ok(keys);
    }
    for number in 0..members.len() {
        let member = &members[number];
        let found = match member.0 {
            "action" => asked_found(alloc, &member.1)?,
            "context" => open_context_found(alloc, &member.1)?,
            _ => open_part_found(alloc, &member.1)?,
        };
        if found.is_some() {
            return behind(found, Step::Member(member.0, number));
        }
    }
    Ok(None)
}

/// What is wrong with a value as the body of a command, as far as a walk through it finds something. It errs for want
/// of memory.
pub fn body_found<'v>(alloc: Global, verb: JsonVerb, value: &'v Value<'_>) -> MaybeFound<'v> {
    match verb {
        JsonVerb::Link => link_found(alloc, value),
        JsonVerb::Unlink => string_found(alloc, value),
        JsonVerb::RemoveStatic => string_found(alloc, value),
        JsonVerb::RemoveTemplate => string_found(alloc, value),
        JsonVerb::Add => entities_found(alloc, value),
        JsonVerb::Put => entities_found(alloc, value),
        JsonVerb::Remove => parents_found(alloc, value),
        JsonVerb::Ask => question_found(alloc, value),
        JsonVerb::AskPartial => partial_question_found(alloc, value),
        JsonVerb::Tell => record_found(alloc, value),
    }
}
