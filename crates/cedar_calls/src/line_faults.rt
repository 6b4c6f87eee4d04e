// Why a line of JSON is no command, or its JSON no body, and where. What is told is only tested.

use crate::lines::{only_member, verb_named};
use cedar_json::found::{MaybeFound, at_key, behind, here};
use cedar_json::{FaultKind, JsonFault, Step, parse_loosely, placed_fault, syntax_fault};
use cedar_json_commands::body_found;
use json::{Scratch, Value};
use std::alloc::{AllocError, Global};

const COMMANDS: &str =
    "load, link, unlink, removeStatic, removeTemplate, add, put, remove, ask, askPartial, tell";

/// What is wrong with the body of a command.
fn named_found<'v>(alloc: Global, name: &'v str, body: &'v Value<'_>) -> MaybeFound<'v> {
    if name == "load" {
        return match body {
            Value::String(_) => Ok(None),
            _ => here(alloc, FaultKind::Kind, "what stands there", "string"),
        };
    }
    match verb_named(name) {
        Some(verb) => body_found(alloc, verb, body),
        None => Ok(None),
    }
}

/// What is wrong with the value of a line.
fn command_found<'v>(alloc: Global, value: &'v Value<'_>) -> MaybeFound<'v> {
    let Some((name, body)) = only_member(value) else {
        return here(alloc, FaultKind::Kind, "the line", "object of one command");
    };
    if *name != "load" && verb_named(name).is_none() {
        return at_key(alloc, FaultKind::Key, name, 0, COMMANDS);
    }
    let found = named_found(alloc, name, body)?;
    behind(found, Step::Member(name, 0))
}

/// The first fault of a line that gives no command, or whose JSON says no body of it.
pub(crate) fn line_fault(alloc: Global, line: &str) -> Result<JsonFault, AllocError> {
    let mut scratch = Scratch::new(alloc);
    let Some(value) = parse_loosely(alloc, line, &mut scratch)? else {
        return syntax_fault(alloc, line);
    };
    let found = command_found(alloc, &value)?;
    placed_fault(alloc, line, found)
}
