// Which JSON is a value of Cedar. Keys that come twice were refused before.
ghost use Rattle.std.specs.Prelude.{◌≡◌, ◌&&◌, is_some};
ghost use Rattle.json.specs.Json.{object};
ghost use Rattle.json.specs.Strict.{HasUniqueKeys, ItemsHaveUniqueKeys, MembersHaveUniqueKeys};
ghost use Rattle.json.specs.Value.{value_view, items_view, members_view};
ghost use Rattle.cedar_grammar.specs.Names.{is_text, is_among};
ghost use Rattle.cedar_world.specs.Bodies.{and_then, name_spelled, named_fields};
ghost use Rattle.cedar_json.specs.Values.{uid_in, name_in, escapes, arguments, call_in, record_with, entries, datum, data_of, items_in};

use crate::scalars::{is_long, is_name};
use crate::writing::{Members, two_strings};
use json::Value;

/// Whether a name stands under this key.
fn is_named_under(key: &str, expected: &str, name: &str) -> bool
    ensures { result ≡ (is_text key.now expected.now && is_some (name_spelled name.now)) }
{
    if key != expected {
        return false;
    }
    is_name(name)
}

/// Whether a value is an entity: an object of two strings, `type` and `id`.
pub fn is_uid(value: &Value<'_>) -> bool
    ensures { result ≡ is_some (uid_in (value_view value.now)) }
{
    let Some(pair) = two_strings(value) else {
        return false;
    };
    if pair.first.0 == "type" {
        return is_named_under(pair.second.0, "id", pair.first.1);
    }
    if pair.first.0 == "id" {
        return is_named_under(pair.second.0, "type", pair.second.1);
    }
    false
}

/// Whether a value is a string that spells a name.
fn is_named(value: &Value<'_>) -> bool
    ensures { result ≡ is_some (name_in (value_view value.now)) }
{
    match value.as_str() {
        Some(text) => is_name(text),
        None => false,
    }
}

/// Whether a key belongs to an escape.
pub fn is_escape(key: &str) -> bool
    ensures { result ≡ is_among key.now escapes }
{
    key == "__entity" || key == "__extn" || key == "__expr"
}

/// Whether JSON says a value.
#[cycle(read)]
pub fn is_value(value: &Value<'_>) -> bool
    ensures { HasUniqueKeys (value_view value.now)
        → result ≡ is_some (datum (value_view value.now)) }
{
    match value {
        Value::Null => false,
        Value::Bool(_) => true,
        Value::Number(digits) => is_long(digits),
        Value::String(_) => true,
        Value::Array(items) => are_values(items),
        Value::Object(members) => is_object(members),
    }
}

#[cycle(read)]
fn are_values(items: &Vec<Value<'_>>) -> bool
    ensures { ItemsHaveUniqueKeys (items_view items.now.items)
        → result ≡ is_some (data_of (items_view items.now.items)) }
{
    for item in items {
        if !is_value(item) {
            return false;
        }
    }
    true
}

#[cycle(read)]
fn is_object(members: &Members<'_>) -> bool
    ensures { HasUniqueKeys (object (members_view members.now.items))
        → result ≡ is_some (datum (object (members_view members.now.items))) }
{
    if members.len() == 1 {
        let member = &members[0];
        if member.0 == "__entity" {
            return is_uid(&member.1);
        }
        if member.0 == "__extn" {
            return is_call(&member.1);
        }
    }
    are_entries(members)
}

/// Whether members make a record.
#[cycle(read)]
fn are_entries(members: &Members<'_>) -> bool
    ensures { HasUniqueKeys (object (members_view members.now.items))
        → result ≡ is_some (and_then (entries (members_view members.now.items)) record_with) }
{
    for member in members {
        if is_escape(member.0) {
            return false;
        }
        if !is_value(&member.1) {
            return false;
        }
    }
    true
}

#[cycle(read)]
fn is_call(value: &Value<'_>) -> bool
    ensures { HasUniqueKeys (value_view value.now)
        → result ≡ is_some (call_in (value_view value.now)) }
{
    let Value::Object(members) = value else {
        return false;
    };
    if members.len() != 2 {
        return false;
    }
    let (first, second) = (&members[0], &members[1]);
    if first.0 == "fn" {
        if !is_named(&first.1) {
            return false;
        }
        return are_arguments(second.0, &second.1);
    }
    if second.0 != "fn" {
        return false;
    }
    if !is_named(&second.1) {
        return false;
    }
    are_arguments(first.0, &first.1)
}

#[cycle(read)]
fn are_arguments(key: &str, value: &Value<'_>) -> bool
    ensures { HasUniqueKeys (value_view value.now)
        → result ≡ is_some (arguments key.now (datum (value_view value.now)) (items_in (value_view value.now))) }
{
    if key == "arg" {
        return is_value(value);
    }
    if key != "args" {
        return false;
    }
    match value {
        Value::Array(items) => are_values(items),
        _ => false,
    }
}

/// Whether a value is an object that makes a record.
pub fn is_record(value: &Value<'_>) -> bool
    ensures { HasUniqueKeys (value_view value.now)
        → result ≡ is_some (and_then (datum (value_view value.now)) named_fields) }
{
    match value {
        Value::Object(members) => are_entries(members),
        Value::Array(_items) => false,
        Value::Null => false,
        Value::Bool(_) => false,
        Value::Number(_) => false,
        Value::String(_) => false,
    }
}
