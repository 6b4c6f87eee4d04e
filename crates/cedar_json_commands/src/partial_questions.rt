// Questions with open parts as Cedar texts.
ghost use Rattle.std.specs.Prelude.{◌≡◌, codes, option_map};
ghost use Rattle.json.specs.Json.{object};
ghost use Rattle.json.specs.Strict.{HasUniqueKeys};
ghost use Rattle.json.specs.Value.{value_view, members_view};
ghost use Rattle.cedar_world.specs.Bodies.{name_spelled};
ghost use Rattle.cedar_json.specs.Appended.{Appends};
ghost use Rattle.cedar_json.specs.Entities.{under};
ghost use Rattle.cedar_json.specs.Parts as parts;
ghost use Rattle.cedar_json.specs.Said.{Tells};
ghost use Rattle.cedar_json.specs.Written.{quoted};
ghost use Rattle.cedar_json_commands.specs.PartialQuestions.{type_alone, open_part, open_action, is_unknown, open_context, open_of, partial_question_in};
ghost use Rattle.cedar_json_commands.specs.PartialQuestionsWritten.{given_written, open_written, context_written, open_question_written, partial_question_written};

use crate::parts::{write_given, write_given_under};
use cedar_json::{
    Members, Unread, find, has_only, is_name, write_context, write_key, write_quoted,
};
use json::Value;
use std::alloc::Global;

/// The type of an object that says no more.
pub fn stated_type<'v>(value: &'v Value<'_>) -> Option<&'v str>
    ensures { option_map (λ text. text.now) result ≡ type_alone (value_view value.now) }
{
    let Value::Object(members) = value else {
        return None;
    };
    if members.len() != 1 {
        return None;
    }
    let member = &members[0];
    if member.0 != "type" {
        return None;
    }
    member.1.as_str()
}

/// Appends a key, the name of a type as a string, and a comma.
fn write_type(out: &mut String, key: &str, name: &str) -> Result<(), Unread>
    ensures told { Tells result (name_spelled name.now) }
    ensures written { Appends result out.old out.new (parts.part_written key.now (quoted name.now)) }
{
    if !is_name(name) {
        return Err(Unread::Unsaid);
    }
    write_key(out, key)?;
    write_quoted(out, name)?;
    out.push(',')?;
    Ok(())
}

/// Appends a principal or a resource, or its type under a key of its own, if anything stands there.
fn write_open_part(
    alloc: Global,
    out: &mut String,
    members: &Members<'_>,
    key: &str,
    type_key: &str,
) -> Result<(), Unread>
    ensures told { Tells result (open_part (under key.now (members_view members.now.items))) }
    ensures written { Appends result out.old out.new (open_written key.now type_key.now (under key.now (members_view members.now.items))) }
{
    let Some(value) = find(members, key) else {
        return Ok(());
    };
    match stated_type(value) {
        Some(name) => write_type(out, type_key, name),
        None => write_given(alloc, out, key, value),
    }
}

fn write_open_action(alloc: Global, out: &mut String, members: &Members<'_>) -> Result<(), Unread>
    ensures told { Tells result (open_action (under (codes "action") (members_view members.now.items))) }
    ensures written { Appends result out.old out.new
        (given_written (codes "action") (under (codes "action") (members_view members.now.items))) }
{
    write_given_under(alloc, out, members, "action", "action")
}

/// Whether the context is said to be unknown.
fn has_unknown_context(members: &Members<'_>) -> bool
    ensures { result ≡ is_unknown (under (codes "context") (members_view members.now.items)) }
{
    match find(members, "context") {
        Some(Value::String(word)) => *word == "unknown",
        _ => false,
    }
}

fn write_open_context(out: &mut String, members: &Members<'_>) -> Result<(), Unread>
    ensures told { HasUniqueKeys (object (members_view members.now.items))
        → Tells result (open_context (under (codes "context") (members_view members.now.items))) }
    ensures written { Appends result out.old out.new (context_written (under (codes "context") (members_view members.now.items))) }
{
    if has_unknown_context(members) {
        return Ok(());
    }
    write_context(out, members)
}

fn write_open_question(alloc: Global, out: &mut String, members: &Members<'_>) -> Result<(), Unread>
    ensures told { HasUniqueKeys (object (members_view members.now.items))
        → Tells result (open_of (members_view members.now.items)) }
    ensures written { Appends result out.old out.new (open_question_written (members_view members.now.items)) }
{
    out.push('{')?;
    write_open_part(alloc, out, members, "principal", "principal_type")?;
    write_open_action(alloc, out, members)?;
    write_open_part(alloc, out, members, "resource", "resource_type")?;
    write_open_context(out, members)?;
    out.push('}')?;
    Ok(())
}

/// Appends a question, with the parts that stand.
pub fn write_partial_question(
    alloc: Global,
    out: &mut String,
    value: &Value<'_>,
) -> Result<(), Unread>
    ensures told { HasUniqueKeys (value_view value.now) → Tells result (partial_question_in (value_view value.now)) }
    ensures written { Appends result out.old out.new (partial_question_written (value_view value.now)) }
{
    let Value::Object(members) = value else {
        return Err(Unread::Unsaid);
    };
    if !has_only(members, &["principal", "action", "resource", "context"]) {
        return Err(Unread::Unsaid);
    }
    write_open_question(alloc, out, members)
}
