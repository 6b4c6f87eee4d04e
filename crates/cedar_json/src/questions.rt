// Questions of JSON as Cedar texts.
ghost use Rattle.std.specs.Prelude.{codes, option_map};
ghost use Rattle.json.specs.Json.{object};
ghost use Rattle.json.specs.Strict.{HasUniqueKeys};
ghost use Rattle.json.specs.Value.{value_view, members_view};
ghost use Rattle.cedar_json.specs.Appended.{Appends};
ghost use Rattle.cedar_json.specs.Entities.{entity_in, under, if_there};
ghost use Rattle.cedar_json.specs.EntitiesWritten.{entity_written, fields_written};
ghost use Rattle.cedar_json.specs.Parts as parts;
ghost use Rattle.cedar_json.specs.Questions.{asked_in, part_in, context_in, or_empty, asked_of, question_in};
ghost use Rattle.cedar_json.specs.QuestionsWritten.{asked_written, part_written, question_written, asks_written};
ghost use Rattle.cedar_json.specs.Said.{Tells};

use crate::entities::{has_fields, is_entity};
use crate::entities_written::{write_entity, write_fields};
use crate::object_keys::has_only;
use crate::reading::Unread;
use crate::told::write_told;
use crate::writing::{Members, find, write_key};
use json::Value;
use std::alloc::Global;

/// Appends an entity of a question, which may also stand in a string.
pub fn write_asked(alloc: Global, out: &mut String, value: &Value<'_>) -> Result<(), Unread>
    ensures told { Tells result (asked_in (value_view value.now)) }
    ensures written { Appends result out.old out.new (asked_written (value_view value.now)) }
{
    match value {
        Value::String(text) => write_told(alloc, out, text),
        Value::Object(_) => write_object(out, value),
        Value::Null | Value::Bool(_) | Value::Number(_) | Value::Array(_) => Err(Unread::Unsaid),
    }
}

fn write_object(out: &mut String, value: &Value<'_>) -> Result<(), Unread>
    ensures told { Tells result (entity_in (value_view value.now)) }
    ensures written { Appends result out.old out.new (entity_written (value_view value.now)) }
{
    if !is_entity(value) {
        return Err(Unread::Unsaid);
    }
    write_entity(out, value)?;
    Ok(())
}

fn write_part(
    alloc: Global,
    out: &mut String,
    members: &Members<'_>,
    key: &str,
) -> Result<(), Unread>
    ensures told { Tells result (part_in (under key.now (members_view members.now.items))) }
    ensures written { Appends result out.old out.new
        (parts.part_written key.now (part_written (under key.now (members_view members.now.items)))) }
{
    let Some(value) = find(members, key) else {
        return Err(Unread::Unsaid);
    };
    write_key(out, key)?;
    write_asked(alloc, out, value)?;
    out.push(',')?;
    Ok(())
}

/// Appends the context of a question; where none stands there, an empty one.
pub fn write_context(out: &mut String, members: &Members<'_>) -> Result<(), Unread>
    ensures told { HasUniqueKeys (object (members_view members.now.items))
        → Tells result (option_map or_empty (if_there context_in (under (codes "context") (members_view members.now.items)))) }
    ensures written { Appends result out.old out.new
        (parts.part_written (codes "context") (fields_written (under (codes "context") (members_view members.now.items)))) }
{
    if !has_fields(members, "context") {
        return Err(Unread::Unsaid);
    }
    write_fields(out, members, "context")?;
    Ok(())
}

fn write_question(alloc: Global, out: &mut String, members: &Members<'_>) -> Result<(), Unread>
    ensures told { HasUniqueKeys (object (members_view members.now.items))
        → Tells result (asked_of (members_view members.now.items)) }
    ensures written { Appends result out.old out.new (question_written (members_view members.now.items)) }
{
    out.push('{')?;
    write_part(alloc, out, members, "principal")?;
    write_part(alloc, out, members, "action")?;
    write_part(alloc, out, members, "resource")?;
    write_context(out, members)?;
    out.push('}')?;
    Ok(())
}

/// Appends a question, with all of its parts.
pub fn write_asks(alloc: Global, out: &mut String, value: &Value<'_>) -> Result<(), Unread>
    ensures told { HasUniqueKeys (value_view value.now) → Tells result (question_in (value_view value.now)) }
    ensures written { Appends result out.old out.new (asks_written (value_view value.now)) }
{
    let Value::Object(members) = value else {
        return Err(Unread::Unsaid);
    };
    if !has_only(members, &["principal", "action", "resource", "context"]) {
        return Err(Unread::Unsaid);
    }
    write_question(alloc, out, members)
}
