// Links of JSON as Cedar texts.
ghost use Rattle.std.specs.Prelude.{Some, codes};
ghost use Rattle.json.specs.Find.{as_str};
ghost use Rattle.json.specs.Json.{object};
ghost use Rattle.json.specs.Strict.{HasUniqueKeys};
ghost use Rattle.json.specs.Value.{value_view, members_view};
ghost use Rattle.cedar_world.specs.Bodies.{and_then};
ghost use Rattle.cedar_json.specs.Appended.{Appends};
ghost use Rattle.cedar_json.specs.Entities.{under};
ghost use Rattle.cedar_json.specs.Parts as parts;
ghost use Rattle.cedar_json.specs.Said.{Tells};
ghost use Rattle.cedar_json_commands.specs.Links.{link_by, with_slots, link_under, link_of_members, link_in};
ghost use Rattle.cedar_json_commands.specs.LinksWritten.{string_part, members_of, link_by_written, link_under_written, link_of_members_written, link_written};
ghost use Rattle.cedar_json_commands.specs.Others.{string_written};

use crate::parts::{write_given_under, write_id};
use cedar_json::{Members, Unread, find, has_only, write_key};
use json::Value;
use std::alloc::Global;

/// Appends a key, a string and a comma.
fn write_string(out: &mut String, key: &str, value: &Value<'_>) -> Result<(), Unread>
    ensures told { Tells result (as_str (value_view value.now)) }
    ensures written { Appends result out.old out.new (parts.part_written key.now (string_written (value_view value.now))) }
{
    write_key(out, key)?;
    write_id(out, value)?;
    out.push(',')?;
    Ok(())
}

/// Appends under `key` the string that stands under `from`.
fn write_string_under(
    out: &mut String,
    members: &Members<'_>,
    from: &str,
    key: &str,
) -> Result<(), Unread>
    ensures told { Tells result (and_then (under from.now (members_view members.now.items)) as_str) }
    ensures written { Appends result out.old out.new
        (parts.part_written key.now (string_part (under from.now (members_view members.now.items)))) }
{
    match find(members, from) {
        Some(value) => write_string(out, key, value),
        None => Err(Unread::Unsaid),
    }
}

/// Appends a link, its template and its id under these keys, by its slots.
fn write_link_by(
    alloc: Global,
    out: &mut String,
    members: &Members<'_>,
    template: &str,
    id: &str,
    slots: &Members<'_>,
) -> Result<(), Unread>
    ensures told { Tells result (link_by (and_then (under template.now (members_view members.now.items)) as_str)
        (and_then (under id.now (members_view members.now.items)) as_str) (members_view slots.now.items)) }
    ensures written { Appends result out.old out.new (link_by_written (under template.now (members_view members.now.items))
        (under id.now (members_view members.now.items)) (members_view slots.now.items)) }
{
    out.push('{')?;
    write_string_under(out, members, template, "template")?;
    write_string_under(out, members, id, "id")?;
    write_given_under(alloc, out, slots, "?principal", "principal")?;
    write_given_under(alloc, out, slots, "?resource", "resource")?;
    out.push('}')?;
    Ok(())
}

/// Appends a link, its template and its id under these keys, by the object of its slots.
fn write_link_with(
    alloc: Global,
    out: &mut String,
    members: &Members<'_>,
    template: &str,
    id: &str,
    slots: &Value<'_>,
) -> Result<(), Unread>
    ensures told { HasUniqueKeys (value_view slots.now) → Tells result
        (with_slots (and_then (under template.now (members_view members.now.items)) as_str)
        (and_then (under id.now (members_view members.now.items)) as_str) (Some (value_view slots.now))) }
    ensures written { Appends result out.old out.new (link_by_written (under template.now (members_view members.now.items))
        (under id.now (members_view members.now.items)) (members_of (Some (value_view slots.now)))) }
{
    let Value::Object(given) = slots else {
        return Err(Unread::Unsaid);
    };
    if !has_only(given, &["?principal", "?resource"]) {
        return Err(Unread::Unsaid);
    }
    write_link_by(alloc, out, members, template, id, given)
}

/// Appends a link whose template, id and slots stand under these keys.
fn write_link_under(
    alloc: Global,
    out: &mut String,
    members: &Members<'_>,
    template: &str,
    id: &str,
    slots: &str,
) -> Result<(), Unread>
    ensures told { HasUniqueKeys (object (members_view members.now.items))
        → Tells result (link_under template.now id.now slots.now (members_view members.now.items)) }
    ensures written { Appends result out.old out.new
        (link_under_written template.now id.now slots.now (members_view members.now.items)) }
{
    match find(members, slots) {
        Some(value) => write_link_with(alloc, out, members, template, id, value),
        None => Err(Unread::Unsaid),
    }
}

/// Appends a link in one of its two spellings.
fn write_link_of(alloc: Global, out: &mut String, members: &Members<'_>) -> Result<(), Unread>
    ensures told { HasUniqueKeys (object (members_view members.now.items))
        → Tells result (link_of_members (members_view members.now.items)) }
    ensures written { Appends result out.old out.new (link_of_members_written (members_view members.now.items)) }
{
    if has_only(members, &["template_id", "link_id", "args"]) {
        return write_link_under(alloc, out, members, "template_id", "link_id", "args");
    }
    if has_only(members, &["templateId", "newId", "values"]) {
        return write_link_under(alloc, out, members, "templateId", "newId", "values");
    }
    Err(Unread::Unsaid)
}

/// Appends a link.
pub fn write_link(alloc: Global, out: &mut String, value: &Value<'_>) -> Result<(), Unread>
    ensures told { HasUniqueKeys (value_view value.now) → Tells result (link_in (value_view value.now)) }
    ensures written { Appends result out.old out.new (link_written (value_view value.now)) }
{
    match value {
        Value::Object(members) => write_link_of(alloc, out, members),
        _ => Err(Unread::Unsaid),
    }
}
