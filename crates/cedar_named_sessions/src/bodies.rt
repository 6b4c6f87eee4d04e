// Bodies of commands by ids.
ghost use Rattle.std.specs.Prelude.{◌≡◌, IfOk, IfErr, string_bytes};
ghost use Rattle.json.specs.Value.{value_view};
ghost use Rattle.cedar_json.specs.Said.{IsUnsaid};
ghost use Rattle.cedar_json.specs.Values.{IsTextOf};
ghost use Rattle.cedar_language.specs.Tree.{Lit, String as a_string};
ghost use Rattle.cedar_named_sessions.specs.Links.{link_by_slots, link_json, IsLinkText};

use cedar_json::{Unread, holds_texts, parse, write_quoted};
use cedar_json_commands::write_link;
use json::{Scratch, Value};
use std::alloc::{AllocError, Global};

/// A body that is this string. Refused for memory alone.
pub(crate) fn id_body(alloc: Global, id: &str) -> Result<String, AllocError>
    ensures { IfOk result (λ text. IsTextOf (string_bytes text) (Lit (a_string id.now))) }
{
    let mut text = String::new(alloc);
    write_quoted(&mut text, id)?;
    Ok(text)
}

/// A body of the link of a template under an id, by the entities of its slots that JSON says.
pub(crate) fn link_text<'t>(
    alloc: Global,
    template: &'t str,
    id: &'t str,
    slots: &'t str,
) -> Result<String, Unread>
    ensures said { IfOk result (λ text. IsLinkText template.now id.now slots.now (string_bytes text)) }
    ensures unsaid { IfErr result (IsUnsaid (link_by_slots template.now id.now slots.now)) }
{
    let mut scratch = Scratch::new(alloc);
    let slots = match parse(alloc, slots, &mut scratch) {
        Ok(slots) => slots,
        Err(unread) => return Err(unread),
    };
    let link = link_value(alloc, template, id, slots)?;
    holds_texts(&link);
    let mut text = String::new(alloc);
    write_link(alloc, &mut text, &link)?;
    Ok(text)
}

/// The link as an object of JSON. Refused for memory alone.
fn link_value<'t>(
    alloc: Global,
    template: &'t str,
    id: &'t str,
    slots: Value<'t>,
) -> Result<Value<'t>, AllocError>
    ensures { IfOk result (λ link. value_view link ≡ link_json template.now id.now (value_view slots.entry)) }
{
    let mut members = Vec::new(alloc);
    members.push(("templateId", Value::String(template)))?;
    members.push(("newId", Value::String(id)))?;
    members.push(("values", slots))?;
    Ok(Value::Object(members))
}
