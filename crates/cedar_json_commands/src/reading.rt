// Texts of JSON, read and written as the bodies of commands.
ghost use Rattle.std.specs.Prelude.{IfOk, IfErr, string_bytes};
ghost use Rattle.json.specs.Strict.{HasUniqueKeys};
ghost use Rattle.json.specs.Value.{value_view};
ghost use Rattle.cedar_world.specs.Bodies.{string_of, uids_of, link_body, ask_body, tell_body};
ghost use Rattle.cedar_json.specs.Said.{IsUnsaid, OfEachText};
ghost use Rattle.cedar_json_commands.specs.Links.{link_of};
ghost use Rattle.cedar_json_commands.specs.Others.{tell_of, id_of, named_entities_of};
ghost use Rattle.cedar_json_commands.specs.PartialQuestions.{partial_question_of};
ghost use Rattle.cedar_json_commands.specs.Said.{SaysBody};

use crate::links::write_link;
use crate::partial_questions::write_partial_question;
use crate::parts::write_id;
use cedar_json::{
    Unread, are_parents, holds_texts, is_record, parse, write_parents_of, write_value,
};
use json::{Scratch, Value};
use std::alloc::Global;

/// The body for `ask` of the question that a value asks, as [`read_partial_question`] takes it.
pub(crate) fn partial_question_text(alloc: Global, value: &Value<'_>) -> Result<String, Unread>
    requires keys { HasUniqueKeys (value_view value.now) }
    ensures said { IfOk result (λ text. OfEachText (value_view value.now) (λ json. SaysBody partial_question_of ask_body json (string_bytes text))) }
    ensures unsaid { IfErr result (λ why. OfEachText (value_view value.now) (λ json. IsUnsaid (partial_question_of json) why)) }
{
    holds_texts(value);
    let mut text = String::new(alloc);
    write_partial_question(alloc, &mut text, value)?;
    Ok(text)
}

/// The body for `ask` of the question that a text of JSON asks, parts of it perhaps left open: a principal or
/// a resource that is left out is missing, and so is one of which `{"type"}` alone states the type; an action
/// that is left out is missing. No context is an empty one; the string `unknown` makes it unknown.
pub fn read_partial_question(alloc: Global, json: &str) -> Result<String, Unread>
    ensures said { IfOk result (λ text. SaysBody partial_question_of ask_body json.now (string_bytes text)) }
    ensures unsaid { IfErr result (IsUnsaid (partial_question_of json.now)) }
{
    let mut scratch = Scratch::new(alloc);
    let value = parse(alloc, json, &mut scratch)?;
    partial_question_text(alloc, &value)
}

/// The body for `link` of the link that a value says, as [`read_link`] takes it.
pub(crate) fn link_text(alloc: Global, value: &Value<'_>) -> Result<String, Unread>
    requires keys { HasUniqueKeys (value_view value.now) }
    ensures said { IfOk result (λ text. OfEachText (value_view value.now) (λ json. SaysBody link_of link_body json (string_bytes text))) }
    ensures unsaid { IfErr result (λ why. OfEachText (value_view value.now) (λ json. IsUnsaid (link_of json) why)) }
{
    holds_texts(value);
    let mut text = String::new(alloc);
    write_link(alloc, &mut text, value)?;
    Ok(text)
}

/// The body for `link` of the link that a text of JSON says, by `template_id`, `link_id` and `args` or by
/// `templateId`, `newId` and `values`; the slots are `?principal` and `?resource`.
pub fn read_link(alloc: Global, json: &str) -> Result<String, Unread>
    ensures said { IfOk result (λ text. SaysBody link_of link_body json.now (string_bytes text)) }
    ensures unsaid { IfErr result (IsUnsaid (link_of json.now)) }
{
    let mut scratch = Scratch::new(alloc);
    let value = parse(alloc, json, &mut scratch)?;
    link_text(alloc, &value)
}

/// The body for `tell` of the values that a value tells by their names.
pub(crate) fn tell_text(alloc: Global, value: &Value<'_>) -> Result<String, Unread>
    requires keys { HasUniqueKeys (value_view value.now) }
    ensures said { IfOk result (λ text. OfEachText (value_view value.now) (λ json. SaysBody tell_of tell_body json (string_bytes text))) }
    ensures unsaid { IfErr result (λ why. OfEachText (value_view value.now) (λ json. IsUnsaid (tell_of json) why)) }
{
    if !is_record(value) {
        return Err(Unread::Unsaid);
    }
    holds_texts(value);
    let mut text = String::new(alloc);
    write_value(&mut text, value)?;
    Ok(text)
}

/// The body for `tell` of the values that a text of JSON tells by their names.
pub fn read_tell(alloc: Global, json: &str) -> Result<String, Unread>
    ensures said { IfOk result (λ text. SaysBody tell_of tell_body json.now (string_bytes text)) }
    ensures unsaid { IfErr result (IsUnsaid (tell_of json.now)) }
{
    let mut scratch = Scratch::new(alloc);
    let value = parse(alloc, json, &mut scratch)?;
    tell_text(alloc, &value)
}

/// The body for `unlink`, `remove-static` or `remove-template` of the id that a value is, a string.
pub(crate) fn id_text(alloc: Global, value: &Value<'_>) -> Result<String, Unread>
    requires keys { HasUniqueKeys (value_view value.now) }
    ensures said { IfOk result (λ text. OfEachText (value_view value.now) (λ json. SaysBody id_of string_of json (string_bytes text))) }
    ensures unsaid { IfErr result (λ why. OfEachText (value_view value.now) (λ json. IsUnsaid (id_of json) why)) }
{
    holds_texts(value);
    let mut text = String::new(alloc);
    write_id(&mut text, value)?;
    Ok(text)
}

/// The body for `unlink`, `remove-static` or `remove-template` of the id that a text of JSON is, a string.
pub fn read_id(alloc: Global, json: &str) -> Result<String, Unread>
    ensures said { IfOk result (λ text. SaysBody id_of string_of json.now (string_bytes text)) }
    ensures unsaid { IfErr result (IsUnsaid (id_of json.now)) }
{
    let mut scratch = Scratch::new(alloc);
    let value = parse(alloc, json, &mut scratch)?;
    id_text(alloc, &value)
}

/// The body for `remove` of the entities that a value lists.
pub(crate) fn named_entities_text(alloc: Global, value: &Value<'_>) -> Result<String, Unread>
    requires keys { HasUniqueKeys (value_view value.now) }
    ensures said { IfOk result (λ text. OfEachText (value_view value.now) (λ json. SaysBody named_entities_of uids_of json (string_bytes text))) }
    ensures unsaid { IfErr result (λ why. OfEachText (value_view value.now) (λ json. IsUnsaid (named_entities_of json) why)) }
{
    if !are_parents(value) {
        return Err(Unread::Unsaid);
    }
    holds_texts(value);
    let mut text = String::new(alloc);
    write_parents_of(&mut text, value)?;
    Ok(text)
}

/// The body for `remove` of the entities that a text of JSON lists.
pub fn read_named_entities(alloc: Global, json: &str) -> Result<String, Unread>
    ensures said { IfOk result (λ text. SaysBody named_entities_of uids_of json.now (string_bytes text)) }
    ensures unsaid { IfErr result (IsUnsaid (named_entities_of json.now)) }
{
    let mut scratch = Scratch::new(alloc);
    let value = parse(alloc, json, &mut scratch)?;
    named_entities_text(alloc, &value)
}
