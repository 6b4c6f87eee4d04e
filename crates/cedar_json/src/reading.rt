// Texts of JSON, read and written as Cedar texts.
ghost use Rattle.std.specs.Prelude.{◌≡◌, ◌≤◌, All, Some, IfOk, IfErr, length, map, string_bytes};
ghost use Rattle.std.specs.Str.{IsUtf8};
ghost use Rattle.json.specs.Json.{document};
ghost use Rattle.json.specs.Strict.{HasUniqueKeys};
ghost use Rattle.json.specs.Value.{value_view, items_view, members_view};
ghost use Rattle.cedar_json.specs.Bodies.{SaysBodies, IsUnsplit};
ghost use Rattle.cedar_json.specs.Entities.{entities_of};
ghost use Rattle.cedar_json.specs.Questions.{question_of};
ghost use Rattle.cedar_json.specs.Said.{SaysEntities, SaysQuestion, IsUnsaid, IsUnparsed, OfEachText};
ghost use Rattle.cedar_json.specs.Values.{value_of, Says};
ghost use Rattle.cedar_json.specs.Written.{AreTexts, ItemsAreTexts, MembersAreTexts};

use crate::bodies::{SplitError, split};
use crate::entities::is_entities;
use crate::entities_written::write_entities;
use crate::questions::write_asks;
use crate::values::is_value;
use crate::writing::{Members, write_value};
use json::{Error, Scratch, Value};
use std::alloc::{AllocError, Global};

/// Why a text of JSON was not written as a Cedar text.
#[derive(Clone, Copy, Debug)]
pub enum Unread {
    /// Memory ran out.
    Memory,
    /// The text says nothing of the kind that was asked for.
    Unsaid,
}

impl From<AllocError> for Unread {
    ghost use Rattle.std.specs.Prelude.{◌≡◌};
    ghost use Rattle.cedar_json.specs.declared.reading.Unread.TheVariants.{Memory};

    ghost from_gives = { λ _ e. e ≡ Memory };

    fn from(_error: AllocError) -> Unread {
        Unread::Memory
    }
}

// A law: what a `str` holds is a text. It runs no code.
fn is_text(text: &str)
    ensures { IsUtf8 text.now }
{
    let _ = text;
}

/// A law: what a value holds are texts. It goes through the value, and does nothing there.
#[cycle(texts)]
pub fn holds_texts(value: &Value<'_>)
    ensures { AreTexts (value_view value.now) }
{
    match value {
        Value::Null => {}
        Value::Bool(_) => {}
        Value::Number(digits) => is_text(digits),
        Value::String(text) => is_text(text),
        Value::Array(items) => items_hold_texts(items),
        Value::Object(members) => members_hold_texts(members),
    }
}

#[cycle(texts)]
fn items_hold_texts(items: &Vec<Value<'_>>)
    ensures { ItemsAreTexts (items_view items.now.items) }
{
    for item in items {
        holds_texts(item);
    }
}

#[cycle(texts)]
fn members_hold_texts(members: &Members<'_>)
    ensures { MembersAreTexts (members_view members.now.items) }
{
    for member in members {
        is_text(member.0);
        holds_texts(&member.1);
    }
}

/// The value of a text in which no object has a key twice. It lives as long as the text and the scratch.
///
/// `Unsaid` means that the text is no JSON, or that a key stands twice.
pub fn parse<'a>(
    alloc: Global,
    json: &'a str,
    scratch: &'a mut Scratch,
) -> Result<Value<'a>, Unread>
    ensures read { IfOk result (λ value. (document json.now ≡ Some (value_view value)) × HasUniqueKeys (value_view value)) }
    ensures unread { IfErr result (IsUnparsed json.now) }
{
    match Value::parse_strict(alloc, json, scratch) {
        Ok(value) => Ok(value),
        Err(Error::OutOfMemory) => Err(Unread::Memory),
        Err(Error::Invalid) => Err(Unread::Unsaid),
        Err(Error::DuplicateKey) => Err(Unread::Unsaid),
        Err(Error::TooLong) => unreachable!(),
    }
}

/// The Cedar text of the value that a text of JSON says.
pub fn read_value(alloc: Global, json: &str) -> Result<String, Unread>
    ensures said { IfOk result (λ text. Says json.now (string_bytes text)) }
    ensures unsaid { IfErr result (IsUnsaid (value_of json.now)) }
{
    let mut scratch = Scratch::new(alloc);
    let value = parse(alloc, json, &mut scratch)?;
    if !is_value(&value) {
        return Err(Unread::Unsaid);
    }
    holds_texts(&value);
    let mut text = String::new(alloc);
    write_value(&mut text, &value)?;
    Ok(text)
}

/// The Cedar text of the entities that a value of JSON says.
pub fn entities_text(alloc: Global, value: &Value<'_>) -> Result<String, Unread>
    requires keys { HasUniqueKeys (value_view value.now) }
    ensures said { IfOk result (λ text. OfEachText (value_view value.now) (λ json. SaysEntities json (string_bytes text))) }
    ensures unsaid { IfErr result (λ why. OfEachText (value_view value.now) (λ json. IsUnsaid (entities_of json) why)) }
{
    if !is_entities(value) {
        return Err(Unread::Unsaid);
    }
    holds_texts(value);
    let mut text = String::new(alloc);
    write_entities(&mut text, value)?;
    Ok(text)
}

/// The Cedar text of the entities that a text of JSON says.
pub fn read_entities(alloc: Global, json: &str) -> Result<String, Unread>
    ensures said { IfOk result (λ text. SaysEntities json.now (string_bytes text)) }
    ensures unsaid { IfErr result (IsUnsaid (entities_of json.now)) }
{
    let mut scratch = Scratch::new(alloc);
    let value = parse(alloc, json, &mut scratch)?;
    entities_text(alloc, &value)
}

/// The Cedar text of the question that a value of JSON asks, as [`read_question`] takes it.
pub fn question_text(alloc: Global, value: &Value<'_>) -> Result<String, Unread>
    requires keys { HasUniqueKeys (value_view value.now) }
    ensures said { IfOk result (λ text. OfEachText (value_view value.now) (λ json. SaysQuestion json (string_bytes text))) }
    ensures unsaid { IfErr result (λ why. OfEachText (value_view value.now) (λ json. IsUnsaid (question_of json) why)) }
{
    holds_texts(value);
    let mut text = String::new(alloc);
    write_asks(alloc, &mut text, value)?;
    Ok(text)
}

/// The Cedar text of the question that a text of JSON asks: its principal, action and resource, each as
/// `{"type", "id"}`, under `__entity` or as Cedar writes it in a string, and perhaps a context.
pub fn read_question(alloc: Global, json: &str) -> Result<String, Unread>
    ensures said { IfOk result (λ text. SaysQuestion json.now (string_bytes text)) }
    ensures unsaid { IfErr result (IsUnsaid (question_of json.now)) }
{
    let mut scratch = Scratch::new(alloc);
    let value = parse(alloc, json, &mut scratch)?;
    question_text(alloc, &value)
}

/// The entities that a text of JSON says as Cedar texts of at most `limit` bytes, in order, none split.
///
/// `TooLong` comes where an entity doesn't fit into a body of its own: the index is that of the first.
pub fn entity_texts(alloc: Global, json: &str, limit: usize) -> Result<Vec<String>, SplitError>
    ensures said { IfOk result (λ texts. SaysBodies json.now (map string_bytes texts.items)) }
    ensures within { IfOk result (λ texts. All (λ text. length text ≤ limit) (map string_bytes texts.items)) }
    ensures unsplit { IfErr result (IsUnsplit json.now limit) }
{
    let mut scratch = Scratch::new(alloc);
    let value = match parse(alloc, json, &mut scratch) {
        Ok(value) => value,
        Err(Unread::Memory) => return Err(SplitError::Memory),
        Err(Unread::Unsaid) => return Err(SplitError::Unsaid),
    };
    if !is_entities(&value) {
        return Err(SplitError::Unsaid);
    }
    holds_texts(&value);
    split(alloc, &value, limit)
}
