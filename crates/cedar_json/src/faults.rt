// Why a text of JSON says nothing, and where. What is told is only tested; by contract a fault is told
// just where nothing is said.
ghost use Rattle.std.specs.Prelude.{◌≡◌, not, is_some, IfOk};
ghost use Rattle.cedar_json.specs.Entities.{entities_of};
ghost use Rattle.cedar_json.specs.FaultTexts.{kind_name};
ghost use Rattle.cedar_json.specs.Questions.{question_of};
ghost use Rattle.cedar_json.specs.Values.{value_of};

use crate::fault_walks::{entities_found, question_found, value_found};
use crate::found::{Found, MaybeFound};
use crate::places::{Place, Step, place_at, place_of, pointer_of, syntax_found};
use crate::reading::{Unread, read_entities, read_question, read_value};
use json::{Error, Scratch, Value};
use std::alloc::{AllocError, Global};

/// What is wrong with a text of JSON.
#[derive(Clone, Copy, Debug, PartialEq, Eq)]
pub enum FaultKind {
    /// It is no UTF-8.
    NotUtf8,
    /// It begins with a byte order mark.
    Mark,
    /// It is no JSON.
    NotJson,
    /// It nests deeper than 128.
    Nesting,
    /// An object has a key twice.
    TwiceKey,
    /// Null is no value of Cedar.
    Null,
    /// A number isn't whole.
    Float,
    /// A number is beyond the longs.
    Range,
    /// What should be an entity is none.
    Uid,
    /// A type's name is none.
    Type,
    /// What should be a call is none, or `__expr` stands there.
    Extn,
    /// A key doesn't belong there.
    Key,
    /// A key is missing.
    Missing,
    /// Something else should stand there: an object, or a list.
    Kind,
}

impl FaultKind {
    /// How it is written.
    pub fn name(self) -> &'static str
        ensures { result.now ≡ kind_name self }
    {
        match self {
            FaultKind::NotUtf8 => "NotUtf8",
            FaultKind::Mark => "Mark",
            FaultKind::NotJson => "NotJson",
            FaultKind::Nesting => "Nesting",
            FaultKind::TwiceKey => "TwiceKey",
            FaultKind::Null => "Null",
            FaultKind::Float => "Float",
            FaultKind::Range => "Range",
            FaultKind::Uid => "Uid",
            FaultKind::Type => "Type",
            FaultKind::Extn => "Extn",
            FaultKind::Key => "Key",
            FaultKind::Missing => "Missing",
            FaultKind::Kind => "Kind",
        }
    }
}

/// A fault and its place.
#[derive(Debug, Drop)]
pub struct JsonFault {
    pub kind: FaultKind,
    /// The JSON pointer of what is wrong; the empty one where the text is no JSON.
    pub pointer: String,
    /// The line, from 1.
    pub line: usize,
    /// The column, from 1, by characters.
    pub column: usize,
    /// The fault in words.
    pub message: String,
}

/// What is looked for in a text.
#[derive(Clone, Copy)]
enum Sought {
    Value,
    Entities,
    Question,
}

fn fault_of(alloc: Global, found: Found<'_>, place: Place) -> Result<JsonFault, AllocError> {
    Ok(JsonFault {
        kind: found.kind,
        pointer: pointer_of(alloc, &found.steps)?,
        line: place.line,
        column: place.column,
        message: found.message(alloc)?,
    })
}

/// The first fault of what a text of JSON has, where a walk finds one.
fn found_in<'v>(alloc: Global, value: &'v Value<'_>, sought: Sought) -> MaybeFound<'v> {
    match sought {
        Sought::Value => value_found(alloc, value),
        Sought::Entities => entities_found(alloc, value),
        Sought::Question => question_found(alloc, value),
    }
}

/// The value of a text, in which keys may come twice; nothing where the text is no JSON. It errs for want of memory.
pub fn parse_loosely<'a>(
    alloc: Global,
    json: &'a str,
    scratch: &'a mut Scratch,
) -> Result<Option<Value<'a>>, AllocError> {
    match Value::parse(alloc, json, scratch) {
        Ok(value) => Ok(Some(value)),
        Err(Error::OutOfMemory) => Err(AllocError),
        Err(_other) => Ok(None),
    }
}

/// The fault of a text that is no JSON. It errs for want of memory.
pub fn syntax_fault(alloc: Global, json: &str) -> Result<JsonFault, AllocError> {
    let (kind, byte) = if json.starts_with('\u{feff}') {
        (FaultKind::Mark, 0)
    } else {
        syntax_found(alloc, json)?
    };
    fault_of(alloc, Found::new(alloc, kind, "", ""), place_at(json, byte))
}

/// The fault of bytes that are no UTF-8, at the byte behind the longest text in front. It errs for want of memory.
pub fn encoding_fault(alloc: Global, json: &[u8]) -> Result<JsonFault, AllocError> {
    let place = match str::from_utf8(json) {
        Ok(text) => place_at(text, text.len()),
        Err(error) => match str::from_utf8(&json[..error.valid_up_to()]) {
            Ok(front) => place_at(front, front.len()),
            Err(_) => place_at("", 0),
        },
    };
    fault_of(alloc, Found::new(alloc, FaultKind::NotUtf8, "", ""), place)
}

/// A fault that a walk found in the value of a text, and its place there; where it found none, the text isn't what is
/// sought. It errs for want of memory.
pub fn placed_fault(
    alloc: Global,
    json: &str,
    found: Option<Found<'_>>,
) -> Result<JsonFault, AllocError> {
    let Some(found) = found else {
        let other = Found::new(alloc, FaultKind::Kind, "the text", "value of its kind");
        return fault_of(alloc, other, place_at(json, 0));
    };
    let place = place_of(alloc, json, &found.steps, found.at_key)?;
    fault_of(alloc, found, place)
}

fn first_fault(alloc: Global, json: &str, sought: Sought) -> Result<JsonFault, AllocError> {
    let mut scratch = Scratch::new(alloc);
    let Some(value) = parse_loosely(alloc, json, &mut scratch)? else {
        return syntax_fault(alloc, json);
    };
    let found = found_in(alloc, &value, sought)?;
    placed_fault(alloc, json, found)
}

/// Why a text of JSON says no value; nothing where it says one. It errs for want of memory alone.
pub fn value_fault(alloc: Global, json: &str) -> Result<Option<JsonFault>, AllocError>
    ensures { IfOk result (λ fault. is_some fault ≡ not (is_some (value_of json.now))) }
{
    match read_value(alloc, json) {
        Ok(_) => Ok(None),
        Err(Unread::Memory) => Err(AllocError),
        Err(Unread::Unsaid) => {
            let fault = first_fault(alloc, json, Sought::Value)?;
            Ok(Some(fault))
        }
    }
}

/// Why a text of JSON says no entities; nothing where it says some. It errs for want of memory alone.
pub fn entities_fault(alloc: Global, json: &str) -> Result<Option<JsonFault>, AllocError>
    ensures { IfOk result (λ fault. is_some fault ≡ not (is_some (entities_of json.now))) }
{
    match read_entities(alloc, json) {
        Ok(_) => Ok(None),
        Err(Unread::Memory) => Err(AllocError),
        Err(Unread::Unsaid) => {
            let fault = first_fault(alloc, json, Sought::Entities)?;
            Ok(Some(fault))
        }
    }
}

/// Why a text of JSON asks no question; nothing where it asks one. It errs for want of memory alone.
pub fn question_fault(alloc: Global, json: &str) -> Result<Option<JsonFault>, AllocError>
    ensures { IfOk result (λ fault. is_some fault ≡ not (is_some (question_of json.now))) }
{
    match read_question(alloc, json) {
        Ok(_) => Ok(None),
        Err(Unread::Memory) => Err(AllocError),
        Err(Unread::Unsaid) => {
            let fault = first_fault(alloc, json, Sought::Question)?;
            Ok(Some(fault))
        }
    }
}
