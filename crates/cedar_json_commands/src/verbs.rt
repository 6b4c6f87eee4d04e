// JSON as the body of each command.
ghost use Rattle.std.specs.Prelude.{◌≡◌, IfOk, IfErr, string_bytes};
ghost use Rattle.json.specs.Strict.{HasUniqueKeys};
ghost use Rattle.json.specs.Value.{value_view};
ghost use Rattle.cedar_json.specs.Said.{OfEachText};
ghost use Rattle.cedar_json_commands.specs.Verbs.{command_of, SaysAs, SaysNothingAs};

use crate::reading::{id_text, link_text, named_entities_text, partial_question_text, tell_text};
use cedar_frames::Verb;
use cedar_json::{Unread, entities_text, parse, question_text};
use json::{Scratch, Value};
use std::alloc::Global;

/// What JSON is read as: the body of a command.
#[derive(Clone, Copy, Debug, PartialEq, Eq)]
pub enum JsonVerb {
    /// A link of a template.
    Link,
    /// The id of a link.
    Unlink,
    /// The id of a static policy.
    RemoveStatic,
    /// The id of a template.
    RemoveTemplate,
    /// Entities to add.
    Add,
    /// Entities to add or replace.
    Put,
    /// Entities to take away.
    Remove,
    /// A question, all parts of which stand; no context is an empty one.
    Ask,
    /// A question, parts of which may be left open.
    AskPartial,
    /// Values, by the names of what a question left open.
    Tell,
}

impl JsonVerb {
    /// The command whose body it is: both questions are asked.
    pub fn verb(self) -> Verb
        ensures { result ≡ command_of self }
    {
        match self {
            JsonVerb::Link => Verb::Link,
            JsonVerb::Unlink => Verb::Unlink,
            JsonVerb::RemoveStatic => Verb::RemoveStatic,
            JsonVerb::RemoveTemplate => Verb::RemoveTemplate,
            JsonVerb::Add => Verb::Add,
            JsonVerb::Put => Verb::Put,
            JsonVerb::Remove => Verb::Remove,
            JsonVerb::Ask | JsonVerb::AskPartial => Verb::Ask,
            JsonVerb::Tell => Verb::Tell,
        }
    }
}

/// The body of a command of what a value of JSON says as that.
pub fn value_body(alloc: Global, verb: JsonVerb, value: &Value<'_>) -> Result<String, Unread>
    requires keys { HasUniqueKeys (value_view value.now) }
    ensures said { IfOk result (λ text. OfEachText (value_view value.now) (λ json. SaysAs verb json (string_bytes text))) }
    ensures unsaid { IfErr result (λ why. OfEachText (value_view value.now) (λ json. SaysNothingAs verb json why)) }
{
    match verb {
        JsonVerb::Link => link_text(alloc, value),
        JsonVerb::Unlink => id_text(alloc, value),
        JsonVerb::RemoveStatic => id_text(alloc, value),
        JsonVerb::RemoveTemplate => id_text(alloc, value),
        JsonVerb::Add => entities_text(alloc, value),
        JsonVerb::Put => entities_text(alloc, value),
        JsonVerb::Remove => named_entities_text(alloc, value),
        JsonVerb::Ask => question_text(alloc, value),
        JsonVerb::AskPartial => partial_question_text(alloc, value),
        JsonVerb::Tell => tell_text(alloc, value),
    }
}

/// The body of a command of what a text of JSON says as that.
pub fn body_text(alloc: Global, verb: JsonVerb, json: &str) -> Result<String, Unread>
    ensures said { IfOk result (λ text. SaysAs verb json.now (string_bytes text)) }
    ensures unsaid { IfErr result (SaysNothingAs verb json.now) }
{
    let mut scratch = Scratch::new(alloc);
    let value = parse(alloc, json, &mut scratch)?;
    value_body(alloc, verb, &value)
}
