// A command of which JSON says the body.
ghost use Rattle.json.specs.Strict.{HasUniqueKeys};
ghost use Rattle.json.specs.Value.{value_view};
ghost use Rattle.cedar_calls.specs.Steps.{JsonStep, ValueStep, unanswered};
ghost use Rattle.cedar_session.specs.Owning.{owned_world, owned_setting};
ghost use Rattle.std.specs.Prelude.{◌≡◌};

use cedar_json::{Unread, parse};
use cedar_json_commands::{JsonVerb, value_body};
use cedar_session::{BODY_LIMIT, ExtensionFunctionObject, OwnedSession, Refusal, Reply};
use json::{Scratch, Value};
use std::alloc::Global;

/// Why JSON is no command, so that the session is sent nothing.
#[derive(Clone, Copy, Debug, PartialEq, Eq)]
pub enum Unanswered {
    /// The text says nothing as the body of this command: it is no JSON, a key stands twice, or it says something else.
    Unsaid,
    /// The Cedar text that says the same is longer than the body of a command, 1,048,576 bytes.
    Long,
    /// There was no memory for that text.
    Memory,
}

impl Unanswered {
    /// Why what wasn't read isn't answered.
    fn of(unread: Unread) -> Unanswered
        ensures { result ≡ unanswered unread }
    {
        match unread {
            Unread::Unsaid => Unanswered::Unsaid,
            Unread::Memory => Unanswered::Memory,
        }
    }

    /// How it is written.
    pub(crate) fn name(self) -> &'static str {
        match self {
            Unanswered::Unsaid => "Json",
            Unanswered::Long => "Long",
            Unanswered::Memory => "Memory",
        }
    }
}

/// What a command of JSON is answered.
#[derive(Debug, Drop)]
pub enum JsonReply {
    /// Nothing was asked of the session.
    Unread(Unanswered),
    /// What the session replied.
    Replied(Result<Reply, Refusal>),
}

/// Answers a command whose body a value of JSON says: the session is sent a Cedar text that says just the same, and its
/// reply is handed on. Where the JSON says no such body, or one that is too long, the session stays as it was; and so it
/// does where it refuses the command.
pub fn answer_value<F: ExtensionFunctionObject>(
    alloc: Global,
    session: &mut OwnedSession<'_, F>,
    verb: JsonVerb,
    value: &Value<'_>,
) -> JsonReply
    requires keys { HasUniqueKeys (value_view value.now) }
    ensures step { ValueStep (owned_setting session.old) (owned_world session.old) verb (value_view value.now) result (owned_world session.new) }
    ensures setting { owned_setting session.new ≡ owned_setting session.old }
{
    let text = match value_body(alloc, verb, value) {
        Ok(text) => text,
        Err(unread) => return JsonReply::Unread(Unanswered::of(unread)),
    };
    if text.len() > BODY_LIMIT {
        return JsonReply::Unread(Unanswered::Long);
    }
    JsonReply::Replied(session.answer(verb.verb(), text.as_str().as_bytes()))
}

/// Answers a command whose body a text of JSON says, as [`answer_value`] does.
pub fn answer_json<F: ExtensionFunctionObject>(
    alloc: Global,
    session: &mut OwnedSession<'_, F>,
    verb: JsonVerb,
    json: &str,
) -> JsonReply
    ensures step { JsonStep (owned_setting session.old) (owned_world session.old) verb json.now result (owned_world session.new) }
    ensures setting { owned_setting session.new ≡ owned_setting session.old }
{
    let mut scratch = Scratch::new(alloc);
    match parse(alloc, json, &mut scratch) {
        Ok(value) => answer_value(alloc, session, verb, &value),
        Err(unread) => JsonReply::Unread(Unanswered::of(unread)),
    }
}
