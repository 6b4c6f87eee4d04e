// Commands that stand in lines of JSON.
ghost use Rattle.std.specs.Prelude.{◌≡◌, MatchOption};
ghost use Rattle.json.specs.Value.{value_view};
ghost use Rattle.cedar_session.specs.Owning.{owned_world, owned_setting};
ghost use Rattle.cedar_calls.specs.Lines.{name_of, IsNoName, single, IsNotSingle, IsNoCommand, IsCommandIn, LineStep, LoadStep, CommandStep};

use crate::answering::{JsonReply, Unanswered, answer_value};
use cedar_json_commands::JsonVerb;
use cedar_session::{BODY_LIMIT, ExtensionFunctionObject, OwnedSession, Verb};
use json::{Error, Scratch, Value};
use std::alloc::Global;

/// What a line of JSON is answered.
#[derive(Debug, Drop)]
pub enum LineReply {
    /// The line is no object of one command.
    NoCommand,
    /// There was no memory to read the line.
    Memory,
    /// What the command is answered.
    Answered(JsonReply),
}

/// The command of a line.
enum LineCommand<'v, 'a> {
    Load(&'a str),
    Json(JsonVerb, &'v Value<'a>),
}

/// The commands that take JSON, by their names in a line.
pub(crate) fn verb_named(name: &str) -> Option<JsonVerb>
    ensures { MatchOption result (IsNoName name.now) (λ verb. name.now ≡ name_of verb) }
{
    match name {
        "link" => Some(JsonVerb::Link),
        "unlink" => Some(JsonVerb::Unlink),
        "removeStatic" => Some(JsonVerb::RemoveStatic),
        "removeTemplate" => Some(JsonVerb::RemoveTemplate),
        "add" => Some(JsonVerb::Add),
        "put" => Some(JsonVerb::Put),
        "remove" => Some(JsonVerb::Remove),
        "ask" => Some(JsonVerb::Ask),
        "askPartial" => Some(JsonVerb::AskPartial),
        "tell" => Some(JsonVerb::Tell),
        _ => None,
    }
}

/// The one member of an object.
pub(crate) fn only_member<'v, 'a>(value: &'v Value<'a>) -> Option<&'v (&'a str, Value<'a>)>
    ensures { MatchOption result (IsNotSingle (value_view value.now)) (λ m. value_view value.now ≡ single m.now.0.now (value_view m.now.1)) }
{
    let Value::Object(members) = value else {
        return None;
    };
    if members.len() != 1 {
        return None;
    }
    Some(&members[0])
}

/// The command that a value gives: an object of its name and its body alone.
fn command_in<'v, 'a>(value: &'v Value<'a>) -> Option<LineCommand<'v, 'a>>
    ensures { MatchOption result (IsNoCommand (value_view value.now)) (IsCommandIn (value_view value.now)) }
{
    let (name, body) = only_member(value)?;
    if *name == "load" {
        return Some(LineCommand::Load(body.as_str()?));
    }
    Some(LineCommand::Json(verb_named(name)?, body))
}

/// Answers a line of JSON: an object with one command and its body, as `{"ask": {..}}`. The body of `load` is a string
/// with the text of policies; what the others take is in `docs/JSON.md`. What is no command changes nothing, and so does what is
/// refused. The scratch is room to read in, which one line leaves to the next.
pub fn answer_line<F: ExtensionFunctionObject>(
    alloc: Global,
    session: &mut OwnedSession<'_, F>,
    scratch: &mut Scratch,
    line: &str,
) -> LineReply
    ensures step { LineStep (owned_setting session.old) (owned_world session.old) line.now result (owned_world session.new) }
    ensures setting { owned_setting session.new ≡ owned_setting session.old }
{
    let value = match Value::parse_strict(alloc, line, scratch) {
        Ok(value) => value,
        Err(Error::OutOfMemory) => return LineReply::Memory,
        Err(_) => return LineReply::NoCommand,
    };
    match command_in(&value) {
        Some(LineCommand::Load(text)) => LineReply::Answered(load_policies(session, text)),
        Some(LineCommand::Json(verb, body)) => {
            LineReply::Answered(answer_value(alloc, session, verb, body))
        }
        None => LineReply::NoCommand,
    }
}

/// Loads the policies of a text.
fn load_policies<F: ExtensionFunctionObject>(
    session: &mut OwnedSession<'_, F>,
    text: &str,
) -> JsonReply
    ensures step { LoadStep (owned_setting session.old) (owned_world session.old) text.now result (owned_world session.new) }
    ensures setting { owned_setting session.new ≡ owned_setting session.old }
{
    if text.len() > BODY_LIMIT {
        return JsonReply::Unread(Unanswered::Long);
    }
    JsonReply::Replied(session.answer(Verb::Load, text.as_bytes()))
}
