// What a handle holds.
ghost use Rattle.std.specs.Prelude.{◌≡◌, ◌≤◌, IsTrue, IsFalse, IfOk, IfNone, IfSome, length, string_bytes};
ghost use Rattle.cedar_frames.specs.Heads.{body_limit};
ghost use Rattle.cedar_replies.specs.Replies.{reply_of};
ghost use Rattle.cedar_world.specs.RunText.{BodyStep};
ghost use Rattle.cedar_refusals.specs.Reasons.{ShowsWhy};
ghost use Rattle.cedar_session.specs.Owning.{owned_setting};
ghost use Rattle.cedar_calls.specs.Steps.{JsonStep};
ghost use Rattle.cedar_c.specs.Json.{IsJsonWord, DoesJson, TellsAnswer, BytesStep};
ghost use Rattle.cedar_c.specs.Opened.{IsNewWithin, IsNewStandardWithin, IsCommand, Does, TellsWhy, answer_line, unread_line, setting_in, world_in};

use crate::json_words::json_verb_named;
use cedar_calls::{JsonReply, JsonVerb, Unanswered, answer_json};
use cedar_extension_types::TypeFunction;
use cedar_extension_types::tables::standard_table;
use cedar_frames::{BODY_LIMIT, Verb};
use cedar_json::answer_text;
use cedar_messages::{Fault, faults_json};
use cedar_refusals::{Seen, why};
use cedar_session::{
    ExtensionFunctionObject, Extensions, OwnedSession, Refusal, Reply, line_in_memory,
};
use std::alloc::{AllocError, Global};

/// The session of a handle, over one table or the other.
#[derive(Drop)]
pub enum Tabled {
    /// It knows `unknown` alone.
    Bare(OwnedSession<'static>),
    /// It knows Cedar's extension types too.
    Standard(OwnedSession<'static, TypeFunction>),
}

impl Tabled {
    /// Answers the command of a verb and a body, as `OwnedSession::answer` does.
    fn answer(&mut self, verb: Verb, body: &[u8]) -> Result<Reply, Refusal>
        requires { length body.now ≤ body_limit }
        ensures step { BodyStep (setting_in self.old) (world_in self.old) verb body.now (reply_of result) (world_in self.new) }
        ensures setting { setting_in self.new ≡ setting_in self.old }
    {
        match self {
            Tabled::Bare(session) => session.answer(verb, body),
            Tabled::Standard(session) => session.answer(verb, body),
        }
    }

    /// Answers a command of which a text of JSON says the body, as `answer_json` of `cedar_calls` does.
    fn answer_text(&mut self, alloc: Global, verb: JsonVerb, json: &str) -> JsonReply
        ensures step { JsonStep (setting_in self.old) (world_in self.old) verb json.now result (world_in self.new) }
        ensures setting { setting_in self.new ≡ setting_in self.old }
    {
        match self {
            Tabled::Bare(session) => answer_json(alloc, session, verb, json),
            Tabled::Standard(session) => answer_json(alloc, session, verb, json),
        }
    }

    /// The same of bytes; where they are no text, they say nothing.
    fn answer_bytes(&mut self, alloc: Global, verb: JsonVerb, json: &[u8]) -> JsonReply
        ensures step { BytesStep (setting_in self.old) (world_in self.old) verb json.now result (world_in self.new) }
        ensures setting { setting_in self.new ≡ setting_in self.old }
    {
        match str::from_utf8(json) {
            Ok(json) => self.answer_text(alloc, verb, json),
            Err(_) => JsonReply::Unread(Unanswered::Unsaid),
        }
    }

    /// The faults of the command of a verb and a body, as `cedar_refusals` finds why it is refused.
    fn why(&self, alloc: Global, verb: Verb, body: &[u8]) -> Result<Vec<Fault>, AllocError>
        ensures { IfOk result (λ faults. ShowsWhy (setting_in self.now) verb body.now faults.items) }
    {
        match self {
            Tabled::Bare(session) => why_owned(alloc, session, verb, body),
            Tabled::Standard(session) => why_owned(alloc, session, verb, body),
        }
    }
}

fn why_owned<F: ExtensionFunctionObject>(
    alloc: Global,
    session: &OwnedSession<'_, F>,
    verb: Verb,
    body: &[u8],
) -> Result<Vec<Fault>, AllocError>
    ensures { IfOk result (λ faults. ShowsWhy (owned_setting session.now) verb body.now faults.items) }
{
    let untold = session.untold()?;
    let seen = Seen {
        extensions: session.extensions(),
        depth: session.depth(),
        entities: session.entities(),
        untold: untold.as_slice(),
        told: session.told(),
    };
    why(alloc, &seen, verb, body)
}

/// The line that tells why JSON was no command.
fn unread_line(alloc: Global, why: Unanswered) -> Result<Vec<u8>, AllocError>
    ensures { IfOk result (λ line. line.items ≡ unread_line why) }
{
    let text = match why {
        Unanswered::Unsaid => b"refused Json\n".as_slice(),
        Unanswered::Long => b"refused Long\n".as_slice(),
        Unanswered::Memory => b"refused Memory\n".as_slice(),
    };
    let mut line = Vec::new(alloc);
    line.extend_from_slice(text)?;
    Ok(line)
}

/// A session, and what its last command was answered.
pub struct OpenSession {
    session: Tabled,
    answered: Option<JsonReply>,
}

impl Drop for OpenSession {
    fn drop(self) {
        let OpenSession {
            session: _,
            answered: _,
        } = self;
    }
}

impl OpenSession {
    /// A session that holds nothing, knows every extension and has this limit of depth. It is refused for
    /// memory alone.
    pub(crate) fn new(alloc: Global, depth: u32) -> Result<OpenSession, AllocError>
        ensures { IfOk result (λ session. IsNewWithin depth session) }
    {
        let extensions = Extensions::all_available(alloc)?;
        Ok(OpenSession {
            session: Tabled::Bare(OwnedSession::new(alloc, extensions, depth)),
            answered: None,
        })
    }

    /// The same of one that knows Cedar's extension types too.
    pub(crate) fn standard(alloc: Global, depth: u32) -> Result<OpenSession, AllocError>
        ensures { IfOk result (λ session. IsNewStandardWithin depth session) }
    {
        let extensions = standard_table(alloc)?;
        Ok(OpenSession {
            session: Tabled::Standard(OwnedSession::new(alloc, extensions, depth)),
            answered: None,
        })
    }

    /// Does a command, and keeps what it is answered. Answers whether there is one: no verb may be spelled so,
    /// or the body may be too long; then nothing changes.
    pub(crate) fn command(&mut self, word: &[u8], body: &[u8]) -> bool
        ensures done { IsTrue result → Does self.old word.now body.now self.new }
        ensures no_command { IsFalse result → IsCommand word.now body.now → ⊥ }
        ensures untouched { IsFalse result → self.new ≡ self.old }
    {
        let Some(verb) = Verb::named(word) else {
            return false;
        };
        if body.len() > BODY_LIMIT {
            return false;
        }
        self.answered = Some(JsonReply::Replied(self.session.answer(verb, body)));
        true
    }

    /// Does a command of which JSON says the body, and keeps what it is answered. Answers whether there is one: no verb that
    /// takes JSON may be spelled so; then nothing changes.
    pub(crate) fn command_json(&mut self, alloc: Global, word: &[u8], json: &[u8]) -> bool
        ensures done { IsTrue result → DoesJson self.old word.now json.now self.new }
        ensures no_command { IsFalse result → IsJsonWord word.now → ⊥ }
        ensures untouched { IsFalse result → self.new ≡ self.old }
    {
        let Some(verb) = json_verb_named(word) else {
            return false;
        };
        self.answered = Some(self.session.answer_bytes(alloc, verb, json));
        true
    }

    /// Why the session refuses the command of a verb and a body, as a JSON list of faults. `None` where there is no such
    /// command: no verb is spelled so, or the body is too long. It is refused for memory alone.
    pub(crate) fn why(
        &self,
        alloc: Global,
        word: &[u8],
        body: &[u8],
    ) -> Result<Option<Vec<u8>>, AllocError>
        ensures told { IfOk result (λ json. IfSome json (λ json. TellsWhy self.now word.now body.now json.items)) }
        ensures no_command { IfOk result (λ json. IfNone json (IsCommand word.now body.now → ⊥)) }
    {
        let Some(verb) = Verb::named(word) else {
            return Ok(None);
        };
        if body.len() > BODY_LIMIT {
            return Ok(None);
        }
        let faults = self.session.why(alloc, verb, body)?;
        let json = faults_json(alloc, faults.as_slice())?;
        Ok(Some(json))
    }

    /// The line that tells what the last command was answered; nothing before the first one. It is refused for
    /// memory alone.
    pub(crate) fn line(&self, alloc: Global) -> Result<Vec<u8>, AllocError>
        ensures { IfOk result (λ line. line.items ≡ answer_line self.now) }
    {
        match &self.answered {
            Some(JsonReply::Replied(outcome)) => line_in_memory(alloc, outcome),
            Some(JsonReply::Unread(why)) => unread_line(alloc, *why),
            None => Ok(Vec::new(alloc)),
        }
    }

    /// The answer to the last command as JSON, where that was a question which was accepted; else nothing. It is refused
    /// for memory alone.
    pub(crate) fn answer_json(&self, alloc: Global) -> Result<String, AllocError>
        ensures { IfOk result (λ text. TellsAnswer self.now (string_bytes text)) }
    {
        match &self.answered {
            Some(JsonReply::Replied(Ok(Reply::Answer(answer)))) => answer_text(alloc, answer),
            _ => Ok(String::new(alloc)),
        }
    }
}
