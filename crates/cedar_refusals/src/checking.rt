// Whether a text is policies that a session loads, and why not.
ghost use Rattle.std.specs.Prelude.{◌≡◌, ◌≤◌, ◌⊎◌, length, string_bytes, IfOk, OnErr};
ghost use Rattle.cedar_frames.specs.Heads.{body_limit};
ghost use Rattle.cedar_world.specs.World.{new_world};
ghost use Rattle.cedar_session.specs.Sessions.{setting_of};
ghost use Rattle.cedar_session.specs.Settings.{setting_with};
ghost use Rattle.cedar_messages.specs.Telling.{TellsOf};
ghost use Rattle.cedar_refusals.specs.Checks.{HasLoaded, IsUnread, ReadsAlike};
ghost use Rattle.cedar_refusals.specs.Checks.{TellsFine, TellsFaults, TellsLoaded, TellsPolicies, TellsUnloaded, TellsRefused};
ghost use Rattle.cedar_refusals.specs.declared.checking.TheConstants.{DEPTH};

use crate::listing::{Listed, tell_policies};
use cedar_extensions::objects::{ExtensionFunctionObject, NoFunction};
use cedar_messages::places::{Position, position_in};
use cedar_messages::tell_unread;
use cedar_messages::telling::tell;
use cedar_parser::err::ParseErrors;
use cedar_parser::strict::parse_policyset;
use cedar_session::{BODY_LIMIT, Extensions, PolicyID, Refusal, Session};
use std::alloc::{AllocError, Global};

/// How deep texts may nest: the limit of the program `cedar_session`.
pub const DEPTH: u32 = 256;

/// What is told, and a status that says how it went.
#[derive(Debug, Drop)]
pub struct Report {
    pub status: u8,
    pub text: String,
}

/// Checks a text of policies and templates that may call the functions of this table, named so in what is told.
///
/// The status is 0 where a session over the table that was just made, with the program's limit of depth, answers the
/// load of these bytes by ids, and then a line tells of each: `NAME:LINE:COLUMN: ID permit`, or `forbid` or `template`,
/// and behind it the annotation `@id`; where there is none, a line says `NAME: no policies`. It is 1 where no session
/// loads them, and then lines tell why: that the bytes are no text, that they are more than 1,048,576, or each error by
/// which the text isn't read. Refused for memory alone.
pub fn check_text<F: ExtensionFunctionObject>(
    alloc: Global,
    extensions: &Extensions<'_, F>,
    name: &str,
    bytes: &[u8],
) -> Result<Report, AllocError>
    ensures fine { IfOk result (λ report. report.status ≡ 0
        → TellsFine (setting_with F.answers extensions.now DEPTH) name.now bytes.now (string_bytes report.text)) }
    ensures refused { IfOk result (λ report. report.status ≡ 1
        → TellsRefused (setting_with F.answers extensions.now DEPTH) name.now bytes.now (string_bytes report.text)) }
    ensures status { IfOk result (λ report. (report.status ≡ 0) ⊎ (report.status ≡ 1)) }
{
    let mut checker = Checker::new(alloc, extensions)?;
    checker.check(name, bytes)
}

/// Checks texts as one session loads them, one after the other: the ids that are told are those that it answers.
pub struct Checker<'e, 'f, F: ExtensionFunctionObject = NoFunction> {
    alloc: Global,
    extensions: &'e Extensions<'f, F>,
    session: Session<'e, 'f, F>,
    ghost alike: { ReadsAlike (setting_of session) (setting_with F.answers extensions.now DEPTH) },
}

impl<F: ExtensionFunctionObject> Drop for Checker<'_, '_, F> {
    fn drop(self) {
        let Checker {
            alloc: _,
            extensions: _,
            session: _,
        } = self;
    }
}

impl<'e, 'f, F: ExtensionFunctionObject> Checker<'e, 'f, F> {
    ghost use Rattle.cedar_refusals.specs.Checkers.{setting_in, world_in};

    /// A checker over this table, with the program's limit of depth, that has loaded nothing. Refused for memory alone.
    #[tactic(auto, using(crate::proofs::Checked::alike_if_same))]
    pub fn new(
        alloc: Global,
        extensions: &'e Extensions<'f, F>,
    ) -> Result<Checker<'e, 'f, F>, AllocError>
        ensures world { IfOk result (λ checker. world_in checker ≡ new_world) }
        ensures setting { IfOk result (λ checker. setting_in checker ≡ setting_with F.answers extensions.now DEPTH) }
    {
        let Ok(session) = Session::new(alloc, extensions, DEPTH) else {
            return Err(AllocError);
        };
        Ok(Checker {
            alloc,
            extensions,
            session,
        })
    }

    /// Checks one text more, named so in what is told.
    ///
    /// The status is 0 where the session answers the load of these bytes by ids, and then a line tells of each as
    /// [`check_text`] has it. It is 1 where no session loads them: then lines tell why, and the session stays as it was.
    /// Refused for memory alone; then the session has loaded the text, or stays as it was.
    pub fn check(&mut self, name: &str, bytes: &[u8]) -> Result<Report, AllocError>
        ensures fine { IfOk result (λ report. report.status ≡ 0
            → TellsLoaded (setting_in self.old) (world_in self.old) (world_in self.new) name.now bytes.now (string_bytes report.text)) }
        ensures refused { IfOk result (λ report. report.status ≡ 1
            → TellsRefused (setting_in self.old) name.now bytes.now (string_bytes report.text)) }
        ensures unchanged { IfOk result (λ report. report.status ≡ 1 → world_in self.new ≡ world_in self.old) }
        ensures status { IfOk result (λ report. (report.status ≡ 0) ⊎ (report.status ≡ 1)) }
        ensures err { OnErr result (HasLoaded (setting_in self.old) (world_in self.old) (world_in self.new) bytes.now) }
        ensures setting { setting_in self.new ≡ setting_in self.old }
    {
        match str::from_utf8(bytes) {
            Ok(text) => self.check_length(name, text),
            Err(error) => {
                let place = position_in(bytes, error.valid_up_to());
                refuse(self.alloc, name, Some(place), "the text is no UTF-8")
            }
        }
    }

    #[tactic(auto, using(crate::proofs::Checked::alike_if_then))]
    fn check_length(&mut self, name: &str, text: &str) -> Result<Report, AllocError>
        ensures fine { IfOk result (λ report. report.status ≡ 0
            → TellsLoaded (setting_in self.old) (world_in self.old) (world_in self.new) name.now text.now (string_bytes report.text)) }
        ensures refused { IfOk result (λ report. report.status ≡ 1
            → TellsUnloaded (setting_in self.old) name.now text.now (string_bytes report.text)) }
        ensures unchanged { IfOk result (λ report. report.status ≡ 1 → world_in self.new ≡ world_in self.old) }
        ensures status { IfOk result (λ report. (report.status ≡ 0) ⊎ (report.status ≡ 1)) }
        ensures err { OnErr result (HasLoaded (setting_in self.old) (world_in self.old) (world_in self.new) text.now) }
        ensures setting { setting_in self.new ≡ setting_in self.old }
    {
        if text.len() > BODY_LIMIT {
            let message = "the text is longer than 1,048,576 bytes";
            return refuse(self.alloc, name, None, message);
        }
        let held = self.session.policies().len();
        match self.session.load(text) {
            Ok(ids) => self.tell_loaded(name, text, held, ids.as_slice()),
            Err(Refusal::Memory) => Err(AllocError),
            Err(_) => self.tell_refused(name, text),
        }
    }

    /// Tells of each policy of a text that was just loaded, before which so many were held.
    fn tell_loaded(
        &self,
        name: &str,
        text: &str,
        held: usize,
        ids: &[PolicyID],
    ) -> Result<Report, AllocError>
        requires fits { length text.now ≤ body_limit }
        ensures lines { IfOk result (λ report. TellsPolicies name.now ids.now (string_bytes report.text)) }
        ensures status { IfOk result (λ report. report.status ≡ 0) }
    {
        let told = self.tell_ids(name, text, held, ids)?;
        Ok(Report {
            status: 0,
            text: told,
        })
    }

    fn tell_ids(
        &self,
        name: &str,
        text: &str,
        held: usize,
        ids: &[PolicyID],
    ) -> Result<String, AllocError>
        requires fits { length text.now ≤ body_limit }
        ensures { IfOk result (λ told. TellsPolicies name.now ids.now (string_bytes told)) }
    {
        let set = self.session.policies();
        if set.len() == held.saturating_add(ids.len()) {
            return tell_policies(self.alloc, name, text, ids, Listed { set, ids });
        }
        self.tell_held(name, text, ids)
    }

    /// The same where a policy was held already, so that the session has the place at which it stood in another text.
    fn tell_held(&self, name: &str, text: &str, ids: &[PolicyID]) -> Result<String, AllocError>
        requires fits { length text.now ≤ body_limit }
        ensures { IfOk result (λ told. TellsPolicies name.now ids.now (string_bytes told)) }
    {
        let Ok(mut alone) = Session::new(self.alloc, self.extensions, DEPTH) else {
            return Err(AllocError);
        };
        let Ok(own) = alone.load(text) else {
            return Err(AllocError);
        };
        let listed = Listed {
            set: alone.policies(),
            ids: own.as_slice(),
        };
        tell_policies(self.alloc, name, text, ids, listed)
    }

    /// Tells why a session refuses a text.
    fn tell_refused(&self, name: &str, text: &str) -> Result<Report, AllocError>
        ensures faults { IfOk result (λ report. TellsFaults (setting_in self.now) name.now text.now (string_bytes report.text)) }
        ensures status { IfOk result (λ report. report.status ≡ 1) }
    {
        let Err(errors) = parse_policyset(self.alloc, text, self.extensions, DEPTH) else {
            return Err(AllocError);
        };
        refuse_unread(self.alloc, name, text, self.extensions, &errors)
    }
}

/// Tells why a text isn't read as policies, in a report of status 1. Refused for memory alone, also where the first of
/// these errors is want of it.
pub fn refuse_unread<F: ExtensionFunctionObject>(
    alloc: Global,
    name: &str,
    text: &str,
    extensions: &Extensions<'_, F>,
    errors: &ParseErrors,
) -> Result<Report, AllocError>
    requires unread { IsUnread (setting_with F.answers extensions.now DEPTH) text.now errors.now }
    ensures faults { IfOk result (λ report. TellsFaults (setting_with F.answers extensions.now DEPTH) name.now text.now (string_bytes report.text)) }
    ensures status { IfOk result (λ report. report.status ≡ 1) }
{
    let told = tell_unread(alloc, name, text, errors)?;
    Ok(refused(told))
}

/// Tells what is wrong with a text as a whole.
pub(crate) fn refuse(
    alloc: Global,
    name: &str,
    place: Option<Position>,
    message: &str,
) -> Result<Report, AllocError>
    ensures told { IfOk result (λ report. TellsOf name.now place (string_bytes report.text)) }
    ensures status { IfOk result (λ report. report.status ≡ 1) }
{
    let mut told = String::new(alloc);
    tell(alloc, &mut told, name, place, message, "")?;
    Ok(refused(told))
}

/// The report of a text that is refused.
pub(crate) fn refused(told: String) -> Report
    ensures text { string_bytes result.text ≡ string_bytes told }
    ensures status { result.status ≡ 1 }
{
    Report {
        status: 1,
        text: told,
    }
}
