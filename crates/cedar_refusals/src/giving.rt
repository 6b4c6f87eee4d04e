// Texts that a session is given, and what is told of one that it refuses.
ghost use Rattle.std.specs.Prelude.{◌≡◌, ◌≢◌, ◌≤◌, length, string_bytes, IfOk, IfErr, IsUtf8};
ghost use Rattle.cedar_frames.specs.Heads.{body_limit};
ghost use Rattle.cedar_replies.specs.Refusals.{refusal_of};
ghost use Rattle.cedar_replies.specs.declared.refusal.Refusal.TheVariants as refusals;
ghost use Rattle.cedar_session.specs.Settings.{setting_with};
ghost use Rattle.cedar_refusals.specs.Reasons.{ShowsBody};
ghost use Rattle.cedar_refusals.specs.RefusedBodies.{TellsBody, TellsKind};
ghost use Rattle.cedar_refusals.specs.Titles.{TellsNoText};

use crate::checking::{DEPTH, Report, refuse, refused};
use crate::reasons::{body_faults, policy_faults};
use crate::seen::Seen;
use cedar_extensions::objects::ExtensionFunctionObject;
use cedar_messages::places::position_in;
use cedar_messages::telling::{on_one_line, tell_line};
use cedar_messages::{Fault, tell_all};
use cedar_session::{BODY_LIMIT, Extensions, Refusal, Session, Verb};
use std::alloc::{AllocError, Global};

/// A text, and the name by which it is told of.
#[derive(Clone, Copy, Debug)]
pub struct Source<'t> {
    pub name: &'t str,
    pub text: &'t str,
}

/// Bytes as a text that a command may have, or a report, of status 1, of why they are none: they are no UTF-8, or more
/// than 1,048,576. Refused for memory alone.
pub fn read_source<'t>(
    alloc: Global,
    name: &'t str,
    bytes: &'t [u8],
) -> Result<Result<Source<'t>, Report>, AllocError>
    ensures text { IfOk result (λ read. IfOk read (λ source. (source.name.now ≡ name.now) × (source.text.now ≡ bytes.now) × (length bytes.now ≤ body_limit))) }
    ensures utf8 { IfOk result (λ read. IfOk read (λ source. IsUtf8 bytes.now)) }
    ensures told { IfOk result (λ read. IfErr read (λ report. TellsNoText (record { name = name.now; text = bytes.now }) (string_bytes report.text))) }
    ensures status { IfOk result (λ read. IfErr read (λ report. report.status ≡ 1)) }
{
    match str::from_utf8(bytes) {
        Ok(text) if text.len() <= BODY_LIMIT => Ok(Ok(Source { name, text })),
        Ok(_) => {
            let report = refuse(alloc, name, None, "the text is longer than 1,048,576 bytes")?;
            Ok(Err(report))
        }
        Err(error) => {
            let place = position_in(bytes, error.valid_up_to());
            let report = refuse(alloc, name, Some(place), "the text is no UTF-8")?;
            Ok(Err(report))
        }
    }
}

/// A command that a session refused.
#[derive(Clone, Copy, Debug)]
pub struct Refused<'t> {
    pub verb: Verb,
    pub source: Source<'t>,
    pub refusal: Refusal,
}

impl<'t> Refused<'t> {
    /// The command of this verb on this text, which is refused so.
    pub fn of(verb: Verb, source: Source<'t>, refusal: Refusal) -> Refused<'t>
        ensures refusal { result.refusal ≡ refusal }
        ensures source { result.source ≡ source.entry }
    {
        Refused {
            verb,
            source,
            refusal,
        }
    }
}

/// Tells why a session refuses a command's body, in a report of status 1: the faults of the body, or else the kind of the
/// refusal. Refused for memory alone, also where the command is.
pub fn tell_refusal<F: ExtensionFunctionObject>(
    alloc: Global,
    extensions: &Extensions<'_, F>,
    session: &Session<'_, '_, F>,
    command: Refused<'_>,
) -> Result<Report, AllocError>
    ensures other { IfOk result (λ report. command.entry.refusal ≢ refusals.Memory) }
    ensures told { IfOk result (λ report. TellsBody (setting_with F.answers extensions.now DEPTH)
        command.entry.source.name.now command.entry.source.text.now (refusal_of command.entry.refusal) (string_bytes report.text)) }
    ensures status { IfOk result (λ report. report.status ≡ 1) }
{
    let Refused {
        verb: _,
        source,
        refusal,
    } = command;
    if let Refusal::Memory = refusal {
        return Err(AllocError);
    }
    let faults = faults_given(alloc, extensions, session, command)?;
    if faults.is_empty() {
        return Ok(refused(kind_told(alloc, source.name, refusal)?));
    }
    let told = tell_all(alloc, source.name, source.text, faults.as_slice())?;
    Ok(refused(told))
}

/// A line that says the kind of a refusal.
fn kind_told(alloc: Global, name: &str, refusal: Refusal) -> Result<String, AllocError>
    ensures { IfOk result (λ told. TellsKind name.now (refusal_of refusal) (string_bytes told)) }
{
    let words = format!(in alloc; "{refusal}")?;
    let words = on_one_line(alloc, words.as_str())?;
    let line = format!(in alloc; "refused {}: {}", refusal.name(), words.as_str())?;
    let mut told = String::new(alloc);
    tell_line(alloc, &mut told, name, None, line.as_str(), "")?;
    Ok(told)
}

/// What is told of the faults of a refused command's text, where some are found: as policies those of a load, and else
/// as a body. Refused for memory alone.
pub fn faults_told<F: ExtensionFunctionObject>(
    alloc: Global,
    extensions: &Extensions<'_, F>,
    session: &Session<'_, '_, F>,
    command: Refused<'_>,
) -> Result<Option<String>, AllocError> {
    let source = command.source;
    let faults = match command.verb {
        Verb::Load => policy_faults(alloc, extensions, DEPTH, source.text)?,
        _ => faults_given(alloc, extensions, session, command)?,
    };
    if faults.is_empty() {
        return Ok(None);
    }
    let told = tell_all(alloc, source.name, source.text, faults.as_slice())?;
    Ok(Some(told))
}

/// The faults of a body that a session refuses.
fn faults_given<F: ExtensionFunctionObject>(
    alloc: Global,
    extensions: &Extensions<'_, F>,
    session: &Session<'_, '_, F>,
    command: Refused<'_>,
) -> Result<Vec<Fault>, AllocError>
    ensures { IfOk result (λ faults. ShowsBody (setting_with F.answers extensions.now DEPTH)
        command.entry.source.text.now (refusal_of command.entry.refusal) faults.items) }
{
    let untold = session.untold()?;
    let seen = Seen {
        extensions,
        depth: DEPTH,
        entities: session.entities(),
        untold: untold.as_slice(),
        told: session.told(),
    };
    let Refused {
        verb,
        source,
        refusal,
    } = command;
    body_faults(alloc, &seen, verb, source.text, refusal)
}
