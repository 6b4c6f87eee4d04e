// Frames in, answer lines out.
ghost use Rattle.std.specs.Prelude.{◌≡◌, ◌≢◌, ◌<◌, ◌≤◌, ◌||◌, ℕ, List, [], ◌∷◌, false, true, is_err, length};
ghost use Rattle.std.specs.Prelude.{IfOk, IfSome, IfNone, MatchOption, OnErr, IsErrOf, IsUtf8, Ok, Err};
ghost use Rattle.cedar_frames.specs.Watching.{watched_failed, watched_late, watched_unsent};
ghost use Rattle.cedar_frames.specs.Frames.{IsPartial};
ghost use Rattle.cedar_frames.specs.Heads.{body_limit};
ghost use Rattle.cedar_frames.specs.Reading.{Reads, ReadsNext, IsReadOut};
ghost use Rattle.cedar_world.specs.RunText.{BodyStep, FrameStep, RunText, TextBeforeFailure};
ghost use Rattle.cedar_replies.specs.Replies.{reply_of};
ghost use Rattle.cedar_session.specs.Sessions.{world_of, setting_of};
ghost use Rattle.cedar_session.specs.Running.{end_of, EndsInput, Adds, CutsShort};

use crate::command::Command;
use crate::finishing::{finish, send_answer};
use crate::session::Session;
use cedar_extensions::objects::ExtensionFunctionObject;
use cedar_frames::{Fault, Next, ReadFailed, Verb, Watched, next_frame, read_byte};
use cedar_replies::{Refusal, Reply};
use std::alloc::Global;
use std::io::{Read, Write};
use thiserror::Error;

/// How a run ended.
#[derive(Clone, Copy, Debug, PartialEq, Eq)]
pub enum End {
    /// By the end of the input, behind a whole frame.
    Clean,
    /// By bytes that are no frame.
    Fault(Fault),
}

/// Which device failed.
#[derive(Clone, Copy, Debug, PartialEq, Eq, Error)]
pub enum RunError {
    /// The reader.
    #[error("the reader failed")]
    Read,
    /// The writer.
    #[error("the writer failed")]
    Write,
}

/// Answers the command of a frame whose body this is. One that isn't UTF-8 takes no memory to refuse.
pub(crate) fn answer_bytes<F: ExtensionFunctionObject>(
    session: &mut Session<'_, '_, F>,
    verb: Verb,
    bytes: &[u8],
) -> Result<Reply, Refusal>
    requires fits { length bytes.now ≤ body_limit }
    ensures step { BodyStep (setting_of session.old) (world_of session.old) verb bytes.now (reply_of result) (world_of session.new) }
    ensures utf8 { (IsUtf8 bytes.now → ⊥) → result ≡ Err Refusal.NotUtf8 }
    ensures setting { setting_of session.new ≡ setting_of session.old }
{
    match str::from_utf8(bytes) {
        Ok(text) => session.apply(&Command::of(verb, text)),
        Err(_) => Err(Refusal::NotUtf8),
    }
}

/// Answers the command of a frame. An empty body takes no memory to keep.
pub(crate) fn answer<F: ExtensionFunctionObject>(
    session: &mut Session<'_, '_, F>,
    verb: Verb,
    body: &Option<Vec<u8>>,
) -> Result<Reply, Refusal>
    requires fits { IfSome body.now (λ held. length held.items ≤ body_limit) }
    ensures step { (bytes : List ℕ) → MatchOption body.now (bytes ≢ []) (λ held. held.items ≡ bytes)
        → FrameStep (setting_of session.old) (world_of session.old) verb bytes (reply_of result) (world_of session.new) }
    ensures utf8 { IfSome body.now (λ held. (IsUtf8 held.items → ⊥) → result ≡ Err Refusal.NotUtf8) }
    ensures setting { setting_of session.new ≡ setting_of session.old }
{
    let Some(bytes) = body else {
        return Err(Refusal::Memory);
    };
    answer_bytes(session, verb, bytes.as_slice())
}

/// Reads what stands next. It is asked for only once each line behind the first frame is out.
pub(crate) fn next_behind<R: Read, W: Write>(
    count: u64,
    writer: &Watched<W>,
    alloc: Global,
    reader: &mut Watched<R>,
) -> Result<Next, ReadFailed>
    requires sent { 0 < count → watched_unsent writer.now ≡ false }
    ensures next { IfOk result (λ next. (taken : List ℕ) × Reads R.remaining reader.old reader.new taken
        × ReadsNext R.remaining next taken reader.new) }
    ensures err { OnErr result ((taken : List ℕ) × Reads R.remaining reader.old reader.new taken
        × IsPartial taken) }
    ensures failed { watched_failed reader.new ≡ (is_err result || watched_failed reader.old) }
    ensures late { watched_failed reader.old ≡ false → watched_late reader.new ≡ false }
{
    let _ = count;
    let _ = writer;
    next_frame(alloc, reader)
}

/// Reads a byte behind as many frames as can be counted. It is asked for only once each line is out.
pub(crate) fn byte_behind<R: Read, W: Write>(
    writer: &Watched<W>,
    reader: &mut Watched<R>,
) -> Result<Option<u8>, ReadFailed>
    requires sent { watched_unsent writer.now ≡ false }
    ensures byte { IfOk result (λ next. IfSome next (λ b.
        Reads R.remaining reader.old reader.new (b ∷ []))) }
    ensures end { IfOk result (λ next. IfNone next (Reads R.remaining reader.old reader.new []
        × IsReadOut R.remaining reader.new)) }
    ensures err { OnErr result (Reads R.remaining reader.old reader.new []) }
    ensures failed { watched_failed reader.new ≡ (is_err result || watched_failed reader.old) }
    ensures late { watched_failed reader.old ≡ false → watched_late reader.new ≡ false }
{
    let _ = writer;
    read_byte(reader)
}

/// Answers the frames that a reader gives, a line for each, until it ends or gives no frame, and
/// then writes `end` or the fault.
///
/// The writer is flushed behind each line, before more is read, so that a client may read the answer
/// to a frame before it sends the next one. What is written is out where the run ends or the reader
/// fails, and neither device is called once it has failed.
///
/// It ends after 2^64 - 1 frames at the latest. `RunError::Read` is told only where the reader
/// failed: the whole frames before are answered, and nothing follows. `RunError::Write` is told
/// only where the writer failed, be it when it was flushed: the command whose answer failed has been
/// done.
pub fn run<R: Read, W: Write, F: ExtensionFunctionObject>(
    session: &mut Session<'_, '_, F>,
    reader: &mut Watched<R>,
    writer: &mut Watched<W>,
) -> Result<End, RunError>
    requires reader { watched_failed reader.old ≡ false }
    requires writer { watched_failed writer.old ≡ false }

    // A device's fault is told only where that device failed, and an end only where none did.
    ensures read_failed { IsErrOf result RunError.Read → watched_failed reader.new ≡ true }
    ensures write_failed { IsErrOf result RunError.Write → watched_failed writer.new ≡ true }
    ensures none_failed { IfOk result (λ end. (watched_failed reader.new ≡ false) × (watched_failed writer.new ≡ false)) }

    // What is written for what is read.
    ensures text { IfOk result (λ end. (bytes text : List ℕ)
        × Reads R.remaining reader.old reader.new bytes
        × EndsInput R.remaining (end_of end) reader.new
        × Adds W.contents writer.old writer.new text
        × RunText (setting_of session.old) bytes (world_of session.old) text (end_of end) (world_of session.new)) }
    ensures before_failure { IsErrOf result RunError.Read → (bytes text : List ℕ)
        × Reads R.remaining reader.old reader.new bytes
        × Adds W.contents writer.old writer.new text
        × TextBeforeFailure (setting_of session.old) bytes (world_of session.old) text (world_of session.new) }
    ensures cut_short { IsErrOf result RunError.Write → (bytes text : List ℕ)
        × Reads R.remaining reader.old reader.new bytes
        × Adds W.contents writer.old writer.new text
        × CutsShort R.remaining reader.new (setting_of session.old) bytes (world_of session.old) text (world_of session.new) }

    // What was written is out, and no device was called behind a failure of its own.
    ensures sent { IfOk result (λ end. watched_unsent writer.new ≡ false) }
    ensures sent_before_failure { IsErrOf result RunError.Read → watched_unsent writer.old ≡ false → watched_unsent writer.new ≡ false }
    ensures reader_in_time { watched_late reader.new ≡ false }
    ensures writer_in_time { watched_late writer.new ≡ false }

    ensures setting { setting_of session.new ≡ setting_of session.old }
{
    for turn in 0..u64::MAX {
        let Ok(next) = next_behind(turn, writer, session.allocator(), reader) else {
            return Err(RunError::Read);
        };
        match next {
            Next::End => return finish(writer, End::Clean),
            Next::Fault(fault) => return finish(writer, End::Fault(fault)),
            Next::Frame(verb, body) => {
                let outcome = answer(session, verb, &body);
                let Ok(()) = send_answer(writer, &outcome) else {
                    return Err(RunError::Write);
                };
            }
        }
    }
    match byte_behind(writer, reader) {
        Ok(None) => finish(writer, End::Clean),
        Ok(Some(_)) => finish(writer, End::Fault(Fault::TooMany)),
        Err(_) => Err(RunError::Read),
    }
}
