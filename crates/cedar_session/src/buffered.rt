// Frames in, answer lines out, over a reader that reads ahead.
ghost use Rattle.std.specs.Prelude.{◌≡◌, ◌<◌, ◌≤◌, ◌||◌, ℕ, List, [], ◌++◌, false, true, is_err, length, take};
ghost use Rattle.std.specs.Prelude.{IfOk, OnOk, OnErr, IsErrOf};
ghost use Rattle.cedar_frames.specs.Watching.{watched_failed, watched_late, watched_unsent};
ghost use Rattle.cedar_frames.specs.Reading.{Reads};
ghost use Rattle.cedar_frames.specs.Ahead.{Shows};
ghost use Rattle.cedar_world.specs.RunText.{RunText, TextBeforeFailure, most_frames};
ghost use Rattle.cedar_session.specs.Sessions.{world_of, setting_of};
ghost use Rattle.cedar_session.specs.Running.{end_of, EndsInput, Adds, CutsShort};
ghost use Rattle.cedar_session.specs.Ahead.{RunsOn, CutsOn, TurnsTo, FailsToReadOn, FailsToWriteOn};

use crate::finishing::{finish, send, send_answer};
use crate::running::{End, RunError, answer, answer_bytes, byte_behind, next_behind};
use crate::session::Session;
use cedar_extensions::objects::ExtensionFunctionObject;
use cedar_frames::{Fault, Next, ReadFailed, Watched, whole_frame};
use cedar_replies::put_line;
use std::io::{BufRead, Read, Write};

/// How many bytes of those that were read ahead are looked at together.
const AHEAD: usize = 8_192;

/// What became of one look at the input.
#[derive(Clone, Copy, Debug)]
pub(crate) enum Turn {
    /// Frames were answered, and so many are then.
    Answered(u64),
    /// The run is to end.
    Ended(End),
}

/// How far the frames go that stand whole in bytes that were read ahead.
struct Reached<'a> {
    /// How many frames of the run are answered then.
    count: u64,
    /// What stands behind them.
    rest: &'a [u8],
}

/// Answers the frames that stand whole in bytes that were read ahead, a line for each, until the writer fails.
fn answer_whole<'a, W: Write, F: ExtensionFunctionObject>(
    session: &mut Session<'_, '_, F>,
    writer: &mut Watched<W>,
    ahead: &'a [u8],
    before: u64,
) -> Reached<'a>
    requires { watched_failed writer.old ≡ false }
    ensures order { before ≤ result.count }
    ensures bound { result.count ≤ most_frames }
    ensures within { length result.rest.now ≤ length ahead.now }
    ensures none { result.count ≡ before → (writer.new ≡ writer.old) × (world_of session.new ≡ world_of session.old) }
    ensures answered { watched_failed writer.new ≡ false → (bytes text : List ℕ) × (ahead.now ≡ bytes ++ result.rest.now)
        × Adds W.contents writer.old writer.new text
        × RunsOn (setting_of session.old) before (world_of session.old) bytes text result.count (world_of session.new) }
    ensures cut { watched_failed writer.new ≡ true → (bytes text : List ℕ) × (ahead.now ≡ bytes ++ result.rest.now)
        × Adds W.contents writer.old writer.new text
        × CutsOn (setting_of session.old) before (world_of session.old) bytes text (world_of session.new) }
    ensures late { watched_late writer.new ≡ false }
    ensures setting { setting_of session.new ≡ setting_of session.old }
{
    let mut rest = ahead;
    for count in before..u64::MAX {
        let Some(whole) = whole_frame(rest) else {
            return Reached { count, rest };
        };
        let outcome = answer_bytes(session, whole.verb, whole.body);
        put_line(writer, &outcome);
        rest = whole.rest;
        if writer.failed() {
            return Reached {
                count: count + 1,
                rest,
            };
        }
    }
    Reached {
        count: u64::MAX,
        rest,
    }
}

/// Reads the next frame byte by byte, and answers it. It is asked for only once each line behind the first frame is out.
fn answer_next<R: Read, W: Write, F: ExtensionFunctionObject>(
    session: &mut Session<'_, '_, F>,
    reader: &mut Watched<R>,
    writer: &mut Watched<W>,
    before: u64,
) -> Result<Turn, RunError>
    requires countable { before < most_frames }
    requires sent { 0 < before → watched_unsent writer.old ≡ false }
    requires reader { watched_failed reader.old ≡ false }
    requires writer { watched_failed writer.old ≡ false }
    ensures turn { IfOk result (λ turn. TurnsTo R.remaining W.contents (setting_of session.old) before
        reader.old reader.new writer.old writer.new (world_of session.old) (world_of session.new) turn) }
    ensures sound { OnOk result ((watched_failed reader.new ≡ false) × (watched_failed writer.new ≡ false)) }
    ensures read_failed { IsErrOf result RunError.Read → FailsToReadOn R.remaining W.contents (setting_of session.old) before
        reader.old reader.new writer.old writer.new (world_of session.old) (world_of session.new) }
    ensures write_failed { IsErrOf result RunError.Write → FailsToWriteOn R.remaining W.contents (setting_of session.old) before
        reader.old reader.new writer.old writer.new (world_of session.old) (world_of session.new) }
    ensures reader_in_time { watched_late reader.new ≡ false }
    ensures writer_in_time { watched_late writer.new ≡ false }
    ensures setting { setting_of session.new ≡ setting_of session.old }
{
    let Ok(next) = next_behind(before, writer, session.allocator(), reader) else {
        return Err(RunError::Read);
    };
    match next {
        Next::End => Ok(Turn::Ended(End::Clean)),
        Next::Fault(fault) => Ok(Turn::Ended(End::Fault(fault))),
        Next::Frame(verb, body) => {
            let outcome = answer(session, verb, &body);
            let Ok(()) = send_answer(writer, &outcome) else {
                return Err(RunError::Write);
            };
            Ok(Turn::Answered(before + 1))
        }
    }
}

/// Copies what was read ahead, as [`Watched::peek`] does, which may read more first: it is asked for only once each line behind
/// the first frame is out.
fn peek_behind<R: BufRead, W: Write>(
    count: u64,
    writer: &Watched<W>,
    reader: &mut Watched<R>,
    scratch: &mut [u8],
) -> Result<usize, ReadFailed>
    requires sent { 0 < count → watched_unsent writer.now ≡ false }
    ensures within { IfOk result (λ len. len ≤ length scratch.new) }
    ensures ahead { IfOk result (λ len. Shows R.remaining R.consumable_len reader.old reader.new (take len scratch.new)) }
    ensures err { OnErr result (Reads R.remaining reader.old reader.new []) }
    ensures failed { watched_failed reader.new ≡ (is_err result || watched_failed reader.old) }
    ensures late { watched_late reader.new ≡ watched_failed reader.old }
{
    let _ = count;
    let _ = writer;
    reader.peek(scratch)
}

/// Answers the frames that stand whole in what was read ahead, and then flushes; where none does, the next one by reading on.
fn take_turn<R: BufRead, W: Write, F: ExtensionFunctionObject>(
    session: &mut Session<'_, '_, F>,
    reader: &mut Watched<R>,
    writer: &mut Watched<W>,
    scratch: &mut [u8],
    before: u64,
) -> Result<Turn, RunError>
    requires countable { before < most_frames }
    requires sent { 0 < before → watched_unsent writer.old ≡ false }
    requires reader { watched_failed reader.old ≡ false }
    requires writer { watched_failed writer.old ≡ false }
    ensures turn { IfOk result (λ turn. TurnsTo R.remaining W.contents (setting_of session.old) before
        reader.old reader.new writer.old writer.new (world_of session.old) (world_of session.new) turn) }
    ensures sound { OnOk result ((watched_failed reader.new ≡ false) × (watched_failed writer.new ≡ false)) }
    ensures read_failed { IsErrOf result RunError.Read → FailsToReadOn R.remaining W.contents (setting_of session.old) before
        reader.old reader.new writer.old writer.new (world_of session.old) (world_of session.new) }
    ensures write_failed { IsErrOf result RunError.Write → FailsToWriteOn R.remaining W.contents (setting_of session.old) before
        reader.old reader.new writer.old writer.new (world_of session.old) (world_of session.new) }
    ensures reader_in_time { watched_late reader.new ≡ false }
    ensures writer_in_time { watched_late writer.new ≡ false }
    ensures setting { setting_of session.new ≡ setting_of session.old }
{
    let Ok(len) = peek_behind(before, writer, reader, scratch) else {
        return Err(RunError::Read);
    };
    let ahead = &scratch[..len];
    let Reached { count, rest } = answer_whole(session, writer, ahead, before);
    if count == before {
        return answer_next(session, reader, writer, before);
    }
    reader.consume(ahead.len() - rest.len());
    let Ok(()) = send(writer) else {
        return Err(RunError::Write);
    };
    Ok(Turn::Answered(count))
}

/// Answers the frames that a reader gives as [`run`](crate::run) does, but reads ahead and flushes less often.
///
/// Each line goes out before more is read from the device: `fill_buf` and `read` alone may read it, and they are called only
/// once all lines are out. So a client may read the answer to a frame before it sends the next one, or the rest of one. A
/// frame that stands whole in what was read ahead, up to 8,192 bytes at a time, takes no memory of its own. The end of the
/// input is seen by `fill_buf`, and once more by `read`.
pub fn run_buffered<R: BufRead, W: Write, F: ExtensionFunctionObject>(
    session: &mut Session<'_, '_, F>,
    reader: &mut Watched<R>,
    writer: &mut Watched<W>,
) -> Result<End, RunError>
    requires reader { watched_failed reader.old ≡ false }
    requires writer { watched_failed writer.old ≡ false }

    // A device's fault is told only where that device failed, and an end only where none did.
    ensures read_failed { IsErrOf result RunError.Read → watched_failed reader.new ≡ true }
    ensures write_failed { IsErrOf result RunError.Write → watched_failed writer.new ≡ true }
    ensures none_failed { IfOk result (λ end. (watched_failed reader.new ≡ false) × (watched_failed writer.new ≡ false)) }

    // What is written for what is read.
    ensures text { IfOk result (λ end. (bytes text : List ℕ)
        × Reads R.remaining reader.old reader.new bytes
        × EndsInput R.remaining (end_of end) reader.new
        × Adds W.contents writer.old writer.new text
        × RunText (setting_of session.old) bytes (world_of session.old) text (end_of end) (world_of session.new)) }
    ensures before_failure { IsErrOf result RunError.Read → (bytes text : List ℕ)
        × Reads R.remaining reader.old reader.new bytes
        × Adds W.contents writer.old writer.new text
        × TextBeforeFailure (setting_of session.old) bytes (world_of session.old) text (world_of session.new) }
    ensures cut_short { IsErrOf result RunError.Write → (bytes text : List ℕ)
        × Reads R.remaining reader.old reader.new bytes
        × Adds W.contents writer.old writer.new text
        × CutsShort R.remaining reader.new (setting_of session.old) bytes (world_of session.old) text (world_of session.new) }

    // What was written is out, and no device was called behind a failure of its own.
    ensures sent { IfOk result (λ end. watched_unsent writer.new ≡ false) }
    ensures sent_before_failure { IsErrOf result RunError.Read → watched_unsent writer.old ≡ false → watched_unsent writer.new ≡ false }
    ensures reader_in_time { watched_late reader.new ≡ false }
    ensures writer_in_time { watched_late writer.new ≡ false }

    ensures setting { setting_of session.new ≡ setting_of session.old }
{
    let mut scratch = [0u8; AHEAD];
    let mut count = 0;
    while count < u64::MAX {
        match take_turn(session, reader, writer, &mut scratch, count) {
            Ok(Turn::Answered(after)) => count = after,
            Ok(Turn::Ended(end)) => return finish(writer, end),
            Err(error) => return Err(error),
        }
    }
    match byte_behind(writer, reader) {
        Ok(None) => finish(writer, End::Clean),
        Ok(Some(_)) => finish(writer, End::Fault(Fault::TooMany)),
        Err(_) => Err(RunError::Read),
    }
}
