// The lines that a run writes, and that each goes out.
ghost use Rattle.std.specs.Prelude.{◌≡◌, true, false, IfOk, OnOk, OnErr, IsErrOf};
ghost use Rattle.std.specs.Io.KnownBytes.{Keeps};
ghost use Rattle.cedar_frames.specs.Watching.{watched_inner, watched_failed, watched_late, watched_unsent};
ghost use Rattle.cedar_frames.specs.Writing.{Writes};
ghost use Rattle.cedar_world.specs.Lines.{line_of};
ghost use Rattle.cedar_world.specs.RunText.{last_line};
ghost use Rattle.cedar_replies.specs.Replies.{reply_of};
ghost use Rattle.cedar_session.specs.Running.{end_of, Adds, AddsSome};

use crate::running::{End, RunError};
use cedar_frames::{Watched, put};
use cedar_replies::{Refusal, Reply, put_line};
use std::io::Write;

/// Sees that all that was written is out.
pub(crate) fn send<W: Write>(writer: &mut Watched<W>) -> Result<(), RunError>
    ensures bytes { Keeps (W.contents (watched_inner writer.old)) (W.contents (watched_inner writer.new)) }
    ensures ok { OnOk result ((watched_failed writer.old ≡ false) × (watched_failed writer.new ≡ false)) }
    ensures err { OnErr result (IsErrOf result RunError.Write × (watched_failed writer.new ≡ true)) }
    ensures sent { OnOk result (watched_unsent writer.new ≡ false) }
    ensures late { watched_late writer.new ≡ watched_late writer.old }
{
    if writer.failed() {
        return Err(RunError::Write);
    }
    writer.flush().map_err(|_| RunError::Write)
}

/// Writes the line that answers a command, and sees that it is out.
pub(crate) fn send_answer<W: Write>(
    writer: &mut Watched<W>,
    outcome: &Result<Reply, Refusal>,
) -> Result<(), RunError>
    requires { watched_failed writer.old ≡ false }
    ensures ok { OnOk result ((watched_failed writer.new ≡ false) × Adds W.contents writer.old writer.new (line_of (reply_of outcome.now))) }
    ensures err { OnErr result (IsErrOf result RunError.Write × (watched_failed writer.new ≡ true) × AddsSome W.contents writer.old writer.new (line_of (reply_of outcome.now))) }
    ensures sent { OnOk result (watched_unsent writer.new ≡ false) }
    ensures late { watched_late writer.new ≡ false }
{
    put_line(writer, outcome);
    send(writer)
}

/// Writes the last line.
fn put_end<W: Write>(writer: &mut Watched<W>, end: End)
    ensures { Writes W.contents writer.old writer.new (last_line (end_of end)) }
{
    match end {
        End::Clean => put(writer, b"end\n"),
        End::Fault(fault) => {
            put(writer, b"fault ");
            put(writer, fault.name().as_bytes());
            put(writer, b"\n");
        }
    }
}

/// Writes the last line, and sees that it is out.
pub(crate) fn finish<W: Write>(writer: &mut Watched<W>, end: End) -> Result<End, RunError>
    requires { watched_failed writer.old ≡ false }
    ensures ok { IfOk result (λ ended. (ended ≡ end) × (watched_failed writer.new ≡ false) × Adds W.contents writer.old writer.new (last_line (end_of end))) }
    ensures err { OnErr result (IsErrOf result RunError.Write × (watched_failed writer.new ≡ true) × AddsSome W.contents writer.old writer.new (last_line (end_of end))) }
    ensures sent { IfOk result (λ ended. watched_unsent writer.new ≡ false) }
    ensures late { watched_late writer.new ≡ false }
{
    put_end(writer, end);
    send(writer)?;
    Ok(end)
}
