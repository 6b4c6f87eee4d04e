// Frames answered over a table of functions.
ghost use Rattle.std.specs.Prelude.{◌≡◌, ◌≢◌, ◌⊎◌, ◌≤◌, false};
ghost use Rattle.cedar_frames.specs.declared.fault.Fault as frames;
ghost use Rattle.cedar_frames.specs.Watching.{watched_failed, watched_late};
ghost use Rattle.cedar_session.specs.Programs.{status_of, Answers, FailsToRead, FailsToWrite};
ghost use Rattle.cedar_session.specs.Settings.{setting_with};

use crate::{DEVICE, FINE, NO_MEMORY};
use cedar_authoring::DEPTH;
use cedar_session::{
    End, ExtensionFunctionObject, Extensions, RunError, Session, Watched, run_buffered,
};
use std::alloc::Global;
use std::io::{BufRead, Write};

/// The status where bytes are no frame.
const FAULT: u8 = 2;

/// The status of a run that ended so.
fn status_of(outcome: Result<End, RunError>) -> u8
    ensures { result ≡ status_of outcome }
{
    match outcome {
        Ok(End::Clean) => FINE,
        Ok(End::Fault(_)) => FAULT,
        Err(_) => DEVICE,
    }
}

/// Answers the input by a new session over this table, with the program's limit of depth, and gives the status: 0 at
/// the end of the input, 2 at a fault, 3 where a device failed, and 4 where there was no memory for the session, and
/// then nothing is read. Each line goes out before more is read from the device. What is written is out at 0 and 2, and at 3 where the reader failed. No device is called once
/// it has failed.
pub(crate) fn answer_frames<F: ExtensionFunctionObject, R: BufRead, W: Write>(
    alloc: Global,
    extensions: &Extensions<'_, F>,
    input: &mut Watched<R>,
    output: &mut Watched<W>,
) -> u8
    requires input { watched_failed input.old ≡ false }
    requires output { watched_failed output.old ≡ false }
    ensures other { result ≢ 1 }
    ensures end { result ≡ 0
        → Answers R.remaining W.contents (setting_with F.answers extensions.now DEPTH) input.old input.new output.old output.new End.Clean }
    ensures fault { result ≡ 2 → (fault : frames.Fault)
        × Answers R.remaining W.contents (setting_with F.answers extensions.now DEPTH) input.old input.new output.old output.new (End.Fault fault) }
    ensures device { result ≡ 3
        → FailsToRead R.remaining W.contents (setting_with F.answers extensions.now DEPTH) input.old input.new output.old output.new
        ⊎ FailsToWrite R.remaining W.contents (setting_with F.answers extensions.now DEPTH) input.old input.new output.old output.new }
    ensures unread { result ≡ 4 → (input.new ≡ input.old) × (output.new ≡ output.old) }
    ensures in_time { (watched_late input.new ≡ false) × (watched_late output.new ≡ false) }
    ensures bound { result ≤ 4 }
{
    let Ok(mut session) = Session::new(alloc, extensions, DEPTH) else {
        return NO_MEMORY;
    };
    status_of(run_buffered(&mut session, input, output))
}
