// The program's work, from its arguments to its status.
ghost use Rattle.std.specs.Prelude.{◌≡◌, ◌≢◌, ◌⊎◌, ◌↔◌, ◌<◌, ◌≤◌, false, true};
ghost use Rattle.cedar_frames.specs.declared.fault.Fault as frames;
ghost use Rattle.cedar_frames.specs.Watching.{watched_failed, watched_late};
ghost use Rattle.cedar_session.specs.Programs.{IsProgramSetting, setting_within, status_of, Answers, FailsToRead, FailsToWrite};
ghost use Rattle.cedar_world.specs.Setting.{Setting};

use crate::running::{End, RunError, run};
use crate::session::Session;
use cedar_extensions::extensions::Extensions;
use cedar_frames::Watched;
use std::alloc::Global;
use std::io::{Read, Write};

/// How deep texts and evaluations may be.
pub(crate) const DEPTH: u32 = 256;

/// The exit status where there is no memory.
const NO_MEMORY: u8 = 4;

/// The exit status of a run that ended so.
fn status_of(outcome: Result<End, RunError>) -> u8
    ensures { result ≡ status_of outcome }
{
    match outcome {
        Ok(End::Clean) => 0,
        Ok(End::Fault(_)) => 2,
        Err(_) => 3,
    }
}

/// Answers the input by a new session with this limit of depth, and gives the exit status.
pub(crate) fn answered<R: Read, W: Write>(
    alloc: Global,
    extensions: &Extensions<'_>,
    depth: u32,
    input: &mut Watched<R>,
    output: &mut Watched<W>,
) -> u8
    requires input { watched_failed input.old ≡ false }
    requires output { watched_failed output.old ≡ false }
    ensures other { result ≢ 1 }
    ensures end { result ≡ 0 → Answers R.remaining W.contents (setting_within depth extensions.now) input.old input.new output.old output.new End.Clean }
    ensures fault { result ≡ 2 → (fault : frames.Fault) × Answers R.remaining W.contents (setting_within depth extensions.now) input.old input.new output.old output.new (End.Fault fault) }
    ensures device { result ≡ 3 → FailsToRead R.remaining W.contents (setting_within depth extensions.now) input.old input.new output.old output.new
        ⊎ FailsToWrite R.remaining W.contents (setting_within depth extensions.now) input.old input.new output.old output.new }
    ensures unread { result ≡ 4 → (input.new ≡ input.old) × (output.new ≡ output.old) }
    ensures in_time { (watched_late input.new ≡ false) × (watched_late output.new ≡ false) }
    ensures bound { result ≤ 4 }
{
    let Ok(mut session) = Session::new(alloc, extensions, depth) else {
        return NO_MEMORY;
    };
    status_of(run(&mut session, input, output))
}

/// Answers the input by a new session that knows all extensions and whose limit of depth is 256, as
/// [`run`] does, and gives the exit status.
///
/// It is 0 at the end of the input, 2 at a fault, 3 where a device failed, and 4 where there was no
/// memory for the extensions or the session, and then nothing is read. With any argument, words after
/// the program's name, nothing is read either, a line on `errors` says how the program is called, and
/// the status is 1. What is written is out at 0 and 2, and at 3 where the reader failed. No device is
/// called once it has failed.
pub fn program<R: Read, W: Write, E: Write>(
    alloc: Global,
    arguments: usize,
    input: &mut Watched<R>,
    output: &mut Watched<W>,
    errors: &mut E,
) -> u8
    requires input { watched_failed input.old ≡ false }
    requires output { watched_failed output.old ≡ false }
    ensures usage { (result ≡ 1) ↔ (0 < arguments) }
    ensures end { result ≡ 0 → (by : Setting) × IsProgramSetting by
        × Answers R.remaining W.contents by input.old input.new output.old output.new End.Clean }
    ensures fault { result ≡ 2 → (by : Setting) × (fault : frames.Fault) × IsProgramSetting by
        × Answers R.remaining W.contents by input.old input.new output.old output.new (End.Fault fault) }
    ensures device { result ≡ 3 → (by : Setting) × IsProgramSetting by
        × (FailsToRead R.remaining W.contents by input.old input.new output.old output.new
        ⊎ FailsToWrite R.remaining W.contents by input.old input.new output.old output.new) }

    // At the statuses 1 and 4 the session has done nothing.
    ensures uncalled { 0 < arguments → (input.new ≡ input.old) × (output.new ≡ output.old) }
    ensures no_memory { result ≡ 4 → (input.new ≡ input.old) × (output.new ≡ output.old) }

    // At any status neither device was called behind a failure of its own.
    ensures in_time { (watched_late input.new ≡ false) × (watched_late output.new ≡ false) }

    ensures quiet { result ≢ 1 → errors.new ≡ errors.old }
    ensures bound { result ≤ 4 }
{
    if arguments > 0 {
        let _ = errors.write_all(b"usage: cedar_session\n");
        return 1;
    }
    match Extensions::all_available(alloc) {
        Ok(extensions) => answered(alloc, &extensions, DEPTH, input, output),
        Err(_) => NO_MEMORY,
    }
}
