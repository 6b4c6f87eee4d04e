// Runs of a session over memory, and of the program's work, at devices that fail.
use crate::devices::{Broken, Faltering, Halting, Narrow};
use crate::ranks::Ranks;
use crate::words::{bytes, one_line};
use cedar_rows::{Answer, cut, index, no_case};
use cedar_session::{End, RunError, Session, Watched, program, run, run_input};
use std::alloc::{AllocError, Global};
use std::io::{Read, Write};

/// The frame of a command.
fn frame(alloc: Global, verb: &str, body: &[u8]) -> Result<Vec<u8>, AllocError> {
    let count = body.len();
    let head = format!(in alloc; "{verb} {count}\n")?;
    let mut frame = Vec::new(alloc);
    frame.extend_from_slice(head.as_bytes())?;
    frame.extend_from_slice(body)?;
    frame.push(b'\n')?;
    Ok(frame)
}

fn ended<R: Read + Drop, W: Write>(
    session: &mut Session<'_, '_, Ranks>,
    reader: R,
    writer: &mut W,
) -> Result<End, RunError> {
    let mut reader = Watched::new(reader);
    let mut writer = Watched::new(writer);
    run(session, &mut reader, &mut writer)
}

/// What was written, and how the run ended.
fn told(alloc: Global, written: &[u8], end: Result<End, RunError>) -> Answer {
    let written = one_line(alloc, written)?;
    format!(in alloc; "{written} {end:?}")
}

/// The line that answers a command, where a run of its frame alone ends well.
pub(crate) fn of_command(verb: &str, body: &str, session: &mut Session<'_, '_, Ranks>) -> Answer {
    let alloc = session.allocator();
    let body = bytes(alloc, body)?;
    let frame = frame(alloc, verb, body.as_slice())?;
    let mut written = Vec::new(alloc);
    let end = ended(session, frame.as_slice(), &mut written);
    match written.as_slice().strip_suffix(b"\nend\n") {
        Some(line) if matches!(end, Ok(End::Clean)) => one_line(alloc, line),
        _ => told(alloc, written.as_slice(), end),
    }
}

/// A run over any bytes, at a device that a word names.
pub(crate) fn at_devices(text: &str, session: &mut Session<'_, '_, Ranks>) -> Answer {
    let (device, text) = cut(text);
    match device {
        "narrow" => at_narrow(text, session),
        "faltering" => at_faltering(text, session),
        _ => at_readers(device, text, session),
    }
}

/// A run over the bytes that is interrupted once at each NUL, or at a reader that breaks behind them.
fn at_readers(device: &str, text: &str, session: &mut Session<'_, '_, Ranks>) -> Answer {
    let alloc = session.allocator();
    let given = bytes(alloc, text)?;
    match device {
        "halting" => at_reader(Halting(given.as_slice()), session),
        "broken" => at_reader(Broken(given.as_slice()), session),
        _ => no_case(alloc),
    }
}

fn at_reader<R: Read + Drop>(reader: R, session: &mut Session<'_, '_, Ranks>) -> Answer {
    let alloc = session.allocator();
    let mut written = Vec::new(alloc);
    let end = ended(session, reader, &mut written);
    told(alloc, written.as_slice(), end)
}

/// A run whose writer has room for so many bytes.
fn at_narrow(text: &str, session: &mut Session<'_, '_, Ranks>) -> Answer {
    let alloc = session.allocator();
    let (room, text) = cut(text);
    let Some(room) = index(room) else {
        return no_case(alloc);
    };
    let given = bytes(alloc, text)?;
    let mut narrow = Narrow::with_room(alloc, room);
    let end = ended(session, given.as_slice(), &mut narrow);
    told(alloc, narrow.taken.as_slice(), end)
}

/// A writer that fails once: at a `write` behind so many bytes, or at a `flush` behind so many others.
fn faltering(alloc: Global, call: &str, count: &str) -> Option<Faltering> {
    let before = Some(index(count)?);
    let (bytes, flushes) = match call {
        "write" => (before, None),
        "flush" => (None, before),
        _ => return None,
    };
    Some(Faltering {
        taken: Vec::new(alloc),
        bytes,
        flushes,
    })
}

fn at_faltering(text: &str, session: &mut Session<'_, '_, Ranks>) -> Answer {
    let alloc = session.allocator();
    let (call, text) = cut(text);
    let (count, text) = cut(text);
    let given = bytes(alloc, text)?;
    let Some(mut faltering) = faltering(alloc, call, count) else {
        return no_case(alloc);
    };
    let end = ended(session, given.as_slice(), &mut faltering);
    told(alloc, faltering.taken.as_slice(), end)
}

/// How the failure of a device is told.
pub(crate) fn of_failure(alloc: Global, device: &str) -> Answer {
    match device {
        "reader" => RunError::Read.to_string(alloc),
        "writer" => RunError::Write.to_string(alloc),
        _ => no_case(alloc),
    }
}

/// The status, what was written, and what was written on `errors`.
fn status_told(alloc: Global, status: u8, written: &[u8], errors: &[u8]) -> Answer {
    let written = one_line(alloc, written)?;
    let errors = one_line(alloc, errors)?;
    format!(in alloc; "{status}|{written}|{errors}")
}

/// The program's work over an input in memory.
fn in_memory(alloc: Global, given: &[u8]) -> Answer {
    let outcome = run_input(alloc, given)?;
    status_told(alloc, outcome.status, outcome.text.as_slice(), b"")
}

/// The program's work at a writer that has room for so many bytes.
fn within_room<R: Read + Drop>(alloc: Global, room: usize, reader: R) -> Answer {
    let mut narrow = Narrow::with_room(alloc, room);
    let mut errors = Vec::new(alloc);
    let mut reader = Watched::new(reader);
    let mut writer = Watched::new(&mut narrow);
    let status = program(alloc, 0, &mut reader, &mut writer, &mut errors);
    status_told(alloc, status, narrow.taken.as_slice(), errors.as_slice())
}

/// The program's work over an input in memory, or at a writer that has room for so many bytes and at a reader that breaks
/// behind its bytes or does not.
pub(crate) fn of_program(alloc: Global, text: &str) -> Answer {
    let (device, text) = cut(text);
    let (count, text) = cut(text);
    let Some(count) = index(count) else {
        return no_case(alloc);
    };
    let given = bytes(alloc, text)?;
    match device {
        "memory" => in_memory(alloc, given.as_slice()),
        "narrow" => within_room(alloc, count, given.as_slice()),
        "broken" => within_room(alloc, count, Broken(given.as_slice())),
        _ => no_case(alloc),
    }
}
