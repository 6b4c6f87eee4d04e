// What is read from outside.

use crate::output::{Stop, say};
use cedar_authoring::{Position, Script, ScriptError, Step, line_and_column, read_script};
use std::alloc::AllocError;
use std::fs;
use std::io::{self, Error, Read};

/// The name by which standard input is given.
pub(crate) const INPUT: &str = "-";

/// Why a file isn't read.
#[derive(Drop)]
pub(crate) enum Unread {
    Memory,
    Told(Notice),
}

/// What is wrong with a file, and where.
#[derive(Drop)]
pub(crate) struct Notice {
    pub(crate) stop: Stop,
    pub(crate) file: String,
    pub(crate) line: Option<usize>,
    pub(crate) column: Option<usize>,
    pub(crate) message: String,
}

impl From<AllocError> for Unread {
    fn from(_error: AllocError) -> Unread {
        Unread::Memory
    }
}

/// Tells why a file isn't read: of a device on standard error.
pub(crate) fn tell_unread(rt: &HostRuntime, unread: Unread) -> Stop {
    let notice = match unread {
        Unread::Memory => return Stop::Memory,
        Unread::Told(notice) => notice,
    };
    let Ok(line) = notice_line(rt, &notice) else {
        return Stop::Memory;
    };
    if let Stop::Fault = notice.stop {
        return match say(rt, line.as_str()) {
            Ok(()) => notice.stop,
            Err(stop) => stop,
        };
    }
    let _ = eprintln!(rt; "{}", line.as_str());
    notice.stop
}

fn notice_line(rt: &HostRuntime, notice: &Notice) -> Result<String, AllocError> {
    let file = notice.file.as_str();
    let message = notice.message.as_str();
    match (notice.line, notice.column) {
        (Some(line), Some(column)) => format!(in rt.alloc(); "{file}:{line}:{column}: {message}"),
        (Some(line), None) => format!(in rt.alloc(); "{file}:{line}: {message}"),
        _ => format!(in rt.alloc(); "{file}: {message}"),
    }
}

/// Reads a file, or standard input. Where it can't be read that is told.
pub(crate) fn read_bytes(rt: &HostRuntime, name: &str) -> Result<Vec<u8>, Stop> {
    match bytes_of(rt, name) {
        Ok(bytes) => Ok(bytes),
        Err(unread) => Err(tell_unread(rt, unread)),
    }
}

/// Reads a file, or standard input.
pub(crate) fn bytes_of(rt: &HostRuntime, name: &str) -> Result<Vec<u8>, Unread> {
    let read = if name == INPUT {
        read_input(rt)
    } else {
        fs::read(rt, name)
    };
    match read {
        Ok(bytes) => Ok(bytes),
        Err(error) => Err(unreadable(rt, name, &error)),
    }
}

fn read_input(rt: &HostRuntime) -> io::Result<Vec<u8>> {
    let mut bytes = Vec::new(rt.alloc());
    rt.stdin().read_to_end(&mut bytes)?;
    Ok(bytes)
}

/// That a file couldn't be read, and why.
fn unreadable(rt: &HostRuntime, name: &str, error: &Error) -> Unread {
    match (
        String::from_str(rt.alloc(), name),
        format!(in rt.alloc(); "{error}"),
    ) {
        (Ok(file), Ok(message)) => Unread::Told(Notice {
            stop: Stop::of(error),
            file,
            line: None,
            column: None,
            message,
        }),
        _ => Unread::Memory,
    }
}

/// The bytes behind a byte order mark, if one stands in front.
pub(crate) fn unmarked(bytes: &[u8]) -> &[u8] {
    match bytes {
        [0xef, 0xbb, 0xbf, others @ ..] => others,
        _ => bytes,
    }
}

/// Reads a script, and none of the files that it names. What is wrong with it is told.
pub(crate) fn read_script_alone(rt: &HostRuntime, name: &str) -> Result<Script, Stop> {
    match script_alone(rt, name) {
        Ok(script) => Ok(script),
        Err(unread) => Err(tell_unread(rt, unread)),
    }
}

/// Reads a script and the files that it names, each beside the script. What is wrong with one of them is told.
pub(crate) fn read_whole_script(rt: &HostRuntime, name: &str) -> Result<Script, Stop> {
    match whole_script(rt, name) {
        Ok(script) => Ok(script),
        Err(unread) => Err(tell_unread(rt, unread)),
    }
}

fn script_alone(rt: &HostRuntime, name: &str) -> Result<Script, Unread> {
    let bytes = bytes_of(rt, name)?;
    let text = text_of(rt, name, unmarked(bytes.as_slice()))?;
    match read_script(rt.alloc(), text) {
        Ok(script) => Ok(script),
        Err(ScriptError::Fault(line, fault)) => Err(Unread::Told(Notice {
            stop: Stop::Fault,
            file: String::from_str(rt.alloc(), name)?,
            line: Some(line),
            column: None,
            message: format!(in rt.alloc(); "{fault}")?,
        })),
        Err(ScriptError::Memory) => Err(Unread::Memory),
    }
}

/// Reads a script and the files that it names, each beside the script.
pub(crate) fn whole_script(rt: &HostRuntime, name: &str) -> Result<Script, Unread> {
    let mut script = script_alone(rt, name)?;
    read_files(rt, name, &mut script.set_up)?;
    for test in &mut script.tests {
        read_files(rt, name, &mut test.steps)?;
    }
    Ok(script)
}

/// Bytes as a text, named so where they are none. What is wrong with them is told.
pub(crate) fn read_text<'b>(
    rt: &HostRuntime,
    name: &str,
    bytes: &'b [u8],
) -> Result<&'b str, Stop> {
    match text_of(rt, name, bytes) {
        Ok(text) => Ok(text),
        Err(unread) => Err(tell_unread(rt, unread)),
    }
}

/// Bytes as a text, named so where they are none.
fn text_of<'b>(rt: &HostRuntime, name: &str, bytes: &'b [u8]) -> Result<&'b str, Unread> {
    match str::from_utf8(bytes) {
        Ok(text) => Ok(text),
        Err(error) => {
            let Position { line, column } = place_in(bytes, error.valid_up_to());
            Err(Unread::Told(Notice {
                stop: Stop::Fault,
                file: String::from_str(rt.alloc(), name)?,
                line: Some(line),
                column: Some(column),
                message: String::from_str(rt.alloc(), "the text is no UTF-8")?,
            }))
        }
    }
}

/// Where the first byte that belongs to no text stands.
fn place_in(bytes: &[u8], valid: usize) -> Position {
    match bytes.get(..valid).map(str::from_utf8) {
        Some(Ok(text)) => line_and_column(text, valid),
        _ => Position { line: 1, column: 1 },
    }
}

/// Tells of a fault of a file.
pub(crate) fn say_fault<T>(rt: &HostRuntime, line: Result<String, AllocError>) -> Result<T, Stop> {
    say(rt, line?.as_str())?;
    Err(Stop::Fault)
}

fn read_files(rt: &HostRuntime, name: &str, steps: &mut Vec<Step>) -> Result<(), Unread> {
    for step in steps {
        read_file(rt, name, step)?;
    }
    Ok(())
}

fn read_file(rt: &HostRuntime, name: &str, step: &mut Step) -> Result<(), Unread> {
    let Some(file) = &step.file else {
        return Ok(());
    };
    let path = beside(rt, name, file.as_str())?;
    let at = format!(in rt.alloc(); "{name}:{}: {}", step.line, path.as_str())?;
    let bytes = match fs::read(rt, path.as_str()) {
        Ok(bytes) => bytes,
        Err(error) => return Err(unreadable(rt, at.as_str(), &error)),
    };
    let text = text_of(rt, at.as_str(), unmarked(bytes.as_slice()))?;
    step.body = String::from_str(rt.alloc(), text)?;
    step.file = Some(path);
    Ok(())
}

/// The path of a file that a script names: in the script's folder, unless it begins at the root.
fn beside(rt: &HostRuntime, name: &str, file: &str) -> Result<String, AllocError> {
    match name.rsplit_once('/') {
        Some((folder, _)) if !file.starts_with('/') => { format!(in rt.alloc(); "{folder}/{file}") }
        _ => String::from_str(rt.alloc(), file),
    }
}
