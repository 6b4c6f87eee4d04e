// What is told, and what ends a run where that can't be.

use crate::{DEVICE, NO_MEMORY, SCRIPT_FAULT};
use std::alloc::{AllocError, AllocFailed};
use std::io;

/// What ends a run before its end. A fault and a device are told where they are met.
#[derive(Clone, Copy, Debug, PartialEq, Eq)]
pub(crate) enum Stop {
    /// A script has a fault.
    Fault,
    /// A file couldn't be read or written, or the output written.
    Device,
    Memory,
}

impl Stop {
    /// The status of `check` and `test`.
    pub(crate) fn status(self) -> u8 {
        match self {
            Stop::Fault => SCRIPT_FAULT,
            Stop::Device => DEVICE,
            Stop::Memory => NO_MEMORY,
        }
    }

    /// What a device's error is.
    pub(crate) fn of(error: &io::Error) -> Stop {
        if error.kind() == io::ErrorKind::OutOfMemory {
            Stop::Memory
        } else {
            Stop::Device
        }
    }
}

impl From<AllocError> for Stop {
    fn from(_error: AllocError) -> Stop {
        Stop::Memory
    }
}

impl<T: Drop> From<AllocFailed<T>> for Stop {
    fn from(_error: AllocFailed<T>) -> Stop {
        Stop::Memory
    }
}

/// Writes a line.
pub(crate) fn say(rt: &HostRuntime, line: &str) -> Result<(), Stop> {
    written(rt, println!(rt; "{line}"))
}

/// Writes a text that ends its last line.
pub(crate) fn print(rt: &HostRuntime, text: &str) -> Result<(), Stop> {
    written(rt, print!(rt; "{text}"))
}

fn written(rt: &HostRuntime, done: io::Result<()>) -> Result<(), Stop> {
    match done {
        Ok(()) => Ok(()),
        Err(error) => {
            warn(rt, "standard output", &error);
            Err(Stop::Device)
        }
    }
}

/// Says on standard error what a device that is named so answers.
pub(crate) fn warn(rt: &HostRuntime, name: &str, error: &io::Error) {
    let _ = eprintln!(rt; "cedar_cli: {name}: {error}");
}
