// Why a text is no script.
use std::alloc::{AllocError, AllocFailed};
use std::error::Error;
use std::fmt;

/// Why a script isn't read.
#[derive(Clone, Copy, Debug, PartialEq, Eq)]
pub enum ScriptFault {
    UnknownWord,
    NoCommand,
    NoName,
    NoAnswer,
    SecondAnswer,
    BehindAnswer,
    BehindFile,
    NoFile,
}

impl fmt::Display for ScriptFault {
    fn fmt<W: fmt::Write>(&self, f: &mut fmt::Formatter<W>) -> fmt::Result {
        f.write_str(match self {
            ScriptFault::UnknownWord => "the line begins with no verb, nor with `test` or `=>`",
            ScriptFault::NoCommand => "no command stands before this line",
            ScriptFault::NoName => "the test has no name",
            ScriptFault::NoAnswer => "no words stand behind `=>`",
            ScriptFault::SecondAnswer => "the command has an answer already",
            ScriptFault::BehindAnswer => "the body goes on behind its answer",
            ScriptFault::BehindFile => "the body goes on behind a file",
            ScriptFault::NoFile => "no file is named behind `<`",
        })
    }
}

/// What keeps a script from being read.
#[derive(Debug, PartialEq, Eq, Drop)]
pub enum ScriptError {
    /// This line of it, counted from 1.
    Fault(usize, ScriptFault),
    /// Memory ran out.
    Memory,
}

impl fmt::Display for ScriptError {
    fn fmt<W: fmt::Write>(&self, f: &mut fmt::Formatter<W>) -> fmt::Result {
        match self {
            ScriptError::Fault(_, fault) => fault.fmt(f),
            ScriptError::Memory => f.write_str("out of memory"),
        }
    }
}

impl Error for ScriptError {}

impl From<AllocError> for ScriptError {
    ghost use Rattle.std.specs.Prelude.{◌≡◌};
    ghost use Rattle.cedar_scripts.specs.declared.fault.ScriptError.TheVariants.{Memory};

    ghost from_gives = { λ _ made. made ≡ Memory };

    fn from(_error: AllocError) -> ScriptError {
        ScriptError::Memory
    }
}

impl<T: Drop> From<AllocFailed<T>> for ScriptError {
    ghost use Rattle.std.specs.Prelude.{◌≡◌};
    ghost use Rattle.cedar_scripts.specs.declared.fault.ScriptError.TheVariants.{Memory};

    ghost from_gives = { λ _ made. made ≡ Memory };

    fn from(_error: AllocFailed<T>) -> ScriptError {
        ScriptError::Memory
    }
}
