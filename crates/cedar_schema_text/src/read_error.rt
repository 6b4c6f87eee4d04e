// What stops the reader of a schema's tokens.
ghost use Rattle.std.specs.Prelude.{◌≡◌};

use std::alloc::{AllocError, AllocFailed};

/// Why tokens are no schema.
#[derive(Clone, Copy, Debug, PartialEq, Eq)]
pub enum SyntaxFault {
    /// No token stands there.
    NoToken,
    /// The token can't stand there.
    UnexpectedToken,
    /// The text ends where more has to follow.
    UnexpectedEnd,
    /// The string stands for no text: it has an escape that Cedar doesn't have, or a bare carriage return.
    WrongEscape,
    /// The annotation was written before, of the same declaration or attribute.
    DuplicateAnnotation,
}

/// What stops the reader of a schema's tokens.
#[derive(Clone, Copy, Debug, PartialEq, Eq)]
pub enum ReadError {
    /// The tokens are no schema, at this byte of the text.
    Syntax { fault: SyntaxFault, place: usize },
    /// Memory ran out.
    Memory,
}

impl From<AllocError> for ReadError {
    ghost use Rattle.cedar_schema_text.specs.declared.read_error.ReadError.TheVariants.{Memory};

    ghost from_gives = { λ _ e. e ≡ Memory };

    fn from(_error: AllocError) -> ReadError {
        ReadError::Memory
    }
}

impl<T: Drop> From<AllocFailed<T>> for ReadError {
    ghost use Rattle.cedar_schema_text.specs.declared.read_error.ReadError.TheVariants.{Memory};

    ghost from_gives = { λ _ e. e ≡ Memory };

    fn from(_failed: AllocFailed<T>) -> ReadError {
        ReadError::Memory
    }
}
