// What keeps a text from being read.
ghost use Rattle.std.specs.Prelude.{◌≡◌};

use std::alloc::{AllocError, AllocFailed};
use std::error::Error;
use std::fmt;

/// Why a text has no tokens.
#[derive(Clone, Copy, Debug, PartialEq, Eq)]
pub enum TokenError {
    /// No token stands at this byte of the text.
    Unexpected { place: usize },
    /// Memory ran out.
    Memory,
}

impl fmt::Display for TokenError {
    fn fmt<W: fmt::Write>(&self, f: &mut fmt::Formatter<W>) -> fmt::Result {
        match self {
            TokenError::Unexpected { place } => write!(f, "no token stands at byte {place}"),
            TokenError::Memory => write!(f, "out of memory"),
        }
    }
}

impl Error for TokenError {}

impl<T: Drop> From<AllocFailed<T>> for TokenError {
    ghost use Rattle.cedar_tokens.specs.declared.error.TokenError.TheVariants.{Memory};

    ghost from_gives = { λ _ e. e ≡ Memory };

    fn from(_failed: AllocFailed<T>) -> TokenError {
        TokenError::Memory
    }
}

/// Why a raw string stands for nothing.
#[derive(Clone, Copy, Debug, PartialEq, Eq)]
pub enum UnescapeError {
    /// What begins at this byte stands for no character: an escape that Cedar doesn't have, or a
    /// bare carriage return.
    Invalid { place: usize },
    /// Memory ran out.
    Memory,
}

impl fmt::Display for UnescapeError {
    fn fmt<W: fmt::Write>(&self, f: &mut fmt::Formatter<W>) -> fmt::Result {
        match self {
            UnescapeError::Invalid { place } => write!(
                f,
                "no character is escaped at byte {place}"
            ),
            UnescapeError::Memory => write!(f, "out of memory"),
        }
    }
}

impl Error for UnescapeError {}

impl From<AllocError> for UnescapeError {
    ghost use Rattle.cedar_tokens.specs.declared.error.UnescapeError.TheVariants.{Memory};

    ghost from_gives = { λ _ e. e ≡ Memory };

    fn from(_error: AllocError) -> UnescapeError {
        UnescapeError::Memory
    }
}

impl<T: Drop> From<AllocFailed<T>> for UnescapeError {
    ghost use Rattle.cedar_tokens.specs.declared.error.UnescapeError.TheVariants.{Memory};

    ghost from_gives = { λ _ e. e ≡ Memory };

    fn from(_failed: AllocFailed<T>) -> UnescapeError {
        UnescapeError::Memory
    }
}
