// What keeps tokens from being read.
ghost use Rattle.std.specs.Prelude.{◌≡◌};

use cedar_names::places::Span;
use cedar_tokens::{Kinds, TokenError};
use std::alloc::{AllocError, AllocFailed};

/// What stands where nothing can be read on.
#[derive(Clone, Copy, Debug, PartialEq, Eq)]
pub enum Met {
    /// No token at all.
    NoToken,
    /// A token that can't stand there.
    Token,
    /// The end of the text.
    End,
}

/// What no reading allows there, and its place.
#[derive(Clone, Copy, Debug, PartialEq, Eq)]
pub struct Unexpected {
    pub met: Met,
    /// The token; an empty range where there is none.
    pub span: Span,
    /// The kinds of tokens that may stand there; none where no token begins, or a number is too large.
    pub expected: Kinds,
}

/// Why nothing is read.
#[derive(Clone, Copy, Debug, PartialEq, Eq)]
pub enum ReadError {
    /// The tokens aren't of the loose grammar.
    Syntax(Unexpected),
    /// The nesting passes the limit.
    Depth,
    /// Memory ran out.
    Memory,
}

impl From<AllocError> for ReadError {
    ghost use Rattle.cedar_loose.specs.declared.error.ReadError.TheVariants.{Memory};

    ghost from_gives = { λ _ e. e ≡ Memory };

    fn from(_error: AllocError) -> ReadError {
        ReadError::Memory
    }
}

impl<T: Drop> From<AllocFailed<T>> for ReadError {
    ghost use Rattle.cedar_loose.specs.declared.error.ReadError.TheVariants.{Memory};

    ghost from_gives = { λ _ e. e ≡ Memory };

    fn from(_failed: AllocFailed<T>) -> ReadError {
        ReadError::Memory
    }
}

impl From<TokenError> for ReadError {
    ghost use Rattle.cedar_loose.specs.Gives.{TellsTokenError};

    ghost from_gives = { TellsTokenError };

    fn from(error: TokenError) -> ReadError {
        match error {
            TokenError::Unexpected { place } => ReadError::Syntax(Unexpected {
                met: Met::NoToken,
                span: Span {
                    start: place,
                    end: place,
                },
                expected: Kinds::NONE,
            }),
            TokenError::Memory => ReadError::Memory,
        }
    }
}
