// Errors of a text.
ghost use Rattle.std.specs.Prelude.{◌≡◌, [], IfOk};
ghost use Rattle.cedar_parser.specs.ErrorsLeft.{errors_of};

use cedar_faults::ToASTError;
use cedar_loose::ToCSTError;
use cedar_trees::unknowns::NonEmpty;
use std::alloc::{AllocError, Global};
use std::error::Error;
use std::fmt;
use thiserror::Error;

/// Why a text isn't parsed.
#[derive(Debug, PartialEq, Eq, Drop, Error)]
pub enum ParseError {
    /// The text is outside the loose grammar.
    #[error(transparent)]
    ToCST(ToCSTError),
    /// It is inside it, but a part of it means nothing.
    #[error(transparent)]
    ToAST(ToASTError),
    /// The text's nesting passes the limit.
    #[error("the text is nested too deep")]
    Depth,
    /// Memory ran out.
    #[error("out of memory")]
    Memory,
}

impl Clone for ParseError {
    ghost is_clone = { λ error copy. copy ≡ error };

    fn clone(&self) -> Result<ParseError, AllocError> {
        Ok(match self {
            ParseError::ToCST(error) => ParseError::ToCST(error.clone()?),
            ParseError::ToAST(error) => ParseError::ToAST(error.clone()?),
            ParseError::Depth => ParseError::Depth,
            ParseError::Memory => ParseError::Memory,
        })
    }
}

/// Errors of one text: at least one.
#[derive(Debug, PartialEq, Eq, Drop)]
pub struct ParseErrors(pub NonEmpty<ParseError>);

impl ParseErrors {
    /// One error alone. It takes no memory.
    pub fn one(alloc: Global, error: ParseError) -> ParseErrors
        ensures first { result.0.head ≡ error }
        ensures alone { result.0.tail.items ≡ [] }
    {
        ParseErrors(NonEmpty {
            head: error,
            tail: Vec::new(alloc),
        })
    }

    /// A copy, which shares the kinds of faults; refused for memory alone.
    pub fn clone(&self, alloc: Global) -> Result<ParseErrors, AllocError>
        ensures { IfOk result (λ copy. errors_of copy ≡ errors_of self.now) }
    {
        Ok(ParseErrors(NonEmpty {
            head: self.0.head.clone()?,
            tail: Vec::from_clones(alloc, &self.0.tail)?,
        }))
    }
}

impl Error for ParseErrors {}

impl fmt::Display for ParseErrors {
    fn fmt<W: fmt::Write>(&self, f: &mut fmt::Formatter<W>) -> fmt::Result {
        self.0.head.fmt(f)
    }
}

impl AsRef<NonEmpty<ParseError>> for ParseErrors {
    fn as_ref(&self) -> &NonEmpty<ParseError> {
        &self.0
    }
}
