// Why a text has no tree.
ghost use Rattle.std.specs.Prelude.{◌≡◌, Some, IfOk, is_some};
ghost use Rattle.cedar_tokens.specs.Kinds.{names_of};
ghost use Rattle.cedar_tokens.specs.Shown.{shows};
ghost use Rattle.cedar_loose.specs.Errors.{met_of, span_of, expected_of};

use crate::Met;
use cedar_names::places::{Loc, Span};
use cedar_tokens::{ExpectedTokenConfig, Kinds, expected_to_string};
use std::alloc::{AllocError, Global};
use std::error::Error;
use std::fmt;
use thiserror::Error;

/// The text is outside the loose grammar. `==` compares places and expected kinds too.
#[derive(Debug, PartialEq, Eq, Drop)]
pub struct ToCSTError {
    met: Met,
    loc: Loc,
    /// The kinds of tokens that may stand at the place.
    expected: Kinds,
}

impl ToCSTError {
    /// No token stands at this place.
    pub fn invalid_token(loc: Loc) -> ToCSTError
        ensures met { met_of result ≡ Met.NoToken }
        ensures place { span_of result ≡ loc.span }
        ensures expected { expected_of result ≡ Kinds.NONE }
    {
        ToCSTError {
            met: Met::NoToken,
            loc,
            expected: Kinds::NONE,
        }
    }

    /// The token at this place can't stand there, but one of these kinds may.
    pub fn unrecognized_token(loc: Loc, expected: Kinds) -> ToCSTError
        ensures met { met_of result ≡ Met.Token }
        ensures place { span_of result ≡ loc.span }
        ensures expected { expected_of result ≡ expected }
    {
        ToCSTError {
            met: Met::Token,
            loc,
            expected,
        }
    }

    /// The text can't end at this place, but a token of one of these kinds may follow.
    pub fn unrecognized_eof(loc: Loc, expected: Kinds) -> ToCSTError
        ensures met { met_of result ≡ Met.End }
        ensures place { span_of result ≡ loc.span }
        ensures expected { expected_of result ≡ expected }
    {
        ToCSTError {
            met: Met::End,
            loc,
            expected,
        }
    }

    /// Where the text is outside the grammar: the token that can't stand there, or the byte at which
    /// there is no token or the text ends.
    pub fn primary_source_span(&self) -> Option<Span>
        ensures { result ≡ Some (span_of self.now) }
    {
        Some(self.loc.span())
    }

    /// The kinds of tokens that may stand where the text is outside the grammar, as the reader looked for
    /// them; none where no token begins, or a number is too large.
    pub fn expected(&self) -> Kinds
        ensures { result ≡ expected_of self.now }
    {
        self.expected
    }

    /// The expected kinds as a text, `expected a, b, or c`; none where the config shows none of them.
    /// Refused for memory alone.
    pub fn label(
        &self,
        alloc: Global,
        config: &ExpectedTokenConfig,
    ) -> Result<Option<String>, AllocError>
        ensures { IfOk result (λ told. is_some told ≡ shows config.now (names_of (expected_of self.now))) }
    {
        let names = self.expected.names(alloc)?;
        expected_to_string(alloc, &names, config)
    }
}

impl Clone for ToCSTError {
    ghost is_clone = { λ error copy. copy ≡ error };

    fn clone(&self) -> Result<ToCSTError, AllocError> {
        Ok(ToCSTError {
            met: self.met,
            loc: Clone::clone(&self.loc)?,
            expected: self.expected,
        })
    }
}

impl Error for ToCSTError {}

impl fmt::Display for ToCSTError {
    fn fmt<W: fmt::Write>(&self, f: &mut fmt::Formatter<W>) -> fmt::Result {
        match self.met {
            Met::NoToken => f.write_str("invalid token"),
            Met::End => f.write_str("unexpected end of input"),
            Met::Token => match self.loc.snippet() {
                Some(token) => write!(f, "unexpected token `{token}`"),
                None => f.write_str("unexpected token"),
            },
        }
    }
}

/// Why a text has no loose tree.
#[derive(Debug, PartialEq, Eq, Clone, Drop, Error)]
pub enum LooseError {
    /// The text is outside the loose grammar.
    #[error(transparent)]
    ToCST(ToCSTError),
    /// The text's nesting passes the limit.
    #[error("the text is nested too deep")]
    Depth,
    /// Memory ran out.
    #[error("out of memory")]
    Memory,
}
