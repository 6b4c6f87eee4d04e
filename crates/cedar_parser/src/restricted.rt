// Restricted expressions.
ghost use Rattle.std.specs.Prelude.{◌≡◌, IfOk, IfErr, false};
ghost use Rattle.cedar_restricted.specs.Views.{restricted_tree};
ghost use Rattle.cedar_trees.specs.Bare.{bare};
ghost use Rattle.cedar_grammar.specs.UnknownCalls.{holds_call};
ghost use Rattle.cedar_grammar.specs.LooseReading.{read_expr};
ghost use Rattle.cedar_parser.specs.Errors.{TellsSame};
ghost use Rattle.cedar_parser.specs.Faults.{RestrictedTellsOnly, strict_shows, text_shows};
ghost use Rattle.cedar_parser.specs.Strict.{LacksUnknown, Keeps, ReadsRestricted, TellsOffence};

use crate::errors::{ParseError, ParseErrors};
use crate::expressions::parse_expr_strict;
use crate::height::is_low;
use cedar_faults::ExtStyles;
use cedar_restricted::errors::RestrictedExpressionError;
use cedar_restricted::restricted::RestrictedExpr;
use cedar_restricted::restricted_laws::offences_are_what_is_not_restricted;
use cedar_trees::expr::Expr;
use std::alloc::{AllocError, Global};
use thiserror::Error;

/// Why a text isn't read as a restricted expression.
#[derive(Debug, PartialEq, Eq, Drop, Error)]
pub enum RestrictedExpressionParseError {
    /// The text is no expression.
    #[error(transparent)]
    Parse(ParseErrors),
    /// It is an expression, but not restricted; or memory ran out.
    #[error(transparent)]
    InvalidRestrictedExpression(RestrictedExpressionError),
}

impl RestrictedExpressionParseError {
    /// A copy that shares the parts; refused for memory alone.
    pub fn clone(&self, alloc: Global) -> Result<RestrictedExpressionParseError, AllocError>
        ensures { IfOk result (TellsSame self.now) }
    {
        match self {
            RestrictedExpressionParseError::Parse(errors) => {
                Ok(RestrictedExpressionParseError::Parse(errors.clone(alloc)?))
            }
            RestrictedExpressionParseError::InvalidRestrictedExpression(error) => {
                Ok(RestrictedExpressionParseError::InvalidRestrictedExpression(error.clone(alloc)?))
            }
        }
    }
}

impl From<ParseErrors> for RestrictedExpressionParseError {
    ghost use Rattle.std.specs.Prelude.{◌≡◌};
    ghost use Rattle.cedar_parser.specs.declared.restricted.RestrictedExpressionParseError.TheVariants.{Parse};

    ghost from_gives = { λ errors made. made ≡ Parse errors };

    fn from(errors: ParseErrors) -> RestrictedExpressionParseError {
        RestrictedExpressionParseError::Parse(errors)
    }
}

impl From<RestrictedExpressionError> for RestrictedExpressionParseError {
    ghost use Rattle.std.specs.Prelude.{◌≡◌};
    ghost use Rattle.cedar_parser.specs.declared.restricted.RestrictedExpressionParseError.TheVariants.{InvalidRestrictedExpression};

    ghost from_gives = { λ error made. made ≡ InvalidRestrictedExpression error };

    fn from(error: RestrictedExpressionError) -> RestrictedExpressionParseError {
        RestrictedExpressionParseError::InvalidRestrictedExpression(error)
    }
}

/// The restricted expression that a text is within a nesting of `depth`, no higher than that, where these
/// names may be called: literals, sets, records and calls alone. No `unknown` is called in it where the
/// names lack it.
///
/// It is refused `Parse` as [`parse_expr_strict`] refuses it, so for a slot too, and for `Depth` also where
/// its tree is higher than `depth`; and `InvalidRestrictedExpression` with its first part that may not stand
/// there and what that part is called, or for memory.
pub fn parse_restrictedexpr(
    alloc: Global,
    text: &str,
    styles: &ExtStyles,
    depth: u32,
) -> Result<RestrictedExpr, RestrictedExpressionParseError>
    ensures body { ReadsRestricted styles.now depth text.now result }
    ensures offence { IfErr result (TellsOffence styles.now depth text.now) }
    ensures calls { IfOk result (λ body. LacksUnknown styles.now → holds_call (restricted_tree body) ≡ false) }
    ensures shown { IfErr result (λ error. RestrictedTellsOnly error (text_shows read_expr depth text.now (strict_shows styles.now))) }
{
    let expr = parse_expr_strict(alloc, text, styles, depth)?;
    if !is_low(&expr, depth) {
        let errors = ParseErrors::one(alloc, ParseError::Depth);
        return Err(RestrictedExpressionParseError::Parse(errors));
    }
    restricted(alloc, expr)
}

// The expression, where it is restricted.
fn restricted(alloc: Global, expr: Expr) -> Result<RestrictedExpr, RestrictedExpressionParseError>
    ensures { Keeps (bare expr) result }
{
    // This runs no code: its contract is the law of what may not stand there.
    offences_are_what_is_not_restricted();

    match RestrictedExpr::new(alloc, expr) {
        Ok(body) => Ok(body),
        Err(error) => Err(RestrictedExpressionParseError::InvalidRestrictedExpression(error)),
    }
}
