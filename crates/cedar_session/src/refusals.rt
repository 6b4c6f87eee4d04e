// What a command is refused by whose text is refused.
ghost use Rattle.std.specs.Prelude.{◌≡◌};
ghost use Rattle.cedar_session.specs.Told.{text_refusal, body_refusal};

use cedar_parser::err::{ParseError, ParseErrors, RestrictedExpressionParseError};
use cedar_replies::Refusal;
use cedar_restricted::errors::RestrictedExpressionError;

/// What a command is refused by whose text has these errors: the first one decides.
pub(crate) fn of_text(errors: &ParseErrors) -> Refusal
    ensures { result ≡ text_refusal errors.now }
{
    match &errors.0.head {
        ParseError::ToCST(_) => Refusal::Text,
        ParseError::ToAST(_) => Refusal::Text,
        ParseError::Depth => Refusal::Depth,
        ParseError::Memory => Refusal::Memory,
    }
}

/// What a command is refused by whose body isn't read.
pub(crate) fn of_body(error: &RestrictedExpressionParseError) -> Refusal
    ensures { result ≡ body_refusal error.now }
{
    match error {
        RestrictedExpressionParseError::Parse(errors) => of_text(errors),
        RestrictedExpressionParseError::InvalidRestrictedExpression(error) => match error {
            RestrictedExpressionError::InvalidRestrictedExpression(_) => Refusal::NotRestricted,
            RestrictedExpressionError::Memory(_) => Refusal::Memory,
        },
    }
}
