// A text, read into tokens.
ghost use Rattle.std.specs.Prelude.{◌≡◌, Some, All, IfOk, IfErr, map};
ghost use Rattle.std.specs.Str.{chars};
ghost use Rattle.cedar_schema_grammar.specs.Tokens.{tokens_of};
ghost use Rattle.cedar_schema_text.specs.View.{token_of};
ghost use Rattle.cedar_schema_text.specs.Places.{StandsIn, IsNoTokens};

use crate::kinds::split_token;
use crate::tokens::Token;
use cedar_tokens::{TokenError, skip_blank};
use std::alloc::Global;

/// The tokens of a text, in order, each with its place. White space and comments may stand before,
/// between and after them, and each token is the longest at its place (Cedar language reference,
/// "Schema grammar").
///
/// `Unexpected` comes exactly where the text has no tokens at all, with a place at which none stands;
/// `Memory` comes for want of memory alone. The time is linear in the text.
pub fn tokenize(alloc: Global, text: &str) -> Result<Vec<Token<'_>>, TokenError>
    ensures tokens { IfOk result (λ tokens. tokens_of (chars text.now) ≡ Some (map token_of tokens.items)) }
    ensures places { IfOk result (λ tokens. All (StandsIn text.now) tokens.items) }
    ensures refused { IfErr result (IsNoTokens text.now) }
{
    let mut tokens = Vec::new(alloc);
    let mut rest = skip_blank(text);
    'tokens: while !rest.is_empty() {
        let place = text.len() - rest.len();
        let Some((kind, after)) = split_token(rest) else {
            return Err(TokenError::Unexpected { place });
        };
        tokens.push(Token { kind, place })?;
        rest = skip_blank(after);
    }
    Ok(tokens)
}
