// A text, read into tokens.
ghost use Rattle.std.specs.Prelude.{◌≡◌, ◌-◌, All, IfOk, IfErr, IfSome, MatchOption, map, length};
ghost use Rattle.std.specs.Str.{chars};
ghost use Rattle.cedar_grammar.specs.Tokens.{IsTokens, token_read};
ghost use Rattle.cedar_tokens.specs.View.{token_of};
ghost use Rattle.cedar_tokens.specs.Rest.{IsRest};
ghost use Rattle.cedar_tokens.specs.Marks.{StartsNoComment};
ghost use Rattle.cedar_tokens.specs.Reads.{ReadsToken};
ghost use Rattle.cedar_tokens.specs.Places.{ArePlaced, StandsBetween};
ghost use Rattle.cedar_tokens.specs.Refusal.{Refuses};
ghost use Rattle.cedar_tokens.specs.Spelling.{IsSpelledToken};

use crate::characters::skip_blank;
use crate::error::TokenError;
use crate::kinds::split_token;
use crate::tokens::{Span, Token};
use std::alloc::Global;

/// The tokens of a text, in order, each with its place. White space and comments may stand before,
/// between and after them, and each token is the longest at its place (Cedar language reference,
/// "Grammar specification for Cedar policy syntax").
///
/// `Unexpected` comes exactly where the text has no tokens at all, with a place at which none stands;
/// `Memory` comes for want of memory alone. The time is linear in the text.
pub fn tokenize(alloc: Global, text: &str) -> Result<Vec<Token<'_>>, TokenError>
    ensures tokens { IfOk result (λ tokens. IsTokens text.now (map token_of tokens.items)) }
    ensures places { IfOk result (λ tokens. ArePlaced text.now 0 tokens.items (length text.now)) }
    ensures spelled { IfOk result (λ tokens. All IsSpelledToken tokens.items) }
    ensures refused { IfErr result (Refuses text.now) }
{
    let mut tokens = Vec::new(alloc);
    let mut rest = skip_blank(text);
    'tokens: while !rest.is_empty() {
        let Some((token, after)) = read_token(text, rest) else {
            let place = text.len() - rest.len();
            return Err(TokenError::Unexpected { place });
        };
        tokens.push(token)?;
        rest = skip_blank(after);
    }
    Ok(tokens)
}

/// The longest token at the start of the rest of the text, with its place, and what follows it.
pub fn read_token<'t>(text: &str, rest: &'t str) -> Option<(Token<'t>, &'t str)>
    requires cut { IsRest text.now rest.now }
    requires visible { StartsNoComment (chars rest.now) }
    ensures token { MatchOption result (token_read (chars rest.now) ≡ None)
        (λ x. ReadsToken rest.now (token_of x.0) x.1.now) }
    ensures place { IfSome result (λ x. StandsBetween text.now rest.now x.0 x.1.now) }
    ensures spelled { IfSome result (λ x. IsSpelledToken x.0) }
{
    let (kind, after) = split_token(rest)?;
    let span = Span {
        start: text.len() - rest.len(),
        end: text.len() - after.len(),
    };
    Some((Token { kind, span }, after))
}
