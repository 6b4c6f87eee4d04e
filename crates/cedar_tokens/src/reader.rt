// The tokens of a text, read one at a time.
ghost use Rattle.std.specs.Prelude.{◌≡◌, [], ◌∷◌, IfOk, IfErr, IfSome, IsSome, MatchOption};
ghost use Rattle.std.specs.Str.{chars};
ghost use Rattle.cedar_grammar.specs.Tokens.{IsTokens, tokens_of};
ghost use Rattle.cedar_tokens.specs.View.{token_of};
ghost use Rattle.cedar_tokens.specs.Rest.{IsRest};
ghost use Rattle.cedar_tokens.specs.Places.{StandsIn};
ghost use Rattle.cedar_tokens.specs.Refusal.{RefusesText};
ghost use Rattle.cedar_tokens.specs.Spelling.{IsSpelledToken};
ghost use Rattle.cedar_tokens.specs.Unread.{all_tokens, without_first, behind_first};

use crate::characters::skip_blank;
use crate::error::TokenError;
use crate::kinds::split_token;
use crate::tokenizer::read_token;
use crate::tokens::Token;
use std::marker::Model;

/// The tokens of a text that are left to read. Each is read where it is needed, so that a text of any
/// length takes no memory; contracts see the text and the list of those tokens.
#[derive(Drop)]
pub struct Tokens<'t> {
    text: &'t str,
    next: Option<Token<'t>>,
    /// What follows the next token in the text.
    rest: &'t str,
}

impl<'t> Model for Tokens<'t> {
    ghost use Rattle.std.specs.Str.{chars};
    ghost use Rattle.cedar_tokens.specs.Unread.{Unread, IsReadable, next_and_others};

    ghost Value = { Unread };

    ghost view = { λ s. record { text = s.text.now; left = next_and_others s.next (chars s.rest.now) } };

    ghost invariant = { λ s. IsReadable s.text.now s.next s.rest.now };
}

impl<'t> Tokens<'t> {
    /// All tokens of the text, in order. White space and comments may stand before, between and after
    /// them, and each token is the longest at its place (Cedar language reference, "Grammar
    /// specification for Cedar policy syntax").
    ///
    /// It is refused exactly where the text has no tokens at all, with a place at which none stands. It
    /// takes no memory, and time linear in the text.
    pub fn new(text: &'t str) -> Result<Tokens<'t>, TokenError>
        ensures text { IfOk result (λ tokens. tokens.text ≡ text.now) }
        ensures tokens { IfOk result (λ tokens. IsTokens text.now tokens.left) }
        ensures refused { IfErr result (RefusesText text.now) }
    {
        check(text)?;
        Ok(Tokens::of(text, text))
    }

    /// The tokens in the rest of the text.
    fn of(text: &'t str, rest: &'t str) -> Tokens<'t>
        requires cut { IsRest text.now rest.now }
        requires readable { IsSome (tokens_of (chars rest.now)) }
        ensures { result ≡ record { text = text.now; left = all_tokens (chars rest.now) } }
    {
        let rest = skip_blank(rest);
        let Some((token, after)) = read_token(text, rest) else {
            return Tokens {
                text,
                next: None,
                rest,
            };
        };
        Tokens {
            text,
            next: Some(token),
            rest: after,
        }
    }

    /// The next token, with its place in the text.
    pub fn first(&self) -> Option<Token<'t>>
        ensures first { MatchOption result (self.now.left ≡ [])
            (λ t. self.now.left ≡ token_of t ∷ without_first self.now.left) }
        ensures place { IfSome result (StandsIn self.now.text) }
        ensures spelled { IfSome result IsSpelledToken }
    {
        self.next
    }

    /// What is left behind the next token.
    pub fn behind(&self) -> Tokens<'t>
        ensures { result ≡ behind_first self.now }
    {
        Tokens::of(self.text, self.rest)
    }

    /// Takes the next token, if there is one.
    pub fn skip(&mut self)
        ensures { self.new ≡ behind_first self.old }
    {
        *self = self.behind();
    }
}

/// Whether the text is tokens, which are not kept.
fn check(text: &str) -> Result<(), TokenError>
    ensures readable { IfOk result (λ _. IsSome (tokens_of (chars text.now))) }
    ensures refused { IfErr result (RefusesText text.now) }
{
    let mut rest = skip_blank(text);
    'tokens: while !rest.is_empty() {
        let Some((_, after)) = split_token(rest) else {
            let place = text.len() - rest.len();
            return Err(TokenError::Unexpected { place });
        };
        rest = skip_blank(after);
    }
    Ok(())
}
