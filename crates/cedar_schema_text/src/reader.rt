// The tokens of a schema's text, read one after the other.
ghost use Rattle.std.specs.Prelude.{not, ◌≡◌, ◌≤◌, suc};
ghost use Rattle.cedar_schema_grammar.specs.Tokens as token;
ghost use Rattle.cedar_schema_grammar.specs.Tokens.{eat};
ghost use Rattle.cedar_schema_grammar.specs.Reading.{is_end};
ghost use Rattle.cedar_schema_text.specs.View.{mark_view};
ghost use Rattle.cedar_schema_text.specs.Gives.{left, Advances, AdvancesIfOk, Begins, Leaves, Eats};

use crate::read_error::{ReadError, SyntaxFault};
use crate::texts::is_written;
use crate::tokens::{Mark, Token, TokenKind};
use std::alloc::Global;

/// Reads the tokens of a text. Each function begins at the token of which it is given the number, and moves that
/// number behind what it takes.
#[derive(Drop)]
pub struct Reader<'t> {
    pub alloc: Global,
    pub tokens: Vec<Token<'t>>,
    /// Where the text ends.
    pub end: usize,
}

impl<'t> Reader<'t> {
    /// What the token is, if it is one of the text's.
    pub fn kind(&self, at: usize) -> Option<TokenKind<'t>>
        ensures { Begins (left self.now at) result (left self.now (suc at)) }
    {
        let token = self.tokens.get(at)?;
        Some(token.kind)
    }

    /// Where the token stands, or where the text ends.
    pub fn place(&self, at: usize) -> usize {
        match self.tokens.get(at) {
            Some(token) => token.place,
            None => self.end,
        }
    }

    /// That the token can't stand there.
    pub fn unexpected(&self, at: usize) -> ReadError {
        let fault = match at < self.tokens.len() {
            true => SyntaxFault::UnexpectedToken,
            false => SyntaxFault::UnexpectedEnd,
        };
        ReadError::Syntax {
            fault,
            place: self.place(at),
        }
    }

    /// Takes the mark, if it is next.
    pub fn eat(&self, mark: Mark, at: &mut usize) -> bool
        ensures eats { Eats result (left self.now at.new) (eat (token.mark (mark_view mark)) (left self.now at.old)) (left self.now at.old) }
        ensures onward { at.old ≤ at.new }
        ensures advances { Advances self.now result at.old at.new }
    {
        let found = matches!(self.kind(*at), Some(TokenKind::Mark(next)) if next == mark);
        if found {
            *at += 1;
        }
        found
    }

    /// Takes the mark, which has to be next.
    pub fn expect(&self, mark: Mark, at: &mut usize) -> Result<(), ReadError>
        ensures leaves { Leaves result (left self.now at.new) (eat (token.mark (mark_view mark)) (left self.now at.old)) }
        ensures onward { at.old ≤ at.new }
        ensures advances { AdvancesIfOk self.now result at.old at.new }
    {
        if self.eat(mark, at) {
            Ok(())
        } else {
            Err(self.unexpected(*at))
        }
    }

    /// Takes the word, if it is next.
    pub fn eat_word(&self, word: &str, at: &mut usize) -> bool
        ensures eats { Eats result (left self.now at.new) (eat (token.word word.now) (left self.now at.old)) (left self.now at.old) }
        ensures onward { at.old ≤ at.new }
        ensures advances { Advances self.now result at.old at.new }
    {
        let found = matches!(self.kind(*at), Some(TokenKind::Word(next)) if is_written(next, word));
        if found {
            *at += 1;
        }
        found
    }
    /// Takes the word, which has to be next.
    pub fn expect_word(&self, word: &str, at: &mut usize) -> Result<(), ReadError>
        ensures leaves { Leaves result (left self.now at.new) (eat (token.word word.now) (left self.now at.old)) }
        ensures onward { at.old ≤ at.new }
        ensures advances { AdvancesIfOk self.now result at.old at.new }
    {
        if self.eat_word(word, at) {
            Ok(())
        } else {
            Err(self.unexpected(*at))
        }
    }

    /// Whether the token is one of the text's.
    pub fn is_more(&self, at: usize) -> bool
        ensures { result ≡ not (is_end (left self.now at)) }
    {
        self.kind(at).is_some()
    }
}
