// Words, strings, literals and slots.
ghost use Rattle.std.specs.Prelude.{◌≡◌, IfOk};
ghost use Rattle.cedar_tokens.specs.Spelling.{IsSpelledWord};
ghost use Rattle.cedar_tokens.specs.View.{word_view};
ghost use Rattle.cedar_grammar.specs.Steps.{word_read, text_read};
ghost use Rattle.cedar_grammar.specs.Token.{spelled};
ghost use Rattle.cedar_grammar.specs.Loose as loose;
ghost use Rattle.cedar_grammar.specs.LooseReading.{mapped, needed, literal_of, slot_of};
ghost use Rattle.cedar_cst.specs.LeafView.{view_ident, view_slot, shown_ident, shown_str, shown_literal, shown_slot};
ghost use Rattle.cedar_loose.specs.Gives.{Gives};
ghost use Rattle.cedar_loose.specs.Steps.{slot_read};

use crate::cursor::Cursor;
use crate::error::ReadError;
use cedar_cst::cst::{Ident, Literal, Slot, Str};
use cedar_cst::node::Node;
use cedar_tokens::{Kinds, TokenKind, Word};
use std::alloc::{AllocError, Global};
use std::rc::RcStr;

/// How a word is written.
fn spelling(word: Word<'_>) -> &str
    ensures { result.now ≡ spelled (word_view word.entry) }
{
    match word {
        Word::True => "true",
        Word::False => "false",
        Word::If => "if",
        Word::Then => "then",
        Word::Else => "else",
        Word::In => "in",
        Word::Like => "like",
        Word::Has => "has",
        Word::Is => "is",
        Word::Cedar => "__cedar",
        Word::Permit => "permit",
        Word::Forbid => "forbid",
        Word::When => "when",
        Word::Unless => "unless",
        Word::Principal => "principal",
        Word::Action => "action",
        Word::Resource => "resource",
        Word::Context => "context",
        Word::Other(text) => text,
    }
}

/// The word, as a tree has it; refused for memory alone.
#[tactic(auto, using(crate::proofs::Spelled::other_written))]
fn ident_of(alloc: Global, word: Word<'_>) -> Result<Ident, AllocError>
    requires { IsSpelledWord word }
    ensures { IfOk result (λ ident. view_ident ident ≡ loose.ident (word_view word.entry)) }
{
    Ok(match word {
        Word::True => Ident::True,
        Word::False => Ident::False,
        Word::If => Ident::If,
        Word::Then => Ident::Then,
        Word::Else => Ident::Else,
        Word::In => Ident::In,
        Word::Like => Ident::Like,
        Word::Has => Ident::Has,
        Word::Is => Ident::Is,
        Word::Cedar => Ident::Ident(RcStr::from_str(alloc, "__cedar")?),
        Word::Permit => Ident::Permit,
        Word::Forbid => Ident::Forbid,
        Word::When => Ident::When,
        Word::Unless => Ident::Unless,
        Word::Principal => Ident::Principal,
        Word::Action => Ident::Action,
        Word::Resource => Ident::Resource,
        Word::Context => Ident::Context,
        Word::Other(text) => Ident::Ident(RcStr::from_str(alloc, text)?),
    })
}

/// The slot of a word after `?`; refused for memory alone.
fn slot_of(alloc: Global, word: Word<'_>) -> Result<Slot, AllocError>
    ensures { IfOk result (λ slot. view_slot slot ≡ slot_of (word_view word.entry)) }
{
    Ok(match word {
        Word::Principal => Slot::Principal,
        Word::Resource => Slot::Resource,
        _ => Slot::Other(RcStr::from_str(alloc, spelling(word))?),
    })
}

impl<'t> Cursor<'t> {
    /// Takes a word, which has to be next.
    pub fn ident(&mut self, alloc: Global) -> Result<Node<Option<Ident>>, ReadError>
        ensures { Gives shown_ident result self.new (mapped loose.ident (needed (word_read self.old))) }
    {
        let start = self.start();
        let word = self.word()?;
        let ident = ident_of(alloc, word)?;
        Ok(self.node(start, ident)?)
    }

    /// Takes a string, which has to be next.
    pub fn string(&mut self, alloc: Global) -> Result<Node<Option<Str>>, ReadError>
        ensures { Gives shown_str result self.new (mapped loose.string (needed (text_read self.old))) }
    {
        let start = self.start();
        let raw = self.text()?;
        let text = RcStr::from_str(alloc, raw)?;
        Ok(self.node(start, Str::String(text))?)
    }

    /// Takes a literal, which has to be next.
    #[tactic(auto, unfolding(cedar_grammar::specs::LooseReading::literal_of))]
    pub(crate) fn literal(&mut self, alloc: Global) -> Result<Node<Option<Literal>>, ReadError>
        ensures { Gives shown_literal result self.new (literal_of self.old) }
    {
        let start = self.start();
        self.note(Kinds::LITERALS);
        let literal = match self.kind() {
            Some(TokenKind::Word(Word::True)) => Literal::True,
            Some(TokenKind::Word(Word::False)) => Literal::False,
            Some(TokenKind::Number(digits)) => match digits.parse::<u64>() {
                Ok(value) => Literal::Num(value),
                Err(_) => return Err(ReadError::Syntax(self.stopped(Kinds::NONE))),
            },
            Some(TokenKind::Text(_)) => {
                let string = self.string(alloc)?;
                let string = Box::new(alloc, string)?;
                return Ok(self.node(start, Literal::Str(string))?);
            }
            _ => return Err(ReadError::Syntax(self.unexpected())),
        };
        self.skip();
        Ok(self.node(start, literal)?)
    }

    /// Takes a slot, which has to be next.
    pub(crate) fn slot(&mut self, alloc: Global) -> Result<Node<Option<Slot>>, ReadError>
        ensures { Gives shown_slot result self.new (slot_read self.old) }
    {
        let start = self.start();
        self.note(Kinds::SLOTS);
        let Some(TokenKind::Slot(word)) = self.kind() else {
            return Err(ReadError::Syntax(self.unexpected()));
        };
        let slot = slot_of(alloc, word)?;
        self.skip();
        Ok(self.node(start, slot)?)
    }
}
