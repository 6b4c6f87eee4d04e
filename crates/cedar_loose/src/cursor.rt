// The tokens that are left to read.
ghost use Rattle.std.specs.Prelude.{◌≡◌, [], Some, IfOk, IfSome};
ghost use Rattle.std.specs.Str.{chars};
ghost use Rattle.cedar_grammar.specs.Steps.{eat, eat_in, eat_then, eat_else, word_read, text_read, begins_annotation, is_more};
ghost use Rattle.cedar_tokens.specs.Spelling.{IsSpelled, IsSpelledWord};
ghost use Rattle.cedar_tokens.specs.Unread.{without_first};
ghost use Rattle.cedar_tokens.specs.View.{mark_view, word_view};
ghost use Rattle.cedar_grammar.specs.LooseReading.{needed, eat_is, next_word, begins_access, begins_cond};
ghost use Rattle.cedar_loose.specs.Gives.{Begins, Eats, Gives, Leaves};
ghost use Rattle.cedar_loose.specs.Steps.{begins, begins_literal, begins_name, ended, eat_if, eat_has, eat_like};

use crate::error::{Met, ReadError, Unexpected};
use crate::kinds::kind_of;
use cedar_cst::node::Node;
use cedar_names::places::{Loc, Span};
use cedar_tokens::{Kinds, Mark, TokenKind, Tokens, Word};
use std::alloc::{AllocError, Global};
use std::cell::Cell;
use std::marker::Model;
use std::rc::RcStr;

/// The tokens of a text that are left to read.
#[derive(Drop)]
pub struct Cursor<'t> {
    alloc: Global,
    tokens: Tokens<'t>,
    source: &'t RcStr,
    /// Where the last token that was taken ends.
    end: usize,
    /// The kinds of tokens that readers looked for where the next token stands.
    expected: Cell<Kinds>,
    /// The place of the last node that was made.
    last: Cell<Option<Loc>>,
}

impl<'t> Model for Cursor<'t> {
    ghost use Rattle.std.specs.Prelude.{List};
    ghost use Rattle.cedar_grammar.specs.Token.{Token};

    ghost Value = { List Token };

    ghost view = { λ c. c.tokens.left };
}

impl<'t> Cursor<'t> {
    /// These tokens of the text `source`.
    pub fn new(alloc: Global, tokens: Tokens<'t>, source: &'t RcStr) -> Cursor<'t>
        ensures { result ≡ tokens.entry.left }
    {
        Cursor {
            alloc,
            tokens,
            source,
            end: 0,
            expected: Cell::new(Kinds::NONE),
            last: Cell::new(None),
        }
    }

    /// Notes that a token of these kinds may stand next.
    pub(crate) fn note(&self, kinds: Kinds) {
        self.expected.set(self.expected.get().with(kinds));
    }

    /// The next token.
    pub fn kind(&self) -> Option<TokenKind<'t>>
        ensures begins { Begins self.now result }
        ensures spelled { IfSome result IsSpelled }
    {
        let token = self.tokens.first()?;
        Some(token.kind)
    }

    /// Where the next token stands, or where the text ends.
    fn span(&self) -> Span {
        match self.tokens.first() {
            Some(token) => Span {
                start: token.span.start,
                end: token.span.end,
            },
            None => Span {
                start: self.source.len(),
                end: self.source.len(),
            },
        }
    }

    /// Where the next token starts, or where the text ends. No contract tells places: they are only tested.
    pub fn start(&self) -> usize {
        self.span().start
    }

    /// That the next token can't stand there. Behind a name a `::` may stand, so the fault is then what
    /// follows it. No contract tells what is met, where, and what was expected: they are only tested.
    #[inline(never)]
    pub fn unexpected(&self) -> Unexpected {
        let expected = self.expected.get();
        if self.is_separator() && expected.meets(Kinds::COLON_COLON) {
            self.behind().stopped(Kinds::WORDS)
        } else {
            self.stopped(expected)
        }
    }

    /// That the next token isn't of the kinds that are expected.
    pub(crate) fn stopped(&self, expected: Kinds) -> Unexpected {
        let met = if self.is_more() { Met::Token } else { Met::End };
        Unexpected {
            met,
            span: self.span(),
            expected,
        }
    }

    fn is_separator(&self) -> bool {
        matches!(self.kind(), Some(TokenKind::Mark(Mark::ColonColon)))
    }

    /// Whether a token is left.
    pub fn is_more(&self) -> bool
        ensures { result ≡ is_more self.now }
    {
        self.tokens.first().is_some()
    }

    /// That no token is left.
    pub fn finish(&self) -> Result<(), ReadError>
        ensures { Leaves result [] (ended self.now) }
    {
        if self.is_more() {
            Err(ReadError::Syntax(self.unexpected()))
        } else {
            Ok(())
        }
    }

    /// The value, at the place from `start` up to the end of the last token that was taken; refused
    /// for memory alone. No contract tells the place: it is only tested.
    pub fn node<T: Drop>(&self, start: usize, value: T) -> Result<Node<Option<T>>, AllocError>
        ensures { IfOk result (λ node. node.node ≡ Some value) }
    {
        let loc = self.place(Span {
            start,
            end: self.end,
        })?;
        Ok(Node::with_source_loc(Some(value), loc))
    }

    /// The same in a box.
    pub(crate) fn boxed_node<T: Drop>(
        &self,
        start: usize,
        value: T,
    ) -> Result<Box<Node<Option<T>>>, AllocError>
        ensures { IfOk result (λ b. b.value.node ≡ Some value) }
    {
        let node = self.node(start, value)?;
        Ok(Box::new(self.alloc, node)?)
    }

    /// The place of these bytes; refused for memory alone. The nodes round an operand that stands alone
    /// share one, since each of them is made after what it holds.
    #[inline(never)]
    fn place(&self, span: Span) -> Result<Loc, AllocError> {
        let last = self.last.take();
        let loc = match &last {
            Some(loc) if loc.span() == span => loc.clone(self.alloc)?,
            _ => Loc::new(self.alloc, span, self.source.clone()?)?,
        };
        self.last.set(Some(loc.clone(self.alloc)?));
        Ok(loc)
    }

    /// Takes the next token, if there is one.
    #[inline(never)]
    pub fn skip(&mut self)
        ensures { self.new ≡ without_first self.old }
    {
        if let Some(token) = self.tokens.first() {
            self.end = token.span.end;
            self.tokens.skip();
            self.expected = Cell::new(Kinds::NONE);
        }
    }

    /// Takes the mark, if it is next.
    pub fn eat(&mut self, mark: Mark) -> bool
        ensures { Eats result self.new (eat (mark_view mark) self.old) self.old }
    {
        let found = self.begins(mark);
        if found {
            self.skip();
        }
        found
    }

    /// Whether this mark is next.
    fn begins(&self, mark: Mark) -> bool
        ensures { result ≡ begins (mark_view mark) self.now }
    {
        self.note(kind_of(mark));
        matches!(self.kind(), Some(TokenKind::Mark(next)) if next == mark)
    }

    /// Whether a word is next.
    pub fn begins_word(&self) -> bool
        ensures { result ≡ begins_cond self.now }
    {
        self.note(Kinds::WORDS);
        matches!(self.kind(), Some(TokenKind::Word(_)))
    }

    /// Whether an annotation is next.
    pub fn begins_annotation(&self) -> bool
        ensures { result ≡ begins_annotation self.now }
    {
        self.note(Kinds::AT);
        matches!(self.kind(), Some(TokenKind::Mark(Mark::At)))
    }

    /// Whether an access is next.
    pub(crate) fn begins_access(&self) -> bool
        ensures { result ≡ begins_access self.now }
    {
        self.note(Kinds::ACCESSES);
        matches!(
            self.kind(),
            Some(TokenKind::Mark(Mark::Dot | Mark::LeftParen | Mark::LeftBracket))
        )
    }

    /// Whether a literal is next.
    pub(crate) fn begins_literal(&self) -> bool
        ensures { result ≡ begins_literal self.now }
    {
        self.note(Kinds::LITERALS);
        matches!(
            self.kind(),
            Some(
                TokenKind::Number(_)
                    | TokenKind::Text(_)
                    | TokenKind::Word(Word::True | Word::False)
            )
        )
    }

    /// Whether a word is next that may begin a name in an expression.
    pub(crate) fn begins_name(&self) -> bool
        ensures { result ≡ begins_name self.now }
    {
        self.note(Kinds::NAMES);
        match self.kind() {
            Some(TokenKind::Word(Word::If | Word::True | Word::False)) => false,
            Some(TokenKind::Word(_)) => true,
            _ => false,
        }
    }

    /// What is left behind the next token.
    fn behind(&self) -> Cursor<'t>
        ensures { result ≡ without_first self.now }
    {
        Cursor {
            alloc: self.alloc,
            tokens: self.tokens.behind(),
            source: self.source,
            end: self.span().end,
            expected: Cell::new(Kinds::NONE),
            last: Cell::new(None),
        }
    }

    /// Takes `::`, if it is next and a word follows.
    pub(crate) fn eat_separator(&mut self) -> bool
        ensures { Eats result self.new (next_word self.old) self.old }
    {
        let found = self.begins(Mark::ColonColon) && self.behind().begins_word();
        if found {
            self.skip();
        }
        found
    }

    /// Takes the mark, which has to be next.
    #[inline(never)]
    pub fn expect(&mut self, mark: Mark) -> Result<(), ReadError>
        ensures { Leaves result self.new (needed (eat (mark_view mark) self.old)) }
    {
        if self.eat(mark) {
            Ok(())
        } else {
            Err(ReadError::Syntax(self.unexpected()))
        }
    }

    /// Takes `if`, if it is next.
    pub fn eat_if(&mut self) -> bool
        ensures { Eats result self.new (eat_if self.old) self.old }
    {
        self.note(Kinds::IF);
        let found = matches!(self.kind(), Some(TokenKind::Word(Word::If)));
        if found {
            self.skip();
        }
        found
    }

    /// Takes `then`, which has to be next.
    #[inline(never)]
    pub fn expect_then(&mut self) -> Result<(), ReadError>
        ensures { Leaves result self.new (needed (eat_then self.old)) }
    {
        self.note(Kinds::THEN);
        let Some(TokenKind::Word(Word::Then)) = self.kind() else {
            return Err(ReadError::Syntax(self.unexpected()));
        };
        self.skip();
        Ok(())
    }

    /// Takes `else`, which has to be next.
    #[inline(never)]
    pub fn expect_else(&mut self) -> Result<(), ReadError>
        ensures { Leaves result self.new (needed (eat_else self.old)) }
    {
        self.note(Kinds::ELSE);
        let Some(TokenKind::Word(Word::Else)) = self.kind() else {
            return Err(ReadError::Syntax(self.unexpected()));
        };
        self.skip();
        Ok(())
    }

    /// Takes `in`, if it is next.
    pub fn eat_in(&mut self) -> bool
        ensures { Eats result self.new (eat_in self.old) self.old }
    {
        self.note(Kinds::IN);
        let found = matches!(self.kind(), Some(TokenKind::Word(Word::In)));
        if found {
            self.skip();
        }
        found
    }

    /// Takes `is`, if it is next.
    pub fn eat_is(&mut self) -> bool
        ensures { Eats result self.new (eat_is self.old) self.old }
    {
        self.note(Kinds::IS);
        let found = matches!(self.kind(), Some(TokenKind::Word(Word::Is)));
        if found {
            self.skip();
        }
        found
    }

    /// Takes `has`, if it is next.
    pub fn eat_has(&mut self) -> bool
        ensures { Eats result self.new (eat_has self.old) self.old }
    {
        self.note(Kinds::HAS);
        let found = matches!(self.kind(), Some(TokenKind::Word(Word::Has)));
        if found {
            self.skip();
        }
        found
    }

    /// Takes `like`, if it is next.
    pub fn eat_like(&mut self) -> bool
        ensures { Eats result self.new (eat_like self.old) self.old }
    {
        self.note(Kinds::LIKE);
        let found = matches!(self.kind(), Some(TokenKind::Word(Word::Like)));
        if found {
            self.skip();
        }
        found
    }

    /// Takes a word, which has to be next.
    pub fn word(&mut self) -> Result<Word<'t>, ReadError>
        ensures gives { Gives word_view result self.new (needed (word_read self.old)) }
        ensures spelled { IfOk result IsSpelledWord }
    {
        self.note(Kinds::WORDS);
        let Some(TokenKind::Word(word)) = self.kind() else {
            return Err(ReadError::Syntax(self.unexpected()));
        };
        self.skip();
        Ok(word)
    }

    /// Takes a string, which has to be next: what stands between its quotes.
    pub fn text(&mut self) -> Result<&'t str, ReadError>
        ensures { Gives (λ text. chars text.now) result self.new (needed (text_read self.old)) }
    {
        self.note(Kinds::STRINGLIT);
        let Some(TokenKind::Text(raw)) = self.kind() else {
            return Err(ReadError::Syntax(self.unexpected()));
        };
        self.skip();
        Ok(raw)
    }
}
