// What a text is read into: its tokens.

/// Where a token stands in its text: from the byte at `start` to before the byte at `end`.
#[derive(Clone, Copy, Debug, PartialEq, Eq)]
pub struct Span {
    pub start: usize,
    pub end: usize,
}

/// An ASCII letter or `_`, and then ASCII letters, digits and `_`. Cedar's words have a case each.
#[derive(Clone, Copy, Debug)]
pub enum Word<'t> {
    True,
    False,
    If,
    Then,
    Else,
    In,
    Like,
    Has,
    Is,
    /// `__cedar`
    Cedar,
    Permit,
    Forbid,
    When,
    Unless,
    Principal,
    Action,
    Resource,
    Context,
    /// Any other word, as it is written.
    Other(&'t str),
}

/// A punctuation mark or an operator.
#[derive(Clone, Copy, Debug, PartialEq, Eq)]
pub enum Mark {
    LeftParen,
    RightParen,
    LeftBracket,
    RightBracket,
    LeftBrace,
    RightBrace,
    Comma,
    Semicolon,
    Colon,
    ColonColon,
    Dot,
    At,
    AndAnd,
    OrOr,
    EqualEqual,
    NotEqual,
    Less,
    LessEqual,
    Greater,
    GreaterEqual,
    Plus,
    Minus,
    Star,
    Bang,
    Slash,
    Percent,
    /// A single `=`.
    Equal,
}

/// A token of one of the kinds of Cedar's lexical grammar.
#[derive(Clone, Copy, Debug)]
pub enum TokenKind<'t> {
    Word(Word<'t>),
    /// Decimal digits, as they are written.
    Number(&'t str),
    /// What stands between the quotes, escapes as they are written.
    Text(&'t str),
    /// `?` and a word.
    Slot(Word<'t>),
    Mark(Mark),
}

/// A token and its place.
#[derive(Clone, Copy, Debug)]
pub struct Token<'t> {
    pub kind: TokenKind<'t>,
    pub span: Span,
}
