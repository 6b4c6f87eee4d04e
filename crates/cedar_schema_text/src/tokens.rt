// What a schema's text is read into: its tokens.

/// A punctuation mark.
#[derive(Clone, Copy, Debug, PartialEq, Eq)]
pub enum Mark {
    LeftBrace,
    RightBrace,
    LeftBracket,
    RightBracket,
    LeftParen,
    RightParen,
    LeftAngle,
    RightAngle,
    Comma,
    Semicolon,
    Colon,
    ColonColon,
    Question,
    Equal,
    At,
}

/// A token of one of the kinds of the lexical grammar of schemas.
#[derive(Clone, Copy, Debug)]
pub enum TokenKind<'t> {
    /// An ASCII letter or `_`, and then ASCII letters, digits and `_`.
    Word(&'t str),
    /// What stands between the quotes, escapes as they are written.
    Text(&'t str),
    Mark(Mark),
}

/// A token, and the byte of the text at which it starts.
#[derive(Clone, Copy, Debug)]
pub struct Token<'t> {
    pub kind: TokenKind<'t>,
    pub place: usize,
}
