// Kinds of marks, as an error tells them.
use cedar_tokens::{Kinds, Mark};

/// The kind of a mark.
pub(crate) fn kind_of(mark: Mark) -> Kinds {
    match mark {
        Mark::LeftParen => Kinds::LEFT_PAREN,
        Mark::RightParen => Kinds::RIGHT_PAREN,
        Mark::LeftBracket => Kinds::LEFT_BRACKET,
        Mark::RightBracket => Kinds::RIGHT_BRACKET,
        Mark::LeftBrace => Kinds::LEFT_BRACE,
        Mark::RightBrace => Kinds::RIGHT_BRACE,
        Mark::Comma => Kinds::COMMA,
        Mark::Semicolon => Kinds::SEMICOLON,
        Mark::Colon => Kinds::COLON,
        Mark::ColonColon => Kinds::COLON_COLON,
        Mark::Dot => Kinds::DOT,
        Mark::At => Kinds::AT,
        Mark::AndAnd => Kinds::AND_AND,
        Mark::OrOr => Kinds::OR_OR,
        Mark::EqualEqual => Kinds::EQUAL_EQUAL,
        Mark::NotEqual => Kinds::NOT_EQUAL,
        Mark::Less => Kinds::LESS,
        Mark::LessEqual => Kinds::LESS_EQUAL,
        Mark::Greater => Kinds::GREATER,
        Mark::GreaterEqual => Kinds::GREATER_EQUAL,
        Mark::Plus => Kinds::PLUS,
        Mark::Minus => Kinds::MINUS,
        Mark::Star => Kinds::STAR,
        Mark::Bang => Kinds::BANG,
        Mark::Slash => Kinds::SLASH,
        Mark::Percent => Kinds::PERCENT,
        Mark::Equal => Kinds::EQUAL,
    }
}
