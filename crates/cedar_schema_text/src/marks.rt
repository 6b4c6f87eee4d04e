// The marks of schemas.
ghost use Rattle.std.specs.Prelude.{◌≡◌};
ghost use Rattle.std.specs.Option.{option_map};
ghost use Rattle.std.specs.Str.{chars};
ghost use Rattle.cedar_schema_grammar.specs.Tokens.{mark_of, colons_read};
ghost use Rattle.cedar_tokens.specs.Rest.{IsRest};
ghost use Rattle.cedar_schema_text.specs.View.{mark_view, kind_view};

use crate::tokens::{Mark, TokenKind};
use cedar_tokens::strip_char;

/// The mark that is written by this character alone.
pub fn single_mark(c: char) -> Option<Mark>
    ensures { option_map mark_view result ≡ mark_of c }
{
    match c {
        '{' => Some(Mark::LeftBrace),
        '}' => Some(Mark::RightBrace),
        '[' => Some(Mark::LeftBracket),
        ']' => Some(Mark::RightBracket),
        '(' => Some(Mark::LeftParen),
        ')' => Some(Mark::RightParen),
        '<' => Some(Mark::LeftAngle),
        '>' => Some(Mark::RightAngle),
        ',' => Some(Mark::Comma),
        ';' => Some(Mark::Semicolon),
        ':' => Some(Mark::Colon),
        '?' => Some(Mark::Question),
        '=' => Some(Mark::Equal),
        '@' => Some(Mark::At),
        _ => None,
    }
}

/// The mark of which the first colon stands before this text, and what follows it.
pub fn split_colons(text: &str) -> (TokenKind<'_>, &str)
    ensures mark { (kind_view result.0, chars result.1.now) ≡ colons_read (chars text.now) }
    ensures rest { IsRest text.now result.1.now }
{
    match strip_char(text, ':') {
        Some(rest) => (TokenKind::Mark(Mark::ColonColon), rest),
        None => (TokenKind::Mark(Mark::Colon), text),
    }
}
