// The tokens of Cedar, by their kinds.
ghost use Rattle.std.specs.Prelude.{◌≡◌, MatchOption, IfSome};
ghost use Rattle.std.specs.Str.{chars};
ghost use Rattle.cedar_grammar.specs.Tokens.{token_read};
ghost use Rattle.cedar_tokens.specs.View.{kind_view};
ghost use Rattle.cedar_tokens.specs.Marks.{StartsNoComment};
ghost use Rattle.cedar_tokens.specs.Reads.{ReadsToken};
ghost use Rattle.cedar_tokens.specs.Spelling.{IsSpelled};

use crate::characters::{Class, next_char, split_run};
use crate::marks::split_mark;
use crate::strings::split_inside;
use crate::tokens::TokenKind;
use crate::words::split_word;

/// The longest token at the start of the text, and what follows it.
pub fn split_token(text: &str) -> Option<(TokenKind<'_>, &str)>
    requires { StartsNoComment (chars text.now) }
    ensures token { MatchOption result (token_read (chars text.now) ≡ None)
        (λ x. ReadsToken text.now (kind_view x.0) x.1.now) }
    ensures spelled { IfSome result (λ x. IsSpelled x.0) }
{
    if let Some((word, rest)) = split_word(text) {
        return Some((TokenKind::Word(word), rest));
    }
    let (first, rest) = next_char(text)?;
    if first.is_ascii_digit() {
        let (digits, rest) = split_run(text, Class::Digit);
        Some((TokenKind::Number(digits), rest))
    } else if first == '"' {
        let (raw, rest) = split_inside(rest)?;
        Some((TokenKind::Text(raw), rest))
    } else if first == '?' {
        let (word, rest) = split_word(rest)?;
        Some((TokenKind::Slot(word), rest))
    } else {
        let (mark, rest) = split_mark(text)?;
        Some((TokenKind::Mark(mark), rest))
    }
}
