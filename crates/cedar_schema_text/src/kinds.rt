// The tokens of schemas, by their kinds.
ghost use Rattle.std.specs.Prelude.{◌≡◌, None, MatchOption};
ghost use Rattle.std.specs.Str.{chars};
ghost use Rattle.cedar_language.specs.Words.{begins_word};
ghost use Rattle.cedar_schema_text.specs.View.{kind_view};
ghost use Rattle.cedar_schema_text.specs.Reads.{front_read, ReadsToken};

use crate::marks::{single_mark, split_colons};
use crate::tokens::TokenKind;
use cedar_tokens::{Class, next_char, split_inside, split_run};

fn begins_word(c: char) -> bool
    ensures { result ≡ begins_word c }
{
    c.is_ascii_alphabetic() || c == '_'
}

/// The longest token at the start of the text, and what follows it.
pub fn split_token(text: &str) -> Option<(TokenKind<'_>, &str)>
    ensures { MatchOption result (front_read (chars text.now) ≡ None)
        (λ x. ReadsToken text.now (kind_view x.0) x.1.now) }
{
    let (first, rest) = next_char(text)?;
    if begins_word(first) {
        let (word, rest) = split_run(text, Class::Word);
        Some((TokenKind::Word(word), rest))
    } else if first == '"' {
        let (raw, rest) = split_inside(rest)?;
        Some((TokenKind::Text(raw), rest))
    } else if first == ':' {
        Some(split_colons(rest))
    } else {
        let mark = single_mark(first)?;
        Some((TokenKind::Mark(mark), rest))
    }
}
