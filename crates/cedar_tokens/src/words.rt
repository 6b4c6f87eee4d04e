// The words of Cedar.
ghost use Rattle.std.specs.Prelude.{◌≡◌, ◌≢◌, true, MatchBool, MatchOption, IfSome};
ghost use Rattle.std.specs.Str.{chars};
ghost use Rattle.cedar_grammar.specs.Token.{word_of};
ghost use Rattle.cedar_grammar.specs.Tokens.{Stops, begins_word};
ghost use Rattle.cedar_tokens.specs.View.{word_view};
ghost use Rattle.cedar_tokens.specs.Reads.{ReadsWord};
ghost use Rattle.cedar_tokens.specs.Spelling.{is_word, IsSpelledWord};

use crate::characters::{Class, next_char, split_run};
use crate::tokens::Word;

/// Whether a text is this word. The first byte that differs decides, mostly the first of all.
fn is_written(text: &str, word: &str) -> bool
    ensures { MatchBool result (text.now ≡ word.now) (text.now ≢ word.now) }
{
    let (bytes, expected) = (text.as_bytes(), word.as_bytes());
    if bytes.len() != expected.len() {
        return false;
    }
    for at in 0..bytes.len() {
        if bytes[at] != expected[at] {
            return false;
        }
    }
    true
}

/// The word that is so written.
pub fn read_word(text: &str) -> Word<'_>
    ensures word { word_view result ≡ word_of text.now }
    ensures spelled { is_word text.now ≡ true → IsSpelledWord result }
{
    match text {
        _ if is_written(text, "true") => Word::True,
        _ if is_written(text, "false") => Word::False,
        _ if is_written(text, "if") => Word::If,
        _ if is_written(text, "then") => Word::Then,
        _ if is_written(text, "else") => Word::Else,
        _ if is_written(text, "in") => Word::In,
        _ if is_written(text, "like") => Word::Like,
        _ if is_written(text, "has") => Word::Has,
        _ if is_written(text, "is") => Word::Is,
        _ if is_written(text, "__cedar") => Word::Cedar,
        _ if is_written(text, "permit") => Word::Permit,
        _ if is_written(text, "forbid") => Word::Forbid,
        _ if is_written(text, "when") => Word::When,
        _ if is_written(text, "unless") => Word::Unless,
        _ if is_written(text, "principal") => Word::Principal,
        _ if is_written(text, "action") => Word::Action,
        _ if is_written(text, "resource") => Word::Resource,
        _ if is_written(text, "context") => Word::Context,
        _ => Word::Other(text),
    }
}

fn begins_word(c: char) -> bool
    ensures { result ≡ begins_word c }
{
    c.is_ascii_alphabetic() || c == '_'
}

/// The word at the start of the text, and what follows it.
pub fn split_word(text: &str) -> Option<(Word<'_>, &str)>
    ensures word { MatchOption result (Stops begins_word (chars text.now))
        (λ x. ReadsWord text.now (word_view x.0) x.1.now) }
    ensures spelled { IfSome result (λ x. IsSpelledWord x.0) }
{
    let (first, _) = next_char(text)?;
    if !begins_word(first) {
        return None;
    }
    let (word, rest) = split_run(text, Class::Word);
    Some((read_word(word), rest))
}
