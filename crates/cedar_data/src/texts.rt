// The tokens of data at the start of a text. Each call passes over the white space behind its token too.
ghost use Rattle.std.specs.Prelude.{◌≡◌, ◌≢◌, ◌∷◌, [], IfNone, IfSome, Some, false, true, take, drop, slice_index};
ghost use Rattle.std.specs.Char.{is_ascii_digit};
ghost use Rattle.std.specs.Str.{chars};
ghost use Rattle.std.specs.Str.Parse.{digits_value};
ghost use Rattle.cedar_grammar.specs.Escape.{string_of};
ghost use Rattle.cedar_grammar.specs.Token.{word, number, text as string_token, mark, Colon, ColonColon, word_of, mark_spelled};
ghost use Rattle.cedar_grammar.specs.Tokens.{begins_word, colon, quote};
ghost use Rattle.cedar_data.specs.Classes.{mark_of, test_of};
ghost use Rattle.cedar_data.specs.Runs.{run_length, is_plain};
ghost use Rattle.cedar_data.specs.Takes.{Skips, Takes};

use crate::runs::{Class, begins_word, run_length};

/// A mark of one byte that no byte behind it makes another mark of.
#[derive(Clone, Copy)]
pub enum Sign {
    LeftParen,
    RightParen,
    LeftBracket,
    RightBracket,
    LeftBrace,
    RightBrace,
    Comma,
    Minus,
}

impl Sign {
    fn byte(self) -> u8
        ensures { mark_spelled (mark_of self) ≡ result ∷ [] }
    {
        match self {
            Sign::LeftParen => b'(',
            Sign::RightParen => b')',
            Sign::LeftBracket => b'[',
            Sign::RightBracket => b']',
            Sign::LeftBrace => b'{',
            Sign::RightBrace => b'}',
            Sign::Comma => b',',
            Sign::Minus => b'-',
        }
    }
}

/// The byte at this place; 0 where the text ends before it.
pub fn byte_at(text: &str, place: usize) -> u8
    ensures { result ≡ slice_index text.now place }
{
    match text.as_bytes().get(place) {
        Some(byte) => *byte,
        None => 0,
    }
}

/// The bytes from the first on that are of the class, and what follows them.
fn split_run(text: &str, class: Class) -> (&str, &str)
    ensures front { result.0.now ≡ take (run_length (test_of class) text.now) text.now }
    ensures back { result.1.now ≡ drop (run_length (test_of class) text.now) text.now }
{
    text.split_at(run_length(text.as_bytes(), class))
}

/// What follows white space.
pub fn skip_blank(text: &str) -> &str
    ensures { Skips text.now result.now }
{
    split_run(text, Class::Blank).1
}

/// What follows the mark; none where the text doesn't begin with it.
pub fn split_sign(text: &str, sign: Sign) -> Option<&str>
    ensures taken { IfSome result (λ rest. Takes (mark (mark_of sign)) text.now rest.now) }
    ensures none { IfNone result (slice_index text.now 0 ∷ [] ≢ mark_spelled (mark_of sign)) }
{
    if byte_at(text, 0) != sign.byte() {
        return None;
    }
    Some(skip_blank(text.split_at(1).1))
}

/// What follows `::`; none where the text doesn't begin with it.
pub fn split_separator(text: &str) -> Option<&str>
    ensures taken { IfSome result (λ rest. Takes (mark ColonColon) text.now rest.now) }
    ensures none { IfNone result (slice_index text.now 0 ≡ colon → slice_index text.now 1 ≢ colon) }
{
    if byte_at(text, 0) != b':' {
        return None;
    }
    if byte_at(text, 1) != b':' {
        return None;
    }
    Some(skip_blank(text.split_at(2).1))
}

/// What follows `:`, where it isn't the start of `::`; none where the text doesn't begin so.
pub fn split_colon(text: &str) -> Option<&str>
    ensures taken { IfSome result (λ rest. Takes (mark Colon) text.now rest.now) }
    ensures none { IfNone result (slice_index text.now 0 ≡ colon → slice_index text.now 1 ≡ colon) }
{
    if byte_at(text, 0) != b':' {
        return None;
    }
    if byte_at(text, 1) == b':' {
        return None;
    }
    Some(skip_blank(text.split_at(1).1))
}

/// A word, and what follows it; none where the text begins with no letter and no `_`.
pub fn split_word(text: &str) -> Option<(&str, &str)>
    ensures taken { IfSome result (λ x. Takes (word (word_of x.0.now)) text.now x.1.now) }
    ensures none { IfNone result (begins_word (slice_index text.now 0) ≡ false) }
{
    if !begins_word(byte_at(text, 0)) {
        return None;
    }
    let (word, rest) = split_run(text, Class::Word);
    Some((word, skip_blank(rest)))
}

/// The digits of a number, and what follows them; none where the text begins with no digit.
pub fn split_digits(text: &str) -> Option<(&str, &str)>
    ensures taken { IfSome result (λ x. Takes (number (digits_value 10 x.0.now)) text.now x.1.now) }
    ensures digits { IfSome result (λ x. is_ascii_digit (slice_index x.0.now 0) ≡ true) }
    ensures none { IfNone result (is_ascii_digit (slice_index text.now 0) ≡ false) }
{
    if !byte_at(text, 0).is_ascii_digit() {
        return None;
    }
    let (digits, rest) = split_run(text, Class::Digit);
    Some((digits, skip_blank(rest)))
}

/// The text between quotes, where it holds no escape, and what follows the closing one; none where the text doesn't
/// begin with a quote, or where what stands for itself behind it isn't followed by one.
pub fn split_string(text: &str) -> Option<(&str, &str)>
    ensures taken { IfSome result (λ x. Takes (string_token (chars x.0.now)) text.now x.1.now) }
    ensures plain { IfSome result (λ x. string_of (chars x.0.now) ≡ Some x.0.now) }
    ensures none { IfNone result (slice_index text.now 0 ≡ quote → slice_index (drop (run_length is_plain (drop 1 text.now)) (drop 1 text.now)) 0 ≢ quote) }
{
    if byte_at(text, 0) != b'"' {
        return None;
    }
    let (raw, rest) = split_run(text.split_at(1).1, Class::Plain);
    if byte_at(rest, 0) != b'"' {
        return None;
    }
    Some((raw, skip_blank(rest.split_at(1).1)))
}
