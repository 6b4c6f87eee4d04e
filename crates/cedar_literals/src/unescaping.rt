// Reading what stands between quotes.
ghost use Rattle.std.specs.Prelude.{◌≡◌, ◌≢◌, ◌↔◌, ◌<◌, ℕ, [], ◌∷◌, ◌++◌, length, IsTrue, MatchOption, codes, encode_utf8, false};
ghost use Rattle.std.specs.Fmt.{digits, digit_glyph};
ghost use Rattle.cedar_literals.specs.Escapes.{escaped_char, unicode_escape};
ghost use Rattle.cedar_literals.specs.Unescaping.{ReadsEscaped, Follows, BeginsWith, BeginsWithNone};

use crate::escapes::is_control;
use cedar_names::errors::ParseNameError;
use std::alloc::Global;
use std::rc::RcStr;

/// The text that stands so between quotes; refused where none does, or for memory.
pub(crate) fn unescaped(alloc: Global, escaped: &str) -> Result<RcStr, ParseNameError>
    ensures { ReadsEscaped escaped.now result }
{
    let mut text = String::new(alloc);
    let mut rest = escaped;
    'characters: while !rest.is_empty() {
        let Some((c, after)) = split_escaped(rest) else {
            return Err(ParseNameError::NotNormalized);
        };
        text.push(c)?;
        rest = after;
    }
    Ok(RcStr::from_string(text)?)
}

// The first character, and what follows it.
fn next_char(text: &str) -> Option<(char, &str)>
    ensures { MatchOption result (text.now ≡ []) (λ x. Follows text.now (encode_utf8 x.0) x.1.now) }
{
    let mut characters = text.chars();
    let first = characters.next()?;
    Some((first, characters.as_str()))
}

// The character that a text begins with, as it stands between quotes, and what follows it.
fn split_escaped(text: &str) -> Option<(char, &str)>
    ensures { MatchOption result (BeginsWithNone text.now) (λ x. BeginsWith text.now x.0 x.1.now) }
{
    let (c, rest) = next_char(text)?;
    if c == '\\' {
        split_escape(rest)
    } else if is_plain(c) {
        Some((c, rest))
    } else {
        None
    }
}

// The same, of what follows a backslash.
fn split_escape(text: &str) -> Option<(char, &str)>
    ensures { MatchOption result (BeginsWithNone (92 ∷ text.now)) (λ x. BeginsWith (92 ∷ text.now) x.0 x.1.now) }
{
    let (c, rest) = next_char(text)?;
    if c == 'u' {
        split_code(rest)
    } else {
        Some((named(c)?, rest))
    }
}

// The same, of what follows `\u`.
fn split_code(text: &str) -> Option<(char, &str)>
    ensures { MatchOption result (BeginsWithNone (92 ∷ 117 ∷ text.now)) (λ x. BeginsWith (92 ∷ 117 ∷ text.now) x.0 x.1.now) }
{
    let (code, rest) = text.strip_prefix('{')?.split_once('}')?;
    Some((coded(code)?, rest))
}

// Whether the character stands as it is between quotes.
fn is_plain(c: char) -> bool
    ensures { IsTrue result ↔ (escaped_char c ≡ encode_utf8 c) }
{
    !is_control(c) && !matches!(c, '"' | '\'' | '\\')
}

// The character that a backslash and this one stand for.
fn named(c: char) -> Option<char>
    ensures { MatchOption result ((d : ℕ) → escaped_char d ≢ 92 ∷ encode_utf8 c) (λ d. escaped_char d ≡ 92 ∷ encode_utf8 c) }
{
    match c {
        '0' => Some('\0'),
        't' => Some('\t'),
        'n' => Some('\n'),
        'r' => Some('\r'),
        '"' | '\'' | '\\' => Some(c),
        _ => None,
    }
}

// The character that is written by this code.
#[tactic(auto, using(crate::proofs::Escaping::code_back, crate::proofs::Escaping::no_other_code))]
fn coded(code: &str) -> Option<char>
    ensures { MatchOption result ((d : ℕ) → escaped_char d ≢ codes "\\u{" ++ (code.now ++ codes "}")) (λ d. escaped_char d ≡ codes "\\u{" ++ (code.now ++ codes "}")) }
{
    let c = char::from(number(code.as_bytes())?);
    if is_coded(c) { Some(c) } else { None }
}

// The number of one or two hexadecimal digits, where the first of two isn't zero.
#[tactic(auto, using(crate::proofs::Escaping::is_short))]
fn number(code: &[u8]) -> Option<u8>
    ensures { MatchOption result ((d : ℕ) → d < 256 → digits 16 false d ≢ code.now) (λ d. digits 16 false d ≡ code.now) }
{
    match code {
        [low] => digit(*low),
        [high, low] => two_digits(*high, *low),
        _ => None,
    }
}

// The number of two hexadecimal digits, where the first isn't zero.
fn two_digits(high: u8, low: u8) -> Option<u8>
    ensures { MatchOption result ((d : ℕ) → d < 256 → digits 16 false d ≢ high ∷ low ∷ []) (λ d. digits 16 false d ≡ high ∷ low ∷ []) }
{
    let first = digit(high)?;
    let second = digit(low)?;
    if first == 0 {
        return None;
    }
    Some(first * 16 + second)
}

// The hexadecimal digit that this is.
fn digit(glyph: u8) -> Option<u8>
    ensures { MatchOption result ((d : ℕ) → d < 16 → digit_glyph false d ≢ glyph) (λ d. (d < 16) × (digit_glyph false d ≡ glyph)) }
{
    match glyph {
        b'0'..=b'9' => Some(glyph - b'0'),
        b'a'..=b'f' => Some(glyph - b'a' + 10),
        _ => None,
    }
}

// Whether the character is written by its code between quotes.
fn is_coded(c: char) -> bool
    ensures { IsTrue result ↔ (escaped_char c ≡ unicode_escape c) }
{
    is_control(c) && !matches!(c, '\0' | '\t' | '\n' | '\r')
}
