// What the escapes of strings stand for.
ghost use Rattle.std.specs.Prelude.{◌≡◌, ◌<◌, ◌≤◌, length, MatchOption};
ghost use Rattle.std.specs.Option.{option_map};
ghost use Rattle.std.specs.Str.{chars};
ghost use Rattle.cedar_grammar.specs.Escape.{between, escape, hex, unicode, named};
ghost use Rattle.cedar_grammar.specs.Escape.{simple_escape, hex_escape, unicode_escape};
ghost use Rattle.cedar_tokens.specs.Parts.{part_view, RefusesPart, ReadsPart};

use crate::characters::{next_char, strip_char};

/// What a character or an escape of a raw string stands for.
#[derive(Clone, Copy, Debug)]
pub enum Part {
    /// A character that stands for itself.
    Itself(char),
    /// A character that an escape names.
    Named(char),
    /// `\*`, which is a star in a pattern.
    Star,
}

/// The first part, and what follows it.
pub fn split_part(raw: &str) -> Option<(Part, &str)>
    requires { 0 < length raw.now }
    ensures { MatchOption result (RefusesPart between raw.now)
        (λ x. ReadsPart between raw.now (part_view x.0) x.1.now) }
{
    let (c, rest) = next_char(raw)?;
    if c == '\\' {
        split_escape(rest)
    } else if c == '\r' {
        None
    } else {
        Some((Part::Itself(c), rest))
    }
}

/// The part that a backslash begins, of what follows the backslash.
fn split_escape(raw: &str) -> Option<(Part, &str)>
    ensures { MatchOption result (RefusesPart escape raw.now)
        (λ x. ReadsPart escape raw.now (part_view x.0) x.1.now) }
{
    let (c, rest) = next_char(raw)?;
    if c == 'x' {
        split_hex(rest)
    } else if c == 'u' {
        split_unicode(rest)
    } else {
        let part = simple_escape(c)?;
        Some((part, rest))
    }
}

/// The part that a backslash and this character stand for.
fn simple_escape(c: char) -> Option<Part>
    ensures { option_map part_view result ≡ simple_escape c }
{
    match c {
        'n' => Some(Part::Named('\n')),
        'r' => Some(Part::Named('\r')),
        't' => Some(Part::Named('\t')),
        '\\' => Some(Part::Named('\\')),
        '0' => Some(Part::Named('\0')),
        '\'' => Some(Part::Named('\'')),
        '"' => Some(Part::Named('"')),
        '*' => Some(Part::Star),
        _ => None,
    }
}

/// The part that `\x` begins, of what follows it.
fn split_hex(raw: &str) -> Option<(Part, &str)>
    ensures { MatchOption result (RefusesPart hex raw.now)
        (λ x. ReadsPart hex raw.now (part_view x.0) x.1.now) }
{
    let (high, rest) = next_char(raw)?;
    let (low, rest) = next_char(rest)?;
    let c = ascii_char(high, low)?;
    Some((Part::Named(c), rest))
}

/// The ASCII character of this code, by its two hexadecimal digits.
fn ascii_char(high: char, low: char) -> Option<char>
    ensures { option_map named result ≡ hex_escape high low }
{
    let code = high.to_digit(16)? * 16 + low.to_digit(16)?;
    if code < 128 {
        char::from_u32(code)
    } else {
        None
    }
}

/// The part that `\u` begins, of what follows it.
fn split_unicode(raw: &str) -> Option<(Part, &str)>
    ensures { MatchOption result (RefusesPart unicode raw.now)
        (λ x. ReadsPart unicode raw.now (part_view x.0) x.1.now) }
{
    let mut rest = strip_char(raw, '{')?;
    let mut count = 0;
    let mut code = 0;
    'digits: while let Some((c, after)) = next_char(rest) {
        if c == '}' {
            let c = unicode_char(count, code)?;
            return Some((Part::Named(c), after));
        }
        let digit = c.to_digit(16)?;
        if count == 6 {
            return None;
        }
        count += 1;
        code = code * 16 + digit;
        rest = after;
    }
    None
}

/// The character of a code of so many digits.
fn unicode_char(count: u32, code: u32) -> Option<char>
    requires { count ≤ 6 }
    ensures { option_map named result ≡ unicode_escape count code }
{
    if count > 0 {
        char::from_u32(code)
    } else {
        None
    }
}
