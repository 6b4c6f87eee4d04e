// The strings of Cedar.
ghost use Rattle.std.specs.Prelude.{◌≡◌, MatchOption, map, IfOk, IfErr};
ghost use Rattle.std.specs.Rc.{rc_str_bytes};
ghost use Rattle.std.specs.Str.{chars};
ghost use Rattle.cedar_grammar.specs.Escape.{string_of, parts_of};
ghost use Rattle.cedar_grammar.specs.Tokens.{inside_of};
ghost use Rattle.cedar_tokens.specs.Parts.{part_view};
ghost use Rattle.cedar_tokens.specs.Strings.{ReadsInside};
ghost use Rattle.cedar_tokens.specs.Refusal.{RefusesString, RefusesParts};

use crate::characters::next_char;
use crate::error::UnescapeError;
use crate::escapes::{Part, split_part};
use std::alloc::Global;
use std::rc::RcStr;

/// What stands before the closing quote, and what follows it; none where no quote closes the string,
/// or a backslash stands before a line feed.
pub fn split_inside(text: &str) -> Option<(&str, &str)>
    ensures { MatchOption result (inside_of (chars text.now) ≡ None)
        (λ x. ReadsInside text.now x.0.now x.1.now) }
{
    let mut rest = text;
    'inside: loop {
        let (c, after) = next_char(rest)?;
        if c == '"' {
            return Some((&text[..text.len() - rest.len()], after));
        }
        rest = after;
        if c == '\\' {
            let (escaped, after) = next_char(rest)?;
            if escaped == '\n' {
                return None;
            }
            rest = after;
        }
    }
}

/// The text that a string stands for, by what is written between its quotes. Cedar's escapes are
/// `\n`, `\r`, `\t`, `\\`, `\0`, `\'`, `\"`, `\x` with two hexadecimal digits up to 7F, and `\u{..}` with
/// one to six hexadecimal digits that name a character (Cedar language reference, "Data types": String).
///
/// `Invalid` comes exactly where the string stands for no text: for any other escape, `\*` too, and for
/// a bare carriage return. `Memory` comes for want of memory alone.
pub fn to_unescaped_string(alloc: Global, raw: &str) -> Result<RcStr, UnescapeError>
    ensures text { IfOk result (λ text. string_of (chars raw.now) ≡ Some (rc_str_bytes text)) }
    ensures refused { IfErr result (RefusesString raw.now) }
{
    let mut text = String::new(alloc);
    let mut rest = raw;
    'parts: while !rest.is_empty() {
        let place = raw.len() - rest.len();
        let Some((part, after)) = split_part(rest) else {
            return Err(UnescapeError::Invalid { place });
        };
        match part {
            Part::Itself(c) | Part::Named(c) => text.push(c)?,
            Part::Star => return Err(UnescapeError::Invalid { place }),
        }
        rest = after;
    }
    Ok(RcStr::from_string(text)?)
}

/// The parts of a string, by what is written between its quotes: characters, escapes as in
/// [`to_unescaped_string`], and `\*`. In a pattern a raw `*` is a wildcard, and every escape a character (Cedar
/// language reference, "Operators": like).
///
/// `Invalid` comes exactly where the string has no parts: for any other escape, and for a bare carriage
/// return. `Memory` comes for want of memory alone.
pub fn unescape_parts(alloc: Global, raw: &str) -> Result<Vec<Part>, UnescapeError>
    ensures parts { IfOk result (λ parts. parts_of (chars raw.now) ≡ Some (map part_view parts.items)) }
    ensures refused { IfErr result (RefusesParts raw.now) }
{
    let mut parts = Vec::new(alloc);
    let mut rest = raw;
    'parts: while !rest.is_empty() {
        let place = raw.len() - rest.len();
        let Some((part, after)) = split_part(rest) else {
            return Err(UnescapeError::Invalid { place });
        };
        parts.push(part)?;
        rest = after;
    }
    Ok(parts)
}
