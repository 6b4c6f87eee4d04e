// The head of a frame: a verb, one space, and the body's length in digits without leading zeros.
ghost use Rattle.std.specs.Prelude.{◌≡◌, ◌∷◌, ◌++◌, true, false, ◌≤◌, length, IfSome, IfNone};
ghost use Rattle.cedar_frames.specs.Heads.{is_numeral, number_of, lacks};
ghost use Rattle.cedar_frames.specs.Parts.{DescribesHead};

use crate::verb::Verb;

/// The greatest number of bytes of a head, without its line feed.
pub(crate) const HEAD_LIMIT: usize = 32;

/// The greatest number of bytes of a body.
pub const BODY_LIMIT: usize = 1_048_576;

/// What a line says as a head.
#[derive(Clone, Copy)]
pub(crate) enum HeadLine {
    /// It is none.
    Bad,
    /// A body over the limit.
    Long,
    /// A verb, and the length of its body.
    Opens(Verb, usize),
}

/// The number that the digits spell, or `None` where they are no digits or begin with a needless zero.
fn numeral(digits: &[u8]) -> Option<u128>
    requires { length digits.now ≤ HEAD_LIMIT }
    ensures found { IfSome result (λ n. (is_numeral digits.now ≡ true)
        × (n ≡ number_of digits.now)) }
    ensures none { IfNone result (is_numeral digits.now ≡ false) }
{
    let mut value: u128 = 0;
    for digit in digits {
        if *digit < b'0' || *digit > b'9' {
            return None;
        }
        value = value * 10 + u128::from(*digit - b'0');
    }
    if digits.is_empty() || (digits[0] == b'0' && digits.len() > 1) {
        return None;
    }
    Some(value)
}

/// What stands before the first space of a line, and what stands behind it.
fn around_space(line: &[u8]) -> Option<(&[u8], &[u8])>
    ensures found { IfSome result (λ parts. (line.now ≡ parts.0.now ++ 32 ∷ parts.1.now)
        × (lacks 32 parts.0.now ≡ true)) }
    ensures none { IfNone result (lacks 32 line.now ≡ true) }
{
    for (at, byte) in line.iter().enumerate() {
        if *byte == b' ' {
            return Some((&line[..at], &line[at + 1..]));
        }
    }
    None
}

/// What a line says as a head.
pub(crate) fn head_of(line: &[u8]) -> HeadLine
    requires { length line.now ≤ HEAD_LIMIT }
    ensures { DescribesHead line.now result }
{
    let Some((name, digits)) = around_space(line) else {
        return HeadLine::Bad;
    };
    let Some(verb) = Verb::named(name) else {
        return HeadLine::Bad;
    };
    let Some(value) = numeral(digits) else {
        return HeadLine::Bad;
    };
    if value > BODY_LIMIT as u128 {
        HeadLine::Long
    } else {
        HeadLine::Opens(verb, value as usize)
    }
}
