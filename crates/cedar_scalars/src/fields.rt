// Numbers of two digits at places of a text.
ghost use Rattle.std.specs.Prelude.{◌≡◌, ◌≤◌, slice_index, IfSome};
ghost use Rattle.cedar_scalars.specs.Instants.{two_digits, two_at, year_in};

/// The byte at this place; 0 where there is none.
pub(crate) fn byte_at(text: &[u8], at: usize) -> u8
    ensures { result ≡ slice_index text.now at }
{
    if at < text.len() { text[at] } else { 0 }
}

/// The number of two digits.
pub(crate) fn two_digits(tens: u8, ones: u8) -> Option<u16>
    ensures value { result ≡ two_digits tens ones }
    ensures bound { IfSome result (λ n. n ≤ 99) }
{
    if tens.is_ascii_digit() && ones.is_ascii_digit() {
        Some(u16::from(tens - b'0') * 10 + u16::from(ones - b'0'))
    } else {
        None
    }
}

/// The number of the two digits at this place.
pub(crate) fn two_at(text: &[u8], at: usize) -> Option<u16>
    requires { at ≤ 100 }
    ensures value { result ≡ two_at text.now at }
    ensures bound { IfSome result (λ n. n ≤ 99) }
{
    two_digits(byte_at(text, at), byte_at(text, at + 1))
}

/// The year of the four digits in front.
pub(crate) fn year_in(text: &[u8]) -> Option<u16>
    ensures value { result ≡ year_in text.now }
    ensures bound { IfSome result (λ n. n ≤ 9999) }
{
    let century = two_at(text, 0)?;
    let year = two_at(text, 2)?;
    Some(century * 100 + year)
}
