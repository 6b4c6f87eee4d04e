// Times of a day, with their zones.
ghost use Rattle.std.specs.Prelude.{◌≡◌, ◌≤◌, ◌≤ℤ◌, pos, negsuc, IfSome, slice_index};
ghost use Rattle.cedar_scalars.specs.Instants.{minutes_of, has_point, milliseconds_in, time_in, zone_at, zone_place, two_at, two_digits, with_digit, ahead};

use crate::fields::{byte_at, two_at, two_digits};

/// The milliseconds of the day: of `Thh:mm:ss` behind the date, and three digits behind a point, if there is one.
pub(crate) fn time_in(text: &[u8]) -> Option<u32>
    ensures value { result ≡ time_in text.now }
    ensures bound { IfSome result (λ n. n ≤ 87000000) }
{
    if byte_at(text, 10) != b'T' || byte_at(text, 13) != b':' || byte_at(text, 16) != b':' {
        return None;
    }
    let minutes = minutes_at(text, 11, 14)?;
    let seconds = two_at(text, 17)?;
    let milliseconds = milliseconds_in(text)?;
    if seconds < 60 {
        Some(minutes * 60_000 + u32::from(seconds) * 1000 + milliseconds)
    } else {
        None
    }
}

/// The minutes of hours below 24 and minutes below 60 at these places.
fn minutes_at(text: &[u8], hours_at: usize, minutes_at: usize) -> Option<u32>
    requires hours { hours_at ≤ 100 }
    requires minutes { minutes_at ≤ 100 }
    ensures value { result ≡ minutes_of (two_at text.now hours_at) (two_at text.now minutes_at) }
    ensures bound { IfSome result (λ n. n ≤ 1439) }
{
    let hours = two_at(text, hours_at)?;
    let minutes = two_at(text, minutes_at)?;
    if hours < 24 && minutes < 60 {
        Some(u32::from(hours) * 60 + u32::from(minutes))
    } else {
        None
    }
}

/// Whether a point stands behind the seconds.
fn has_point(text: &[u8]) -> bool
    ensures { result ≡ has_point text.now }
{
    byte_at(text, 19) == b'.'
}

/// The milliseconds behind the point, if there is one.
fn milliseconds_in(text: &[u8]) -> Option<u32>
    ensures value { result ≡ milliseconds_in text.now }
    ensures bound { IfSome result (λ n. n ≤ 1089) }
{
    if has_point(text) {
        three_at_twenty(text)
    } else {
        Some(0)
    }
}

/// The number of the three digits behind the point.
fn three_at_twenty(text: &[u8]) -> Option<u32>
    ensures value { result ≡ with_digit (two_at text.now 20) (two_digits 48 (slice_index text.now 22)) }
    ensures bound { IfSome result (λ n. n ≤ 1089) }
{
    let upper = two_at(text, 20)?;
    let last = two_digits(b'0', byte_at(text, 22))?;
    Some(u32::from(upper) * 10 + u32::from(last))
}

/// Where the zone stands.
fn zone_place(text: &[u8]) -> usize
    ensures value { result ≡ zone_place text.now }
    ensures bound { result ≤ 50 }
{
    if has_point(text) { 23 } else { 19 }
}

/// How many milliseconds the zone is ahead, with which the text ends.
pub(crate) fn zone_in(text: &[u8]) -> Option<i64>
    ensures value { result ≡ zone_at text.now (zone_place text.now) }
    ensures low { IfSome result (λ n. negsuc 99999999 ≤ℤ n) }
    ensures high { IfSome result (λ n. n ≤ℤ pos 100000000) }
{
    zone_at(text, zone_place(text))
}

/// How many milliseconds the zone at this place is ahead.
fn zone_at(text: &[u8], place: usize) -> Option<i64>
    requires { place ≤ 50 }
    ensures value { result ≡ zone_at text.now place }
    ensures low { IfSome result (λ n. negsuc 99999999 ≤ℤ n) }
    ensures high { IfSome result (λ n. n ≤ℤ pos 100000000) }
{
    let mark = byte_at(text, place);
    if mark == b'Z' {
        if text.len() == place + 1 {
            Some(0)
        } else {
            None
        }
    } else if (mark == b'+' || mark == b'-') && text.len() == place + 5 {
        let minutes = minutes_at(text, place + 1, place + 3)?;
        Some(ahead(mark == b'-', minutes))
    } else {
        None
    }
}

/// How many milliseconds a zone of so many minutes is ahead.
fn ahead(is_behind: bool, minutes: u32) -> i64
    requires { minutes ≤ 1439 }
    ensures value { result ≡ ahead is_behind minutes }
    ensures low { negsuc 99999999 ≤ℤ result }
    ensures high { result ≤ℤ pos 100000000 }
{
    let milliseconds = i64::from(minutes * 60_000);
    if is_behind {
        -milliseconds
    } else {
        milliseconds
    }
}
