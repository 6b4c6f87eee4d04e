//! Lengths of time in milliseconds.
ghost use Rattle.std.specs.Prelude.{◌≡◌, IfOk, pos, int_div, option_map, string_bytes};
ghost use Rattle.cedar_scalars.specs.Durations.{duration_of, duration_text, magnitude, count_of, behind_unit, count_of_milliseconds, is_ms, begins_with_unit};
ghost use Rattle.cedar_scalars.specs.Longs.{capped};

use crate::digits::{capped_number, long_of_parts, split_digits, split_sign};
use std::alloc::{AllocError, Global};

const SECOND: i64 = 1000;

const MINUTE: i64 = 60_000;

const HOUR: i64 = 3_600_000;

pub(crate) const DAY: i64 = 86_400_000;

/// A length of time in milliseconds; one that is less than 0 goes back. The order is that of the numbers.
#[derive(Clone, Copy, Debug, PartialEq, Eq, PartialOrd, Ord, Hash)]
pub struct Duration {
    pub milliseconds: i64,
}

impl Duration {
    /// The duration of a text: an optional `-`, and then numbers of days, hours, minutes, seconds and milliseconds,
    /// each with its unit `d`, `h`, `m`, `s` or `ms`, in this order, of which some may be left out, but not all. There
    /// is none exactly where the text is no such one, or its milliseconds are no long.
    pub fn parse(text: &[u8]) -> Option<Duration>
        ensures { option_map (λ d. d.milliseconds) result ≡ duration_of text.now }
    {
        let (negative, unsigned) = split_sign(text);
        let magnitude = magnitude_of(unsigned)?;
        let milliseconds = long_of_parts(negative, magnitude)?;
        Some(Duration { milliseconds })
    }

    /// Its text, in milliseconds alone; the one that is read back (`laws::durations_are_read_back`).
    pub fn print(self, alloc: Global) -> Result<String, AllocError>
        ensures { IfOk result (λ text. string_bytes text ≡ duration_text self.milliseconds) }
    {
        format!(in alloc; "{}ms", self.milliseconds)
    }

    /// Its whole seconds, towards 0.
    pub fn to_seconds(self) -> i64
        ensures { result ≡ int_div self.milliseconds (pos 1000) }
    {
        self.milliseconds / SECOND
    }

    /// Its whole minutes, towards 0.
    pub fn to_minutes(self) -> i64
        ensures { result ≡ int_div self.milliseconds (pos 60000) }
    {
        self.milliseconds / MINUTE
    }

    /// Its whole hours, towards 0.
    pub fn to_hours(self) -> i64
        ensures { result ≡ int_div self.milliseconds (pos 3600000) }
    {
        self.milliseconds / HOUR
    }

    /// Its whole days of 24 hours, towards 0.
    pub fn to_days(self) -> i64
        ensures { result ≡ int_div self.milliseconds (pos 86400000) }
    {
        self.milliseconds / DAY
    }
}

/// The milliseconds of a text without a sign, where they are not too many to be told apart.
fn magnitude_of(unsigned: &[u8]) -> Option<u64>
    ensures { result ≡ option_map capped (magnitude unsigned.now) }
{
    if unsigned.is_empty() {
        return None;
    }
    let (days, behind) = take_unit(unsigned, b'd');
    let (hours, behind) = take_unit(behind, b'h');
    let (minutes, behind) = take_unit(behind, b'm');
    let (seconds, behind) = take_unit(behind, b's');
    let milliseconds = last_unit(behind)?;
    let from_seconds = seconds.saturating_mul(1000).saturating_add(milliseconds);
    let from_minutes = minutes.saturating_mul(60_000).saturating_add(from_seconds);
    let from_hours = hours.saturating_mul(3_600_000).saturating_add(from_minutes);
    Some(days.saturating_mul(86_400_000).saturating_add(from_hours))
}

/// The number with this unit in front, and what stands behind; 0 where there is none.
fn take_unit(text: &[u8], unit: u8) -> (u64, &[u8])
    ensures count { result.0 ≡ capped (count_of unit text.now) }
    ensures behind { result.1.now ≡ behind_unit unit text.now }
{
    let (digits, rest) = split_digits(text);
    if digits.is_empty() || !begins_with_unit(unit, rest) {
        return (0, text);
    }
    (capped_number(digits), &rest[1..])
}

/// Whether a unit of one letter stands in front; `m` is none before an `s`.
fn begins_with_unit(unit: u8, text: &[u8]) -> bool
    ensures { result ≡ begins_with_unit unit text.now }
{
    match text {
        [] => false,
        [first] => *first == unit,
        [first, second, ..] => *first == unit && !(*first == b'm' && *second == b's'),
    }
}

/// The number of milliseconds of the whole text; 0 where it is empty.
fn last_unit(text: &[u8]) -> Option<u64>
    ensures { result ≡ option_map capped (count_of_milliseconds text.now) }
{
    if text.is_empty() {
        return Some(0);
    }
    let (digits, rest) = split_digits(text);
    if digits.is_empty() || !is_ms(rest) {
        return None;
    }
    Some(capped_number(digits))
}

fn is_ms(text: &[u8]) -> bool
    ensures { result ≡ is_ms text.now }
{
    match text {
        [first, second] => *first == b'm' && *second == b's',
        _ => false,
    }
}
