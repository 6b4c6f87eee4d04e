//! Instants, in milliseconds from the beginning of 1970.
ghost use Rattle.std.specs.Prelude.{◌≡◌, ◌≤◌, ◌≤ℤ◌, pos, negsuc, IfSome, option_map};
ghost use Rattle.cedar_scalars.specs.Instants.{instant_of, placed, instant, date_in, time_in, zone_at, zone_place};
ghost use Rattle.cedar_scalars.specs.Instants.{offset_by, time_between, time_of_day, midnight_of};

use crate::civil::day_number;
use crate::clocks::{time_in, zone_in};
use crate::durations::{DAY, Duration};
use crate::fields::{byte_at, two_at, year_in};

/// The milliseconds from the beginning of year 0 to that of 1970.
const TO_1970: i64 = 62_167_219_200_000;

/// An instant, in milliseconds from 1970-01-01T00:00:00Z; one before has less than 0. The order is that of the numbers.
#[derive(Clone, Copy, Debug, PartialEq, Eq, PartialOrd, Ord, Hash)]
pub struct Datetime {
    pub milliseconds: i64,
}

impl Datetime {
    /// The instant of a text: a date `YYYY-MM-DD` that the calendar has, which means its midnight in UTC, or behind it
    /// a time `Thh:mm:ss`, with `.SSS` where wanted, and its zone `Z`, `+hhmm` or `-hhmm`. There is none exactly where
    /// the text is no such one.
    pub fn parse(text: &[u8]) -> Option<Datetime>
        ensures { option_map (λ t. t.milliseconds) result ≡ instant_of text.now }
    {
        let milliseconds = if text.len() == 10 {
            date_alone(text)?
        } else {
            date_and_time(text)?
        };
        Some(Datetime { milliseconds })
    }

    /// The instant so much later. There is none exactly where its milliseconds are no long.
    #[tactic(auto, using(crate::proofs::Longs::long_from_checked))]
    pub fn offset(self, by: Duration) -> Option<Datetime>
        ensures { option_map (λ t. t.milliseconds) result ≡ offset_by self.milliseconds by.milliseconds }
    {
        let milliseconds = self.milliseconds.checked_add(by.milliseconds)?;
        Some(Datetime { milliseconds })
    }

    /// How much later it is than the other. There is none exactly where the milliseconds are no long.
    #[tactic(auto, using(crate::proofs::Longs::long_from_checked))]
    pub fn duration_since(self, other: Datetime) -> Option<Duration>
        ensures { option_map (λ d. d.milliseconds) result ≡ time_between self.milliseconds other.milliseconds }
    {
        let milliseconds = self.milliseconds.checked_sub(other.milliseconds)?;
        Some(Duration { milliseconds })
    }

    /// The midnight in UTC before, or itself. There is none exactly where its milliseconds are no long, within the
    /// first day that longs reach.
    #[tactic(auto, using(crate::proofs::Longs::long_from_checked))]
    pub fn to_date(self) -> Option<Datetime>
        ensures { option_map (λ t. t.milliseconds) result ≡ midnight_of self.milliseconds }
    {
        let milliseconds = self.milliseconds.checked_sub(self.to_time().milliseconds)?;
        Some(Datetime { milliseconds })
    }

    /// How much later it is than the midnight in UTC before: from 0 on, and less than a day.
    pub fn to_time(self) -> Duration
        ensures { result.milliseconds ≡ time_of_day self.milliseconds }
    {
        Duration {
            milliseconds: self.milliseconds.rem_euclid(DAY),
        }
    }
}

/// The number of the day of the date in front.
fn date_in(text: &[u8]) -> Option<u32>
    ensures value { result ≡ date_in text.now }
    ensures bound { IfSome result (λ n. n ≤ 3700000) }
{
    if byte_at(text, 4) != b'-' || byte_at(text, 7) != b'-' {
        return None;
    }
    let year = year_in(text)?;
    let month = two_at(text, 5)?;
    let day = two_at(text, 8)?;
    day_number(year, month, day)
}

/// The instant of a date alone.
fn date_alone(text: &[u8]) -> Option<i64>
    ensures { result ≡ placed (date_in text.now) (Some 0) (Some (pos 0)) }
{
    placed(date_in(text), Some(0), Some(0))
}

/// The instant of a date and a time with its zone.
fn date_and_time(text: &[u8]) -> Option<i64>
    ensures { result ≡ placed (date_in text.now) (time_in text.now) (zone_at text.now (zone_place text.now)) }
{
    let zone = zone_in(text);
    placed(date_in(text), time_in(text), zone)
}

/// The instant of a day, a time and a zone, where all are there.
fn placed(day: Option<u32>, time: Option<u32>, zone: Option<i64>) -> Option<i64>
    requires day { IfSome day (λ n. n ≤ 3700000) }
    requires low { IfSome zone (λ n. negsuc 99999999 ≤ℤ n) }
    requires high { IfSome zone (λ n. n ≤ℤ pos 100000000) }
    ensures { result ≡ placed day time zone }
{
    match (day, time, zone) {
        (Some(day), Some(time), Some(zone)) => Some(instant(day, time, zone)),
        _ => None,
    }
}

/// The instant of a day since year 0, the milliseconds of the day and those by which the zone is ahead.
fn instant(day: u32, time: u32, zone: i64) -> i64
    requires day { day ≤ 3700000 }
    requires low { negsuc 99999999 ≤ℤ zone }
    requires high { zone ≤ℤ pos 100000000 }
    ensures { result ≡ instant day time zone }
{
    let from_year_0 = u64::from(day) * 86_400_000 + u64::from(time);
    from_year_0 as i64 - TO_1970 - zone
}
