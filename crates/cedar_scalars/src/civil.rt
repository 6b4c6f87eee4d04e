// Days of the calendar, from year 0 on. (ISO 8601, proleptic Gregorian.)
ghost use Rattle.std.specs.Prelude.{◌≡◌, ◌≤◌, ◌*◌, IfSome};
ghost use Rattle.cedar_scalars.specs.Calendar.{is_leap, month_length, days_before_year, days_before_month, day_number};

/// Whether the year has a 29th of February.
fn is_leap(year: u16) -> bool
    ensures { result ≡ is_leap year }
{
    (year % 4 == 0 && year % 100 != 0) || year % 400 == 0
}

/// How many days this month has; one that is none has no days.
fn month_length(year: u16, month: u16) -> u16
    ensures value { result ≡ month_length year month }
    ensures bound { result ≤ 31 }
{
    if month == 2 {
        if is_leap(year) { 29 } else { 28 }
    } else if month == 4 || month == 6 || month == 9 || month == 11 {
        30
    } else if 0 < month && month <= 12 {
        31
    } else {
        0
    }
}

/// How many days stand before this year, from year 0 on.
#[tactic(auto, using(crate::proofs::Years::days_closed))]
fn days_before_year(year: u16) -> u32
    requires { year ≤ 9999 }
    ensures value { result ≡ days_before_year year }
    ensures bound { result ≤ 3660000 }
{
    let year = u32::from(year);
    365 * year + (year + 3) / 4 + (year + 399) / 400 - (year + 99) / 100
}

/// How many days of the year stand before this month.
fn days_before_month(year: u16, month: u16) -> u32
    requires { month ≤ 99 }
    ensures value { result ≡ days_before_month year month }
    ensures bound { result ≤ 31 * 99 }
{
    let mut days: u32 = 0;
    for earlier in 0..month {
        days += u32::from(month_length(year, earlier));
    }
    days
}

/// The number of a day, counted from the first of January of year 0, where the calendar has it.
pub(crate) fn day_number(year: u16, month: u16, day: u16) -> Option<u32>
    requires year { year ≤ 9999 }
    requires month { month ≤ 99 }
    ensures value { result ≡ day_number year month day }
    ensures bound { IfSome result (λ n. n ≤ 3700000) }
{
    if day == 0 || day > month_length(year, month) {
        return None;
    }
    Some(days_before_year(year) + days_before_month(year, month) + (u32::from(day) - 1))
}
