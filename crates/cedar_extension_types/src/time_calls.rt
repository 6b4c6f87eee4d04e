// `datetime`, `duration` and their methods.
ghost use Rattle.std.specs.Prelude.{◌≡◌, IfOk, option_map};
ghost use Rattle.cedar_language.specs.Order.{all_of};
ghost use Rattle.cedar_scalars.specs.Durations.{duration_of};
ghost use Rattle.cedar_scalars.specs.Instants.{instant_of, offset_by, time_between, time_of_day, midnight_of};
ghost use Rattle.cedar_extension_types.specs.Types.{onward, of_two, alone, text_alone, datetime_in, duration_in};
ghost use Rattle.cedar_extension_types.specs.Answers.{made, offset, duration_since, to_date, to_time, datetime_value, duration_value};

use crate::arguments::{alone, datetime_in, duration_in, text_alone};
use crate::values::{datetime_value, duration_value};
use cedar_scalars::datetimes::Datetime;
use cedar_scalars::durations::Duration;
use cedar_values::values::Value;
use std::alloc::{AllocError, Global};

/// The value of an instant, where there is one.
fn datetime_or_none(alloc: Global, n: Option<i64>) -> Result<Option<Value>, AllocError>
    ensures { IfOk result (λ answer. answer ≡ option_map datetime_value n) }
{
    match n {
        Some(n) => Ok(Some(datetime_value(alloc, n)?)),
        None => Ok(None),
    }
}

/// The value of a duration, where there is one.
fn duration_or_none(alloc: Global, n: Option<i64>) -> Result<Option<Value>, AllocError>
    ensures { IfOk result (λ answer. answer ≡ option_map duration_value n) }
{
    match n {
        Some(n) => Ok(Some(duration_value(alloc, n)?)),
        None => Ok(None),
    }
}

/// The instant of the text that the one argument is.
fn parsed_datetime(args: &[Value]) -> Option<i64>
    ensures { result ≡ onward instant_of (text_alone (all_of args.now)) }
{
    match Datetime::parse(text_alone(args)?) {
        Some(datetime) => Some(datetime.milliseconds),
        None => None,
    }
}

/// The duration of the text that the one argument is.
fn parsed_duration(args: &[Value]) -> Option<i64>
    ensures { result ≡ onward duration_of (text_alone (all_of args.now)) }
{
    match Duration::parse(text_alone(args)?) {
        Some(duration) => Some(duration.milliseconds),
        None => None,
    }
}

/// `datetime`.
pub(crate) fn made_datetime(alloc: Global, args: &[Value]) -> Result<Option<Value>, AllocError>
    ensures { IfOk result (λ answer. answer ≡ made datetime_value instant_of (all_of args.now)) }
{
    datetime_or_none(alloc, parsed_datetime(args))
}

/// `duration`.
pub(crate) fn made_duration(alloc: Global, args: &[Value]) -> Result<Option<Value>, AllocError>
    ensures { IfOk result (λ answer. answer ≡ made duration_value duration_of (all_of args.now)) }
{
    duration_or_none(alloc, parsed_duration(args))
}

/// The instant so much later than another.
#[tactic(auto, using(crate::proofs::Counts::not_two))]
fn moved(args: &[Value]) -> Option<i64>
    ensures { result ≡ of_two datetime_in duration_in offset_by (all_of args.now) }
{
    let [from, by] = args else {
        return None;
    };
    let from = Datetime {
        milliseconds: datetime_in(from)?,
    };
    let by = Duration {
        milliseconds: duration_in(by)?,
    };
    match from.offset(by) {
        Some(datetime) => Some(datetime.milliseconds),
        None => None,
    }
}

/// `offset`.
pub(crate) fn offset(alloc: Global, args: &[Value]) -> Result<Option<Value>, AllocError>
    ensures { IfOk result (λ answer. answer ≡ offset (all_of args.now)) }
{
    datetime_or_none(alloc, moved(args))
}

/// How much later an instant is than another.
#[tactic(auto, using(crate::proofs::Counts::not_two))]
fn passed(args: &[Value]) -> Option<i64>
    ensures { result ≡ of_two datetime_in datetime_in time_between (all_of args.now) }
{
    let [later, earlier] = args else {
        return None;
    };
    let later = Datetime {
        milliseconds: datetime_in(later)?,
    };
    let earlier = Datetime {
        milliseconds: datetime_in(earlier)?,
    };
    match later.duration_since(earlier) {
        Some(duration) => Some(duration.milliseconds),
        None => None,
    }
}

/// `durationSince`.
pub(crate) fn duration_since(alloc: Global, args: &[Value]) -> Result<Option<Value>, AllocError>
    ensures { IfOk result (λ answer. answer ≡ duration_since (all_of args.now)) }
{
    duration_or_none(alloc, passed(args))
}

/// The instant that the one argument is.
fn datetime_alone(args: &[Value]) -> Option<Datetime>
    ensures { option_map (λ t. t.milliseconds) result ≡ onward datetime_in (alone (all_of args.now)) }
{
    let milliseconds = datetime_in(alone(args)?)?;
    Some(Datetime { milliseconds })
}

/// The midnight before the instant that the one argument is.
fn date_of(args: &[Value]) -> Option<i64>
    ensures { result ≡ onward midnight_of (onward datetime_in (alone (all_of args.now))) }
{
    match datetime_alone(args)?.to_date() {
        Some(date) => Some(date.milliseconds),
        None => None,
    }
}

/// `toDate`.
pub(crate) fn to_date(alloc: Global, args: &[Value]) -> Result<Option<Value>, AllocError>
    ensures { IfOk result (λ answer. answer ≡ to_date (all_of args.now)) }
{
    datetime_or_none(alloc, date_of(args))
}

/// How much later than that midnight it is.
fn time_of(args: &[Value]) -> Option<i64>
    ensures { result ≡ option_map time_of_day (onward datetime_in (alone (all_of args.now))) }
{
    Some(datetime_alone(args)?.to_time().milliseconds)
}

/// `toTime`.
pub(crate) fn to_time(alloc: Global, args: &[Value]) -> Result<Option<Value>, AllocError>
    ensures { IfOk result (λ answer. answer ≡ to_time (all_of args.now)) }
{
    duration_or_none(alloc, time_of(args))
}

/// The duration that the one argument is.
pub(crate) fn duration_alone(args: &[Value]) -> Option<Duration>
    ensures { option_map (λ d. d.milliseconds) result ≡ onward duration_in (alone (all_of args.now)) }
{
    let milliseconds = duration_in(alone(args)?)?;
    Some(Duration { milliseconds })
}
