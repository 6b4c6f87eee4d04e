// What each function answers.
ghost use Rattle.std.specs.Prelude.{◌≡◌, IfOk, pos};
ghost use Rattle.cedar_language.specs.Order.{all_of};
ghost use Rattle.cedar_extension_types.specs.Answers.{whole};
ghost use Rattle.cedar_extension_types.specs.Standard.{given_by};
ghost use Rattle.cedar_extension_types.specs.declared.functions.StandardFunction.TheVariants.{ToMilliseconds};

use crate::decimal_calls::{made_decimal, order_of};
use crate::functions::StandardFunction;
use crate::ip_calls::{in_range, loopback, made_range, multicast, version_4, version_6};
use crate::time_calls::{
    duration_alone, duration_since, made_datetime, made_duration, offset, to_date, to_time,
};
use crate::values::{boolean, long};
use cedar_values::values::Value;
use std::alloc::{AllocError, Global};

/// What a function answers, if it has an answer.
pub(crate) fn answered(
    alloc: Global,
    function: StandardFunction,
    args: &[Value],
) -> Result<Option<Value>, AllocError>
    ensures { IfOk result (λ answer. answer ≡ given_by function (all_of args.now)) }
{
    match function {
        StandardFunction::Decimal => made_decimal(alloc, args),
        StandardFunction::LessThan => match order_of(args) {
            Some(order) => Ok(Some(boolean(order.is_lt()))),
            None => Ok(None),
        },
        StandardFunction::LessThanOrEqual => match order_of(args) {
            Some(order) => Ok(Some(boolean(order.is_le()))),
            None => Ok(None),
        },
        StandardFunction::GreaterThan => match order_of(args) {
            Some(order) => Ok(Some(boolean(order.is_gt()))),
            None => Ok(None),
        },
        StandardFunction::GreaterThanOrEqual => match order_of(args) {
            Some(order) => Ok(Some(boolean(order.is_ge()))),
            None => Ok(None),
        },
        StandardFunction::Ip => made_range(alloc, args),
        StandardFunction::IsIpv4 => Ok(version_4(args)),
        StandardFunction::IsIpv6 => Ok(version_6(args)),
        StandardFunction::IsLoopback => Ok(loopback(args)),
        StandardFunction::IsMulticast => Ok(multicast(args)),
        StandardFunction::IsInRange => Ok(in_range(args)),
        StandardFunction::Datetime => made_datetime(alloc, args),
        StandardFunction::Offset => offset(alloc, args),
        StandardFunction::DurationSince => duration_since(alloc, args),
        StandardFunction::ToDate => to_date(alloc, args),
        StandardFunction::ToTime => to_time(alloc, args),
        StandardFunction::Duration => made_duration(alloc, args),
        StandardFunction::ToMilliseconds => Ok(milliseconds(args)),
        StandardFunction::ToSeconds => Ok(seconds(args)),
        StandardFunction::ToMinutes => Ok(minutes(args)),
        StandardFunction::ToHours => Ok(hours(args)),
        StandardFunction::ToDays => Ok(days(args)),
    }
}

/// `toMilliseconds`.
fn milliseconds(args: &[Value]) -> Option<Value>
    ensures { result ≡ given_by ToMilliseconds (all_of args.now) }
{
    Some(long(duration_alone(args)?.milliseconds))
}

/// `toSeconds`.
fn seconds(args: &[Value]) -> Option<Value>
    ensures { result ≡ whole (pos 1000) (all_of args.now) }
{
    Some(long(duration_alone(args)?.to_seconds()))
}

/// `toMinutes`.
fn minutes(args: &[Value]) -> Option<Value>
    ensures { result ≡ whole (pos 60000) (all_of args.now) }
{
    Some(long(duration_alone(args)?.to_minutes()))
}

/// `toHours`.
fn hours(args: &[Value]) -> Option<Value>
    ensures { result ≡ whole (pos 3600000) (all_of args.now) }
{
    Some(long(duration_alone(args)?.to_hours()))
}

/// `toDays`.
fn days(args: &[Value]) -> Option<Value>
    ensures { result ≡ whole (pos 86400000) (all_of args.now) }
{
    Some(long(duration_alone(args)?.to_days()))
}
