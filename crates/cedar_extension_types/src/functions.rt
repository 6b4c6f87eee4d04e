// The functions of the standard extension types, and a caller's own beside them.
use crate::calls::answered;
use cedar_extensions::objects::{CallError, ExtensionFunctionObject, NoFunction};
use cedar_values::values::Value;
use std::alloc::Global;

/// A function of a standard extension type, by the name that policies call. It has no answer (`NoAnswer`) exactly
/// where its arguments aren't as many as it takes, or not of its types, or where what it makes isn't there: a text is
/// none of the type, an instant or a duration is no long of milliseconds.
#[derive(Clone, Copy, Debug, PartialEq, Eq)]
pub enum StandardFunction {
    /// `decimal`: the decimal of a text.
    Decimal,
    /// `lessThan` of two decimals.
    LessThan,
    /// `lessThanOrEqual` of two decimals.
    LessThanOrEqual,
    /// `greaterThan` of two decimals.
    GreaterThan,
    /// `greaterThanOrEqual` of two decimals.
    GreaterThanOrEqual,
    /// `ip`: the range of IP addresses of a text.
    Ip,
    /// `isIpv4` of a range.
    IsIpv4,
    /// `isIpv6` of a range.
    IsIpv6,
    /// `isLoopback` of a range.
    IsLoopback,
    /// `isMulticast` of a range.
    IsMulticast,
    /// `isInRange` of a range and another one.
    IsInRange,
    /// `datetime`: the instant of a text.
    Datetime,
    /// `offset` of an instant by a duration.
    Offset,
    /// `durationSince` of an instant and an earlier one.
    DurationSince,
    /// `toDate`: the midnight before an instant.
    ToDate,
    /// `toTime`: how much later than that midnight it is.
    ToTime,
    /// `duration`: the duration of a text.
    Duration,
    /// `toMilliseconds` of a duration.
    ToMilliseconds,
    /// `toSeconds`, towards 0.
    ToSeconds,
    /// `toMinutes`, towards 0.
    ToMinutes,
    /// `toHours`, towards 0.
    ToHours,
    /// `toDays`, towards 0.
    ToDays,
}

impl ExtensionFunctionObject for StandardFunction {
    ghost use Rattle.cedar_extension_types.specs.Standard.{standard_answers};

    ghost answers = { standard_answers };

    fn call(&self, alloc: Global, args: &[Value]) -> Result<Value, CallError> {
        match answered(alloc, *self, args)? {
            Some(value) => Ok(value),
            None => Err(CallError::NoAnswer(String::from_str(alloc, "no value of this type")?)),
        }
    }
}

/// A function of a table that has the standard extension types: one of theirs, or one of the caller's own, which
/// answers what it does.
#[derive(Drop)]
pub enum TypeFunction<F = NoFunction> {
    /// One of the standard types.
    Standard(StandardFunction),
    /// One of the caller's own.
    Own(F),
}

impl<F: ExtensionFunctionObject> ExtensionFunctionObject for TypeFunction<F> {
    ghost use Rattle.cedar_extension_types.specs.Standard.{answers_beside};

    ghost answers = { answers_beside F.answers };

    fn call(&self, alloc: Global, args: &[Value]) -> Result<Value, CallError> {
        match self {
            TypeFunction::Standard(function) => function.call(alloc, args),
            TypeFunction::Own(function) => function.call(alloc, args),
        }
    }
}
