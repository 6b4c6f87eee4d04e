// Values of the standard extension types: their keys, and how they are written.
ghost use Rattle.std.specs.Prelude.{◌≡◌, IfOk};
ghost use Rattle.cedar_language.specs.Tree.{a_tree, no_trees};
ghost use Rattle.cedar_language.specs.Value.{ExtensionOf};
ghost use Rattle.cedar_scalars.specs.Keys.{key_of};
ghost use Rattle.cedar_values.specs.Representations.{extension_of, written_call, written_all};
ghost use Rattle.cedar_extension_types.specs.Types.{boolean_value, long_value};
ghost use Rattle.cedar_extension_types.specs.Answers.{decimal_value, datetime_value, duration_value, range_value};
ghost use Rattle.cedar_extension_types.specs.Written.{one_tree, decimal_call, duration_call, range_call, epoch_call, datetime_call};

use cedar_literals::literals::Literal;
use cedar_names::conversions::FromIn;
use cedar_names::names::Name;
use cedar_scalars::decimals::Decimal;
use cedar_scalars::durations::Duration;
use cedar_scalars::ip_ranges::IpRange;
use cedar_scalars::keys::key_of;
use cedar_values::extension_values::{Argument, ExtensionValue, RepresentableExtensionValue};
use cedar_values::values::{Value, ValueKind};
use std::alloc::{AllocError, Global};
use std::rc::Rc;

/// The value of a Boolean.
pub(crate) fn boolean(answer: bool) -> Value
    ensures { result ≡ boolean_value answer }
{
    Value::from(Literal::from(answer))
}

/// The value of a long.
pub(crate) fn long(answer: i64) -> Value
    ensures { result ≡ long_value answer }
{
    Value::from(Literal::from(answer))
}

/// The key of a number.
fn key_bytes(alloc: Global, n: i64) -> Result<Vec<u8>, AllocError>
    ensures { IfOk result (λ key. key.items ≡ key_of n) }
{
    Ok(Vec::from_array(alloc, key_of(n))?)
}

/// One argument, a text.
fn one_text(alloc: Global, text: &str) -> Result<Vec<Argument>, AllocError>
    ensures { IfOk result (λ args. written_all args.items ≡ one_tree text.now) }
{
    let literal = Literal::from_in(alloc, text)?;
    Ok(vec![in alloc; Argument::Lit(literal)]?)
}

/// The value that is written so.
fn value_of(alloc: Global, made: RepresentableExtensionValue) -> Result<Value, AllocError>
    ensures { IfOk result (λ value. value ≡ ExtensionOf (extension_of made)) }
{
    let kind = ValueKind::ExtensionValue(Rc::new(alloc, made)?);
    Ok(Value::new(kind, None))
}

/// A decimal, as it is written.
fn written_decimal(alloc: Global, n: i64) -> Result<RepresentableExtensionValue, AllocError>
    ensures value { IfOk result (λ made. ExtensionOf (extension_of made) ≡ decimal_value n) }
    ensures written { IfOk result (λ made. written_call made ≡ decimal_call n) }
{
    let text = Decimal { ten_thousandths: n }.print(alloc)?;
    let name = Name::of_identifier(alloc, "decimal")?;
    let func = name.clone(alloc)?;
    let value = ExtensionValue::new(name, false, key_bytes(alloc, n)?);
    let args = one_text(alloc, text.as_str())?;
    Ok(RepresentableExtensionValue::new(value, func, args))
}

/// The value of a decimal, by its ten thousandth parts.
pub(crate) fn decimal_value(alloc: Global, n: i64) -> Result<Value, AllocError>
    ensures { IfOk result (λ value. value ≡ decimal_value n) }
{
    value_of(alloc, written_decimal(alloc, n)?)
}

/// A duration, as it is written.
fn written_duration(alloc: Global, n: i64) -> Result<RepresentableExtensionValue, AllocError>
    ensures value { IfOk result (λ made. ExtensionOf (extension_of made) ≡ duration_value n) }
    ensures written { IfOk result (λ made. written_call made ≡ duration_call n) }
{
    let text = Duration { milliseconds: n }.print(alloc)?;
    let name = Name::of_identifier(alloc, "duration")?;
    let func = name.clone(alloc)?;
    let value = ExtensionValue::new(name, true, key_bytes(alloc, n)?);
    let args = one_text(alloc, text.as_str())?;
    Ok(RepresentableExtensionValue::new(value, func, args))
}

/// The value of a duration, by its milliseconds.
pub(crate) fn duration_value(alloc: Global, n: i64) -> Result<Value, AllocError>
    ensures { IfOk result (λ value. value ≡ duration_value n) }
{
    value_of(alloc, written_duration(alloc, n)?)
}

/// The beginning of 1970, as it is written.
fn written_epoch(alloc: Global) -> Result<RepresentableExtensionValue, AllocError>
    ensures { IfOk result (λ made. written_call made ≡ epoch_call) }
{
    let name = Name::of_identifier(alloc, "datetime")?;
    let func = name.clone(alloc)?;
    let value = ExtensionValue::new(name, true, key_bytes(alloc, 0)?);
    let args = one_text(alloc, "1970-01-01")?;
    Ok(RepresentableExtensionValue::new(value, func, args))
}

/// Two arguments that are extension values.
fn two_written(
    alloc: Global,
    first: RepresentableExtensionValue,
    second: RepresentableExtensionValue,
) -> Result<Vec<Argument>, AllocError>
    ensures { IfOk result (λ args. written_all args.items ≡ a_tree (written_call first) (a_tree (written_call second) no_trees)) }
{
    let first = Argument::ExtensionValue(Rc::new(alloc, first)?);
    let second = Argument::ExtensionValue(Rc::new(alloc, second)?);
    Ok(vec![in alloc; first, second]?)
}

/// An instant, as it is written: an offset from the beginning of 1970, since not each one has a text.
fn written_datetime(alloc: Global, n: i64) -> Result<RepresentableExtensionValue, AllocError>
    ensures value { IfOk result (λ made. ExtensionOf (extension_of made) ≡ datetime_value n) }
    ensures written { IfOk result (λ made. written_call made ≡ datetime_call n) }
{
    let epoch = written_epoch(alloc)?;
    let args = two_written(alloc, epoch, written_duration(alloc, n)?)?;
    let name = Name::of_identifier(alloc, "datetime")?;
    let value = ExtensionValue::new(name, true, key_bytes(alloc, n)?);
    let func = Name::of_identifier(alloc, "offset")?;
    Ok(RepresentableExtensionValue::new(value, func, args))
}

/// The value of an instant, by its milliseconds.
pub(crate) fn datetime_value(alloc: Global, n: i64) -> Result<Value, AllocError>
    ensures { IfOk result (λ value. value ≡ datetime_value n) }
{
    value_of(alloc, written_datetime(alloc, n)?)
}

/// A range of IP addresses, as it is written.
fn written_range(alloc: Global, range: IpRange) -> Result<RepresentableExtensionValue, AllocError>
    ensures value { IfOk result (λ made. ExtensionOf (extension_of made) ≡ range_value range) }
    ensures written { IfOk result (λ made. written_call made ≡ range_call range) }
{
    let text = range.print(alloc)?;
    let name = Name::of_identifier(alloc, "ipaddr")?;
    let func = Name::of_identifier(alloc, "ip")?;
    let value = ExtensionValue::new(name, false, range.key(alloc)?);
    let args = one_text(alloc, text.as_str())?;
    Ok(RepresentableExtensionValue::new(value, func, args))
}

/// The value of a range of IP addresses.
pub(crate) fn range_value(alloc: Global, range: IpRange) -> Result<Value, AllocError>
    ensures { IfOk result (λ value. value ≡ range_value range) }
{
    value_of(alloc, written_range(alloc, range)?)
}
