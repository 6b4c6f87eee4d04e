// What arguments are.
ghost use Rattle.std.specs.Prelude.{◌≡◌, true, false};
ghost use Rattle.std.specs.Option.{option_copied};
ghost use Rattle.cedar_language.specs.Order.{all_of, same_name};
ghost use Rattle.cedar_extension_types.specs.Types.{decimal_type, datetime_type, duration_type, ip_type, key_in};
ghost use Rattle.cedar_extension_types.specs.Types.{decimal_in, datetime_in, duration_in, range_in, alone, text_alone};

use cedar_names::names::Name;
use cedar_scalars::ip_ranges::IpRange;
use cedar_scalars::keys::number_in;
use cedar_values::extension_values::ExtensionValue;
use cedar_values::values::Value;

/// The one argument.
#[tactic(auto, using(crate::proofs::Counts::not_alone))]
pub(crate) fn alone(args: &[Value]) -> Option<&Value>
    ensures { option_copied result ≡ alone (all_of args.now) }
{
    match args {
        [value] => Some(value),
        _ => None,
    }
}

/// The text that the one argument is.
pub(crate) fn text_alone(args: &[Value]) -> Option<&[u8]>
    ensures { option_copied result ≡ text_alone (all_of args.now) }
{
    match alone(args) {
        Some(value) => match value.as_string() {
            Some(text) => Some(text.as_str().as_bytes()),
            None => None,
        },
        None => None,
    }
}

/// Whether it is the name of the type of decimals.
fn is_decimal(name: &Name) -> bool
    ensures { result ≡ same_name name.now decimal_type }
{
    name.is_unqualified() && name.basename_as_ref().as_str() == "decimal"
}

/// Whether it is the name of the type of instants.
fn is_datetime(name: &Name) -> bool
    ensures { result ≡ same_name name.now datetime_type }
{
    name.is_unqualified() && name.basename_as_ref().as_str() == "datetime"
}

/// Whether it is the name of the type of durations.
fn is_duration(name: &Name) -> bool
    ensures { result ≡ same_name name.now duration_type }
{
    name.is_unqualified() && name.basename_as_ref().as_str() == "duration"
}

/// The key of a value of the type of decimals, which has no order.
fn decimal_key(value: &ExtensionValue) -> Option<&[u8]>
    ensures { option_copied result ≡ key_in decimal_type false value.now }
{
    if is_decimal(value.typename()) && !value.supports_operator_overloading() {
        Some(value.key())
    } else {
        None
    }
}

/// The key of a value of the type of instants, which has an order.
fn datetime_key(value: &ExtensionValue) -> Option<&[u8]>
    ensures { option_copied result ≡ key_in datetime_type true value.now }
{
    if is_datetime(value.typename()) && value.supports_operator_overloading() {
        Some(value.key())
    } else {
        None
    }
}

/// The key of a value of the type of durations, which has an order.
fn duration_key(value: &ExtensionValue) -> Option<&[u8]>
    ensures { option_copied result ≡ key_in duration_type true value.now }
{
    if is_duration(value.typename()) && value.supports_operator_overloading() {
        Some(value.key())
    } else {
        None
    }
}

/// The ten thousandth parts of a decimal.
pub(crate) fn decimal_in(value: &Value) -> Option<i64>
    ensures { result ≡ decimal_in value.now }
{
    let value = value.as_extension_value()?;
    number_in(decimal_key(value)?)
}

/// The milliseconds of an instant.
pub(crate) fn datetime_in(value: &Value) -> Option<i64>
    ensures { result ≡ datetime_in value.now }
{
    let value = value.as_extension_value()?;
    number_in(datetime_key(value)?)
}

/// The milliseconds of a duration.
pub(crate) fn duration_in(value: &Value) -> Option<i64>
    ensures { result ≡ duration_in value.now }
{
    let value = value.as_extension_value()?;
    number_in(duration_key(value)?)
}

/// Whether it is the name of the type of ranges of IP addresses.
fn is_ipaddr(name: &Name) -> bool
    ensures { result ≡ same_name name.now ip_type }
{
    name.is_unqualified() && name.basename_as_ref().as_str() == "ipaddr"
}

/// The key of a value of the type of ranges, which has no order.
fn range_key(value: &ExtensionValue) -> Option<&[u8]>
    ensures { option_copied result ≡ key_in ip_type false value.now }
{
    if is_ipaddr(value.typename()) && !value.supports_operator_overloading() {
        Some(value.key())
    } else {
        None
    }
}

/// The range of IP addresses that a value is.
pub(crate) fn range_in(value: &Value) -> Option<IpRange>
    ensures { result ≡ range_in value.now }
{
    let value = value.as_extension_value()?;
    IpRange::from_key(range_key(value)?)
}
