// `ip` and its methods.
ghost use Rattle.std.specs.Prelude.{◌≡◌, IfOk, not, Some};
ghost use Rattle.std.specs.Net.Addr.{is_ipv4};
ghost use Rattle.cedar_language.specs.Order.{all_of};
ghost use Rattle.cedar_scalars.specs.Ranges.{range_of, is_in_range, is_loopback, is_multicast};
ghost use Rattle.cedar_extension_types.specs.Types.{onward, of_two, alone, text_alone, range_in};
ghost use Rattle.cedar_extension_types.specs.Answers.{made_range, asked, in_range};

use crate::arguments::{alone, range_in, text_alone};
use crate::values::{boolean, range_value};
use cedar_scalars::ip_ranges::IpRange;
use cedar_values::values::Value;
use std::alloc::{AllocError, Global};

/// The range of the text that the one argument is.
fn parsed_range(args: &[Value]) -> Option<IpRange>
    ensures { result ≡ onward range_of (text_alone (all_of args.now)) }
{
    IpRange::parse(text_alone(args)?)
}

/// `ip`.
pub(crate) fn made_range(alloc: Global, args: &[Value]) -> Result<Option<Value>, AllocError>
    ensures { IfOk result (λ answer. answer ≡ made_range (all_of args.now)) }
{
    match parsed_range(args) {
        Some(range) => Ok(Some(range_value(alloc, range)?)),
        None => Ok(None),
    }
}

/// The range that the one argument is.
fn range_alone(args: &[Value]) -> Option<IpRange>
    ensures { result ≡ onward range_in (alone (all_of args.now)) }
{
    range_in(alone(args)?)
}

/// `isIpv4`.
pub(crate) fn version_4(args: &[Value]) -> Option<Value>
    ensures { result ≡ asked (λ r. is_ipv4 r.address) (all_of args.now) }
{
    Some(boolean(range_alone(args)?.is_ipv4()))
}

/// `isIpv6`.
pub(crate) fn version_6(args: &[Value]) -> Option<Value>
    ensures { result ≡ asked (λ r. not (is_ipv4 r.address)) (all_of args.now) }
{
    Some(boolean(range_alone(args)?.is_ipv6()))
}

/// `isLoopback`.
pub(crate) fn loopback(args: &[Value]) -> Option<Value>
    ensures { result ≡ asked is_loopback (all_of args.now) }
{
    Some(boolean(range_alone(args)?.is_loopback()))
}

/// `isMulticast`.
pub(crate) fn multicast(args: &[Value]) -> Option<Value>
    ensures { result ≡ asked is_multicast (all_of args.now) }
{
    Some(boolean(range_alone(args)?.is_multicast()))
}

/// Whether the first of two ranges is within the second.
#[tactic(auto, using(crate::proofs::Counts::not_two))]
fn within(args: &[Value]) -> Option<bool>
    ensures { result ≡ of_two range_in range_in (λ a b. Some (is_in_range a b)) (all_of args.now) }
{
    let [inner, outer] = args else {
        return None;
    };
    let inner = range_in(inner)?;
    let outer = range_in(outer)?;
    Some(inner.is_in_range(outer))
}

/// `isInRange`.
pub(crate) fn in_range(args: &[Value]) -> Option<Value>
    ensures { result ≡ in_range (all_of args.now) }
{
    Some(boolean(within(args)?))
}
