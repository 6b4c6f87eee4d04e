// `decimal` and its methods.
ghost use Rattle.std.specs.Prelude.{◌≡◌, IfOk};
ghost use Rattle.cedar_language.specs.Order.{all_of};
ghost use Rattle.cedar_scalars.specs.Decimals.{decimal_of};
ghost use Rattle.cedar_extension_types.specs.Types.{onward, text_alone};
ghost use Rattle.cedar_extension_types.specs.Answers.{made, decimal_value, order_of};

use crate::arguments::{decimal_in, text_alone};
use crate::values::decimal_value;
use cedar_scalars::decimals::Decimal;
use cedar_values::values::Value;
use std::alloc::{AllocError, Global};
use std::cmp::Ordering;

/// The decimal of the text that the one argument is.
fn parsed(args: &[Value]) -> Option<i64>
    ensures { result ≡ onward decimal_of (text_alone (all_of args.now)) }
{
    match Decimal::parse(text_alone(args)?) {
        Some(decimal) => Some(decimal.ten_thousandths),
        None => None,
    }
}

/// `decimal`.
pub(crate) fn made_decimal(alloc: Global, args: &[Value]) -> Result<Option<Value>, AllocError>
    ensures { IfOk result (λ answer. answer ≡ made decimal_value decimal_of (all_of args.now)) }
{
    match parsed(args) {
        Some(n) => Ok(Some(decimal_value(alloc, n)?)),
        None => Ok(None),
    }
}

/// How two decimals stand to each other.
#[tactic(auto, using(crate::proofs::Counts::not_two))]
pub(crate) fn order_of(args: &[Value]) -> Option<Ordering>
    ensures { result ≡ order_of (all_of args.now) }
{
    let [left, right] = args else {
        return None;
    };
    let left = decimal_in(left)?;
    let right = decimal_in(right)?;
    Some(left.cmp(&right))
}
