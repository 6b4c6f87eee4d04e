//! Numbers with four digits behind the point.
ghost use Rattle.std.specs.Prelude.{◌≡◌, IfOk, option_map, string_bytes};
ghost use Rattle.std.specs.Int.{is_negative};
ghost use Rattle.cedar_scalars.specs.Decimals.{decimal_of, decimal_text, magnitude, is_fraction, parts_of};
ghost use Rattle.cedar_scalars.specs.Digits.{sign_text};
ghost use Rattle.cedar_scalars.specs.Longs.{capped};

use crate::digits::{are_digits, capped_number, long_of_parts, split_digits, split_sign};
use std::alloc::{AllocError, Global};

/// A number with four digits behind the point, held as its ten thousandth parts; the order is that of the numbers.
#[derive(Clone, Copy, Debug, PartialEq, Eq, PartialOrd, Ord, Hash)]
pub struct Decimal {
    pub ten_thousandths: i64,
}

impl Decimal {
    /// The number of a text: an optional `-`, digits, a point and one to four digits. There is none exactly where the
    /// text is no such one, or its ten thousandth parts are no long.
    pub fn parse(text: &[u8]) -> Option<Decimal>
        ensures { option_map (λ d. d.ten_thousandths) result ≡ decimal_of text.now }
    {
        let (negative, unsigned) = split_sign(text);
        let magnitude = magnitude_of(unsigned)?;
        let ten_thousandths = long_of_parts(negative, magnitude)?;
        Some(Decimal { ten_thousandths })
    }

    /// Its text, with all four digits behind the point; the one that is read back (`laws::decimals_are_read_back`).
    #[tactic(auto, using(crate::proofs::Printing::four_written))]
    pub fn print(self, alloc: Global) -> Result<String, AllocError>
        ensures { IfOk result (λ text. string_bytes text ≡ decimal_text self.ten_thousandths) }
    {
        let sign = sign_of(self.ten_thousandths);
        let magnitude = self.ten_thousandths.unsigned_abs();
        let whole = magnitude / 10_000;
        let fraction = magnitude % 10_000;
        let (a, b) = (fraction / 1000, fraction / 100 % 10);
        let (c, d) = (fraction / 10 % 10, fraction % 10);
        format!(in alloc; "{sign}{whole}.{a}{b}{c}{d}")
    }
}

fn sign_of(n: i64) -> &'static str
    ensures { result.now ≡ sign_text (is_negative n) }
{
    if n < 0 { "-" } else { "" }
}

/// The ten thousandth parts of a text without a sign, where they are not too many to be told apart.
fn magnitude_of(unsigned: &[u8]) -> Option<u64>
    ensures { result ≡ option_map capped (magnitude unsigned.now) }
{
    let (whole, rest) = split_digits(unsigned);
    let [b'.', fraction @ ..] = rest else {
        return None;
    };
    if whole.is_empty() || !is_fraction(fraction) {
        return None;
    }
    Some(
        capped_number(whole)
            .saturating_mul(10_000)
            .saturating_add(parts_of(fraction)),
    )
}

/// Whether it is one to four digits.
fn is_fraction(fraction: &[u8]) -> bool
    ensures { result ≡ is_fraction fraction.now }
{
    are_digits(fraction) && !fraction.is_empty() && fraction.len() <= 4
}

/// How many ten thousandth parts these digits are behind a point.
fn parts_of(fraction: &[u8]) -> u64
    ensures { result ≡ capped (parts_of fraction.now) }
{
    let weight: u64 = match fraction.len() {
        0 => 10_000,
        1 => 1000,
        2 => 100,
        3 => 10,
        _ => 1,
    };
    capped_number(fraction).saturating_mul(weight)
}
