//! Ranges of IP addresses: an address, and how many bits of it the addresses of the range share.
ghost use Rattle.std.specs.Prelude.{◌≡◌, IfOk, not, take, drop, string_bytes};
ghost use Rattle.std.specs.Net.Addr.{is_ipv4};
ghost use Rattle.cedar_scalars.specs.Ranges.{width, has_point, unless_pointed, address_of, is_numeral, prefix_of, prefix_behind};
ghost use Rattle.cedar_scalars.specs.Ranges.{slash_place, range_of, range_text, network, is_in_range, is_loopback, is_multicast};
ghost use Rattle.cedar_scalars.specs.Ranges.{address_key, key_of, range_in, range_in_four, range_in_six};

use crate::digits::{are_digits, capped_number};
use std::alloc::{AllocError, Global};
use std::net::{IpAddr, Ipv4Addr, Ipv6Addr};

/// An address and a prefix, how many of its first bits the addresses of the range share: at most 32 or 128 in what
/// is read. `==` tells apart the addresses written, also of one range.
#[derive(Clone, Copy, PartialEq, Eq)]
pub struct IpRange {
    pub address: IpAddr,
    pub prefix: u8,
}

impl IpRange {
    /// The range of a text: an address of version 4 or 6, and where wanted a slash and a prefix of at most 32 or 128.
    /// Without one the address alone. In an address of version 4 and in a prefix no number begins with a needless
    /// zero, and one of version 6 is all written in hexadecimal groups. There is none exactly of any other text.
    pub fn parse(text: &[u8]) -> Option<IpRange>
        ensures { result ≡ range_of text.now }
    {
        let (address_text, rest) = split_at_slash(text);
        let address = parse_address(address_text)?;
        let prefix = prefix_behind(width_of(&address), rest)?;
        Some(IpRange { address, prefix })
    }

    /// Its text: the address, of version 6 in hexadecimal groups alone, a slash and the prefix in any case.
    pub fn print(self, alloc: Global) -> Result<String, AllocError>
        ensures { IfOk result (λ text. string_bytes text ≡ range_text self) }
    {
        let prefix = self.prefix;
        match self.address {
            IpAddr::V4(address) => format!(in alloc; "{address}/{prefix}"),
            IpAddr::V6(address) => format!(in alloc; "{}/{prefix}", address.hex_groups()),
        }
    }

    /// Whether its addresses are of version 4.
    pub fn is_ipv4(self) -> bool
        ensures { result ≡ is_ipv4 self.address }
    {
        self.address.is_ipv4()
    }

    /// Whether its addresses are of version 6.
    pub fn is_ipv6(self) -> bool
        ensures { result ≡ not (is_ipv4 self.address) }
    {
        self.address.is_ipv6()
    }

    /// Whether all its addresses are addresses of the other: of one version, and alike in the bits that those of the
    /// other share.
    pub fn is_in_range(self, other: IpRange) -> bool
        ensures { result ≡ is_in_range self other }
    {
        width_of(&self.address) == width_of(&other.address)
            && other.prefix <= self.prefix
            && network(self.address, other.prefix) == network(other.address, other.prefix)
    }

    /// Whether all its addresses are loopback addresses: within 127.0.0.0/8, or ::1 alone.
    pub fn is_loopback(self) -> bool
        ensures { result ≡ is_loopback self }
    {
        let four = IpRange {
            address: IpAddr::V4(Ipv4Addr::new(127, 0, 0, 0)),
            prefix: 8,
        };
        let six = IpRange {
            address: IpAddr::V6(Ipv6Addr::new(0, 0, 0, 0, 0, 0, 0, 1)),
            prefix: 128,
        };
        self.is_in_range(four) || self.is_in_range(six)
    }

    /// Whether all its addresses are multicast addresses: within 224.0.0.0/4, or ff00::/8.
    pub fn is_multicast(self) -> bool
        ensures { result ≡ is_multicast self }
    {
        let four = IpRange {
            address: IpAddr::V4(Ipv4Addr::new(224, 0, 0, 0)),
            prefix: 4,
        };
        let six = IpRange {
            address: IpAddr::V6(Ipv6Addr::new(0xff00, 0, 0, 0, 0, 0, 0, 0)),
            prefix: 8,
        };
        self.is_in_range(four) || self.is_in_range(six)
    }

    /// The bytes by which it is told apart: 4 or 6, the address, and the prefix.
    pub fn key(self, alloc: Global) -> Result<Vec<u8>, AllocError>
        ensures { IfOk result (λ key. key.items ≡ key_of self) }
    {
        let mut key = address_key(self.address, alloc)?;
        key.push(self.prefix)?;
        Ok(key)
    }

    /// The range of such bytes. There is none exactly of bytes that are the key of none: of another version or
    /// length, or with a prefix of more bits than the address has.
    pub fn from_key(key: &[u8]) -> Option<IpRange>
        ensures { result ≡ range_in key.now }
    {
        let [version, rest @ ..] = key else {
            return None;
        };
        match *version {
            4 => range_in_four(rest),
            6 => range_in_six(rest),
            _ => None,
        }
    }
}

/// Where the first slash stands, or the end.
fn slash_place(text: &[u8]) -> usize
    ensures { result ≡ slash_place text.now }
{
    let mut place: usize = 0;
    for byte in text {
        if *byte == b'/' {
            return place;
        }
        place += 1;
    }
    place
}

/// What stands before the first slash, and the rest.
#[tactic(auto, using(crate::proofs::Slashes::slash_within))]
fn split_at_slash(text: &[u8]) -> (&[u8], &[u8])
    ensures before { result.0.now ≡ take (slash_place text.now) text.now }
    ensures behind { result.1.now ≡ drop (slash_place text.now) text.now }
{
    text.split_at(slash_place(text))
}

/// How many bits an address of its version has.
fn width_of(address: &IpAddr) -> u8
    ensures { result ≡ width address.now }
{
    match address {
        IpAddr::V4(_) => 32,
        IpAddr::V6(_) => 128,
    }
}

/// Whether a point stands in it.
fn has_point(text: &[u8]) -> bool
    ensures { result ≡ has_point text.now }
{
    text.contains(&b'.')
}

/// An address, unless it is of version 6 and its text has a point, so that a part of it is written as version 4.
fn unless_pointed(text: &[u8], address: IpAddr) -> Option<IpAddr>
    ensures { result ≡ unless_pointed text.now address }
{
    match address {
        IpAddr::V4(_) => Some(address),
        IpAddr::V6(_) => { if has_point(text) { None } else { Some(address) } }
    }
}

/// The address of a text.
#[tactic(auto, using(crate::proofs::Addresses::address_given, crate::proofs::Addresses::no_address_given))]
fn parse_address(text: &[u8]) -> Option<IpAddr>
    ensures { result ≡ address_of text.now }
{
    match IpAddr::parse_ascii(text) {
        Ok(address) => unless_pointed(text, address),
        Err(_) => None,
    }
}

/// Whether it is the numeral of a prefix: digits without a needless zero.
fn is_numeral(digits: &[u8]) -> bool
    ensures { result ≡ is_numeral digits.now }
{
    are_digits(digits) && !digits.is_empty() && (digits.len() == 1 || digits[0] != b'0')
}

/// The number of a prefix, of at most this many bits.
fn parse_prefix(digits: &[u8], most: u8) -> Option<u8>
    ensures { result ≡ prefix_of most digits.now }
{
    let value = capped_number(digits);
    if is_numeral(digits) && value <= u64::from(most) {
        Some(value as u8)
    } else {
        None
    }
}

/// The prefix that stands behind an address, or all its bits.
fn prefix_behind(most: u8, rest: &[u8]) -> Option<u8>
    ensures { result ≡ prefix_behind most rest.now }
{
    match rest {
        [_, digits @ ..] => parse_prefix(digits, most),
        _ => Some(most),
    }
}

/// The first bits of an address.
#[tactic(auto, using(crate::proofs::Slashes::all_gone))]
fn network(address: IpAddr, prefix: u8) -> u128
    ensures { result ≡ network address prefix }
{
    match address {
        IpAddr::V4(address) => u128::from(address.to_bits())
            >> 32u32.saturating_sub(u32::from(prefix)),
        IpAddr::V6(address) => {
            let bits = address.to_bits();
            if prefix == 0 {
                0
            } else {
                bits >> 128u32.saturating_sub(u32::from(prefix))
            }
        }
    }
}

/// The version of an address and its octets.
fn address_key(address: IpAddr, alloc: Global) -> Result<Vec<u8>, AllocError>
    ensures { IfOk result (λ key. key.items ≡ address_key address) }
{
    let mut key = Vec::new(alloc);
    match address {
        IpAddr::V4(address) => {
            key.push(4)?;
            key.extend_from_slice(&address.to_bits().to_be_bytes())?;
        }
        IpAddr::V6(address) => {
            key.push(6)?;
            key.extend_from_slice(&address.to_bits().to_be_bytes())?;
        }
    }
    Ok(key)
}

/// The range of four octets and a prefix.
fn range_in_four(rest: &[u8]) -> Option<IpRange>
    ensures { result ≡ range_in_four rest.now }
{
    match rest {
        [a, b, c, d, prefix] if *prefix <= 32 => Some(IpRange {
            address: IpAddr::V4(Ipv4Addr::new(*a, *b, *c, *d)),
            prefix: *prefix,
        }),
        _ => None,
    }
}

/// The range of 16 octets and a prefix.
fn range_in_six(rest: &[u8]) -> Option<IpRange>
    ensures { result ≡ range_in_six rest.now }
{
    match rest {
        [octets @ .., prefix] if *prefix <= 128 => {
            let octets = <[u8; 16]>::try_from(octets).ok()?;
            Some(IpRange {
                address: IpAddr::V6(Ipv6Addr::from_octets(octets)),
                prefix: *prefix,
            })
        }
        _ => None,
    }
}
