//! Decimals, ranges of IP addresses, instants and durations: which texts they have, what these mean, what is
//! reckoned with them, and the bytes by which they are told apart and ordered. Nothing here knows values of Cedar.
//! (Cedar language reference, "Extension types".)
#![tactic(auto)]

mod civil;
mod clocks;
pub mod datetimes;
pub mod decimals;
mod digits;
pub mod durations;
mod fields;
pub mod ip_ranges;
pub mod keys;
pub mod laws;
