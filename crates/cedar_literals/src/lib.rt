//! Literals of Cedar, and what they are made of: entity uids, slots, escapes, types of values, patterns,
//! variables and operators. What is printed within a bound.
#![tactic(auto)]

pub mod bounded_display;
pub mod escapes;
pub mod literal_laws;
pub mod literals;
mod matching;
pub mod operators;
pub mod patterns;
pub mod reading;
pub mod slots;
pub mod text_bounds;
pub mod types;
pub mod uid_laws;
pub mod uids;
mod unescaping;
pub mod variables;
