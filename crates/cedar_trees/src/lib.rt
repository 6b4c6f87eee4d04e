//! Expressions of Cedar: trees that share their parts, their readers, and what makes them.
#![tactic(auto)]

pub mod constructors;
mod copies;
mod displays;
pub mod errors;
pub mod expr;
pub mod kinds;
pub mod unknowns;
