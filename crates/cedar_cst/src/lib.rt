//! The trees of the loose syntax: what a text is read into before it is known to mean anything.
#![tactic(auto)]

pub mod cst;
mod display;
pub mod errors;
pub mod laws;
pub mod leaf_display;
mod leaves;
pub mod node;
