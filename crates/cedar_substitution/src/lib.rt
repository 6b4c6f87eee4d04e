//! Expressions of Cedar built again, by any builder and with others for their unknowns.
#![tactic(auto)]

mod access;
pub mod errors;
pub mod finding;
pub mod functions;
pub mod into_expr;
pub mod laws;
mod rebuilding;
pub mod substitution;
pub mod told_values;
