//! Partial values and restricted expressions: values written as expressions, expressions that hold data
//! alone, and what is read of them.
#![tactic(auto)]

pub mod borrowed;
pub mod constructing;
pub mod conversions;
mod copies;
pub mod elements;
pub mod errors;
pub mod from_expr;
mod offences;
pub mod partial_value_laws;
pub mod partial_values;
mod representations;
pub mod restricted;
pub mod restricted_laws;
pub mod shapes;
pub mod split;
pub mod to_expr;
