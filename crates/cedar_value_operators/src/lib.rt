//! Operators of Cedar at values alone: what they give, and with which kind of error they err. Those that
//! read entities stand in `cedar_operators`.
#![tactic(auto)]

mod arithmetic;
mod comparing;
mod operands;
mod patterns;
mod sets;
mod unary;

pub use arithmetic::binary_arith;
pub use comparing::binary_relation;
pub use operands::{any_entity_type, copied, get_as_bool, get_as_entity, get_as_string};
pub use patterns::{is_like, is_of_type};
pub use sets::{contains, contains_all, contains_any};
pub use unary::unary_app;
