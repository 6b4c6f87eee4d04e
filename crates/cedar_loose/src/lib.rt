//! The loose parser: policies, expressions, names and whole texts read into trees of the loose syntax. Begin
//! with `parse_policies`; `Cursor` is where its readers stand.
#![tactic(auto)]

mod closing;
pub mod cursor;
pub mod error;
mod errors;
mod expressions;
mod kinds;
mod leaves;
mod lists;
mod names;
mod nodes;
mod operators;
mod parse;
mod policies;
mod policy_reader;
mod refusal;

pub use cursor::Cursor;
pub use error::{Met, ReadError, Unexpected};
pub use errors::{LooseError, ToCSTError};
pub use parse::{
    parse_expr, parse_ident, parse_name, parse_policies, parse_policy, parse_primary, parse_ref,
};
pub use policy_reader::PolicyReader;
