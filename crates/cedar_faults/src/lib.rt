//! Why trees of the loose syntax mean nothing: faults, their kinds and how they are gathered; and the names that
//! texts may call.
#![tactic(auto)]

mod errors;
mod flattening;
mod kinds;
mod styles;

pub use errors::{ConversionError, ToASTError};
pub use flattening::{flatten_tuple_2, flatten_tuple_3, flatten_tuple_4};
pub use kinds::ToASTErrorKind;
pub use styles::ExtStyles;
