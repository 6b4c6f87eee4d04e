//! Schemas: their texts resolved to what their names stand for.
#![tactic(auto)]

mod names;
mod ordering;
mod places;
mod tables;
#[cfg(test)]
mod tests;
mod types;
mod written;

pub use names::TypeName;
pub use ordering::{OrderError, order_by_targets};
pub use places::Places;
pub use tables::TypeTable;
pub use types::{AttributeType, SchemaType};
