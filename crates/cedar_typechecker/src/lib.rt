//! The types of expressions by a schema, found in code.
#![tactic(auto)]

mod attributes;
mod calls;
mod capabilities;
mod containers;
mod environment;
mod faults;
mod forms;
mod lazies;
mod leaves;
mod lub;
mod operands;
mod operators;
mod parts;
mod paths;
mod plain;
mod records;
mod relations;
mod results;
mod tags;
#[cfg(test)]
mod tests;
mod types;
mod typing;

pub use capabilities::Capability;
pub use environment::{EntityShape, RequestEnv, Signature};
pub use faults::{TypingError, TypingFault};
pub use results::Typed;
pub use types::{BoolType, ExprType, Field};
pub use typing::typed;
