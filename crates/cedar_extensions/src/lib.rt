//! Extension functions and their tables, whether the calls of an expression fit one, and why an evaluation
//! has no value.
#![tactic(auto)]

mod available;
pub mod calls;
pub mod collecting;
pub mod evaluation_error;
pub mod extension;
pub mod extensions;
pub mod functions;
pub mod iteration;
pub mod lookups;
mod makers;
mod making;
pub mod missing;
pub mod objects;
pub mod operands;
pub mod table_errors;
pub mod unevaluated;
pub mod validation;
pub mod validation_errors;
