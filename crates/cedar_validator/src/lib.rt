//! Whether policies are typed by a schema: the schema as typing asks for it, the environments of its requests, and policies in
//! each of them.
#![tactic(auto)]

mod actions;
mod conditions;
mod conversion;
mod environments;
mod errors;
mod functions;
mod names;
mod refusals;
mod request_types;
mod schema_types;
#[cfg(test)]
mod tests;
mod uids;

pub use conditions::is_condition_valid;
pub use environments::{BoundTypes, RequestType, SchemaEnv};
pub use errors::SchemaNameError;
pub use functions::{FunctionSignatures, NoFunctions};
pub use refusals::ValidationRefusal;
pub use schema_types::SchemaTypes;
