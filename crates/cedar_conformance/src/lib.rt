//! Values, requests and entities held against a schema.
#![tactic(auto)]

mod errors;
mod laws;
mod names;
mod requests;
#[cfg(test)]
mod tests;
mod values;

pub use errors::RequestValidationError;
pub use laws::accepted_requests_conform;
pub use requests::CoreSchema;
pub use values::has_type;
