//! What is asked: requests with parts that may be missing, contexts with names that may be unknown, and
//! schemas that accept or refuse them.
#![tactic(auto)]

pub mod contexts;
mod creating;
mod displays;
pub mod entries;
pub mod errors;
mod evaluating;
mod from_uids;
pub mod infallible;
pub mod iteration;
pub mod laws;
pub mod requests;
pub mod residuals;
mod sameness;
pub mod schemas;
mod telling;

pub use contexts::Context;
pub use entries::EntityUIDEntry;
pub use errors::{ContextCreationError, NotARecord, RequestError};
pub use infallible::UnwrapInfallible;
pub use iteration::ContextEntries;
pub use requests::{Request, RequestType};
pub use residuals::ResidualEntries;
pub use schemas::{RequestSchema, RequestSchemaAllPass};
