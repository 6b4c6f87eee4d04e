//! Calls of `isAuthorized`, read from JSON and answered by a session.
//!
//! [`answer_call`] takes a call as Cedar's WebAssembly does, with its policies, entities and question, and answers in the same format.
//! [`ask_named`] asks a session a question, and tells its answer under [`Names`] that its policies have.
#![tactic(auto)]

mod calls;
mod data;
mod detailed;
mod errors;
mod fields;
mod links;
mod names;
mod parts;
mod policies;
mod reasons;
mod replies;
mod responding;
#[cfg(test)]
mod tests;

pub use calls::{CallReply, Outcome, answer_call};
pub use detailed::{DetailedError, Failure, SourceLocation};
pub use links::link_listed;
pub use names::Names;
pub use responding::{Asked, PolicyError, Response, ask_named};
