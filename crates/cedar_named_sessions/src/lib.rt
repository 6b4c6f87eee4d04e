//! Sessions whose policies, templates and links are called by names.
//!
//! A [`NamedSession`] is an [`OwnedSession`](cedar_session::OwnedSession) beside the names of what it holds: those that
//! the annotations `@id` of a text say, or that its caller gives. Each command is the session's own by ids, and each
//! answer the session's own with every id replaced by its name.
#![tactic(auto)]

mod answers;
mod bodies;
mod names;
mod naming;
mod placing;
mod refusals;
mod session;
#[cfg(test)]
mod tests;

pub use naming::Naming;
pub use refusals::NamedRefusal;
pub use session::NamedSession;
