//! What a session answers to a command: a reply or a refusal, and the line that says it.
#![tactic(auto)]

mod answer;
mod erring;
mod error_kind;
mod gathering;
mod lines;
mod policy_ids;
mod refusal;
mod runs;

pub use answer::{Answer, Reply};
pub use erring::Erring;
pub use error_kind::ErrorKind;
pub use lines::put_line;
pub use policy_ids::PolicyIds;
pub use refusal::Refusal;
