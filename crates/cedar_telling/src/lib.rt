//! What bodies ask and tell: the request of a question's body, the names that wait for values, what a body
//! tells of them, and answers joined.
#![tactic(auto)]

mod asked_names;
mod bodies;
mod joining;
mod questions;
mod stated_types;
mod telling;
mod unknowns;
mod wanted;

ghost use Rattle.cedar_telling.specs.Contexts.{QuestionsAreAsked};

pub use asked_names::untold_names;
pub use bodies::request_of;
pub use joining::joined;
pub use questions::entity_given;
pub use telling::told_by;

/// A request that has the parts of a question, and for its context what that was evaluated to, is a
/// request of the question.
pub fn questions_are_asked()
    ensures { QuestionsAreAsked }
{}
