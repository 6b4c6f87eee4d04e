//! What JSON says as the body of each command, and the Cedar text of that body.
//!
//! [`body_text`] reads JSON by its [`JsonVerb`]; the other calls read what one kind of command takes. Each
//! gives a Cedar text that says just what the JSON says, or, memory aside, the JSON says nothing of the kind.
//! What it says is in `docs/JSON.md`. [`json_fault`] tells why it says nothing.
#![tactic(auto)]

mod fault_walks;
mod faults;
mod links;
mod partial_questions;
mod parts;
mod reading;
#[cfg(test)]
mod tests;
mod verbs;

ghost use Rattle.cedar_json_commands.specs.Laws.{WrittenPartialQuestionsAreRead, WrittenLinksAreRead, WholeQuestionsArePartial};
ghost use Rattle.cedar_json_commands.specs.Rows.{Rows};

pub use fault_walks::body_found;
pub use faults::{json_fault, link_fault, partial_question_fault, tell_fault};
pub use links::write_link;
pub use reading::{read_id, read_link, read_named_entities, read_partial_question, read_tell};
pub use verbs::{JsonVerb, body_text, value_body};

/// What is written for a question with open parts is a text of a body of just this one.
pub fn written_partial_questions_are_read()
    ensures { WrittenPartialQuestionsAreRead }
{}

/// What is written for a link is a text of a body of just this one.
pub fn written_links_are_read()
    ensures { WrittenLinksAreRead }
{}

/// A question whose parts all stand is the same with and without leave to leave some open.
pub fn whole_questions_are_partial()
    ensures { WholeQuestionsArePartial }
{}

/// Rows of what is said and written, each answer by hand.
pub fn rows()
    ensures { Rows }
{}
