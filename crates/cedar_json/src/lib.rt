//! What JSON says as values, entities and questions of Cedar, and the Cedar text of each.
#![tactic(auto)]

mod answers;
mod bodies;
mod entities;
mod entities_written;
mod fault_texts;
pub mod fault_walks;
mod faults;
pub mod found;
mod object_keys;
mod places;
mod questions;
mod reading;
mod scalars;
#[cfg(test)]
mod tests;
mod told;
mod values;
mod writing;

ghost use Rattle.cedar_json.specs.Laws.{WrittenValuesAreRead, WrittenEntitiesAreRead, WrittenQuestionsAreRead, ValuesHaveUniqueKeys};
ghost use Rattle.cedar_json.specs.Rows.{Rows};

pub use answers::answer_text;
pub use bodies::SplitError;
pub use entities::are_parents;
pub use entities_written::write_parents_of;
pub use fault_texts::{faults_text, write_fault, write_fault_list};
pub use faults::{
    FaultKind, JsonFault, encoding_fault, entities_fault, parse_loosely, placed_fault,
    question_fault, syntax_fault, value_fault,
};
pub use object_keys::has_only;
pub use places::Step;
pub use questions::{write_asked, write_context};
pub use reading::{
    Unread, entities_text, entity_texts, holds_texts, parse, question_text, read_entities,
    read_question, read_value,
};
pub use scalars::is_name;
pub use values::is_record;
pub use writing::{Members, find, write_key, write_quoted, write_value};

/// What is written for a value is a text of that value.
pub fn written_values_are_read()
    ensures { WrittenValuesAreRead }
{}

/// What is written for entities is a text of a body of just these.
pub fn written_entities_are_read()
    ensures { WrittenEntitiesAreRead }
{}

/// What is written for a question is a text of a body of just this one.
pub fn written_questions_are_read()
    ensures { WrittenQuestionsAreRead }
{}

/// JSON that says a value has no key twice in one object, at any depth.
pub fn values_have_unique_keys()
    ensures { ValuesHaveUniqueKeys }
{}

/// Rows of what is said and written, each answer by hand.
pub fn rows()
    ensures { Rows }
{}
