//! Data read straight from its text: literals, entities, lists, records and calls, in one descent over
//! the bytes, without a loose tree and without places. Whatever else a text may be is left to the parser.
#![tactic(auto)]

mod attributes;
mod descent;
mod given;
mod leaves;
mod names;
mod question;
mod quoted;
mod reader;
mod reading;
mod runs;
mod scalars;
mod texts;
mod type_names;
mod unread;

pub use attributes::Attributes;
pub use given::GivenQuestion;
pub use question::read_question;
pub use reading::read_data;
pub use type_names::TypeNames;
