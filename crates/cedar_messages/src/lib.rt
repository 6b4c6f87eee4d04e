//! What is told of a text to who wrote it: lines with a place, the source line, a mark, and what helps.
//!
//! [`faults_of`] has why a text isn't read as data, each a [`Fault`], and [`tell_faults`] tells it; [`help_of`] has what
//! helps against one error.
#![tactic(auto)]

mod brackets;
mod expected_tokens;
mod fault;
mod faults;
mod finding;
mod helping;
mod helping_tokens;
mod helping_words;
mod json;
mod kinds;
mod marking;
pub mod places;
pub mod telling;

pub use fault::Fault;
pub use faults::{tell_all, tell_faults, tell_unread};
pub use finding::{faults_of, unread_faults};
pub use helping::help_of;
pub use json::faults_json;
