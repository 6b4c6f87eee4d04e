//! For those who write policies: why a text is refused, and where; tests of policies; and what decides a question.
//!
//! [`check_text`] takes a text of policies and gives a report. [`read_script`] reads a script of commands and tests,
//! [`run_script`] gives a report of how they went, and [`run_test`] of one of them; [`Coverage`] says which policies they
//! try. [`explained`] tells how each policy stands to a question, and [`explained_at`] to one of a script.
//! `crates/cedar_cli` does all this with files. [`why`] has as data why a session refuses a command.
#![tactic(auto)]

mod at_line;
mod awaiting;
mod covering;
mod expecting;
mod explaining;
mod held;
mod origins;
mod past;
mod reasons;
mod running;
mod scopes;
mod standing;
mod witness;
mod wrong;

pub use at_line::explained_at;
pub use cedar_messages::places::{Extent, Position, line_and_column};
pub use cedar_messages::{Fault, faults_json, faults_of, help_of, tell_all, tell_faults};
pub use cedar_refusals::checking::{Checker, DEPTH, Report, check_text};
pub use cedar_refusals::{Seen, why};
pub use cedar_scripts::{
    Script, ScriptError, ScriptFault, Step, Test, faults_are_in_no_script, faults_are_one,
    lines_say_one_thing, read_script, texts_are_one_script,
};
pub use covering::Coverage;
pub use explaining::{Named, awaited_names_suffice, explained};
pub use running::{Outcome, refuse_long, run_script, run_test};
