//! Scripts of commands, and of tests of what they are answered, as texts: [`read_script`] gives the script that a text is,
//! or the first line that can't stand where it does.
#![tactic(auto)]

mod fault;
mod laws;
mod lines;
mod reading;
mod script;
mod sections;

pub use fault::{ScriptError, ScriptFault};
pub use laws::{
    faults_are_in_no_script, faults_are_one, lines_say_one_thing, texts_are_one_script,
};
pub use reading::read_script;
pub use script::{Script, Step, Test};
