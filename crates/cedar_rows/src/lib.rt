//! What the programs that answer lines of steps share, and what lines of the layer of expressions answer: a step is a
//! section, a verb, and words with a bar between. What a step makes stands on a stack; a line's answer is that of its
//! last step. What is made by a call goes to a generic function, by value, so that no function which makes the call lets
//! go of anything.
#![tactic(auto)]

mod answers;
mod builders;
mod errors;
mod extensions;
pub mod names;
mod partial_values;
mod raw_names;
mod registers;
mod restricted;
mod sections;
mod shapes;
pub mod stack;
mod steps;
pub mod substitution;
pub mod trees;
pub mod values;

pub use answers::{Answer, append, maybe, no_case, put, refused, said, show, spell, tell};
pub use registers::{count_of, has, has_each, mapped, paired, push, taken};
pub use sections::{Held, answer, none};
pub use steps::{Step, cut, index, number, plain, read};
