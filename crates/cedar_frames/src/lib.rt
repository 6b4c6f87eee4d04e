//! Commands as frames of bytes: read from any reader, and answered to any writer.
//!
//! A frame is a head, a line feed, the body and a line feed. A head is a verb, one space and the
//! body's length in digits without leading zeros, in 32 bytes at most; a body has at most 1,048,576.
//! Reading a frame takes memory for its body alone, and writing takes none.
#![tactic(auto)]

mod body;
mod fault;
mod frame;
mod head;
mod laws;
mod looking;
mod quoting;
mod reading;
mod verb;
mod watched;
mod whole;
mod writing;

pub use fault::Fault;
pub use frame::{Next, next_frame};
pub use head::BODY_LIMIT;
pub use laws::{
    a_frame_is_one, commands_have_a_frame, faults_are_one, faults_hold_no_frame, faults_stay,
    frames_are_one, frames_begin,
};
pub use quoting::{put_escaped, put_quoted};
pub use reading::{ReadFailed, read_byte};
pub use verb::Verb;
pub use watched::Watched;
pub use whole::{WholeFrame, whole_frame};
pub use writing::put;
