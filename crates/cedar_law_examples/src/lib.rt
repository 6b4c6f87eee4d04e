//! Worked examples of laws in a caller's proof.
#![tactic(auto)]

pub mod proving;
