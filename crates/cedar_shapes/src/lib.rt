//! Shapes of Cedar's expressions: what is left of them without places and data, compared, fed to a
//! hasher, and walked.
#![tactic(auto)]

pub mod iteration;
mod leaves;
mod marks;
mod order;
mod pairs;
pub mod parts;
pub mod readers;
pub mod shapes;
pub mod types;
