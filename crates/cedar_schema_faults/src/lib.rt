//! The faults of what schemas declare: why a text that keeps the grammar is no schema.
//!
//! Each kind of fault is told behind others, by a function of its own.
#![tactic(auto)]

mod actions;
mod cycles;
mod declarations;
mod duplicates;
mod kinds;
mod names;
mod repeats;
#[cfg(test)]
mod tests;
mod told;
mod types;
mod uids;

pub use actions::ActionNumbers;
pub use cycles::{CommonTypes, action_cycle};
pub use declarations::tell_reserved_namespaces;
pub use duplicates::tell_duplicates;
pub use kinds::{ActionReference, SchemaError, SchemaErrorKind};
pub use names::SchemaNames;
pub use uids::ActionUid;
