//! Restricted expressions of Cedar evaluated: to a value, or to what is left of them where some of
//! their unknowns have no value.
#![tactic(auto)]

mod calls;
mod interpreting;
mod laws;
mod records;

pub use calls::call;
pub use interpreting::interpret_restricted;
pub use laws::written_names_are_read;
pub use records::keyed;
