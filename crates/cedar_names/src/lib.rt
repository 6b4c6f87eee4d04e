//! Names of Cedar: identifiers, names, places in texts, shared texts and values, and the names of a schema
//! before they are resolved.
#![tactic(auto)]

pub mod comparing;
pub mod conversions;
pub mod errors;
pub mod identifiers;
pub mod laws;
pub mod names;
pub mod places;
pub mod raw_names;
pub mod reading;
pub mod shared;
pub mod texts;
