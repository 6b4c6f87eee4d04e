//! Values of Cedar: literals, sets, records and extension values.
#![tactic(auto)]

pub mod extension_values;
pub mod laws;
pub mod texts;
pub mod values;
