//! The policy set: one map from ids to static policies, templates and links.
#![tactic(auto)]

mod adding;
pub mod bounds;
mod comparing;
mod displays;
pub mod errors;
mod gaps;
pub mod laws;
mod linking;
pub mod listing;
pub mod map_values;
pub mod numbers;
mod places;
pub mod policy_map;
mod reading;
mod removing;
pub mod scope_index;
mod scopes;
pub mod sets;
mod validating;
