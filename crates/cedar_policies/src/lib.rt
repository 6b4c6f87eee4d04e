//! Policies: templates, static policies, and links of templates.
#![tactic(auto)]

pub mod bodies;
mod displays;
pub mod errors;
mod held_slots;
pub mod laws;
pub mod linking;
pub mod policies;
pub mod static_policies;
mod template_displays;
pub mod templates;
mod unknowns;
mod validation;
