//! Schemas by code: what a schema's text declares, resolved, as the validator asks for it.
#![tactic(auto)]

mod action_names;
mod action_types;
mod actions;
mod applying;
mod building;
mod entity_types;
mod hierarchies;
mod listing;
mod schema;
mod searches;
#[cfg(test)]
mod tests;

pub use applying::ValidatorAction;
pub use cedar_schema_resolution::Uid;
pub use entity_types::{EntityIds, ValidatorEntityType};
pub use hierarchies::Hierarchy;
pub use schema::ValidatorSchema;
