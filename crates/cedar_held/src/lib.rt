//! What a session holds: policies and entities; bodies of commands, read from expressions; and the edits that
//! they make.
#![tactic(auto)]

mod entities;
mod entry_fields;
mod fields;
mod held_entities;
mod held_policies;
pub mod laws;
mod linking;
mod links;
mod listing;
mod literals;
mod loading;
mod making;
mod removing;
mod stores;
mod values;
pub mod version_laws;
pub mod worlds;

pub use entities::{EntityBody, entity_bodies, uids_of};
pub use entry_fields::all_evaluated;
pub use fields::entity_if_given;
pub use held_entities::HeldEntities;
pub use held_policies::HeldPolicies;
pub use links::{LinkBody, link_body};
pub use listing::listed_entities;
pub use literals::{entity_of, entries_of, items_of, string_of};
pub use making::set_of;
pub use values::refusal;
