//! Entities and the store that holds them: attributes and tags, parents and ancestors, and edits of the
//! store.
#![tactic(auto)]

pub mod attributes;
mod children;
pub mod closing;
mod comparing;
mod edits;
pub mod entity;
mod entity_displays;
pub mod errors;
mod gaining;
mod in_place;
mod iteration;
mod nodes;
pub mod store;
mod store_displays;
mod store_edits;
mod taking_back;
mod touching;
mod typing;
mod uid_lists;

pub use iteration::Uids;
pub use uid_lists::EntityUIDs;
