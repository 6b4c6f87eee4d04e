//! An index of policies by the entities that their scopes name.

pub mod index;
mod keys;
pub mod positions;
