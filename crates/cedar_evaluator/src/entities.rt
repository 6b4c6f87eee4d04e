//! The store of entities, by which requests are answered.

pub use cedar_entities::store::Entities;
