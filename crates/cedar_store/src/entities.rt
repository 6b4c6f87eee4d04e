//! The store of entities: what it holds, how it is edited, and what is found under a uid. What an edit does
//! to the transitive closure is the caller's choice, `TCComputation`.

pub use cedar_entities::closing::TCComputation;
pub use cedar_entities::errors::{Duplicate, EntitiesError};
pub use cedar_entities::store::{Dereference, Entities, EntityIterator};
pub use cedar_entity_evaluation::EntitiesValidation;
