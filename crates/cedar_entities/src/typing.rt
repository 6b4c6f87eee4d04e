//! The types of entities.

use crate::entity::Entity;
use cedar_literals::types::{StaticallyTyped, Type};
use std::alloc::{AllocError, Global};

impl StaticallyTyped for Entity {
    ghost use Rattle.cedar_language.specs.Tree as tree;

    ghost static_type = { λ entity. tree.EntityType entity.uid.type_name };

    fn type_of(&self, alloc: Global) -> Result<Type, AllocError> {
        self.uid().type_of(alloc)
    }
}
