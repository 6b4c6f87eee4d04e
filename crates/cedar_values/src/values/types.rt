// The types of values.

use crate::values::{Value, ValueKind};
use cedar_literals::types::{StaticallyTyped, Type};
use std::alloc::{AllocError, Global};

impl StaticallyTyped for ValueKind {
    ghost use Rattle.cedar_values.specs.Kinds.{value_of};
    ghost use Rattle.cedar_values.specs.Types.{type_of_value};

    ghost static_type = { λ kind. type_of_value (value_of kind) };

    fn type_of(&self, alloc: Global) -> Result<Type, AllocError> {
        match self {
            ValueKind::Lit(literal) => literal.type_of(alloc),
            ValueKind::Set(_) => Ok(Type::Set),
            ValueKind::Record(_) => Ok(Type::Record),
            ValueKind::ExtensionValue(value) => value.type_of(alloc),
        }
    }
}

impl StaticallyTyped for Value {
    ghost use Rattle.cedar_values.specs.Types.{type_of_value};

    ghost static_type = { type_of_value };

    fn type_of(&self, alloc: Global) -> Result<Type, AllocError> {
        self.value.type_of(alloc)
    }
}
