// Why a schema isn't one that policies are typed by.

use cedar_schema::TypeName;
use std::alloc::{AllocError, AllocFailed};
use thiserror::Error;

/// Why policies can't be typed by a schema.
#[derive(Debug, Drop, Error)]
pub enum SchemaNameError {
    /// The schema has a type of this name, which no policy can write: a word of it is a keyword, or `__cedar`, or no identifier.
    #[error("`{0}` is no name that a policy can write")]
    UnwritableName(TypeName),
    #[error("memory ran out")]
    Memory,
}

impl From<AllocError> for SchemaNameError {
    ghost use Rattle.std.specs.Prelude.{◌≡◌};
    ghost use Rattle.cedar_validator.specs.declared.errors.SchemaNameError.TheVariants.{Memory};

    ghost from_gives = { λ _ error. error ≡ Memory };

    fn from(_error: AllocError) -> SchemaNameError {
        SchemaNameError::Memory
    }
}

impl<T: Drop> From<AllocFailed<T>> for SchemaNameError {
    ghost use Rattle.std.specs.Prelude.{◌≡◌};
    ghost use Rattle.cedar_validator.specs.declared.errors.SchemaNameError.TheVariants.{Memory};

    ghost from_gives = { λ _ error. error ≡ Memory };

    fn from(_failed: AllocFailed<T>) -> SchemaNameError {
        SchemaNameError::Memory
    }
}
