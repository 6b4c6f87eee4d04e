// Why nothing is substituted.
ghost use Rattle.std.specs.Prelude.{◌≡◌};

use cedar_literals::types::Type;
use std::alloc::{AllocError, AllocFailed};
use thiserror::Error;

/// Why nothing is substituted: a told value has another type than its unknown states, or memory ran out.
#[derive(Debug, PartialEq, Eq, Clone, Drop, Error)]
pub enum SubstitutionError {
    /// A value is told of another type than its unknown's.
    #[error("expected a value of type {expected}, got a value of type {actual}")]
    TypeError {
        /// The type that is stated.
        expected: Type,
        /// The type of the value.
        actual: Type,
    },
    /// Memory ran out.
    #[error(transparent)]
    Memory(AllocError),
}

impl From<AllocError> for SubstitutionError {
    ghost use Rattle.cedar_substitution.specs.declared.errors.SubstitutionError.TheVariants.{Memory};

    ghost from_gives = { λ error made. made ≡ Memory error };

    fn from(error: AllocError) -> SubstitutionError {
        SubstitutionError::Memory(error)
    }
}

impl<T: Drop> From<AllocFailed<T>> for SubstitutionError {
    ghost use Rattle.std.specs.Prelude.{alloc_error};
    ghost use Rattle.cedar_substitution.specs.declared.errors.SubstitutionError.TheVariants.{Memory};

    ghost from_gives = { λ _ made. made ≡ Memory alloc_error };

    fn from(_error: AllocFailed<T>) -> SubstitutionError {
        SubstitutionError::Memory(AllocError)
    }
}
