// Why no answer is given.

use std::alloc::{AllocError, AllocFailed};
use thiserror::Error;

/// Why it isn't told whether policies are typed.
#[derive(Clone, Copy, Debug, PartialEq, Eq, Error)]
pub enum ValidationRefusal {
    #[error("a condition nests too deeply")]
    Depth,
    #[error("memory ran out")]
    Memory,
}

impl From<AllocError> for ValidationRefusal {
    ghost use Rattle.std.specs.Prelude.{◌≡◌};
    ghost use Rattle.cedar_validator.specs.declared.refusals.ValidationRefusal.TheVariants.{Memory};

    ghost from_gives = { λ _ error. error ≡ Memory };

    fn from(_error: AllocError) -> ValidationRefusal {
        ValidationRefusal::Memory
    }
}

impl<T: Drop> From<AllocFailed<T>> for ValidationRefusal {
    ghost use Rattle.std.specs.Prelude.{◌≡◌};
    ghost use Rattle.cedar_validator.specs.declared.refusals.ValidationRefusal.TheVariants.{Memory};

    ghost from_gives = { λ _ error. error ≡ Memory };

    fn from(_failed: AllocFailed<T>) -> ValidationRefusal {
        ValidationRefusal::Memory
    }
}
