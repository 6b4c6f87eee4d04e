// Errors.
ghost use Rattle.std.specs.Prelude.{◌≡◌};

use crate::names::InternalName;
use std::alloc::{AllocError, AllocFailed};
use thiserror::Error;

/// A name that holds `__cedar` stands where none may.
#[derive(Debug, PartialEq, Eq, Clone, Drop, Error)]
#[error("the name `{name}` holds `__cedar`, which is reserved")]
pub struct ReservedNameError {
    pub name: InternalName,
}

impl ReservedNameError {
    /// The name.
    pub fn name(&self) -> &InternalName
        ensures { result.now ≡ self.now.name }
    {
        &self.name
    }
}

/// Why a text isn't read as an identifier or a name.
#[derive(Debug, PartialEq, Eq, Clone, Drop, Error)]
pub enum ParseNameError {
    /// It is none, or isn't written as it is printed.
    #[error("this isn't a normalized identifier or name")]
    NotNormalized,
    /// It holds `__cedar`, where none may.
    #[error(transparent)]
    Reserved(ReservedNameError),
    /// Memory ran out.
    #[error(transparent)]
    Memory(AllocError),
}

impl From<AllocError> for ParseNameError {
    ghost use Rattle.cedar_names.specs.declared.errors.ParseNameError.TheVariants.{Memory};

    ghost from_gives = { λ error made. made ≡ Memory error };

    fn from(error: AllocError) -> ParseNameError {
        ParseNameError::Memory(error)
    }
}

impl<T: Drop> From<AllocFailed<T>> for ParseNameError {
    ghost use Rattle.std.specs.Prelude.{alloc_error};
    ghost use Rattle.cedar_names.specs.declared.errors.ParseNameError.TheVariants.{Memory};

    ghost from_gives = { λ _ made. made ≡ Memory alloc_error };

    fn from(_error: AllocFailed<T>) -> ParseNameError {
        ParseNameError::Memory(AllocError)
    }
}

impl From<ReservedNameError> for ParseNameError {
    ghost use Rattle.cedar_names.specs.declared.errors.ParseNameError.TheVariants.{Reserved};

    ghost from_gives = { λ error made. made ≡ Reserved error };

    fn from(error: ReservedNameError) -> ParseNameError {
        ParseNameError::Reserved(error)
    }
}

/// Why a name isn't converted to an identifier.
#[derive(Debug, PartialEq, Eq, Clone, Drop, Error)]
pub enum ConvertNameError {
    /// It has a namespace.
    #[error("the name has a namespace")]
    HasNamespace,
    /// Memory ran out.
    #[error(transparent)]
    Memory(AllocError),
}

impl From<AllocError> for ConvertNameError {
    ghost use Rattle.cedar_names.specs.declared.errors.ConvertNameError.TheVariants.{Memory};

    ghost from_gives = { λ error made. made ≡ Memory error };

    fn from(error: AllocError) -> ConvertNameError {
        ConvertNameError::Memory(error)
    }
}
