// Functions that aren't found.
ghost use Rattle.std.specs.Prelude.{◌≡◌};
ghost use Rattle.cedar_extensions.specs.Causes.{name_sought, place_sought, lookup_cause, lookup_place, place_kept};
ghost use Rattle.std.specs.Option.{option_copied};

use cedar_names::names::Name;
use cedar_names::places::Loc;
use std::alloc::AllocError;
use thiserror::Error;

/// An extension function was looked up that no extension has.
#[derive(Debug, PartialEq, Eq, Clone, Drop, Error)]
#[error("extension function `{name}` does not exist")]
pub struct FuncDoesNotExistError {
    pub(crate) name: Name,
    pub(crate) source_loc: Option<Loc>,
}

impl FuncDoesNotExistError {
    /// The error of the name that was looked up, called at `source_loc`.
    pub fn new(name: Name, source_loc: Option<Loc>) -> FuncDoesNotExistError
        ensures name { name_sought result ≡ name }
        ensures place { place_sought result ≡ source_loc }
    {
        FuncDoesNotExistError { name, source_loc }
    }
}

/// Why an extension function isn't found.
#[derive(Debug, PartialEq, Eq, Clone, Drop, Error)]
pub enum ExtensionFunctionLookupError {
    /// No extension has it.
    #[error(transparent)]
    FuncDoesNotExist(FuncDoesNotExistError),
    /// Memory ran out.
    #[error(transparent)]
    Memory(AllocError),
}

impl ExtensionFunctionLookupError {
    /// Where the function was called, if that is known.
    pub fn source_loc(&self) -> Option<&Loc>
        ensures { option_copied result ≡ lookup_place self.now }
    {
        match self {
            ExtensionFunctionLookupError::FuncDoesNotExist(error) => error.source_loc.as_ref(),
            ExtensionFunctionLookupError::Memory(_error) => None,
        }
    }

    /// The same error, of a call at another place, or at none. Want of memory has no place.
    pub fn with_maybe_source_loc(self, source_loc: Option<Loc>) -> ExtensionFunctionLookupError
        ensures cause { lookup_cause result ≡ lookup_cause self }
        ensures place { lookup_place result ≡ place_kept (lookup_cause self) source_loc }
    {
        match self {
            ExtensionFunctionLookupError::FuncDoesNotExist(error) => {
                ExtensionFunctionLookupError::from(FuncDoesNotExistError {
                    source_loc,
                    ..error
                })
            }
            ExtensionFunctionLookupError::Memory(error) => {
                ExtensionFunctionLookupError::from(error)
            }
        }
    }
}

impl From<FuncDoesNotExistError> for ExtensionFunctionLookupError {
    ghost use Rattle.cedar_extensions.specs.declared.lookups.ExtensionFunctionLookupError.TheVariants.{FuncDoesNotExist};

    ghost from_gives = { λ error made. made ≡ FuncDoesNotExist error };

    fn from(error: FuncDoesNotExistError) -> ExtensionFunctionLookupError {
        ExtensionFunctionLookupError::FuncDoesNotExist(error)
    }
}

impl From<AllocError> for ExtensionFunctionLookupError {
    ghost use Rattle.cedar_extensions.specs.declared.lookups.ExtensionFunctionLookupError.TheVariants.{Memory};

    ghost from_gives = { λ error made. made ≡ Memory error };

    fn from(error: AllocError) -> ExtensionFunctionLookupError {
        ExtensionFunctionLookupError::Memory(error)
    }
}
