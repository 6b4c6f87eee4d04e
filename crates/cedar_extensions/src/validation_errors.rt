// Why an expression isn't valid.
ghost use Rattle.std.specs.Prelude.{◌≡◌};

use crate::calls::WrongNumArgumentsError;
use crate::lookups::{ExtensionFunctionLookupError, FuncDoesNotExistError};
use std::alloc::AllocError;
use thiserror::Error;

/// Why an expression isn't valid for a table: the first call, in the order of `ExprIterator`, of a
/// function that the table lacks or with another number of arguments than it takes; or want of memory.
#[derive(Debug, PartialEq, Eq, Clone, Drop, Error)]
pub enum ExprValidationError {
    /// A function is called that no extension has.
    #[error(transparent)]
    FuncDoesNotExist(FuncDoesNotExistError),
    /// A function is called with another number of arguments than it takes.
    #[error(transparent)]
    WrongNumArguments(WrongNumArgumentsError),
    /// Memory ran out.
    #[error(transparent)]
    Memory(AllocError),
}

impl From<ExtensionFunctionLookupError> for ExprValidationError {
    ghost use Rattle.cedar_extensions.specs.ValidationRefusals.{by_lookup};

    ghost from_gives = { λ error made. made ≡ by_lookup error };

    fn from(error: ExtensionFunctionLookupError) -> ExprValidationError {
        match error {
            ExtensionFunctionLookupError::FuncDoesNotExist(error) => {
                ExprValidationError::FuncDoesNotExist(error)
            }
            ExtensionFunctionLookupError::Memory(error) => ExprValidationError::Memory(error),
        }
    }
}

impl From<WrongNumArgumentsError> for ExprValidationError {
    ghost use Rattle.cedar_extensions.specs.declared.validation_errors.ExprValidationError.TheVariants.{WrongNumArguments};

    ghost from_gives = { λ error made. made ≡ WrongNumArguments error };

    fn from(error: WrongNumArgumentsError) -> ExprValidationError {
        ExprValidationError::WrongNumArguments(error)
    }
}

impl From<AllocError> for ExprValidationError {
    ghost use Rattle.cedar_extensions.specs.declared.validation_errors.ExprValidationError.TheVariants.{Memory};

    ghost from_gives = { λ error made. made ≡ Memory error };

    fn from(error: AllocError) -> ExprValidationError {
        ExprValidationError::Memory(error)
    }
}
