// Why an expression has no value.
ghost use Rattle.std.specs.Prelude.{◌≡◌, IfOk, false};
ghost use Rattle.std.specs.Option.{option_copied};
ghost use Rattle.cedar_extensions.specs.Causes.{hides_memory, cause_of, place_of, place_kept, lookup_cause, lookup_place, overflow_cause, overflow_place};

use crate::calls::{ExtensionFunctionExecutionError, WrongNumArgumentsError};
use crate::lookups::{ExtensionFunctionLookupError, FuncDoesNotExistError};
use crate::missing::{
    EntityAttrDoesNotExistError, EntityDoesNotExistError, RecordAttrDoesNotExistError,
};
use crate::operands::{
    BinaryOpOverflowError, IntegerOverflowError, TypeError, UnaryOpOverflowError,
};
use crate::unevaluated::{NonValueError, RecursionLimitError, UnlinkedSlotError};
use cedar_names::places::Loc;
use std::alloc::{AllocError, AllocFailed, Global};
use thiserror::Error;

/// Why an evaluation gives no value. `==` compares all that an error tells, its place too.
/// (Cedar language reference, "Semantics of operators".)
#[derive(Debug, PartialEq, Eq, Clone, Error)]
pub enum EvaluationError {
    /// An entity was looked up that isn't held.
    #[error(transparent)]
    EntityDoesNotExist(EntityDoesNotExistError),
    /// An entity doesn't have an attribute or a tag.
    #[error(transparent)]
    EntityAttrDoesNotExist(EntityAttrDoesNotExistError),
    /// A record doesn't have an attribute.
    #[error(transparent)]
    RecordAttrDoesNotExist(RecordAttrDoesNotExistError),
    /// An extension function isn't found.
    #[error(transparent)]
    FailedExtensionFunctionLookup(ExtensionFunctionLookupError),
    /// A value is of another type than the operation takes.
    #[error(transparent)]
    TypeError(TypeError),
    /// A function was called with another number of arguments than it takes.
    #[error(transparent)]
    WrongNumArguments(WrongNumArgumentsError),
    /// The result of an operator is no long.
    #[error(transparent)]
    IntegerOverflow(IntegerOverflowError),
    /// A slot of a template isn't linked to an entity.
    #[error(transparent)]
    UnlinkedSlot(UnlinkedSlotError),
    /// An extension function said that it has no answer.
    #[error(transparent)]
    FailedExtensionFunctionExecution(ExtensionFunctionExecutionError),
    /// What is left of the expression depends on something unknown.
    #[error(transparent)]
    NonValue(NonValueError),
    /// The limit on nested evaluations was met.
    #[error(transparent)]
    RecursionLimit(RecursionLimitError),
    /// Memory ran out.
    #[error("memory ran out")]
    Memory,
}

// By hand, so that letting go of one is a call, whichever it is.
impl Drop for EvaluationError {
    fn drop(self) {
        match self {
            EvaluationError::EntityDoesNotExist(_error) => {}
            EvaluationError::EntityAttrDoesNotExist(_error) => {}
            EvaluationError::RecordAttrDoesNotExist(_error) => {}
            EvaluationError::FailedExtensionFunctionLookup(_error) => {}
            EvaluationError::TypeError(_error) => {}
            EvaluationError::WrongNumArguments(_error) => {}
            EvaluationError::IntegerOverflow(_error) => {}
            EvaluationError::UnlinkedSlot(_error) => {}
            EvaluationError::FailedExtensionFunctionExecution(_error) => {}
            EvaluationError::NonValue(_error) => {}
            EvaluationError::RecursionLimit(_error) => {}
            EvaluationError::Memory => {}
        }
    }
}

impl EvaluationError {
    /// Where it was met, if that is known.
    pub fn source_loc(&self) -> Option<&Loc>
        ensures { option_copied result ≡ place_of self.now }
    {
        match self {
            EvaluationError::EntityDoesNotExist(error) => error.source_loc.as_ref(),
            EvaluationError::EntityAttrDoesNotExist(error) => error.source_loc.as_ref(),
            EvaluationError::RecordAttrDoesNotExist(error) => error.source_loc.as_ref(),
            EvaluationError::FailedExtensionFunctionLookup(error) => error.source_loc(),
            EvaluationError::TypeError(error) => error.source_loc.as_ref(),
            EvaluationError::WrongNumArguments(error) => error.source_loc.as_ref(),
            EvaluationError::IntegerOverflow(error) => error.source_loc(),
            EvaluationError::UnlinkedSlot(error) => error.source_loc.as_ref(),
            EvaluationError::FailedExtensionFunctionExecution(error) => error.source_loc.as_ref(),
            EvaluationError::NonValue(error) => error.source_loc.as_ref(),
            EvaluationError::RecursionLimit(error) => error.source_loc.as_ref(),
            EvaluationError::Memory => None,
        }
    }

    /// A copy, which shares what it tells but for the text of `FailedExtensionFunctionExecution`; refused
    /// for memory alone.
    pub fn clone(&self, _alloc: Global) -> Result<EvaluationError, AllocError>
        ensures cause { IfOk result (λ copy. cause_of copy ≡ cause_of self.now) }
        ensures place { IfOk result (λ copy. place_of copy ≡ place_of self.now) }
        ensures memory { IfOk result (λ copy. hides_memory copy ≡ hides_memory self.now) }
    {
        Clone::clone(self)
    }

    /// The same error, met at another place, or at none. Want of memory has no place, and is no failed
    /// look-up.
    pub fn with_maybe_source_loc(self, source_loc: Option<Loc>) -> EvaluationError
        ensures cause { cause_of result ≡ cause_of self }
        ensures place { place_of result ≡ place_kept (cause_of self) source_loc }
        ensures memory { hides_memory result ≡ false }
    {
        match self {
            EvaluationError::EntityDoesNotExist(error) => {
                EvaluationError::from(error.at(source_loc))
            }
            EvaluationError::EntityAttrDoesNotExist(error) => {
                EvaluationError::from(error.at(source_loc))
            }
            EvaluationError::RecordAttrDoesNotExist(error) => {
                EvaluationError::from(error.at(source_loc))
            }
            EvaluationError::FailedExtensionFunctionLookup(error) => {
                EvaluationError::from(error.with_maybe_source_loc(source_loc))
            }
            EvaluationError::TypeError(error) => EvaluationError::from(error.at(source_loc)),
            EvaluationError::WrongNumArguments(error) => EvaluationError::from(error.at(
                source_loc,
            )),
            EvaluationError::IntegerOverflow(error) => {
                EvaluationError::from(error.with_maybe_source_loc(source_loc))
            }
            EvaluationError::UnlinkedSlot(error) => EvaluationError::from(error.at(source_loc)),
            EvaluationError::FailedExtensionFunctionExecution(error) => {
                EvaluationError::from(error.at(source_loc))
            }
            EvaluationError::NonValue(error) => EvaluationError::from(error.at(source_loc)),
            EvaluationError::RecursionLimit(_error) => {
                EvaluationError::from(RecursionLimitError { source_loc })
            }
            EvaluationError::Memory => EvaluationError::Memory,
        }
    }
}

impl From<EntityDoesNotExistError> for EvaluationError {
    ghost use Rattle.cedar_extensions.specs.declared.evaluation_error.EvaluationError.TheVariants as variants;

    ghost from_gives = { λ error made. made ≡ variants.EntityDoesNotExist error };

    fn from(error: EntityDoesNotExistError) -> EvaluationError {
        EvaluationError::EntityDoesNotExist(error)
    }
}

impl From<EntityAttrDoesNotExistError> for EvaluationError {
    ghost use Rattle.cedar_extensions.specs.declared.evaluation_error.EvaluationError.TheVariants as variants;

    ghost from_gives = { λ error made. made ≡ variants.EntityAttrDoesNotExist error };

    fn from(error: EntityAttrDoesNotExistError) -> EvaluationError {
        EvaluationError::EntityAttrDoesNotExist(error)
    }
}

impl From<RecordAttrDoesNotExistError> for EvaluationError {
    ghost use Rattle.cedar_extensions.specs.declared.evaluation_error.EvaluationError.TheVariants as variants;

    ghost from_gives = { λ error made. made ≡ variants.RecordAttrDoesNotExist error };

    fn from(error: RecordAttrDoesNotExistError) -> EvaluationError {
        EvaluationError::RecordAttrDoesNotExist(error)
    }
}

impl From<TypeError> for EvaluationError {
    ghost use Rattle.cedar_extensions.specs.declared.evaluation_error.EvaluationError.TheVariants as variants;

    ghost from_gives = { λ error made. made ≡ variants.TypeError error };

    fn from(error: TypeError) -> EvaluationError {
        EvaluationError::TypeError(error)
    }
}

impl From<WrongNumArgumentsError> for EvaluationError {
    ghost use Rattle.cedar_extensions.specs.declared.evaluation_error.EvaluationError.TheVariants as variants;

    ghost from_gives = { λ error made. made ≡ variants.WrongNumArguments error };

    fn from(error: WrongNumArgumentsError) -> EvaluationError {
        EvaluationError::WrongNumArguments(error)
    }
}

impl From<IntegerOverflowError> for EvaluationError {
    ghost use Rattle.cedar_extensions.specs.declared.evaluation_error.EvaluationError.TheVariants as variants;

    ghost from_gives = { λ error made. made ≡ variants.IntegerOverflow error };

    fn from(error: IntegerOverflowError) -> EvaluationError {
        EvaluationError::IntegerOverflow(error)
    }
}

impl From<UnlinkedSlotError> for EvaluationError {
    ghost use Rattle.cedar_extensions.specs.declared.evaluation_error.EvaluationError.TheVariants as variants;

    ghost from_gives = { λ error made. made ≡ variants.UnlinkedSlot error };

    fn from(error: UnlinkedSlotError) -> EvaluationError {
        EvaluationError::UnlinkedSlot(error)
    }
}

impl From<ExtensionFunctionExecutionError> for EvaluationError {
    ghost use Rattle.cedar_extensions.specs.declared.evaluation_error.EvaluationError.TheVariants as variants;

    ghost from_gives = { λ error made. made ≡ variants.FailedExtensionFunctionExecution error };

    fn from(error: ExtensionFunctionExecutionError) -> EvaluationError {
        EvaluationError::FailedExtensionFunctionExecution(error)
    }
}

impl From<NonValueError> for EvaluationError {
    ghost use Rattle.cedar_extensions.specs.declared.evaluation_error.EvaluationError.TheVariants as variants;

    ghost from_gives = { λ error made. made ≡ variants.NonValue error };

    fn from(error: NonValueError) -> EvaluationError {
        EvaluationError::NonValue(error)
    }
}

impl From<RecursionLimitError> for EvaluationError {
    ghost use Rattle.cedar_extensions.specs.declared.evaluation_error.EvaluationError.TheVariants as variants;

    ghost from_gives = { λ error made. made ≡ variants.RecursionLimit error };

    fn from(error: RecursionLimitError) -> EvaluationError {
        EvaluationError::RecursionLimit(error)
    }
}

impl From<ExtensionFunctionLookupError> for EvaluationError {
    ghost use Rattle.std.specs.Prelude.{◌≡◌};
    ghost use Rattle.cedar_extensions.specs.Causes.{by_lookup, cause_of, place_of, lookup_cause, lookup_place};

    ghost from_gives = { λ error made. (made ≡ by_lookup error) × (cause_of made ≡ lookup_cause error) × (place_of made ≡ lookup_place error) };

    /// Want of memory stays want of memory.
    fn from(error: ExtensionFunctionLookupError) -> EvaluationError {
        match error {
            ExtensionFunctionLookupError::Memory(error) => EvaluationError::from(error),
            error => EvaluationError::FailedExtensionFunctionLookup(error),
        }
    }
}

impl From<AllocError> for EvaluationError {
    ghost use Rattle.cedar_extensions.specs.declared.evaluation_error.EvaluationError.TheVariants as variants;

    ghost from_gives = { λ _ made. made ≡ variants.Memory };

    fn from(_error: AllocError) -> EvaluationError {
        EvaluationError::Memory
    }
}

impl<T: Drop> From<AllocFailed<T>> for EvaluationError {
    ghost use Rattle.cedar_extensions.specs.declared.evaluation_error.EvaluationError.TheVariants as variants;

    ghost from_gives = { λ _ made. made ≡ variants.Memory };

    fn from(_error: AllocFailed<T>) -> EvaluationError {
        EvaluationError::Memory
    }
}
