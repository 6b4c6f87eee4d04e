// Why a constraint is refused.
ghost use Rattle.std.specs.Prelude.{IfOk};
ghost use Rattle.cedar_policy_parts.specs.Actions.{TellsSame};

use crate::ExpectedStaticPolicy;
pub use crate::InvalidActionType;
use cedar_literals::slots::Slot;
use std::alloc::{AllocError, AllocFailed, Global};
use thiserror::Error;

/// A slot stands where none may.
#[derive(Debug, PartialEq, Eq, Clone, Drop, Error)]
pub enum UnexpectedSlotError {
    /// This one.
    #[error("found slot `{}` where slots are not allowed", .0.id)]
    FoundSlot(Slot),
    /// Memory ran out.
    #[error(transparent)]
    Memory(AllocError),
}

impl From<AllocError> for UnexpectedSlotError {
    ghost use Rattle.std.specs.Prelude.{◌≡◌};
    ghost use Rattle.cedar_policy_parts.specs.declared.errors.UnexpectedSlotError.TheVariants.{Memory};

    ghost from_gives = { λ error made. made ≡ Memory error };

    fn from(error: AllocError) -> UnexpectedSlotError {
        UnexpectedSlotError::Memory(error)
    }
}

impl<T: Drop> From<AllocFailed<T>> for UnexpectedSlotError {
    ghost use Rattle.std.specs.Prelude.{◌≡◌, alloc_error};
    ghost use Rattle.cedar_policy_parts.specs.declared.errors.UnexpectedSlotError.TheVariants.{Memory};

    ghost from_gives = { λ _ made. made ≡ Memory alloc_error };

    fn from(_error: AllocFailed<T>) -> UnexpectedSlotError {
        UnexpectedSlotError::Memory(AllocError)
    }
}

impl TryFrom<UnexpectedSlotError> for ExpectedStaticPolicy {
    type Error = AllocError;

    ghost use Rattle.std.specs.Prelude.{◌≡◌, MatchResult};
    ghost use Rattle.cedar_policy_parts.specs.declared.errors.UnexpectedSlotError.TheVariants.{FoundSlot, Memory};

    ghost try_from_gives = { λ error result. MatchResult result (λ expected. error ≡ FoundSlot expected.slot) (λ refused. error ≡ Memory refused) };

    /// A static policy was expected where this slot was found; refused where memory ran out instead.
    fn try_from(error: UnexpectedSlotError) -> Result<ExpectedStaticPolicy, AllocError> {
        match error {
            UnexpectedSlotError::FoundSlot(slot) => Ok(ExpectedStaticPolicy { slot }),
            UnexpectedSlotError::Memory(error) => Err(error),
        }
    }
}

/// Why the uids of a constraint aren't taken as actions.
#[derive(Debug, PartialEq, Eq, Drop, Error)]
pub enum ActionTypeError {
    /// Some have another type.
    #[error(transparent)]
    InvalidActionType(InvalidActionType),
    /// Memory ran out.
    #[error(transparent)]
    Memory(AllocError),
}

impl ActionTypeError {
    /// A copy that shares the uids; refused for memory alone.
    pub fn clone(&self, alloc: Global) -> Result<ActionTypeError, AllocError>
        ensures { IfOk result (TellsSame self.now) }
    {
        match self {
            ActionTypeError::InvalidActionType(error) => {
                Ok(ActionTypeError::InvalidActionType(error.clone(alloc)?))
            }
            ActionTypeError::Memory(_) => Ok(ActionTypeError::Memory(AllocError)),
        }
    }
}

impl From<AllocError> for ActionTypeError {
    ghost use Rattle.std.specs.Prelude.{◌≡◌};
    ghost use Rattle.cedar_policy_parts.specs.declared.errors.ActionTypeError.TheVariants.{Memory};

    ghost from_gives = { λ error made. made ≡ Memory error };

    fn from(error: AllocError) -> ActionTypeError {
        ActionTypeError::Memory(error)
    }
}

impl<T: Drop> From<AllocFailed<T>> for ActionTypeError {
    ghost use Rattle.std.specs.Prelude.{◌≡◌, alloc_error};
    ghost use Rattle.cedar_policy_parts.specs.declared.errors.ActionTypeError.TheVariants.{Memory};

    ghost from_gives = { λ _ made. made ≡ Memory alloc_error };

    fn from(_error: AllocFailed<T>) -> ActionTypeError {
        ActionTypeError::Memory(AllocError)
    }
}
