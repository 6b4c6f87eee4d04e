// Why an expression has no type.

use std::alloc::{AllocError, AllocFailed};
use thiserror::Error;

/// Why an expression has no type, by the names of the Cedar validator. (Cedar language reference, "Policy validation".)
#[derive(Clone, Copy, Debug, PartialEq, Eq, Error)]
pub enum TypingFault {
    /// An entity type that isn't declared.
    #[error("an entity type that isn't declared")]
    UnrecognizedEntityType,
    /// An action that isn't declared.
    #[error("an action that isn't declared")]
    UnrecognizedActionId,
    /// An entity that its enumeration doesn't list.
    #[error("an entity that its enumeration doesn't list")]
    InvalidEnumEntity,
    /// An operand, a part of `&&`, `||` or `if`, or an argument of another type than may stand there.
    #[error("a part of another type than may stand there")]
    UnexpectedType,
    /// Types without a least one above them.
    #[error("types that have nothing in common")]
    IncompatibleTypes,
    /// An attribute that isn't declared.
    #[error("an attribute that isn't declared")]
    UnsafeAttributeAccess,
    /// An optional attribute, where no `has` says that it is there.
    #[error("an optional attribute without a `has` before it")]
    UnsafeOptionalAttributeAccess,
    /// A tag, where no `hasTag` says that it is there.
    #[error("a tag without a `hasTag` before it")]
    UnsafeTagAccess,
    /// A tag of a type that declares none.
    #[error("a tag of a type that declares none")]
    NoTagsAllowed,
    /// An extension function that has no signature.
    #[error("an extension function that isn't declared")]
    UndefinedFunction,
    #[error("another number of arguments than the function takes")]
    WrongNumberArguments,
    /// A text of which a constructor makes no value.
    #[error("a text of which the constructor makes no value")]
    FunctionArgumentValidation,
    /// An argument of a constructor that is no literal.
    #[error("an argument of a constructor that is no literal")]
    NonLitExtConstructor,
    #[error("the empty set, whose type isn't known")]
    EmptySetForbidden,
    /// A slot that isn't bound in the environment.
    #[error("a slot that isn't bound")]
    UnboundSlot,
    #[error("an unknown")]
    UnknownNotAllowed,
    /// A record's key that stands twice.
    #[error("a key that stands twice")]
    DuplicateKeys,
}

/// Why no type is told.
#[derive(Clone, Copy, Debug, PartialEq, Eq, Error)]
pub enum TypingError {
    /// The expression has none, and this is the first fault from the left.
    #[error("{0}")]
    Faulty(TypingFault),
    #[error("it nests too deeply")]
    Depth,
    #[error("memory ran out")]
    Memory,
}

impl From<AllocError> for TypingError {
    ghost use Rattle.std.specs.Prelude.{◌≡◌};
    ghost use Rattle.cedar_typechecker.specs.declared.faults.TypingError.TheVariants.{Memory};

    ghost from_gives = { λ _ error. error ≡ Memory };

    fn from(_error: AllocError) -> TypingError {
        TypingError::Memory
    }
}

impl<T: Drop> From<AllocFailed<T>> for TypingError {
    ghost use Rattle.std.specs.Prelude.{◌≡◌};
    ghost use Rattle.cedar_typechecker.specs.declared.faults.TypingError.TheVariants.{Memory};

    ghost from_gives = { λ _ error. error ≡ Memory };

    fn from(_failed: AllocFailed<T>) -> TypingError {
        TypingError::Memory
    }
}
