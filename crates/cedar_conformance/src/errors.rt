// Why a request doesn't conform.

use cedar_literals::uids::{EntityType, EntityUID};
use std::alloc::AllocError;
use thiserror::Error;

/// Why a request doesn't conform to a schema.
#[derive(Debug, Drop, Error)]
pub enum RequestValidationError {
    /// The principal is of a type that the schema doesn't declare.
    #[error("principal type `{0}` is not declared in the schema")]
    UndeclaredPrincipalType(EntityType),
    /// The resource is of a type that the schema doesn't declare.
    #[error("resource type `{0}` is not declared in the schema")]
    UndeclaredResourceType(EntityType),
    /// The action isn't declared.
    #[error("action `{0}` is not declared in the schema")]
    UndeclaredAction(EntityUID),
    /// The action doesn't apply to principals of this type.
    #[error("principal type `{0}` is not valid for `{1}`")]
    InvalidPrincipalType(EntityType, EntityUID),
    /// The action doesn't apply to resources of this type.
    #[error("resource type `{0}` is not valid for `{1}`")]
    InvalidResourceType(EntityType, EntityUID),
    /// The context isn't as the action declares it.
    #[error("context is not valid for `{0}`")]
    InvalidContext(EntityUID),
    /// The entity is of a type that lists its entities, and isn't among them.
    #[error("entity `{0}` is of an enumerated type that does not list it")]
    InvalidEnumEntity(EntityUID),
    /// Memory ran out.
    #[error(transparent)]
    Memory(AllocError),
}

impl From<AllocError> for RequestValidationError {
    ghost use Rattle.std.specs.Prelude.{◌≡◌};
    ghost use Rattle.cedar_conformance.specs.declared.errors.RequestValidationError.TheVariants.{Memory};

    ghost from_gives = { λ error made. made ≡ Memory error };

    fn from(error: AllocError) -> RequestValidationError {
        RequestValidationError::Memory(error)
    }
}
