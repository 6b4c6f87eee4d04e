//! Why an edit of a store is refused.
ghost use Rattle.std.specs.Prelude.{◌≡◌};

use cedar_closure::TcError;
use cedar_literals::uids::EntityUID;
use std::alloc::{AllocError, AllocFailed};
use thiserror::Error;

/// Two versions of one entity that differ.
#[derive(Debug, PartialEq, Eq, Clone, Drop, Error)]
#[error("duplicate entity entry `{euid}`")]
pub struct Duplicate {
    /// The uid of the entity.
    pub euid: EntityUID,
}

impl Duplicate {
    /// The uid of the entity.
    pub fn euid(&self) -> &EntityUID
        ensures { result.now ≡ self.now.euid }
    {
        &self.euid
    }
}

/// Why an edit of a store is refused.
#[derive(Debug, PartialEq, Eq, Clone, Drop, Error)]
pub enum EntitiesError {
    /// An entity was added that differs from the version held, or from another one that was added.
    #[error(transparent)]
    Duplicate(Duplicate),
    /// The parents would hold a cycle; or the ancestors were to be whole, and are not.
    #[error("transitive closure computation/enforcement error: {0}")]
    TransitiveClosureError(TcError<EntityUID>),
    /// Memory ran out.
    #[error(transparent)]
    Memory(AllocError),
}

impl From<AllocError> for EntitiesError {
    ghost use Rattle.cedar_entities.specs.declared.errors.EntitiesError.TheVariants.{Memory};

    ghost from_gives = { λ error made. made ≡ Memory error };

    fn from(error: AllocError) -> EntitiesError {
        EntitiesError::Memory(error)
    }
}

impl<T: Drop> From<AllocFailed<T>> for EntitiesError {
    ghost use Rattle.std.specs.Prelude.{alloc_error};
    ghost use Rattle.cedar_entities.specs.declared.errors.EntitiesError.TheVariants.{Memory};

    ghost from_gives = { λ _ made. made ≡ Memory alloc_error };

    fn from(_error: AllocFailed<T>) -> EntitiesError {
        EntitiesError::Memory(AllocError)
    }
}

impl From<TcError<EntityUID>> for EntitiesError {
    ghost use Rattle.cedar_entities.specs.Refusals.{from_closure};

    ghost from_gives = { λ error made. made ≡ from_closure error };

    /// Want of memory stays so.
    fn from(error: TcError<EntityUID>) -> EntitiesError {
        match error {
            TcError::MissingTcEdge(missing) => {
                EntitiesError::TransitiveClosureError(TcError::MissingTcEdge(missing))
            }
            TcError::HasCycle(cycle) => {
                EntitiesError::TransitiveClosureError(TcError::HasCycle(cycle))
            }
            TcError::Memory(error) => EntitiesError::Memory(error),
        }
    }
}
