//! Why an entity isn't made.

use cedar_extensions::evaluation_error::EvaluationError;
use cedar_literals::uids::EntityUID;
use cedar_names::shared::Shared;
use std::alloc::{AllocError, AllocFailed};
use std::error::Error;
use std::fmt;
use std::rc::RcStr;
use thiserror::Error;

/// An attribute or a tag of an entity whose expression has no value.
#[derive(Debug, PartialEq, Eq, Clone, Drop)]
pub struct EntityAttrEvaluationError {
    /// The uid of the entity.
    pub uid: EntityUID,
    /// The name of the attribute or tag.
    pub attr_or_tag: RcStr,
    /// Whether it is an attribute, and else a tag.
    pub was_attr: bool,
    /// Why it has no value.
    pub err: Shared<EvaluationError>,
}

impl fmt::Display for EntityAttrEvaluationError {
    fn fmt<W: fmt::Write>(&self, f: &mut fmt::Formatter<W>) -> fmt::Result {
        let what = if self.was_attr { "attribute" } else { "tag" };
        let name = &self.attr_or_tag;
        let uid = &self.uid;
        let err = &self.err;
        write!(f, "failed to evaluate {what} `{name}` of `{uid}`: {err}")
    }
}

impl Error for EntityAttrEvaluationError {}

/// Why an entity isn't made.
#[derive(Debug, PartialEq, Eq, Clone, Drop, Error)]
pub enum EntityCreationError {
    /// An attribute or a tag has no value.
    #[error(transparent)]
    Evaluation(EntityAttrEvaluationError),
    /// Memory ran out.
    #[error(transparent)]
    Memory(AllocError),
}

impl From<AllocError> for EntityCreationError {
    ghost use Rattle.std.specs.Prelude.{◌≡◌};
    ghost use Rattle.cedar_entity_evaluation.specs.declared.evaluation_errors.EntityCreationError.TheVariants.{Memory};

    ghost from_gives = { λ error made. made ≡ Memory error };

    fn from(error: AllocError) -> EntityCreationError {
        EntityCreationError::Memory(error)
    }
}

impl<T: Drop> From<AllocFailed<T>> for EntityCreationError {
    ghost use Rattle.std.specs.Prelude.{◌≡◌, alloc_error};
    ghost use Rattle.cedar_entity_evaluation.specs.declared.evaluation_errors.EntityCreationError.TheVariants.{Memory};

    ghost from_gives = { λ _ made. made ≡ Memory alloc_error };

    fn from(_error: AllocFailed<T>) -> EntityCreationError {
        EntityCreationError::Memory(AllocError)
    }
}
