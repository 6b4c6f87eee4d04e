//! Errors of policies, which responses tell as `AuthorizationError`s; and why no response is made of one to which
//! values are told for unknowns. Begin with `ReauthorizationError`, which `reauthorize` gives.
use cedar_extensions::evaluation_error::EvaluationError;
use cedar_literals::uids::EntityType;
use cedar_names::shared::Shared;
use cedar_policy_parts::PolicyID;
use cedar_policy_set::errors::PolicySetError;
use cedar_restricted::partial_values::PartialValue;
use cedar_values::values::Value;
use std::alloc::AllocError;
use std::rc::RcStr;
use thiserror::Error;

/// Why a policy has no part in a response.
#[derive(Debug, PartialEq, Eq, Error)]
pub enum AuthorizationError {
    /// The evaluation of its condition errs.
    #[error("while evaluating policy `{id}`: {error}")]
    PolicyEvaluationError {
        /// The policy's id.
        id: PolicyID,
        /// Why it errs.
        error: EvaluationError,
    },
}

// By hand, so that letting go of one is a call.
impl Drop for AuthorizationError {
    fn drop(self) {
        match self {
            AuthorizationError::PolicyEvaluationError {
                id: _id,
                error: _error,
            } => {}
        }
    }
}

/// Why the values that are told aren't taken for a request.
#[derive(Debug, Error)]
pub enum ConcretizationError {
    /// The value that is told of a variable is no entity, or of the context no record.
    #[error("invalid value {given_value} of {id}: expected type {expected_type}")]
    ValueError {
        /// The variable's name.
        id: RcStr,
        /// What was expected: `entity` or `record`.
        expected_type: &'static str,
        /// The value that is told.
        given_value: Shared<Value>,
    },
    /// The request gives the variable already.
    #[error("concretizing existing value {existing_value} of {id} with value {given_value}")]
    VarConfictError {
        /// The variable's name.
        id: RcStr,
        /// What the request gives.
        existing_value: Shared<PartialValue>,
        /// The value that is told.
        given_value: Shared<Value>,
    },
    /// The request states another type of the entity.
    #[error("concretizing existing but unknown entity value of type {existing_value} of {id} with value {given_value}")]
    EntityTypeConfictError {
        /// The variable's name.
        id: RcStr,
        /// The type that the request states.
        existing_value: EntityType,
        /// The value that is told.
        given_value: Shared<Value>,
    },
    /// The context errs with the values that are told.
    #[error(transparent)]
    ValueEval(EvaluationError),
    /// Memory ran out.
    #[error(transparent)]
    Memory(AllocError),
}

// By hand, so that letting go of one is a call, whichever it is.
impl Drop for ConcretizationError {
    fn drop(self) {
        match self {
            ConcretizationError::ValueError {
                id: _,
                expected_type: _,
                given_value: _given,
            } => {}
            ConcretizationError::VarConfictError {
                id: _,
                existing_value: _existing,
                given_value: _given,
            } => {}
            ConcretizationError::EntityTypeConfictError {
                id: _,
                existing_value: _existing,
                given_value: _given,
            } => {}
            ConcretizationError::ValueEval(_error) => {}
            ConcretizationError::Memory(_error) => {}
        }
    }
}

impl From<EvaluationError> for ConcretizationError {
    ghost use Rattle.std.specs.Prelude.{◌≡◌};
    ghost use Rattle.cedar_evaluator.specs.Refusals.{by_evaluation};

    ghost from_gives = { λ error made. made ≡ by_evaluation error };

    /// Want of memory stays want of memory.
    fn from(error: EvaluationError) -> ConcretizationError {
        match &error {
            EvaluationError::Memory => ConcretizationError::Memory(AllocError),
            _ => ConcretizationError::ValueEval(error),
        }
    }
}

impl From<AllocError> for ConcretizationError {
    ghost use Rattle.std.specs.Prelude.{◌≡◌};
    ghost use Rattle.cedar_evaluator.specs.declared.errors.ConcretizationError.TheVariants.{Memory};

    ghost from_gives = { λ error made. made ≡ Memory error };

    fn from(error: AllocError) -> ConcretizationError {
        ConcretizationError::Memory(error)
    }
}

/// Why no response is made of one to which values are told.
#[derive(Debug, Error)]
pub enum ReauthorizationError {
    /// What is left of the policies is no policy set: an id stands twice.
    #[error(transparent)]
    PolicySetError(PolicySetError),
    /// The values aren't taken for the request.
    #[error(transparent)]
    ConcretizationError(ConcretizationError),
    /// Memory ran out.
    #[error(transparent)]
    Memory(AllocError),
}

// By hand, so that letting go of one is a call, whichever it is.
impl Drop for ReauthorizationError {
    fn drop(self) {
        match self {
            ReauthorizationError::PolicySetError(_error) => {}
            ReauthorizationError::ConcretizationError(_error) => {}
            ReauthorizationError::Memory(_error) => {}
        }
    }
}

impl From<PolicySetError> for ReauthorizationError {
    ghost use Rattle.std.specs.Prelude.{◌≡◌};
    ghost use Rattle.cedar_evaluator.specs.Refusals.{by_policy_set};

    ghost from_gives = { λ error made. made ≡ by_policy_set error };

    /// Want of memory stays want of memory.
    fn from(error: PolicySetError) -> ReauthorizationError {
        match &error {
            PolicySetError::Memory(_) => ReauthorizationError::Memory(AllocError),
            PolicySetError::Occupied { id: _ } => ReauthorizationError::PolicySetError(error),
        }
    }
}

impl From<ConcretizationError> for ReauthorizationError {
    ghost use Rattle.std.specs.Prelude.{◌≡◌};
    ghost use Rattle.cedar_evaluator.specs.Refusals.{by_concretization};

    ghost from_gives = { λ error made. made ≡ by_concretization error };

    /// Want of memory stays want of memory.
    fn from(error: ConcretizationError) -> ReauthorizationError {
        match &error {
            ConcretizationError::Memory(_) => ReauthorizationError::Memory(AllocError),
            _ => ReauthorizationError::ConcretizationError(error),
        }
    }
}

impl From<AllocError> for ReauthorizationError {
    ghost use Rattle.std.specs.Prelude.{◌≡◌};
    ghost use Rattle.cedar_evaluator.specs.declared.errors.ReauthorizationError.TheVariants.{Memory};

    ghost from_gives = { λ error made. made ≡ Memory error };

    fn from(error: AllocError) -> ReauthorizationError {
        ReauthorizationError::Memory(error)
    }
}
