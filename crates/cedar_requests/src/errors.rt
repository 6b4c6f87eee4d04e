// Why no context or no request is made.
ghost use Rattle.std.specs.Prelude.{◌≡◌};

use cedar_extensions::evaluation_error::EvaluationError;
use cedar_names::shared::Shared;
use cedar_trees::errors::ExpressionConstructionError;
use cedar_trees::expr::Expr;
use std::alloc::{AllocError, AllocFailed};
use std::{error, fmt};
use thiserror::Error;

/// An expression that should be a record isn't written as one.
#[derive(Debug, Drop, Error)]
#[error("expression is not a record: {expr}")]
pub struct NotARecord {
    /// The expression.
    pub expr: Shared<Expr>,
}

/// Why no context is made.
#[derive(Debug, Error)]
pub enum ContextCreationError {
    /// The expression isn't written as a record.
    #[error(transparent)]
    NotARecord(NotARecord),
    /// Its evaluation errs.
    #[error(transparent)]
    Evaluation(EvaluationError),
    /// A key stands twice among its entries.
    #[error(transparent)]
    ExpressionConstruction(ExpressionConstructionError),
    /// Memory ran out.
    #[error(transparent)]
    Memory(AllocError),
}

// By hand, so that letting go of one is a call, whichever it is.
impl Drop for ContextCreationError {
    fn drop(self) {
        match self {
            ContextCreationError::NotARecord(_error) => {}
            ContextCreationError::Evaluation(_error) => {}
            ContextCreationError::ExpressionConstruction(_error) => {}
            ContextCreationError::Memory(_error) => {}
        }
    }
}

impl From<EvaluationError> for ContextCreationError {
    ghost use Rattle.cedar_requests.specs.Refusals.{by_evaluation};

    ghost from_gives = { λ error made. made ≡ by_evaluation error };

    /// Want of memory stays want of memory.
    fn from(error: EvaluationError) -> ContextCreationError {
        match &error {
            EvaluationError::Memory => ContextCreationError::Memory(AllocError),
            _ => ContextCreationError::Evaluation(error),
        }
    }
}

impl From<AllocError> for ContextCreationError {
    ghost use Rattle.cedar_requests.specs.declared.errors.ContextCreationError.TheVariants.{Memory};

    ghost from_gives = { λ error made. made ≡ Memory error };

    fn from(error: AllocError) -> ContextCreationError {
        ContextCreationError::Memory(error)
    }
}

impl<T: Drop> From<AllocFailed<T>> for ContextCreationError {
    ghost use Rattle.std.specs.Prelude.{alloc_error};
    ghost use Rattle.cedar_requests.specs.declared.errors.ContextCreationError.TheVariants.{Memory};

    ghost from_gives = { λ _ made. made ≡ Memory alloc_error };

    fn from(_error: AllocFailed<T>) -> ContextCreationError {
        ContextCreationError::Memory(AllocError)
    }
}

/// Why no request is made.
#[derive(Debug, Drop)]
pub enum RequestError<E> {
    /// The schema refuses it.
    Schema(E),
    /// Memory ran out.
    Memory(AllocError),
}

/// What the schema says, or that memory ran out.
impl<E: fmt::Display> fmt::Display for RequestError<E> {
    fn fmt<W: fmt::Write>(&self, f: &mut fmt::Formatter<W>) -> fmt::Result {
        match self {
            RequestError::Schema(error) => error.fmt(f),
            RequestError::Memory(error) => error.fmt(f),
        }
    }
}

impl<E: error::Error> error::Error for RequestError<E> {}

impl<E> From<AllocError> for RequestError<E> {
    ghost use Rattle.cedar_requests.specs.declared.errors.RequestError.TheVariants.{Memory};

    ghost from_gives = { λ error made. made ≡ Memory error };

    fn from(error: AllocError) -> RequestError<E> {
        RequestError::Memory(error)
    }
}
