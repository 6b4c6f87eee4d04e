// The errors of policies, as an answer tells them.
ghost use Rattle.std.specs.Prelude.{◌≡◌, IfOk, map};
ghost use Rattle.cedar_evaluator.specs.Holding.{error_seen};
ghost use Rattle.cedar_extensions.specs.Causes.{lookup_cause};
ghost use Rattle.cedar_extensions.specs.Failures.{failure_by, failure_of};
ghost use Rattle.cedar_asking.specs.Erring.{failure_named, ListsError, ListsErrors};

use cedar_evaluator::errors::AuthorizationError;
use cedar_extensions::evaluation_error::EvaluationError;
use cedar_extensions::lookups::ExtensionFunctionLookupError;
use cedar_policy_parts::PolicyID;
use cedar_replies::{ErrorKind, Refusal};
use std::alloc::{AllocError, Global};

fn lookup_kind(error: &ExtensionFunctionLookupError) -> ErrorKind
    ensures { failure_named result ≡ failure_by (lookup_cause error.now) }
{
    match error {
        ExtensionFunctionLookupError::FuncDoesNotExist(_) => {
            ErrorKind::FailedExtensionFunctionLookup
        }
        ExtensionFunctionLookupError::Memory(_) => ErrorKind::Memory,
    }
}

// How an answer names the kind of an error.
fn kind_of(error: &EvaluationError) -> ErrorKind
    ensures { failure_named result ≡ failure_of error.now }
{
    match error {
        EvaluationError::EntityDoesNotExist(_) => ErrorKind::EntityDoesNotExist,
        EvaluationError::EntityAttrDoesNotExist(_) => ErrorKind::EntityAttrDoesNotExist,
        EvaluationError::RecordAttrDoesNotExist(_) => ErrorKind::RecordAttrDoesNotExist,
        EvaluationError::FailedExtensionFunctionLookup(error) => lookup_kind(error),
        EvaluationError::TypeError(_) => ErrorKind::TypeError,
        EvaluationError::WrongNumArguments(_) => ErrorKind::WrongNumArguments,
        EvaluationError::IntegerOverflow(_) => ErrorKind::IntegerOverflow,
        EvaluationError::UnlinkedSlot(_) => ErrorKind::UnlinkedSlot,
        EvaluationError::FailedExtensionFunctionExecution(_) => {
            ErrorKind::FailedExtensionFunctionExecution
        }
        EvaluationError::NonValue(_) => ErrorKind::NonValue,
        EvaluationError::RecursionLimit(_) => ErrorKind::RecursionLimit,
        EvaluationError::Memory => ErrorKind::Memory,
    }
}

fn copied(id: &PolicyID) -> Result<PolicyID, AllocError>
    ensures { IfOk result (λ copy. copy ≡ id.now) }
{
    Ok(id.clone()?)
}

// A policy's id and the kind of its error, where an answer may show it.
fn listed_error(error: &AuthorizationError) -> Result<(PolicyID, ErrorKind), Refusal>
    ensures { ListsError (error_seen error.now) result }
{
    match error {
        AuthorizationError::PolicyEvaluationError { id, error } => match kind_of(error) {
            ErrorKind::RecursionLimit => Err(Refusal::Depth),
            ErrorKind::Memory => Err(Refusal::Memory),
            kind => Ok((copied(id)?, kind)),
        },
    }
}

/// The ids of the policies that err, each with the kind of its error. It is refused `Depth` where some
/// error is a limit that was met, and `Memory`.
pub(crate) fn listed_errors(
    alloc: Global,
    errors: &[AuthorizationError],
) -> Result<Vec<(PolicyID, ErrorKind)>, Refusal>
    ensures { ListsErrors (map error_seen errors.now) result }
{
    let mut listed = Vec::new(alloc);
    for error in errors {
        listed.push(listed_error(error)?)?;
    }
    Ok(listed)
}
