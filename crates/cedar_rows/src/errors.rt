// Texts of errors that no evaluation shows, and copies of errors.
use crate::stack::told_place;
use crate::trees::slot;
use crate::{Answer, no_case};
use cedar_extensions::evaluation_error::EvaluationError;
use cedar_extensions::lookups::ExtensionFunctionLookupError;
use cedar_names::names::Name;
use cedar_names::places::Loc;
use std::alloc::{AllocError, Global};

/// The error's text, and its place.
fn told(alloc: Global, error: EvaluationError) -> Answer {
    let place = told_place(alloc, error.source_loc())?;
    format!(in alloc; "{error} {place}")
}

/// The name that the error of a function which gave no answer tells.
fn extension_name(alloc: Global, error: &EvaluationError) -> Answer {
    match error {
        EvaluationError::FailedExtensionFunctionExecution(error) => error.extension_name(alloc),
        _ => no_case(alloc),
    }
}

/// What is told of a slot that isn't linked, of a limit, of the function `f` and of memory, at this place.
pub fn answer(alloc: Global, verb: &str, word: &str, loc: Option<Loc>) -> Answer {
    match (verb, slot(word)) {
        ("unlinked_slot", Some(slot)) => told(alloc, EvaluationError::unlinked_slot(slot, loc)),
        ("recursion_limit", _) => told(alloc, EvaluationError::recursion_limit(loc)),
        ("moved", _) => told(
            alloc,
            EvaluationError::recursion_limit(None).with_maybe_source_loc(loc),
        ),
        ("copied", _) => told(alloc, EvaluationError::recursion_limit(loc).clone(alloc)?),
        ("extension_name", _) => {
            let name = Name::of_identifier(alloc, "f")?;
            let msg = String::from_str(alloc, "no answer")?;
            let error = EvaluationError::failed_extension_function_application(name, msg, loc);
            extension_name(alloc, &error)
        }
        ("memory", _) => told(alloc, EvaluationError::from(AllocError)),
        ("lookup", _) => {
            let error = ExtensionFunctionLookupError::from(AllocError);
            told(alloc, EvaluationError::from(error))
        }
        _ => no_case(alloc),
    }
}
