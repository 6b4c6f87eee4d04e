// What is told of an answer that isn't expected: why policies err, and that an open question has no context.
ghost use Rattle.std.specs.Prelude.{string_bytes, IfOk, OnOk};
ghost use Rattle.cedar_messages.specs.Telling.{Adds, AreBelow};

use crate::standing::Standings;
use cedar_extensions::objects::ExtensionFunctionObject;
use cedar_messages::telling::push_indented;
use cedar_refusals::naming::stands;
use cedar_session::{Answer, ErrorKind, PolicyID, Session};
use std::alloc::{AllocError, Global};

const NO_CONTEXT: &str = "the question has no context, so that is unknown";

/// Tells why policies err in an answer that a session just gave, and where it is open for want of a context.
pub(crate) fn tell_reasons<F: ExtensionFunctionObject>(
    alloc: Global,
    session: &Session<'_, '_, F>,
    told: &mut String,
    answer: &Answer,
) -> Result<(), AllocError>
    ensures { OnOk result (Adds AreBelow (string_bytes told.old) (string_bytes told.new)) }
{
    tell_all_erring(alloc, session, told, answer)?;
    if answer.decision.is_none() && has_no_context(session)? {
        push_indented(told, NO_CONTEXT)?;
    }
    Ok(())
}

/// Tells why policies err in an answer that a session just gave.
fn tell_all_erring<F: ExtensionFunctionObject>(
    alloc: Global,
    session: &Session<'_, '_, F>,
    told: &mut String,
    answer: &Answer,
) -> Result<(), AllocError>
    ensures { OnOk result (Adds AreBelow (string_bytes told.old) (string_bytes told.new)) }
{
    let Some(response) = session.response() else {
        return Err(AllocError);
    };
    let asked = Standings::of(alloc, response)?;
    for (id, kind) in answer.erring.as_slice() {
        tell_erring(alloc, told, &asked, id, *kind)?;
    }
    Ok(())
}

/// Whether the open question has no context, nor is one told.
fn has_no_context<F: ExtensionFunctionObject>(
    session: &Session<'_, '_, F>,
) -> Result<bool, AllocError> {
    let untold = session.untold()?;
    Ok(stands(untold.as_slice(), "context"))
}

/// Tells that a policy errs, and why, where it erred when the question was asked.
fn tell_erring(
    alloc: Global,
    told: &mut String,
    asked: &Standings<'_>,
    id: &PolicyID,
    kind: ErrorKind,
) -> Result<(), AllocError>
    ensures { OnOk result (Adds AreBelow (string_bytes told.old) (string_bytes told.new)) }
{
    let line = match asked.error(id) {
        Some(error) => format!(in alloc; "{} errs: {}: {error}", id.as_str(), kind.name())?,
        None => format!(in alloc; "{} errs: {}", id.as_str(), kind.name())?,
    };
    push_indented(told, line.as_str())
}
