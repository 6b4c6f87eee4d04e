// Why a session doesn't take what a body says of its entities, or of its question.
use crate::body_faults::BodyFault;
use crate::naming::{listed, once, stands};
use crate::seen::Seen;
use crate::shapes::part_at;
use cedar_closure::TcError;
use cedar_entities::errors::EntitiesError;
use cedar_extensions::objects::ExtensionFunctionObject;
use cedar_held::listed_entities;
use cedar_literals::escapes::Escaped;
use cedar_literals::uids::EntityUID;
use cedar_restricted::borrowed::BorrowedRestrictedExpr;
use cedar_session::{Refusal, Verb};
use std::alloc::{AllocError, Global};

/// Which entity of a list isn't taken so, beside those that are held.
pub(crate) fn edit_fault<F: ExtensionFunctionObject>(
    alloc: Global,
    seen: &Seen<'_, '_, F>,
    verb: Verb,
    refused: Refusal,
    body: BorrowedRestrictedExpr<'_>,
) -> Result<Option<BodyFault>, AllocError> {
    let entities = match listed_entities(alloc, body, seen.extensions, seen.depth) {
        Ok(entities) => entities,
        Err(Refusal::Memory) => return Err(AllocError),
        Err(_) => return Ok(None),
    };
    let mut held = seen.entities.clone(alloc)?;
    let edited = match verb {
        Verb::Add => held.add_in_place(alloc, entities),
        _ => held.upsert_in_place(alloc, entities),
    };
    match edited {
        Ok(()) => Ok(None),
        Err(error) => refused_edit_fault(alloc, refused, &error, body),
    }
}

fn refused_edit_fault(
    alloc: Global,
    refused: Refusal,
    error: &EntitiesError,
    body: BorrowedRestrictedExpr<'_>,
) -> Result<Option<BodyFault>, AllocError> {
    match error {
        EntitiesError::Memory(_) => Err(AllocError),
        EntitiesError::Duplicate(duplicate) if refused == Refusal::Duplicate => {
            let why = "stands there already, with other parts";
            uid_fault(alloc, body, duplicate.euid(), why)
        }
        EntitiesError::TransitiveClosureError(TcError::HasCycle(cycle))
            if refused == Refusal::Cycle => {
            let why = "would be its own ancestor";
            uid_fault(alloc, body, cycle.vertex_with_loop(), why)
        }
        _ => Ok(None),
    }
}

/// What is wrong with the entity of a uid, where the list has it, or else none knows where.
fn uid_fault(
    alloc: Global,
    body: BorrowedRestrictedExpr<'_>,
    uid: &EntityUID,
    why: &str,
) -> Result<Option<BodyFault>, AllocError> {
    let message = format!(in alloc; "{uid} {why}")?;
    match last_of(body, uid) {
        Some(entity) => Ok(Some(BodyFault::of(entity, message))),
        None => Ok(Some(BodyFault {
            span: None,
            message,
        })),
    }
}

/// The last entity of a list that has this uid.
fn last_of<'b>(
    body: BorrowedRestrictedExpr<'b>,
    uid: &EntityUID,
) -> Option<BorrowedRestrictedExpr<'b>> {
    let mut last = None;
    for entity in body.as_set_elements()? {
        if has_uid(entity, uid) {
            last = Some(entity);
        }
    }
    last
}

fn has_uid(entity: BorrowedRestrictedExpr<'_>, uid: &EntityUID) -> bool {
    let Some(part) = part_at(entity, "uid") else {
        return false;
    };
    match part.as_euid() {
        Some(other) => other == uid,
        None => false,
    }
}

/// The first name of what is told that isn't among those that the question waits for, where one is so refused: for a name
/// that was told before where each of these was.
pub(crate) fn name_fault<F: ExtensionFunctionObject>(
    alloc: Global,
    seen: &Seen<'_, '_, F>,
    refused: Refusal,
    body: BorrowedRestrictedExpr<'_>,
) -> Result<Option<BodyFault>, AllocError> {
    let Some(pairs) = body.as_record_pairs() else {
        return Ok(None);
    };
    if refused == Refusal::NoSuchUnknown && names_were_told(seen, body) {
        return Ok(None);
    }
    let untold = once(Vec::from_slice(alloc, seen.untold)?);
    for (name, value) in pairs {
        if !stands(untold.as_slice(), name.as_str()) {
            let fault = unwanted(alloc, name.as_str(), untold.as_slice(), value)?;
            return Ok(Some(fault));
        }
    }
    Ok(None)
}

/// Whether each name of what is told is wanted, or was told before.
fn names_were_told<F: ExtensionFunctionObject>(
    seen: &Seen<'_, '_, F>,
    body: BorrowedRestrictedExpr<'_>,
) -> bool {
    let (Some(pairs), Some(told)) = (body.as_record_pairs(), seen.told) else {
        return false;
    };
    for (name, _) in pairs {
        if !stands(seen.untold, name.as_str()) && !told.contains_key(name.as_str()) {
            return false;
        }
    }
    true
}

fn unwanted(
    alloc: Global,
    name: &str,
    untold: &[&str],
    value: BorrowedRestrictedExpr<'_>,
) -> Result<BodyFault, AllocError> {
    let name = Escaped::new(name);
    let untold = listed(alloc, untold)?;
    let message = format!(in alloc; "\"{name}\" isn't among the names to tell: {untold}")?;
    Ok(BodyFault::of(value, message))
}
