// What is wrong with the shape of a body that is refused.
use crate::seen::Seen;
use crate::shapes::{Kind, Shape};
use cedar_extensions::objects::ExtensionFunctionObject;
use cedar_literals::escapes::Escaped;
use cedar_names::places::{Loc, Span};
use cedar_restricted::borrowed::BorrowedRestrictedExpr;
use cedar_restricted::restricted::RestrictedExpr;
use cedar_session::{Refusal, Verb};
use cedar_telling::request_of;
use std::alloc::{AllocError, Global};

/// What is wrong with a body, and the bytes of its text that are so, if they are known.
#[derive(Debug, Drop)]
pub(crate) struct BodyFault {
    pub(crate) span: Option<Span>,
    pub(crate) message: String,
}

impl BodyFault {
    /// What is wrong with this part of a body.
    pub(crate) fn of(part: BorrowedRestrictedExpr<'_>, message: String) -> BodyFault {
        BodyFault {
            span: span_of(part.as_expr().source_loc()),
            message,
        }
    }
}

pub(crate) fn span_of(loc: Option<&Loc>) -> Option<Span> {
    match loc {
        Some(loc) => Some(loc.span()),
        None => None,
    }
}

/// What keeps a body from having its command's shape.
pub(crate) fn shape_fault<F: ExtensionFunctionObject>(
    alloc: Global,
    seen: &Seen<'_, '_, F>,
    verb: Verb,
    body: &RestrictedExpr,
) -> Result<Option<BodyFault>, AllocError> {
    let part = body.as_borrowed();
    match verb {
        Verb::Load => Ok(None),
        Verb::Add | Verb::Put => entities_fault(alloc, part),
        Verb::Link => record_fault(alloc, "the link", Shape::Link, part),
        Verb::Ask => question_fault(alloc, seen, body),
        Verb::Tell => kind_fault(alloc, "the body", Kind::Record, part),
        Verb::Remove => kind_fault(alloc, "the body", Kind::Entities, part),
        Verb::Unlink | Verb::RemoveStatic | Verb::RemoveTemplate => {
            kind_fault(alloc, "the body", Kind::Text, part)
        }
    }
}

fn kind_fault(
    alloc: Global,
    what: &str,
    kind: Kind,
    part: BorrowedRestrictedExpr<'_>,
) -> Result<Option<BodyFault>, AllocError> {
    if kind.has(part) {
        return Ok(None);
    }
    let message = format!(in alloc; "{what} is no {}", kind.name())?;
    Ok(Some(BodyFault::of(part, message)))
}

/// The fault of the first entity of a list that has one.
fn entities_fault(
    alloc: Global,
    body: BorrowedRestrictedExpr<'_>,
) -> Result<Option<BodyFault>, AllocError> {
    let Some(entities) = body.as_set_elements() else {
        let message = String::from_str(alloc, "the body is no list")?;
        return Ok(Some(BodyFault::of(body, message)));
    };
    let mut number = 0usize;
    for entity in entities {
        number = number.saturating_add(1);
        if let Some(fault) = entity_fault(alloc, number, entity)? {
            return Ok(Some(fault));
        }
    }
    Ok(None)
}

fn entity_fault(
    alloc: Global,
    number: usize,
    entity: BorrowedRestrictedExpr<'_>,
) -> Result<Option<BodyFault>, AllocError> {
    let what = format!(in alloc; "entity {number}")?;
    record_fault(alloc, what.as_str(), Shape::Entity, entity)
}

/// Where each part of a question is as it must be, it may be one of the types that isn't.
fn question_fault<F: ExtensionFunctionObject>(
    alloc: Global,
    seen: &Seen<'_, '_, F>,
    body: &RestrictedExpr,
) -> Result<Option<BodyFault>, AllocError> {
    let part = body.as_borrowed();
    if let Some(fault) = record_fault(alloc, "the question", Shape::Question, part)? {
        return Ok(Some(fault));
    }
    match request_of(alloc, body, seen.extensions, seen.depth) {
        Err(Refusal::Shape) => types_fault(alloc, part),
        Err(Refusal::Memory) => Err(AllocError),
        _ => Ok(None),
    }
}

fn types_fault(
    alloc: Global,
    body: BorrowedRestrictedExpr<'_>,
) -> Result<Option<BodyFault>, AllocError> {
    let message = String::from_str(
        alloc,
        "the question: a type isn't spelled as one, or stands beside its entity",
    )?;
    Ok(Some(BodyFault::of(body, message)))
}

/// What keeps a part of a body from being such a record.
pub(crate) fn record_fault(
    alloc: Global,
    what: &str,
    shape: Shape,
    record: BorrowedRestrictedExpr<'_>,
) -> Result<Option<BodyFault>, AllocError> {
    let Some(pairs) = record.as_record_pairs() else {
        return kind_fault(alloc, what, Kind::Record, record);
    };
    for (key, value) in pairs {
        if let Some(fault) = entry_fault(alloc, what, shape, key.as_str(), value)? {
            return Ok(Some(fault));
        }
    }
    match shape.lacking(record) {
        None => Ok(None),
        Some(key) => {
            let message = format!(in alloc; "{what}: key \"{key}\" is missing")?;
            Ok(Some(BodyFault::of(record, message)))
        }
    }
}

fn entry_fault(
    alloc: Global,
    what: &str,
    shape: Shape,
    key: &str,
    value: BorrowedRestrictedExpr<'_>,
) -> Result<Option<BodyFault>, AllocError> {
    let key_told = Escaped::new(key);
    match shape.kind_at(key) {
        Some(kind) => {
            let entry = format!(in alloc; "{what}: key \"{key_told}\"")?;
            kind_fault(alloc, entry.as_str(), kind, value)
        }
        None => {
            let keys = shape.keys();
            let message = format!(in alloc; "{what}: key \"{key_told}\" is none of {keys}")?;
            Ok(Some(BodyFault::of(value, message)))
        }
    }
}
