// The entities and the question of a call, as bodies of commands.
use crate::errors::{CallError, Source};
use crate::parts::Part;
use cedar_json::{
    JsonFault, SplitError, Unread, entities_fault, entity_texts, question_fault, read_question,
    value_fault,
};
use cedar_messages::places::{Position, line_and_column};
use cedar_session::BODY_LIMIT;
use json::{Scratch, is_valid};
use std::alloc::AllocError;

/// Refuses a text that is no JSON.
pub(crate) fn check_json(source: Source<'_>) -> Result<(), CallError> {
    let mut scratch = Scratch::new(source.alloc);
    if is_valid(source.json, &mut scratch)? {
        return Ok(());
    }
    match value_fault(source.alloc, source.json)? {
        Some(fault) => {
            let place = Position {
                line: fault.line,
                column: fault.column,
            };
            Err(source.unread_at(place, fault.kind.name(), Ok(fault.message)))
        }
        None => Err(CallError::Memory),
    }
}

/// The bodies of a call's entities, in order.
pub(crate) fn entity_bodies(source: Source<'_>, part: &Part<'_>) -> Result<Vec<String>, CallError> {
    match entity_texts(source.alloc, part.text, BODY_LIMIT) {
        Ok(bodies) => Ok(bodies),
        Err(SplitError::Memory) => Err(CallError::Memory),
        Err(SplitError::TooLong { index }) => {
            let words = format!(in source.alloc;
                "/entities/{index}: the entity takes more than 1,048,576 bytes"
            )?;
            Err(source.unread(part.start, "Long", words.as_str()))
        }
        Err(SplitError::Unsaid) => match entities_fault(source.alloc, part.text)? {
            Some(fault) => Err(misread(source, part, "/entities", &fault)?),
            None => Err(CallError::Memory),
        },
    }
}

/// The parts of a question.
pub(crate) struct QuestionParts<'j> {
    pub(crate) principal: Part<'j>,
    pub(crate) action: Part<'j>,
    pub(crate) resource: Part<'j>,
    pub(crate) context: Part<'j>,
}

impl Drop for QuestionParts<'_> {
    fn drop(self) {
        let QuestionParts {
            principal: _,
            action: _,
            resource: _,
            context: _,
        } = self;
    }
}

/// The body of a call's question.
pub(crate) fn question_body(
    source: Source<'_>,
    parts: &QuestionParts<'_>,
) -> Result<String, CallError> {
    let json = format!(in source.alloc;
        "{{\"principal\":{},\"action\":{},\"resource\":{},\"context\":{}}}",
        parts.principal.text, parts.action.text, parts.resource.text, parts.context.text
    )?;
    match read_question(source.alloc, json.as_str()) {
        Ok(body) if body.len() > BODY_LIMIT => {
            let words = "the request takes more than 1,048,576 bytes";
            Err(source.unread(parts.context.start, "Long", words))
        }
        Ok(body) => Ok(body),
        Err(Unread::Memory) => Err(CallError::Memory),
        Err(Unread::Unsaid) => match question_fault(source.alloc, json.as_str())? {
            Some(fault) => Err(misasked(source, parts, &fault)?),
            None => Err(CallError::Memory),
        },
    }
}

/// That a question can't be read, at the part in which this fault was found.
fn misasked(
    source: Source<'_>,
    parts: &QuestionParts<'_>,
    fault: &JsonFault,
) -> Result<CallError, AllocError> {
    let pointer = fault.pointer.as_str();
    let part = if pointer.starts_with("/principal") {
        &parts.principal
    } else if pointer.starts_with("/action") {
        &parts.action
    } else if pointer.starts_with("/resource") {
        &parts.resource
    } else {
        if let Some(inner) = value_fault(source.alloc, parts.context.text)? {
            return misread(source, &parts.context, "/context", &inner);
        }
        &parts.context
    };
    let words = format!(in source.alloc; "{pointer}: {}", fault.message.as_str())?;
    Ok(source.unread(part.start, fault.kind.name(), words.as_str()))
}

/// That a part of a call can't be read, for a fault of its text.
fn misread(
    source: Source<'_>,
    part: &Part<'_>,
    pointer: &str,
    fault: &JsonFault,
) -> Result<CallError, AllocError> {
    let at = line_and_column(source.json, part.start);
    let is_first = fault.line <= 1;
    let place = Position {
        line: at.line.saturating_add(fault.line.saturating_sub(1)),
        column: fault.column.saturating_add(if is_first {
            at.column.saturating_sub(1)
        } else {
            0
        }),
    };
    let words = format!(in source.alloc;
        "{pointer}{}: {}",
        fault.pointer.as_str(),
        fault.message.as_str()
    );
    Ok(source.unread_at(place, fault.kind.name(), words))
}
