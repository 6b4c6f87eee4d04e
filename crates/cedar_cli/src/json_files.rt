// Files of JSON: entities, and requests.

use crate::arguments::AskedBy;
use crate::files::{read_bytes, read_text, say_fault};
use crate::output::Stop;
use cedar_authoring::{DEPTH, Seen, why};
use cedar_json::{
    JsonFault, SplitError, Unread, entities_fault, entity_texts, question_fault, read_question,
    value_fault,
};
use cedar_session::{BODY_LIMIT, ExtensionFunctionObject, Extensions, Refusal, Session, Verb};
use json::Writer;
use std::alloc::AllocError;

/// Adds the entities of files of JSON, in their order. What is wrong with one of them is told.
pub(crate) fn add_files<F: ExtensionFunctionObject>(
    rt: &HostRuntime,
    extensions: &Extensions<'_, F>,
    session: &mut Session<'_, '_, F>,
    files: &[&str],
) -> Result<(), Stop> {
    for file in files {
        add_file(rt, extensions, session, *file)?;
    }
    Ok(())
}

fn add_file<F: ExtensionFunctionObject>(
    rt: &HostRuntime,
    extensions: &Extensions<'_, F>,
    session: &mut Session<'_, '_, F>,
    file: &str,
) -> Result<(), Stop> {
    let bytes = read_bytes(rt, file)?;
    let json = read_text(rt, file, bytes.as_slice())?;
    for body in &entity_bodies(rt, file, json)? {
        if body.len() > BODY_LIMIT {
            return Err(Stop::Memory);
        }
        if let Err(refusal) = session.add(body.as_str()) {
            return say_refused(
                rt,
                extensions,
                session,
                file,
                Verb::Add,
                body.as_str(),
                refusal,
            );
        }
    }
    Ok(())
}

/// The bodies of a file's entities, in order.
fn entity_bodies(rt: &HostRuntime, file: &str, json: &str) -> Result<Vec<String>, Stop> {
    match entity_texts(rt.alloc(), json, BODY_LIMIT) {
        Ok(bodies) => Ok(bodies),
        Err(SplitError::Memory) => Err(Stop::Memory),
        Err(SplitError::TooLong { index }) => say_fault(
            rt,
            format!(in rt.alloc(); "{file}: /{index}: the entity takes more than 1,048,576 bytes"),
        ),
        Err(SplitError::Unsaid) => say_json_fault(rt, file, entities_fault(rt.alloc(), json)?),
    }
}

/// The body of the request that the words give. What is wrong with it is told.
pub(crate) fn request_body(rt: &HostRuntime, asked: AskedBy<'_>) -> Result<String, Stop> {
    match asked.request {
        Some(file) => read_request(rt, file),
        None => request_of_parts(rt, asked),
    }
}

/// The name of a request whose parts stand in the words.
const WORDS: &str = "the request";

/// By what a request is called.
pub(crate) fn request_name<'a>(asked: AskedBy<'a>) -> &'a str {
    asked.request.unwrap_or(WORDS)
}

/// The body of a file's request.
pub(crate) fn read_request(rt: &HostRuntime, file: &str) -> Result<String, Stop> {
    let bytes = read_bytes(rt, file)?;
    let json = read_text(rt, file, bytes.as_slice())?;
    match read_question(rt.alloc(), json) {
        Ok(body) => within_limit(rt, file, body),
        Err(Unread::Memory) => Err(Stop::Memory),
        Err(Unread::Unsaid) => say_json_fault(rt, file, question_fault(rt.alloc(), json)?),
    }
}

fn request_of_parts(rt: &HostRuntime, asked: AskedBy<'_>) -> Result<String, Stop> {
    let bytes = match asked.context {
        Some(file) => read_bytes(rt, file)?,
        None => Vec::new(rt.alloc()),
    };
    let file = asked.context.unwrap_or(WORDS);
    let text = read_text(rt, file, bytes.as_slice())?;
    let context = if asked.context.is_some() { text } else { "{}" };
    let json = question_json(rt, asked, context)?;
    match read_question(rt.alloc(), json.as_str()) {
        Ok(body) => within_limit(rt, file, body),
        Err(Unread::Memory) => Err(Stop::Memory),
        Err(Unread::Unsaid) => {
            if let Some(fault) = value_fault(rt.alloc(), context)? {
                return say_json_fault(rt, file, Some(fault));
            }
            say_part_fault(rt, file, question_fault(rt.alloc(), json.as_str())?)
        }
    }
}

/// Says which part of a request is none: one that stands in the words, or the context.
fn say_part_fault<T>(rt: &HostRuntime, file: &str, fault: Option<JsonFault>) -> Result<T, Stop> {
    let Some(fault) = fault else {
        return Err(Stop::Memory);
    };
    let message = fault.message.as_str();
    match fault.pointer.as_str().strip_prefix('/') {
        Some("context") | None => say_fault(rt, format!(in rt.alloc(); "{file}: {message}")),
        Some(part) => say_fault(rt, format!(in rt.alloc(); "--{part}: {message}")),
    }
}

/// A request of JSON, by its parts as Cedar writes them and the JSON of its context.
fn question_json(
    rt: &HostRuntime,
    asked: AskedBy<'_>,
    context: &str,
) -> Result<String, AllocError> {
    let principal = quoted(rt, asked.principal.unwrap_or(""))?;
    let action = quoted(rt, asked.action.unwrap_or(""))?;
    let resource = quoted(rt, asked.resource.unwrap_or(""))?;
    format!(in rt.alloc();
        "{{\"principal\":{},\"action\":{},\"resource\":{},\"context\":{context}}}",
        principal.as_str(),
        action.as_str(),
        resource.as_str()
    )
}

/// A text as a string of JSON.
fn quoted(rt: &HostRuntime, text: &str) -> Result<String, AllocError> {
    let mut out = Writer::new(Vec::new(rt.alloc()));
    out.string(text)?;
    match String::from_utf8(out.into_inner()) {
        Ok(string) => Ok(string),
        Err(_) => Err(AllocError),
    }
}

fn within_limit(rt: &HostRuntime, file: &str, body: String) -> Result<String, Stop> {
    if body.len() > BODY_LIMIT {
        return say_fault(
            rt,
            format!(in rt.alloc(); "{file}: the request takes more than 1,048,576 bytes"),
        );
    }
    Ok(body)
}

/// Says why a text of JSON isn't read, and where.
fn say_json_fault<T>(rt: &HostRuntime, file: &str, fault: Option<JsonFault>) -> Result<T, Stop> {
    let Some(fault) = fault else {
        return Err(Stop::Memory);
    };
    let pointer = fault.pointer.as_str();
    let behind = if pointer.is_empty() { "" } else { ": " };
    say_fault(
        rt,
        format!(in rt.alloc();
            "{file}:{}:{}: {pointer}{behind}{}",
            fault.line,
            fault.column,
            fault.message.as_str()
        ),
    )
}

/// Says why a session refuses a body, which was made of this file.
pub(crate) fn say_refused<T, F: ExtensionFunctionObject>(
    rt: &HostRuntime,
    extensions: &Extensions<'_, F>,
    session: &Session<'_, '_, F>,
    file: &str,
    verb: Verb,
    body: &str,
    refusal: Refusal,
) -> Result<T, Stop> {
    if let Refusal::Memory = refusal {
        return Err(Stop::Memory);
    }
    let untold = session.untold()?;
    let seen = Seen {
        extensions,
        depth: DEPTH,
        entities: session.entities(),
        untold: untold.as_slice(),
        told: session.told(),
    };
    let faults = why(rt.alloc(), &seen, verb, body.as_bytes())?;
    let kind = refusal.name();
    match faults.first() {
        Some(fault) => say_fault(
            rt,
            format!(in rt.alloc(); "{file}: refused {kind}: {}", fault.message()),
        ),
        None => say_fault(
            rt,
            format!(in rt.alloc(); "{file}: refused {kind}: {refusal}"),
        ),
    }
}
