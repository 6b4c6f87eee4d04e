// Calls of `isAuthorized`.
use crate::data::{QuestionParts, check_json, entity_bodies, question_body};
use crate::errors::{CallError, Source};
use crate::fields::Fields;
use crate::names::Names;
use crate::parts::Part;
use crate::policies::{Loading, load_policies};
use crate::replies::{failure_text, response_text};
use crate::responding::{Asked, ask_named};
use cedar_policy_parts::Decision;
use cedar_refusals::naming::{listed, once};
use cedar_refusals::{Seen, why};
use cedar_replies::Refusal;
use cedar_session::{BODY_LIMIT, ExtensionFunctionObject, Extensions, Session, Verb};
use std::alloc::{AllocError, Global};

/// How a call ended.
#[derive(Clone, Copy, Debug, PartialEq, Eq)]
pub enum Outcome {
    Allowed,
    Denied,
    /// The decision waits for what is unknown: told is a failure.
    Open,
    Failed,
}

/// What a call is answered.
#[derive(Debug, Drop)]
pub struct CallReply {
    pub outcome: Outcome,
    /// The JSON of it, on one line.
    pub json: String,
}

/// The parts of a call.
struct Call<'j> {
    question: QuestionParts<'j>,
    entities: Part<'j>,
    policies: Part<'j>,
}

impl Drop for Call<'_> {
    fn drop(self) {
        let Call {
            question: _,
            entities: _,
            policies: _,
        } = self;
    }
}

/// Answers a call of `isAuthorized`, as Cedar's WebAssembly takes it, in a session over this table, with this limit of depth.
///
/// It has `principal`, `action`, `resource`, `context`, `entities` and `policies`, and no other key but `schema`, which may be null, and
/// `validateRequest`. Policies are told by the names that the call gives, or by `policy0`, `policy1`, .. by their places. What can't be
/// read, what is refused, and what is open is told as a failure. Refused for memory alone.
pub fn answer_call<F: ExtensionFunctionObject>(
    alloc: Global,
    extensions: &Extensions<'_, F>,
    depth: u32,
    json: &str,
) -> Result<CallReply, AllocError> {
    let source = Source { alloc, json };
    match answered(source, extensions, depth) {
        Ok(reply) => Ok(reply),
        Err(CallError::Memory) => Err(AllocError),
        Err(CallError::Failed(failure)) => Ok(CallReply {
            outcome: if failure.error.code.as_str() == "Open" {
                Outcome::Open
            } else {
                Outcome::Failed
            },
            json: failure_text(alloc, &failure)?,
        }),
    }
}

fn answered<F: ExtensionFunctionObject>(
    source: Source<'_>,
    extensions: &Extensions<'_, F>,
    depth: u32,
) -> Result<CallReply, CallError> {
    check_json(source)?;
    let call = read_call(source)?;
    let mut names = Names::new(source.alloc);
    let Ok(mut session) = Session::new(source.alloc, extensions, depth) else {
        return Err(CallError::Memory);
    };
    load(
        source,
        extensions,
        depth,
        &mut session,
        &mut names,
        &call.policies,
    )?;
    for body in &entity_bodies(source, &call.entities)? {
        add_entities(source, extensions, depth, &mut session, body.as_str())?;
    }
    let body = question_body(source, &call.question)?;
    ask(
        source,
        extensions,
        depth,
        &mut session,
        &names,
        body.as_str(),
    )
}

fn load<'j, 'e, 'f, F: ExtensionFunctionObject>(
    source: Source<'j>,
    extensions: &'e Extensions<'f, F>,
    depth: u32,
    session: &mut Session<'e, 'f, F>,
    names: &mut Names,
    policies: &Part<'j>,
) -> Result<(), CallError> {
    let mut loading = Loading {
        extensions,
        depth,
        session,
        names,
    };
    load_policies(source, &mut loading, policies)
}

fn read_call<'j>(source: Source<'j>) -> Result<Call<'j>, CallError> {
    let keys = [
        "principal",
        "action",
        "resource",
        "context",
        "entities",
        "policies",
        "schema",
        "validateRequest",
    ];
    let mut fields = Fields::of(source, &Part::whole(source.json), "the call", &keys)?;
    check_validation(source, &mut fields)?;
    Ok(Call {
        question: QuestionParts {
            principal: fields.require(source, "principal")?,
            action: fields.require(source, "action")?,
            resource: fields.require(source, "resource")?,
            context: fields.require(source, "context")?,
        },
        entities: fields.require(source, "entities")?,
        policies: fields.require(source, "policies")?,
    })
}

/// Refuses a schema, since nothing is validated.
fn check_validation<'j>(source: Source<'j>, fields: &mut Fields<'j>) -> Result<(), CallError> {
    if let Some(schema) = fields.take("schema") {
        if schema.text != "null" {
            let words =
                "schemas aren't read, and nothing is validated: leave the schema out, or give null";
            return Err(source.unread(schema.start, "Schema", words));
        }
    }
    match fields.take("validateRequest") {
        Some(validate) if validate.text != "true" && validate.text != "false" => {
            Err(source.unread(validate.start, "Kind", "validateRequest is no Boolean"))
        }
        _ => Ok(()),
    }
}

fn add_entities<F: ExtensionFunctionObject>(
    source: Source<'_>,
    extensions: &Extensions<'_, F>,
    depth: u32,
    session: &mut Session<'_, '_, F>,
    body: &str,
) -> Result<(), CallError> {
    if body.len() > BODY_LIMIT {
        return Err(CallError::Memory);
    }
    match session.add(body) {
        Ok(()) => Ok(()),
        Err(refusal) => Err(refused(source, extensions, depth, session, Verb::Add, body, refusal)),
    }
}

fn ask<F: ExtensionFunctionObject>(
    source: Source<'_>,
    extensions: &Extensions<'_, F>,
    depth: u32,
    session: &mut Session<'_, '_, F>,
    names: &Names,
    body: &str,
) -> Result<CallReply, CallError> {
    if body.len() > BODY_LIMIT {
        return Err(CallError::Memory);
    }
    match ask_named(source.alloc, session, names, body)? {
        Asked::Decided(response) => Ok(CallReply {
            outcome: match response.decision {
                Decision::Allow => Outcome::Allowed,
                Decision::Deny => Outcome::Denied,
            },
            json: response_text(source.alloc, &response)?,
        }),
        Asked::Open => Err(open(source, session)),
        Asked::Refused(refusal) => Err(refused(
            source,
            extensions,
            depth,
            session,
            Verb::Ask,
            body,
            refusal,
        )),
    }
}

/// That the decision waits for what is unknown.
fn open<F: ExtensionFunctionObject>(source: Source<'_>, session: &Session<'_, '_, F>) -> CallError {
    match open_words(source, session) {
        Ok(words) => source.failed("Open", Ok(words)),
        Err(_) => CallError::Memory,
    }
}

fn open_words<F: ExtensionFunctionObject>(
    source: Source<'_>,
    session: &Session<'_, '_, F>,
) -> Result<String, AllocError> {
    let names = once(session.untold()?);
    let names = listed(source.alloc, names.as_slice())?;
    format!(in source.alloc;
        "the decision is open: it waits for the unknowns {}",
        names.as_str()
    )
}

/// That the session refuses a body, in words that say of which part if that is known.
fn refused<F: ExtensionFunctionObject>(
    source: Source<'_>,
    extensions: &Extensions<'_, F>,
    depth: u32,
    session: &Session<'_, '_, F>,
    verb: Verb,
    body: &str,
    refusal: Refusal,
) -> CallError {
    if let Refusal::Memory = refusal {
        return CallError::Memory;
    }
    let what = match verb {
        Verb::Add => "failed to take the entities",
        _ => "failed to take the request",
    };
    let seen = Seen {
        extensions,
        depth,
        entities: session.entities(),
        untold: &[],
        told: session.told(),
    };
    let Ok(faults) = why(source.alloc, &seen, verb, body.as_bytes()) else {
        return CallError::Memory;
    };
    let message = match faults.first() {
        Some(fault) => format!(in source.alloc; "{what}: {}", fault.message()),
        None => format!(in source.alloc; "{what}: {refusal}"),
    };
    source.failed(refusal.name(), message)
}
