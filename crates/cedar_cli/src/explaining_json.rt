// The word `explain`, for programs.

use crate::arguments::{Arguments, place_named};
use crate::files::{Unread, bytes_of, unmarked, whole_script};
use crate::giving::{Start, give, list_policies};
use crate::machine::{Told, say_explained};
use crate::output::Stop;
use crate::{DENIED, DEVICE_OF_EXPLAIN, FINE, NO_MEMORY, OPEN, REFUSED};
use cedar_authoring::{DEPTH, Script, Step, explained_at};
use cedar_policy_parts::Decision;
use cedar_refusals::naming::once;
use cedar_session::{
    Answer, BODY_LIMIT, Command, ExtensionFunctionObject, Extensions, Reply, Session, Verb,
};
use std::alloc::AllocError;

/// Explains a question, and writes its answer, the names that it waits for, and the policies that were loaded as an object of JSON. Gives
/// the status that says what is decided.
pub(crate) fn explain_json<F: ExtensionFunctionObject>(
    rt: &HostRuntime,
    extensions: &Extensions<'_, F>,
    arguments: &Arguments<'_>,
) -> Result<u8, Stop> {
    let Ok(mut session) = Session::new(rt.alloc(), extensions, DEPTH) else {
        return Err(Stop::Memory);
    };
    let mut told = Told::new(rt);
    let asked = match arguments.operands.as_slice() {
        [policies, entities, question] => {
            let files = [
                (*policies, Verb::Load),
                (*entities, Verb::Put),
                (*question, Verb::Ask),
            ];
            ask_files(rt, extensions, &mut session, &mut told, &files)?
        }
        operands => ask_place(rt, extensions, &mut session, &mut told, operands)?,
    };
    tell(rt, &session, &told, asked)
}

/// How a question was answered, or the status without an answer.
type Asked = Result<Answer, u8>;

fn tell<F: ExtensionFunctionObject>(
    rt: &HostRuntime,
    session: &Session<'_, '_, F>,
    told: &Told,
    asked: Asked,
) -> Result<u8, Stop> {
    let answer = match asked {
        Ok(answer) => answer,
        Err(status) => {
            say_explained(rt, status, None, &[], told)?;
            return Ok(status);
        }
    };
    let status = match answer.decision {
        Some(Decision::Allow) => FINE,
        Some(Decision::Deny) => DENIED,
        None => OPEN,
    };
    let waits = once(session.untold()?);
    say_explained(rt, status, Some(&answer), waits.as_slice(), told)?;
    Ok(status)
}

/// Adds why a file isn't read, and gives the status that says so.
fn refuse(rt: &HostRuntime, told: &mut Told, unread: Unread) -> Result<Asked, Stop> {
    Ok(Err(match told.add_unread(rt, unread)? {
        Stop::Fault => REFUSED,
        Stop::Device => DEVICE_OF_EXPLAIN,
        Stop::Memory => NO_MEMORY,
    }))
}

/// Gives a session the commands of files, of which the last one asks.
fn ask_files<F: ExtensionFunctionObject>(
    rt: &HostRuntime,
    extensions: &Extensions<'_, F>,
    session: &mut Session<'_, '_, F>,
    told: &mut Told,
    files: &[(&str, Verb)],
) -> Result<Asked, Stop> {
    for (file, verb) in files {
        let bytes = match bytes_of(rt, *file) {
            Ok(bytes) => bytes,
            Err(unread) => return refuse(rt, told, unread),
        };
        let bytes = unmarked(bytes.as_slice());
        match give(rt, extensions, session, told, *file, *verb, bytes)? {
            Some(Reply::Ids(ids)) => {
                list_policies(
                    rt,
                    extensions,
                    told,
                    *file,
                    Start::FILE,
                    bytes,
                    ids.as_slice(),
                )?;
            }
            Some(Reply::Answer(answer)) => return Ok(Ok(answer)),
            Some(Reply::Done) => {}
            None => return Ok(Err(REFUSED)),
        }
    }
    Ok(Err(REFUSED))
}

/// Asks the question that begins at a line of a script, behind the commands before it.
fn ask_place<F: ExtensionFunctionObject>(
    rt: &HostRuntime,
    extensions: &Extensions<'_, F>,
    session: &mut Session<'_, '_, F>,
    told: &mut Told,
    operands: &[&str],
) -> Result<Asked, Stop> {
    let place = match operands.first() {
        Some(operand) => place_named(*operand),
        None => None,
    };
    // (the words are refused where it is none)
    let Some((name, line)) = place else {
        return Err(Stop::Fault);
    };
    let script = match whole_script(rt, name) {
        Ok(script) => script,
        Err(unread) => return refuse(rt, told, unread),
    };
    let report = explained_at(rt.alloc(), extensions, name, &script, line)?;
    if report.status == REFUSED {
        let words = without_place(rt, name, line, report.text.as_str())?;
        told.add_words(rt, name, Some(line), "Unasked", words)?;
        return Ok(Err(REFUSED));
    }
    go_through(rt, extensions, session, told, name, &script, line)
}

/// What is told of a line of a script, without the place if it stands in front.
fn without_place(
    rt: &HostRuntime,
    name: &str,
    line: usize,
    text: &str,
) -> Result<String, AllocError> {
    let place = format!(in rt.alloc(); "{name}:{line}: ")?;
    let words = text.strip_prefix(place.as_str()).unwrap_or(text);
    String::from_str(rt.alloc(), words.trim())
}

/// Gives a session the commands up to a line, as far as they belong to its question, and asks that.
fn go_through<F: ExtensionFunctionObject>(
    rt: &HostRuntime,
    extensions: &Extensions<'_, F>,
    session: &mut Session<'_, '_, F>,
    told: &mut Told,
    name: &str,
    script: &Script,
    line: usize,
) -> Result<Asked, Stop> {
    for step in &script.set_up {
        if let Some(answer) = take_step(rt, extensions, session, told, name, step, line)? {
            return Ok(Ok(answer));
        }
    }
    for test in &script.tests {
        if !test.steps.iter().any(|step| step.line == line) {
            continue;
        }
        for step in &test.steps {
            if let Some(answer) = take_step(rt, extensions, session, told, name, step, line)? {
                return Ok(Ok(answer));
            }
        }
    }
    Ok(Err(REFUSED))
}

/// Where the body of a command stands in its script: behind the verb and a space.
fn start_of(step: &Step) -> Start {
    Start {
        lines: step.line.saturating_sub(1),
        columns: step.verb.name().len().saturating_add(1),
    }
}

/// Gives a session a command, and gives the answer of the one that asks at this line.
fn take_step<F: ExtensionFunctionObject>(
    rt: &HostRuntime,
    extensions: &Extensions<'_, F>,
    session: &mut Session<'_, '_, F>,
    told: &mut Told,
    name: &str,
    step: &Step,
    line: usize,
) -> Result<Option<Answer>, Stop> {
    let body = step.body.as_str();
    if body.len() > BODY_LIMIT {
        return Ok(None);
    }
    match session.apply(&Command::of(step.verb, body)) {
        Ok(Reply::Ids(ids)) => {
            let (file, start) = match &step.file {
                Some(file) => (file.as_str(), Start::FILE),
                None => (name, start_of(step)),
            };
            list_policies(
                rt,
                extensions,
                told,
                file,
                start,
                body.as_bytes(),
                ids.as_slice(),
            )?;
            Ok(None)
        }
        Ok(Reply::Answer(answer)) if step.line == line => Ok(Some(answer)),
        _ => Ok(None),
    }
}
