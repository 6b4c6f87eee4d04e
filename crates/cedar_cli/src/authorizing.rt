// The word `authorize`.

use crate::arguments::{Arguments, Options};
use crate::files::{INPUT, read_bytes, read_text, say_fault, unmarked};
use crate::json_files::{add_files, request_body, request_name, say_refused};
use crate::output::{Stop, print, say};
use crate::{DENIED, FINE, OPEN, REFUSED};
use cedar_authoring::{DEPTH, check_text, line_and_column};
use cedar_authorization_calls::{
    Asked, Names, Outcome, Response, answer_call, ask_named, link_listed,
};
use cedar_messages::telling::on_one_line;
use cedar_policy_parts::{Decision, PolicyID};
use cedar_refusals::naming::{listed, once};
use cedar_session::{BODY_LIMIT, ExtensionFunctionObject, Extensions, Refusal, Session, Verb};

/// Answers a call of `isAuthorized` that stands on standard input, and gives the status that says what is decided.
pub(crate) fn answer_json_call<F: ExtensionFunctionObject>(
    rt: &HostRuntime,
    extensions: &Extensions<'_, F>,
) -> Result<u8, Stop> {
    let bytes = read_bytes(rt, INPUT)?;
    let call = read_text(rt, INPUT, bytes.as_slice())?;
    let reply = answer_call(rt.alloc(), extensions, DEPTH, call)?;
    say(rt, reply.json.as_str())?;
    Ok(match reply.outcome {
        Outcome::Allowed => FINE,
        Outcome::Denied => DENIED,
        Outcome::Open => OPEN,
        Outcome::Failed => REFUSED,
    })
}

/// Answers a request by the policies and the entities of files, and gives the status that says what is decided.
pub(crate) fn authorize<F: ExtensionFunctionObject>(
    rt: &HostRuntime,
    extensions: &Extensions<'_, F>,
    arguments: &Arguments<'_>,
) -> Result<u8, Stop> {
    let Ok(mut session) = Session::new(rt.alloc(), extensions, DEPTH) else {
        return Err(Stop::Memory);
    };
    let mut names = Names::new(rt.alloc());
    let options = &arguments.options;
    for file in &options.policies {
        load_file(rt, extensions, &mut session, &mut names, *file)?;
    }
    if let Some(file) = options.links {
        link_file(rt, &mut session, &mut names, file)?;
    }
    add_files(rt, extensions, &mut session, options.entities.as_slice())?;
    let body = request_body(rt, options.asked)?;
    ask(rt, extensions, &mut session, &names, options, body.as_str())
}

fn ask<F: ExtensionFunctionObject>(
    rt: &HostRuntime,
    extensions: &Extensions<'_, F>,
    session: &mut Session<'_, '_, F>,
    names: &Names,
    options: &Options<'_>,
    body: &str,
) -> Result<u8, Stop> {
    if body.len() > BODY_LIMIT {
        return Err(Stop::Memory);
    }
    match ask_named(rt.alloc(), session, names, body)? {
        Asked::Decided(response) => tell_response(rt, options, &response),
        Asked::Open => tell_open(rt, session),
        Asked::Refused(refusal) => {
            let name = request_name(options.asked);
            say_refused(rt, extensions, session, name, Verb::Ask, body, refusal)
        }
    }
}

/// Loads the policies of a file, each under its annotation `@id`, or else under its id.
fn load_file<F: ExtensionFunctionObject>(
    rt: &HostRuntime,
    extensions: &Extensions<'_, F>,
    session: &mut Session<'_, '_, F>,
    names: &mut Names,
    file: &str,
) -> Result<(), Stop> {
    let bytes = read_bytes(rt, file)?;
    let text = read_text(rt, file, unmarked(bytes.as_slice()))?;
    if text.len() > BODY_LIMIT {
        return say_fault(
            rt,
            format!(in rt.alloc(); "{file}: the text is longer than 1,048,576 bytes"),
        );
    }
    match session.load(text) {
        Ok(ids) => name_policies(rt, session, names, file, text, ids.as_slice()),
        Err(Refusal::Memory) => Err(Stop::Memory),
        Err(_) => {
            let report = check_text(rt.alloc(), extensions, file, text.as_bytes())?;
            print(rt, report.text.as_str())?;
            Err(Stop::Fault)
        }
    }
}

fn name_policies<F: ExtensionFunctionObject>(
    rt: &HostRuntime,
    session: &Session<'_, '_, F>,
    names: &mut Names,
    file: &str,
    text: &str,
    ids: &[PolicyID],
) -> Result<(), Stop> {
    for id in ids {
        let name = name_of(&*session, id);
        match names.id_of(name) {
            Some(other) if other == id => {}
            Some(_) => return say_twice(rt, session, file, text, id, name),
            None => names.add(rt.alloc(), id, name)?,
        }
    }
    Ok(())
}

/// The annotation `@id` of a policy, and its id where it has none.
fn name_of<'s, F: ExtensionFunctionObject>(
    session: &'s Session<'_, '_, F>,
    id: &'s PolicyID,
) -> &'s str {
    let Some(policy) = session.policies().get_template(id) else {
        return id.as_str();
    };
    for (key, value) in policy.annotations().iter() {
        if key.as_str() == "id" {
            return value.val();
        }
    }
    id.as_str()
}

/// Says that a policy has the name of one before.
fn say_twice<F: ExtensionFunctionObject>(
    rt: &HostRuntime,
    session: &Session<'_, '_, F>,
    file: &str,
    text: &str,
    id: &PolicyID,
    name: &str,
) -> Result<(), Stop> {
    let start = match session.policies().get_template(id) {
        Some(policy) => match policy.loc() {
            Some(loc) => loc.start(),
            None => 0,
        },
        None => 0,
    };
    let at = line_and_column(text, start);
    let words = format!(in rt.alloc(); "a policy before has the id {name:?} too")?;
    say_fault(
        rt,
        format!(in rt.alloc(); "{file}:{}:{}: {}", at.line, at.column, words.as_str()),
    )
}

/// Links templates as a file of JSON says.
fn link_file<F: ExtensionFunctionObject>(
    rt: &HostRuntime,
    session: &mut Session<'_, '_, F>,
    names: &mut Names,
    file: &str,
) -> Result<(), Stop> {
    let bytes = read_bytes(rt, file)?;
    let json = read_text(rt, file, bytes.as_slice())?;
    let Some(failure) = link_listed(rt.alloc(), session, names, json)? else {
        return Ok(());
    };
    let message = failure.error.message.as_str();
    match failure.place {
        Some(at) => say_fault(
            rt,
            format!(in rt.alloc(); "{file}:{}:{}: {message}", at.line, at.column),
        ),
        None => say_fault(rt, format!(in rt.alloc(); "{file}: {message}")),
    }
}

/// Tells a decision, each policy that errs, and, where that is asked for, the policies that are its reason.
fn tell_response(
    rt: &HostRuntime,
    options: &Options<'_>,
    response: &Response<'_>,
) -> Result<u8, Stop> {
    let (word, status) = match response.decision {
        Decision::Allow => ("ALLOW", FINE),
        Decision::Deny => ("DENY", DENIED),
    };
    say(rt, word)?;
    for error in &response.errors {
        say_on_one_line(rt, error.message.as_str())?;
    }
    if options.verbose {
        tell_reason(rt, response)?;
    }
    Ok(status)
}

fn tell_reason(rt: &HostRuntime, response: &Response<'_>) -> Result<(), Stop> {
    if response.reason.is_empty() {
        return say(rt, "note: no policies applied to this request");
    }
    say(rt, "note: this decision was due to the following policies:")?;
    for name in &response.reason {
        let line = format!(in rt.alloc(); "  {name}")?;
        say_on_one_line(rt, line.as_str())?;
    }
    Ok(())
}

fn say_on_one_line(rt: &HostRuntime, text: &str) -> Result<(), Stop> {
    let line = on_one_line(rt.alloc(), text)?;
    say(rt, line.as_str())
}

/// Tells that the decision waits for what is unknown.
fn tell_open<F: ExtensionFunctionObject>(
    rt: &HostRuntime,
    session: &Session<'_, '_, F>,
) -> Result<u8, Stop> {
    let names = once(session.untold()?);
    let names = listed(rt.alloc(), names.as_slice())?;
    say(rt, "OPEN")?;
    let line = format!(in rt.alloc(); "the decision waits for the unknowns {}", names.as_str())?;
    say(rt, line.as_str())?;
    Ok(OPEN)
}
