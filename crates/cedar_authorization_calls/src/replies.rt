// What calls are answered, as JSON. What is written is only tested.
use crate::detailed::{DetailedError, Failure, SourceLocation};
use crate::responding::{PolicyError, Response};
use cedar_policy_parts::Decision;
use json::Writer;
use std::alloc::{AllocError, Global};

/// `{"type":"success","response":{"decision":..,"diagnostics":{"reason":[..],"errors":[..]}},"warnings":[]}`
pub(crate) fn response_text(alloc: Global, response: &Response<'_>) -> Result<String, AllocError> {
    let mut out = Writer::new(Vec::new(alloc));
    out.begin_object()?;
    put_string(&mut out, "type", "success")?;
    out.key("response")?;
    out.begin_object()?;
    put_string(&mut out, "decision", decision_name(response.decision))?;
    out.key("diagnostics")?;
    put_diagnostics(&mut out, response)?;
    out.end_object()?;
    end_reply(out)
}

/// `{"type":"failure","errors":[..],"warnings":[]}`
pub(crate) fn failure_text(alloc: Global, failure: &Failure) -> Result<String, AllocError> {
    let mut out = Writer::new(Vec::new(alloc));
    out.begin_object()?;
    put_string(&mut out, "type", "failure")?;
    out.key("errors")?;
    out.begin_array()?;
    begin_failure(alloc, &mut out, failure)?;
    for error in &failure.related {
        begin_error(&mut out, error)?;
        end_error(&mut out)?;
    }
    end_error(&mut out)?;
    out.end_array()?;
    end_reply(out)
}

fn end_reply(mut out: Writer) -> Result<String, AllocError> {
    out.key("warnings")?;
    out.begin_array()?;
    out.end_array()?;
    out.end_object()?;
    match String::from_utf8(out.into_inner()) {
        Ok(text) => Ok(text),
        Err(_) => Err(AllocError),
    }
}

fn put_diagnostics(out: &mut Writer, response: &Response<'_>) -> Result<(), AllocError> {
    out.begin_object()?;
    out.key("reason")?;
    out.begin_array()?;
    for name in &response.reason {
        out.string(*name)?;
    }
    out.end_array()?;
    out.key("errors")?;
    out.begin_array()?;
    for error in &response.errors {
        put_policy_error(out, error)?;
    }
    out.end_array()?;
    out.end_object()
}

fn put_policy_error(out: &mut Writer, error: &PolicyError<'_>) -> Result<(), AllocError> {
    out.begin_object()?;
    put_string(out, "policyId", error.policy)?;
    out.key("error")?;
    begin_told(out, error.message.as_str(), None, error.kind.name())?;
    out.key("sourceLocations")?;
    out.begin_array()?;
    out.end_array()?;
    out.key("related")?;
    out.begin_array()?;
    end_error(out)?;
    out.end_object()
}

/// The error of a failure, as far as the list of those that are related to it. The words of one by which the call isn't read stand behind
/// the place.
fn begin_failure(alloc: Global, out: &mut Writer, failure: &Failure) -> Result<(), AllocError> {
    let Some(place) = failure.place else {
        return begin_error(out, &failure.error);
    };
    let message = format!(in alloc;
        "failed to read the call, at {}:{}: {}",
        place.line,
        place.column,
        failure.error.message.as_str()
    )?;
    begin_told(out, message.as_str(), None, failure.error.code.as_str())?;
    out.key("sourceLocations")?;
    out.begin_array()?;
    out.end_array()?;
    out.key("related")?;
    out.begin_array()
}

/// An error, as far as the list of those that are related to it.
fn begin_error(out: &mut Writer, error: &DetailedError) -> Result<(), AllocError> {
    let help = match &error.help {
        Some(help) => Some(help.as_str()),
        None => None,
    };
    begin_told(out, error.message.as_str(), help, error.code.as_str())?;
    out.key("sourceLocations")?;
    out.begin_array()?;
    if let Some(location) = &error.location {
        put_location(out, location)?;
    }
    out.end_array()?;
    out.key("related")?;
    out.begin_array()
}

fn end_error(out: &mut Writer) -> Result<(), AllocError> {
    out.end_array()?;
    out.end_object()
}

/// An error, as far as its severity.
fn begin_told(
    out: &mut Writer,
    message: &str,
    help: Option<&str>,
    code: &str,
) -> Result<(), AllocError> {
    out.begin_object()?;
    put_string(out, "message", message)?;
    put_optional(out, "help", help)?;
    put_string(out, "code", code)?;
    put_optional(out, "url", None)?;
    put_string(out, "severity", "error")
}

fn put_location(out: &mut Writer, location: &SourceLocation) -> Result<(), AllocError> {
    let label = match &location.label {
        Some(label) => Some(label.as_str()),
        None => None,
    };
    out.begin_object()?;
    put_optional(out, "label", label)?;
    out.key("start")?;
    out.u64(location.start as u64)?;
    out.key("end")?;
    out.u64(location.end as u64)?;
    out.end_object()
}

fn put_string(out: &mut Writer, key: &str, text: &str) -> Result<(), AllocError> {
    out.key(key)?;
    out.string(text)
}

fn put_optional(out: &mut Writer, key: &str, text: Option<&str>) -> Result<(), AllocError> {
    out.key(key)?;
    match text {
        Some(text) => out.string(text),
        None => out.null(),
    }
}

fn decision_name(decision: Decision) -> &'static str {
    match decision {
        Decision::Allow => "allow",
        Decision::Deny => "deny",
    }
}
