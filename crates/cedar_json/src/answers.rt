// Answers as JSON.
ghost use Rattle.std.specs.Prelude.{◌≡◌, Some, IfOk, string_bytes};
ghost use Rattle.std.specs.Option.{option_map};
ghost use Rattle.json.specs.Json.{array, document};
ghost use Rattle.json.specs.Value.{value_view};
ghost use Rattle.cedar_policy_parts.specs.Decisions.{decision_of};
ghost use Rattle.cedar_replies.specs.Kinds.{error_name};
ghost use Rattle.cedar_replies.specs.Replies.{answer_of};
ghost use Rattle.cedar_json.specs.Answers.{decision_json, pair, strings, error_told, errors_told, diagnostics_json, answer_json};

use cedar_policy_parts::{Decision, PolicyID};
use cedar_replies::{Answer, ErrorKind};
use json::{Value, to_vec};
use std::alloc::{AllocError, Global};

/// A decision; null where the question is open.
fn decision_value<'a>(decision: Option<Decision>) -> Value<'a>
    ensures { value_view result ≡ decision_json (option_map decision_of decision) }
{
    match decision {
        Some(Decision::Allow) => Value::String("allow"),
        Some(Decision::Deny) => Value::String("deny"),
        None => Value::Null,
    }
}

/// An object of two members.
fn pair_value<'a>(
    alloc: Global,
    first: (&'a str, Value<'a>),
    second: (&'a str, Value<'a>),
) -> Result<Value<'a>, AllocError>
    ensures { IfOk result (λ value. value_view value
        ≡ pair first.entry.0.now (value_view first.entry.1) second.entry.0.now (value_view second.entry.1)) }
{
    let mut members = Vec::new(alloc);
    members.push(first)?;
    members.push(second)?;
    Ok(Value::Object(members))
}

fn ids_value<'a>(alloc: Global, ids: &'a [PolicyID]) -> Result<Value<'a>, AllocError>
    ensures { IfOk result (λ value. value_view value ≡ array (strings ids.now)) }
{
    let mut items = Vec::new(alloc);
    for id in ids {
        items.push(Value::String(id.as_str()))?;
    }
    Ok(Value::Array(items))
}

/// A policy that errs, and the kind of its error.
fn error_value<'a>(alloc: Global, entry: &'a (PolicyID, ErrorKind)) -> Result<Value<'a>, AllocError>
    ensures { IfOk result (λ value. value_view value ≡ error_told entry.now.0 (error_name entry.now.1)) }
{
    let name = entry.1.name();
    let error = pair_value(
        alloc,
        ("message", Value::String(name)),
        ("code", Value::String(name)),
    )?;
    pair_value(
        alloc,
        ("policyId", Value::String(entry.0.as_str())),
        ("error", error),
    )
}

fn errors_value<'a>(
    alloc: Global,
    entries: &'a [(PolicyID, ErrorKind)],
) -> Result<Value<'a>, AllocError>
    ensures { IfOk result (λ value. value_view value ≡ array (errors_told entries.now)) }
{
    let mut items = Vec::new(alloc);
    for entry in entries {
        let item = error_value(alloc, entry)?;
        items.push(item)?;
    }
    Ok(Value::Array(items))
}

fn diagnostics_value<'a>(alloc: Global, answer: &'a Answer) -> Result<Value<'a>, AllocError>
    ensures { IfOk result (λ value. value_view value ≡ diagnostics_json (answer_of answer.now)) }
{
    let reason = ids_value(alloc, answer.must.as_slice())?;
    let errors = errors_value(alloc, answer.erring.as_slice())?;
    pair_value(alloc, ("reason", reason), ("errors", errors))
}

fn answer_value<'a>(alloc: Global, answer: &'a Answer) -> Result<Value<'a>, AllocError>
    ensures { IfOk result (λ value. value_view value ≡ answer_json (answer_of answer.now)) }
{
    let diagnostics = diagnostics_value(alloc, answer)?;
    pair_value(
        alloc,
        ("decision", decision_value(answer.decision)),
        ("diagnostics", diagnostics),
    )
}

/// The JSON of an answer, as Cedar's `isAuthorized` responds: the decision, and the policies that are
/// its reason and those that err, each in the order of their ids' bytes. Where the question is open the
/// decision is null. It errs for want of memory alone.
pub fn answer_text(alloc: Global, answer: &Answer) -> Result<String, AllocError>
    ensures { IfOk result (λ text. document (string_bytes text) ≡ Some (answer_json (answer_of answer.now))) }
{
    let value = answer_value(alloc, answer)?;
    let bytes = to_vec(alloc, &value)?;
    match String::from_utf8(bytes) {
        Ok(text) => Ok(text),
        Err(_) => unreachable!(),
    }
}
