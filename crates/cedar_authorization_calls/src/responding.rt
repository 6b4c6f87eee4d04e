// A question asked, and its answer told under names.
ghost use Rattle.std.specs.Prelude.{◌≡◌, ◌++◌, ◌≤◌, Some, length, map, string_bytes, IfOk, OnOk};
ghost use Rattle.std.specs.List.{flat_map};
ghost use Rattle.std.specs.FinMap as finite;
ghost use Rattle.cedar_frames.specs.Heads.{body_limit};
ghost use Rattle.cedar_replies.specs.Replies.{answer_of};
ghost use Rattle.cedar_session.specs.Sessions.{setting_of, world_of};
ghost use Rattle.cedar_authorization_calls.specs.Naming.{named, names_at};
ghost use Rattle.cedar_authorization_calls.specs.Responding.{AsksAs, IsResponse};

use crate::names::Names;
use crate::reasons::Reasons;
use cedar_policy_parts::{Decision, PolicyID};
use cedar_replies::{Answer, Erring, ErrorKind, Refusal};
use cedar_session::{ExtensionFunctionObject, Session};
use std::alloc::{AllocError, Global};

/// A policy that errs.
#[derive(Debug, Drop)]
pub struct PolicyError<'n> {
    /// Its name.
    pub policy: &'n str,
    pub kind: ErrorKind,
    /// Why it errs, in words.
    pub message: String,
}

/// What a question is answered, policies by their names.
#[derive(Debug, Drop)]
pub struct Response<'n> {
    pub decision: Decision,
    /// The policies that are its reason, in the order of their ids.
    pub reason: Vec<&'n str>,
    /// The policies that err, in the order of their ids.
    pub errors: Vec<PolicyError<'n>>,
}

/// How a question is answered.
#[derive(Debug, Drop)]
pub enum Asked<'n> {
    /// It is decided.
    Decided(Response<'n>),
    /// Its decision waits for what is unknown.
    Open,
    /// The session refuses it.
    Refused(Refusal),
}

/// Asks a session the question of a body, as `ask` takes it, and tells its answer under these names. Policies and entities stay. Refused
/// for memory alone.
pub fn ask_named<'n, F: ExtensionFunctionObject>(
    alloc: Global,
    session: &mut Session<'_, '_, F>,
    names: &'n Names,
    body: &str,
) -> Result<Asked<'n>, AllocError>
    requires { length body.now ≤ body_limit }
    ensures asked { IfOk result (λ asked. AsksAs (setting_of session.old) (world_of session.old) names.now body.now asked (world_of session.new)) }
    ensures setting { setting_of session.new ≡ setting_of session.old }
{
    let answer = match session.ask(body) {
        Ok(answer) => answer,
        Err(Refusal::Memory) => return Err(AllocError),
        Err(refusal) => return Ok(Asked::Refused(refusal)),
    };
    let Some(decision) = answer.decision else {
        return Ok(Asked::Open);
    };
    let reasons = Reasons::of(alloc, session)?;
    let response = named_response(alloc, names, &reasons, decision, &answer)?;
    Ok(Asked::Decided(response))
}

/// An answer by which this is decided, under names.
fn named_response<'n>(
    alloc: Global,
    names: &'n Names,
    reasons: &Reasons<'_>,
    decision: Decision,
    answer: &Answer,
) -> Result<Response<'n>, AllocError>
    requires { answer.now.decision ≡ Some decision }
    ensures { IfOk result (IsResponse names.now (answer_of answer.now)) }
{
    let reason = names.told(alloc, answer.must.as_slice())?;
    let errors = named_errors(alloc, names, reasons, &answer.erring)?;
    Ok(Response {
        decision,
        reason,
        errors,
    })
}

/// The policies that err, each with why.
fn named_errors<'n>(
    alloc: Global,
    names: &'n Names,
    reasons: &Reasons<'_>,
    erring: &Erring,
) -> Result<Vec<PolicyError<'n>>, AllocError>
    ensures { IfOk result (λ errors. map (λ e. e.policy.now) errors.items ≡ named names.now (finite.keys erring.now)) }
{
    named_entries(alloc, names, reasons, erring.as_slice())
}

fn named_entries<'n>(
    alloc: Global,
    names: &'n Names,
    reasons: &Reasons<'_>,
    entries: &[(PolicyID, ErrorKind)],
) -> Result<Vec<PolicyError<'n>>, AllocError>
    ensures { IfOk result (λ errors. map (λ e. e.policy.now) errors.items ≡ flat_map (λ e. names_at names.now e.0) entries.now) }
{
    let mut errors = Vec::new(alloc);
    for entry in entries {
        push_errors(alloc, &mut errors, names.at(&entry.0), reasons, entry)?;
    }
    Ok(errors)
}

/// Appends that a policy of these names errs, once for each of them.
fn push_errors<'n>(
    alloc: Global,
    errors: &mut Vec<PolicyError<'n>>,
    names: &'n [String],
    reasons: &Reasons<'_>,
    entry: &(PolicyID, ErrorKind),
) -> Result<(), AllocError>
    ensures { OnOk result (map (λ e. e.policy.now) errors.new.items ≡ map (λ e. e.policy.now) errors.old.items ++ map string_bytes names.now) }
{
    for name in names {
        let error = policy_error(alloc, name.as_str(), reasons, entry)?;
        errors.push(error)?;
    }
    Ok(())
}

/// That the policy of this name errs, and why.
fn policy_error<'n>(
    alloc: Global,
    policy: &'n str,
    reasons: &Reasons<'_>,
    entry: &(PolicyID, ErrorKind),
) -> Result<PolicyError<'n>, AllocError>
    ensures { IfOk result (λ error. error.policy.now ≡ policy.entry.now) }
{
    let kind = entry.1;
    let message = reasons.words(alloc, policy, &entry.0, kind)?;
    Ok(PolicyError {
        policy,
        kind,
        message,
    })
}
