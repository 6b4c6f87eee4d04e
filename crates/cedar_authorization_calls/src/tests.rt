// Calls, each with its answer by hand. crates/cedar_cli/cases has many more.
use crate::{Asked, Names, Outcome, answer_call, ask_named, link_listed};
use cedar_policy_parts::Decision;
use cedar_session::{Extensions, Session};
use std::alloc::{AllocError, Global};

/// A call, how it ends, and what it is answered.
type Case = (&'static str, Outcome, &'static str);

/// The first call that is answered otherwise.
fn first_other(alloc: Global, cases: &[Case]) -> Result<Option<usize>, AllocError> {
    let extensions = Extensions::all_available(alloc)?;
    for (index, (call, outcome, json)) in cases.iter().enumerate() {
        let reply = answer_call(alloc, &extensions, 256, *call)?;
        if reply.outcome != *outcome || reply.json.as_str() != *json {
            return Ok(Some(index));
        }
    }
    Ok(None)
}

#[test]
fn calls_are_answered(rt: HostRuntime) {
    let cases = [
        (
            r#"{"principal":"U::\"a\"","action":"A::\"x\"","resource":"P::\"1\"","context":{},"entities":[],"policies":{"staticPolicies":{"all":"permit(principal, action, resource);"}}}"#,
            Outcome::Allowed,
            r#"{"type":"success","response":{"decision":"allow","diagnostics":{"reason":["all"],"errors":[]}},"warnings":[]}"#,
        ),
        (
            r#"{"principal":"U::\"a\"","action":"A::\"x\"","resource":"P::\"1\"","context":{},"entities":[],"policies":{}}"#,
            Outcome::Denied,
            r#"{"type":"success","response":{"decision":"deny","diagnostics":{"reason":[],"errors":[]}},"warnings":[]}"#,
        ),
        (
            "[]",
            Outcome::Failed,
            r#"{"type":"failure","errors":[{"message":"failed to read the call, at 1:1: the call is no object","help":null,"code":"Kind","url":null,"severity":"error","sourceLocations":[],"related":[]}],"warnings":[]}"#,
        ),
    ];
    let other = first_other(rt.alloc(), &cases);
    assert!(rt; matches!(other, Ok(None)), "{other:?}");
}

/// Whether a template is linked, and the link is told by its name.
fn tells_link(alloc: Global) -> Result<bool, AllocError> {
    let extensions = Extensions::all_available(alloc)?;
    let Ok(mut session) = Session::new(alloc, &extensions, 256) else {
        return Err(AllocError);
    };
    let mut names = Names::new(alloc);
    let Ok(ids) = session.load("permit(principal == ?principal, action, resource);") else {
        return Err(AllocError);
    };
    for id in &ids {
        names.add(alloc, id, "t")?;
    }
    let links = r#"[{"template_id":"t","link_id":"l","args":{"?principal":"U::\"a\""}}]"#;
    let failure = link_listed(alloc, &mut session, &mut names, links)?;
    let body = r#"{principal: U::"a", action: A::"x", resource: P::"1", context: {}}"#;
    let asked = ask_named(alloc, &mut session, &names, body)?;
    Ok(failure.is_none() && is_allowed_by(&asked, "l"))
}

/// Whether a question is allowed, and this is the only reason.
fn is_allowed_by(asked: &Asked<'_>, name: &str) -> bool {
    match asked {
        Asked::Decided(response) => {
            response.decision == Decision::Allow
                && response.reason.len() == 1
                && response.reason.first() == Some(&name)
        }
        _ => false,
    }
}

#[test]
fn links_are_told_by_their_names(rt: HostRuntime) {
    let told = tells_link(rt.alloc());
    assert!(rt; matches!(told, Ok(true)), "{told:?}");
}
