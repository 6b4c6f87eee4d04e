// Sessions that are sent commands by names, with the line that tells each answer.

ghost use Rattle.std.specs.Prelude.{◌≤◌, length};
ghost use Rattle.cedar_frames.specs.Heads.{body_limit};

use crate::{NamedRefusal, NamedSession, Naming};
use cedar_policy_parts::{Decision, PolicyID};
use cedar_session::{Answer, BODY_LIMIT, Extensions, Refusal};
use std::alloc::{AllocError, Global};

/// A command by names.
#[derive(Clone, Copy)]
enum Sent<'t> {
    Load(Naming, &'t str),
    LoadAs(&'t str, &'t str),
    Link(&'t str, &'t str),
    Unlink(&'t str),
    RemoveStatic(&'t str),
    RemoveTemplate(&'t str),
    Add(&'t str),
    Put(&'t str),
    Remove(&'t str),
    Ask(&'t str),
    Tell(&'t str),
}

const ALICE: &str = r#"{"?principal": {"type": "User", "id": "alice"}}"#;

const QUESTION: &str =
    r#"{"principal": User::"alice", "action": Action::"view", "resource": Photo::"1", "context": {}}"#;

fn push_names(out: &mut String, names: &[PolicyID]) -> Result<(), AllocError> {
    for (index, name) in names.iter().enumerate() {
        if index > 0 {
            out.push(' ')?;
        }
        out.push_str(name.as_str())?;
    }
    Ok(())
}

fn refused(alloc: Global, refusal: &NamedRefusal) -> Result<String, AllocError> {
    match refusal {
        NamedRefusal::IdConflict(name) => format!(in alloc; "conflict {name}"),
        NamedRefusal::NotOne => String::from_str(alloc, "not one"),
        NamedRefusal::Unsaid => String::from_str(alloc, "unsaid"),
        NamedRefusal::Long => String::from_str(alloc, "long"),
        NamedRefusal::Untold => String::from_str(alloc, "untold"),
        NamedRefusal::Refused(refusal) => String::from_str(alloc, refusal.name()),
    }
}

fn done(alloc: Global, outcome: Result<(), NamedRefusal>) -> Result<String, AllocError> {
    match outcome {
        Ok(()) => String::from_str(alloc, "ok"),
        Err(refusal) => refused(alloc, &refusal),
    }
}

fn decision_name(decision: Option<Decision>) -> &'static str {
    match decision {
        Some(Decision::Allow) => "allow",
        Some(Decision::Deny) => "deny",
        None => "open",
    }
}

/// The decision, what must be a reason, what may be, and what errs.
fn answered(alloc: Global, outcome: Result<Answer, NamedRefusal>) -> Result<String, AllocError> {
    match outcome {
        Ok(answer) => {
            let mut out = String::from_str(alloc, decision_name(answer.decision))?;
            out.push_str(" | ")?;
            push_names(&mut out, answer.must.as_slice())?;
            out.push_str(" | ")?;
            push_names(&mut out, answer.may.as_slice())?;
            out.push_str(" |")?;
            for entry in answer.erring.as_slice() {
                out.push(' ')?;
                out.push_str(entry.0.as_str())?;
            }
            Ok(out)
        }
        Err(refusal) => refused(alloc, &refusal),
    }
}

fn loaded(
    alloc: Global,
    outcome: Result<Vec<PolicyID>, NamedRefusal>,
) -> Result<String, AllocError> {
    match outcome {
        Ok(names) => {
            let mut out = String::new(alloc);
            push_names(&mut out, names.as_slice())?;
            Ok(out)
        }
        Err(refusal) => refused(alloc, &refusal),
    }
}

fn edited(alloc: Global, outcome: Result<(), Refusal>) -> Result<String, AllocError> {
    match outcome {
        Ok(()) => String::from_str(alloc, "ok"),
        Err(refusal) => String::from_str(alloc, refusal.name()),
    }
}

/// What a command is answered; a text that is too long is sent as an empty one.
fn line(
    alloc: Global,
    session: &mut NamedSession<'_>,
    sent: Sent<'_>,
) -> Result<String, AllocError> {
    match sent {
        Sent::Load(naming, text) => loaded(alloc, session.load(fitting(text), naming)),
        Sent::LoadAs(name, text) => done(alloc, session.load_as(name, fitting(text))),
        Sent::Link(template, id) => done(alloc, session.link(template, id, ALICE)),
        Sent::Unlink(name) => done(alloc, session.unlink(name)),
        Sent::RemoveStatic(name) => done(alloc, session.remove_static(name)),
        Sent::RemoveTemplate(name) => done(alloc, session.remove_template(name)),
        Sent::Add(text) => edited(alloc, session.add(fitting(text))),
        Sent::Put(text) => edited(alloc, session.put(fitting(text))),
        Sent::Remove(text) => edited(alloc, session.remove(fitting(text))),
        Sent::Ask(text) => answered(alloc, session.ask(fitting(text))),
        Sent::Tell(text) => answered(alloc, session.tell(fitting(text))),
    }
}

fn fitting(text: &str) -> &str
    ensures { length result.now ≤ body_limit }
{
    if text.len() > BODY_LIMIT { "" } else { text }
}

fn new_session<'f>(alloc: Global) -> Result<NamedSession<'f>, AllocError> {
    let extensions = Extensions::all_available(alloc)?;
    Ok(NamedSession::new(alloc, extensions, 256))
}

/// The first command that isn't answered by its line.
fn first_other(
    alloc: Global,
    cases: &[(Sent<'static>, &'static str)],
) -> Result<Option<usize>, AllocError> {
    let mut session = new_session(alloc)?;
    for (index, (sent, expected)) in cases.iter().enumerate() {
        let told = line(alloc, &mut session, *sent)?;
        if told.as_str() != *expected {
            return Ok(Some(index));
        }
    }
    Ok(None)
}

#[test]
fn policies_are_named_by_their_ids(rt: HostRuntime) {
    let cases = [
        // what has no `@id` is named by its number
        (
            Sent::Load(
                Naming::Ids,
                r#"@id("b") permit(principal, action, resource); permit(principal, action, resource); @id("a") permit(principal, action, resource);"#,
            ),
            "b policy1 a",
        ),
        // an answer's names are sorted
        (Sent::Ask(QUESTION), "allow | a b policy1 | a b policy1 |"),
        // a removal by name frees the name
        (Sent::RemoveStatic("b"), "ok"),
        (Sent::RemoveStatic("b"), "NoSuchPolicy"),
        (Sent::Ask(QUESTION), "allow | a policy1 | a policy1 |"),
        (
            Sent::LoadAs(
                "b",
                r#"forbid(principal, action, resource) when { 1 == "x" && principal.name == "y" };"#,
            ),
            "ok",
        ),
        (Sent::Ask(QUESTION), "allow | a policy1 | a policy1 |"),
        // what was given a name isn't called by its id
        (Sent::RemoveStatic("policy2"), "NoSuchPolicy"),
        (Sent::RemoveStatic("a"), "ok"),
    ];
    assert_eq!(rt; first_other(rt.alloc(), &cases), Ok(None));
}

#[test]
fn names_conflict(rt: HostRuntime) {
    let cases = [
        // two equal ids in one text; a refused load leaves the names
        (
            Sent::Load(
                Naming::Ids,
                r#"@id("a") permit(principal, action, resource); @id("a") forbid(principal, action, resource);"#,
            ),
            "conflict a",
        ),
        (Sent::Ask(QUESTION), "deny |  |  |"),
        (
            Sent::LoadAs("a", "permit(principal, action, resource);"),
            "ok",
        ),
        // a name that is held already, be it of the same policy
        (
            Sent::LoadAs("a", "forbid(principal, action, resource);"),
            "conflict a",
        ),
        (
            Sent::LoadAs("c", "permit(principal, action, resource);"),
            "conflict c",
        ),
        (
            Sent::Load(
                Naming::Ids,
                r#"@id("x") permit(principal, action, resource); @id("a") forbid(principal, action, resource);"#,
            ),
            "conflict a",
        ),
        (Sent::Ask(QUESTION), "allow | a | a |"),
        // a number's shape, but for the policy's own number
        (
            Sent::LoadAs("policy7", "forbid(principal, action, resource);"),
            "conflict policy7",
        ),
        (
            Sent::LoadAs("policy1", "forbid(principal, action, resource);"),
            "ok",
        ),
        (
            Sent::LoadAs("policy", "forbid(principal, action, resource);"),
            "ok",
        ),
        (
            Sent::Ask(QUESTION),
            "deny | policy policy1 | policy policy1 |",
        ),
        (
            Sent::LoadAs(
                "d",
                "permit(principal, action, resource); permit(principal, action, resource);",
            ),
            "not one",
        ),
        (Sent::LoadAs("d", "permit(principal"), "Text"),
    ];
    assert_eq!(rt; first_other(rt.alloc(), &cases), Ok(None));
}

#[test]
fn links_are_named_by_their_ids(rt: HostRuntime) {
    let cases = [
        (
            Sent::LoadAs(
                "viewers",
                "permit(principal == ?principal, action, resource);",
            ),
            "ok",
        ),
        (Sent::Link("viewers", "viewers"), "conflict viewers"),
        (Sent::Link("policy0", "alice"), "NoSuchTemplate"),
        (Sent::Link("viewers", "alice"), "ok"),
        (Sent::Link("viewers", "alice"), "conflict alice"),
        (
            Sent::LoadAs("alice", "permit(principal, action, resource);"),
            "conflict alice",
        ),
        (Sent::Ask(QUESTION), "allow | alice | alice |"),
        (Sent::RemoveTemplate("viewers"), "HasLinks"),
        (Sent::Unlink("viewers"), "NotLink"),
        (Sent::Unlink("alice"), "ok"),
        (Sent::RemoveTemplate("viewers"), "ok"),
        (Sent::RemoveTemplate("viewers"), "NoSuchTemplate"),
    ];
    assert_eq!(rt; first_other(rt.alloc(), &cases), Ok(None));
}

#[test]
fn numbers_stay_beside_names(rt: HostRuntime) {
    let cases = [
        (
            Sent::Load(
                Naming::Numbers,
                r#"@id("a") permit(principal, action, resource);"#,
            ),
            "policy0",
        ),
        // a policy that is held isn't given another name
        (
            Sent::Load(
                Naming::Ids,
                r#"@id("a") permit(principal, action, resource);"#,
            ),
            "conflict a",
        ),
        (Sent::Put(r#"[{"uid": User::"alice"}]"#), "ok"),
        (
            Sent::LoadAs(
                "late",
                "permit(principal, action, resource) when { context.hour > 20 };",
            ),
            "ok",
        ),
        (
            Sent::Ask(
                r#"{"principal": User::"alice", "action": Action::"view", "resource": Photo::"1", "context": {"hour": unknown("hour")}}"#,
            ),
            "allow | policy0 | late policy0 |",
        ),
        (
            Sent::Tell(r#"{"hour": 21}"#),
            "allow | late policy0 | late policy0 |",
        ),
        (Sent::Tell(r#"{"hour": 21}"#), "AlreadyTold"),
    ];
    assert_eq!(rt; first_other(rt.alloc(), &cases), Ok(None));
}

#[test]
fn entities_are_edited_as_by_a_session(rt: HostRuntime) {
    let cases = [
        (
            Sent::LoadAs(
                "staff",
                r#"permit(principal in Group::"staff", action, resource);"#,
            ),
            "ok",
        ),
        (Sent::Ask(QUESTION), "deny |  |  |"),
        (
            Sent::Add(r#"[{uid: User::"alice", parents: [Group::"staff"]}]"#),
            "ok",
        ),
        (Sent::Ask(QUESTION), "allow | staff | staff |"),
        (Sent::Remove(r#"[User::"alice"]"#), "ok"),
        (Sent::Ask(QUESTION), "deny |  |  |"),
    ];
    assert_eq!(rt; first_other(rt.alloc(), &cases), Ok(None));
}
