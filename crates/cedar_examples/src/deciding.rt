//! Policies of a file, and a table of questions with what is to be decided: a test of policies in a page.
//! `cedar_cli test` runs scripts of such tests.
ghost use Rattle.std.specs.Prelude.{◌≤◌, length};
ghost use Rattle.cedar_frames.specs.Heads.{body_limit};

use crate::DEPTH;
use crate::frames::print_ids;
use anyhow::Result;
use cedar_session::{BODY_LIMIT, Decision, Extensions, Session};
use std::fs;

/// It lies in `data`, where the program runs.
const FILE: &str = "office.cedar";

const ENTITIES: &str = r#"
[{uid: User::"alice", parents: [Group::"staff"]}, {uid: Door::"vault", attrs: {locked: true}}]
"#;

const BY_DAY: &str = r#"
{principal: User::"alice", action: Action::"enter", resource: Door::"1", context: {hour: 9}}
"#;

const AT_NIGHT: &str = r#"
{principal: User::"alice", action: Action::"enter", resource: Door::"1", context: {hour: 23}}
"#;

const THE_VAULT: &str = r#"
{principal: User::"alice", action: Action::"enter", resource: Door::"vault", context: {hour: 9}}
"#;

const SOMEBODY: &str = r#"
{action: Action::"enter", resource: Door::"1", context: {hour: 9}}
"#;

/// Loads the policies of the file, and asks each question of the table.
pub(crate) fn show(rt: &HostRuntime, extensions: &Extensions<'_>) -> Result<()> {
    println!(rt; "deciding")?;
    let policies = fs::read_to_string(rt, FILE)?;
    let mut session = Session::new(rt.alloc(), extensions, DEPTH)?;
    session.put(ENTITIES)?;
    if load(rt, &mut session, policies.as_str())? {
        ask_each(rt, &mut session)?;
    }
    Ok(())
}

/// Whether the text is loaded: a session takes texts of at most 1 MiB.
fn load(rt: &HostRuntime, session: &mut Session<'_, '_>, policies: &str) -> Result<bool> {
    if policies.len() > BODY_LIMIT {
        println!(rt; "  {FILE} is too long")?;
        return Ok(false);
    }
    let ids = session.load(policies)?;
    println!(rt; "  loaded {FILE}")?;
    print_ids(rt, "as", ids.as_slice())?;
    Ok(true)
}

/// The last question leaves out who asks: so nothing is decided.
fn ask_each(rt: &HostRuntime, session: &mut Session<'_, '_>) -> Result<()> {
    ask(rt, session, "by day", BY_DAY, Some(Decision::Allow))?;
    ask(rt, session, "at night", AT_NIGHT, Some(Decision::Deny))?;
    ask(rt, session, "the vault", THE_VAULT, Some(Decision::Deny))?;
    ask(rt, session, "somebody", SOMEBODY, None)
}

fn ask(
    rt: &HostRuntime,
    session: &mut Session<'_, '_>,
    name: &str,
    question: &str,
    decision: Option<Decision>,
) -> Result<()>
    requires { length question.now ≤ body_limit }
{
    let answer = session.ask(question)?;
    let told = if answer.decision == decision {
        "ok"
    } else {
        "FAIL"
    };
    println!(rt; "  {told} {name}: {:?}", answer.decision)?;
    Ok(())
}
