//! A session, by frames and by its methods. [`run`] reads frames from any reader and writes a line for each
//! to any writer: here from a slice of bytes to a vector. Then the same commands are given by calls.

use crate::DEPTH;
use anyhow::Result;
use cedar_session::{Answer, End, Extensions, PolicyID, RunError, Session, Watched, run};
use std::alloc::Global;
use std::io;

/// A verb and the length of a body in bytes, and on the next line the body.
const FRAMES: &str = r#"put 49
[{uid: User::"alice", parents: [Group::"staff"]}]
load 81
permit(principal in Group::"staff", action, resource) when { context.hour < 18 };
ask 92
{principal: User::"alice", action: Action::"view", resource: Photo::"1", context: {hour: 9}}
ask 85
{principal: User::"alice", action: Action::"view", resource: Photo::"1", context: {}}
unlink 7
"guest"
"#;

const STAFF: &str = r#"[{uid: User::"alice", parents: [Group::"staff"]}]"#;

const POLICY: &str = r#"
permit(principal in Group::"staff", action, resource) when { context.hour < 18 };
"#;

const WITH_AN_HOUR: &str = r#"
{principal: User::"alice", action: Action::"view", resource: Photo::"1", context: {hour: 9}}
"#;

const WITHOUT_AN_HOUR: &str = r#"
{principal: User::"alice", action: Action::"view", resource: Photo::"1", context: {}}
"#;

/// Gives two new sessions the same commands.
pub(crate) fn show(rt: &impl Print, alloc: Global, extensions: &Extensions<'_>) -> Result<()> {
    println!(rt; "frames")?;
    by_frames(rt, alloc, extensions)?;
    by_methods(rt, alloc, extensions)
}

fn by_frames(rt: &impl Print, alloc: Global, extensions: &Extensions<'_>) -> Result<()> {
    println!(rt; "  by frames")?;
    let mut session = Session::new(alloc, extensions, DEPTH)?;
    let mut written = Vec::new(alloc);
    let end = answer_frames(&mut session, FRAMES.as_bytes(), &mut written)?;
    print_run(rt, written.as_slice(), end)
}

/// Both devices are watched, so that the run tells which of them failed, if one did.
fn answer_frames(
    session: &mut Session<'_, '_>,
    frames: &[u8],
    written: &mut Vec<u8>,
) -> Result<End, RunError> {
    let mut reader = Watched::new(frames);
    let mut writer = Watched::new(written);
    run(session, &mut reader, &mut writer)
}

/// Prints the lines that a run wrote, and how it ended.
fn print_run(rt: &impl Print, written: &[u8], end: End) -> Result<()> {
    for line in str::from_utf8(written)?.lines() {
        println!(rt; "    {line}")?;
    }
    println!(rt; "    ended by {end:?}")?;
    Ok(())
}

fn by_methods(rt: &impl Print, alloc: Global, extensions: &Extensions<'_>) -> Result<()> {
    println!(rt; "  by methods")?;
    let mut session = Session::new(alloc, extensions, DEPTH)?;
    give_commands(rt, &mut session)
}

/// Each method takes the text of a frame's body, of at most 1 MiB. What is refused changes nothing.
fn give_commands(rt: &impl Print, session: &mut Session<'_, '_>) -> Result<()> {
    session.put(STAFF)?;
    print_loaded(rt, session.load(POLICY)?)?;
    print_answer(rt, "with an hour", session.ask(WITH_AN_HOUR)?)?;
    print_answer(rt, "without an hour", session.ask(WITHOUT_AN_HOUR)?)?;
    if let Err(refusal) = session.unlink(r#""guest""#) {
        println!(rt; "    refused: {refusal}")?;
    }
    Ok(())
}

/// Prints the ids under which policies stand once they are loaded.
fn print_loaded(rt: &impl Print, ids: Vec<PolicyID>) -> io::Result<()> {
    println!(rt; "    loaded")?;
    print_ids(rt, "as", ids.as_slice())
}

/// Prints the answer to a question. It has no decision while the question is open.
pub(crate) fn print_answer(rt: &impl Print, asked: &str, answer: Answer) -> io::Result<()> {
    println!(rt; "    {asked}: {:?}", answer.decision)?;
    print_policies(rt, &answer)
}

fn print_policies(rt: &impl Print, answer: &Answer) -> io::Result<()> {
    print_ids(rt, "must", answer.must.as_slice())?;
    print_ids(rt, "may", answer.may.as_slice())?;
    for (id, kind) in answer.erring.as_slice() {
        println!(rt; "      erring {id}: {}", kind.name())?;
    }
    Ok(())
}

/// Prints each id behind a word.
pub(crate) fn print_ids(rt: &impl Print, word: &str, ids: &[PolicyID]) -> io::Result<()> {
    for id in ids {
        println!(rt; "      {word} {id}")?;
    }
    Ok(())
}
