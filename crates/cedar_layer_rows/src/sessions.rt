// What lines of the layer of sessions answer, which frames on their own can't show: commands to a session with functions
// of a caller's, and runs at devices that fail.
use crate::ranks::{Ranks, Tables, made};
use crate::runs;
use crate::words::one_line;
use cedar_replies::put_line;
use cedar_rows::{Answer, cut, no_case};
use cedar_session::{
    Answer as Decided, Erring, Extensions, PolicyID, PolicyIds, Refusal, Reply, Session, Watched,
};
use std::alloc::{AllocError, Global};

/// How deep texts and evaluations may be.
const DEPTH: u32 = 256;

/// What earlier lines left.
pub(crate) struct Held<'e, 'f> {
    tables: &'e Tables<'f>,
    session: Session<'e, 'f, Ranks>,
}

impl Drop for Held<'_, '_> {
    fn drop(self) {
        let Held {
            tables: _,
            session: _,
        } = self;
    }
}

/// A fresh session without a caller's functions. Refused for memory alone.
pub(crate) fn none<'e, 'f>(alloc: Global, tables: &'e Tables<'f>) -> Result<Held<'e, 'f>, Refusal> {
    Ok(Held {
        tables,
        session: Session::new(alloc, tables.bare(), DEPTH)?,
    })
}

/// Begins a fresh session with this table.
fn begin<'e, 'f>(
    alloc: Global,
    extensions: &'e Extensions<'f, Ranks>,
    held: &mut Held<'e, 'f>,
) -> Answer {
    match Session::new(alloc, extensions, DEPTH) {
        Ok(session) => {
            held.session = session;
            String::from_str(alloc, "begun")
        }
        Err(refusal) => String::from_str(alloc, refusal.name()),
    }
}

/// Whether a session has a command of this verb, which some line gives.
fn is_command(verb: &str) -> bool {
    matches!(verb, "load" | "link" | "put" | "ask" | "tell")
}

fn line(alloc: Global, outcome: Result<Reply, Refusal>) -> Answer {
    let mut written = Vec::new(alloc);
    let mut writer = Watched::new(&mut written);
    put_line(&mut writer, &outcome);
    one_line(alloc, written.as_slice())
}

/// A copy of the set of this id.
fn ids(alloc: Global, id: &str) -> Result<PolicyIds, AllocError> {
    let ids = vec![in alloc; PolicyID::from_string(alloc, id)?]?;
    PolicyIds::new(ids).clone()
}

/// The answer that the policy of this id must be a reason and may be one.
fn decided(alloc: Global, id: &str) -> Result<Reply, Refusal> {
    Ok(Reply::Answer(Decided {
        decision: None,
        must: ids(alloc, id)?,
        may: ids(alloc, id)?,
        erring: Erring::none(alloc).clone()?,
    }))
}

/// Lines that say what a command is answered.
fn replied(alloc: Global, text: &str) -> Answer {
    let (verb, id) = cut(text);
    match verb {
        "ids" => line(alloc, Ok(Reply::Ids(ids(alloc, id)?.into_vec()))),
        "open" => line(alloc, decided(alloc, id)),
        "memory" => line(alloc, Err(Refusal::from(AllocError))),
        _ => no_case(alloc),
    }
}

/// What a line answers. Refused for memory alone.
pub(crate) fn answer(alloc: Global, line: &str, held: &mut Held<'_, '_>) -> Answer {
    let (verb, text) = cut(line);
    match verb {
        "" => begin(alloc, held.tables.bare(), held),
        "ranks" => begin(alloc, held.tables.with_ranks(), held),
        "made" => made(alloc, text),
        "run" => runs::at_devices(text, &mut held.session),
        "program" => runs::of_program(alloc, text),
        "failure" => runs::of_failure(alloc, text),
        "replies" => replied(alloc, text),
        _ if is_command(verb) => runs::of_command(verb, text, &mut held.session),
        _ => no_case(alloc),
    }
}
