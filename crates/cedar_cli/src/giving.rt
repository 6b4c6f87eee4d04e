// Files given to a session, for what programs are told.

use crate::machine::{Told, ToldPolicy};
use crate::output::Stop;
use cedar_authoring::{DEPTH, Seen, why};
use cedar_messages::places::{Places, Position};
use cedar_policy_parts::{Effect, PolicyID};
use cedar_session::{
    BODY_LIMIT, Command, ExtensionFunctionObject, Extensions, Refusal, Reply, Session, Verb,
};

/// Gives a session the command of this verb on the bytes of a file. Where it is refused, why that is is told.
pub(crate) fn give<F: ExtensionFunctionObject>(
    rt: &HostRuntime,
    extensions: &Extensions<'_, F>,
    session: &mut Session<'_, '_, F>,
    told: &mut Told,
    file: &str,
    verb: Verb,
    bytes: &[u8],
) -> Result<Option<Reply>, Stop> {
    if bytes.len() > BODY_LIMIT {
        let words = String::from_str(rt.alloc(), "the text is longer than 1,048,576 bytes")?;
        told.add_words(rt, file, None, "Long", words)?;
        return Ok(None);
    }
    let outcome = match str::from_utf8(bytes) {
        Ok(text) => session.apply(&Command::of(verb, text)),
        Err(_) => Err(Refusal::NotUtf8),
    };
    match outcome {
        Ok(reply) => Ok(Some(reply)),
        Err(refusal) => {
            tell_refused(rt, extensions, session, told, file, verb, bytes, refusal)?;
            Ok(None)
        }
    }
}

fn tell_refused<F: ExtensionFunctionObject>(
    rt: &HostRuntime,
    extensions: &Extensions<'_, F>,
    session: &Session<'_, '_, F>,
    told: &mut Told,
    file: &str,
    verb: Verb,
    bytes: &[u8],
    refusal: Refusal,
) -> Result<(), Stop> {
    if let Refusal::Memory = refusal {
        return Err(Stop::Memory);
    }
    let untold = session.untold()?;
    let seen = Seen {
        extensions,
        depth: DEPTH,
        entities: session.entities(),
        untold: untold.as_slice(),
        told: session.told(),
    };
    let faults = why(rt.alloc(), &seen, verb, bytes)?;
    if faults.is_empty() {
        let words = format!(in rt.alloc(); "{refusal}")?;
        told.add_words(rt, file, None, refusal.name(), words)?;
    }
    told.add_faults(rt, file, faults.as_slice())?;
    Ok(())
}

/// Where a text begins in its file: behind so many lines, and in the first of its own behind so many characters.
#[derive(Clone, Copy)]
pub(crate) struct Start {
    pub(crate) lines: usize,
    pub(crate) columns: usize,
}

impl Start {
    /// The beginning of the file.
    pub(crate) const FILE: Start = Start {
        lines: 0,
        columns: 0,
    };

    /// The place in the file of what stands at a place of the text.
    fn behind(self, at: Position) -> Position {
        Position {
            line: at.line.saturating_add(self.lines),
            column: if at.line == 1 {
                at.column.saturating_add(self.columns)
            } else {
                at.column
            },
        }
    }
}

/// Tells the policies of a text, which a session holds under these ids.
pub(crate) fn list_policies<F: ExtensionFunctionObject>(
    rt: &HostRuntime,
    extensions: &Extensions<'_, F>,
    told: &mut Told,
    file: &str,
    start: Start,
    bytes: &[u8],
    ids: &[PolicyID],
) -> Result<(), Stop> {
    let Ok(text) = str::from_utf8(bytes) else {
        return Ok(());
    };
    if text.len() > BODY_LIMIT {
        return Ok(());
    }
    // (one that is held already has its place in another text)
    let Ok(mut alone) = Session::new(rt.alloc(), extensions, DEPTH) else {
        return Err(Stop::Memory);
    };
    let Ok(own) = alone.load(text) else {
        return Err(Stop::Memory);
    };
    let places = Places::of(rt.alloc(), text)?;
    for (id, own) in ids.iter().zip(own.iter()) {
        let policy = told_policy(rt, &alone, &places, file, start, id, own)?;
        told.policies.push(policy)?;
    }
    Ok(())
}

fn told_policy<F: ExtensionFunctionObject>(
    rt: &HostRuntime,
    alone: &Session<'_, '_, F>,
    places: &Places<'_>,
    file: &str,
    start: Start,
    id: &PolicyID,
    own: &PolicyID,
) -> Result<ToldPolicy, Stop> {
    let Some(policy) = alone.policies().get_template(own) else {
        return Err(Stop::Memory);
    };
    let mut annotations = Vec::new(rt.alloc());
    for (key, value) in policy.annotations().iter() {
        let key = String::from_str(rt.alloc(), key.as_str())?;
        annotations.push((key, String::from_str(rt.alloc(), value.val())?))?;
    }
    Ok(ToldPolicy {
        file: String::from_str(rt.alloc(), file)?,
        place: match policy.loc() {
            Some(loc) => Some(start.behind(places.position(loc.start()))),
            None => None,
        },
        id: String::from_str(rt.alloc(), id.as_str())?,
        effect: match policy.effect() {
            Effect::Permit => "permit",
            Effect::Forbid => "forbid",
        },
        is_template: !policy.is_static(),
        annotations,
    })
}
