// The word `check`, for programs.

use crate::arguments::Arguments;
use crate::files::{INPUT, bytes_of, unmarked};
use crate::giving::{Start, give, list_policies};
use crate::machine::{Told, say_checked};
use crate::output::Stop;
use crate::{FINE, REFUSED};
use cedar_authoring::DEPTH;
use cedar_session::{ExtensionFunctionObject, Extensions, Reply, Session, Verb};

/// Checks texts of policies, and writes the policies and the faults that they have as an object of JSON. Gives the greatest status.
pub(crate) fn check_json<F: ExtensionFunctionObject>(
    rt: &HostRuntime,
    extensions: &Extensions<'_, F>,
    arguments: &Arguments<'_>,
) -> Result<u8, Stop> {
    let mut told = Told::new(rt);
    let mut status = FINE;
    let mut session = new_session(rt, extensions)?;
    for file in &arguments.operands {
        if arguments.options.each {
            session = new_session(rt, extensions)?;
        }
        status = status.max(check_next(rt, extensions, &mut session, &mut told, *file)?);
    }
    if arguments.operands.is_empty() {
        status = check_next(rt, extensions, &mut session, &mut told, INPUT)?;
    }
    say_checked(rt, status, &told)?;
    Ok(status)
}

fn new_session<'e, 'f, F: ExtensionFunctionObject>(
    rt: &HostRuntime,
    extensions: &'e Extensions<'f, F>,
) -> Result<Session<'e, 'f, F>, Stop> {
    match Session::new(rt.alloc(), extensions, DEPTH) {
        Ok(session) => Ok(session),
        Err(_) => Err(Stop::Memory),
    }
}

fn check_next<F: ExtensionFunctionObject>(
    rt: &HostRuntime,
    extensions: &Extensions<'_, F>,
    session: &mut Session<'_, '_, F>,
    told: &mut Told,
    file: &str,
) -> Result<u8, Stop> {
    let bytes = match bytes_of(rt, file) {
        Ok(bytes) => bytes,
        Err(unread) => return Ok(told.add_unread(rt, unread)?.status()),
    };
    let bytes = unmarked(bytes.as_slice());
    match give(rt, extensions, session, told, file, Verb::Load, bytes)? {
        Some(Reply::Ids(ids)) => {
            list_policies(
                rt,
                extensions,
                told,
                file,
                Start::FILE,
                bytes,
                ids.as_slice(),
            )?;
            Ok(FINE)
        }
        _ => Ok(REFUSED),
    }
}
