// The word `explain`.

use crate::arguments::{Arguments, place_named};
use crate::files::{read_bytes, read_whole_script, unmarked};
use crate::output::{Stop, print};
use cedar_authoring::{Named, Report, explained, explained_at};
use cedar_session::{ExtensionFunctionObject, Extensions};

/// Explains the question of three files, or the one at a line of a script, and gives the status that says what is
/// decided.
pub(crate) fn explain<F: ExtensionFunctionObject>(
    rt: &HostRuntime,
    extensions: &Extensions<'_, F>,
    arguments: &Arguments<'_>,
) -> Result<u8, Stop> {
    let report = match arguments.operands.as_slice() {
        [policies, entities, question] => {
            explain_files(rt, extensions, *policies, *entities, *question)?
        }
        operands => explain_place(rt, extensions, operands)?,
    };
    print(rt, report.text.as_str())?;
    Ok(report.status)
}

fn explain_files<F: ExtensionFunctionObject>(
    rt: &HostRuntime,
    extensions: &Extensions<'_, F>,
    policies: &str,
    entities: &str,
    question: &str,
) -> Result<Report, Stop> {
    let policies_read = read_bytes(rt, policies)?;
    let entities_read = read_bytes(rt, entities)?;
    let question_read = read_bytes(rt, question)?;
    let report = explained(
        rt.alloc(),
        extensions,
        text_named(policies, &policies_read),
        text_named(entities, &entities_read),
        text_named(question, &question_read),
    )?;
    Ok(report)
}

fn text_named<'t>(name: &'t str, bytes: &'t Vec<u8>) -> Named<'t> {
    Named {
        name,
        bytes: unmarked(bytes.as_slice()),
    }
}

fn explain_place<F: ExtensionFunctionObject>(
    rt: &HostRuntime,
    extensions: &Extensions<'_, F>,
    operands: &[&str],
) -> Result<Report, Stop> {
    let place = match operands.first() {
        Some(operand) => place_named(*operand),
        None => None,
    };
    // (the words are refused where it is none)
    let Some((name, line)) = place else {
        return Err(Stop::Fault);
    };
    let script = read_whole_script(rt, name)?;
    let report = explained_at(rt.alloc(), extensions, name, &script, line)?;
    Ok(report)
}
