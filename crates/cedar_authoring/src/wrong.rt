// What is told of a command that isn't answered as is expected.
ghost use Rattle.std.specs.Prelude.{string_bytes, OnOk};
ghost use Rattle.cedar_messages.specs.Telling.{Adds, AreBelow};

use cedar_extensions::objects::ExtensionFunctionObject;
use cedar_messages::telling::{push_indented, push_on_line};
use cedar_refusals::giving::{Refused, Source, faults_told};
use cedar_scripts::Step;
use cedar_session::{Extensions, Refusal, Reply, Session, line_in_memory};
use std::alloc::{AllocError, Global};

/// Tells where a command stands, what was expected, what is answered, and the faults of a text that is refused.
pub(crate) fn tell_wrong<F: ExtensionFunctionObject>(
    alloc: Global,
    extensions: &Extensions<'_, F>,
    session: &Session<'_, '_, F>,
    told: &mut String,
    name: &str,
    step: &Step,
    outcome: &Result<Reply, Refusal>,
) -> Result<(), AllocError>
    ensures { OnOk result (Adds AreBelow (string_bytes told.old) (string_bytes told.new)) }
{
    tell_command(alloc, told, name, step)?;
    tell_answer(alloc, told, step, outcome)?;
    match outcome {
        Ok(_) => Ok(()),
        Err(refusal) => tell_refused(alloc, extensions, session, told, name, step, *refusal),
    }
}

/// Tells where a command stands.
fn tell_command(alloc: Global, told: &mut String, name: &str, step: &Step) -> Result<(), AllocError>
    ensures { OnOk result (Adds AreBelow (string_bytes told.old) (string_bytes told.new)) }
{
    let head = format!(in alloc; "{name}:{}: {}", step.line, step.verb.name())?;
    let about = about(alloc, step)?;
    told.push_str("  ")?;
    push_on_line(told, head.as_str())?;
    push_on_line(told, about.as_str())?;
    told.push_str("\n")?;
    Ok(())
}

/// Tells what was expected, and what is answered.
fn tell_answer(
    alloc: Global,
    told: &mut String,
    step: &Step,
    outcome: &Result<Reply, Refusal>,
) -> Result<(), AllocError>
    ensures { OnOk result (Adds AreBelow (string_bytes told.old) (string_bytes told.new)) }
{
    let expected = match &step.expected {
        Some(words) => words.as_str(),
        None => "no refusal",
    };
    let expected = format!(in alloc; "expected {expected}")?;
    push_indented(told, expected.as_str())?;
    let line = line_in_memory(alloc, outcome)?;
    let line = String::from_utf8_lossy(alloc, line.as_slice())?;
    let answered = format!(in alloc; "answered {}", line.as_str().trim_end())?;
    push_indented(told, answered.as_str())
}

/// The first line of a body, or the file that has it, behind a space.
fn about(alloc: Global, step: &Step) -> Result<String, AllocError> {
    if let Some(file) = &step.file {
        return format!(in alloc; " < {file}");
    }
    match step.body.as_str().lines().next() {
        Some("") | None => Ok(String::new(alloc)),
        Some(line) => format!(in alloc; " {line}"),
    }
}

/// Tells the faults of a command's text that is refused, where they stand in the script or the file.
fn tell_refused<F: ExtensionFunctionObject>(
    alloc: Global,
    extensions: &Extensions<'_, F>,
    session: &Session<'_, '_, F>,
    told: &mut String,
    name: &str,
    step: &Step,
    refusal: Refusal,
) -> Result<(), AllocError>
    ensures { OnOk result (Adds AreBelow (string_bytes told.old) (string_bytes told.new)) }
{
    match &step.file {
        Some(file) => {
            let source = Source {
                name: file.as_str(),
                text: step.body.as_str(),
            };
            let command = Refused::of(step.verb, source, refusal);
            push_faults(alloc, extensions, session, told, command)
        }
        None => {
            let text = placed(alloc, step)?;
            let source = Source {
                name,
                text: text.as_str(),
            };
            let command = Refused::of(step.verb, source, refusal);
            push_faults(alloc, extensions, session, told, command)
        }
    }
}

/// The body of a command behind as many lines and columns as stand before it in the script.
fn placed(alloc: Global, step: &Step) -> Result<String, AllocError> {
    let mut text = String::new(alloc);
    for _ in 1..step.line {
        text.push_str("\n")?;
    }
    for _ in step.verb.name().chars() {
        text.push_str(" ")?;
    }
    text.push_str(" ")?;
    text.push_str(step.body.as_str())?;
    Ok(text)
}

fn push_faults<F: ExtensionFunctionObject>(
    alloc: Global,
    extensions: &Extensions<'_, F>,
    session: &Session<'_, '_, F>,
    told: &mut String,
    command: Refused<'_>,
) -> Result<(), AllocError>
    ensures { OnOk result (Adds AreBelow (string_bytes told.old) (string_bytes told.new)) }
{
    let Some(faults) = faults_told(alloc, extensions, session, command)? else {
        return Ok(());
    };
    for line in faults.as_str().lines() {
        push_indented(told, line)?;
    }
    Ok(())
}
