// The commands of a test, or those before the first, line by line.
ghost use Rattle.std.specs.Prelude.{◌≡◌, ◌-◌, ◌∷◌, ◌++◌, [], map, replicate, None, false, string_bytes, OnOk, IfOk, IfErr};
ghost use Rattle.cedar_scripts.specs.ScriptFaults.{RefusesSaid, last_of};
ghost use Rattle.cedar_scripts.specs.ScriptLines.{Command, Further, Answer, begins_with};
ghost use Rattle.cedar_scripts.specs.ScriptTexts.{IsStep, StepsGoOn, step_text};
ghost use Rattle.cedar_scripts.specs.Spoken.{said_of};

use crate::fault::{ScriptError, ScriptFault};
use crate::lines::Part;
use crate::script::Step;
use cedar_frames::Verb;
use std::alloc::{AllocError, Global};

/// Adds a line to these commands, where it says this.
pub(crate) fn take_part(
    alloc: Global,
    steps: &mut Vec<Step>,
    number: usize,
    part: Part<'_>,
) -> Result<(), ScriptError>
    ensures taken { OnOk result (StepsGoOn number (said_of part.entry) (map step_text steps.old.items) (map step_text steps.new.items)) }
    ensures fault { IfErr result (RefusesSaid number (last_of None (map step_text steps.old.items)) (said_of part.entry)) }
{
    match part {
        Part::Command(verb, body) => begin_step(alloc, steps, number, verb, body),
        Part::Further(text) => go_on(steps, number, text),
        Part::Expects(words) => expect_answer(alloc, steps, number, words),
    }
}

fn begin_step(
    alloc: Global,
    steps: &mut Vec<Step>,
    number: usize,
    verb: Verb,
    body: &str,
) -> Result<(), ScriptError>
    ensures taken { OnOk result (StepsGoOn number (Command verb body.now) (map step_text steps.old.items) (map step_text steps.new.items)) }
    ensures fault { IfErr result (RefusesSaid number (last_of None (map step_text steps.old.items)) (Command verb body.now)) }
{
    let step = match body.strip_prefix('<') {
        Some(file) => step_in_file(alloc, number, verb, file)?,
        None => step_in_text(alloc, number, verb, body)?,
    };
    steps.push(step)?;
    Ok(())
}

/// The command whose body stands in this file.
fn step_in_file(alloc: Global, number: usize, verb: Verb, file: &str) -> Result<Step, ScriptError>
    ensures step { IfOk result (λ step. IsStep number (Command verb (60 ∷ file.now) ∷ []) (step_text step)) }
    ensures fault { IfErr result (RefusesSaid number None (Command verb (60 ∷ file.now))) }
{
    let name = file.trim();
    if name.is_empty() {
        return Err(ScriptError::Fault(number, ScriptFault::NoFile));
    }
    Ok(Step {
        line: number,
        last_line: number,
        verb,
        body: String::new(alloc),
        file: Some(String::from_str(alloc, name)?),
        expected: None,
    })
}

/// The command whose body begins so.
fn step_in_text(alloc: Global, number: usize, verb: Verb, body: &str) -> Result<Step, AllocError>
    requires text { begins_with 60 body.now ≡ false }
    ensures { IfOk result (λ step. IsStep number (Command verb body.now ∷ []) (step_text step)) }
{
    Ok(Step {
        line: number,
        last_line: number,
        verb,
        body: String::from_str(alloc, body)?,
        file: None,
        expected: None,
    })
}

fn go_on(steps: &mut Vec<Step>, number: usize, text: &str) -> Result<(), ScriptError>
    ensures taken { OnOk result (StepsGoOn number (Further text.now) (map step_text steps.old.items) (map step_text steps.new.items)) }
    ensures fault { IfErr result (RefusesSaid number (last_of None (map step_text steps.old.items)) (Further text.now)) }
{
    let Some(step) = steps.last_mut() else {
        return Err(ScriptError::Fault(number, ScriptFault::NoCommand));
    };
    if step.expected.is_some() {
        return Err(ScriptError::Fault(number, ScriptFault::BehindAnswer));
    }
    if step.file.is_some() {
        return Err(ScriptError::Fault(number, ScriptFault::BehindFile));
    }
    push_line(step, number, text)?;
    Ok(())
}

/// Adds a line to a body, behind as many line feeds as the script has there.
fn push_line(step: &mut Step, number: usize, text: &str) -> Result<(), AllocError>
    ensures body { OnOk result (string_bytes step.new.body ≡ (string_bytes step.old.body ++ replicate (number - step.old.last_line) 10) ++ text.now) }
    ensures others { OnOk result (step.new ≡ record step.old { body = step.new.body; last_line = number }) }
{
    for _ in step.last_line..number {
        step.body.push_str("\n")?;
    }
    step.last_line = number;
    step.body.push_str(text)
}

fn expect_answer(
    alloc: Global,
    steps: &mut Vec<Step>,
    number: usize,
    words: &str,
) -> Result<(), ScriptError>
    ensures taken { OnOk result (StepsGoOn number (Answer words.now) (map step_text steps.old.items) (map step_text steps.new.items)) }
    ensures fault { IfErr result (RefusesSaid number (last_of None (map step_text steps.old.items)) (Answer words.now)) }
{
    let Some(step) = steps.last_mut() else {
        return Err(ScriptError::Fault(number, ScriptFault::NoCommand));
    };
    if step.expected.is_some() {
        return Err(ScriptError::Fault(number, ScriptFault::SecondAnswer));
    }
    let expected = words.trim();
    if expected.is_empty() {
        return Err(ScriptError::Fault(number, ScriptFault::NoAnswer));
    }
    step.expected = Some(String::from_str(alloc, expected)?);
    Ok(())
}
