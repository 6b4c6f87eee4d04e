// Scripts, read from a text.
ghost use Rattle.std.specs.Prelude.{◌≡◌, OnOk, IfOk, IfErr, MatchResult};
ghost use Rattle.cedar_scripts.specs.declared.fault.ScriptError.TheVariants.{Memory};
ghost use Rattle.cedar_scripts.specs.ScriptFaults.{IsRefusal, RefusesLine, RefusesSaid, last_step};
ghost use Rattle.cedar_scripts.specs.ScriptLines.{Title};
ghost use Rattle.cedar_scripts.specs.ScriptTexts.{IsScript, ScriptGoesOn, ScriptText, TextGoesOn, script_text};
ghost use Rattle.cedar_scripts.specs.Spoken.{said_of};

use crate::fault::{ScriptError, ScriptFault};
use crate::lines::{Line, Part};
use crate::script::{Script, Test};
use crate::sections::take_part;
use std::alloc::Global;

/// The script that a text is.
///
/// A line that begins with a verb is a command: behind a space its body stands, or `<` and the name of a file that has
/// it; lines that begin with a space or a tab go on with the body. `=> WORDS` says what must answer the command before,
/// `test NAME` begins a test, and blank lines and those that begin with `#` say nothing. The first line that is none of
/// these, or that can't stand behind those before it, is the fault; refused otherwise for memory alone.
pub fn read_script(alloc: Global, text: &str) -> Result<Script, ScriptError>
    ensures script { IfOk result (λ script. IsScript text.now (script_text script)) }
    ensures fault { IfErr result (IsRefusal text.now) }
    // a text that is a script is read as it is, or memory ran out
    ensures complete { (script : ScriptText) → IsScript text.now script → MatchResult result (λ read. script_text read ≡ script) (λ error. error ≡ Memory) }
{
    let mut script = Script {
        set_up: Vec::new(alloc),
        tests: Vec::new(alloc),
    };
    let mut number = 0;
    for line in text.lines() {
        number += 1;
        take_line(alloc, &mut script, number, line)?;
    }
    Ok(script)
}

fn take_line(
    alloc: Global,
    script: &mut Script,
    number: usize,
    line: &str,
) -> Result<(), ScriptError>
    ensures taken { OnOk result (TextGoesOn number line.now (script_text script.old) (script_text script.new)) }
    ensures fault { IfErr result (RefusesLine number (last_step (script_text script.old)) line.now) }
{
    match Line::of(line) {
        Some(Line::Nothing) => Ok(()),
        Some(Line::Test(name)) => begin_test(alloc, script, number, name),
        Some(Line::Part(part)) => go_on(alloc, script, number, part),
        None => Err(ScriptError::Fault(number, ScriptFault::UnknownWord)),
    }
}

fn begin_test(
    alloc: Global,
    script: &mut Script,
    number: usize,
    name: &str,
) -> Result<(), ScriptError>
    ensures taken { OnOk result (ScriptGoesOn number (Title name.now) (script_text script.old) (script_text script.new)) }
    ensures fault { IfErr result (RefusesSaid number (last_step (script_text script.old)) (Title name.now)) }
{
    if name.trim().is_empty() {
        return Err(ScriptError::Fault(number, ScriptFault::NoName));
    }
    script.tests.push(Test {
        line: number,
        name: String::from_str(alloc, name)?,
        steps: Vec::new(alloc),
    })?;
    Ok(())
}

/// Adds a part of a command to those of the last test, or to those before the first.
fn go_on(
    alloc: Global,
    script: &mut Script,
    number: usize,
    part: Part<'_>,
) -> Result<(), ScriptError>
    ensures taken { OnOk result (ScriptGoesOn number (said_of part.entry) (script_text script.old) (script_text script.new)) }
    ensures fault { IfErr result (RefusesSaid number (last_step (script_text script.old)) (said_of part.entry)) }
{
    match script.tests.last_mut() {
        Some(test) => take_part(alloc, &mut test.steps, number, part),
        None => take_part(alloc, &mut script.set_up, number, part),
    }
}
