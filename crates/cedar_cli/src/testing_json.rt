// The word `test`, for programs.

use crate::arguments::{Arguments, Options};
use crate::files::whole_script;
use crate::machine::{Told, ToldTest, say_tested};
use crate::output::Stop;
use crate::{FINE, REFUSED, SCRIPT_FAULT};
use cedar_authoring::{Outcome, Script, Test, refuse_long, run_test};
use cedar_session::{ExtensionFunctionObject, Extensions};
use std::alloc::AllocError;

/// Runs the tests of scripts, and writes how each went as an object of JSON. Gives the greatest status.
pub(crate) fn test_json<F: ExtensionFunctionObject>(
    rt: &HostRuntime,
    extensions: &Extensions<'_, F>,
    arguments: &Arguments<'_>,
) -> Result<u8, Stop> {
    let mut told = Told::new(rt);
    let mut status = FINE;
    for file in &arguments.operands {
        status = status.max(test_file(rt, extensions, &arguments.options, &mut told, *file)?);
    }
    if told.tests.is_empty() {
        status = status.max(REFUSED);
    }
    say_tested(rt, status, &told)?;
    Ok(status)
}

fn test_file<F: ExtensionFunctionObject>(
    rt: &HostRuntime,
    extensions: &Extensions<'_, F>,
    options: &Options<'_>,
    told: &mut Told,
    file: &str,
) -> Result<u8, Stop> {
    let script = match whole_script(rt, file) {
        Ok(script) => script,
        Err(unread) => return Ok(told.add_unread(rt, unread)?.status()),
    };
    if refuse_long(rt.alloc(), file, &script)?.is_some() {
        let words = String::from_str(
            rt.alloc(),
            "the text of a command is longer than 1,048,576 bytes",
        )?;
        told.add_words(rt, file, None, "Long", words)?;
        return Ok(SCRIPT_FAULT);
    }
    run_tests(rt, extensions, options, told, file, &script)
}

fn run_tests<F: ExtensionFunctionObject>(
    rt: &HostRuntime,
    extensions: &Extensions<'_, F>,
    options: &Options<'_>,
    told: &mut Told,
    file: &str,
    script: &Script,
) -> Result<u8, Stop> {
    let mut status = FINE;
    let only = options.only.as_slice();
    for test in &script.tests {
        if !only.is_empty() && !only.iter().any(|name| *name == test.name.as_str()) {
            continue;
        }
        let outcome = run_test(rt.alloc(), extensions, file, script.set_up.as_slice(), test)?;
        if !outcome.passed {
            status = REFUSED;
        }
        told.tests.push(told_test(rt, file, test, &outcome)?)?;
    }
    Ok(status)
}

fn told_test(
    rt: &HostRuntime,
    file: &str,
    test: &Test,
    outcome: &Outcome,
) -> Result<ToldTest, AllocError> {
    let text = outcome.text.as_str();
    Ok(ToldTest {
        name: String::from_str(rt.alloc(), test.name.as_str())?,
        file: String::from_str(rt.alloc(), file)?,
        line: test.line,
        passed: outcome.passed,
        expected: first_behind(rt, text, "    expected ")?,
        answered: first_behind(rt, text, "    answered ")?,
    })
}

/// What stands in the first line that begins so, behind that.
fn first_behind(
    rt: &HostRuntime,
    text: &str,
    beginning: &str,
) -> Result<Option<String>, AllocError> {
    for line in text.lines() {
        if let Some(words) = line.strip_prefix(beginning) {
            return Ok(Some(String::from_str(rt.alloc(), words)?));
        }
    }
    Ok(None)
}
