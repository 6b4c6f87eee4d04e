// The word `test`.

use crate::arguments::{Arguments, Options};
use crate::files::{read_script_alone, read_whole_script};
use crate::junit::Junit;
use crate::output::{Stop, print, say, warn};
use crate::{FINE, REFUSED, SCRIPT_FAULT};
use cedar_authoring::{Coverage, Outcome, Script, Test, refuse_long, run_script, run_test};
use cedar_session::{ExtensionFunctionObject, Extensions};
use std::collections::BTreeMap;
use std::fs;

/// What the words ask of tests.
#[derive(Clone, Copy, Debug)]
struct Asked<'a> {
    options: &'a Options<'a>,
    /// Whether there are several scripts, so that each line names its own.
    several: bool,
}

/// How tests went so far.
#[derive(Drop)]
struct Tally<'a> {
    status: u8,
    /// How many scripts were run, or listed.
    scripts: usize,
    passed: usize,
    failed: usize,
    /// Of the names of tests that are asked for those that some script has.
    met: Vec<&'a str>,
    junit: Junit,
    coverage: Coverage,
}

impl<'a> Tally<'a> {
    fn note(&mut self, status: u8) {
        self.status = self.status.max(status);
    }

    fn count(&mut self, passed: bool) {
        if passed {
            self.passed = self.passed.saturating_add(1);
        } else {
            self.failed = self.failed.saturating_add(1);
        }
    }
}

/// Runs the tests of scripts, or tells their names, and gives the greatest status.
pub(crate) fn test<F: ExtensionFunctionObject>(
    rt: &HostRuntime,
    extensions: &Extensions<'_, F>,
    arguments: &Arguments<'_>,
) -> Result<u8, Stop> {
    let files = arguments.operands.as_slice();
    let asked = Asked {
        options: &arguments.options,
        several: files.len() > 1,
    };
    match files {
        [file] if is_plain(asked.options) => test_alone(rt, extensions, *file),
        _ => test_files(rt, extensions, asked, files),
    }
}

/// Whether all tests are asked for, and no more than how each went.
fn is_plain(options: &Options<'_>) -> bool {
    let shown_otherwise = options.list || options.quiet || options.coverage;
    options.only.is_empty() && options.junit.is_none() && !shown_otherwise
}

/// Runs the tests of one script, and tells how each went.
fn test_alone<F: ExtensionFunctionObject>(
    rt: &HostRuntime,
    extensions: &Extensions<'_, F>,
    file: &str,
) -> Result<u8, Stop> {
    let script = read_whole_script(rt, file)?;
    tell_oddities(rt, file, &script)?;
    let report = run_script(rt.alloc(), extensions, file, &script)?;
    print(rt, report.text.as_str())?;
    Ok(report.status)
}

fn test_files<'a, F: ExtensionFunctionObject>(
    rt: &HostRuntime,
    extensions: &Extensions<'_, F>,
    asked: Asked<'a>,
    files: &[&str],
) -> Result<u8, Stop> {
    let mut tally = Tally {
        status: FINE,
        scripts: 0,
        passed: 0,
        failed: 0,
        met: Vec::new(rt.alloc()),
        junit: Junit::new(rt.alloc()),
        coverage: Coverage::new(rt.alloc()),
    };
    for file in files {
        test_file(rt, extensions, asked, &mut tally, *file)?;
    }
    tell_unmet(rt, asked, &mut tally);
    if !asked.options.list {
        tell_whole(rt, asked, &mut tally)?;
    }
    Ok(tally.status)
}

fn test_file<'a, F: ExtensionFunctionObject>(
    rt: &HostRuntime,
    extensions: &Extensions<'_, F>,
    asked: Asked<'a>,
    tally: &mut Tally<'a>,
    file: &str,
) -> Result<(), Stop> {
    if asked.options.list {
        return list_file(rt, asked, tally, file);
    }
    match read_whole_script(rt, file) {
        Ok(script) => run_file(rt, extensions, asked, tally, file, &script)?,
        Err(stop) => {
            tally.note(stop.status());
            tally.junit.add_unread(file)?;
        }
    }
    tally.junit.end_suite(rt.alloc(), file)?;
    Ok(())
}

fn run_file<'a, F: ExtensionFunctionObject>(
    rt: &HostRuntime,
    extensions: &Extensions<'_, F>,
    asked: Asked<'a>,
    tally: &mut Tally<'a>,
    file: &str,
    script: &Script,
) -> Result<(), Stop> {
    if let Some(report) = refuse_long(rt.alloc(), file, script)? {
        tally.note(SCRIPT_FAULT);
        tally.junit.add_unread(file)?;
        return print(rt, report.text.as_str());
    }
    begin_script(rt, asked, tally, file, script)?;
    for test in &script.tests {
        if is_asked_for(asked, test) {
            run_one(rt, extensions, asked, tally, file, script, test)?;
        }
    }
    Ok(())
}

/// Tells what is to be known of a script before its tests are run or listed.
fn begin_script<'a>(
    rt: &HostRuntime,
    asked: Asked<'a>,
    tally: &mut Tally<'a>,
    file: &str,
    script: &Script,
) -> Result<(), Stop> {
    tally.scripts = tally.scripts.saturating_add(1);
    meet(asked, tally, script)?;
    if script.tests.is_empty() {
        tally.note(REFUSED);
    }
    tell_oddities(rt, file, script)
}

/// Says which tests of a script have the name of one before, or that there are none.
fn tell_oddities(rt: &HostRuntime, file: &str, script: &Script) -> Result<(), Stop> {
    if script.tests.is_empty() {
        let line = format!(in rt.alloc(); "{file}: no tests")?;
        return say(rt, line.as_str());
    }
    tell_twice(rt, file, script.tests.as_slice())
}

fn run_one<F: ExtensionFunctionObject>(
    rt: &HostRuntime,
    extensions: &Extensions<'_, F>,
    asked: Asked<'_>,
    tally: &mut Tally<'_>,
    file: &str,
    script: &Script,
    test: &Test,
) -> Result<(), Stop> {
    let set_up = script.set_up.as_slice();
    let outcome = if asked.options.coverage {
        let coverage = &mut tally.coverage;
        coverage.run_test(rt.alloc(), extensions, file, set_up, test)?
    } else {
        run_test(rt.alloc(), extensions, file, set_up, test)?
    };
    tally.count(outcome.passed);
    if asked.options.junit.is_some() {
        add_to_suite(&mut tally.junit, file, test, &outcome)?;
    }
    if outcome.passed && asked.options.quiet {
        return Ok(());
    }
    tell_outcome(rt, asked, file, test, &outcome)
}

fn add_to_suite(junit: &mut Junit, file: &str, test: &Test, outcome: &Outcome) -> Result<(), Stop> {
    let name = test.name.as_str();
    if outcome.passed {
        junit.add_passed(file, name)?;
    } else {
        junit.add_failed(file, name, below(outcome))?;
    }
    Ok(())
}

/// What stands below the line that says how a test went.
fn below(outcome: &Outcome) -> &str {
    match outcome.text.split_once('\n') {
        Some((_, lines)) => lines,
        None => "",
    }
}

/// Tells how a test went, and of which script it is where there are several.
fn tell_outcome(
    rt: &HostRuntime,
    asked: Asked<'_>,
    file: &str,
    test: &Test,
    outcome: &Outcome,
) -> Result<(), Stop> {
    if !asked.several {
        return print(rt, outcome.text.as_str());
    }
    let mark = if outcome.passed { "ok  " } else { "FAIL" };
    let text = format!(in rt.alloc(); "{mark} {file}: {}\n{}", test.name.as_str(), below(outcome))?;
    print(rt, text.as_str())
}

/// Tells the names of a script's tests.
fn list_file<'a>(
    rt: &HostRuntime,
    asked: Asked<'a>,
    tally: &mut Tally<'a>,
    file: &str,
) -> Result<(), Stop> {
    let script = match read_script_alone(rt, file) {
        Ok(script) => script,
        Err(stop) => {
            tally.note(stop.status());
            return Ok(());
        }
    };
    begin_script(rt, asked, tally, file, &script)?;
    for test in &script.tests {
        if is_asked_for(asked, test) {
            list_one(rt, asked, file, test)?;
        }
    }
    Ok(())
}

fn list_one(rt: &HostRuntime, asked: Asked<'_>, file: &str, test: &Test) -> Result<(), Stop> {
    if !asked.several {
        return say(rt, test.name.as_str());
    }
    let line = format!(in rt.alloc(); "{file}: {}", test.name.as_str())?;
    say(rt, line.as_str())
}

fn is_asked_for(asked: Asked<'_>, test: &Test) -> bool {
    let only = asked.options.only.as_slice();
    only.is_empty() || only.iter().any(|name| *name == test.name.as_str())
}

/// Keeps the names that are asked for and that a script has.
fn meet<'a>(asked: Asked<'a>, tally: &mut Tally<'a>, script: &Script) -> Result<(), Stop> {
    for name in &asked.options.only {
        if has_test(script, *name) {
            tally.met.push(*name)?;
        }
    }
    Ok(())
}

fn has_test(script: &Script, name: &str) -> bool {
    script.tests.iter().any(|test| test.name.as_str() == name)
}

/// Says which names that are asked for no script has.
fn tell_unmet(rt: &HostRuntime, asked: Asked<'_>, tally: &mut Tally<'_>) {
    for name in &asked.options.only {
        if !tally.met.iter().any(|it| *it == *name) {
            let _ = eprintln!(rt; "cedar_cli: no test is named {name}");
            tally.status = tally.status.max(REFUSED);
        }
    }
}

/// Says which of these tests have the name of one before.
fn tell_twice(rt: &HostRuntime, file: &str, tests: &[Test]) -> Result<(), Stop> {
    let mut lines = BTreeMap::new(rt.alloc());
    for test in tests {
        tell_met(rt, file, &mut lines, test)?;
    }
    Ok(())
}

/// Says in which line a test of this name stands, where one is met before; else keeps the line of this one.
fn tell_met<'t>(
    rt: &HostRuntime,
    file: &str,
    lines: &mut BTreeMap<&'t str, usize>,
    test: &'t Test,
) -> Result<(), Stop> {
    let name = test.name.as_str();
    if let Some(line) = lines.get(&name) {
        let _ = eprintln!(rt;
            "{file}:{}: a test of this name stands in line {line}",
            test.line
        );
        return Ok(());
    }
    lines.insert(name, test.line)?;
    Ok(())
}

/// Tells what holds of all scripts.
fn tell_whole(rt: &HostRuntime, asked: Asked<'_>, tally: &mut Tally<'_>) -> Result<(), Stop> {
    if asked.options.coverage {
        let told = tally.coverage.tell(rt.alloc())?;
        print(rt, told.as_str())?;
    }
    if tally.scripts > 0 {
        let line = format!(in rt.alloc(); "{} passed, {} failed", tally.passed, tally.failed)?;
        say(rt, line.as_str())?;
        if tally.failed > 0 || tally.passed == 0 {
            tally.note(REFUSED);
        }
    }
    match asked.options.junit {
        Some(file) => write_junit(rt, tally, file),
        None => Ok(()),
    }
}

fn write_junit(rt: &HostRuntime, tally: &Tally<'_>, file: &str) -> Result<(), Stop> {
    let xml = tally.junit.written(rt.alloc())?;
    match fs::write(rt, file, xml.as_str()) {
        Ok(()) => Ok(()),
        Err(error) => {
            warn(rt, file, &error);
            Err(Stop::of(&error))
        }
    }
}
