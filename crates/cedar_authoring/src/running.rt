// The tests of a script, run in sessions.
ghost use Rattle.std.specs.Prelude.{◌≡◌, ◌⊎◌, ◌++◌, ◌&&◌, All, false, string_bytes, IfNone, IfOk, IfSome, OnOk};
ghost use Rattle.cedar_session.specs.Settings.{setting_with};
ghost use Rattle.cedar_session.specs.Sessions.{setting_of, world_of};
ghost use Rattle.cedar_messages.specs.Telling.{Adds, AreBelow};
ghost use Rattle.cedar_authoring.specs.Scripts.{AreAnswered, Fits, FitsCommand, IsAnswered, Passes, TellsLong, TellsScript, TellsTest, Went};

use crate::expecting::{first_long, is_expected, long_among, tell_test};
use crate::reasons::tell_reasons;
use crate::witness::Witness;
use crate::wrong::tell_wrong;
use cedar_extensions::objects::ExtensionFunctionObject;
use cedar_messages::telling::push_indented;
use cedar_refusals::checking::{DEPTH, Report};
use cedar_scripts::{Script, Step, Test};
use cedar_session::{Command, Extensions, Refusal, Reply, Session};
use std::alloc::{AllocError, Global};

/// How a test went, and what is told of it: `ok   NAME`, or `FAIL NAME` and lines below it, which begin with a space.
#[derive(Debug, Drop)]
pub struct Outcome {
    pub passed: bool,
    pub text: String,
}

/// Runs the tests of a script, named so in what is told.
///
/// Each test runs as [`run_test`] says. Told is each, and last how many passed and failed. The status is 0 where at least
/// one passed and none failed, and else 1. It is 2 where the text of a command is longer than 1,048,576 bytes; then no
/// test runs. Refused for memory alone.
pub fn run_script<F: ExtensionFunctionObject>(
    alloc: Global,
    extensions: &Extensions<'_, F>,
    name: &str,
    script: &Script,
) -> Result<Report, AllocError>
    ensures long { IfOk result (λ report. report.status ≡ 2 → Fits script.now → ⊥) }
    ensures told { IfOk result (λ report. report.status ≡ 2 → TellsLong name.now script.now (string_bytes report.text)) }
    ensures ran { IfOk result (λ report. (report.status ≡ 2 → ⊥)
        → TellsScript (setting_with F.answers extensions.now DEPTH) script.now report.status (string_bytes report.text)) }
    ensures status { IfOk result (λ report. (report.status ≡ 0) ⊎ (report.status ≡ 1) ⊎ (report.status ≡ 2)) }
{
    match refuse_long(alloc, name, script)? {
        Some(report) => Ok(report),
        None => run_tests(alloc, extensions, name, script),
    }
}

/// The report, of status 2, where the text of some command of a script is longer than 1,048,576 bytes; it tells the
/// command's line. None where each text fits. Refused for memory alone.
pub fn refuse_long(alloc: Global, name: &str, script: &Script) -> Result<Option<Report>, AllocError>
    ensures fits { IfOk result (λ refused. IfNone refused (Fits script.now)) }
    ensures long { IfOk result (λ refused. IfSome refused (λ report. Fits script.now → ⊥)) }
    ensures told { IfOk result (λ refused. IfSome refused (λ report. TellsLong name.now script.now (string_bytes report.text))) }
    ensures status { IfOk result (λ refused. IfSome refused (λ report. report.status ≡ 2)) }
{
    let Some(step) = first_long(script) else {
        return Ok(None);
    };
    let text = format!(in alloc;
        "{name}:{}: the text is longer than 1,048,576 bytes\n",
        step.line
    )?;
    Ok(Some(Report { status: 2, text }))
}

fn run_tests<F: ExtensionFunctionObject>(
    alloc: Global,
    extensions: &Extensions<'_, F>,
    name: &str,
    script: &Script,
) -> Result<Report, AllocError>
    ensures ran { IfOk result (λ report. TellsScript (setting_with F.answers extensions.now DEPTH) script.now report.status (string_bytes report.text)) }
    ensures status { IfOk result (λ report. (report.status ≡ 0) ⊎ (report.status ≡ 1)) }
{
    let mut told = String::new(alloc);
    let mut passed = 0usize;
    let mut failed = 0usize;
    for test in &script.tests {
        let outcome = run_test(alloc, extensions, name, script.set_up.as_slice(), test)?;
        told.push_str(outcome.text.as_str())?;
        passed += usize::from(outcome.passed);
        failed += usize::from(!outcome.passed);
    }
    let summary = format!(in alloc; "{passed} passed, {failed} failed\n")?;
    told.push_str(summary.as_str())?;
    let status = if passed > 0 && failed == 0 { 0 } else { 1 };
    Ok(Report { status, text: told })
}

/// Runs a test of the script that is named so, in a session of its own over this table, with the program's limit of
/// depth, which is given the commands before the first test and then those of the test.
///
/// It passes where each is answered as is expected: where nothing is, by no refusal, and else by a line that begins with
/// the words and ends there or goes on behind a space. Where a policy errs in an answer, the words must be the whole line.
/// Told is `ok   TEST`, or `FAIL TEST` with what was answered otherwise below, why policies err, and that a question that
/// is answered `open` has no context. A test with a text of more than 1,048,576 bytes fails and doesn't run. Refused for
/// memory alone.
pub fn run_test<F: ExtensionFunctionObject>(
    alloc: Global,
    extensions: &Extensions<'_, F>,
    name: &str,
    set_up: &[Step],
    test: &Test,
) -> Result<Outcome, AllocError>
    ensures { IfOk result (λ outcome. Went (setting_with F.answers extensions.now DEPTH) set_up.now test.now outcome.passed (string_bytes outcome.text)) }
{
    let mut witness = Witness::of(alloc, name, None)?;
    run_witnessed(alloc, extensions, &mut witness, set_up, test)
}

/// The same of a test that a witness follows.
pub(crate) fn run_witnessed<'t, F: ExtensionFunctionObject>(
    alloc: Global,
    extensions: &Extensions<'_, F>,
    witness: &mut Witness<'_, 't>,
    set_up: &'t [Step],
    test: &'t Test,
) -> Result<Outcome, AllocError>
    ensures { IfOk result (λ outcome. Went (setting_with F.answers extensions.now DEPTH) set_up.now test.now outcome.passed (string_bytes outcome.text)) }
{
    let mut text = String::new(alloc);
    if let Some(step) = long_of(set_up, test.steps.as_slice()) {
        fail_long(alloc, &mut text, witness.script, test, step)?;
        return Ok(Outcome {
            passed: false,
            text,
        });
    }
    let passed = run_fitting(alloc, extensions, &mut text, witness, set_up, test)?;
    Ok(Outcome { passed, text })
}

/// The first of these commands whose text is longer than one may be.
fn long_of<'s>(set_up: &'s [Step], steps: &'s [Step]) -> Option<&'s Step>
    ensures none { IfNone result (All FitsCommand set_up.now × All FitsCommand steps.now) }
    ensures some { IfSome result (λ step. (All FitsCommand set_up.now × All FitsCommand steps.now) → ⊥) }
{
    match long_among(set_up) {
        Some(step) => Some(step),
        None => long_among(steps),
    }
}

/// Tells of a test that it fails for the text of this command.
fn fail_long(
    alloc: Global,
    told: &mut String,
    name: &str,
    test: &Test,
    step: &Step,
) -> Result<(), AllocError>
    ensures { OnOk result (Adds (TellsTest (string_bytes test.now.name) false) (string_bytes told.old) (string_bytes told.new)) }
{
    let long = format!(in alloc;
        "{name}:{}: the text is longer than 1,048,576 bytes",
        step.line
    )?;
    let mut wrong = String::new(alloc);
    push_indented(&mut wrong, long.as_str())?;
    tell_test(told, test.name.as_str(), false, wrong.as_str())
}

/// Runs a test in a session of its own, tells of it, and answers whether it passed.
fn run_fitting<'t, F: ExtensionFunctionObject>(
    alloc: Global,
    extensions: &Extensions<'_, F>,
    told: &mut String,
    witness: &mut Witness<'_, 't>,
    set_up: &'t [Step],
    test: &'t Test,
) -> Result<bool, AllocError>
    requires set_up { All FitsCommand set_up.now }
    requires test { All FitsCommand test.now.steps.items }
    ensures passes { IfOk result (λ passed. Passes (setting_with F.answers extensions.now DEPTH) (set_up.now ++ test.now.steps.items) passed) }
    ensures told { IfOk result (λ passed. Adds (TellsTest (string_bytes test.now.name) passed) (string_bytes told.old) (string_bytes told.new)) }
{
    let Ok(mut session) = Session::new(alloc, extensions, DEPTH) else {
        return Err(AllocError);
    };
    let mut wrong = String::new(alloc);
    let before = run_steps(alloc, extensions, &mut session, &mut wrong, witness, set_up)?;
    let steps = test.steps.as_slice();
    let after = run_steps(alloc, extensions, &mut session, &mut wrong, witness, steps)?;
    witness.end(alloc, &session)?;
    let passed = both(before, after);
    tell_test(told, test.name.as_str(), passed, wrong.as_str())?;
    Ok(passed)
}

/// Gives a session these commands, tells what is answered otherwise than expected, and answers whether nothing is.
fn run_steps<'t, F: ExtensionFunctionObject>(
    alloc: Global,
    extensions: &Extensions<'_, F>,
    session: &mut Session<'_, '_, F>,
    wrong: &mut String,
    witness: &mut Witness<'_, 't>,
    steps: &'t [Step],
) -> Result<bool, AllocError>
    requires fits { All FitsCommand steps.now }
    ensures answered { IfOk result (λ fine. AreAnswered (setting_of session.old) (world_of session.old) steps.now (world_of session.new) fine) }
    ensures told { OnOk result (Adds AreBelow (string_bytes wrong.old) (string_bytes wrong.new)) }
    ensures setting { setting_of session.new ≡ setting_of session.old }
{
    let mut fine = true;
    for step in steps {
        let expected = run_step(alloc, extensions, session, wrong, witness, step)?;
        fine = both(fine, expected);
    }
    Ok(fine)
}

fn both(a: bool, b: bool) -> bool
    ensures { result ≡ (a && b) }
{
    a && b
}

/// Gives a session a command, and answers whether it is answered as is expected; tells of it where it isn't.
fn run_step<'t, F: ExtensionFunctionObject>(
    alloc: Global,
    extensions: &Extensions<'_, F>,
    session: &mut Session<'_, '_, F>,
    wrong: &mut String,
    witness: &mut Witness<'_, 't>,
    step: &'t Step,
) -> Result<bool, AllocError>
    requires fits { FitsCommand step.now }
    ensures answered { IfOk result (λ fine. IsAnswered (setting_of session.old) (world_of session.old) step.now (world_of session.new) fine) }
    ensures told { OnOk result (Adds AreBelow (string_bytes wrong.old) (string_bytes wrong.new)) }
    ensures setting { setting_of session.new ≡ setting_of session.old }
{
    let outcome = session.apply(&Command::of(step.verb, step.body.as_str()));
    witness.see(alloc, extensions, session, step, &outcome)?;
    let fine = is_expected(alloc, step, &outcome)?;
    if fine {
        return Ok(fine);
    }
    let name = witness.script;
    tell_unexpected(alloc, extensions, session, wrong, name, step, &outcome)?;
    Ok(fine)
}

/// Tells of a command that isn't answered as is expected, and why policies err in its answer.
fn tell_unexpected<F: ExtensionFunctionObject>(
    alloc: Global,
    extensions: &Extensions<'_, F>,
    session: &Session<'_, '_, F>,
    wrong: &mut String,
    name: &str,
    step: &Step,
    outcome: &Result<Reply, Refusal>,
) -> Result<(), AllocError>
    ensures { OnOk result (Adds AreBelow (string_bytes wrong.old) (string_bytes wrong.new)) }
{
    tell_wrong(alloc, extensions, session, wrong, name, step, outcome)?;
    if let Ok(Reply::Answer(answer)) = outcome {
        tell_reasons(alloc, session, wrong, answer)?;
    }
    Ok(())
}
