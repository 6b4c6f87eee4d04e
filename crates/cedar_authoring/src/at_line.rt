// What decides a question that a script asks.
ghost use Rattle.std.specs.Prelude.{◌≡◌, ◌≢◌, ◌⊎◌, ◌++◌, ◌∷◌, All, List, true, false, string_bytes, IfNone, IfOk, IfSome, OnOk};
ghost use Rattle.std.specs.Map.{keys_of};
ghost use Rattle.cedar_replies.specs.declared.refusal.Refusal.TheVariants as refusals;
ghost use Rattle.cedar_replies.specs.Replies.{answer_of};
ghost use Rattle.cedar_session.specs.Sessions.{setting_of, world_of};
ghost use Rattle.cedar_session.specs.Settings.{setting_with};
ghost use Rattle.cedar_messages.specs.Telling.{Adds};
ghost use Rattle.cedar_scripts.specs.declared.script.Step.{Step};
ghost use Rattle.cedar_authoring.specs.Explaining.{status_of};
ghost use Rattle.cedar_authoring.specs.ScriptQuestions.{asks, AsksAt, GoesOn, GoesThrough, IsStopped, IsUnasked, StandsBehind, StopsAmong, TellsAnswer, TellsAsked, TellsExplainedAt, TellsOpen, TellsStandings};
ghost use Rattle.cedar_authoring.specs.Scripts.{HasStep};

use crate::expecting::{is_expected, unless_memory};
use crate::explaining::{answer_line, status_of, tell_names};
use crate::held::Held;
use crate::past::Past;
use crate::wrong::tell_wrong;
use cedar_extensions::objects::ExtensionFunctionObject;
use cedar_held::worlds::policy_sets_are_worlds;
use cedar_refusals::checking::{DEPTH, Report};
use cedar_scripts::{Script, Step};
use cedar_session::{
    Answer, BODY_LIMIT, Command, Extensions, PartialResponse, PolicyID, PolicySet, Refusal, Reply,
    Session, Verb,
};
use std::alloc::{AllocError, Global};

/// A command that asks or tells, and those that stand before it: the set-up, where it is one of a test, and then those of
/// its own part of the script.
#[derive(Clone, Copy, Debug)]
struct Question<'s> {
    set_up: &'s [Step],
    before: &'s [Step],
    step: &'s Step,
}

/// Explains the `ask` or the `tell` that begins at a line of the script that is named so, counted from 1, in a session
/// over this table, with the program's limit of depth, which is given all that stands before it: the commands before the
/// first test, and those before it in its test.
///
/// Told is what [`explained`](crate::explained) tells, of all that the session holds then, in its order, each with its
/// place in the script or in the file that has its text. Behind a `tell` policies stand as they do with all that is told.
///
/// The status is 0 where the question is answered `allow`, 2 where it is `deny`, and 3 where it is `open`. It is 1, and
/// lines tell why, where no `ask` or `tell` begins at the line; where it is refused; or where a command before it is
/// refused that isn't expected to be, or has a text of more than 1,048,576 bytes. Refused for memory alone.
pub fn explained_at<F: ExtensionFunctionObject>(
    alloc: Global,
    extensions: &Extensions<'_, F>,
    name: &str,
    script: &Script,
    line: usize,
) -> Result<Report, AllocError>
    ensures explained { IfOk result (λ report. (report.status ≡ 1 → ⊥)
        → TellsExplainedAt (setting_with F.answers extensions.now DEPTH) script.now line report.status (string_bytes report.text)) }
    ensures unasked { IfOk result (λ report. report.status ≡ 1 → IsUnasked (setting_with F.answers extensions.now DEPTH) script.now line) }
    ensures status { IfOk result (λ report. (report.status ≡ 0) ⊎ (report.status ≡ 1) ⊎ (report.status ≡ 2) ⊎ (report.status ≡ 3)) }
{
    let Some(question) = question_at(script, line) else {
        let text = format!(in alloc;
            "{name}:{line}: no `ask` and no `tell` begins at this line\n"
        )?;
        return Ok(Report { status: 1, text });
    };
    let Ok(mut session) = Session::new(alloc, extensions, DEPTH) else {
        return Err(AllocError);
    };
    let mut past = Past::new(alloc, name)?;
    let stop = go_through(alloc, extensions, &mut session, &mut past, question.set_up)?;
    if let Some(report) = stop {
        return Ok(report);
    }
    let stop = go_through(alloc, extensions, &mut session, &mut past, question.before)?;
    if let Some(report) = stop {
        return Ok(report);
    }
    explain_step(alloc, extensions, &mut session, &mut past, question.step)
}

/// The command that asks or tells at this line.
fn question_at(script: &Script, line: usize) -> Option<Question<'_>>
    ensures none { IfNone result ((s : Step) → HasStep script.now s → AsksAt line s → ⊥) }
    ensures at { IfSome result (λ question. AsksAt line question.step.now) }
    ensures behind { IfSome result (λ question. StandsBehind script.now (question.set_up.now ++ question.before.now) question.step.now) }
{
    if let Some((before, step)) = question_among(script.set_up.as_slice(), line) {
        let (set_up, _) = before.split_at(0);
        return Some(Question {
            set_up,
            before,
            step,
        });
    }
    for test in &script.tests {
        if let Some((before, step)) = question_among(test.steps.as_slice(), line) {
            let set_up = script.set_up.as_slice();
            return Some(Question {
                set_up,
                before,
                step,
            });
        }
    }
    None
}

/// The first of these commands that asks or tells at this line, behind those before it.
fn question_among(steps: &[Step], line: usize) -> Option<(&[Step], &Step)>
    ensures none { IfNone result (All (λ s. AsksAt line s → ⊥) steps.now) }
    ensures at { IfSome result (λ found. AsksAt line found.1.now) }
    ensures behind { IfSome result (λ found. (after : List Step) × (steps.now ≡ found.0.now ++ found.1.now ∷ after)) }
{
    let mut i = 0usize;
    for step in steps {
        if asks_at(step, line) {
            let (before, _) = steps.split_at(i);
            return Some((before, step));
        }
        i += 1;
    }
    None
}

/// Whether this command asks or tells, and begins at the line.
fn asks_at(step: &Step, line: usize) -> bool
    ensures yes { result ≡ true → AsksAt line step.now }
    ensures no { result ≡ false → AsksAt line step.now → ⊥ }
{
    step.line == line && asks(step.verb)
}

fn asks(verb: Verb) -> bool
    ensures { result ≡ asks verb }
{
    match verb {
        Verb::Ask | Verb::Tell => true,
        _ => false,
    }
}

/// Gives a session these commands. A report, of status 1, tells of one that stops it.
fn go_through<'t, F: ExtensionFunctionObject>(
    alloc: Global,
    extensions: &Extensions<'_, F>,
    session: &mut Session<'_, '_, F>,
    past: &mut Past<'t>,
    steps: &'t [Step],
) -> Result<Option<Report>, AllocError>
    ensures through { IfOk result (λ stop. IfNone stop (GoesThrough (setting_of session.old) (world_of session.old) steps.now (world_of session.new))) }
    ensures stopped { IfOk result (λ stop. IfSome stop (λ report. StopsAmong (setting_of session.old) (world_of session.old) steps.now)) }
    ensures status { IfOk result (λ stop. IfSome stop (λ report. report.status ≡ 1)) }
    ensures setting { setting_of session.new ≡ setting_of session.old }
{
    for step in steps {
        let stop = go_on(alloc, extensions, session, past, step)?;
        if let Some(report) = stop {
            return Ok(Some(report));
        }
    }
    Ok(None)
}

/// Gives a session a command. A report, of status 1, tells of it where its text is too long, or it is refused and isn't
/// expected to be.
fn go_on<'t, F: ExtensionFunctionObject>(
    alloc: Global,
    extensions: &Extensions<'_, F>,
    session: &mut Session<'_, '_, F>,
    past: &mut Past<'t>,
    step: &'t Step,
) -> Result<Option<Report>, AllocError>
    ensures on { IfOk result (λ stop. IfNone stop (GoesOn (setting_of session.old) (world_of session.old) step.now (world_of session.new))) }
    ensures stopped { IfOk result (λ stop. IfSome stop (λ report. IsStopped (setting_of session.old) (world_of session.old) step.now)) }
    ensures status { IfOk result (λ stop. IfSome stop (λ report. report.status ≡ 1)) }
    ensures setting { setting_of session.new ≡ setting_of session.old }
{
    if step.body.len() > BODY_LIMIT {
        return Ok(Some(tell_long(alloc, past.script, step)?));
    }
    let outcome = session.apply(&Command::of(step.verb, step.body.as_str()));
    let expected = is_expected(alloc, step, &outcome)?;
    match &outcome {
        Ok(reply) => {
            past.add(alloc, step, reply)?;
            Ok(None)
        }
        Err(refusal) => {
            if expected {
                return Ok(None);
            }
            let report = tell_stop(alloc, extensions, session, past.script, step, *refusal)?;
            Ok(Some(report))
        }
    }
}

fn tell_long(alloc: Global, name: &str, step: &Step) -> Result<Report, AllocError>
    ensures { IfOk result (λ report. report.status ≡ 1) }
{
    let text = format!(in alloc;
        "{name}:{}: the text is longer than 1,048,576 bytes\n",
        step.line
    )?;
    Ok(Report { status: 1, text })
}

/// Tells of a command that is so refused.
fn tell_stop<F: ExtensionFunctionObject>(
    alloc: Global,
    extensions: &Extensions<'_, F>,
    session: &Session<'_, '_, F>,
    name: &str,
    step: &Step,
    refusal: Refusal,
) -> Result<Report, AllocError>
    ensures { IfOk result (λ report. report.status ≡ 1) }
{
    let mut text = String::new(alloc);
    let outcome = Err(refusal);
    tell_wrong(alloc, extensions, session, &mut text, name, step, &outcome)?;
    Ok(Report { status: 1, text })
}

/// Gives a session the command that asks or tells, and explains what it answers.
fn explain_step<'t, F: ExtensionFunctionObject>(
    alloc: Global,
    extensions: &Extensions<'_, F>,
    session: &mut Session<'_, '_, F>,
    past: &mut Past<'t>,
    step: &'t Step,
) -> Result<Report, AllocError>
    ensures explained { IfOk result (λ report. (report.status ≡ 1 → ⊥)
        → TellsAnswer (setting_of session.old) (world_of session.old) step.now report.status (string_bytes report.text)) }
    ensures stopped { IfOk result (λ report. report.status ≡ 1 → IsStopped (setting_of session.old) (world_of session.old) step.now) }
    ensures status { IfOk result (λ report. (report.status ≡ 0) ⊎ (report.status ≡ 1) ⊎ (report.status ≡ 2) ⊎ (report.status ≡ 3)) }
{
    if step.body.len() > BODY_LIMIT {
        return tell_long(alloc, past.script, step);
    }
    match session.apply(&Command::of(step.verb, step.body.as_str())) {
        Ok(Reply::Answer(answer)) => {
            past.add_question(alloc, step)?;
            explain(alloc, extensions, session, past, answer)
        }
        // It asks or tells.
        Ok(_) => Err(AllocError),
        Err(refusal) => stop(alloc, extensions, session, past.script, step, refusal),
    }
}

/// Tells of a question that is so refused, unless that is want of memory.
fn stop<F: ExtensionFunctionObject>(
    alloc: Global,
    extensions: &Extensions<'_, F>,
    session: &Session<'_, '_, F>,
    name: &str,
    step: &Step,
    refusal: Refusal,
) -> Result<Report, AllocError>
    ensures other { IfOk result (λ report. refusal ≢ refusals.Memory) }
    ensures status { IfOk result (λ report. report.status ≡ 1) }
{
    unless_memory(refusal)?;
    tell_stop(alloc, extensions, session, name, step, refusal)
}

/// Tells what the open question is answered, and how what is held stands to it.
fn explain<F: ExtensionFunctionObject>(
    alloc: Global,
    extensions: &Extensions<'_, F>,
    session: &Session<'_, '_, F>,
    past: &mut Past<'_>,
    answer: Answer,
) -> Result<Report, AllocError>
    ensures told { IfOk result (λ report. TellsAsked (setting_of session.now) (world_of session.now) (answer_of answer) (string_bytes report.text)) }
    ensures status { IfOk result (λ report. report.status ≡ status_of (answer_of answer).decision) }
{
    let status = status_of(answer.decision);
    let mut text = answer_line(alloc, answer)?;
    tell_asked(alloc, extensions, &mut text, session, past)?;
    Ok(Report { status, text })
}

/// Tells how what is held stands to the open question.
fn tell_asked<F: ExtensionFunctionObject>(
    alloc: Global,
    extensions: &Extensions<'_, F>,
    told: &mut String,
    session: &Session<'_, '_, F>,
    past: &mut Past<'_>,
) -> Result<(), AllocError>
    ensures { OnOk result (Adds (TellsOpen (setting_of session.now) (world_of session.now)) (string_bytes told.old) (string_bytes told.new)) }
{
    let Some(first) = session.response() else {
        return Err(AllocError);
    };
    match past.retold(alloc, extensions, session.entities(), first)? {
        Some(response) => tell_standings(alloc, told, session, past, &response),
        None => tell_standings(alloc, told, session, past, first),
    }
}

/// Tells how what is held stands by a response, and the names to tell.
fn tell_standings<F: ExtensionFunctionObject>(
    alloc: Global,
    told: &mut String,
    session: &Session<'_, '_, F>,
    past: &Past<'_>,
    response: &PartialResponse,
) -> Result<(), AllocError>
    ensures { OnOk result (Adds (TellsStandings (world_of session.now) response.now) (string_bytes told.old) (string_bytes told.new)) }
{
    policy_sets_are_worlds();
    let held = Held::of(alloc, session, response)?;
    let ids = ids_held(alloc, session.policies())?;
    held.tell_each(alloc, told, past, ids.as_slice())?;
    tell_names(alloc, told, session, response)
}

/// The ids of what is held, in its order.
fn ids_held(alloc: Global, policies: &PolicySet) -> Result<Vec<PolicyID>, AllocError>
    ensures { IfOk result (λ ids. ids.items ≡ keys_of policies.now) }
{
    let mut ids = Vec::new(alloc);
    for bound in policies.values() {
        ids.push(bound.id().clone()?)?;
    }
    Ok(ids)
}
