// What commands must be answered, and whether they are.
ghost use Rattle.std.specs.Prelude.{◌≡◌, ◌≢◌, ◌==◌, ◌&&◌, ◌||◌, All, length, not, string_bytes, IfOk, IfNone, IfSome, OnOk};
ghost use Rattle.std.specs.FinMap as finite;
ghost use Rattle.std.specs.List.{Contains};
ghost use Rattle.cedar_replies.specs.Replies.{accepted, reply_of};
ghost use Rattle.cedar_replies.specs.declared.refusal.Refusal.TheVariants as refusals;
ghost use Rattle.cedar_messages.specs.Telling.{Adds, AreBelow};
ghost use Rattle.cedar_authoring.specs.Scripts.{Fits, FitsCommand, HasStep, IsFed, TellsTest, answers_step, errs, is_whole, says};

use cedar_scripts::{Script, Step};
use cedar_session::{BODY_LIMIT, Erring, Refusal, Reply, line_in_memory};
use std::alloc::{AllocError, Global};

/// Whether a command is answered as is expected.
pub(crate) fn is_expected(
    alloc: Global,
    step: &Step,
    outcome: &Result<Reply, Refusal>,
) -> Result<bool, AllocError>
    ensures fine { IfOk result (λ fine. fine ≡ answers_step step.now (reply_of outcome.now)) }
    ensures fed { IfOk result (λ fine. IsFed (reply_of outcome.now)) }
{
    had_memory(outcome)?;
    let Some(words) = &step.expected else {
        return Ok(outcome.is_ok());
    };
    let line = line_in_memory(alloc, outcome)?;
    Ok(says_enough(words.as_bytes(), line.as_slice(), errs(outcome)))
}

/// Whether these words say the line, and all of it where policies err.
fn says_enough(words: &[u8], line: &[u8], errs: bool) -> bool
    ensures { result ≡ (says words.now line.now && (not errs || is_whole words.now line.now)) }
{
    says(words, line) && (!errs || is_whole(words, line))
}

/// Whether it is an answer by which some policy errs.
fn errs(outcome: &Result<Reply, Refusal>) -> bool
    ensures { result ≡ errs (reply_of outcome.now) }
{
    match outcome {
        Ok(reply) => shows_errors(reply),
        Err(_) => false,
    }
}

fn shows_errors(reply: &Reply) -> bool
    ensures { result ≡ errs (accepted reply.now) }
{
    match reply {
        Reply::Answer(answer) => is_any(&answer.erring),
        Reply::Ids(_) | Reply::Done => false,
    }
}

fn is_any(erring: &Erring) -> bool
    ensures { result ≡ not (length (finite.entries erring.now) == 0) }
{
    !erring.as_slice().is_empty()
}

/// Whether nothing but its line feed stands in the line behind the words with which it begins.
fn is_whole(words: &[u8], line: &[u8]) -> bool
    ensures { result ≡ is_whole words.now line.now }
{
    line.len() == words.len() + 1
}

/// Refused where a command is refused for want of memory.
fn had_memory(outcome: &Result<Reply, Refusal>) -> Result<(), AllocError>
    ensures { OnOk result (IsFed (reply_of outcome.now)) }
{
    match outcome {
        Ok(_) => Ok(()),
        Err(refusal) => unless_memory(*refusal),
    }
}

/// Refused where this is want of memory.
pub(crate) fn unless_memory(refusal: Refusal) -> Result<(), AllocError>
    ensures { OnOk result (refusal ≢ refusals.Memory) }
{
    match refusal {
        Refusal::Memory => Err(AllocError),
        _ => Ok(()),
    }
}

/// Whether the line begins with these words, and a space or its line feed stands behind them.
fn says(words: &[u8], line: &[u8]) -> bool
    ensures { result ≡ says words.now line.now }
{
    line.starts_with(words)
        && match line.get(words.len()) {
            Some(b) => *b == b'\n' || *b == b' ',
            None => false,
        }
}

/// The first command whose text is longer than one may be.
pub(crate) fn first_long(script: &Script) -> Option<&Step>
    ensures none { IfNone result (Fits script.now) }
    ensures long { IfSome result (λ step. FitsCommand step.now → ⊥) }
    ensures among { IfSome result (λ step. HasStep script.now step.now) }
    ensures some { IfSome result (λ step. Fits script.now → ⊥) }
{
    if let Some(step) = long_among(script.set_up.as_slice()) {
        return Some(step);
    }
    for test in &script.tests {
        if let Some(step) = long_among(test.steps.as_slice()) {
            return Some(step);
        }
    }
    None
}

pub(crate) fn long_among(steps: &[Step]) -> Option<&Step>
    ensures none { IfNone result (All FitsCommand steps.now) }
    ensures long { IfSome result (λ step. FitsCommand step.now → ⊥) }
    ensures among { IfSome result (λ step. Contains steps.now step.now) }
    ensures some { IfSome result (λ step. All FitsCommand steps.now → ⊥) }
{
    for step in steps {
        if step.body.len() > BODY_LIMIT {
            return Some(step);
        }
    }
    None
}

/// Tells whether a test passed, and what went wrong where it didn't.
pub(crate) fn tell_test(
    told: &mut String,
    name: &str,
    passed: bool,
    wrong: &str,
) -> Result<(), AllocError>
    ensures { AreBelow wrong.now → OnOk result (Adds (TellsTest name.now passed) (string_bytes told.old) (string_bytes told.new)) }
{
    if passed {
        told.push_str("ok   ")?;
        told.push_str(name)?;
        told.push_str("\n")?;
        return Ok(());
    }
    told.push_str("FAIL ")?;
    told.push_str(name)?;
    told.push_str("\n")?;
    told.push_str(wrong)?;
    Ok(())
}
