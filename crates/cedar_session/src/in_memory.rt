// A run over bytes in memory, and an answer's line there.
ghost use Rattle.std.specs.Prelude.{◌≡◌, ◌⊎◌, IfOk};
ghost use Rattle.cedar_replies.specs.Replies.{reply_of};
ghost use Rattle.cedar_world.specs.Lines.{line_of};
ghost use Rattle.cedar_session.specs.InMemory.{AnswersAll, AnswersToFault, AnswersAllWithin, AnswersToFaultWithin};

use crate::entry::{DEPTH, answered};
use cedar_extensions::extensions::Extensions;
use cedar_frames::Watched;
use cedar_replies::{Refusal, Reply, put_line};
use std::alloc::{AllocError, Global};
use std::collections::VecDeque;
use std::io::Read;

/// What a run over an input in memory wrote, and the status of its end: 0 where the input ended behind a whole
/// frame, and 2 where a fault ended it.
#[derive(Debug, Drop)]
pub struct Outcome {
    pub status: u8,
    pub text: Vec<u8>,
}

/// Answers the input, frames in memory, as the program does, by a new session. Neither device can fail but for
/// memory: it is refused for memory alone.
pub fn run_input(alloc: Global, input: &[u8]) -> Result<Outcome, AllocError>
    ensures status { IfOk result (λ outcome. (outcome.status ≡ 0) ⊎ (outcome.status ≡ 2)) }
    ensures end { IfOk result (λ outcome. outcome.status ≡ 0 → AnswersAll input.now outcome.text.items) }
    ensures fault { IfOk result (λ outcome. outcome.status ≡ 2 → AnswersToFault input.now outcome.text.items) }
{
    run_input_within(alloc, input, DEPTH)
}

/// Answers the input as [`run_input`] does, by a new session with this limit of depth.
pub fn run_input_within(alloc: Global, input: &[u8], depth: u32) -> Result<Outcome, AllocError>
    ensures status { IfOk result (λ outcome. (outcome.status ≡ 0) ⊎ (outcome.status ≡ 2)) }
    ensures end { IfOk result (λ outcome. outcome.status ≡ 0 → AnswersAllWithin depth input.now outcome.text.items) }
    ensures fault { IfOk result (λ outcome. outcome.status ≡ 2 → AnswersToFaultWithin depth input.now outcome.text.items) }
{
    let extensions = Extensions::all_available(alloc)?;
    let mut reader = Watched::new(input);
    // What is written to it is read back from it.
    let mut writer = Watched::new(VecDeque::new(alloc));
    let status = answered(alloc, &extensions, depth, &mut reader, &mut writer);
    if status != 0 && status != 2 {
        return Err(AllocError);
    }
    let mut text = Vec::new(alloc);
    match writer.read_to_end(&mut text) {
        Ok(_) => Ok(Outcome { status, text }),
        Err(_) => Err(AllocError),
    }
}

/// The line that tells what a command was answered, with its line feed, as a run writes it. It is refused for
/// memory alone.
pub fn line_in_memory(
    alloc: Global,
    outcome: &Result<Reply, Refusal>,
) -> Result<Vec<u8>, AllocError>
    ensures { IfOk result (λ line. line.items ≡ line_of (reply_of outcome.now)) }
{
    let mut writer = Watched::new(VecDeque::new(alloc));
    put_line(&mut writer, outcome);
    if writer.failed() {
        return Err(AllocError);
    }
    let mut line = Vec::new(alloc);
    match writer.read_to_end(&mut line) {
        Ok(_) => Ok(line),
        Err(_) => Err(AllocError),
    }
}
