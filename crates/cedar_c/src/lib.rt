//! Sessions for callers in C, and in languages that call C.
//!
//! [`cedar_open`] or [`cedar_open_standard`], [`cedar_command`], [`cedar_answer`] and [`cedar_close`] keep a session
//! behind a handle of the caller's, and [`cedar_why`] says what is wrong with a body. [`cedar_command_json`],
//! [`cedar_answer_json`] and [`cedar_why_json`] do the same with JSON (`docs/JSON.md`). [`cedar_run`] does what the program
//! `cedar_session` does, frames in and answer lines out, and keeps nothing. `include/cedar.h` declares them, and
//! `docs/C.md` says how a program is built with them.
#![tactic(auto)]

mod copying;
mod handle;
mod json_words;
mod loose;
mod open_session;

ghost use Rattle.std.specs.Prelude.{◌≡◌, ◌≢◌, ◌↔◌, ◌⊎◌, ◌<◌, length, take, drop, None, IsSome, IsSomeAnd};
ghost use Rattle.cedar_session.specs.InMemory.{AnswersAll, AnswersToFault, AnswersInBytes, AnswersAllWithin, AnswersToFaultWithin, AnswersInBytesWithin};
ghost use Rattle.cedar_c.specs.Json.{IsJsonWord, DoesJson, TellsAnswer, TellsAnswerIn, TellsJsonWhy, TellsJsonWhyIn};
ghost use Rattle.cedar_c.specs.Opened.{IsNewWithin, IsNewStandardWithin, IsCommand, Does, TellsWhy, TellsWhyIn, answer_line};

use cedar_session::run_input_within;
use copying::copy_out;
use handle::Handle;
use json_words::why_text;
use open_session::OpenSession;
use std::alloc::Global;

/// The limit of depth of the program.
const DEPTH: u32 = 256;

/// The status where all is done.
const DONE: u8 = 0;

/// The status of a verb and a body that are no command.
const NO_COMMAND: u8 = 2;

/// The status where there is no memory.
const NO_MEMORY: u8 = 4;

/// The status where the text has no room in the output.
const NO_ROOM: u8 = 5;

/// The status where a handle has no session.
const NOT_OPEN: u8 = 6;

/// The status where a handle has a session already.
const IS_OPEN: u8 = 7;

/// Opens a handle by a new session without policies and entities, which knows all extensions and has this
/// limit of depth.
///
/// The status is 0 where that is done, 4 where there was no memory, and 7 where the handle is open, and then
/// its session stays.
#[unsafe(no_mangle)]
pub extern "C" fn cedar_open(alloc: Global, session: &mut Handle, depth: u32) -> u8
    ensures status { (result ≡ 0) ⊎ (result ≡ 4) ⊎ (result ≡ 7) }
    ensures opened { result ≡ 0 → IsSomeAnd session.new.held (λ new. IsNewWithin depth new) }
    ensures is_open { (result ≡ 7) ↔ IsSome session.old.held }
    ensures untouched { result ≢ 0 → session.new.held ≡ session.old.held }
{
    if let Some(open) = session.take(alloc) {
        session.put(open);
        return IS_OPEN;
    }
    let Ok(open) = OpenSession::new(alloc, depth) else {
        return NO_MEMORY;
    };
    match Box::new(alloc, open) {
        Ok(open) => {
            session.put(open);
            DONE
        }
        Err(_) => NO_MEMORY,
    }
}

/// Opens a handle as [`cedar_open`] does, by a session whose texts may call the functions of Cedar's extension
/// types too. (Cedar language reference, "Extension types".)
#[unsafe(no_mangle)]
pub extern "C" fn cedar_open_standard(alloc: Global, session: &mut Handle, depth: u32) -> u8
    ensures status { (result ≡ 0) ⊎ (result ≡ 4) ⊎ (result ≡ 7) }
    ensures opened { result ≡ 0 → IsSomeAnd session.new.held (λ new. IsNewStandardWithin depth new) }
    ensures is_open { (result ≡ 7) ↔ IsSome session.old.held }
    ensures untouched { result ≢ 0 → session.new.held ≡ session.old.held }
{
    if let Some(open) = session.take(alloc) {
        session.put(open);
        return IS_OPEN;
    }
    let Ok(open) = OpenSession::standard(alloc, depth) else {
        return NO_MEMORY;
    };
    match Box::new(alloc, open) {
        Ok(open) => {
            session.put(open);
            DONE
        }
        Err(_) => NO_MEMORY,
    }
}

/// Does the command of a verb and a body, as that of a frame is done. What it is answered stays with the
/// handle until the next command, and [`cedar_answer`] writes the line that tells it.
///
/// The status is 0 where that is done, also where the command is refused, 2 where no verb is spelled so or
/// the body is longer than 1,048,576 bytes, and 6 where the handle isn't open; then nothing changes.
#[unsafe(no_mangle)]
pub extern "C" fn cedar_command(alloc: Global, session: &mut Handle, verb: &[u8], body: &[u8]) -> u8
    ensures status { (result ≡ 0) ⊎ (result ≡ 2) ⊎ (result ≡ 6) }
    ensures done { result ≡ 0 → IsSomeAnd session.old.held (λ old. IsSomeAnd session.new.held (λ new. Does old verb.now body.now new)) }
    ensures no_command { result ≡ 2 → IsCommand verb.now body.now → ⊥ }
    ensures not_open { (result ≡ 6) ↔ (session.old.held ≡ None) }
    ensures untouched { result ≢ 0 → session.new.held ≡ session.old.held }
{
    let Some(mut open) = session.take(alloc) else {
        return NOT_OPEN;
    };
    let is_done = open.command(verb, body);
    session.put(open);
    if is_done { DONE } else { NO_COMMAND }
}

/// Writes the line that tells what the last command of a handle was answered, with its line feed, to the front
/// of the output; `written` says how long it is. Before the first command it is empty. The session stays as it
/// is, so that a call may be repeated.
///
/// The status is 0 where that is done, 4 where there was no memory, 5 where the output has no room for the
/// line, and 6 where the handle isn't open; then nothing is written. At 5 `written` says how many bytes the
/// line takes.
#[unsafe(no_mangle)]
pub extern "C" fn cedar_answer(
    alloc: Global,
    session: &mut Handle,
    output: &mut [u8],
    written: &mut usize,
) -> u8
    ensures status { (result ≡ 0) ⊎ (result ≡ 4) ⊎ (result ≡ 5) ⊎ (result ≡ 6) }
    ensures kept { session.new.held ≡ session.old.held }
    ensures line { result ≡ 0 → IsSomeAnd session.old.held (λ held. take written.new output.new ≡ answer_line held) }
    ensures rest { drop written.new output.new ≡ drop written.new output.old }
    ensures not_open { (result ≡ 6) ↔ (session.old.held ≡ None) }

    // Without memory, or room, nothing is written.
    ensures no_room { (result ≡ 5) ↔ (length output.old < written.new) }
    ensures needs { result ≡ 5 → IsSomeAnd session.old.held (λ held. length (answer_line held) ≡ written.new) }
    ensures nothing { (result ≡ 4) ⊎ (result ≡ 6) → written.new ≡ 0 }
    ensures unwritten { result ≢ 0 → output.new ≡ output.old }
{
    *written = 0;
    let Some(open) = session.take(alloc) else {
        return NOT_OPEN;
    };
    let line = open.line(alloc);
    session.put(open);
    let Ok(line) = line else {
        return NO_MEMORY;
    };
    *written = line.len();
    if !copy_out(line.as_slice(), output) {
        return NO_ROOM;
    }
    DONE
}

/// Writes why the session of a handle refuses the command of a verb and a body, which isn't done, to the front of the
/// output: a list of JSON objects on one line, of which each has a fault of the body (`faults_json`), and which is empty
/// where the command isn't refused, or no place of the body shows the reason. `written` says how long it is. The session
/// stays as it is, and so does the line of its last command.
///
/// The status is 0 where that is done, 2 where no verb is spelled so or the body is longer than 1,048,576 bytes, 4 where
/// there was no memory, 5 where the output has no room for the list, and 6 where the handle isn't open; then nothing is
/// written. At 5 `written` says how many bytes the list takes.
#[unsafe(no_mangle)]
pub extern "C" fn cedar_why(
    alloc: Global,
    session: &mut Handle,
    verb: &[u8],
    body: &[u8],
    output: &mut [u8],
    written: &mut usize,
) -> u8
    ensures status { (result ≡ 0) ⊎ (result ≡ 2) ⊎ (result ≡ 4) ⊎ (result ≡ 5) ⊎ (result ≡ 6) }
    ensures kept { session.new.held ≡ session.old.held }
    ensures list { result ≡ 0 → IsSomeAnd session.old.held (λ held. TellsWhy held verb.now body.now (take written.new output.new)) }
    ensures rest { drop written.new output.new ≡ drop written.new output.old }
    ensures no_command { result ≡ 2 → IsCommand verb.now body.now → ⊥ }
    ensures not_open { (result ≡ 6) ↔ (session.old.held ≡ None) }

    // Without memory, or room, nothing is written.
    ensures no_room { (result ≡ 5) ↔ (length output.old < written.new) }
    ensures needs { result ≡ 5 → IsSomeAnd session.old.held (λ held. TellsWhyIn held verb.now body.now written.new) }
    ensures nothing { (result ≡ 2) ⊎ (result ≡ 4) ⊎ (result ≡ 6) → written.new ≡ 0 }
    ensures unwritten { result ≢ 0 → output.new ≡ output.old }
{
    *written = 0;
    let Some(open) = session.take(alloc) else {
        return NOT_OPEN;
    };
    let told = open.why(alloc, verb, body);
    session.put(open);
    let json = match told {
        Err(_) => return NO_MEMORY,
        Ok(None) => return NO_COMMAND,
        Ok(Some(json)) => json,
    };
    *written = json.len();
    if !copy_out(json.as_slice(), output) {
        return NO_ROOM;
    }
    DONE
}

/// Does the command of a verb of which a text of JSON says the body: the session is given the Cedar text that says just
/// the same (`answer_json` of `cedar_calls`). What it is answered stays with the handle until the next command.
/// [`cedar_answer`] writes its line, `refused Json` where the JSON says no such body, or is no UTF-8, and `refused Long`
/// where that text has more than 1,048,576 bytes. Verbs are spelled as those of frames but for `load`, which takes no JSON,
/// and for `ask-partial`, a question that may leave parts open.
///
/// The status is 0 where that is done, also where the command is refused, 2 where no verb is spelled so, and 6 where the
/// handle isn't open; then nothing changes.
#[unsafe(no_mangle)]
pub extern "C" fn cedar_command_json(
    alloc: Global,
    session: &mut Handle,
    verb: &[u8],
    json: &[u8],
) -> u8
    ensures status { (result ≡ 0) ⊎ (result ≡ 2) ⊎ (result ≡ 6) }
    ensures done { result ≡ 0 → IsSomeAnd session.old.held (λ old. IsSomeAnd session.new.held (λ new. DoesJson old verb.now json.now new)) }
    ensures no_command { result ≡ 2 → IsJsonWord verb.now → ⊥ }
    ensures not_open { (result ≡ 6) ↔ (session.old.held ≡ None) }
    ensures untouched { result ≢ 0 → session.new.held ≡ session.old.held }
{
    let Some(mut open) = session.take(alloc) else {
        return NOT_OPEN;
    };
    let is_known = open.command_json(alloc, verb, json);
    session.put(open);
    if is_known { DONE } else { NO_COMMAND }
}

/// Writes the answer to the last command of a handle as JSON, as Cedar's `isAuthorized` responds, to the front of the output:
/// the decision, and the policies that are its reason and those that err. Where that command was no question, or none that was
/// accepted, the text is empty. `written` says how long it is. The session stays as it is, so that a call may be repeated.
///
/// The status is 0 where that is done, 4 where there was no memory, 5 where the output has no room for the text, and 6 where the
/// handle isn't open; then nothing is written. At 5 `written` says how many bytes the text takes.
#[unsafe(no_mangle)]
pub extern "C" fn cedar_answer_json(
    alloc: Global,
    session: &mut Handle,
    output: &mut [u8],
    written: &mut usize,
) -> u8
    ensures status { (result ≡ 0) ⊎ (result ≡ 4) ⊎ (result ≡ 5) ⊎ (result ≡ 6) }
    ensures kept { session.new.held ≡ session.old.held }
    ensures answer { result ≡ 0 → IsSomeAnd session.old.held (λ held. TellsAnswer held (take written.new output.new)) }
    ensures rest { drop written.new output.new ≡ drop written.new output.old }
    ensures not_open { (result ≡ 6) ↔ (session.old.held ≡ None) }

    // Without memory, or room, nothing is written.
    ensures no_room { (result ≡ 5) ↔ (length output.old < written.new) }
    ensures needs { result ≡ 5 → IsSomeAnd session.old.held (λ held. TellsAnswerIn held written.new) }
    ensures nothing { (result ≡ 4) ⊎ (result ≡ 6) → written.new ≡ 0 }
    ensures unwritten { result ≢ 0 → output.new ≡ output.old }
{
    *written = 0;
    let Some(open) = session.take(alloc) else {
        return NOT_OPEN;
    };
    let told = open.answer_json(alloc);
    session.put(open);
    let Ok(text) = told else {
        return NO_MEMORY;
    };
    *written = text.len();
    if !copy_out(text.as_bytes(), output) {
        return NO_ROOM;
    }
    DONE
}

/// Writes why JSON says no body of the command of a verb to the front of the output: a list on one line, of which an object has the
/// first fault of the JSON, and which is empty where the JSON says such a body. `written` says how long it is.
///
/// The status is 0 where that is done, 2 where no verb that takes JSON is spelled so, 4 where there was no memory, and 5 where the
/// output has no room for the list; then nothing is written. At 5 `written` says how many bytes the list takes.
#[unsafe(no_mangle)]
pub extern "C" fn cedar_why_json(
    alloc: Global,
    verb: &[u8],
    json: &[u8],
    output: &mut [u8],
    written: &mut usize,
) -> u8
    ensures status { (result ≡ 0) ⊎ (result ≡ 2) ⊎ (result ≡ 4) ⊎ (result ≡ 5) }
    ensures list { result ≡ 0 → TellsJsonWhy verb.now json.now (take written.new output.new) }
    ensures rest { drop written.new output.new ≡ drop written.new output.old }
    ensures no_command { result ≡ 2 → IsJsonWord verb.now → ⊥ }

    // Without memory, or room, nothing is written.
    ensures no_room { (result ≡ 5) ↔ (length output.old < written.new) }
    ensures needs { result ≡ 5 → TellsJsonWhyIn verb.now json.now written.new }
    ensures nothing { (result ≡ 2) ⊎ (result ≡ 4) → written.new ≡ 0 }
    ensures unwritten { result ≢ 0 → output.new ≡ output.old }
{
    *written = 0;
    let list = match why_text(alloc, verb, json) {
        Err(_) => return NO_MEMORY,
        Ok(None) => return NO_COMMAND,
        Ok(Some(list)) => list,
    };
    *written = list.len();
    if !copy_out(list.as_slice(), output) {
        return NO_ROOM;
    }
    DONE
}

/// Closes a handle, and gives back what its session takes. A closed handle may be opened again.
///
/// The status is 0 where that is done, and 6 where the handle isn't open.
#[unsafe(no_mangle)]
pub extern "C" fn cedar_close(alloc: Global, session: &mut Handle) -> u8
    ensures status { (result ≡ 0) ⊎ (result ≡ 6) }
    ensures closed { session.new.held ≡ None }
    ensures not_open { (result ≡ 6) ↔ (session.old.held ≡ None) }
{
    match session.take(alloc) {
        Some(_) => DONE,
        None => NOT_OPEN,
    }
}

/// Answers all frames of the input by a new session, without policies and entities, as the program
/// `cedar_session` does. The text of the answers stands at the front of the output, and `written` says how
/// long it is.
///
/// The status is 0 where the input ended behind a whole frame, and 2 where a fault ended it, which the last
/// line tells. It is 4 where there was no memory, and 5 where the output has no room for the text; then
/// nothing is written. At 5 `written` says how many bytes the text takes.
#[unsafe(no_mangle)]
pub extern "C" fn cedar_run(
    alloc: Global,
    input: &[u8],
    output: &mut [u8],
    written: &mut usize,
) -> u8
    ensures status { (result ≡ 0) ⊎ (result ≡ 2) ⊎ (result ≡ 4) ⊎ (result ≡ 5) }

    // What stands in the output.
    ensures end { result ≡ 0 → AnswersAll input.now (take written.new output.new) }
    ensures fault { result ≡ 2 → AnswersToFault input.now (take written.new output.new) }
    ensures rest { drop written.new output.new ≡ drop written.new output.old }

    // Without memory, or room, nothing is written.
    ensures no_memory { result ≡ 4 → written.new ≡ 0 }
    ensures no_room { (result ≡ 5) ↔ (length output.old < written.new) }
    ensures needs { result ≡ 5 → AnswersInBytes input.now written.new }
    ensures unwritten { (result ≡ 4) ⊎ (result ≡ 5) → output.new ≡ output.old }
{
    cedar_run_within(alloc, input, DEPTH, output, written)
}

/// Answers the input as [`cedar_run`] does, by a new session with this limit of depth.
#[unsafe(no_mangle)]
pub extern "C" fn cedar_run_within(
    alloc: Global,
    input: &[u8],
    depth: u32,
    output: &mut [u8],
    written: &mut usize,
) -> u8
    ensures status { (result ≡ 0) ⊎ (result ≡ 2) ⊎ (result ≡ 4) ⊎ (result ≡ 5) }

    // What stands in the output.
    ensures end { result ≡ 0 → AnswersAllWithin depth input.now (take written.new output.new) }
    ensures fault { result ≡ 2 → AnswersToFaultWithin depth input.now (take written.new output.new) }
    ensures rest { drop written.new output.new ≡ drop written.new output.old }

    // Without memory, or room, nothing is written.
    ensures no_memory { result ≡ 4 → written.new ≡ 0 }
    ensures no_room { (result ≡ 5) ↔ (length output.old < written.new) }
    ensures needs { result ≡ 5 → AnswersInBytesWithin depth input.now written.new }
    ensures unwritten { (result ≡ 4) ⊎ (result ≡ 5) → output.new ≡ output.old }
{
    *written = 0;
    let Ok(outcome) = run_input_within(alloc, input, depth) else {
        return NO_MEMORY;
    };
    *written = outcome.text.len();
    if copy_out(outcome.text.as_slice(), output) {
        outcome.status
    } else {
        NO_ROOM
    }
}
