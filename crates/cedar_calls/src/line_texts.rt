// What commands are answered, as lines of JSON. What is written is only tested.

use crate::answering::{JsonReply, Unanswered};
use crate::line_faults::line_fault;
use crate::lines::LineReply;
use cedar_json::{JsonFault, write_fault_list};
use cedar_policy_parts::{Decision, PolicyID};
use cedar_replies::ErrorKind;
use cedar_session::{Answer, Reply};
use json::Writer;
use std::alloc::{AllocError, Global};

fn decision_name(decision: Option<Decision>) -> &'static str {
    match decision {
        Some(Decision::Allow) => "allow",
        Some(Decision::Deny) => "deny",
        None => "open",
    }
}

fn write_member(writer: &mut Writer, key: &str, text: &str) -> Result<(), AllocError> {
    writer.key(key)?;
    writer.string(text)
}

fn write_ids(writer: &mut Writer, key: &str, ids: &[PolicyID]) -> Result<(), AllocError> {
    writer.key(key)?;
    writer.begin_array()?;
    for id in ids {
        writer.string(id.as_str())?;
    }
    writer.end_array()
}

fn write_erring(writer: &mut Writer, entries: &[(PolicyID, ErrorKind)]) -> Result<(), AllocError> {
    writer.key("erring")?;
    writer.begin_array()?;
    for (id, kind) in entries {
        writer.begin_object()?;
        write_member(writer, "id", id.as_str())?;
        write_member(writer, "kind", kind.name())?;
        writer.end_object()?;
    }
    writer.end_array()
}

fn write_answer(writer: &mut Writer, answer: &Answer) -> Result<(), AllocError> {
    writer.key("answer")?;
    writer.begin_object()?;
    write_member(writer, "decision", decision_name(answer.decision))?;
    write_ids(writer, "must", answer.must.as_slice())?;
    write_ids(writer, "may", answer.may.as_slice())?;
    write_erring(writer, answer.erring.as_slice())?;
    writer.end_object()
}

fn write_reply(writer: &mut Writer, reply: &Reply) -> Result<(), AllocError> {
    match reply {
        Reply::Done => write_ids(writer, "ok", &[]),
        Reply::Ids(ids) => write_ids(writer, "ok", ids.as_slice()),
        Reply::Answer(answer) => write_answer(writer, answer),
    }
}

/// A refusal of the line itself, and its fault.
fn write_refused(writer: &mut Writer, name: &str, fault: &JsonFault) -> Result<(), AllocError> {
    write_member(writer, "refused", name)?;
    writer.key("faults")?;
    write_fault_list(writer, Some(fault))
}

fn write_members(
    alloc: Global,
    writer: &mut Writer,
    line: &str,
    reply: &LineReply,
) -> Result<(), AllocError> {
    match reply {
        LineReply::Answered(JsonReply::Replied(Ok(reply))) => write_reply(writer, reply),
        LineReply::Answered(JsonReply::Replied(Err(refusal))) => {
            write_member(writer, "refused", refusal.name())
        }
        LineReply::Answered(JsonReply::Unread(Unanswered::Unsaid)) => {
            write_refused(writer, "Json", &line_fault(alloc, line)?)
        }
        LineReply::Answered(JsonReply::Unread(why)) => write_member(writer, "refused", why.name()),
        LineReply::NoCommand => write_refused(writer, "Line", &line_fault(alloc, line)?),
        LineReply::Memory => write_member(writer, "refused", "Memory"),
    }
}

/// The line of JSON, without a line feed, that tells what a line was answered: `{"ok":[..]}` with the ids under which the policies
/// of a `load` stand, and none of another command; `{"answer":{"decision","must","may","erring"}}`; or `{"refused":KIND}`. A kind is
/// a refusal's; `Line` where the line is no command, `Json` where the JSON says no body of it, `Long` where the body would be longer
/// than 1,048,576 bytes. Beside `Line` and `Json` stands why, `"faults":[{"line","column","pointer","kind","message"}]`, by places in the
/// line. It errs for want of memory.
pub fn line_text(alloc: Global, line: &str, reply: &LineReply) -> Result<Vec<u8>, AllocError> {
    let mut writer = Writer::new(Vec::new(alloc));
    writer.begin_object()?;
    write_members(alloc, &mut writer, line, reply)?;
    writer.end_object()?;
    Ok(writer.into_inner())
}
