// Answer lines, put straight to the writer. They take no memory.
ghost use Rattle.std.specs.Prelude.{◌≡◌, ◌++◌, ℕ, List, map};
ghost use Rattle.std.specs.Option.{option_map};
ghost use Rattle.cedar_frames.specs.Writing.{Writes};
ghost use Rattle.cedar_frames.specs.Quoting.{quoted};
ghost use Rattle.cedar_frames.specs.declared.watched.Watched.{Watched as Device};
ghost use Rattle.cedar_policy_parts.specs.Decisions.{decision_of};
ghost use Rattle.cedar_world.specs.Lines.{further, listed, decision_name, answer_line, line_of};
ghost use Rattle.cedar_replies.specs.Gathering.{WritesAll};
ghost use Rattle.cedar_replies.specs.Lines.{reopened, with_name};
ghost use Rattle.cedar_replies.specs.Replies.{answer_of, accepted, reply_of};

use crate::answer::{Answer, Reply};
use crate::error_kind::ErrorKind;
use crate::gathering::{ROOM, gather, gather_escaped, put_gathered};
use crate::refusal::Refusal;
use arrayvec::ArrayString;
use cedar_frames::{Watched, put, put_quoted};
use cedar_policy_parts::{Decision, PolicyID};
use std::io::Write;

/// How a decision is written.
fn decision_text(decision: Option<Decision>) -> &'static str
    ensures { result.now ≡ decision_name (option_map decision_of decision) }
{
    match decision {
        Some(Decision::Allow) => "allow",
        Some(Decision::Deny) => "deny",
        None => "open",
    }
}

/// Gathers each id behind the quote that closes the one before, a comma, and the quote that opens it.
fn gather_more_ids<W: Write>(
    writer: &mut Watched<W>,
    gathered: &mut ArrayString<ROOM>,
    ids: &[PolicyID],
)
    ensures { (start : Device W) (past : List ℕ) → WritesAll W.contents start writer.old gathered.old.bytes past → WritesAll W.contents start writer.new gathered.new.bytes (past ++ reopened ids.now) }
{
    for id in ids {
        gather(writer, gathered, "\",\"");
        gather_escaped(writer, gathered, id.as_str());
    }
}

/// Writes ids in brackets.
fn put_ids<W: Write>(writer: &mut Watched<W>, ids: &[PolicyID])
    ensures { Writes W.contents writer.old writer.new (listed (map quoted ids.now)) }
{
    let Some((first, others)) = ids.split_first() else {
        put(writer, b"[]");
        return;
    };
    let mut gathered = ArrayString::new();
    gather(writer, &mut gathered, "[\"");
    gather_escaped(writer, &mut gathered, first.as_str());
    gather_more_ids(writer, &mut gathered, others);
    gather(writer, &mut gathered, "\"]");
    put_gathered(writer, &gathered);
}

/// Writes an id with its kind.
fn put_erring_id<W: Write>(writer: &mut Watched<W>, entry: &(PolicyID, ErrorKind))
    ensures { Writes W.contents writer.old writer.new (with_name entry.now) }
{
    put_quoted(writer, entry.0.as_str());
    put(writer, b":");
    put(writer, entry.1.name().as_bytes());
}

/// Writes each id with its kind behind a comma.
fn put_more_erring<W: Write>(writer: &mut Watched<W>, entries: &[(PolicyID, ErrorKind)])
    ensures { Writes W.contents writer.old writer.new (further (map with_name entries.now)) }
{
    for entry in entries {
        put(writer, b",");
        put_erring_id(writer, entry);
    }
}

/// Writes ids with their kinds in brackets.
fn put_erring<W: Write>(writer: &mut Watched<W>, entries: &[(PolicyID, ErrorKind)])
    ensures { Writes W.contents writer.old writer.new (listed (map with_name entries.now)) }
{
    let Some((first, others)) = entries.split_first() else {
        put(writer, b"[]");
        return;
    };
    put(writer, b"[");
    put_erring_id(writer, first);
    put_more_erring(writer, others);
    put(writer, b"]");
}

/// Writes the line of an answer to a question.
fn put_answer<W: Write>(writer: &mut Watched<W>, answer: &Answer)
    ensures { Writes W.contents writer.old writer.new (answer_line (answer_of answer.now)) }
{
    put(writer, decision_text(answer.decision).as_bytes());
    put(writer, b" must=");
    put_ids(writer, answer.must.as_slice());
    put(writer, b" may=");
    put_ids(writer, answer.may.as_slice());
    put(writer, b" erring=");
    put_erring(writer, answer.erring.as_slice());
    put(writer, b"\n");
}

/// Writes the line of an accepted command.
fn put_reply<W: Write>(writer: &mut Watched<W>, reply: &Reply)
    ensures { Writes W.contents writer.old writer.new (line_of (accepted reply.now)) }
{
    match reply {
        Reply::Done => put(writer, b"ok\n"),
        Reply::Ids(ids) => {
            put(writer, b"ok ");
            put_ids(writer, ids.as_slice());
            put(writer, b"\n");
        }
        Reply::Answer(answer) => put_answer(writer, answer),
    }
}

/// Writes the line that says what a command was answered, with its line feed. It takes no memory.
///
/// Nothing is written once the writer has failed, as [`put`] says.
pub fn put_line<W: Write>(writer: &mut Watched<W>, outcome: &Result<Reply, Refusal>)
    ensures { Writes W.contents writer.old writer.new (line_of (reply_of outcome.now)) }
{
    match outcome {
        Ok(reply) => put_reply(writer, reply),
        Err(refusal) => {
            put(writer, b"refused ");
            put(writer, refusal.name().as_bytes());
            put(writer, b"\n");
        }
    }
}
