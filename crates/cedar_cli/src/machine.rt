// What `check`, `test` and `explain` tell programs: an object of JSON, as docs/cli.schema.json has it.

use crate::files::Unread;
use crate::output::{Stop, say};
use cedar_authoring::{Fault, Position};
use cedar_policy_parts::{Decision, PolicyID};
use cedar_session::Answer;
use json::Writer;
use std::alloc::AllocError;

/// A policy or a template that stands in a file.
#[derive(Drop)]
pub(crate) struct ToldPolicy {
    pub(crate) file: String,
    pub(crate) place: Option<Position>,
    pub(crate) id: String,
    pub(crate) effect: &'static str,
    pub(crate) is_template: bool,
    /// Keys and values.
    pub(crate) annotations: Vec<(String, String)>,
}

/// Why a text is refused, or isn't read.
#[derive(Drop)]
pub(crate) struct ToldFault {
    pub(crate) file: String,
    pub(crate) line: Option<usize>,
    pub(crate) column: Option<usize>,
    pub(crate) kind: String,
    pub(crate) message: String,
    pub(crate) help: Option<String>,
}

/// How a test went.
#[derive(Drop)]
pub(crate) struct ToldTest {
    pub(crate) name: String,
    pub(crate) file: String,
    pub(crate) line: usize,
    pub(crate) passed: bool,
    /// The first answer that was another than expected: what was expected, and what was answered.
    pub(crate) expected: Option<String>,
    pub(crate) answered: Option<String>,
}

/// What a word tells.
#[derive(Drop)]
pub(crate) struct Told {
    pub(crate) policies: Vec<ToldPolicy>,
    pub(crate) faults: Vec<ToldFault>,
    pub(crate) tests: Vec<ToldTest>,
}

impl Told {
    pub(crate) fn new(rt: &HostRuntime) -> Told {
        Told {
            policies: Vec::new(rt.alloc()),
            faults: Vec::new(rt.alloc()),
            tests: Vec::new(rt.alloc()),
        }
    }

    /// Adds why a file isn't read, and gives what that stops.
    pub(crate) fn add_unread(&mut self, rt: &HostRuntime, unread: Unread) -> Result<Stop, Stop> {
        let notice = match unread {
            Unread::Memory => return Err(Stop::Memory),
            Unread::Told(notice) => notice,
        };
        let kind = match notice.stop {
            Stop::Fault => "Script",
            _ => "Device",
        };
        self.faults.push(ToldFault {
            file: notice.file,
            line: notice.line,
            column: notice.column,
            kind: String::from_str(rt.alloc(), kind)?,
            message: notice.message,
            help: None,
        })?;
        Ok(notice.stop)
    }

    /// Adds why a file is refused as a whole, or from a line on.
    pub(crate) fn add_words(
        &mut self,
        rt: &HostRuntime,
        file: &str,
        line: Option<usize>,
        kind: &str,
        message: String,
    ) -> Result<(), AllocError> {
        self.faults.push(ToldFault {
            file: String::from_str(rt.alloc(), file)?,
            line,
            column: None,
            kind: String::from_str(rt.alloc(), kind)?,
            message,
            help: None,
        })?;
        Ok(())
    }

    /// Adds the faults of a file.
    pub(crate) fn add_faults(
        &mut self,
        rt: &HostRuntime,
        file: &str,
        faults: &[Fault],
    ) -> Result<(), AllocError> {
        for fault in faults {
            let help = match fault.help() {
                Some(help) => Some(String::from_str(rt.alloc(), help)?),
                None => None,
            };
            let (line, column) = match fault.extent() {
                Some(extent) => (Some(extent.start.line), Some(extent.start.column)),
                None => (None, None),
            };
            self.faults.push(ToldFault {
                file: String::from_str(rt.alloc(), file)?,
                line,
                column,
                kind: String::from_str(rt.alloc(), fault.kind())?,
                message: String::from_str(rt.alloc(), fault.message())?,
                help,
            })?;
        }
        Ok(())
    }
}

/// Begins the object that a word tells.
fn begin(rt: &HostRuntime, word: &str, status: u8) -> Result<Writer, AllocError> {
    let mut out = Writer::new(Vec::new(rt.alloc()));
    out.begin_object()?;
    out.key("version")?;
    out.u64(1)?;
    put_string(&mut out, "word", word)?;
    out.key("status")?;
    out.u64(u64::from(status))?;
    Ok(out)
}

/// Ends the object, and writes it as a line.
fn end(rt: &HostRuntime, mut out: Writer) -> Result<(), Stop> {
    out.end_object()?;
    match String::from_utf8(out.into_inner()) {
        Ok(text) => say(rt, text.as_str()),
        Err(_) => Err(Stop::Memory),
    }
}

/// Writes what `check` tells.
pub(crate) fn say_checked(rt: &HostRuntime, status: u8, told: &Told) -> Result<(), Stop> {
    let mut out = begin(rt, "check", status)?;
    put_policies(&mut out, told.policies.as_slice())?;
    put_faults(&mut out, told.faults.as_slice())?;
    end(rt, out)
}

/// Writes what `test` tells.
pub(crate) fn say_tested(rt: &HostRuntime, status: u8, told: &Told) -> Result<(), Stop> {
    let mut out = begin(rt, "test", status)?;
    out.key("tests")?;
    out.begin_array()?;
    for test in &told.tests {
        put_test(&mut out, test)?;
    }
    out.end_array()?;
    put_faults(&mut out, told.faults.as_slice())?;
    end(rt, out)
}

/// Writes what `explain` tells.
pub(crate) fn say_explained(
    rt: &HostRuntime,
    status: u8,
    answer: Option<&Answer>,
    waits: &[&str],
    told: &Told,
) -> Result<(), Stop> {
    let mut out = begin(rt, "explain", status)?;
    out.key("answer")?;
    match answer {
        Some(answer) => put_answer(&mut out, answer)?,
        None => out.null()?,
    }
    out.key("waits")?;
    out.begin_array()?;
    for name in waits {
        out.string(*name)?;
    }
    out.end_array()?;
    put_policies(&mut out, told.policies.as_slice())?;
    put_faults(&mut out, told.faults.as_slice())?;
    end(rt, out)
}

fn put_answer(out: &mut Writer, answer: &Answer) -> Result<(), AllocError> {
    out.begin_object()?;
    let decision = match answer.decision {
        Some(Decision::Allow) => "allow",
        Some(Decision::Deny) => "deny",
        None => "open",
    };
    put_string(out, "decision", decision)?;
    put_ids(out, "must", answer.must.as_slice())?;
    put_ids(out, "may", answer.may.as_slice())?;
    out.key("erring")?;
    out.begin_array()?;
    for (id, kind) in answer.erring.as_slice() {
        out.begin_object()?;
        put_string(out, "id", id.as_str())?;
        put_string(out, "kind", kind.name())?;
        out.end_object()?;
    }
    out.end_array()?;
    out.end_object()
}

fn put_ids(out: &mut Writer, key: &str, ids: &[PolicyID]) -> Result<(), AllocError> {
    out.key(key)?;
    out.begin_array()?;
    for id in ids {
        out.string(id.as_str())?;
    }
    out.end_array()
}

fn put_policies(out: &mut Writer, policies: &[ToldPolicy]) -> Result<(), AllocError> {
    out.key("policies")?;
    out.begin_array()?;
    for policy in policies {
        put_policy(out, policy)?;
    }
    out.end_array()
}

fn put_policy(out: &mut Writer, policy: &ToldPolicy) -> Result<(), AllocError> {
    out.begin_object()?;
    let (line, column) = match policy.place {
        Some(at) => (Some(at.line), Some(at.column)),
        None => (None, None),
    };
    put_place(out, policy.file.as_str(), line, column)?;
    put_string(out, "id", policy.id.as_str())?;
    put_string(out, "effect", policy.effect)?;
    out.key("template")?;
    out.boolean(policy.is_template)?;
    out.key("annotations")?;
    out.begin_object()?;
    for (key, value) in &policy.annotations {
        put_string(out, key.as_str(), value.as_str())?;
    }
    out.end_object()?;
    out.end_object()
}

fn put_faults(out: &mut Writer, faults: &[ToldFault]) -> Result<(), AllocError> {
    out.key("faults")?;
    out.begin_array()?;
    for fault in faults {
        out.begin_object()?;
        put_place(out, fault.file.as_str(), fault.line, fault.column)?;
        put_string(out, "kind", fault.kind.as_str())?;
        put_string(out, "message", fault.message.as_str())?;
        put_optional(out, "help", &fault.help)?;
        out.end_object()?;
    }
    out.end_array()
}

fn put_test(out: &mut Writer, test: &ToldTest) -> Result<(), AllocError> {
    out.begin_object()?;
    put_string(out, "name", test.name.as_str())?;
    put_string(out, "file", test.file.as_str())?;
    out.key("line")?;
    out.u64(test.line as u64)?;
    out.key("passed")?;
    out.boolean(test.passed)?;
    put_optional(out, "expected", &test.expected)?;
    put_optional(out, "answered", &test.answered)?;
    out.end_object()
}

fn put_place(
    out: &mut Writer,
    file: &str,
    line: Option<usize>,
    column: Option<usize>,
) -> Result<(), AllocError> {
    put_string(out, "file", file)?;
    put_number(out, "line", line)?;
    put_number(out, "column", column)
}

fn put_number(out: &mut Writer, key: &str, number: Option<usize>) -> Result<(), AllocError> {
    out.key(key)?;
    match number {
        Some(number) => out.u64(number as u64),
        None => out.null(),
    }
}

fn put_string(out: &mut Writer, key: &str, text: &str) -> Result<(), AllocError> {
    out.key(key)?;
    out.string(text)
}

fn put_optional(out: &mut Writer, key: &str, text: &Option<String>) -> Result<(), AllocError> {
    out.key(key)?;
    match text {
        Some(text) => out.string(text.as_str()),
        None => out.null(),
    }
}
