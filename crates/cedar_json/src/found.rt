// Faults of values of JSON, and the steps to them. What is told is only tested.
use crate::faults::FaultKind;
use crate::places::Step;
use std::alloc::{AllocError, Global};

/// A fault: of what it speaks, what was expected, and the steps to its place, the last one first.
#[derive(Drop)]
pub struct Found<'v> {
    pub kind: FaultKind,
    subject: &'v str,
    expected: &'static str,
    pub steps: Vec<Step<'v>>,
    /// Whether its place is that of a key.
    pub at_key: bool,
}

impl<'v> Found<'v> {
    /// A fault right here.
    pub fn new(
        alloc: Global,
        kind: FaultKind,
        subject: &'v str,
        expected: &'static str,
    ) -> Found<'v> {
        Found {
            kind,
            subject,
            expected,
            steps: Vec::new(alloc),
            at_key: false,
        }
    }

    /// The fault in words.
    pub fn message(&self, alloc: Global) -> Result<String, AllocError> {
        let subject = self.subject;
        let expected = self.expected;
        match self.kind {
            FaultKind::NotUtf8 => String::from_str(alloc, "the text is no UTF-8"),
            FaultKind::Mark => String::from_str(alloc, "the text begins with a byte order mark"),
            FaultKind::NotJson => String::from_str(alloc, "no JSON here"),
            FaultKind::Nesting => String::from_str(alloc, "it nests deeper than 128"),
            FaultKind::TwiceKey => format!(in alloc; "key {subject:?} stands twice"),
            FaultKind::Null => String::from_str(alloc, "null is no value of Cedar"),
            FaultKind::Float => format!(in alloc; "{subject} is no long: numbers are whole"),
            FaultKind::Range => format!(in alloc; "{subject} is no long: out of range"),
            FaultKind::Uid => format!(in alloc; "no entity: expected {expected}"),
            FaultKind::Type => format!(in alloc; "{subject:?} is no {expected}"),
            FaultKind::Extn => format!(in alloc; "no call: {expected}"),
            FaultKind::Key => format!(in alloc; "key {subject:?} is none of {expected}"),
            FaultKind::Missing => format!(in alloc; "key {subject:?} is missing"),
            FaultKind::Kind => format!(in alloc; "{subject} is no {expected}"),
        }
    }
}

/// What a walk finds, if anything; it errs for want of memory.
pub type MaybeFound<'v> = Result<Option<Found<'v>>, AllocError>;

/// A fault right here.
pub fn here<'v>(
    alloc: Global,
    kind: FaultKind,
    subject: &'v str,
    expected: &'static str,
) -> MaybeFound<'v> {
    Ok(Some(Found::new(alloc, kind, subject, expected)))
}

/// A fault at a key.
pub fn at_key<'v>(
    alloc: Global,
    kind: FaultKind,
    key: &'v str,
    number: usize,
    expected: &'static str,
) -> MaybeFound<'v> {
    let mut found = Found::new(alloc, kind, key, expected);
    found.at_key = true;
    found.steps.push(Step::Member(key, number))?;
    Ok(Some(found))
}

/// The same fault, one step further out.
pub fn behind<'v>(found: Option<Found<'v>>, step: Step<'v>) -> MaybeFound<'v> {
    match found {
        Some(mut found) => {
            found.steps.push(step)?;
            Ok(Some(found))
        }
        None => Ok(None),
    }
}
