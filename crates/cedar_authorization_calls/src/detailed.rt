// Errors as Cedar tells them in JSON.
use cedar_messages::places::Position;
use cedar_messages::{Fault, unread_faults};
use cedar_names::places::Span;
use cedar_parser::err::{ParseError, ParseErrors};
use std::alloc::{AllocError, Global};

/// What is wrong, as Cedar's `DetailedError`, but for errors that are related to it.
#[derive(Debug, Drop)]
pub struct DetailedError {
    pub message: String,
    /// What helps against it, where something does.
    pub help: Option<String>,
    /// Its kind.
    pub code: String,
    /// The bytes of the text that it is of, where they are known, and what was expected there.
    pub location: Option<SourceLocation>,
}

/// Bytes of a text, from the first to the first one behind them.
#[derive(Debug, Drop)]
pub struct SourceLocation {
    pub label: Option<String>,
    pub start: usize,
    pub end: usize,
}

/// Why a call isn't answered by a decision.
#[derive(Debug, Drop)]
pub struct Failure {
    /// Where the text of JSON can't be read, if that is why.
    pub place: Option<Position>,
    pub error: DetailedError,
    /// The other errors of the same text.
    pub related: Vec<DetailedError>,
}

impl DetailedError {
    /// The error of this kind, told in these words alone.
    pub(crate) fn plain(
        alloc: Global,
        code: &str,
        message: String,
    ) -> Result<DetailedError, AllocError> {
        Ok(DetailedError {
            message,
            help: None,
            code: String::from_str(alloc, code)?,
            location: None,
        })
    }
}

/// The failure of this kind, told in these words alone.
pub(crate) fn plain(alloc: Global, code: &str, message: String) -> Result<Failure, AllocError> {
    Ok(Failure {
        place: None,
        error: DetailedError::plain(alloc, code, message)?,
        related: Vec::new(alloc),
    })
}

/// Why a text of policies isn't read: the first error behind these words, and the others.
pub(crate) fn unread(
    alloc: Global,
    what: &str,
    text: &str,
    errors: &ParseErrors,
) -> Result<Failure, AllocError> {
    let faults = unread_faults(alloc, text, errors)?;
    let mut told = Vec::new(alloc);
    for (number, fault) in faults.iter().enumerate() {
        let error = detailed(alloc, fault, span_at(errors, number))?;
        told.push(error)?;
    }
    let mut errors = told.into_iter();
    let Some(first) = errors.next() else {
        return Err(AllocError);
    };
    let message = format!(in alloc; "{what}: {}", first.message.as_str())?;
    Ok(Failure {
        place: None,
        error: DetailedError { message, ..first },
        related: errors.collect(alloc)?,
    })
}

/// The bytes that the error of this number is of, if they are known.
fn span_at(errors: &ParseErrors, number: usize) -> Option<Span> {
    let error = match number.checked_sub(1) {
        None => &errors.0.head,
        Some(behind) => errors.0.tail.get(behind)?,
    };
    match error {
        ParseError::ToCST(error) => error.primary_source_span(),
        ParseError::ToAST(error) => Some(error.loc.as_ref()?.span()),
        ParseError::Depth | ParseError::Memory => None,
    }
}

fn detailed(alloc: Global, fault: &Fault, span: Option<Span>) -> Result<DetailedError, AllocError> {
    let label = copied(alloc, fault.expected())?;
    Ok(DetailedError {
        message: String::from_str(alloc, fault.message())?,
        help: copied(alloc, fault.help())?,
        code: String::from_str(alloc, fault.kind())?,
        location: match span {
            Some(span) => Some(SourceLocation {
                label,
                start: span.start,
                end: span.end,
            }),
            None => None,
        },
    })
}

fn copied(alloc: Global, text: Option<&str>) -> Result<Option<String>, AllocError> {
    match text {
        Some(text) => Ok(Some(String::from_str(alloc, text)?)),
        None => Ok(None),
    }
}
