// Why a text is no schema.

use crate::read_error::SyntaxFault;
use std::error::Error;
use std::fmt;

/// Why a text is no schema.
#[derive(Clone, Copy, Debug, PartialEq, Eq)]
pub enum SchemaSyntaxError {
    /// The text is outside the grammar, at this byte.
    Syntax { fault: SyntaxFault, place: usize },
    /// More braces and angle brackets than the limit are open behind this byte.
    Depth { place: usize },
    /// Memory ran out.
    Memory,
}

impl fmt::Display for SyntaxFault {
    fn fmt<W: fmt::Write>(&self, f: &mut fmt::Formatter<W>) -> fmt::Result {
        match self {
            SyntaxFault::NoToken => write!(f, "no token stands here"),
            SyntaxFault::UnexpectedToken => write!(f, "this can't stand here"),
            SyntaxFault::UnexpectedEnd => write!(f, "the text ends where more has to follow"),
            SyntaxFault::WrongEscape => write!(
                f,
                "the string has an escape that stands for nothing"
            ),
            SyntaxFault::DuplicateAnnotation => write!(f, "the annotation stands twice"),
        }
    }
}

impl fmt::Display for SchemaSyntaxError {
    fn fmt<W: fmt::Write>(&self, f: &mut fmt::Formatter<W>) -> fmt::Result {
        match self {
            SchemaSyntaxError::Syntax { fault, place } => write!(f, "byte {place}: {fault}"),
            SchemaSyntaxError::Depth { place } => write!(f, "byte {place}: brackets nest too deep"),
            SchemaSyntaxError::Memory => write!(f, "out of memory"),
        }
    }
}

impl Error for SchemaSyntaxError {}
