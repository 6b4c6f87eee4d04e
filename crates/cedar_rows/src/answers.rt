// How what was made is told.
use std::alloc::{AllocError, Global};
use std::fmt::{Debug, Display};

/// The text that answers a step. Refused for memory alone.
pub type Answer = Result<String, AllocError>;

/// `true` or `false`.
pub fn said(alloc: Global, holds: bool) -> Answer {
    String::from_str(alloc, if holds { "true" } else { "false" })
}

/// That no step is written so, or that nothing is held of which it could be asked.
pub fn no_case(alloc: Global) -> Answer {
    String::from_str(alloc, "no case")
}

/// Why nothing was made, by the error's text.
pub fn refused<E: Display + Drop>(alloc: Global, error: E) -> Answer {
    format!(in alloc; "refused: {error}")
}

/// The text of what was made, or why it was not.
pub fn show<T: Display + Drop, E: Display + Drop>(alloc: Global, found: Result<T, E>) -> Answer {
    match found {
        Ok(value) => value.to_string(alloc),
        Err(error) => refused(alloc, error),
    }
}

/// The text for programmers of what was made, or the text of the error alone.
pub fn spell<T: Debug + Drop, E: Display + Drop>(alloc: Global, found: Result<T, E>) -> Answer {
    match found {
        Ok(value) => tell(alloc, value),
        Err(error) => error.to_string(alloc),
    }
}

/// The text for programmers.
pub fn tell<T: Debug + Drop>(alloc: Global, found: T) -> Answer {
    format!(in alloc; "{found:?}")
}

/// The text of what is there, if anything is.
pub fn maybe<T: Display + Drop>(alloc: Global, found: Option<T>) -> Answer {
    match found {
        Some(value) => value.to_string(alloc),
        None => String::from_str(alloc, "none"),
    }
}

/// Puts a part behind those that a text has, and what stands between them. Refused for memory alone.
pub fn append(text: &mut String, part: Answer) -> Result<(), AllocError> {
    let between = if text.is_empty() { "" } else { ", " };
    put(text, between, part)
}

/// Puts a part behind a text and these characters. Refused for memory alone.
pub fn put(text: &mut String, before: &str, part: Answer) -> Result<(), AllocError> {
    let part = part?;
    text.push_str(before)?;
    text.push_str(part.as_str())
}
