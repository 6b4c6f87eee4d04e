//! A text that is refused: each fault is told, with the byte of the text at which it stands.

use crate::DEPTH;
use anyhow::Result;
use cedar_evaluator::Extensions;
use cedar_parser::err::ParseError;
use cedar_parser::strict::parse_policyset;
use std::alloc::Global;

/// A comparison is `==`, and an effect is `permit` or `forbid`.
const POLICIES: &str = r#"
permit(principal, action, resource) when { context.hour = 9 };
allow(principal, action, resource);
"#;

/// Reads the policies, and prints why they are none. `cedar_cli check` shows the lines too.
pub(crate) fn show(rt: &impl Print, alloc: Global, extensions: &Extensions<'_>) -> Result<()> {
    println!(rt; "refusing")?;
    match parse_policyset(alloc, POLICIES, extensions, DEPTH) {
        Ok(_) => println!(rt; "  nothing")?,
        Err(errors) => {
            show_fault(rt, &errors.0.head)?;
            for error in &errors.0.tail {
                show_fault(rt, error)?;
            }
        }
    }
    Ok(())
}

/// Prints a fault, behind the byte at which it stands.
fn show_fault(rt: &impl Print, error: &ParseError) -> Result<()> {
    match place_of(error) {
        Some(start) => println!(rt; "  byte {start}: {error}")?,
        None => println!(rt; "  {error}")?,
    }
    Ok(())
}

/// The byte at which a fault stands, where it has a place.
fn place_of(error: &ParseError) -> Option<usize> {
    match error {
        ParseError::ToCST(error) => match error.primary_source_span() {
            Some(span) => Some(span.start),
            None => None,
        },
        ParseError::ToAST(error) => match &error.loc {
            Some(loc) => Some(loc.start()),
            None => None,
        },
        ParseError::Depth | ParseError::Memory => None,
    }
}
