// The errors by which a text isn't read, as faults.
ghost use Rattle.std.specs.Prelude.{◌≡◌, ◌++◌, IfOk, OnOk, map};
ghost use Rattle.std.specs.Option.{option_map};
ghost use Rattle.cedar_messages.specs.Faults.{bytes_of, extent_of, reach, AreFaultsOf, AreUnread};
ghost use Rattle.cedar_messages.specs.Places.{extent_at};

use crate::brackets::unclosed;
use crate::expected_tokens::expected;
use crate::fault::Fault;
use crate::helping::help_of;
use crate::kinds::kind_of;
use crate::marking::mark_of;
use crate::places::{Extent, Places};
use cedar_names::places::Span;
use cedar_parser::err::{ParseError, ParseErrors};
use std::alloc::{AllocError, Global};

/// The fault of each error by which a text isn't read, in their order: its place, what is wrong, what was expected there,
/// and help where there is some. A text that is nested too deep has no place. Takes time linear in the text, and for each
/// error time linear in what it is of. Refused for memory alone.
pub fn faults_of(alloc: Global, text: &str, errors: &ParseErrors) -> Result<Vec<Fault>, AllocError>
    ensures { IfOk result (λ faults. AreFaultsOf text.now errors.now faults.items) }
{
    let places = Places::of(alloc, text)?;
    let mut faults = Vec::new(alloc);
    let first = fault_of(alloc, &places, &errors.0.head)?;
    faults.push(first)?;
    push_others(alloc, &mut faults, &places, errors.0.tail.as_slice())?;
    Ok(faults)
}

/// The same, unless the first of them is want of memory, for which it is refused too.
pub fn unread_faults(
    alloc: Global,
    text: &str,
    errors: &ParseErrors,
) -> Result<Vec<Fault>, AllocError>
    ensures { IfOk result (λ faults. AreUnread text.now errors.now faults.items) }
{
    if let ParseError::Memory = errors.0.head {
        return Err(AllocError);
    }
    faults_of(alloc, text, errors)
}

fn push_others(
    alloc: Global,
    faults: &mut Vec<Fault>,
    places: &Places<'_>,
    errors: &[ParseError],
) -> Result<(), AllocError>
    ensures { OnOk result (map reach faults.new.items ≡ map reach faults.old.items ++ map (extent_of places.now.text.now) errors.now) }
{
    for error in errors {
        let fault = fault_of(alloc, places, error)?;
        faults.push(fault)?;
    }
    Ok(())
}

fn fault_of(alloc: Global, places: &Places<'_>, error: &ParseError) -> Result<Fault, AllocError>
    ensures { IfOk result (λ fault. reach fault ≡ extent_of places.now.text.now error.now) }
{
    let extent = extent_of(places, error);
    let message = format!(in alloc; "{error}")?;
    let mark = mark_of(alloc, places, error)?;
    let expected = expected(alloc, error)?;
    let help = help(alloc, places, error)?;
    Ok(Fault {
        extent,
        kind: kind_of(error, places.text),
        message,
        mark,
        expected,
        help,
    })
}

fn extent_of(places: &Places<'_>, error: &ParseError) -> Option<Extent>
    ensures { result ≡ extent_of places.now.text.now error.now }
{
    match bytes_of(error) {
        Some(span) => Some(places.extent(span)),
        None => None,
    }
}

/// The bytes that an error is of, if they are known.
fn bytes_of(error: &ParseError) -> Option<Span>
    ensures { result ≡ bytes_of error.now }
{
    match error {
        ParseError::ToCST(error) => error.primary_source_span(),
        ParseError::ToAST(error) => match &error.loc {
            Some(loc) => Some(loc.span()),
            None => None,
        },
        ParseError::Depth | ParseError::Memory => None,
    }
}

/// What helps: a sentence, or else which bracket isn't closed.
fn help(
    alloc: Global,
    places: &Places<'_>,
    error: &ParseError,
) -> Result<Option<String>, AllocError> {
    if let Some(sentence) = help_of(error, places.text) {
        return Ok(Some(String::from_str(alloc, sentence)?));
    }
    let Some((bracket, byte)) = unclosed(alloc, error, places.text)? else {
        return Ok(None);
    };
    let at = places.position(byte);
    let line = format!(in alloc; "the `{bracket}` at {}:{} isn't closed", at.line, at.column)?;
    Ok(Some(line))
}
