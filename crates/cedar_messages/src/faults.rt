// What is told of the faults of a text, of one behind the other.
ghost use Rattle.std.specs.Prelude.{◌≡◌, string_bytes, IfOk, OnOk};
ghost use Rattle.cedar_parser.specs.ErrorsLeft.{errors_of};
ghost use Rattle.cedar_messages.specs.Faults.{reach, start_of, Tells, TellsErrors, TellsFault};
ghost use Rattle.cedar_messages.specs.Telling.{Adds, AreBelow, TellsEach};

use crate::fault::Fault;
use crate::finding::faults_of;
use crate::marking::push_source;
use crate::places::Position;
use crate::telling::{push_indented, tell};
use cedar_parser::err::{ParseError, ParseErrors};
use std::alloc::{AllocError, Global};

/// Tells each error by which a text isn't read, in their order, under a name for the text, as [`tell_all`] tells its
/// [`faults_of`]. Refused for memory alone.
pub fn tell_faults(
    alloc: Global,
    name: &str,
    text: &str,
    errors: &ParseErrors,
) -> Result<String, AllocError>
    ensures { IfOk result (λ told. TellsEach (TellsFault name.now text.now) (errors_of errors.now) (string_bytes told)) }
{
    let faults = faults_of(alloc, text, errors)?;
    tell_all(alloc, name, text, faults.as_slice())
}

/// The same, unless the first of them is want of memory, for which it is refused too.
pub fn tell_unread(
    alloc: Global,
    name: &str,
    text: &str,
    errors: &ParseErrors,
) -> Result<String, AllocError>
    ensures { IfOk result (λ told. TellsErrors name.now text.now errors.now (string_bytes told)) }
{
    if let ParseError::Memory = errors.0.head {
        return Err(AllocError);
    }
    tell_faults(alloc, name, text, errors)
}

/// Tells these faults of a text, in their order, under a name for the text: a line `NAME:LINE:COLUMN: MESSAGE`, and below
/// it the source line, a mark below what is wrong, what was expected there, and help where there is some. Refused for
/// memory alone.
pub fn tell_all(
    alloc: Global,
    name: &str,
    text: &str,
    faults: &[Fault],
) -> Result<String, AllocError>
    ensures { IfOk result (λ told. TellsEach (Tells name.now) faults.now (string_bytes told)) }
{
    let mut told = String::new(alloc);
    for fault in faults {
        tell_fault(alloc, &mut told, name, text, fault)?;
    }
    Ok(told)
}

fn tell_fault(
    alloc: Global,
    told: &mut String,
    name: &str,
    text: &str,
    fault: &Fault,
) -> Result<(), AllocError>
    ensures { OnOk result (Adds (Tells name.now fault.now) (string_bytes told.old) (string_bytes told.new)) }
{
    let place = place_of(fault);
    let below = shown_below(alloc, text, fault)?;
    tell(
        alloc,
        told,
        name,
        place,
        fault.message.as_str(),
        below.as_str(),
    )?;
    Ok(())
}

/// Where a fault begins, if that is known.
fn place_of(fault: &Fault) -> Option<Position>
    ensures { result ≡ start_of (reach fault.now) }
{
    match fault.extent {
        Some(extent) => Some(extent.start),
        None => None,
    }
}

/// What is shown below the line of a fault.
fn shown_below(alloc: Global, text: &str, fault: &Fault) -> Result<String, AllocError>
    ensures { IfOk result (λ below. AreBelow (string_bytes below)) }
{
    let mut below = String::new(alloc);
    push_source(alloc, &mut below, text, fault.mark)?;
    push_if_any(&mut below, fault.expected())?;
    push_help(alloc, &mut below, fault.help())?;
    Ok(below)
}

fn push_if_any(told: &mut String, line: Option<&str>) -> Result<(), AllocError>
    ensures { OnOk result (Adds AreBelow (string_bytes told.old) (string_bytes told.new)) }
{
    match line {
        Some(line) => push_indented(told, line),
        None => Ok(()),
    }
}

fn push_help(alloc: Global, told: &mut String, help: Option<&str>) -> Result<(), AllocError>
    ensures { OnOk result (Adds AreBelow (string_bytes told.old) (string_bytes told.new)) }
{
    match help {
        Some(sentence) => {
            let line = format!(in alloc; "help: {sentence}")?;
            push_indented(told, line.as_str())
        }
        None => Ok(()),
    }
}
