// Faults, written as JSON.
ghost use Rattle.std.specs.Prelude.{◌≡◌, ◌++◌, IfOk, OnOk, option_map};
ghost use Rattle.cedar_json.specs.FaultTexts.{counted, stated, place_members, told_members, fault_object, fault_list, faults_written};

use crate::faults::JsonFault;
use json::Writer;
use std::alloc::{AllocError, Global};

fn write_number(writer: &mut Writer, key: &str, number: usize) -> Result<(), AllocError>
    ensures written { OnOk result (writer.new.tokens ≡ writer.old.tokens ++ counted key.now number) }
    ensures before { writer.new.before ≡ writer.old.before }
{
    writer.key(key)?;
    writer.u64(number as u64)
}

fn write_text(writer: &mut Writer, key: &str, text: &str) -> Result<(), AllocError>
    ensures written { OnOk result (writer.new.tokens ≡ writer.old.tokens ++ stated key.now text.now) }
    ensures before { writer.new.before ≡ writer.old.before }
{
    writer.key(key)?;
    writer.string(text)
}

fn write_place(writer: &mut Writer, fault: &JsonFault) -> Result<(), AllocError>
    ensures written { OnOk result (writer.new.tokens ≡ writer.old.tokens ++ place_members fault.now) }
    ensures before { writer.new.before ≡ writer.old.before }
{
    write_number(writer, "line", fault.line)?;
    write_number(writer, "column", fault.column)
}

fn write_told(writer: &mut Writer, fault: &JsonFault) -> Result<(), AllocError>
    ensures written { OnOk result (writer.new.tokens ≡ writer.old.tokens ++ told_members fault.now) }
    ensures before { writer.new.before ≡ writer.old.before }
{
    write_text(writer, "pointer", fault.pointer.as_str())?;
    write_text(writer, "kind", fault.kind.name())?;
    write_text(writer, "message", fault.message.as_str())
}

/// Appends a fault as an object: the numbers `line` and `column`, and the strings `pointer`, `kind` and `message`. It errs for
/// want of memory, and then some of these may stand there.
pub fn write_fault(writer: &mut Writer, fault: &JsonFault) -> Result<(), AllocError>
    ensures written { OnOk result (writer.new.tokens ≡ writer.old.tokens ++ fault_object fault.now) }
    ensures before { writer.new.before ≡ writer.old.before }
{
    writer.begin_object()?;
    write_place(writer, fault)?;
    write_told(writer, fault)?;
    writer.end_object()
}

/// Appends the list of a fault, or of none. It errs for want of memory, and then a part of the list may stand there.
pub fn write_fault_list(writer: &mut Writer, fault: Option<&JsonFault>) -> Result<(), AllocError>
    ensures written { OnOk result (writer.new.tokens ≡ writer.old.tokens ++ fault_list (option_map (λ f. f.now) fault.entry)) }
    ensures before { writer.new.before ≡ writer.old.before }
{
    writer.begin_array()?;
    if let Some(fault) = fault {
        write_fault(writer, fault)?;
    }
    writer.end_array()
}

/// The JSON list of a fault, or of none, on one line. It errs for want of memory alone.
pub fn faults_text(alloc: Global, fault: Option<&JsonFault>) -> Result<Vec<u8>, AllocError>
    ensures { IfOk result (λ text. text.items ≡ faults_written (option_map (λ f. f.now) fault.entry)) }
{
    let mut writer = Writer::new(Vec::new(alloc));
    write_fault_list(&mut writer, fault)?;
    Ok(writer.into_inner())
}
