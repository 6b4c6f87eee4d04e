// Faults as JSON.
ghost use Rattle.std.specs.Prelude.{◌≡◌, ◌<◌, ◌++◌, codes, IfOk, OnOk};
ghost use Rattle.std.specs.Fmt.{decimal};
ghost use Rattle.std.specs.List.{flat_map};
ghost use Rattle.std.specs.Option.{option_map};
ghost use Rattle.cedar_messages.specs.Json.{digit, escape, extent_json, further_json, is_control, is_mark, json_of, object, or_null, text_json};

use crate::fault::Fault;
use crate::places::Extent;
use std::alloc::{AllocError, Global};

/// These faults as a JSON list of objects, in their order, on one line of ASCII and of what else the texts have: `line`,
/// `column`, `endLine` and `endColumn`, numbers from 1, or null where no place is known; the strings `kind` and
/// `message`; and `expected` and `help`, a string or null. In strings quotes, backslashes and control characters of ASCII
/// are escaped. (RFC 8259.) Refused for memory alone.
pub fn faults_json(alloc: Global, faults: &[Fault]) -> Result<Vec<u8>, AllocError>
    ensures { IfOk result (λ json. json.items ≡ json_of faults.now) }
{
    let mut json = Vec::new(alloc);
    json.extend_from_slice(b"[")?;
    if let Some((first, others)) = faults.split_first() {
        push_fault(alloc, &mut json, first)?;
        push_further(alloc, &mut json, others)?;
    }
    json.extend_from_slice(b"]")?;
    Ok(json)
}

/// Appends each of these behind a comma.
fn push_further(alloc: Global, json: &mut Vec<u8>, faults: &[Fault]) -> Result<(), AllocError>
    ensures { OnOk result (json.new.items ≡ json.old.items ++ further_json faults.now) }
{
    for fault in faults {
        push_behind_comma(alloc, json, fault)?;
    }
    Ok(())
}

fn push_behind_comma(alloc: Global, json: &mut Vec<u8>, fault: &Fault) -> Result<(), AllocError>
    ensures { OnOk result (json.new.items ≡ json.old.items ++ (codes "," ++ object fault.now)) }
{
    json.extend_from_slice(b",")?;
    push_fault(alloc, json, fault)
}

fn push_fault(alloc: Global, json: &mut Vec<u8>, fault: &Fault) -> Result<(), AllocError>
    ensures { OnOk result (json.new.items ≡ json.old.items ++ object fault.now) }
{
    push_extent(alloc, json, fault.extent)?;
    push_text(json, b",\"kind\":", fault.kind)?;
    push_text(json, b",\"message\":", fault.message.as_str())?;
    push_optional(json, b",\"expected\":", fault.expected())?;
    push_optional(json, b",\"help\":", fault.help())?;
    json.extend_from_slice(b"}")?;
    Ok(())
}

/// Appends how an object begins: by the place.
fn push_extent(alloc: Global, json: &mut Vec<u8>, extent: Option<Extent>) -> Result<(), AllocError>
    ensures { OnOk result (json.new.items ≡ json.old.items ++ extent_json extent) }
{
    match extent {
        None => {
            json.extend_from_slice(
                b"{\"line\":null,\"column\":null,\"endLine\":null,\"endColumn\":null",
            )?;
        }
        Some(extent) => {
            push_number(alloc, json, b"{\"line\":", extent.start.line)?;
            push_number(alloc, json, b",\"column\":", extent.start.column)?;
            push_number(alloc, json, b",\"endLine\":", extent.end.line)?;
            push_number(alloc, json, b",\"endColumn\":", extent.end.column)?;
        }
    }
    Ok(())
}

fn push_number(
    alloc: Global,
    json: &mut Vec<u8>,
    head: &[u8],
    number: usize,
) -> Result<(), AllocError>
    ensures { OnOk result (json.new.items ≡ json.old.items ++ (head.now ++ decimal number)) }
{
    let digits = format!(in alloc; "{number}")?;
    json.extend_from_slice(head)?;
    json.extend_from_slice(digits.as_bytes())?;
    Ok(())
}

/// Appends a string, if there is one, or null.
fn push_optional(json: &mut Vec<u8>, head: &[u8], text: Option<&str>) -> Result<(), AllocError>
    ensures { OnOk result (json.new.items ≡ json.old.items ++ (head.now ++ or_null (option_map (λ t. t.now) text.entry))) }
{
    match text {
        Some(text) => push_text(json, head, text),
        None => {
            json.extend_from_slice(head)?;
            json.extend_from_slice(b"null")?;
            Ok(())
        }
    }
}

fn push_text(json: &mut Vec<u8>, head: &[u8], text: &str) -> Result<(), AllocError>
    ensures { OnOk result (json.new.items ≡ json.old.items ++ (head.now ++ text_json text.now)) }
{
    json.extend_from_slice(head)?;
    json.extend_from_slice(b"\"")?;
    push_escaped(json, text.as_bytes())?;
    json.extend_from_slice(b"\"")?;
    Ok(())
}

fn push_escaped(json: &mut Vec<u8>, bytes: &[u8]) -> Result<(), AllocError>
    ensures { OnOk result (json.new.items ≡ json.old.items ++ flat_map escape bytes.now) }
{
    for byte in bytes {
        push_byte(json, *byte)?;
    }
    Ok(())
}

/// Appends a byte of a string.
fn push_byte(json: &mut Vec<u8>, byte: u8) -> Result<(), AllocError>
    ensures { OnOk result (json.new.items ≡ json.old.items ++ escape byte) }
{
    if is_mark(byte) {
        json.push(b'\\')?;
        json.push(byte)?;
    } else if is_control(byte) {
        json.extend_from_slice(b"\\u00")?;
        json.push(digit(byte / 16))?;
        json.push(digit(byte % 16))?;
    } else {
        json.push(byte)?;
    }
    Ok(())
}

/// Whether a byte is a quote or a backslash.
fn is_mark(byte: u8) -> bool
    ensures { result ≡ is_mark byte }
{
    byte == b'"' || byte == b'\\'
}

/// Whether a byte is a control character of ASCII.
fn is_control(byte: u8) -> bool
    ensures { result ≡ is_control byte }
{
    byte < 32 || byte == 127
}

/// A digit of base 16.
fn digit(number: u8) -> u8
    requires { number < 16 }
    ensures { result ≡ digit number }
{
    if number < 10 {
        b'0' + number
    } else {
        b'a' + (number - 10)
    }
}
