// Values of JSON as Cedar texts.
ghost use Rattle.std.specs.Prelude.{◌≡◌, MatchOption, option_map};
ghost use Rattle.std.specs.List.{list_all};
ghost use Rattle.std.specs.Str.{chars};
ghost use Rattle.json.specs.Json.{object};
ghost use Rattle.json.specs.Value.{value_view, items_view, members_view};
ghost use Rattle.cedar_json.specs.Appended.{Appends};
ghost use Rattle.cedar_json.specs.Entities.{under};
ghost use Rattle.cedar_json.specs.Parts.{key_written, IsNoPair, pair_of, arguments_in};
ghost use Rattle.cedar_json.specs.Written.{is_plain, escaped_char, escaped, quoted, written, items_written, members_written, uid_text, uid_written, name_written, call_written};

use json::Value;
use std::alloc::AllocError;

/// The members of an object, in order.
pub type Members<'a> = Vec<(&'a str, Value<'a>)>;

/// Appends a text as it is.
pub fn write_text(out: &mut String, text: &str) -> Result<(), AllocError>
    ensures { Appends result out.old out.new (chars text.now) }
{
    out.push_str(text)
}

/// Appends a character as it stands between quotes.
fn write_character(out: &mut String, c: char) -> Result<(), AllocError>
    ensures { Appends result out.old out.new (escaped_char c) }
{
    if c == '"' {
        return out.push_str("\\\"");
    }
    if c == '\\' {
        return out.push_str("\\\\");
    }
    if c == '\r' {
        return out.push_str("\\r");
    }
    out.push(c)
}

/// Whether a character stands between quotes as it is.
fn is_plain(c: char) -> bool
    ensures { result ≡ is_plain c }
{
    c != '"' && c != '\\' && c != '\r'
}

fn are_plain(text: &str) -> bool
    ensures { result ≡ list_all is_plain (chars text.now) }
{
    text.chars().all(|c| is_plain(c))
}

/// Appends a string between quotes.
pub fn write_quoted(out: &mut String, text: &str) -> Result<(), AllocError>
    ensures { Appends result out.old out.new (quoted text.now) }
{
    out.push('"')?;
    write_inside(out, text)?;
    out.push('"')
}

fn write_inside(out: &mut String, text: &str) -> Result<(), AllocError>
    ensures { Appends result out.old out.new (escaped (chars text.now)) }
{
    if are_plain(text) {
        return out.push_str(text);
    }
    write_escaped(out, text)
}

fn write_escaped(out: &mut String, text: &str) -> Result<(), AllocError>
    ensures { Appends result out.old out.new (escaped (chars text.now)) }
{
    'characters: for c in text.chars() {
        write_character(out, c)?;
    }
    Ok(())
}

/// Appends a key and its colon.
pub fn write_key(out: &mut String, key: &str) -> Result<(), AllocError>
    ensures { Appends result out.old out.new (key_written key.now) }
{
    write_quoted(out, key)?;
    out.push_str(": ")
}

/// What stands under a key first.
pub fn find<'v, 'a>(members: &'v Members<'a>, key: &str) -> Option<&'v Value<'a>>
    ensures { option_map (λ value. value_view value.now) result
        ≡ under key.now (members_view members.now.items) }
{
    for member in members {
        if member.0 == key {
            return Some(&member.1);
        }
    }
    None
}

/// Two strings under their keys.
#[derive(Clone, Copy)]
pub struct TwoStrings<'v> {
    pub first: (&'v str, &'v str),
    pub second: (&'v str, &'v str),
}

/// The strings of an object of just two.
pub fn two_strings<'v>(value: &'v Value<'_>) -> Option<TwoStrings<'v>>
    ensures { MatchOption result (IsNoPair (value_view value.now))
        (λ pair. value_view value.now ≡ pair_of pair) }
{
    let Value::Object(members) = value else {
        return None;
    };
    if members.len() != 2 {
        return None;
    }
    let (first, second) = (&members[0], &members[1]);
    Some(TwoStrings {
        first: (first.0, first.1.as_str()?),
        second: (second.0, second.1.as_str()?),
    })
}

/// Appends an entity of this type and this id.
fn write_reference(out: &mut String, entity_type: &str, id: &str) -> Result<(), AllocError>
    ensures { Appends result out.old out.new (uid_text entity_type.now id.now) }
{
    write_text(out, entity_type)?;
    out.push_str("::")?;
    write_quoted(out, id)
}

/// Appends an entity, which is given by its type and its id.
pub fn write_uid(out: &mut String, value: &Value<'_>) -> Result<(), AllocError>
    ensures { Appends result out.old out.new (uid_written (value_view value.now)) }
{
    let Some(pair) = two_strings(value) else {
        return Ok(());
    };
    if pair.first.0 == "type" {
        return write_reference(out, pair.first.1, pair.second.1);
    }
    write_reference(out, pair.second.1, pair.first.1)
}

/// Appends a value.
#[cycle(write)]
pub fn write_value(out: &mut String, value: &Value<'_>) -> Result<(), AllocError>
    ensures { Appends result out.old out.new (written (value_view value.now)) }
{
    match value {
        Value::Null => Ok(()),
        Value::Bool(true) => out.push_str("true"),
        Value::Bool(false) => out.push_str("false"),
        Value::Number(digits) => write_text(out, digits),
        Value::String(text) => write_quoted(out, text),
        Value::Array(items) => {
            out.push('[')?;
            write_items(out, items, ']')
        }
        Value::Object(members) => write_object(out, members),
    }
}

/// The items, a comma behind each, up to what closes them.
#[cycle(write)]
fn write_items(out: &mut String, items: &Vec<Value<'_>>, close: char) -> Result<(), AllocError>
    ensures { Appends result out.old out.new (items_written close (items_view items.now.items)) }
{
    for item in items {
        write_value(out, item)?;
        out.push(',')?;
    }
    out.push(close)
}

#[cycle(write)]
fn write_object(out: &mut String, members: &Members<'_>) -> Result<(), AllocError>
    ensures { Appends result out.old out.new (written (object (members_view members.now.items))) }
{
    if members.len() == 1 {
        let member = &members[0];
        if member.0 == "__entity" {
            return write_uid(out, &member.1);
        }
        if member.0 == "__extn" {
            return write_call(out, &member.1);
        }
    }
    out.push('{')?;
    write_members(out, members)
}

#[cycle(write)]
fn write_members(out: &mut String, members: &Members<'_>) -> Result<(), AllocError>
    ensures { Appends result out.old out.new (members_written (members_view members.now.items)) }
{
    for member in members {
        write_key(out, member.0)?;
        write_value(out, &member.1)?;
        out.push(',')?;
    }
    out.push('}')
}

#[cycle(write)]
fn write_call(out: &mut String, value: &Value<'_>) -> Result<(), AllocError>
    ensures { Appends result out.old out.new (call_written (value_view value.now)) }
{
    let Value::Object(members) = value else {
        return Ok(());
    };
    if members.len() != 2 {
        return Ok(());
    }
    let (first, second) = (&members[0], &members[1]);
    if first.0 == "fn" {
        write_name(out, &first.1)?;
        write_arguments(out, second.0, &second.1)
    } else {
        write_name(out, &second.1)?;
        write_arguments(out, first.0, &first.1)
    }
}

fn write_name(out: &mut String, value: &Value<'_>) -> Result<(), AllocError>
    ensures { Appends result out.old out.new (name_written (value_view value.now)) }
{
    match value.as_str() {
        Some(name) => write_text(out, name),
        None => Ok(()),
    }
}

#[cycle(write)]
fn write_arguments(out: &mut String, key: &str, value: &Value<'_>) -> Result<(), AllocError>
    ensures { Appends result out.old out.new (arguments_in key.now (value_view value.now)) }
{
    out.push('(')?;
    if key == "arg" {
        write_value(out, value)?;
        return out.push(')');
    }
    match value {
        Value::Array(items) => write_items(out, items, ')'),
        _ => Ok(()),
    }
}
