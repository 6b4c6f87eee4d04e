// What is told of a text, line by line.
ghost use Rattle.std.specs.Prelude.{◌≡◌, ◌++◌, ◌||◌, ◌&&◌, nat_le, nat_lt, string_bytes, IfOk, OnOk};
ghost use Rattle.cedar_messages.specs.Telling.{heading, hides, line_of, Adds, AreBelow, IsLine, TellsOf};

use crate::places::Position;
use std::alloc::{AllocError, Global};

/// A source line of more characters is not shown.
pub(crate) const LONGEST_LINE: usize = 400;

/// The head of a line that tells of a text: `NAME:LINE:COLUMN: `, or `NAME: ` where no place is known. Refused for memory
/// alone.
pub fn heading(alloc: Global, name: &str, place: Option<Position>) -> Result<String, AllocError>
    ensures { IfOk result (λ head. string_bytes head ≡ heading name.now place) }
{
    match place {
        None => format!(in alloc; "{name}: "),
        Some(at) => format!(in alloc; "{name}:{}:{}: ", at.line, at.column),
    }
}

/// Tells a message of a place in the text of this name, on one line, and what is shown below it, which are lines that
/// begin with a space. Refused for memory alone.
pub fn tell(
    alloc: Global,
    told: &mut String,
    name: &str,
    place: Option<Position>,
    message: &str,
    below: &str,
) -> Result<(), AllocError>
    ensures { AreBelow below.now → OnOk result (Adds (TellsOf name.now place) (string_bytes told.old) (string_bytes told.new)) }
{
    let message = on_one_line(alloc, message)?;
    tell_line(alloc, told, name, place, message.as_str(), below)
}

/// Tells a line of a place in the text of this name, as it is, and what is shown below it. Refused for memory alone.
pub fn tell_line(
    alloc: Global,
    told: &mut String,
    name: &str,
    place: Option<Position>,
    message: &str,
    below: &str,
) -> Result<(), AllocError>
    ensures { OnOk result (string_bytes told.new ≡ string_bytes told.old ++ (line_of name.now place message.now ++ below.now)) }
{
    let head = heading(alloc, name, place)?;
    told.push_str(head.as_str())?;
    told.push_str(message)?;
    told.push_str("\n")?;
    told.push_str(below)?;
    Ok(())
}

/// A text on one line, on which its control characters are written as in a string, but for tabs. Refused for memory
/// alone.
pub fn on_one_line(alloc: Global, text: &str) -> Result<String, AllocError>
    ensures { IfOk result (λ line. IsLine (string_bytes line)) }
{
    let mut line = String::new(alloc);
    push_on_line(&mut line, text)?;
    Ok(line)
}

/// Appends a text to a line: in place of its control characters but tabs stands how strings write them. Refused for
/// memory alone.
pub fn push_on_line(told: &mut String, text: &str) -> Result<(), AllocError>
    ensures { OnOk result (Adds IsLine (string_bytes told.old) (string_bytes told.new)) }
{
    for c in text.chars() {
        push_visible(told, c)?;
    }
    Ok(())
}

/// Appends a character to a line.
fn push_visible(told: &mut String, c: char) -> Result<(), AllocError>
    ensures { OnOk result (Adds IsLine (string_bytes told.old) (string_bytes told.new)) }
{
    if c == '\n' {
        return told.push_str("\\n");
    }
    if is_control(c) {
        return push_escape(told, u32::from(c));
    }
    told.push(c)?;
    Ok(())
}

/// Whether a character is a control character but a tab.
fn is_control(c: char) -> bool
    ensures { result ≡ (hides c || nat_le 128 c && nat_le c 159) }
{
    (c < ' ' && c != '\t') || (c >= '\u{7f}' && c <= '\u{9f}')
}

/// Appends how a string writes the character of this number.
fn push_escape(told: &mut String, code: u32) -> Result<(), AllocError>
    ensures { OnOk result (Adds IsLine (string_bytes told.old) (string_bytes told.new)) }
{
    told.push_str("\\u{")?;
    told.push_str(first_digit(code / 16))?;
    told.push_str(digit(code % 16))?;
    told.push_str("}")?;
    Ok(())
}

/// The same digit, but for a 0, which isn't written.
fn first_digit(number: u32) -> &'static str
    ensures { IsLine result.now }
{
    match number {
        0 => "",
        other => digit(other),
    }
}

/// A digit of base 16; `0` where there is none for the number.
fn digit(number: u32) -> &'static str
    ensures { IsLine result.now }
{
    match number {
        1 => "1",
        2 => "2",
        3 => "3",
        4 => "4",
        5 => "5",
        6 => "6",
        7 => "7",
        8 => "8",
        9 => "9",
        10 => "a",
        11 => "b",
        12 => "c",
        13 => "d",
        14 => "e",
        15 => "f",
        _ => "0",
    }
}

/// How many columns a character takes on a line.
fn width(c: char) -> usize {
    match u32::from(c) {
        10 => 2,
        0..=8 | 11..=15 => 5,
        16..=31 | 127..=159 => 6,
        _ => 1,
    }
}

/// Adds a source line that isn't long, and a mark from a column of it, below so many characters.
pub(crate) fn push_marked(
    alloc: Global,
    told: &mut String,
    line: &str,
    column: usize,
    characters: usize,
) -> Result<(), AllocError>
    ensures { OnOk result (Adds AreBelow (string_bytes told.old) (string_bytes told.new)) }
{
    if line.chars().count() > LONGEST_LINE {
        return Ok(());
    }
    let mark = mark_below(alloc, line, column, characters)?;
    push_indented(told, line)?;
    push_indented(told, mark.as_str())
}

/// A mark from this column of a line, whatever tabs and control characters come before.
fn mark_below(
    alloc: Global,
    line: &str,
    column: usize,
    characters: usize,
) -> Result<String, AllocError> {
    let mut mark = String::new(alloc);
    let before = column.saturating_sub(1);
    for c in line.chars().take(before) {
        push_times(&mut mark, if c == '\t' { '\t' } else { ' ' }, width(c))?;
    }
    mark.push('^')?;
    for c in line.chars().skip(column).take(characters.saturating_sub(1)) {
        push_times(&mut mark, '^', width(c))?;
    }
    Ok(mark)
}

fn push_times(told: &mut String, c: char, times: usize) -> Result<(), AllocError> {
    for _ in 0..times {
        told.push(c)?;
    }
    Ok(())
}

/// Adds a line below what it belongs to, behind four spaces. Refused for memory alone.
pub fn push_indented(told: &mut String, line: &str) -> Result<(), AllocError>
    ensures { OnOk result (Adds AreBelow (string_bytes told.old) (string_bytes told.new)) }
{
    told.push_str("    ")?;
    push_on_line(told, line)?;
    told.push_str("\n")?;
    Ok(())
}
