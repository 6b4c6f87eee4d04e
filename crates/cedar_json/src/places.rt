// Where something stands in a text of JSON. What is told here is only tested.
use crate::faults::FaultKind;
use json::{Reader, Scratch, Token};
use std::alloc::{AllocError, Global};

/// One step down into a value: an item, or a member by its key, each with its number.
#[derive(Clone, Copy)]
pub enum Step<'v> {
    Item(usize),
    Member(&'v str, usize),
}

/// A line and a column, each from 1.
#[derive(Clone, Copy)]
pub struct Place {
    pub line: usize,
    pub column: usize,
}

/// The place of a byte.
pub fn place_at(text: &str, byte: usize) -> Place {
    let mut place = Place { line: 1, column: 1 };
    for (index, c) in text.char_indices() {
        if index >= byte {
            return place;
        }
        if c == '\n' {
            place.line = place.line.saturating_add(1);
            place.column = 1;
        } else {
            place.column = place.column.saturating_add(1);
        }
    }
    place
}

/// The JSON pointer of the steps, the last of which stands first.
pub fn pointer_of(alloc: Global, steps: &Vec<Step<'_>>) -> Result<String, AllocError> {
    let mut pointer = String::new(alloc);
    for step in steps.iter().rev() {
        pointer.push('/')?;
        match step {
            Step::Item(number) => {
                let digits = format!(in alloc; "{number}")?;
                pointer.push_str(digits.as_str())?;
            }
            Step::Member(key, _) => push_key(&mut pointer, key)?,
        }
    }
    Ok(pointer)
}

/// A key as a pointer has it: `~` is `~0`, and `/` is `~1`.
fn push_key(pointer: &mut String, key: &str) -> Result<(), AllocError> {
    for c in key.chars() {
        match c {
            '~' => pointer.push_str("~0")?,
            '/' => pointer.push_str("~1")?,
            _ => pointer.push(c)?,
        }
    }
    Ok(())
}

/// Passes so many items of a list.
fn pass_items(reader: &mut Reader<'_>, number: usize) {
    for _ in 0..number {
        let _ = reader.skip_value(json::MAX_DEPTH);
    }
}

/// Passes so many members of an object.
fn pass_members(reader: &mut Reader<'_>, number: usize) {
    for _ in 0..number {
        let _ = reader.next_key();
        let _ = reader.skip_value(json::MAX_DEPTH);
    }
}

/// The place of what the steps lead to, or of its key.
pub fn place_of(
    alloc: Global,
    text: &str,
    steps: &Vec<Step<'_>>,
    at_key: bool,
) -> Result<Place, AllocError> {
    let mut scratch = Scratch::new(alloc);
    let mut reader = Reader::new(text, &mut scratch)?;
    let mut byte = reader.offset();
    for step in steps.iter().rev() {
        let _ = reader.next();
        match step {
            Step::Item(number) => {
                pass_items(&mut reader, *number);
                byte = reader.offset();
            }
            Step::Member(_, number) => {
                pass_members(&mut reader, *number);
                byte = reader.offset();
                let _ = reader.next_key();
                if !at_key {
                    byte = reader.offset();
                }
            }
        }
    }
    Ok(place_at(text, byte))
}

/// The brackets that are open, an object's as true, and what may stand next.
#[derive(Drop)]
struct Syntax {
    open: Vec<bool>,
    keyed: bool,
    done: bool,
}

impl Syntax {
    /// Whether a value may begin here.
    fn may_begin(&self) -> bool {
        match self.open.last() {
            Some(object) => !*object || self.keyed,
            None => !self.done,
        }
    }

    /// Whether this bracket may close here.
    fn may_close(&self, object: bool) -> bool {
        match self.open.last() {
            Some(other) => *other == object && !self.keyed,
            None => false,
        }
    }

    /// Whether a key may stand here.
    fn may_name(&self) -> bool {
        match self.open.last() {
            Some(object) => *object && !self.keyed,
            None => false,
        }
    }

    fn end_value(&mut self) {
        self.keyed = false;
        self.done = self.open.is_empty();
    }

    /// What is wrong with a token.
    fn take(&mut self, token: Token<'_>) -> Result<Option<FaultKind>, AllocError> {
        let fits = match token {
            Token::Key(_) => self.may_name(),
            Token::EndObject => self.may_close(true),
            Token::EndArray => self.may_close(false),
            Token::Bad => false,
            _ => self.may_begin(),
        };
        if !fits {
            return Ok(Some(FaultKind::NotJson));
        }
        match token {
            Token::Key(_) => self.keyed = true,
            Token::EndObject | Token::EndArray => {
                let _ = self.open.pop();
                self.end_value();
            }
            Token::BeginObject | Token::BeginArray => {
                if self.open.len() == json::MAX_DEPTH {
                    return Ok(Some(FaultKind::Nesting));
                }
                self.open.push(matches!(token, Token::BeginObject))?;
                self.keyed = false;
            }
            _ => self.end_value(),
        }
        Ok(None)
    }
}

/// What keeps a text from being JSON, and the byte where it stands.
pub fn syntax_found(alloc: Global, text: &str) -> Result<(FaultKind, usize), AllocError> {
    let mut scratch = Scratch::new(alloc);
    let mut reader = Reader::new(text, &mut scratch)?;
    let mut syntax = Syntax {
        open: Vec::new(alloc),
        keyed: false,
        done: false,
    };
    'tokens: loop {
        let byte = reader.offset();
        let Some(token) = reader.next() else {
            return Ok((FaultKind::NotJson, byte));
        };
        if let Some(kind) = syntax.take(token)? {
            return Ok((kind, byte));
        }
    }
}
