// Parts of a text of JSON, as they stand there. The text is JSON: that was seen before.
use json::{MAX_DEPTH, Reader, Scratch, Token};
use std::alloc::{AllocError, Global};

/// A value in a text of JSON.
#[derive(Debug, Drop)]
pub(crate) struct Part<'j> {
    /// How it is written.
    pub(crate) text: &'j str,
    /// The byte of the whole text at which it begins.
    pub(crate) start: usize,
    /// What it says, where it is a string.
    pub(crate) string: Option<String>,
}

/// A member of an object.
#[derive(Debug, Drop)]
pub(crate) struct Member<'j> {
    pub(crate) key: String,
    /// The byte of the whole text at which the key begins.
    pub(crate) key_start: usize,
    pub(crate) value: Part<'j>,
}

impl<'j> Part<'j> {
    /// The value that a whole text is.
    pub(crate) fn whole(text: &'j str) -> Part<'j> {
        let value = text.trim_start();
        Part {
            text: value.trim_end(),
            start: text.len().saturating_sub(value.len()),
            string: None,
        }
    }

    pub(crate) fn is_object(&self) -> bool {
        self.text.starts_with('{')
    }

    pub(crate) fn is_list(&self) -> bool {
        self.text.starts_with('[')
    }

    /// The members of an object, in order; none of anything else.
    pub(crate) fn members(&self, alloc: Global) -> Result<Vec<Member<'j>>, AllocError> {
        let mut members = Vec::new(alloc);
        if !self.is_object() {
            return Ok(members);
        }
        let mut scratch = Scratch::new(alloc);
        let mut reader = Reader::new(self.text, &mut scratch)?;
        let _ = reader.next();
        // (a member has a byte at least)
        for _ in 0..self.text.len() {
            let key_start = self.start.saturating_add(reader.offset());
            let Ok(Some(key)) = reader.next_key() else {
                break;
            };
            let key = String::from_str(alloc, key)?;
            let value = self.next_part(alloc, &mut reader)?;
            members.push(Member {
                key,
                key_start,
                value,
            })?;
        }
        Ok(members)
    }

    /// The items of a list, in order; none of anything else.
    pub(crate) fn items(&self, alloc: Global) -> Result<Vec<Part<'j>>, AllocError> {
        let mut items = Vec::new(alloc);
        if !self.is_list() {
            return Ok(items);
        }
        let mut scratch = Scratch::new(alloc);
        let mut reader = Reader::new(self.text, &mut scratch)?;
        let _ = reader.next();
        // (an item has a byte at least)
        for _ in 0..self.text.len() {
            if reader.take_end_array() {
                break;
            }
            let item = self.next_part(alloc, &mut reader)?;
            items.push(item)?;
        }
        Ok(items)
    }

    /// The value that the reader of this text comes to next.
    fn next_part(&self, alloc: Global, reader: &mut Reader<'_>) -> Result<Part<'j>, AllocError> {
        let start = reader.offset();
        let string = match next_string(self.text, reader) {
            Some(text) => Some(String::from_str(alloc, text)?),
            None => None,
        };
        let text = self
            .text
            .get(start..reader.offset())
            .unwrap_or("")
            .trim_end();
        Ok(Part {
            text: text.strip_suffix(',').unwrap_or(text).trim_end(),
            start: self.start.saturating_add(start),
            string,
        })
    }
}

/// Passes a value, and says which string it is, if it is one.
fn next_string<'t>(text: &str, reader: &mut Reader<'t>) -> Option<&'t str> {
    if text.as_bytes().get(reader.offset()) != Some(&b'"') {
        let _ = reader.skip_value(MAX_DEPTH);
        return None;
    }
    match reader.next() {
        Some(Token::String(string)) => Some(string),
        _ => None,
    }
}
