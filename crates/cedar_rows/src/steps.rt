// The words of a step.
use crate::answers::Answer;
use std::alloc::{AllocError, Global};

/// A verb and two words, each empty where the step has none.
#[derive(Drop)]
pub struct Step<'a> {
    /// What is to be done.
    pub verb: &'a str,
    /// The word behind the verb.
    pub one: String,
    /// The word behind the bar.
    pub other: String,
}

/// The verb before the first blank, and the words on both sides of the first bar behind it, their
/// control characters read. Refused for memory alone.
pub fn read<'a>(alloc: Global, step: &'a str) -> Result<Step<'a>, AllocError> {
    let (verb, words) = cut(step);
    let (one, other) = words.split_once('|').unwrap_or((words, ""));
    let one = plain(alloc, one)?;
    let other = plain(alloc, other)?;
    Ok(Step { verb, one, other })
}

/// The first word, and what follows the blank behind it.
pub fn cut(text: &str) -> (&str, &str) {
    text.split_once(' ').unwrap_or((text, ""))
}

/// The number that the word writes, if it writes one.
pub fn index(word: &str) -> Option<usize> {
    word.parse::<usize>().ok()
}

/// The number that the word writes; 0 where it writes none, which a step has to refuse by itself.
pub fn number(word: &str) -> usize {
    word.parse::<usize>().unwrap_or(0)
}

/// The control character that is written as a caret and this one.
fn control(c: char) -> char {
    char::from_u32(u32::from(c) ^ 0x40).unwrap_or(c)
}

/// The text in which a control character is written as a caret and the character 64 above or below it.
/// Refused for memory alone.
pub fn plain(alloc: Global, text: &str) -> Answer {
    let mut plain = String::new(alloc);
    let mut is_control = false;
    for c in text.chars() {
        if is_control {
            plain.push(control(c))?;
            is_control = false;
        } else if c == '^' {
            is_control = true;
        } else {
            plain.push(c)?;
        }
    }
    Ok(plain)
}
