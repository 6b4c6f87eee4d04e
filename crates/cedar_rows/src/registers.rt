// What is kept of what a step makes: one thing at a place, or many on a stack.
use crate::answers::{Answer, refused};
use crate::steps::index;
use std::alloc::{AllocError, Global};
use std::collections::BTreeMap;
use std::fmt::Display;
use std::rc::{Rc, RcStr};

fn push_made<T: Display + Drop>(alloc: Global, stack: &mut Vec<T>, value: T) -> Answer {
    let text = value.to_string(alloc)?;
    stack.push(value)?;
    Ok(text)
}

/// Puts what was made on the stack, and answers its text; or answers why it was not made.
pub fn push<T: Display + Drop, E: Display + Drop>(
    alloc: Global,
    stack: &mut Vec<T>,
    found: Result<T, E>,
) -> Answer {
    match found {
        Ok(value) => push_made(alloc, stack, value),
        Err(error) => refused(alloc, error),
    }
}

/// Whether the word writes a number, and the stack has as many.
pub fn has<T>(word: &str, stack: &[T]) -> bool {
    match index(word) {
        Some(count) => count <= stack.len(),
        None => false,
    }
}

/// Whether the stack has an item for each key of the word.
pub fn has_each<T>(keys: &str, stack: &[T]) -> bool {
    count_of(keys) <= stack.len()
}

/// So many from the top of the stack, the lowest first; all where there are fewer. Refused for memory
/// alone.
pub fn taken<T: Drop>(
    alloc: Global,
    count: usize,
    stack: &mut Vec<T>,
) -> Result<Vec<T>, AllocError> {
    let mut values = Vec::new(alloc);
    for _ in 0..count {
        if let Some(value) = stack.pop() {
            values.push(value)?;
        }
    }
    values.reverse();
    Ok(values)
}

/// How many keys the word has; a dash has none.
pub fn count_of(keys: &str) -> usize {
    if keys == "-" {
        return 0;
    }
    keys.split(',').count()
}

/// Each key with its item, as long as there are both. Refused for memory alone.
pub fn paired<T: Drop>(
    alloc: Global,
    keys: &str,
    items: Vec<T>,
) -> Result<Vec<(RcStr, T)>, AllocError> {
    let mut pairs = Vec::new(alloc);
    for (key, item) in keys.split(',').zip(items) {
        pairs.push((RcStr::from_str(alloc, key)?, item))?;
    }
    Ok(pairs)
}

/// The map of the pairs, the last of those with one key. Refused for memory alone.
pub fn mapped<T: Drop>(
    alloc: Global,
    pairs: Vec<(RcStr, T)>,
) -> Result<Rc<BTreeMap<RcStr, T>>, AllocError> {
    let mut map = BTreeMap::new(alloc);
    for (key, item) in pairs {
        map.insert(key, item)?;
    }
    Ok(Rc::new(alloc, map)?)
}
