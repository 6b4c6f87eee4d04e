//! What lines of the layer of texts answer: a line is a section, a verb, and a text in which control
//! characters are written with a caret. What the section `repeat` piles up stands before the next line's
//! text.
#![tactic(auto)]

mod annotations;
mod conversion;
mod loose;
mod nodes;
mod strict;
mod tokens;

use crate::loose::Told;
use cedar_faults::ExtStyles;
use cedar_rows::{Answer, cut, index, no_case, plain, tell};
use std::alloc::{AllocError, Global};
use std::mem;

/// What earlier lines left.
pub struct Held {
    text: String,
    told: Told,
    styles: ExtStyles,
}

impl Drop for Held {
    fn drop(self) {
        let Held {
            text: _,
            told: _,
            styles: _,
        } = self;
    }
}

/// The section that knows a verb: lines of one section begin with its name.
fn answered(alloc: Global, section: &str, verb: &str, text: &str, held: &mut Held) -> Answer {
    match section {
        "tokens" => tokens::answer(alloc, verb, text),
        "loose" => loose::read(alloc, verb, text, &mut held.told),
        "read" if verb == "expected" => loose::expected(alloc, &held.told),
        "number" => nodes::of_number(alloc, verb, text),
        "maybe" => nodes::of_maybe(alloc, verb, text),
        "names" => conversion::listed(alloc, verb, text, &mut held.styles),
        "expression" if verb == "made" => conversion::expression(alloc, text, &held.styles),
        "policies" => conversion::policies(alloc, verb, text, &held.styles),
        "word" => conversion::word(alloc, verb, text),
        "strict" => strict::read(alloc, verb, text),
        "policy" => conversion::policy(alloc, verb, text, &held.styles),
        "annotations" => annotations::answer(alloc, verb, text),
        _ => no_case(alloc),
    }
}

/// Puts the piece so many times before the next line's text.
fn repeat(text: &mut String, count: usize, piece: &str) -> Result<(), AllocError> {
    for _ in 0..count {
        text.push_str(piece)?;
    }
    Ok(())
}

/// Nothing was made or kept yet.
pub fn none(alloc: Global) -> Held {
    Held {
        text: String::new(alloc),
        told: None,
        styles: conversion::none(alloc),
    }
}

/// What a line answers. Refused for memory alone.
pub fn answer(alloc: Global, line: &str, held: &mut Held) -> Answer {
    let (section, rest) = cut(line);
    let (verb, text) = cut(rest);
    let text = plain(alloc, text)?;
    if section == "repeat" {
        let Some(count) = index(verb) else {
            return no_case(alloc);
        };
        repeat(&mut held.text, count, text.as_str())?;
        return tell(alloc, held.text.len());
    }
    held.text.push_str(text.as_str())?;
    let text = mem::replace(&mut held.text, String::new(alloc));
    answered(alloc, section, verb, text.as_str(), held)
}
