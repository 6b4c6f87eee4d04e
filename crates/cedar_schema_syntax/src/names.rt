// Names, as they are written.

use std::rc::RcStr;

/// A name that is declared, or that an attribute has: an identifier, or the characters that a string stands for.
#[derive(Debug, PartialEq, Eq, Drop)]
pub struct Name {
    pub text: RcStr,
    /// The byte of the text at which it starts.
    pub place: usize,
}

/// Identifiers with `::` between each two.
#[derive(Debug, PartialEq, Eq, Drop)]
pub struct Path {
    /// The identifiers, in the order of the text.
    pub words: Vec<RcStr>,
    /// The byte of the text at which it starts.
    pub place: usize,
}
