// Declarations of actions.

use crate::names::{Name, Path};
use crate::types::TypeSyntax;
use std::rc::RcStr;

/// An action, as it is referred to: `"view"`, `view` or `Photos::Action::"view"`.
#[derive(Debug, PartialEq, Eq, Drop)]
pub struct ActionRef {
    /// The path of its type, where that is written.
    pub type_name: Option<Path>,
    pub name: RcStr,
    /// The byte of the text at which it starts.
    pub place: usize,
}

/// An entry of `appliesTo`. Each place is the byte of the text at which the entry starts.
#[derive(Debug, PartialEq, Eq, Drop)]
pub enum AppliesEntry {
    /// `principal: [..]`
    Principals { types: Vec<Path>, place: usize },
    /// `resource: [..]`
    Resources { types: Vec<Path>, place: usize },
    /// `context: ..`: a record, or the name of one.
    Context { written: TypeSyntax, place: usize },
}

/// `action a, "b" in [c] appliesTo {..};`: actions of one declaration. (Cedar language reference, "Schema", actions.)
#[derive(Debug, PartialEq, Eq, Drop)]
pub struct ActionSyntax {
    pub names: Vec<Name>,
    /// The groups that they are in.
    pub groups: Vec<ActionRef>,
    /// What they apply to, entry by entry; a group alone has none.
    pub applies_to: Option<Vec<AppliesEntry>>,
}
