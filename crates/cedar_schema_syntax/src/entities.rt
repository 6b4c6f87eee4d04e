// Declarations of entity types.

use crate::names::{Name, Path};
use crate::types::{Attribute, TypeSyntax};
use std::rc::RcStr;

/// `entity A, B in [C] {..} tags T;`: entity types of one declaration. (Cedar language reference, "Schema", entity types.)
#[derive(Debug, PartialEq, Eq, Drop)]
pub struct EntitySyntax {
    pub names: Vec<Name>,
    /// The types that they may be within.
    pub parents: Vec<Path>,
    /// The attributes of their shape, in the order of the text; none where no shape is written.
    pub attributes: Vec<Attribute>,
    /// The type of their tags, if they may have any.
    pub tags: Option<TypeSyntax>,
}

/// `entity A enum ["x", "y"];`: entity types, and the ids of all their entities.
#[derive(Debug, PartialEq, Eq, Drop)]
pub struct EnumerationSyntax {
    pub names: Vec<Name>,
    pub ids: Vec<RcStr>,
}
