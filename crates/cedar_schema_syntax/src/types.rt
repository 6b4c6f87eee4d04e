// Types, as they are written.

use crate::names::{Name, Path};

/// A type, as it is written. (Cedar language reference, "Schema", data types.)
#[derive(Debug, PartialEq, Eq, Drop)]
#[cycle(types)]
pub enum TypeSyntax {
    /// A type by its name: a common type, an entity type, or one that is built in.
    Named(Path),
    /// `Set<..>`
    Set(Box<TypeSyntax>),
    /// `{..}`: the attributes, in the order of the text.
    Record(Vec<Attribute>),
}

/// Whether an attribute may be missing.
#[derive(Clone, Copy, Debug, PartialEq, Eq)]
pub enum Presence {
    Required,
    /// It is written with `?` behind its name.
    Optional,
}

/// An attribute of a record.
#[derive(Debug, PartialEq, Eq, Drop)]
#[cycle(types)]
pub struct Attribute {
    pub name: Name,
    pub presence: Presence,
    pub written: TypeSyntax,
}
