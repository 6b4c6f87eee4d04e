// Declarations and namespaces.

use crate::actions::ActionSyntax;
use crate::entities::{EntitySyntax, EnumerationSyntax};
use crate::names::{Name, Path};
use crate::types::TypeSyntax;

/// `type A = T;`: a common type. (Cedar language reference, "Schema", common types.)
#[derive(Debug, PartialEq, Eq, Drop)]
pub struct CommonTypeSyntax {
    pub name: Name,
    pub written: TypeSyntax,
}

/// A declaration. Its annotations mean nothing.
#[derive(Debug, PartialEq, Eq, Drop)]
pub enum Declaration {
    Entities(EntitySyntax),
    Enumeration(EnumerationSyntax),
    Actions(ActionSyntax),
    CommonType(CommonTypeSyntax),
}

/// The declarations of a block. (Cedar language reference, "Schema", namespaces.)
#[derive(Debug, PartialEq, Eq, Drop)]
pub struct Namespace {
    /// The namespace's path; none where a declaration stands in no namespace.
    pub path: Option<Path>,
    pub declarations: Vec<Declaration>,
}

/// What a schema's text says, block by block. A declaration that stands in no namespace is a block of its own.
#[derive(Debug, PartialEq, Eq, Drop)]
pub struct SchemaSyntax {
    pub namespaces: Vec<Namespace>,
}
