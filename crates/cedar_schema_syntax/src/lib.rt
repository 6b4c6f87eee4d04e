//! What a schema's text says, before its names are looked up: namespaces and their declarations.
//!
//! What a fault may be told of has its place: the byte of the text at which it starts. No contract tells places: they are
//! only tested.
#![tactic(auto)]

mod actions;
mod declarations;
mod entities;
mod names;
mod types;

pub use actions::{ActionRef, ActionSyntax, AppliesEntry};
pub use declarations::{CommonTypeSyntax, Declaration, Namespace, SchemaSyntax};
pub use entities::{EntitySyntax, EnumerationSyntax};
pub use names::{Name, Path};
pub use types::{Attribute, Presence, TypeSyntax};
