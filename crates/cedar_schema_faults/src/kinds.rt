// Why a schema's text is no schema.

use crate::uids::ActionUid;
use cedar_names::texts::SharedText;
use cedar_schema::TypeName;
use std::fmt;
use thiserror::Error;

/// An action, as it is referred to: by its id, and by its type where that is written.
#[derive(Debug, Drop)]
pub struct ActionReference {
    pub type_name: Option<TypeName>,
    pub id: SharedText,
}

impl fmt::Display for ActionReference {
    fn fmt<W: fmt::Write>(&self, f: &mut fmt::Formatter<W>) -> fmt::Result {
        if let Some(type_name) = &self.type_name {
            write!(f, "{type_name}::")?;
        }
        write!(f, "\"{}\"", self.id)
    }
}

/// A kind of fault, and what it is told of. (Cedar language reference, "Schema".)
#[derive(Debug, Drop, Error)]
pub enum SchemaErrorKind {
    /// A name, as it is written, that stands for no type, or for no entity type where one is due.
    #[error("failed to resolve type `{0}`")]
    TypeNotDefined(TypeName),
    /// A group, as it is referred to, that isn't declared.
    #[error("undeclared action `{0}`")]
    ActionNotDefined(ActionReference),
    /// A common type that is written in itself, or in what is written in it.
    #[error("cycle in common type references involving `{0}`")]
    CycleInCommonTypeReferences(TypeName),
    /// An action that is within itself.
    #[error("cycle in action hierarchy containing `{0}`")]
    CycleInActionHierarchy(ActionUid),
    /// An entity type that is declared again.
    #[error("duplicate entity type `{0}`")]
    DuplicateEntityType(TypeName),
    /// A common type that is declared again.
    #[error("duplicate common type `{0}`")]
    DuplicateCommonType(TypeName),
    /// An action that is declared again.
    #[error("duplicate action `{0}`")]
    DuplicateAction(ActionUid),
    /// An attribute that stands again in its record.
    #[error("duplicate attribute `{0}`")]
    DuplicateAttribute(SharedText),
    /// A type of a namespace, whose name alone is declared in none.
    #[error("`{0}` would shadow an existing type of no namespace")]
    TypeShadowing(TypeName),
    /// An action of a namespace, whose id is an action's of none.
    #[error("`{0}` would shadow an existing action of no namespace")]
    ActionShadowing(ActionUid),
    /// The context of this action isn't a record.
    #[error("the context of action `{0}` is not a record")]
    ContextOrShapeNotRecord(ActionUid),
    /// An entity type that is named as those of actions are.
    #[error("entity type `{0}` declared: `Action` is the type of actions")]
    ActionEntityTypeDeclared(TypeName),
    /// A common type that is named as a built-in one, or a type that is named `__cedar`.
    #[error("`{0}` is reserved and can't be declared as a type")]
    ReservedName(TypeName),
    /// A namespace with `__cedar` in its path.
    #[error("the name `{0}` contains `__cedar`, which is reserved")]
    ReservedNamespace(TypeName),
    /// An enumeration of no entity.
    #[error("enumerated entity type `{0}` has no entity")]
    EmptyEnum(TypeName),
    /// An action that applies to no principal or to no resource.
    #[error("action `{0}` lists no type of principals, or none of resources")]
    EmptyAppliesTo(ActionUid),
    /// `appliesTo` without an entry of principals.
    #[error("missing `principal` in `appliesTo` of action `{0}`")]
    NoPrincipal(ActionUid),
    /// `appliesTo` without an entry of resources.
    #[error("missing `resource` in `appliesTo` of action `{0}`")]
    NoResource(ActionUid),
    /// `appliesTo` with two or more entries of principals.
    #[error("duplicate `principal` in `appliesTo` of action `{0}`")]
    DuplicatePrincipal(ActionUid),
    /// `appliesTo` with two or more entries of resources.
    #[error("duplicate `resource` in `appliesTo` of action `{0}`")]
    DuplicateResource(ActionUid),
    /// `appliesTo` with two or more entries of a context.
    #[error("duplicate `context` in `appliesTo` of action `{0}`")]
    DuplicateContext(ActionUid),
}

/// A fault of a schema, and where it is told.
#[derive(Debug, Drop, Error)]
#[error("{kind}")]
pub struct SchemaError {
    pub kind: SchemaErrorKind,
    /// The byte of the text at which what it is told of starts.
    pub place: usize,
}
