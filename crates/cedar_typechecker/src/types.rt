// Types of expressions.
ghost use Rattle.std.specs.Prelude.{◌≡◌, IfOk};
ghost use Rattle.std.specs.Option.{option_map, option_copied};
ghost use Rattle.cedar_typing.specs.Types as theory;
ghost use Rattle.cedar_typechecker.specs.Types.{bool_type_view, type_view, fields_view, bool_type_in, is_long, is_string, entity_in, element_in, fields_in, extension_in, ordered_in};

use cedar_literals::uids::EntityType;
use cedar_names::names::Name;
use cedar_schema_syntax::Presence;
use std::alloc::{AllocError, Global};
use std::rc::{Rc, RcStr};

/// What is known of a Boolean.
#[derive(Clone, Copy, Debug, PartialEq, Eq)]
pub enum BoolType {
    AlwaysTrue,
    AlwaysFalse,
    Unsure,
}

/// A type of expressions, seen by contracts through `type_view`. Copies share what is below them.
/// (Cedar language reference, "Policy validation".)
#[derive(Debug, Drop)]
#[cycle(types)]
pub enum ExprType {
    /// Booleans, and what is known of them.
    Boolean(BoolType),
    Long,
    String,
    /// Entities of one type.
    Entity(EntityType),
    Set(Rc<ExprType>),
    /// Records of these fields and no others, in rising order of their names.
    Record(Rc<Vec<Field>>),
    /// Values of the extension type of this name, and whether they have an order.
    Extension(Name, bool),
}

/// A field of records.
#[derive(Debug, Drop)]
#[cycle(types)]
pub struct Field {
    pub name: RcStr,
    /// Whether each record has it.
    pub presence: Presence,
    pub expr_type: ExprType,
}

impl ExprType {
    /// A copy that shares what is below it; refused for memory alone.
    pub fn share(&self, alloc: Global) -> Result<ExprType, AllocError>
        ensures { IfOk result (λ copy. type_view copy ≡ type_view self.now) }
    {
        Ok(match self {
            ExprType::Boolean(bool_type) => ExprType::Boolean(*bool_type),
            ExprType::Long => ExprType::Long,
            ExprType::String => ExprType::String,
            ExprType::Entity(name) => ExprType::Entity(name.clone(alloc)?),
            ExprType::Set(element) => ExprType::Set(element.clone()?),
            ExprType::Record(fields) => ExprType::Record(fields.clone()?),
            ExprType::Extension(name, is_ordered) => {
                ExprType::Extension(name.clone(alloc)?, *is_ordered)
            }
        })
    }

    /// What is known of its values, if they are Booleans.
    pub fn as_boolean(&self) -> Option<BoolType>
        ensures { option_map bool_type_view result ≡ bool_type_in (type_view self.now) }
    {
        match self {
            ExprType::Boolean(bool_type) => Some(*bool_type),
            ExprType::Long
            | ExprType::String
            | ExprType::Entity(_)
            | ExprType::Set(_)
            | ExprType::Record(_)
            | ExprType::Extension(_, _) => None,
        }
    }

    /// Whether its values are longs.
    pub fn is_long(&self) -> bool
        ensures { result ≡ is_long (type_view self.now) }
    {
        match self {
            ExprType::Long => true,
            ExprType::Boolean(_)
            | ExprType::String
            | ExprType::Entity(_)
            | ExprType::Set(_)
            | ExprType::Record(_)
            | ExprType::Extension(_, _) => false,
        }
    }

    /// Whether its values are strings.
    pub fn is_string(&self) -> bool
        ensures { result ≡ is_string (type_view self.now) }
    {
        match self {
            ExprType::String => true,
            ExprType::Boolean(_)
            | ExprType::Long
            | ExprType::Entity(_)
            | ExprType::Set(_)
            | ExprType::Record(_)
            | ExprType::Extension(_, _) => false,
        }
    }

    /// The type of its entities, if its values are entities.
    pub fn as_entity(&self) -> Option<&EntityType>
        ensures { option_copied result ≡ entity_in (type_view self.now) }
    {
        match self {
            ExprType::Entity(name) => Some(name),
            ExprType::Boolean(_)
            | ExprType::Long
            | ExprType::String
            | ExprType::Set(_)
            | ExprType::Record(_)
            | ExprType::Extension(_, _) => None,
        }
    }

    /// The type of the elements, if its values are sets.
    pub fn as_element(&self) -> Option<&Rc<ExprType>>
        ensures { option_map (λ element. type_view element.now.value) result ≡ element_in (type_view self.now) }
    {
        match self {
            ExprType::Set(element) => Some(element),
            ExprType::Boolean(_)
            | ExprType::Long
            | ExprType::String
            | ExprType::Entity(_)
            | ExprType::Record(_)
            | ExprType::Extension(_, _) => None,
        }
    }

    /// The fields, if its values are records.
    pub fn as_fields(&self) -> Option<&[Field]>
        ensures { option_map (λ fields. fields_view fields.now) result ≡ fields_in (type_view self.now) }
    {
        match self {
            ExprType::Record(fields) => Some(fields.as_slice()),
            ExprType::Boolean(_)
            | ExprType::Long
            | ExprType::String
            | ExprType::Entity(_)
            | ExprType::Set(_)
            | ExprType::Extension(_, _) => None,
        }
    }

    /// The name of its extension type and whether that has an order, if its values are of one.
    pub fn as_extension(&self) -> Option<(&Name, bool)>
        ensures { option_map (λ extension. (extension.0.now, extension.1)) result ≡ extension_in (type_view self.now) }
    {
        match self {
            ExprType::Extension(name, is_ordered) => Some((name, *is_ordered)),
            ExprType::Boolean(_)
            | ExprType::Long
            | ExprType::String
            | ExprType::Entity(_)
            | ExprType::Set(_)
            | ExprType::Record(_) => None,
        }
    }

    /// The name of its extension type, if its values are of one that has an order.
    pub fn as_ordered(&self) -> Option<&Name>
        ensures { option_copied result ≡ ordered_in (type_view self.now) }
    {
        match self {
            ExprType::Extension(name, is_ordered) => {
                if *is_ordered {
                    return Some(name);
                }
                None
            }
            ExprType::Boolean(_)
            | ExprType::Long
            | ExprType::String
            | ExprType::Entity(_)
            | ExprType::Set(_)
            | ExprType::Record(_) => None,
        }
    }
}
