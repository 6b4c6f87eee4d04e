// Types of values, as schemas declare them.
ghost use Rattle.std.specs.Prelude.{◌≡◌, IfOk};
ghost use Rattle.cedar_schema.specs.Types.{type_view};

use crate::names::TypeName;
use cedar_names::texts::SharedText;
use cedar_schema_syntax::Presence;
use std::alloc::AllocError;
use std::collections::BTreeMap;
use std::rc::Rc;

/// A type of values; common types are unfolded in it. (Cedar language reference, "Schema", data types.) Copies share what is
/// below them, so that a common type which is used many times is kept once.
#[derive(Debug, Drop)]
#[cycle(schema_types)]
pub enum SchemaType {
    Boolean,
    Long,
    String,
    /// Entities of the type of this name.
    Entity(TypeName),
    Set(Rc<SchemaType>),
    /// Records of these attributes and no others.
    Record(Rc<BTreeMap<SharedText, AttributeType>>),
    /// Values of the extension type of this name, and whether they have an order.
    Extension(TypeName, bool),
}

/// The type of an attribute.
#[derive(Debug, Drop)]
#[cycle(schema_types)]
pub struct AttributeType {
    /// Whether each record has the attribute.
    pub presence: Presence,
    pub schema_type: SchemaType,
}

impl SchemaType {
    /// A copy that shares what is below it; refused for memory alone.
    pub fn share(&self) -> Result<SchemaType, AllocError>
        ensures { IfOk result (λ copy. type_view copy ≡ type_view self.now) }
    {
        Ok(match self {
            SchemaType::Boolean => SchemaType::Boolean,
            SchemaType::Long => SchemaType::Long,
            SchemaType::String => SchemaType::String,
            SchemaType::Entity(name) => SchemaType::Entity(name.clone()?),
            SchemaType::Set(element) => SchemaType::Set(element.clone()?),
            SchemaType::Record(attributes) => SchemaType::Record(attributes.clone()?),
            SchemaType::Extension(name, is_ordered) => {
                SchemaType::Extension(name.clone()?, *is_ordered)
            }
        })
    }
}
