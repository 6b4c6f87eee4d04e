// The shapes of entity types.
ghost use Rattle.std.specs.Prelude.{◌≡◌, IfOk, option_map};
ghost use Rattle.cedar_schema_grammar.specs.Declared.{shaped};
ghost use Rattle.cedar_schema_syntax.specs.View as syntax;
ghost use Rattle.cedar_schema.specs.Types.{type_view};
ghost use Rattle.cedar_schema_resolution.specs.Declarations.{entity_view};
ghost use Rattle.cedar_schema_resolution.specs.Shapes.{shape_view, IsShapeOf, AreTags};

use crate::declarations::{DeclaredEntity, EntityBody};
use cedar_names::texts::SharedText;
use cedar_schema::{AttributeType, SchemaType, TypeTable};
use cedar_schema_syntax::{EntitySyntax, TypeSyntax};
use std::alloc::{AllocError, Global};
use std::collections::BTreeMap;

/// What entities of a type have. (Cedar language reference, "Schema", entity types.)
#[derive(Drop)]
pub struct EntityShape {
    pub attributes: BTreeMap<SharedText, AttributeType>,
    /// The type of their tags, where they may have any.
    pub tags: Option<SchemaType>,
}

// The type of tags, where they are written and it is known.
fn written_tags(
    alloc: Global,
    table: &TypeTable,
    namespace: &[SharedText],
    tags: &Option<TypeSyntax>,
) -> Result<Option<SchemaType>, AllocError>
    ensures { IfOk result (λ o. AreTags table.now namespace.now (option_map syntax.type_view tags.now) (option_map type_view o)) }
{
    match tags {
        Some(written) => table.written_type(alloc, namespace, written),
        None => Ok(None),
    }
}

// The shape that is written.
fn written_shape(
    alloc: Global,
    table: &TypeTable,
    namespace: &[SharedText],
    written: &EntitySyntax,
) -> Result<Option<EntityShape>, AllocError>
    ensures { IfOk result (λ o. IsShapeOf table.now namespace.now (shaped (syntax.entity_view written.now)) (option_map shape_view o)) }
{
    let Some(attributes) = table.written_attributes(alloc, namespace, &written.attributes)? else {
        return Ok(None);
    };
    let tags = written_tags(alloc, table, namespace, &written.tags)?;
    Ok(Some(EntityShape { attributes, tags }))
}

impl DeclaredEntity<'_> {
    /// Its shape, by a table in which common types are resolved: none where an attribute has no type, or stands twice. Tags
    /// without a type are left out; an enumeration has neither. Refused for memory alone.
    pub fn shape(&self, alloc: Global, table: &TypeTable) -> Result<Option<EntityShape>, AllocError>
        ensures { IfOk result (λ o. IsShapeOf table.now self.now.namespace (entity_view self.now).body (option_map shape_view o)) }
    {
        match self.body {
            EntityBody::Shaped(written) => {
                written_shape(alloc, table, self.namespace.words(), written)
            }
            EntityBody::Listed(_) => Ok(Some(EntityShape {
                attributes: BTreeMap::new(alloc),
                tags: None,
            })),
        }
    }
}
