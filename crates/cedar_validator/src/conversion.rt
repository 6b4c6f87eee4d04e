// Types as a schema has them, turned into those of typing.
ghost use Rattle.std.specs.Prelude.{◌≡◌};
ghost use Rattle.cedar_schema.specs.Types.{type_view, fields_of};
ghost use Rattle.cedar_validator.specs.Converting.{Converts, ConvertFields};

use crate::errors::SchemaNameError;
use crate::names::{written_name, written_type};
use cedar_names::texts::SharedText;
use cedar_schema::{AttributeType, SchemaType};
use cedar_typechecker::{BoolType, ExprType, Field};
use std::alloc::Global;
use std::collections::BTreeMap;
use std::rc::Rc;

/// A type of a schema, as typing has it: nothing is known of its Booleans. It recurs as deep as the type nests.
#[cycle(expr_type)]
pub(crate) fn expr_type(
    alloc: Global,
    schema_type: &SchemaType,
) -> Result<ExprType, SchemaNameError>
    ensures { Converts (type_view schema_type.now) result }
{
    match schema_type {
        SchemaType::Boolean => Ok(ExprType::Boolean(BoolType::Unsure)),
        SchemaType::Long => Ok(ExprType::Long),
        SchemaType::String => Ok(ExprType::String),
        SchemaType::Entity(name) => Ok(ExprType::Entity(written_type(alloc, name)?)),
        SchemaType::Set(element) => {
            let element = expr_type(alloc, element)?;
            Ok(ExprType::Set(Rc::new(alloc, element)?))
        }
        SchemaType::Record(attributes) => {
            let fields = expr_fields(alloc, attributes)?;
            Ok(ExprType::Record(Rc::new(alloc, fields)?))
        }
        SchemaType::Extension(name, is_ordered) => {
            Ok(ExprType::Extension(written_name(alloc, name)?, *is_ordered))
        }
    }
}

/// The fields of records with these attributes, in rising order of their names.
#[cycle(expr_type)]
pub(crate) fn expr_fields(
    alloc: Global,
    attributes: &BTreeMap<SharedText, AttributeType>,
) -> Result<Vec<Field>, SchemaNameError>
    ensures { ConvertFields (fields_of attributes.now) result }
{
    let mut fields = Vec::new(alloc);
    for (name, attribute) in attributes {
        let expr_type = expr_type(alloc, &attribute.schema_type)?;
        let text = name.clone()?;
        fields.push(Field {
            name: text.into_smolstr(),
            presence: attribute.presence,
            expr_type,
        })?;
    }
    Ok(fields)
}
