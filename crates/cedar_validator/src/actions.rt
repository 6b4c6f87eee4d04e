// What actions apply to, by names as policies write them.
ghost use Rattle.std.specs.Prelude.{◌≡◌};
ghost use Rattle.cedar_validator_schema.specs.Applying.{application_view};
ghost use Rattle.cedar_validator.specs.SchemaTypes.{AreWritten, ConvertsAction};

use crate::conversion::expr_fields;
use crate::errors::SchemaNameError;
use crate::names::written_type;
use cedar_literals::uids::EntityType;
use cedar_schema::TypeName;
use cedar_typechecker::Field;
use cedar_validator_schema::ValidatorAction;
use std::alloc::Global;
use std::rc::Rc;

/// What an action applies to: the types of principals and of resources, as they are written, and the fields of its context.
#[derive(Debug, Drop)]
pub(crate) struct ActionTypes {
    pub(crate) principals: Vec<EntityType>,
    pub(crate) resources: Vec<EntityType>,
    pub(crate) context: Rc<Vec<Field>>,
}

// The entity types of these names.
fn written_types(alloc: Global, names: &[TypeName]) -> Result<Vec<EntityType>, SchemaNameError>
    ensures { AreWritten names.now result }
{
    let mut types = Vec::new(alloc);
    for name in names {
        types.push(written_type(alloc, name)?)?;
    }
    Ok(types)
}

/// What an action of a schema applies to.
pub(crate) fn action_types(
    alloc: Global,
    action: &ValidatorAction,
) -> Result<ActionTypes, SchemaNameError>
    ensures { ConvertsAction (application_view action.now) result }
{
    let principals = written_types(alloc, action.principals())?;
    let resources = written_types(alloc, action.resources())?;
    let fields = expr_fields(alloc, action.context())?;
    Ok(ActionTypes {
        principals,
        resources,
        context: Rc::new(alloc, fields)?,
    })
}
