// A schema in the form in which typing asks for it.
ghost use Rattle.std.specs.Prelude.{◌≡◌, ◌||◌, cond, Some, None, option_map, Option, IfOk, IfErr, OnOk};
ghost use Rattle.std.specs.BTreeMap.{is_at};
ghost use Rattle.cedar_language.specs.Uid as language;
ghost use Rattle.cedar_language.specs.Order.{same_name, name_cmp, uid_cmp};
ghost use Rattle.cedar_typing.specs.Schema.{Signature};
ghost use Rattle.cedar_schema.specs.Types.{type_view};
ghost use Rattle.cedar_schema_resolution.specs.Shapes.{shape_view};
ghost use Rattle.cedar_typechecker.specs.Types.{fields_view};
ghost use Rattle.cedar_typechecker.specs.Environments as environments;
ghost use Rattle.cedar_validator_schema.specs.Applying.{application_view};
ghost use Rattle.cedar_validator_schema.specs.Actions.{application_at};
ghost use Rattle.cedar_validator_schema.specs.Views.{shape_in, schema_view};
ghost use Rattle.cedar_validator.specs.Converting.{TellsName};
ghost use Rattle.cedar_validator.specs.SchemaTypes.{shape_names, application_names, action_view, shape_at, action_at, types_view, TellsNamed, ConvertsTags, ConvertsShape};

use crate::actions::{ActionTypes, action_types};
use crate::conversion::{expr_fields, expr_type};
use crate::errors::SchemaNameError;
use crate::names::written_type;
use crate::uids::{entity_uid, schema_uid, type_name_of};
use cedar_literals::uids::{EntityType, EntityUID};
use cedar_schema::{SchemaType, TypeName};
use cedar_typechecker::{EntityShape, ExprType, Field};
use cedar_validator_schema::{Uid, ValidatorAction, ValidatorSchema};
use std::alloc::{AllocError, Global};
use std::collections::BTreeMap;
use std::rc::Rc;

// The type of tags, where entities have any.
fn tags_type(alloc: Global, tags: &Option<SchemaType>) -> Result<Option<ExprType>, SchemaNameError>
    ensures { ConvertsTags (option_map type_view tags.now) result }
{
    match tags {
        Some(tags) => Ok(Some(expr_type(alloc, tags)?)),
        None => Ok(None),
    }
}

// A shape, as typing has it.
fn expr_shape(
    alloc: Global,
    shape: &cedar_schema_resolution::EntityShape,
) -> Result<EntityShape, SchemaNameError>
    ensures { ConvertsShape (shape_view shape.now) result }
{
    let attributes = expr_fields(alloc, &shape.attributes)?;
    let tags = tags_type(alloc, &shape.tags)?;
    Ok(EntityShape {
        attributes: Rc::new(alloc, attributes)?,
        tags,
    })
}

// Puts the shape of the entity type of this name.
fn put_shape(
    alloc: Global,
    name: &TypeName,
    shape: &cedar_schema_resolution::EntityShape,
    shapes: &mut BTreeMap<EntityType, EntityShape>,
) -> Result<(), SchemaNameError>
    ensures ok { OnOk result ((n : language.Name) → shape_at shapes.new n
        ≡ cond (is_at (name_cmp name.now) n) (Some (shape_view shape.now)) (shape_at shapes.old n)) }
    ensures err { IfErr result (TellsName (λ n. same_name name.now n || shape_names (shape_view shape.now) n)) }
{
    let entity_type = written_type(alloc, name)?;
    let shape = expr_shape(alloc, shape)?;
    shapes.insert(entity_type, shape)?;
    Ok(())
}

// The shapes of the entity types of a schema.
fn shapes_of(
    alloc: Global,
    schema: &ValidatorSchema,
) -> Result<BTreeMap<EntityType, EntityShape>, SchemaNameError>
    ensures ok { IfOk result (λ shapes. (n : language.Name) → shape_at shapes n ≡ shape_in schema.now n) }
    ensures err { IfErr result (TellsNamed schema.now) }
{
    let names = schema.entity_type_names(alloc)?;
    let mut shapes = BTreeMap::new(alloc);
    for name in &names {
        if let Some(shape) = schema.entity_type(name) {
            put_shape(alloc, name, shape, &mut shapes)?;
        }
    }
    Ok(shapes)
}

// Puts what an action applies to.
fn put_action(
    alloc: Global,
    uid: &Uid,
    action: &ValidatorAction,
    actions: &mut BTreeMap<EntityUID, ActionTypes>,
) -> Result<(), SchemaNameError>
    ensures ok { OnOk result ((u : language.Uid) → action_at actions.new u
        ≡ cond (is_at (uid_cmp uid.now) u) (Some (application_view action.now)) (action_at actions.old u)) }
    ensures err { IfErr result (TellsName (λ n. same_name uid.now.type_name n || application_names (application_view action.now) n)) }
{
    let written = entity_uid(alloc, uid)?;
    let types = action_types(alloc, action)?;
    actions.insert(written, types)?;
    Ok(())
}

// What the actions of a schema apply to.
fn actions_of(
    alloc: Global,
    schema: &ValidatorSchema,
) -> Result<BTreeMap<EntityUID, ActionTypes>, SchemaNameError>
    ensures ok { IfOk result (λ actions. (u : language.Uid) → action_at actions u ≡ application_at schema.now.actions u) }
    ensures err { IfErr result (TellsNamed schema.now) }
{
    let uids = schema.actions(alloc)?;
    let mut actions = BTreeMap::new(alloc);
    for uid in &uids {
        if let Some(action) = schema.action(uid) {
            put_action(alloc, uid, action, &mut actions)?;
        }
    }
    Ok(actions)
}

/// A schema in the form in which typing asks for it: names as policies write them, and of each entity type and each context the
/// types of its attributes. Contracts see the schema of typing (`types_view`), with the extension functions that are asked for.
/// Its memory is linear in what the schema declares, with common types unfolded.
#[derive(Drop)]
pub struct SchemaTypes {
    pub(crate) schema: ValidatorSchema,
    pub(crate) shapes: BTreeMap<EntityType, EntityShape>,
    pub(crate) actions: BTreeMap<EntityUID, ActionTypes>,
    // the fields of the context of an action that isn't declared: none
    pub(crate) no_context: Rc<Vec<Field>>,
}

impl SchemaTypes {
    /// The schema. `UnwritableName` tells a name in it that no policy can write, `Memory` that memory ran out.
    pub fn new(alloc: Global, schema: ValidatorSchema) -> Result<SchemaTypes, SchemaNameError>
        ensures ok { IfOk result (λ t. (s : language.Name → Option Signature) → types_view s t ≡ schema_view s schema) }
        ensures err { IfErr result (TellsNamed schema) }
    {
        let shapes = shapes_of(alloc, &schema)?;
        let actions = actions_of(alloc, &schema)?;
        let no_context = Rc::new(alloc, Vec::new(alloc))?;
        Ok(SchemaTypes {
            schema,
            shapes,
            actions,
            no_context,
        })
    }

    /// The shape of an entity type.
    pub(crate) fn shape(&self, name: &EntityType) -> Option<&EntityShape>
        ensures { option_map (λ shape. environments.shape_view shape.now) result ≡ shape_at self.now.shapes name.now }
    {
        self.shapes.get(name)
    }

    /// What an action applies to.
    pub(crate) fn action(&self, uid: &EntityUID) -> Option<&ActionTypes>
        ensures { option_map (λ action. action_view action.now) result ≡ action_at self.now.actions uid.now }
    {
        self.actions.get(uid)
    }

    /// The fields of the context of an action.
    pub(crate) fn context(&self, uid: &EntityUID) -> &Rc<Vec<Field>>
        ensures { (s : language.Name → Option Signature) → fields_view result.now.value.items ≡ (types_view s self.now).context uid.now }
    {
        match self.action(uid) {
            Some(action) => &action.context,
            None => &self.no_context,
        }
    }

    /// Whether a policy may name an entity. Refused for memory alone.
    pub(crate) fn may_name(&self, alloc: Global, uid: &EntityUID) -> Result<bool, AllocError>
        ensures { IfOk result (λ may. (s : language.Name → Option Signature) → may ≡ (types_view s self.now).may_name uid.now) }
    {
        let named = schema_uid(alloc, uid)?;
        Ok(self.schema.may_name(&named))
    }

    /// Whether entities of a type may have ancestors of another. Refused for memory alone.
    pub(crate) fn may_reach(
        &self,
        alloc: Global,
        from: &EntityType,
        to: &EntityType,
    ) -> Result<bool, AllocError>
        ensures { IfOk result (λ reaches. (s : language.Name → Option Signature) → reaches ≡ (types_view s self.now).may_reach from.now to.now) }
    {
        let from = type_name_of(alloc, from)?;
        let to = type_name_of(alloc, to)?;
        self.schema.may_reach(alloc, &from, &to)
    }

    /// Whether an action is within a group. Refused for memory alone.
    pub(crate) fn action_reaches(
        &self,
        alloc: Global,
        action: &EntityUID,
        group: &EntityUID,
    ) -> Result<bool, AllocError>
        ensures { IfOk result (λ reaches. (s : language.Name → Option Signature) → reaches ≡ (types_view s self.now).action_reaches action.now group.now) }
    {
        let action = schema_uid(alloc, action)?;
        let group = schema_uid(alloc, group)?;
        self.schema.action_reaches(alloc, &action, &group)
    }
}
