// The schema of what is declared.
ghost use Rattle.std.specs.Prelude.{◌≡◌, IfOk, OnOk, IfErr};
ghost use Rattle.cedar_schema_grammar.specs.Declared.{Library};
ghost use Rattle.cedar_schema_grammar.specs.Resolving.{schema_of};
ghost use Rattle.cedar_schema_resolution.specs.BuiltIn.{HasTypes};
ghost use Rattle.cedar_schema_resolution.specs.Declarations.{declared_view};
ghost use Rattle.cedar_schema_resolution.specs.Resolved.{IsAcyclic, TellsCycle};
ghost use Rattle.cedar_validator_schema.specs.Views.{schema_view, IsSchemaBy};

use crate::action_names::ActionNames;
use crate::action_types::{action_types_of, add_group_types};
use crate::actions::{Actions, DeclaredNames};
use crate::entity_types::EntityTypes;
use crate::schema::ValidatorSchema;
use cedar_schema::TypeTable;
use cedar_schema_resolution::{
    Declarations, EntityNames, EntityShape, ExtensionType, ResolutionError, declared_table,
    resolve_common_types,
};
use std::alloc::{AllocError, Global};
use std::collections::BTreeMap;

// The schema of what is declared, by a table in which common types are resolved.
fn schema_by_table(
    alloc: Global,
    declared: &Declarations<'_>,
    table: &TypeTable,
) -> Result<ValidatorSchema, AllocError>
    ensures { IfOk result (IsSchemaBy table.now (declared_view declared.now)) }
{
    let entities = EntityNames::of(alloc, &declared.entities)?;
    let action_names = ActionNames::of(alloc, &declared.actions)?;
    let names = DeclaredNames {
        entities: &entities,
        actions: &action_names,
        table,
    };
    let mut entity_types = EntityTypes::of(alloc, table, &entities, &declared.entities)?;
    let actions = Actions::of(alloc, names, &declared.actions)?;
    add_group_types(
        alloc,
        &mut entity_types.parents,
        &actions.groups,
        &declared.actions,
    )?;
    let action_types = action_types_of(alloc, &declared.actions)?;
    Ok(ValidatorSchema {
        entity_types,
        actions,
        action_types,
        action_shape: EntityShape {
            attributes: BTreeMap::new(alloc),
            tags: None,
        },
    })
}

impl ValidatorSchema {
    /// The schema of what is declared, with these extension types: of two with one name the first. It is that of the
    /// definition whatever other faults the declarations have: what isn't declared is left out.
    ///
    /// `CycleInCommonTypeReferences` tells a common type that is within itself, and comes exactly where one is; `Memory` that
    /// memory ran out.
    pub fn from_declarations(
        alloc: Global,
        declared: &Declarations<'_>,
        extensions: &[ExtensionType],
    ) -> Result<ValidatorSchema, ResolutionError>
        ensures schema { IfOk result (λ v. (l : Library) → HasTypes l extensions.now
            → schema_view l.signature v ≡ schema_of l (declared_view declared.now)) }
        ensures acyclic { OnOk result (IsAcyclic (declared_view declared.now)) }
        ensures cycle { IfErr result (TellsCycle (declared_view declared.now)) }
    {
        let mut table = declared_table(alloc, declared, extensions)?;
        resolve_common_types(alloc, declared, &mut table)?;
        let schema = schema_by_table(alloc, declared, &table)?;
        Ok(schema)
    }
}
