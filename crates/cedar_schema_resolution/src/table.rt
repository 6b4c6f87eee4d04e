// The table of what a schema declares, before its common types are resolved.
ghost use Rattle.std.specs.Prelude.{◌≡◌, [], ◌∷◌, Some, None, map, IfOk, OnOk};
ghost use Rattle.cedar_typing.specs.Types.{Entities};
ghost use Rattle.cedar_schema_grammar.specs.Declared.{Library, entity_name, type_name};
ghost use Rattle.cedar_schema.specs.Tables.{IsTableOf};
ghost use Rattle.cedar_schema_resolution.specs.BuiltIn.{HasTypes};
ghost use Rattle.cedar_schema_resolution.specs.Declarations.{entity_view, type_view, declared_view};
ghost use Rattle.cedar_schema_resolution.specs.Puts.{ArePut, SameBuiltIn};

use crate::built_in::{ExtensionType, built_in_table};
use crate::declarations::{Declarations, DeclaredEntity, DeclaredType};
use cedar_schema::{SchemaType, TypeTable};
use std::alloc::{AllocError, Global};

// Puts an entity type.
fn put_entity(
    alloc: Global,
    table: &mut TypeTable,
    entity: &DeclaredEntity<'_>,
) -> Result<(), AllocError>
    ensures put { OnOk result (ArePut (entity_name (entity_view entity.now) ∷ []) (λ n. Some (Entities n)) table.old table.new) }
    ensures built_in { OnOk result (SameBuiltIn table.old table.new) }
{
    let name = entity.name(alloc)?;
    let copy = name.clone()?;
    table.declare(copy, Some(SchemaType::Entity(name)))?;
    Ok(())
}

// Puts entity types.
fn put_entities(
    alloc: Global,
    table: &mut TypeTable,
    entities: &[DeclaredEntity<'_>],
) -> Result<(), AllocError>
    ensures put { OnOk result (ArePut (map (λ e. entity_name (entity_view e)) entities.now) (λ n. Some (Entities n)) table.old table.new) }
    ensures built_in { OnOk result (SameBuiltIn table.old table.new) }
{
    for entity in entities {
        put_entity(alloc, table, entity)?;
    }
    Ok(())
}

// Puts a common type, which isn't resolved.
fn put_type(
    alloc: Global,
    table: &mut TypeTable,
    common: &DeclaredType<'_>,
) -> Result<(), AllocError>
    ensures put { OnOk result (ArePut (type_name (type_view common.now) ∷ []) (λ n. None) table.old table.new) }
    ensures built_in { OnOk result (SameBuiltIn table.old table.new) }
{
    let name = common.name(alloc)?;
    table.declare(name, None)?;
    Ok(())
}

// Puts common types, which aren't resolved.
fn put_types(
    alloc: Global,
    table: &mut TypeTable,
    types: &[DeclaredType<'_>],
) -> Result<(), AllocError>
    ensures put { OnOk result (ArePut (map (λ t. type_name (type_view t)) types.now) (λ n. None) table.old table.new) }
    ensures built_in { OnOk result (SameBuiltIn table.old table.new) }
{
    for common in types {
        put_type(alloc, table, common)?;
    }
    Ok(())
}

/// The table of what is declared and of what is built in: the language's own types and these extension types, of two with one
/// name the first. No common type is resolved in it. Refused for memory alone.
pub fn declared_table(
    alloc: Global,
    declared: &Declarations<'_>,
    extensions: &[ExtensionType],
) -> Result<TypeTable, AllocError>
    ensures { IfOk result (λ table. (l : Library) → HasTypes l extensions.now
        → IsTableOf (λ t. None) (declared_view declared.now) l table) }
{
    let mut table = built_in_table(alloc, extensions)?;
    put_entities(alloc, &mut table, &declared.entities)?;
    put_types(alloc, &mut table, &declared.types)?;
    Ok(table)
}
