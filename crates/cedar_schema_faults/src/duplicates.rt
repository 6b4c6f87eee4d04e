// What is declared twice.
ghost use Rattle.std.specs.Prelude.{◌≡◌, ◌++◌, map, IfOk, OnOk};
ghost use Rattle.cedar_language.specs.Order.{same_name, same_uid};
ghost use Rattle.cedar_schema_grammar.specs.Declared.{entity_name, type_name, action_uid};
ghost use Rattle.cedar_schema_grammar.specs.Faults as grammar;
ghost use Rattle.cedar_schema_grammar.specs.Faults.{repeated, duplicate_attributes, duplicates};
ghost use Rattle.cedar_schema_syntax.specs.View.{name_view, attribute_view, attributes_view};
ghost use Rattle.cedar_schema_resolution.specs.Declarations.{entity_view, type_view, action_view, declared_view};
ghost use Rattle.cedar_schema_faults.specs.Views.{faults_view};
ghost use Rattle.cedar_schema_faults.specs.Repeats.{HaveKeys, AddsKey};

use crate::kinds::{SchemaError, SchemaErrorKind};
use crate::repeats::tell_repeated;
use crate::uids::ActionUid;
use cedar_names::texts::SharedText;
use cedar_schema::TypeName;
use cedar_schema_resolution::{Declarations, DeclaredAction, DeclaredEntity, DeclaredType};
use cedar_schema_syntax::Attribute;
use std::alloc::{AllocError, Global};

// An entity type, with what is told where it is declared again.
fn key_entity(
    alloc: Global,
    entity: &DeclaredEntity<'_>,
    keyed: &mut Vec<(TypeName, SchemaError)>,
) -> Result<(), AllocError>
    ensures { OnOk result (AddsKey grammar.DuplicateEntityType (entity_name (entity_view entity.now)) keyed.old.items keyed.new.items) }
{
    let name = entity.name(alloc)?;
    let copy = name.clone()?;
    let kind = SchemaErrorKind::DuplicateEntityType(name);
    let place = entity.own.place;
    keyed.push((copy, SchemaError { kind, place }))?;
    Ok(())
}

// Entity types, likewise.
fn keyed_entities(
    alloc: Global,
    entities: &[DeclaredEntity<'_>],
) -> Result<Vec<(TypeName, SchemaError)>, AllocError>
    ensures { IfOk result (λ keyed. HaveKeys grammar.DuplicateEntityType (map entity_name (map entity_view entities.now)) keyed.items) }
{
    let mut keyed = Vec::with_capacity(alloc, entities.len())?;
    for entity in entities {
        key_entity(alloc, entity, &mut keyed)?;
    }
    Ok(keyed)
}

// A common type, likewise.
fn key_common(
    alloc: Global,
    common: &DeclaredType<'_>,
    keyed: &mut Vec<(TypeName, SchemaError)>,
) -> Result<(), AllocError>
    ensures { OnOk result (AddsKey grammar.DuplicateCommonType (type_name (type_view common.now)) keyed.old.items keyed.new.items) }
{
    let name = common.name(alloc)?;
    let copy = name.clone()?;
    let kind = SchemaErrorKind::DuplicateCommonType(name);
    let place = common.own.place;
    keyed.push((copy, SchemaError { kind, place }))?;
    Ok(())
}

// Common types, likewise.
fn keyed_types(
    alloc: Global,
    types: &[DeclaredType<'_>],
) -> Result<Vec<(TypeName, SchemaError)>, AllocError>
    ensures { IfOk result (λ keyed. HaveKeys grammar.DuplicateCommonType (map type_name (map type_view types.now)) keyed.items) }
{
    let mut keyed = Vec::with_capacity(alloc, types.len())?;
    for common in types {
        key_common(alloc, common, &mut keyed)?;
    }
    Ok(keyed)
}

// An action, likewise.
fn key_action(
    alloc: Global,
    action: &DeclaredAction<'_>,
    keyed: &mut Vec<(ActionUid, SchemaError)>,
) -> Result<(), AllocError>
    ensures { OnOk result (AddsKey grammar.DuplicateAction (action_uid (action_view action.now)) keyed.old.items keyed.new.items) }
{
    let name = ActionUid::of(alloc, action)?;
    let copy = name.clone()?;
    let kind = SchemaErrorKind::DuplicateAction(name);
    let place = action.own.place;
    keyed.push((copy, SchemaError { kind, place }))?;
    Ok(())
}

// Actions, likewise.
fn keyed_actions(
    alloc: Global,
    actions: &[DeclaredAction<'_>],
) -> Result<Vec<(ActionUid, SchemaError)>, AllocError>
    ensures { IfOk result (λ keyed. HaveKeys grammar.DuplicateAction (map action_uid (map action_view actions.now)) keyed.items) }
{
    let mut keyed = Vec::with_capacity(alloc, actions.len())?;
    for action in actions {
        key_action(alloc, action, &mut keyed)?;
    }
    Ok(keyed)
}

// An attribute, likewise.
fn key_attribute(
    attribute: &Attribute,
    keyed: &mut Vec<(SharedText, SchemaError)>,
) -> Result<(), AllocError>
    ensures { OnOk result (AddsKey grammar.DuplicateAttribute (name_view attribute.now.name) keyed.old.items keyed.new.items) }
{
    let name = SharedText::new(attribute.name.text.clone()?);
    let copy = name.clone()?;
    let kind = SchemaErrorKind::DuplicateAttribute(name);
    let place = attribute.name.place;
    keyed.push((copy, SchemaError { kind, place }))?;
    Ok(())
}

// Attributes, likewise.
fn keyed_attributes(
    alloc: Global,
    attributes: &[Attribute],
) -> Result<Vec<(SharedText, SchemaError)>, AllocError>
    ensures { IfOk result (λ keyed. HaveKeys grammar.DuplicateAttribute (map (λ w. w.name) (map attribute_view attributes.now)) keyed.items) }
{
    let mut keyed = Vec::with_capacity(alloc, attributes.len())?;
    for attribute in attributes {
        key_attribute(attribute, &mut keyed)?;
    }
    Ok(keyed)
}

// Tells the entity types that are declared again.
fn tell_duplicate_entities(
    alloc: Global,
    entities: &[DeclaredEntity<'_>],
    told: &mut Vec<SchemaError>,
) -> Result<(), AllocError>
    ensures { OnOk result (faults_view told.new ≡ faults_view told.old
        ++ map grammar.DuplicateEntityType (repeated same_name (map entity_name (map entity_view entities.now)))) }
{
    let keyed = keyed_entities(alloc, entities)?;
    tell_repeated(alloc, keyed, told)
}

// Tells the common types that are declared again.
fn tell_duplicate_types(
    alloc: Global,
    types: &[DeclaredType<'_>],
    told: &mut Vec<SchemaError>,
) -> Result<(), AllocError>
    ensures { OnOk result (faults_view told.new ≡ faults_view told.old
        ++ map grammar.DuplicateCommonType (repeated same_name (map type_name (map type_view types.now)))) }
{
    let keyed = keyed_types(alloc, types)?;
    tell_repeated(alloc, keyed, told)
}

// Tells the actions that are declared again.
fn tell_duplicate_actions(
    alloc: Global,
    actions: &[DeclaredAction<'_>],
    told: &mut Vec<SchemaError>,
) -> Result<(), AllocError>
    ensures { OnOk result (faults_view told.new ≡ faults_view told.old
        ++ map grammar.DuplicateAction (repeated same_uid (map action_uid (map action_view actions.now)))) }
{
    let keyed = keyed_actions(alloc, actions)?;
    tell_repeated(alloc, keyed, told)
}

/// Tells the attributes that stand again in their record.
pub(crate) fn tell_duplicate_attributes(
    alloc: Global,
    attributes: &[Attribute],
    told: &mut Vec<SchemaError>,
) -> Result<(), AllocError>
    ensures { OnOk result (faults_view told.new ≡ faults_view told.old
        ++ duplicate_attributes (attributes_view attributes.now)) }
{
    let keyed = keyed_attributes(alloc, attributes)?;
    tell_repeated(alloc, keyed, told)
}

/// Tells what is declared again.
pub fn tell_duplicates(
    alloc: Global,
    declared: &Declarations<'_>,
    told: &mut Vec<SchemaError>,
) -> Result<(), AllocError>
    ensures { OnOk result (faults_view told.new ≡ faults_view told.old ++ duplicates (declared_view declared.now)) }
{
    tell_duplicate_entities(alloc, &declared.entities, told)?;
    tell_duplicate_types(alloc, &declared.types, told)?;
    tell_duplicate_actions(alloc, &declared.actions, told)
}
