// The faults of namespaces, of entity types and of common types.
ghost use Rattle.std.specs.Prelude.{◌≡◌, ◌||◌, ◌++◌, OnOk, map, codes};
ghost use Rattle.std.specs.Rc.{rc_str_bytes};
ghost use Rattle.std.specs.List.{list_any};
ghost use Rattle.cedar_language.specs.Order.{same_text};
ghost use Rattle.cedar_schema_grammar.specs.Declared.{entity_name, type_name};
ghost use Rattle.cedar_schema_grammar.specs.Faults as grammar;
ghost use Rattle.cedar_schema_grammar.specs.Faults.{namespace_faults, shadowing, body_faults, entity_faults, common_type_faults, faults_of_all, where_true};
ghost use Rattle.cedar_schema_syntax.specs.View as syntax;
ghost use Rattle.cedar_schema_resolution.specs.Declarations.{entity_view, type_view};
ghost use Rattle.cedar_schema_faults.specs.Views.{faults_view};
ghost use Rattle.cedar_schema_faults.specs.Telling.{Tells};

use crate::kinds::{SchemaError, SchemaErrorKind};
use crate::names::SchemaNames;
use crate::told::tell;
use cedar_names::comparing::is_same;
use cedar_schema::TypeName;
use cedar_schema_resolution::{DeclaredEntity, DeclaredType, EntityBody};
use cedar_schema_syntax::{EnumerationSyntax, Name, Namespace, Path};
use std::alloc::{AllocError, Global};
use std::rc::RcStr;

// Whether a word is `__cedar`.
fn is_cedar(word: &RcStr) -> bool
    ensures { result ≡ grammar.is_cedar (rc_str_bytes word.now) }
{
    is_same(word.as_str(), "__cedar")
}

// Whether one of these words is `__cedar`.
fn has_cedar(words: &[RcStr]) -> bool
    ensures { result ≡ list_any grammar.is_cedar (map rc_str_bytes words.now) }
{
    let mut has = false;
    for word in words {
        has |= is_cedar(word);
    }
    has
}

// Whether no common type may have this name, since it is that of a built-in one.
fn is_built_in_name(own: &RcStr) -> bool
    ensures { result ≡ grammar.is_built_in_name (rc_str_bytes own.now) }
{
    let own = own.as_str();
    is_same(own, "Bool")
        | (is_same(own, "Boolean")
            | (is_same(own, "Entity")
                | (is_same(own, "Extension")
                    | (is_same(own, "Long")
                        | (is_same(own, "Record")
                            | (is_same(own, "Set") | is_same(own, "String")))))))
}

// Whether a name is that of the types of actions.
fn is_action(own: &Name) -> bool
    ensures { result ≡ same_text (syntax.name_view own.now) (codes "Action") }
{
    is_same(own.text.as_str(), "Action")
}

// Tells a path with `__cedar` in it.
fn tell_reserved_path(
    alloc: Global,
    path: &Path,
    told: &mut Vec<SchemaError>,
) -> Result<(), AllocError>
    ensures { OnOk result (faults_view told.new ≡ faults_view told.old
        ++ where_true (list_any grammar.is_cedar (syntax.path_view path.now)) (grammar.ReservedNamespace (syntax.path_view path.now))) }
{
    let is_reserved = has_cedar(&path.words);
    if !is_reserved {
        return Ok(());
    }
    let name = TypeName::from_path(alloc, path)?;
    tell(SchemaErrorKind::ReservedNamespace(name), path.place, told)
}

// Tells a block whose namespace has `__cedar` in its path.
fn tell_reserved_namespace(
    alloc: Global,
    block: &Namespace,
    told: &mut Vec<SchemaError>,
) -> Result<(), AllocError>
    ensures { OnOk result (faults_view told.new ≡ faults_view told.old ++ namespace_faults (syntax.namespace_view block.now)) }
{
    match &block.path {
        Some(path) => tell_reserved_path(alloc, path, told),
        None => Ok(()),
    }
}

/// Tells the blocks whose namespaces are reserved.
pub fn tell_reserved_namespaces(
    alloc: Global,
    blocks: &[Namespace],
    told: &mut Vec<SchemaError>,
) -> Result<(), AllocError>
    ensures { OnOk result (faults_view told.new
        ≡ faults_view told.old ++ faults_of_all namespace_faults (map syntax.namespace_view blocks.now)) }
{
    for block in blocks {
        tell_reserved_namespace(alloc, block, told)?;
    }
    Ok(())
}

// Tells an entity type that is named as those of actions are.
fn tell_action_type(
    alloc: Global,
    entity: &DeclaredEntity<'_>,
    told: &mut Vec<SchemaError>,
) -> Result<(), AllocError>
    ensures { OnOk result (faults_view told.new ≡ faults_view told.old
        ++ where_true (same_text (entity_view entity.now).own (codes "Action")) (grammar.ActionEntityTypeDeclared (entity_name (entity_view entity.now)))) }
{
    let is_of_actions = is_action(entity.own);
    if !is_of_actions {
        return Ok(());
    }
    let name = entity.name(alloc)?;
    tell(
        SchemaErrorKind::ActionEntityTypeDeclared(name),
        entity.own.place,
        told,
    )
}

// Tells an entity type that is named `__cedar`.
fn tell_reserved_entity(
    alloc: Global,
    entity: &DeclaredEntity<'_>,
    told: &mut Vec<SchemaError>,
) -> Result<(), AllocError>
    ensures { OnOk result (faults_view told.new ≡ faults_view told.old
        ++ where_true (grammar.is_cedar (entity_view entity.now).own) (grammar.ReservedName (entity_name (entity_view entity.now)))) }
{
    let is_reserved = is_cedar(&entity.own.text);
    if !is_reserved {
        return Ok(());
    }
    let name = entity.name(alloc)?;
    tell(SchemaErrorKind::ReservedName(name), entity.own.place, told)
}

// Tells a common type whose name is reserved.
fn tell_reserved_type(
    alloc: Global,
    common: &DeclaredType<'_>,
    told: &mut Vec<SchemaError>,
) -> Result<(), AllocError>
    ensures { OnOk result (faults_view told.new ≡ faults_view told.old
        ++ where_true (grammar.is_built_in_name (type_view common.now).own || grammar.is_cedar (type_view common.now).own)
        (grammar.ReservedName (type_name (type_view common.now)))) }
{
    let own = &common.own.text;
    let is_reserved = is_built_in_name(own) | is_cedar(own);
    if !is_reserved {
        return Ok(());
    }
    let name = common.name(alloc)?;
    tell(SchemaErrorKind::ReservedName(name), common.own.place, told)
}

// Tells an enumeration of no entity.
fn tell_empty_enum(
    alloc: Global,
    entity: &DeclaredEntity<'_>,
    listed: &EnumerationSyntax,
    told: &mut Vec<SchemaError>,
) -> Result<(), AllocError>
    ensures { OnOk result (faults_view told.new ≡ faults_view told.old
        ++ where_true (grammar.is_empty (map rc_str_bytes listed.now.ids.items)) (grammar.EmptyEnum (entity_name (entity_view entity.now)))) }
{
    let ids = listed.ids.as_slice();
    let is_empty = ids.is_empty();
    if !is_empty {
        return Ok(());
    }
    let name = entity.name(alloc)?;
    tell(SchemaErrorKind::EmptyEnum(name), entity.own.place, told)
}

impl SchemaNames {
    // Tells a type of a namespace where one of its name is declared in none.
    fn tell_shadowing(
        &self,
        alloc: Global,
        namespace: &TypeName,
        own: &Name,
        told: &mut Vec<SchemaError>,
    ) -> Result<(), AllocError>
        ensures { OnOk result (Tells self.now told.old told.new (λ d l. shadowing d namespace.now (syntax.name_view own.now))) }
    {
        let is_outside = namespace.words().is_empty();
        if is_outside {
            return Ok(());
        }
        let alone = TypeName::declared(alloc, &[], own)?;
        let is_declared = self.table.declares(&alone);
        if !is_declared {
            return Ok(());
        }
        let name = TypeName::declared(alloc, namespace.words(), own)?;
        tell(SchemaErrorKind::TypeShadowing(name), own.place, told)
    }

    // Tells the faults of what is written of an entity type.
    fn tell_body(
        &self,
        alloc: Global,
        entity: &DeclaredEntity<'_>,
        told: &mut Vec<SchemaError>,
    ) -> Result<(), AllocError>
        ensures { OnOk result (Tells self.now told.old told.new
            (λ d l. body_faults d l (entity_view entity.now) (entity_view entity.now).body)) }
    {
        let namespace = entity.namespace.words();
        match entity.body {
            EntityBody::Shaped(written) => {
                self.tell_undefined_entities(alloc, namespace, &written.parents, told)?;
                self.tell_record(alloc, namespace, &written.attributes, told)?;
                self.tell_maybe_type(alloc, namespace, &written.tags, told)
            }
            EntityBody::Listed(listed) => tell_empty_enum(alloc, entity, listed, told),
        }
    }

    // Tells the faults of an entity type.
    fn tell_entity(
        &self,
        alloc: Global,
        entity: &DeclaredEntity<'_>,
        told: &mut Vec<SchemaError>,
    ) -> Result<(), AllocError>
        ensures { OnOk result (Tells self.now told.old told.new (λ d l. entity_faults d l (entity_view entity.now))) }
    {
        tell_action_type(alloc, entity, told)?;
        tell_reserved_entity(alloc, entity, told)?;
        self.tell_shadowing(alloc, &entity.namespace, entity.own, told)?;
        self.tell_body(alloc, entity, told)
    }

    /// Tells the faults of entity types.
    pub fn tell_entities(
        &self,
        alloc: Global,
        entities: &[DeclaredEntity<'_>],
        told: &mut Vec<SchemaError>,
    ) -> Result<(), AllocError>
        ensures { OnOk result (Tells self.now told.old told.new (λ d l. faults_of_all (entity_faults d l) (map entity_view entities.now))) }
    {
        for entity in entities {
            self.tell_entity(alloc, entity, told)?;
        }
        Ok(())
    }

    // Tells the faults of a common type, but for cycles.
    fn tell_common_type(
        &self,
        alloc: Global,
        common: &DeclaredType<'_>,
        told: &mut Vec<SchemaError>,
    ) -> Result<(), AllocError>
        ensures { OnOk result (Tells self.now told.old told.new (λ d l. common_type_faults d l (type_view common.now))) }
    {
        tell_reserved_type(alloc, common, told)?;
        self.tell_shadowing(alloc, &common.namespace, common.own, told)?;
        self.tell_type(alloc, common.namespace.words(), common.written, told)
    }

    /// Tells the faults of common types, but for cycles.
    pub fn tell_common_types(
        &self,
        alloc: Global,
        types: &[DeclaredType<'_>],
        told: &mut Vec<SchemaError>,
    ) -> Result<(), AllocError>
        ensures { OnOk result (Tells self.now told.old told.new (λ d l. faults_of_all (common_type_faults d l) (map type_view types.now))) }
    {
        for common in types {
            self.tell_common_type(alloc, common, told)?;
        }
        Ok(())
    }
}
