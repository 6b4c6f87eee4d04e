// Entity types by their names.
ghost use Rattle.std.specs.Prelude.{◌≡◌, [], map, IfOk, OnOk, option_map};
ghost use Rattle.std.specs.List.{list_any};
ghost use Rattle.std.specs.BTreeSet.{contains};
ghost use Rattle.std.specs.Rc.{rc_str_bytes};
ghost use Rattle.cedar_language.specs.Uid.{Text};
ghost use Rattle.cedar_language.specs.Order.{same_text, text_cmp};
ghost use Rattle.cedar_schema_grammar.specs.Declared.{Library, Declared};
ghost use Rattle.cedar_schema_grammar.specs.Resolving.{body_lists};
ghost use Rattle.cedar_schema_resolution.specs.Declarations.{body_view, entity_view};
ghost use Rattle.cedar_schema_resolution.specs.Shapes.{shape_view, IsShapeOf};
ghost use Rattle.cedar_validator_schema.specs.EntityTypes.{may_have, shape_at, ids_at, HasTypes, PutsType, AreTypes};

use crate::hierarchies::Hierarchy;
use cedar_names::texts::SharedText;
use cedar_schema::{TypeName, TypeTable};
use cedar_schema_resolution::{DeclaredEntity, EntityBody, EntityNames, EntityShape};
use std::alloc::{AllocError, Global};
use std::collections::{BTreeMap, BTreeSet};
use std::rc::RcStr;

/// The ids that entities of a type may have.
#[derive(Drop)]
pub enum EntityIds {
    Any,
    /// Of an enumeration those that it lists.
    Listed(BTreeSet<SharedText>),
}

impl EntityIds {
    /// Whether an entity may have this id.
    pub fn may_have(&self, id: &SharedText) -> bool
        ensures { result ≡ may_have self.now id.now }
    {
        match self {
            EntityIds::Any => true,
            EntityIds::Listed(ids) => ids.contains(id),
        }
    }
}

/// An entity type that is declared. (Cedar language reference, "Schema", entity types.)
#[derive(Drop)]
pub struct ValidatorEntityType {
    /// Its shape: none where an attribute has no type.
    pub(crate) shape: Option<EntityShape>,
    pub(crate) ids: EntityIds,
}

// A text, shared.
fn shared(text: &RcStr) -> Result<SharedText, AllocError>
    ensures { IfOk result (λ copy. copy ≡ rc_str_bytes text.now) }
{
    Ok(SharedText::new(text.clone()?))
}

// The set of texts.
fn text_set(alloc: Global, texts: &[RcStr]) -> Result<BTreeSet<SharedText>, AllocError>
    ensures { IfOk result (λ all. (s : Text) → contains text_cmp all s ≡ list_any (same_text s) (map rc_str_bytes texts.now)) }
{
    let mut all = BTreeSet::new(alloc);
    for text in texts {
        let copy = shared(text)?;
        all.insert(copy)?;
    }
    Ok(all)
}

// The ids that entities of a type with this body may have.
fn ids_of(alloc: Global, body: &EntityBody<'_>) -> Result<EntityIds, AllocError>
    ensures { IfOk result (λ ids. (s : Text) → may_have ids s ≡ body_lists (body_view body.now) s) }
{
    match body {
        EntityBody::Shaped(_) => Ok(EntityIds::Any),
        EntityBody::Listed(written) => Ok(EntityIds::Listed(text_set(alloc, &written.ids)?)),
    }
}

// An entity type that is declared, by a table in which common types are resolved.
fn entity_type_of(
    alloc: Global,
    table: &TypeTable,
    entity: &DeclaredEntity<'_>,
) -> Result<ValidatorEntityType, AllocError>
    ensures shape { IfOk result (λ t. IsShapeOf table.now entity.now.namespace (entity_view entity.now).body (option_map shape_view t.shape)) }
    ensures ids { IfOk result (λ t. (s : Text) → may_have t.ids s ≡ body_lists (entity_view entity.now).body s) }
{
    Ok(ValidatorEntityType {
        shape: entity.shape(alloc, table)?,
        ids: ids_of(alloc, &entity.body)?,
    })
}

/// The entity types that are declared, by their names: of two of a name the first.
#[derive(Drop)]
pub(crate) struct EntityTypes {
    pub(crate) by_name: BTreeMap<TypeName, ValidatorEntityType>,
    /// The types that their entities may have parents of.
    pub(crate) parents: Hierarchy<TypeName>,
}

impl EntityTypes {
    /// Those that are declared, by a table in which common types are resolved. Refused for memory alone.
    pub(crate) fn of(
        alloc: Global,
        table: &TypeTable,
        names: &EntityNames,
        entities: &[DeclaredEntity<'_>],
    ) -> Result<EntityTypes, AllocError>
        ensures { IfOk result (AreTypes table.now names.now (map entity_view entities.now)) }
    {
        let mut types = EntityTypes::new(alloc);
        for number in (0..entities.len()).rev() {
            types.put(alloc, table, names, &entities[number])?;
        }
        Ok(types)
    }

    // No types.
    fn new(alloc: Global) -> EntityTypes
        ensures { (d : Declared) (l : Library) → HasTypes d l [] result }
    {
        EntityTypes {
            by_name: BTreeMap::new(alloc),
            parents: Hierarchy::new(alloc),
        }
    }

    // Puts one, over another of its name.
    fn put(
        &mut self,
        alloc: Global,
        table: &TypeTable,
        names: &EntityNames,
        entity: &DeclaredEntity<'_>,
    ) -> Result<(), AllocError>
        ensures { OnOk result (PutsType table.now names.now (entity_view entity.now) self.old self.new) }
    {
        let name = entity.name(alloc)?;
        let copy = name.clone()?;
        let parents = entity.parents(alloc, names)?;
        let entity_type = entity_type_of(alloc, table, entity)?;
        self.by_name.insert(name, entity_type)?;
        self.parents.set(copy, parents)?;
        Ok(())
    }

    /// The shape of a type that is declared.
    pub(crate) fn shape(&self, name: &TypeName) -> Option<&EntityShape>
        ensures { option_map (λ s. shape_view s.now) result ≡ shape_at self.now name.now }
    {
        self.by_name.get(name)?.shape.as_ref()
    }

    /// Whether a policy may name an entity of the type by this id.
    pub(crate) fn may_have(&self, name: &TypeName, id: &SharedText) -> bool
        ensures { result ≡ ids_at self.now name.now id.now }
    {
        match self.by_name.get(name) {
            Some(entity_type) => entity_type.ids.may_have(id),
            None => false,
        }
    }
}
