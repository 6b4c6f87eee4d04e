// What actions apply to.
ghost use Rattle.std.specs.Prelude.{◌≡◌, [], ◌∷◌, ◌++◌, Some, None, map, IfOk, OnOk, option_map, option_to_list};
ghost use Rattle.std.specs.List.{slice_get, list_any};
ghost use Rattle.cedar_language.specs.Order.{same_name};
ghost use Rattle.cedar_typing.specs.Types.{no_fields};
ghost use Rattle.cedar_schema_grammar.specs.Faults.{principals_of, resources_of, contexts_of};
ghost use Rattle.cedar_schema_grammar.specs.Resolving as grammar;
ghost use Rattle.cedar_schema_syntax.specs.View as syntax;
ghost use Rattle.cedar_schema.specs.Types.{type_view, fields_of};
ghost use Rattle.cedar_schema_resolution.specs.Declarations.{action_view};
ghost use Rattle.cedar_schema_resolution.specs.Parents.{all_named};
ghost use Rattle.cedar_validator_schema.specs.Applying.{types_named, application_view, applies_in, IsContextType, IsContextOf, IsApplicationOf};

use cedar_names::texts::SharedText;
use cedar_schema::{AttributeType, SchemaType, TypeName, TypeTable};
use cedar_schema_resolution::{DeclaredAction, EntityNames};
use cedar_schema_syntax::{AppliesEntry, Path, TypeSyntax};
use std::alloc::{AllocError, Global};
use std::collections::BTreeMap;
use std::rc::Rc;

/// What an action applies to. (Cedar language reference, "Schema", actions.)
#[derive(Drop)]
pub struct ValidatorAction {
    pub(crate) principals: Vec<TypeName>,
    pub(crate) resources: Vec<TypeName>,
    pub(crate) context: Rc<BTreeMap<SharedText, AttributeType>>,
}

impl ValidatorAction {
    /// The types of its principals, in the order of the text.
    pub fn principals(&self) -> &[TypeName]
        ensures { result.now ≡ (application_view self.now).principals }
    {
        &self.principals
    }

    /// The types of its resources, in the order of the text.
    pub fn resources(&self) -> &[TypeName]
        ensures { result.now ≡ (application_view self.now).resources }
    {
        &self.resources
    }

    // Whether it applies to principals and resources of these types.
    pub(crate) fn applies_to(&self, principal: &TypeName, resource: &TypeName) -> bool
        ensures { result ≡ applies_in (Some (application_view self.now)) principal.now resource.now }
    {
        is_among(&self.principals, principal) && is_among(&self.resources, resource)
    }

    /// The attributes of its context.
    pub fn context(&self) -> &Rc<BTreeMap<SharedText, AttributeType>>
        ensures { fields_of result.now.value ≡ (application_view self.now).context }
    {
        &self.context
    }
}

// Whether a name is one of these.
fn is_among(names: &[TypeName], name: &TypeName) -> bool
    ensures { result ≡ list_any (same_name name.now) names.now }
{
    names.iter().any(|one| name == one)
}

// The types of principals and of resources, entry by entry.
#[derive(Drop)]
struct Applied {
    principals: Vec<TypeName>,
    resources: Vec<TypeName>,
}

// Puts the entity types that names stand for.
fn add_types(
    alloc: Global,
    names: &EntityNames,
    namespace: &[SharedText],
    types: &[Path],
    found: &mut Vec<TypeName>,
) -> Result<(), AllocError>
    ensures { OnOk result (found.new.items ≡ found.old.items ++ all_named names.now namespace.now (syntax.paths_view types.now)) }
{
    let mut more = names.all_named(alloc, namespace, types)?;
    found.append(&mut more)?;
    Ok(())
}

impl Applied {
    // Puts the types of an entry.
    fn add(
        &mut self,
        alloc: Global,
        names: &EntityNames,
        namespace: &[SharedText],
        entry: &AppliesEntry,
    ) -> Result<(), AllocError>
        ensures principals { OnOk result (self.new.principals.items ≡ self.old.principals.items
            ++ types_named names.now namespace.now (principals_of (syntax.entry_view entry.now ∷ []))) }
        ensures resources { OnOk result (self.new.resources.items ≡ self.old.resources.items
            ++ types_named names.now namespace.now (resources_of (syntax.entry_view entry.now ∷ []))) }
    {
        match entry {
            AppliesEntry::Principals { types, .. } => {
                add_types(alloc, names, namespace, types, &mut self.principals)
            }
            AppliesEntry::Resources { types, .. } => {
                add_types(alloc, names, namespace, types, &mut self.resources)
            }
            AppliesEntry::Context { .. } => Ok(()),
        }
    }

    // The types of all entries.
    fn of(
        alloc: Global,
        names: &EntityNames,
        namespace: &[SharedText],
        entries: &[AppliesEntry],
    ) -> Result<Applied, AllocError>
        ensures principals { IfOk result (λ applied. applied.principals.items
            ≡ types_named names.now namespace.now (principals_of (map syntax.entry_view entries.now))) }
        ensures resources { IfOk result (λ applied. applied.resources.items
            ≡ types_named names.now namespace.now (resources_of (map syntax.entry_view entries.now))) }
    {
        let mut applied = Applied {
            principals: Vec::new(alloc),
            resources: Vec::new(alloc),
        };
        for entry in entries {
            applied.add(alloc, names, namespace, entry)?;
        }
        Ok(applied)
    }
}

// The entries of an action; a group alone has none.
fn entries_of<'a>(action: &'a DeclaredAction<'_>) -> &'a [AppliesEntry]
    ensures { map syntax.entry_view result.now ≡ grammar.entries_of (Some (action_view action.now)) }
{
    match &action.written.applies_to {
        Some(entries) => entries,
        None => &[],
    }
}

// The type of a context that an entry writes.
fn context_in(entry: &AppliesEntry) -> Option<&TypeSyntax>
    ensures { option_to_list (option_map (λ t. syntax.type_view t.now) result) ≡ contexts_of (syntax.entry_view entry.now ∷ []) }
{
    match entry {
        AppliesEntry::Context { written, .. } => Some(written),
        AppliesEntry::Principals { .. } => None,
        AppliesEntry::Resources { .. } => None,
    }
}

// The type of the first context that is written.
fn written_context(entries: &[AppliesEntry]) -> Option<&TypeSyntax>
    ensures { option_map (λ t. syntax.type_view t.now) result ≡ slice_get (contexts_of (map syntax.entry_view entries.now)) 0 }
{
    for entry in entries {
        let written = context_in(entry);
        if written.is_some() {
            return written;
        }
    }
    None
}

// The attributes of a record type; other types have none.
#[tactic(auto, using(crate::proofs::Fielding::record_has))]
fn attributes_of(schema_type: SchemaType) -> Option<Rc<BTreeMap<SharedText, AttributeType>>>
    ensures { option_map (λ m. fields_of m.value) result ≡ grammar.fields_of (Some (type_view schema_type)) }
{
    match schema_type {
        SchemaType::Record(attributes) => Some(attributes),
        SchemaType::Boolean => None,
        SchemaType::Long => None,
        SchemaType::String => None,
        SchemaType::Entity(_) => None,
        SchemaType::Set(_) => None,
        SchemaType::Extension(_, _) => None,
    }
}

// The attributes of a type that may be known.
fn known_attributes(known: Option<SchemaType>) -> Option<Rc<BTreeMap<SharedText, AttributeType>>>
    ensures { option_map (λ m. fields_of m.value) result ≡ grammar.fields_of (option_map type_view known) }
{
    attributes_of(known?)
}

// No attributes.
fn no_attributes(alloc: Global) -> Result<Rc<BTreeMap<SharedText, AttributeType>>, AllocError>
    ensures { IfOk result (λ none. fields_of none.value ≡ no_fields) }
{
    Ok(Rc::new(alloc, BTreeMap::new(alloc))?)
}

// What the type is of the context that is written first, if it is known.
fn context_type(
    alloc: Global,
    table: &TypeTable,
    namespace: &[SharedText],
    entries: &[AppliesEntry],
) -> Result<Option<SchemaType>, AllocError>
    ensures { IfOk result (λ o. IsContextType table.now namespace.now
        (contexts_of (map syntax.entry_view entries.now)) (option_map type_view o)) }
{
    match written_context(entries) {
        Some(written) => table.written_type(alloc, namespace, written),
        None => Ok(None),
    }
}

// The attributes of the context that is written first, if it is a record; else none.
fn context_of(
    alloc: Global,
    table: &TypeTable,
    namespace: &[SharedText],
    entries: &[AppliesEntry],
) -> Result<Rc<BTreeMap<SharedText, AttributeType>>, AllocError>
    ensures { IfOk result (λ context. IsContextOf table.now namespace.now
        (contexts_of (map syntax.entry_view entries.now)) (fields_of context.value)) }
{
    let known = context_type(alloc, table, namespace, entries)?;
    match known_attributes(known) {
        Some(attributes) => Ok(attributes),
        None => no_attributes(alloc),
    }
}

/// What an action applies to, by the names of entity types and a table in which common types are resolved. Refused for memory
/// alone.
pub(crate) fn application_of(
    alloc: Global,
    names: &EntityNames,
    table: &TypeTable,
    action: &DeclaredAction<'_>,
) -> Result<ValidatorAction, AllocError>
    ensures { IfOk result (λ a. IsApplicationOf names.now table.now (action_view action.now) (application_view a)) }
{
    let namespace = action.namespace.words();
    let entries = entries_of(action);
    let applied = Applied::of(alloc, names, namespace, entries)?;
    let context = context_of(alloc, table, namespace, entries)?;
    let Applied {
        principals,
        resources,
    } = applied;
    Ok(ValidatorAction {
        principals,
        resources,
        context,
    })
}
