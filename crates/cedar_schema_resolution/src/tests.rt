// Common types of schemas, resolved.

use crate::{
    Declarations, EntityNames, ExtensionType, ResolutionError, declared_table, resolve_common_types,
};
use cedar_names::texts::SharedText;
use cedar_schema::{SchemaType, TypeName};
use cedar_schema_syntax::{
    Attribute, CommonTypeSyntax, Declaration, EntitySyntax, EnumerationSyntax, Name, Namespace,
    Path, Presence, SchemaSyntax, TypeSyntax,
};
use std::alloc::{AllocError, Global};
use std::rc::RcStr;
use std::test::Fail;

/// The kind of a type.
#[derive(Clone, Copy, Debug, PartialEq, Eq)]
enum Kind {
    Boolean,
    Long,
    String,
    Entity,
    Extension,
    Set,
    Record,
}

fn kind_of(schema_type: &SchemaType) -> Kind {
    match schema_type {
        SchemaType::Boolean => Kind::Boolean,
        SchemaType::Long => Kind::Long,
        SchemaType::String => Kind::String,
        SchemaType::Entity(_) => Kind::Entity,
        SchemaType::Extension(_, _) => Kind::Extension,
        SchemaType::Set(_) => Kind::Set,
        SchemaType::Record(_) => Kind::Record,
    }
}

/// What is found of the common type `A`, or the first letter of one in a cycle.
#[derive(Clone, Copy, Debug, PartialEq, Eq)]
enum Found {
    Sets(Kind),
    SetsOfSets(Kind),
    Other(Kind),
    Nothing,
    Cycle(Option<char>),
    Memory,
}

fn element_of(schema_type: &SchemaType) -> Option<&SchemaType> {
    match schema_type {
        SchemaType::Set(element) => Some(element),
        _ => None,
    }
}

fn found_of(schema_type: &SchemaType) -> Found {
    let Some(element) = element_of(schema_type) else {
        return Found::Other(kind_of(schema_type));
    };
    match element_of(element) {
        Some(inner) => Found::SetsOfSets(kind_of(inner)),
        None => Found::Sets(kind_of(element)),
    }
}

fn first_letter(name: &TypeName) -> Option<char> {
    let own = name.words().last()?;
    own.as_str().chars().next()
}

fn name_of(alloc: Global, text: &str) -> Result<Name, AllocError> {
    Ok(Name {
        text: RcStr::from_str(alloc, text)?,
        place: 0,
    })
}

/// The path of a name behind a namespace's, if that isn't empty.
fn path_of(alloc: Global, namespace: &str, name: &str) -> Result<Path, AllocError> {
    let mut words = Vec::new(alloc);
    if !namespace.is_empty() {
        words.push(RcStr::from_str(alloc, namespace)?)?;
    }
    words.push(RcStr::from_str(alloc, name)?)?;
    Ok(Path { words, place: 0 })
}

fn block_of(
    alloc: Global,
    namespace: &str,
    declaration: Declaration,
) -> Result<Namespace, AllocError> {
    let path = if namespace.is_empty() {
        None
    } else {
        Some(path_of(alloc, "", namespace)?)
    };
    let mut declarations = Vec::new(alloc);
    declarations.push(declaration)?;
    Ok(Namespace { path, declarations })
}

/// `entity NAME enum [];`
fn entity_of(alloc: Global, name: &str) -> Result<Declaration, AllocError> {
    let mut names = Vec::new(alloc);
    names.push(name_of(alloc, name)?)?;
    let ids = Vec::new(alloc);
    Ok(Declaration::Enumeration(EnumerationSyntax { names, ids }))
}

/// `type NAME = Set<WITHIN::ELEMENT>;`
fn sets_of(
    alloc: Global,
    name: &str,
    within: &str,
    element: &str,
) -> Result<Declaration, AllocError> {
    let element = TypeSyntax::Named(path_of(alloc, within, element)?);
    Ok(Declaration::CommonType(CommonTypeSyntax {
        name: name_of(alloc, name)?,
        written: TypeSyntax::Set(Box::new(alloc, element)?),
    }))
}

/// A common type of sets: its namespace, its name, and the path of what the sets are of.
type Line<'t> = (&'t str, &'t str, &'t str, &'t str);

/// The schema of these common types, of the entity type `E`, and of an entity type `B` in the namespace `M`.
fn schema_of(alloc: Global, lines: &[Line<'_>]) -> Result<SchemaSyntax, AllocError> {
    let mut namespaces = Vec::new(alloc);
    namespaces.push(block_of(alloc, "", entity_of(alloc, "E")?)?)?;
    namespaces.push(block_of(alloc, "M", entity_of(alloc, "B")?)?)?;
    for (namespace, name, within, element) in lines {
        let sets = sets_of(alloc, name, within, element)?;
        namespaces.push(block_of(alloc, namespace, sets)?)?;
    }
    Ok(SchemaSyntax { namespaces })
}

fn extensions(alloc: Global) -> Result<Vec<ExtensionType>, AllocError> {
    let mut extensions = Vec::new(alloc);
    extensions.push(ExtensionType {
        name: SharedText::new(RcStr::from_str(alloc, "ipaddr")?),
        is_ordered: false,
    })?;
    Ok(extensions)
}

/// What the common type `A` of a namespace is.
fn common_a(alloc: Global, namespace: &str, lines: &[Line<'_>]) -> Result<Found, AllocError> {
    let schema = schema_of(alloc, lines)?;
    let declared = Declarations::from_syntax(alloc, &schema)?;
    let mut table = declared_table(alloc, &declared, &extensions(alloc)?)?;
    match resolve_common_types(alloc, &declared, &mut table) {
        Ok(()) => {}
        Err(ResolutionError::CycleInCommonTypeReferences(name)) => {
            return Ok(Found::Cycle(first_letter(&name)));
        }
        Err(ResolutionError::Memory) => return Ok(Found::Memory),
    }
    let path = path_of(alloc, namespace, "A")?;
    Ok(match table.named_type(alloc, &[], &path)? {
        Some(schema_type) => found_of(&schema_type),
        None => Found::Nothing,
    })
}

#[test]
fn common_types_are_resolved(rt: HostRuntime) -> Result<(), Fail> {
    let cases: [(&str, &str, &[Line<'_>], Found); 16] = [
        (
            "built in",
            "",
            &[("", "A", "", "Long")],
            Found::Sets(Kind::Long),
        ),
        (
            "built in, by its path",
            "",
            &[("", "A", "__cedar", "Bool")],
            Found::Sets(Kind::Boolean),
        ),
        (
            "an extension type",
            "",
            &[("", "A", "", "ipaddr")],
            Found::Sets(Kind::Extension),
        ),
        (
            "an entity type",
            "",
            &[("", "A", "", "E")],
            Found::Sets(Kind::Entity),
        ),
        ("not declared", "", &[("", "A", "", "X")], Found::Nothing),
        (
            "of no other namespace",
            "",
            &[("", "A", "N", "E")],
            Found::Nothing,
        ),
        (
            "one that follows",
            "",
            &[("", "A", "", "B"), ("", "B", "", "String")],
            Found::SetsOfSets(Kind::String),
        ),
        (
            "one that stands before",
            "",
            &[("", "B", "", "String"), ("", "A", "", "B")],
            Found::SetsOfSets(Kind::String),
        ),
        (
            "of what isn't declared",
            "",
            &[("", "A", "", "B"), ("", "B", "", "X")],
            Found::Nothing,
        ),
        (
            "the first of two",
            "",
            &[("", "A", "", "Long"), ("", "A", "", "String")],
            Found::Sets(Kind::Long),
        ),
        (
            "the namespace's own",
            "N",
            &[
                ("N", "A", "", "B"),
                ("", "B", "", "Long"),
                ("N", "B", "", "String"),
            ],
            Found::SetsOfSets(Kind::String),
        ),
        (
            "an entity type of the namespace goes before",
            "M",
            &[("M", "A", "", "B"), ("", "B", "", "Long")],
            Found::Sets(Kind::Entity),
        ),
        (
            "a common type goes before an entity type",
            "",
            &[("", "A", "", "E"), ("", "E", "", "Long")],
            Found::SetsOfSets(Kind::Long),
        ),
        (
            "in itself",
            "",
            &[("", "A", "", "A")],
            Found::Cycle(Some('A')),
        ),
        (
            "in what is in it",
            "",
            &[("", "A", "", "B"), ("", "B", "", "C"), ("", "C", "", "B")],
            Found::Cycle(Some('B')),
        ),
        (
            "another of its name is none in itself",
            "",
            &[("N", "A", "", "Long"), ("", "A", "N", "A")],
            Found::SetsOfSets(Kind::Long),
        ),
    ];
    for (shows, namespace, lines, wanted) in cases {
        assert_eq!(rt; common_a(rt.alloc(), namespace, lines)?, wanted, "{shows}");
    }
    Ok(())
}

/// `entity S {a?: ATTRIBUTE} tags TAGS;`
fn shaped(alloc: Global, attribute: &str, tags: &str) -> Result<Declaration, AllocError> {
    let mut names = Vec::new(alloc);
    names.push(name_of(alloc, "S")?)?;
    let mut attributes = Vec::new(alloc);
    attributes.push(Attribute {
        name: name_of(alloc, "a")?,
        presence: Presence::Optional,
        written: TypeSyntax::Named(path_of(alloc, "", attribute)?),
    })?;
    Ok(Declaration::Entities(EntitySyntax {
        names,
        parents: Vec::new(alloc),
        attributes,
        tags: Some(TypeSyntax::Named(path_of(alloc, "", tags)?)),
    }))
}

/// A shape's attribute `a`, and the kind of its tags.
type Shape = (Option<(Presence, Kind)>, Option<Kind>);

/// The shape of `S`, beside an enumeration `E` and the sets `A`.
fn shape_of(alloc: Global, attribute: &str, tags: &str) -> Result<Option<Shape>, AllocError> {
    let mut schema = schema_of(alloc, &[("", "A", "", "Long")])?;
    schema
        .namespaces
        .push(block_of(alloc, "", shaped(alloc, attribute, tags)?)?)?;
    let declared = Declarations::from_syntax(alloc, &schema)?;
    let mut table = declared_table(alloc, &declared, &extensions(alloc)?)?;
    let Ok(()) = resolve_common_types(alloc, &declared, &mut table) else {
        return Ok(None);
    };
    let Some(entity) = declared.entities.last() else {
        return Ok(None);
    };
    let Some(shape) = entity.shape(alloc, &table)? else {
        return Ok(None);
    };
    let name = SharedText::new(RcStr::from_str(alloc, "a")?);
    let found = match shape.attributes.get(&name) {
        Some(found) => Some((found.presence, kind_of(&found.schema_type))),
        None => None,
    };
    let tags = match &shape.tags {
        Some(tags) => Some(kind_of(tags)),
        None => None,
    };
    Ok(Some((found, tags)))
}

#[test]
fn entity_types_have_their_shapes(rt: HostRuntime) -> Result<(), Fail> {
    let cases = [
        ("common types", "A", "A", Some((Kind::Set, Some(Kind::Set)))),
        (
            "an entity type",
            "E",
            "Long",
            Some((Kind::Entity, Some(Kind::Long))),
        ),
        ("itself", "S", "S", Some((Kind::Entity, Some(Kind::Entity)))),
        ("an attribute without a type", "X", "Long", None),
        ("tags without a type", "Long", "X", Some((Kind::Long, None))),
    ];
    for (shows, attribute, tags, wanted) in cases {
        let wanted = match wanted {
            Some((kind, tags)) => Some((Some((Presence::Optional, kind)), tags)),
            None => None,
        };
        assert_eq!(rt; shape_of(rt.alloc(), attribute, tags)?, wanted, "{shows}");
    }
    Ok(())
}

/// `entity S in [PARENTS];`
fn within(alloc: Global, parents: &[(&str, &str)]) -> Result<Declaration, AllocError> {
    let mut names = Vec::new(alloc);
    names.push(name_of(alloc, "S")?)?;
    let mut paths = Vec::new(alloc);
    for (namespace, name) in parents {
        paths.push(path_of(alloc, namespace, name)?)?;
    }
    Ok(Declaration::Entities(EntitySyntax {
        names,
        parents: paths,
        attributes: Vec::new(alloc),
        tags: None,
    }))
}

/// How many parents `S` has in a namespace, and how many words the first one's name has.
fn parents_of(
    alloc: Global,
    namespace: &str,
    parents: &[(&str, &str)],
) -> Result<Option<(usize, usize)>, AllocError> {
    let mut schema = schema_of(alloc, &[("", "A", "", "Long")])?;
    let block = block_of(alloc, namespace, within(alloc, parents)?)?;
    schema.namespaces.push(block)?;
    let declared = Declarations::from_syntax(alloc, &schema)?;
    let names = EntityNames::of(alloc, &declared.entities)?;
    let Some(entity) = declared.entities.last() else {
        return Ok(None);
    };
    let found = entity.parents(alloc, &names)?;
    Ok(match found.first() {
        Some(first) => Some((found.len(), first.words().len())),
        None => None,
    })
}

#[test]
fn parents_are_entity_types(rt: HostRuntime) -> Result<(), Fail> {
    let cases = [
        ("in no namespace", "", [("", "E")].as_slice(), Some((1, 1))),
        (
            "by its path",
            "",
            [("M", "B"), ("", "E")].as_slice(),
            Some((2, 2)),
        ),
        (
            "of the namespace",
            "M",
            [("", "B")].as_slice(),
            Some((1, 2)),
        ),
        ("outside it", "M", [("", "E")].as_slice(), Some((1, 1))),
        ("of its own type", "M", [("", "S")].as_slice(), Some((1, 2))),
        ("not in that namespace", "", [("", "B")].as_slice(), None),
        (
            "so far as declared",
            "",
            [("", "X"), ("", "E")].as_slice(),
            Some((1, 1)),
        ),
        ("no common types", "", [("", "A")].as_slice(), None),
        ("none that is built in", "", [("", "Long")].as_slice(), None),
    ];
    for (shows, namespace, parents, wanted) in cases {
        assert_eq!(rt;
            parents_of(rt.alloc(), namespace, parents)?,
            wanted,
            "{shows}"
        );
    }
    Ok(())
}
