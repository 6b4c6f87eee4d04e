// Orders of graphs, names, and what they stand for.
ghost use Rattle.std.specs.Prelude.{◌≡◌, length};
ghost use Rattle.std.specs.List.{list_all};
ghost use Rattle.std.proofs.Math.Dec.{ltb};

use crate::{OrderError, SchemaType, TypeName, TypeTable, order_by_targets};
use cedar_names::texts::SharedText;
use cedar_schema_syntax::{Attribute, Name, Path, Presence, TypeSyntax};
use std::alloc::{AllocError, Global};
use std::rc::RcStr;
use std::test::Fail;

/// A type with no others in it.
#[derive(Clone, Copy, Debug, PartialEq, Eq)]
enum Plain {
    Boolean,
    Long,
    String,
}

fn plain_type(plain: Plain) -> SchemaType {
    match plain {
        Plain::Boolean => SchemaType::Boolean,
        Plain::Long => SchemaType::Long,
        Plain::String => SchemaType::String,
    }
}

fn plain_of(schema_type: &SchemaType) -> Option<Plain> {
    match schema_type {
        SchemaType::Boolean => Some(Plain::Boolean),
        SchemaType::Long => Some(Plain::Long),
        SchemaType::String => Some(Plain::String),
        _ => None,
    }
}

/// What the sets are of.
fn element_of(schema_type: &SchemaType) -> Option<Plain> {
    match schema_type {
        SchemaType::Set(element) => plain_of(element),
        _ => None,
    }
}

/// The words of a namespace; of the empty one none.
fn namespace_of(alloc: Global, namespace: &str) -> Result<Vec<SharedText>, AllocError> {
    let mut words = Vec::new(alloc);
    if !namespace.is_empty() {
        words.push(SharedText::new(RcStr::from_str(alloc, namespace)?))?;
    }
    Ok(words)
}

/// The path of a name behind a namespace's.
fn path_of(alloc: Global, namespace: &str, name: &str) -> Result<Path, AllocError> {
    let mut words = Vec::new(alloc);
    if !namespace.is_empty() {
        words.push(RcStr::from_str(alloc, namespace)?)?;
    }
    words.push(RcStr::from_str(alloc, name)?)?;
    Ok(Path { words, place: 0 })
}

fn name_of(alloc: Global, namespace: &str, name: &str) -> Result<TypeName, AllocError> {
    TypeName::from_path(alloc, &path_of(alloc, namespace, name)?)
}

/// A table of names that stand in several places.
fn table(alloc: Global) -> Result<TypeTable, AllocError> {
    let declared = [
        ("A", "T", Some(Plain::Boolean)),
        ("", "T", Some(Plain::Long)),
        ("", "U", None),
    ];
    let built_in = [("", "T"), ("", "U"), ("", "V"), ("__cedar", "V")];
    let mut table = TypeTable::new(alloc);
    for (namespace, name, known) in declared {
        table.declare(name_of(alloc, namespace, name)?, known.map(plain_type))?;
    }
    for (namespace, name) in built_in {
        table.add_built_in(name_of(alloc, namespace, name)?, SchemaType::String)?;
    }
    Ok(table)
}

#[test]
fn names_are_their_words(rt: HostRuntime) -> Result<(), Fail> {
    let alloc = rt.alloc();
    let namespace = namespace_of(alloc, "A")?;
    let alone = TypeName::new(alloc, namespace_of(alloc, "B")?)?;
    let within = TypeName::within(alloc, &namespace, &path_of(alloc, "", "B")?)?;
    assert!(rt; alone == name_of(alloc, "", "B")?);
    assert!(rt; within == name_of(alloc, "A", "B")?);
    assert!(rt; alone != within);
    assert!(rt; within < alone);
    assert_eq!(rt; within.words().len(), 2);
    assert_eq!(rt; within.to_string(alloc)?.as_str(), "A::B");
    Ok(())
}

fn named_plain(alloc: Global, namespace: &str, path: &Path) -> Result<Option<Plain>, AllocError> {
    let namespace = namespace_of(alloc, namespace)?;
    match table(alloc)?.named_type(alloc, &namespace, path)? {
        Some(named) => Ok(plain_of(&named)),
        None => Ok(None),
    }
}

#[test]
fn names_are_looked_up_from_within(rt: HostRuntime) -> Result<(), Fail> {
    let cases = [
        ("in the namespace", "A", "", "T", Some(Plain::Boolean)),
        ("in no other", "B", "", "T", Some(Plain::Long)),
        ("in none", "", "", "T", Some(Plain::Long)),
        ("by its path", "B", "A", "T", Some(Plain::Boolean)),
        ("a path is taken as it is written", "A", "B", "T", None),
        ("not known, and not what is built in", "A", "", "U", None),
        ("built in", "A", "", "V", Some(Plain::String)),
        (
            "built in, by its path",
            "A",
            "__cedar",
            "V",
            Some(Plain::String),
        ),
        ("nowhere", "A", "", "W", None),
    ];
    for (shows, namespace, within, name, wanted) in cases {
        let path = path_of(rt.alloc(), within, name)?;
        assert_eq!(rt;
            named_plain(rt.alloc(), namespace, &path)?,
            wanted,
            "{shows}"
        );
    }
    Ok(())
}

fn set_of(alloc: Global, name: &str) -> Result<TypeSyntax, AllocError> {
    let element = TypeSyntax::Named(path_of(alloc, "", name)?);
    Ok(TypeSyntax::Set(Box::new(alloc, element)?))
}

/// A record of an optional attribute, whose type is a set, and another.
fn record_of(alloc: Global, element: &str, other: &str) -> Result<TypeSyntax, AllocError> {
    let mut attributes = Vec::new(alloc);
    attributes.push(Attribute {
        name: written_name(alloc, "many")?,
        presence: Presence::Optional,
        written: set_of(alloc, element)?,
    })?;
    attributes.push(Attribute {
        name: written_name(alloc, other)?,
        presence: Presence::Required,
        written: TypeSyntax::Named(path_of(alloc, "", "V")?),
    })?;
    Ok(TypeSyntax::Record(attributes))
}

fn written_name(alloc: Global, name: &str) -> Result<Name, AllocError> {
    Ok(Name {
        text: RcStr::from_str(alloc, name)?,
        place: 0,
    })
}

fn resolved(alloc: Global, written: &TypeSyntax) -> Result<Option<SchemaType>, AllocError> {
    let namespace = namespace_of(alloc, "A")?;
    table(alloc)?.written_type(alloc, &namespace, written)
}

#[test]
fn sets_are_of_what_the_name_stands_for(rt: HostRuntime) -> Result<(), Fail> {
    let cases = [
        ("T", Some(Plain::Boolean)),
        ("V", Some(Plain::String)),
        ("U", None),
        ("W", None),
    ];
    for (name, wanted) in cases {
        let found = match resolved(rt.alloc(), &set_of(rt.alloc(), name)?)? {
            Some(set) => element_of(&set.share()?),
            None => None,
        };
        assert_eq!(rt; found, wanted, "{name}");
    }
    Ok(())
}

/// What is known of a record's attribute `many`: its presence, and what its sets are of.
fn many_of(
    alloc: Global,
    record: &SchemaType,
) -> Result<Option<(Presence, Option<Plain>)>, AllocError> {
    let name = SharedText::new(RcStr::from_str(alloc, "many")?);
    let SchemaType::Record(attributes) = record else {
        return Ok(None);
    };
    match attributes.get(&name) {
        Some(many) => Ok(Some((many.presence, element_of(&many.schema_type)))),
        None => Ok(None),
    }
}

#[test]
fn records_have_each_attribute_once(rt: HostRuntime) -> Result<(), Fail> {
    let many = Some((Presence::Optional, Some(Plain::Boolean)));
    let cases = [
        ("each stands once", "T", "one", many),
        ("one stands twice", "T", "many", None),
        ("a name stands for nothing", "W", "one", None),
    ];
    for (shows, element, other, wanted) in cases {
        let found = match resolved(rt.alloc(), &record_of(rt.alloc(), element, other)?)? {
            Some(record) => many_of(rt.alloc(), &record)?,
            None => None,
        };
        assert_eq!(rt; found, wanted, "{shows}");
    }
    Ok(())
}

/// The edges from each number, of pairs of numbers.
fn edges_of(
    alloc: Global,
    count: usize,
    pairs: &[(usize, usize)],
) -> Result<Vec<Vec<usize>>, AllocError> {
    let mut edges = Vec::new(alloc);
    for number in 0..count {
        let mut targets = Vec::new(alloc);
        for (from, to) in pairs {
            if *from == number {
                targets.push(*to)?;
            }
        }
        edges.push(targets)?;
    }
    Ok(edges)
}

fn are_below(targets: &[usize], count: usize) -> bool
    ensures { result ≡ list_all (λ t. ltb t count) targets.now }
{
    targets.iter().all(|target| *target < count)
}

/// Whether each edge leads to one of the numbers.
fn are_within(edges: &[Vec<usize>]) -> bool
    ensures { result ≡ list_all (λ row. list_all (λ t. ltb t (length edges.now)) row.items) edges.now }
{
    let count = edges.len();
    edges.iter().all(|targets| are_below(targets, count))
}

/// What is found of a graph: the first and the last number of its order, or one that is on a cycle.
#[derive(Clone, Copy, Debug, PartialEq, Eq)]
enum Found {
    Ends(Option<usize>, Option<usize>),
    Cycle(usize),
    Nothing,
}

fn found_of(alloc: Global, edges: &[Vec<usize>]) -> Found {
    if !are_within(edges) {
        return Found::Nothing;
    }
    match order_by_targets(alloc, edges) {
        Ok(order) => Found::Ends(order.first().copied(), order.last().copied()),
        Err(OrderError::Cycle(number)) => Found::Cycle(number),
        Err(OrderError::Memory) => Found::Nothing,
    }
}

#[test]
fn targets_come_first(rt: HostRuntime) -> Result<(), Fail> {
    let cases = [
        ("no numbers", 0, [].as_slice(), Found::Ends(None, None)),
        (
            "a chain",
            3,
            [(0, 1), (1, 2)].as_slice(),
            Found::Ends(Some(2), Some(0)),
        ),
        (
            "a diamond",
            4,
            [(2, 0), (2, 3), (0, 1), (3, 1)].as_slice(),
            Found::Ends(Some(1), Some(2)),
        ),
        (
            "an edge to its own start",
            2,
            [(0, 1), (1, 1)].as_slice(),
            Found::Cycle(1),
        ),
        (
            "a cycle of two",
            3,
            [(0, 1), (1, 2), (2, 1)].as_slice(),
            Found::Cycle(1),
        ),
    ];
    for (shows, count, pairs, wanted) in cases {
        let edges = edges_of(rt.alloc(), count, pairs)?;
        assert_eq!(rt; found_of(rt.alloc(), &edges), wanted, "{shows}");
    }
    Ok(())
}
