// Identifiers, names, uids and places: what texts are read as, and what is made of them.
use crate::stack::told_place;
use crate::trees::{type_of, variable};
use crate::{Answer, index, no_case, number, refused, show, tell};
use cedar_literals::patterns::{Pattern, PatternElem};
use cedar_literals::types::{StaticallyTyped, Type};
use cedar_literals::uids::{Eid, EntityType, EntityUID};
use cedar_names::conversions::FromIn;
use cedar_names::errors::ParseNameError;
use cedar_names::identifiers::{AnyId, Id, UnreservedId};
use cedar_names::names::{InternalName, Name};
use cedar_names::places::{Loc, Span};
use cedar_names::reading::FromNormalizedStr;
use std::alloc::{AllocError, Global};
use std::rc::RcStr;

/// Reads the text as what the verb names.
pub fn read(alloc: Global, verb: &str, text: &str) -> Answer {
    match verb {
        "any-id" => show(alloc, AnyId::from_normalized_str(alloc, text)),
        "id" => show(alloc, Id::from_normalized_str(alloc, text)),
        "unreserved-id" => show(alloc, UnreservedId::from_normalized_str(alloc, text)),
        "internal-name" => show(alloc, InternalName::from_normalized_str(alloc, text)),
        "unqualified" => show(alloc, InternalName::parse_unqualified_name(alloc, text)),
        "name" => show(alloc, Name::from_normalized_str(alloc, text)),
        _ => no_case(alloc),
    }
}

/// What is made of a name, and of a second one that isn't reserved.
pub fn joined(alloc: Global, verb: &str, one: &str, other: &str) -> Answer {
    let name = InternalName::from_normalized_str(alloc, one);
    let second = Name::from_normalized_str(alloc, other);
    let (Ok(name), Ok(second)) = (&name, &second) else {
        return no_case(alloc);
    };
    match verb {
        "namespace" => show(alloc, name.namespace(alloc)),
        "in-internal" => show(alloc, name.qualify_with(alloc, Some(second.as_ref()))),
        "in-name" => show(alloc, name.qualify_with_name(alloc, Some(second))),
        "name-in-internal" => show(alloc, second.qualify_with(alloc, Some(name))),
        "name-in-name" => show(alloc, second.qualify_with_name(alloc, Some(second))),
        "placed" => placed(alloc, second),
        _ => no_case(alloc),
    }
}

/// The name at a place.
fn placed(alloc: Global, name: &Name) -> Answer {
    let loc = loc(alloc, "0", "1")?;
    let placed = name.with_loc(alloc, Some(&loc))?;
    let place = told_place(alloc, placed.loc())?;
    format!(in alloc; "{placed} {place}")
}

/// A name is made of an identifier, and an identifier of a name or of a variable.
pub fn converted(alloc: Global, verb: &str, text: &str) -> Answer {
    match (verb, variable(text)) {
        ("id", Some(var)) => show(alloc, Id::from_in(alloc, var)),
        ("unreserved", Some(var)) => show(alloc, UnreservedId::from_in(alloc, var)),
        ("name-of-id" | "internal-of-unreserved", _) => {
            match UnreservedId::from_normalized_str(alloc, text) {
                Ok(id) => of_unreserved(alloc, verb, id),
                Err(error) => refused(alloc, error),
            }
        }
        ("id-of-name", _) => match Name::from_normalized_str(alloc, text) {
            Ok(name) => show(alloc, UnreservedId::from_in(alloc, name)),
            Err(error) => refused(alloc, error),
        },
        ("internal-of-id", _) => match Id::from_normalized_str(alloc, text) {
            Ok(id) => show(alloc, InternalName::from_in(alloc, id)),
            Err(error) => refused(alloc, error),
        },
        ("id-of-internal", _) => match InternalName::from_normalized_str(alloc, text) {
            Ok(name) => show(alloc, Id::from_in(alloc, name)),
            Err(error) => refused(alloc, error),
        },
        _ => no_case(alloc),
    }
}

fn of_unreserved(alloc: Global, verb: &str, id: UnreservedId) -> Answer {
    if verb == "name-of-id" {
        return show(alloc, Name::from_in(alloc, id));
    }
    show(alloc, InternalName::from_in(alloc, id))
}

/// The type of this identifier in a namespace, at a place.
pub fn in_namespace(alloc: Global, id: &str, namespace: &str) -> Answer {
    let loc = loc(alloc, "0", "1")?;
    let id = Id::from_normalized_str(alloc, id);
    match (id, InternalName::from_normalized_str(alloc, namespace)) {
        (Ok(id), Ok(namespace)) => show(
            alloc,
            InternalName::type_in_namespace(alloc, id, namespace, Some(loc)),
        ),
        _ => no_case(alloc),
    }
}

/// The place in a text of four bytes, `aéb`.
pub fn loc(alloc: Global, start: &str, end: &str) -> Result<Loc, AllocError> {
    let (start, end) = (number(start), number(end));
    Loc::new(alloc, Span { start, end }, RcStr::from_str(alloc, "aéb")?)
}

/// The text of the place between two numbers.
pub fn snippet(alloc: Global, start: &str, end: &str) -> Answer {
    if index(start).is_none() || index(end).is_none() {
        return no_case(alloc);
    }
    tell(alloc, loc(alloc, start, end)?.snippet())
}

/// Reads the text as a uid, or as what is put into one.
pub fn uids(alloc: Global, verb: &str, text: &str) -> Answer {
    match verb {
        "escaped" => show(
            alloc,
            Eid::new(RcStr::from_str(alloc, text)?).escaped(alloc),
        ),
        "user" => show(alloc, EntityUID::with_eid_and_type(alloc, "User", text)),
        "reread" => show(alloc, EntityUID::from_normalized_str(alloc, text)),
        "reserved" => reserved(alloc, EntityUID::from_normalized_str(alloc, text)),
        "static-type" => match EntityUID::from_normalized_str(alloc, text) {
            Ok(uid) => show(alloc, uid.type_of(alloc)),
            Err(error) => refused(alloc, error),
        },
        "type" => show(alloc, type_of(alloc, text)),
        "pattern" => show(alloc, Pattern::from_in(alloc, elems(alloc, text)?)),
        _ => no_case(alloc),
    }
}

/// The name that the error of a reserved name tells.
fn reserved(alloc: Global, read: Result<EntityUID, ParseNameError>) -> Answer {
    match &read {
        Err(ParseNameError::Reserved(error)) => format!(in alloc; "{}", error.name()),
        _ => no_case(alloc),
    }
}

/// An element is a wildcard where a star stands, and a star where a plus stands.
fn elem(c: char) -> PatternElem {
    if c == '*' {
        return PatternElem::Wildcard;
    }
    PatternElem::Char(if c == '+' { '*' } else { c })
}

fn elems(alloc: Global, text: &str) -> Result<Vec<PatternElem>, AllocError> {
    text.chars().map(elem).collect(alloc)
}

/// The type of entities in a namespace, or that of values of extensions.
pub fn types(alloc: Global, verb: &str, one: &str, other: &str) -> Answer {
    let (Ok(entity_type), Ok(name)) = (
        EntityType::from_normalized_str(alloc, one),
        Name::from_normalized_str(alloc, other),
    ) else {
        return no_case(alloc);
    };
    match verb {
        "qualified" => show(alloc, entity_type.qualify_with(alloc, Some(&name))),
        "placed" => {
            let loc = loc(alloc, "0", "1")?;
            let placed = entity_type.with_loc(alloc, Some(&loc))?;
            let place = told_place(alloc, placed.loc())?;
            format!(in alloc; "{placed} {place}")
        }
        "extension" => show(alloc, Ok::<_, AllocError>(Type::Extension { name })),
        _ => no_case(alloc),
    }
}
