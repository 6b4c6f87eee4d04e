// Raw names in the namespace `M`, where the common type `A` and the entity type `M::A` are declared.
use crate::names::loc;
use crate::{Answer, no_case, refused, show};
use cedar_names::errors::ParseNameError;
use cedar_names::identifiers::{Id, UnreservedId};
use cedar_names::names::{InternalName, Name};
use cedar_names::raw_names::{AllDefs, ConditionalName, RawName, ReferenceType};
use cedar_names::reading::FromNormalizedStr;
use std::alloc::{AllocError, Global};
use std::collections::BTreeSet;

/// What the text is read as, or resolves to as a reference of the kind that the verb names.
pub fn answer(alloc: Global, verb: &str, text: &str) -> Answer {
    match verb {
        "raw" => show(alloc, RawName::from_normalized_str(alloc, text)),
        "unqualified" => show(alloc, RawName::parse_unqualified_name(alloc, text)),
        "common" => resolved(alloc, qualified(alloc, text, ReferenceType::Common)),
        "entity-type" => resolved(alloc, qualified(alloc, text, ReferenceType::Entity)),
        "either" => resolved(alloc, qualified(alloc, text, ReferenceType::CommonOrEntity)),
        "common-alone" => resolved(alloc, unconditional(alloc, text)),
        "id" => match Id::from_normalized_str(alloc, text) {
            Ok(id) => show(alloc, RawName::new(alloc, id)),
            Err(error) => refused(alloc, error),
        },
        "unreserved" => match UnreservedId::from_normalized_str(alloc, text) {
            Ok(id) => placed(alloc, id),
            Err(error) => refused(alloc, error),
        },
        _ => within(alloc, verb, text),
    }
}

/// The name of the identifier, and where it is written.
fn placed(alloc: Global, id: UnreservedId) -> Answer {
    let loc = loc(alloc, "0", "1")?;
    let name = RawName::new_from_unreserved(alloc, id, Some(loc))?;
    match name.loc() {
        Some(loc) => format!(in alloc; "{name} at {}..{}", loc.start(), loc.end()),
        None => name.to_string(alloc),
    }
}

/// The name within the namespace that the verb names.
fn within(alloc: Global, verb: &str, text: &str) -> Answer {
    let (Ok(name), Ok(namespace)) = (
        RawName::from_normalized_str(alloc, text),
        Name::from_normalized_str(alloc, "M"),
    ) else {
        return no_case(alloc);
    };
    match verb {
        "in-internal" => show(alloc, name.qualify_with(alloc, Some(namespace.as_ref()))),
        "in-name" => show(alloc, name.qualify_with_name(alloc, Some(&namespace))),
        _ => no_case(alloc),
    }
}

fn unconditional(alloc: Global, text: &str) -> Result<ConditionalName, ParseNameError> {
    let name = InternalName::from_normalized_str(alloc, text)?;
    Ok(ConditionalName::unconditional(alloc, name, ReferenceType::Common)?)
}

fn qualified(
    alloc: Global,
    text: &str,
    kind: ReferenceType,
) -> Result<ConditionalName, ParseNameError> {
    let namespace = InternalName::from_normalized_str(alloc, "M")?;
    let name = RawName::from_name(InternalName::from_normalized_str(alloc, text)?);
    Ok(name.conditionally_qualify_with(alloc, Some(&namespace), kind)?)
}

fn put(names: &mut BTreeSet<InternalName>, name: InternalName) -> Result<(), AllocError> {
    names.insert(name)?;
    Ok(())
}

fn declared(alloc: Global, text: &str) -> Result<BTreeSet<InternalName>, ParseNameError> {
    let mut names = BTreeSet::new(alloc);
    put(&mut names, InternalName::from_normalized_str(alloc, text)?)?;
    Ok(names)
}

fn all_defs(alloc: Global) -> Result<AllDefs, ParseNameError> {
    let common_types = declared(alloc, "A")?;
    let entity_types = declared(alloc, "M::A")?;
    Ok(AllDefs {
        common_types,
        entity_types,
    })
}

fn resolved(alloc: Global, name: Result<ConditionalName, ParseNameError>) -> Answer {
    match (name, all_defs(alloc)) {
        (Ok(name), Ok(all_defs)) => match name.resolve(&all_defs) {
            Ok(name) => show(alloc, Ok::<InternalName, AllocError>(name)),
            Err(error) => show(alloc, Ok::<_, AllocError>(error)),
        },
        _ => String::from_str(alloc, "refused"),
    }
}
