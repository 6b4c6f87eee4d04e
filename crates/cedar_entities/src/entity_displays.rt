//! How entities are printed. All ancestors are printed in the order of uids, parents or not; that takes no
//! memory, and a pass over all of them for each.

use crate::entity::Entity;
use cedar_literals::uids::EntityUID;
use cedar_restricted::partial_values::PartialValue;
use std::fmt;

/// Its uid, attributes and ancestors, the attributes in the order of their names and the ancestors in that
/// of uids.
impl fmt::Display for Entity {
    fn fmt<W: fmt::Write>(&self, f: &mut fmt::Formatter<W>) -> fmt::Result {
        let uid = self.uid();
        write!(f, "{uid}:\n  attrs:")?;
        write_attributes(self, f)?;
        write!(f, "\n  ancestors:")?;
        write_ancestors(self, f)
    }
}

/// Its text.
impl fmt::Debug for Entity {
    fn fmt<W: fmt::Write>(&self, f: &mut fmt::Formatter<W>) -> fmt::Result {
        write!(f, "{self}")
    }
}

fn write_attributes<W: fmt::Write>(entity: &Entity, f: &mut fmt::Formatter<W>) -> fmt::Result {
    let mut is_first = true;
    for (name, attribute) in entity.attrs() {
        write_separator(is_first, "; ", f)?;
        write!(f, "{name}: ")?;
        write_attribute(attribute, f)?;
        is_first = false;
    }
    Ok(())
}

fn write_separator<W: fmt::Write>(
    is_first: bool,
    separator: &str,
    f: &mut fmt::Formatter<W>,
) -> fmt::Result {
    if is_first {
        return Ok(());
    }
    write!(f, "{separator}")
}

fn write_attribute<W: fmt::Write>(
    attribute: &PartialValue,
    f: &mut fmt::Formatter<W>,
) -> fmt::Result {
    match attribute {
        PartialValue::Value(value) => write!(f, "{value}"),
        PartialValue::Residual(expr) => write!(f, "{expr}"),
    }
}

fn write_ancestors<W: fmt::Write>(entity: &Entity, f: &mut fmt::Formatter<W>) -> fmt::Result {
    let mut is_first = true;
    let mut last = None;
    for _ancestor in entity.ancestors() {
        let Some(uid) = ancestor_behind(entity, last) else {
            return Ok(());
        };
        write_separator(is_first, ", ", f)?;
        write!(f, "{uid}")?;
        is_first = false;
        last = Some(uid);
    }
    Ok(())
}

// The first of the ancestors behind `last`, or the first of all.
fn ancestor_behind<'a>(entity: &'a Entity, last: Option<&EntityUID>) -> Option<&'a EntityUID> {
    entity
        .ancestors()
        .filter(|uid| last.is_none_or(|last| last < *uid))
        .min()
}
