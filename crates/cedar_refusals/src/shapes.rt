// What the bodies of commands must hold.
use cedar_restricted::borrowed::BorrowedRestrictedExpr;

/// What must stand somewhere in a body.
#[derive(Clone, Copy, Debug)]
pub(crate) enum Kind {
    Value,
    Text,
    Entity,
    Entities,
    Record,
}

impl Kind {
    pub(crate) fn name(self) -> &'static str {
        match self {
            Kind::Value => "value",
            Kind::Text => "string",
            Kind::Entity => "entity",
            Kind::Entities => "list of entities",
            Kind::Record => "record",
        }
    }

    /// Whether a part of a body is of this kind.
    pub(crate) fn has(self, part: BorrowedRestrictedExpr<'_>) -> bool {
        match self {
            Kind::Value => true,
            Kind::Text => part.as_string().is_some(),
            Kind::Entity => part.as_euid().is_some(),
            Kind::Entities => are_entities(part),
            Kind::Record => part.as_record_pairs().is_some(),
        }
    }
}

fn are_entities(part: BorrowedRestrictedExpr<'_>) -> bool {
    let Some(items) = part.as_set_elements() else {
        return false;
    };
    for item in items {
        if item.as_euid().is_none() {
            return false;
        }
    }
    true
}

/// A record that a command takes.
#[derive(Clone, Copy, Debug)]
pub(crate) enum Shape {
    Entity,
    Link,
    Question,
    Told,
}

impl Shape {
    /// What must stand beside a key, if the record may have it.
    pub(crate) fn kind_at(self, key: &str) -> Option<Kind> {
        match self {
            Shape::Entity => kind_in_entity(key),
            Shape::Link => kind_in_link(key),
            Shape::Question => kind_in_question(key),
            Shape::Told => Some(kind_told(key)),
        }
    }

    /// The keys that the record may have.
    pub(crate) fn keys(self) -> &'static str {
        match self {
            Shape::Entity => "uid, parents, attrs and tags",
            Shape::Link => "template, id, principal and resource",
            Shape::Question => {
                "principal, principal_type, action, resource, resource_type and context"
            }
            Shape::Told => "the unknowns",
        }
    }

    /// The first of the keys that the record must have and lacks.
    pub(crate) fn lacking(self, record: BorrowedRestrictedExpr<'_>) -> Option<&'static str> {
        match self {
            Shape::Entity => lacking(record, "uid"),
            Shape::Link => match lacking(record, "template") {
                Some(key) => Some(key),
                None => lacking(record, "id"),
            },
            Shape::Question | Shape::Told => None,
        }
    }
}

fn kind_in_entity(key: &str) -> Option<Kind> {
    match key {
        "uid" => Some(Kind::Entity),
        "parents" => Some(Kind::Entities),
        "attrs" | "tags" => Some(Kind::Record),
        _ => None,
    }
}

fn kind_in_link(key: &str) -> Option<Kind> {
    match key {
        "template" | "id" => Some(Kind::Text),
        "principal" | "resource" => Some(Kind::Entity),
        _ => None,
    }
}

fn kind_in_question(key: &str) -> Option<Kind> {
    match key {
        "principal" | "action" | "resource" => Some(Kind::Entity),
        "principal_type" | "resource_type" => Some(Kind::Text),
        "context" => Some(Kind::Record),
        _ => None,
    }
}

fn kind_told(key: &str) -> Kind {
    match key {
        "principal" | "action" | "resource" => Kind::Entity,
        "context" => Kind::Record,
        _ => Kind::Value,
    }
}

/// What stands beside a key of a record.
pub(crate) fn part_at<'b>(
    record: BorrowedRestrictedExpr<'b>,
    key: &str,
) -> Option<BorrowedRestrictedExpr<'b>> {
    for (other, part) in record.as_record_pairs()? {
        if other.as_str() == key {
            return Some(part);
        }
    }
    None
}

fn lacking(record: BorrowedRestrictedExpr<'_>, key: &'static str) -> Option<&'static str> {
    match part_at(record, key) {
        Some(_) => None,
        None => Some(key),
    }
}
