// What isn't there: entities, their attributes and tags, and attributes of records.
ghost use Rattle.std.specs.Prelude.{◌≡◌};

use cedar_literals::uids::EntityUID;
use cedar_names::places::Loc;
use std::fmt;
use std::rc::{Rc, RcStr};
use thiserror::Error;

/// An entity was looked up that isn't held.
#[derive(Debug, PartialEq, Eq, Clone, Drop, Error)]
#[error("entity `{uid}` does not exist")]
pub struct EntityDoesNotExistError {
    pub(crate) uid: Rc<EntityUID>,
    pub(crate) source_loc: Option<Loc>,
}

/// What an entity has by names.
#[derive(Clone, Copy, Debug, PartialEq, Eq)]
pub(crate) enum Named {
    Attribute,
    Tag,
}

impl fmt::Display for Named {
    fn fmt<W: fmt::Write>(&self, f: &mut fmt::Formatter<W>) -> fmt::Result {
        f.write_str(match self {
            Named::Attribute => "attribute",
            Named::Tag => "tag",
        })
    }
}

/// An entity that is held doesn't have an attribute, or a tag.
#[derive(Debug, PartialEq, Eq, Clone, Drop, Error)]
#[error("`{entity}` does not have the {named} `{attr_or_tag}`")]
pub struct EntityAttrDoesNotExistError {
    pub(crate) entity: Rc<EntityUID>,
    pub(crate) attr_or_tag: RcStr,
    pub(crate) named: Named,
    pub(crate) source_loc: Option<Loc>,
}

/// A record doesn't have an attribute.
#[derive(Debug, PartialEq, Eq, Clone, Drop, Error)]
#[error("record does not have the attribute `{attr}`")]
pub struct RecordAttrDoesNotExistError {
    pub(crate) attr: RcStr,
    pub(crate) source_loc: Option<Loc>,
}

impl EntityDoesNotExistError {
    // The same error, met at another place, or at none.
    pub(crate) fn at(self, source_loc: Option<Loc>) -> EntityDoesNotExistError
        ensures { result ≡ record self { source_loc = source_loc } }
    {
        EntityDoesNotExistError { source_loc, ..self }
    }
}

impl EntityAttrDoesNotExistError {
    // The same error, met at another place, or at none.
    pub(crate) fn at(self, source_loc: Option<Loc>) -> EntityAttrDoesNotExistError
        ensures { result ≡ record self { source_loc = source_loc } }
    {
        EntityAttrDoesNotExistError { source_loc, ..self }
    }
}

impl RecordAttrDoesNotExistError {
    // The same error, met at another place, or at none.
    pub(crate) fn at(self, source_loc: Option<Loc>) -> RecordAttrDoesNotExistError
        ensures { result ≡ record self { source_loc = source_loc } }
    {
        RecordAttrDoesNotExistError { source_loc, ..self }
    }
}
