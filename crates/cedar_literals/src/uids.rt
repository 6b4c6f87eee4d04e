// Types of entities and uids.
ghost use Rattle.std.specs.Prelude.{◌≡◌, ◌↔◌, IsTrue, IfOk};
ghost use Rattle.std.specs.Rc.{rc_str_bytes};
ghost use Rattle.std.specs.Option.{option_copied};
ghost use Rattle.cedar_literals.specs.Escapes.{escaped};
ghost use Rattle.cedar_names.specs.Names.{qualified};
ghost use Rattle.cedar_literals.specs.Reading.{ReadsUidParts};
ghost use Rattle.cedar_literals.specs.Uids.{IsActionType};

use crate::escapes::Escaped;
use cedar_names::errors::ParseNameError;
use cedar_names::names::Name;
use cedar_names::places::Loc;
use cedar_names::reading::FromNormalizedStr;
use cedar_names::texts::SharedText;
use std::alloc::{AllocError, Global};
use std::cmp::Ordering;
use std::convert::AsStr;
use std::fmt;
use std::hash::{Hash, Hasher};
use std::marker::Model;
use std::rc::RcStr;

/// The basename of the type of each action.
pub const ACTION_ENTITY_TYPE: &str = "Action";

/// An entity's own id: any text.
#[derive(Debug, PartialEq, Eq, PartialOrd, Ord, Hash, Clone, Drop)]
pub struct Eid {
    text: SharedText,
}

impl Model for Eid {
    ghost use Rattle.cedar_language.specs.Uid.{Text};

    ghost Value = { Text };

    ghost view = { λ a. a.text };

    ghost inverse = { λ text. record { text = text } };
}

impl Eid {
    /// The id of this text.
    pub fn new(text: RcStr) -> Eid
        ensures { result ≡ rc_str_bytes text }
    {
        Eid {
            text: SharedText::new(text),
        }
    }

    /// Its text.
    pub fn as_str(&self) -> &str
        ensures { result.now ≡ self.now }
    {
        self.text.as_str()
    }

    /// Its text as it stands between quotes: quotes, backslashes and ASCII's control characters as
    /// escapes. Refused for memory alone.
    pub fn escaped(&self, alloc: Global) -> Result<RcStr, AllocError>
        ensures { IfOk result (λ text. rc_str_bytes text ≡ escaped self.now) }
    {
        RcStr::from_string(Escaped::new(self.as_str()).to_string(alloc)?)
    }

    /// Its text.
    pub fn into_smolstr(self) -> RcStr
        ensures { rc_str_bytes result ≡ self }
    {
        self.text.into_smolstr()
    }

    /// A copy that shares the text; refused for memory alone.
    pub fn clone(&self, _alloc: Global) -> Result<Eid, AllocError>
        ensures { IfOk result (λ copy. copy ≡ self.now) }
    {
        Clone::clone(self)
    }
}

impl AsStr for Eid {
    ghost text = { λ eid. eid };

    fn as_str(&self) -> &str {
        self.as_str()
    }
}

/// The type of an entity, by its name.
#[derive(Debug, PartialEq, Eq, PartialOrd, Ord, Hash, Clone, Drop)]
pub struct EntityType {
    name: Name,
}

impl Model for EntityType {
    ghost use Rattle.cedar_language.specs.Uid as language;

    ghost Value = { language.Name };

    ghost view = { λ a. a.name };

    ghost inverse = { λ name. record { name = name } };
}

impl EntityType {
    /// The name.
    pub fn name(&self) -> &Name
        ensures { result.now ≡ self.now }
    {
        &self.name
    }

    /// The name.
    pub fn into_name(self) -> Name
        ensures { result ≡ self }
    {
        self.name
    }

    /// Whether it is the type of actions: whether the last identifier is `Action`.
    pub fn is_action(&self) -> bool
        ensures { IsTrue result ↔ IsActionType self.now }
    {
        self.name.basename_as_ref().as_str() == ACTION_ENTITY_TYPE
    }

    /// Where it was written, if that is known.
    pub fn loc(&self) -> Option<&Loc> {
        self.name.loc()
    }

    /// The same type, written at `loc`; refused for memory alone.
    pub fn with_loc(&self, alloc: Global, loc: Option<&Loc>) -> Result<EntityType, AllocError>
        ensures { IfOk result (λ entity_type. entity_type ≡ self.now) }
    {
        let name = self.name.with_loc(alloc, loc)?;
        Ok(EntityType { name })
    }

    /// The type in `namespace`, where it has no namespace of its own and one is given; the same type
    /// otherwise. Refused for memory alone.
    pub fn qualify_with(
        &self,
        alloc: Global,
        namespace: Option<&Name>,
    ) -> Result<EntityType, AllocError>
        ensures { IfOk result (λ entity_type. entity_type ≡ qualified (option_copied namespace.entry) self.now) }
    {
        let name = self.name.qualify_with_name(alloc, namespace)?;
        Ok(EntityType { name })
    }

    /// A copy that shares the name; refused for memory alone.
    pub fn clone(&self, _alloc: Global) -> Result<EntityType, AllocError>
        ensures { IfOk result (λ copy. copy ≡ self.now) }
    {
        Clone::clone(self)
    }
}

impl AsRef<Name> for EntityType {
    fn as_ref(&self) -> &Name
        ensures { result.now ≡ self.now }
    {
        &self.name
    }
}

impl From<Name> for EntityType {
    ghost from_gives = { λ name entity_type. entity_type ≡ name };

    fn from(name: Name) -> EntityType {
        EntityType { name }
    }
}

impl From<EntityType> for Name {
    ghost from_gives = { λ entity_type name. name ≡ entity_type };

    fn from(entity_type: EntityType) -> Name {
        entity_type.name
    }
}

impl FromNormalizedStr for EntityType {
    ghost use Rattle.cedar_names.specs.Reading.{ReadsName};

    ghost reads = { ReadsName };

    fn from_normalized_str(alloc: Global, text: &str) -> Result<EntityType, ParseNameError> {
        Ok(EntityType::from(Name::from_normalized_str(alloc, text)?))
    }
}

/// A uid: the type of an entity, and the entity's own id. Contracts see these, and no place; so do
/// `==`, order and hash.
#[derive(Debug)]
pub struct EntityUID {
    entity_type: EntityType,
    eid: Eid,
    loc: Option<Loc>,
}

// By hand, so that letting go of one is a call.
impl Drop for EntityUID {
    fn drop(self) {
        let EntityUID {
            entity_type: _,
            eid: _,
            loc: _,
        } = self;
    }
}

impl Model for EntityUID {
    ghost use Rattle.cedar_language.specs.Uid.{Uid};

    ghost Value = { Uid };

    ghost view = { λ a. record { type_name = a.entity_type; id = a.eid } };
}

impl EntityUID {
    /// The uid of these parts.
    pub fn from_components(entity_type: EntityType, eid: Eid, loc: Option<Loc>) -> EntityUID
        ensures { result ≡ record { type_name = entity_type; id = eid } }
    {
        EntityUID {
            entity_type,
            eid,
            loc,
        }
    }

    /// The type and the id.
    pub fn components(self) -> (EntityType, Eid)
        ensures { record { type_name = result.0; id = result.1 } ≡ self }
    {
        let EntityUID {
            entity_type,
            eid,
            loc: _,
        } = self;
        (entity_type, eid)
    }

    /// The type of the entity.
    pub fn entity_type(&self) -> &EntityType
        ensures { result.now ≡ self.now.type_name }
    {
        &self.entity_type
    }

    /// The entity's own id.
    pub fn eid(&self) -> &Eid
        ensures { result.now ≡ self.now.id }
    {
        &self.eid
    }

    /// Where it was written, if that is known.
    pub fn loc(&self) -> Option<&Loc> {
        self.loc.as_ref()
    }

    /// The uid of the type `type_name`, without a namespace, and the id `eid`; refused as
    /// `Name::parse_unqualified_name` refuses.
    pub fn with_eid_and_type(
        alloc: Global,
        type_name: &str,
        eid: &str,
    ) -> Result<EntityUID, ParseNameError>
        ensures { ReadsUidParts type_name.now eid.now result }
    {
        let entity_type = EntityType::from(Name::parse_unqualified_name(alloc, type_name)?);
        let eid = Eid::new(RcStr::from_str(alloc, eid)?);
        Ok(EntityUID::from_components(entity_type, eid, None))
    }

    /// Whether it is an action: whether the last identifier of its type is `Action`.
    pub fn is_action(&self) -> bool
        ensures { IsTrue result ↔ IsActionType self.now.type_name }
    {
        self.entity_type().is_action()
    }

    /// A copy that shares the parts; refused for memory alone.
    pub fn clone(&self, _alloc: Global) -> Result<EntityUID, AllocError>
        ensures { IfOk result (λ copy. copy ≡ self.now) }
    {
        Clone::clone(self)
    }
}

/// The parts of a uid, which are the uid itself.
pub type EntityUIDImpl = EntityUID;

impl Clone for EntityUID {
    ghost is_clone = { λ uid copy. copy ≡ uid };

    fn clone(&self) -> Result<EntityUID, AllocError> {
        Ok(EntityUID {
            entity_type: Clone::clone(&self.entity_type)?,
            eid: Clone::clone(&self.eid)?,
            loc: self.loc.clone()?,
        })
    }
}

impl PartialEq for EntityUID {
    ghost use Rattle.cedar_language.specs.Order.{same_uid};
    ghost use Rattle.cedar_literals.specs.Laws.{same_uid_partial_equiv};

    ghost eq = { same_uid };

    ghost laws = { same_uid_partial_equiv };

    // The ids first, in which most entities that are compared differ.
    fn eq(&self, other: &EntityUID) -> bool {
        self.eid == other.eid && self.entity_type == other.entity_type
    }
}

impl Eq for EntityUID {
    ghost use Rattle.cedar_literals.specs.Laws.{same_uid_equiv};

    ghost laws = { same_uid_equiv };
}

impl PartialOrd for EntityUID {
    ghost use Rattle.std.specs.Ordering.{as_partial_cmp};
    ghost use Rattle.cedar_language.specs.Order.{uid_cmp};
    ghost use Rattle.cedar_literals.specs.Laws.{uid_cmp_partial};

    ghost partial_cmp = { as_partial_cmp uid_cmp };

    ghost laws = { uid_cmp_partial };

    fn partial_cmp(&self, other: &EntityUID) -> Option<Ordering> {
        Some(self.cmp(other))
    }
}

impl Ord for EntityUID {
    ghost use Rattle.std.specs.Prelude.{refl};
    ghost use Rattle.cedar_language.specs.Order.{uid_cmp};
    ghost use Rattle.cedar_literals.specs.Laws.{uid_cmp_total, uid_cmp_ties};

    ghost cmp = { uid_cmp };

    ghost total = { uid_cmp_total };

    ghost matches_partial_cmp = { λ x y. refl };

    ghost matches_eq = { uid_cmp_ties };

    fn cmp(&self, other: &EntityUID) -> Ordering {
        match self.entity_type.cmp(&other.entity_type) {
            Ordering::Equal => self.eid.cmp(&other.eid),
            decided => decided,
        }
    }
}

impl Hash for EntityUID {
    ghost use Rattle.cedar_literals.specs.Uids.{uid_hash};
    ghost use Rattle.cedar_literals.specs.Laws.{uid_hash_alike};

    ghost hash_input = { uid_hash };

    ghost respects_eq = { uid_hash_alike.fed };

    fn hash<H: Hasher>(&self, state: &mut H) {
        self.entity_type.hash(state);
        self.eid.hash(state);
    }
}

impl fmt::Display for EntityType {
    ghost use Rattle.std.specs.Prelude.{Some};
    ghost use Rattle.cedar_names.specs.Names.{name_text};

    ghost output = { λ entity_type. Some (name_text entity_type) };

    fn fmt<W: fmt::Write>(&self, f: &mut fmt::Formatter<W>) -> fmt::Result {
        fmt::Display::fmt(&self.name, f)
    }
}

impl fmt::Display for EntityUID {
    ghost use Rattle.std.specs.Prelude.{Some};
    ghost use Rattle.cedar_literals.specs.Escapes.{uid_text};

    ghost output = { λ uid. Some (uid_text uid) };

    fn fmt<W: fmt::Write>(&self, f: &mut fmt::Formatter<W>) -> fmt::Result {
        let entity_type = &self.entity_type;
        let eid = Escaped::new(self.eid.as_str());
        write!(f, "{entity_type}::\"{eid}\"")
    }
}
