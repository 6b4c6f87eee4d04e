//! Entities: a uid, attributes, tags, parents, and the ancestors that are kept beside these.
ghost use Rattle.std.specs.Prelude.{◌≡◌, ◌↔◌, IsTrue, OnOk, OnErr, IfOk, ◌<◌, ◌^◌, length, map, if◌then◌else◌};
ghost use Rattle.std.specs.Option.{option_map};
ghost use Rattle.std.specs.FinMap as finite;
ghost use Rattle.std.specs.FinSet as set;
ghost use Rattle.std.specs.List.{list_all, list_any};
ghost use Rattle.std.specs.Rc.{rc_str_bytes};
ghost use Rattle.cedar_language.specs.Uid.{Uid};
ghost use Rattle.cedar_restricted.specs.PartialValues.{partial_of};
ghost use Rattle.cedar_entities.specs.Attributes.{attributes_of, seen_entries};
ghost use Rattle.cedar_entities.specs.Lists.{AreRising, AreInTurn};
ghost use Rattle.cedar_entities.specs.Data.{EntityData, bare_entity, ancestors_of, IsListOf, IsSameEntity, without};

use crate::attributes::{Attributes, attribute_at, same_attributes};
use crate::iteration::Uids;
use crate::uid_lists::EntityUIDs;
use cedar_literals::uids::EntityUID;
use cedar_restricted::partial_values::PartialValue;
use std::alloc::{AllocError, Global};
use std::collections::{BTreeMap, BTreeSet, btree_map};
use std::hash::{Hash, Hasher};
use std::marker::Model;
use std::rc::{Rc, RcStr};

/// An entity: its uid, its attributes and tags, its parents, and further ancestors that are kept beside
/// them. Contracts see all these; `==` and hash see the uid alone. (Cedar language reference,
/// "Entities".)
pub struct Entity {
    uid: EntityUID,
    attrs: Attributes,
    tags: Attributes,
    parents: EntityUIDs,
    indirect_ancestors: EntityUIDs,
}

/// A walk over the ancestors of an entity: its parents, and then the others.
pub type Ancestors<'a> = Uids<'a>;

impl Drop for Entity {
    fn drop(self) {
        let Entity {
            uid: _,
            attrs: _,
            tags: _,
            parents: _,
            indirect_ancestors: _,
        } = self;
    }
}

impl Model for Entity {
    ghost use Rattle.cedar_entities.specs.Attributes.{attributes_of};
    ghost use Rattle.cedar_entities.specs.Data.{EntityData, data_code};

    ghost Value = { EntityData };

    ghost coded = { data_code };

    ghost view = { λ a. record {
      uid = a.uid;
      attributes = attributes_of a.attrs.value.entries;
      tags = attributes_of a.tags.value.entries;
      parents = a.parents;
      indirect = a.indirect_ancestors;
    } };
}

// ---- makers and readers

impl Entity {
    /// The entity of this uid, without attributes, tags and ancestors; refused for memory alone.
    pub fn with_uid(alloc: Global, uid: EntityUID) -> Result<Entity, AllocError>
        ensures { IfOk result (λ entity. entity ≡ bare_entity uid) }
    {
        Entity::new_with_attr_partial_value(
            alloc,
            uid,
            BTreeMap::new(alloc),
            Vec::new(alloc),
            Vec::new(alloc),
            BTreeMap::new(alloc),
        )
    }

    /// The entity of these parts, its parents and other ancestors in any order and any number of times; refused for
    /// memory alone.
    pub fn new_with_attr_partial_value(
        alloc: Global,
        uid: EntityUID,
        attrs: BTreeMap<RcStr, PartialValue>,
        indirect_ancestors: Vec<EntityUID>,
        parents: Vec<EntityUID>,
        tags: BTreeMap<RcStr, PartialValue>,
    ) -> Result<Entity, AllocError>
        ensures { IfOk result (λ entity. entity ≡ record {
          uid = uid;
          attributes = attributes_of attrs.entries;
          tags = attributes_of tags.entries;
          parents = set.from_list parents.items;
          indirect = set.from_list indirect_ancestors.items;
        }) }
    {
        let attrs = Rc::new(alloc, attrs)?;
        let tags = Rc::new(alloc, tags)?;
        let parents = EntityUIDs::from_vec(alloc, parents)?;
        let indirect_ancestors = EntityUIDs::from_vec(alloc, indirect_ancestors)?;
        Ok(Entity {
            uid,
            attrs,
            tags,
            parents,
            indirect_ancestors,
        })
    }

    /// Its uid.
    pub fn uid(&self) -> &EntityUID
        ensures { result.now ≡ self.now.uid }
    {
        &self.uid
    }

    /// The value of this attribute, or the residual that is left of it where something in it is unknown; `None`
    /// where the entity has no attribute of this name. Tags play no part. Takes no memory: one look-up by name.
    pub fn get(&self, attr: &str) -> Option<&PartialValue>
        ensures { option_map (λ v. partial_of v.now) result ≡ finite.get self.now.attributes attr.now }
    {
        attribute_at(&self.attrs, attr)
    }

    /// The value of this tag, or the residual that is left of it where something in it is unknown; `None` where
    /// the entity has no tag of this name. Attributes play no part. Takes no memory: one look-up by name.
    pub fn get_tag(&self, tag: &str) -> Option<&PartialValue>
        ensures { option_map (λ v. partial_of v.now) result ≡ finite.get self.now.tags tag.now }
    {
        attribute_at(&self.tags, tag)
    }

    /// How many attributes it has.
    pub fn attrs_len(&self) -> usize
        ensures { result ≡ finite.len self.now.attributes }
    {
        self.attrs.len()
    }

    /// How many tags it has.
    pub fn tags_len(&self) -> usize
        ensures { result ≡ finite.len self.now.tags }
    {
        self.tags.len()
    }

    /// The names of its attributes, each below the next.
    pub fn keys(&self) -> btree_map::Keys<'_, RcStr, PartialValue>
        ensures { map rc_str_bytes result ≡ finite.keys self.now.attributes }
    {
        self.attrs.keys()
    }

    /// The names of its tags, each below the next.
    pub fn tag_keys(&self) -> btree_map::Keys<'_, RcStr, PartialValue>
        ensures { map rc_str_bytes result ≡ finite.keys self.now.tags }
    {
        self.tags.keys()
    }

    /// Its attributes, in the order of their names.
    pub fn attrs(&self) -> btree_map::Iter<'_, RcStr, PartialValue>
        ensures { seen_entries result ≡ finite.entries self.now.attributes }
    {
        self.attrs.iter()
    }

    /// Its tags, in the order of their names.
    pub fn tags(&self) -> btree_map::Iter<'_, RcStr, PartialValue>
        ensures { seen_entries result ≡ finite.entries self.now.tags }
    {
        self.tags.iter()
    }

    /// Whether the uid is one of its parents.
    pub fn is_child_of(&self, uid: &EntityUID) -> bool
        ensures { result ≡ set.contains self.now.parents uid.now }
    {
        self.parents.contains(uid)
    }

    /// Whether the uid is one of the ancestors that are kept beside its parents.
    pub fn is_indirect_descendant_of(&self, uid: &EntityUID) -> bool
        ensures { result ≡ set.contains self.now.indirect uid.now }
    {
        self.indirect_ancestors.contains(uid)
    }

    /// Whether the uid is one of its ancestors.
    pub fn is_descendant_of(&self, uid: &EntityUID) -> bool
        ensures { result ≡ set.contains (ancestors_of self.now) uid.now }
    {
        self.is_child_of(uid) || self.is_indirect_descendant_of(uid)
    }

    /// Whether one of the uids is one of its ancestors.
    pub fn is_descendant_of_one(&self, uids: &BTreeSet<EntityUID>) -> bool
        ensures { result ≡ list_any (set.contains (ancestors_of self.now)) uids.now.keys }
    {
        self.parents.meets(uids) || self.indirect_ancestors.meets(uids)
    }

    /// Whether each of its parents is one of the other's.
    pub(crate) fn shares_parents(&self, other: &Entity) -> bool
        ensures { result ≡ set.is_subset self.now.parents other.now.parents }
    {
        are_listed_parents(self.parents.as_slice(), other)
    }

    /// Those of the uids that aren't its ancestors; refused for memory alone.
    pub(crate) fn lacking(&self, uids: &EntityUIDs) -> Result<EntityUIDs, AllocError>
        ensures { IfOk result (λ others. others ≡ set.difference uids.now (ancestors_of self.now)) }
    {
        let mut others = Clone::clone(uids)?;
        others.subtract(&self.parents);
        others.subtract(&self.indirect_ancestors);
        Ok(others)
    }

    /// Its parents, each below the next.
    pub fn parents(&self) -> Uids<'_>
        ensures listed { IsListOf result self.now.parents }
        ensures rising { AreRising result }
    {
        self.parents.iter()
    }

    /// The ancestors that are kept beside its parents, each below the next.
    pub fn indirect_ancestors(&self) -> Uids<'_>
        ensures listed { IsListOf result self.now.indirect }
        ensures rising { AreRising result }
    {
        self.indirect_ancestors.iter()
    }

    /// Its ancestors, each once: its parents, each below the next, and then the others, each below the next.
    pub fn ancestors(&self) -> Ancestors<'_>
        ensures listed { IsListOf result (ancestors_of self.now) }
        ensures in_turn { AreInTurn self.now.parents self.now.indirect result }
        ensures fits { length result < 2 ^ 64 }
    {
        self.parents.followed_by(&self.indirect_ancestors)
    }

    /// Its uid, attributes, indirect ancestors, parents and tags.
    pub fn into_inner(self) -> (EntityUID, Attributes, EntityUIDs, EntityUIDs, Attributes)
        ensures { self ≡ record {
          uid = result.0;
          attributes = attributes_of result.1.value.entries;
          tags = attributes_of result.4.value.entries;
          parents = result.3;
          indirect = result.2;
        } }
    {
        let Entity {
            uid,
            attrs,
            tags,
            parents,
            indirect_ancestors,
        } = self;
        (uid, attrs, indirect_ancestors, parents, tags)
    }
}

// ---- comparisons

fn are_listed_parents(uids: &[EntityUID], of: &Entity) -> bool
    ensures { result ≡ list_all (set.contains of.now.parents) uids.now }
{
    uids.iter().all(|uid| of.is_child_of(uid))
}

fn are_listed_ancestors(uids: &[EntityUID], of: &Entity) -> bool
    ensures { result ≡ list_all (set.contains (ancestors_of of.now)) uids.now }
{
    uids.iter().all(|uid| of.is_descendant_of(uid))
}

fn are_ancestors(uids: &EntityUIDs, of: &Entity) -> bool
    ensures { result ≡ set.is_subset uids.now (ancestors_of of.now) }
{
    are_listed_ancestors(uids.as_slice(), of)
}

// Whether each ancestor of the first is one of the second.
fn shares_ancestors(entity: &Entity, other: &Entity) -> bool
    ensures { IsTrue result ↔ ((q : Uid) → IsTrue (set.contains (ancestors_of entity.now) q) → IsTrue (set.contains (ancestors_of other.now) q)) }
{
    are_ancestors(&entity.parents, other) && are_ancestors(&entity.indirect_ancestors, other)
}

fn have_same_ancestors(a: &Entity, b: &Entity) -> bool
    ensures { IsTrue result ↔ (ancestors_of b.now ≡ ancestors_of a.now) }
{
    shares_ancestors(a, b) && shares_ancestors(b, a)
}

fn have_same_attributes(a: &Entity, b: &Entity) -> bool
    ensures { IsTrue result ↔ ((b.now.attributes ≡ a.now.attributes) × (b.now.tags ≡ a.now.tags)) }
{
    same_attributes(&a.attrs, &b.attrs) && same_attributes(&a.tags, &b.tags)
}

impl Entity {
    // Whether both have the same attributes, tags and ancestors.
    fn is_version_of(&self, other: &Entity) -> bool
        ensures { IsTrue result ↔ ((other.now.attributes ≡ self.now.attributes) × (other.now.tags ≡ self.now.tags)
            × (ancestors_of other.now ≡ ancestors_of self.now)) }
    {
        have_same_attributes(self, other) && have_same_ancestors(self, other)
    }

    /// Whether both have the same uid, attributes, tags and ancestors. Two residuals are the same where
    /// they have one shape.
    pub fn deep_eq(&self, other: &Entity) -> bool
        ensures { IsTrue result ↔ IsSameEntity self.now other.now }
    {
        self.uid == other.uid && self.is_version_of(other)
    }
}

impl PartialEq for Entity {
    ghost use Rattle.cedar_entities.specs.Sameness.{same_by_uid, same_by_uid_partial};

    ghost eq = { same_by_uid };

    ghost laws = { same_by_uid_partial };

    fn eq(&self, other: &Entity) -> bool {
        self.uid == other.uid
    }
}

impl Eq for Entity {
    ghost use Rattle.cedar_entities.specs.Sameness.{same_by_uid_equiv};

    ghost laws = { same_by_uid_equiv };
}

impl Hash for Entity {
    ghost use Rattle.cedar_entities.specs.Sameness.{hash_by_uid, hash_by_uid_alike};

    ghost hash_input = { hash_by_uid };

    ghost respects_eq = { hash_by_uid_alike.fed };

    fn hash<H: Hasher>(&self, state: &mut H) {
        self.uid.hash(state);
    }
}

impl Clone for Entity {
    ghost is_clone = { λ entity copy. copy ≡ entity };

    fn clone(&self) -> Result<Entity, AllocError> {
        Ok(Entity {
            uid: Clone::clone(&self.uid)?,
            attrs: self.attrs.clone()?,
            tags: self.tags.clone()?,
            parents: Clone::clone(&self.parents)?,
            indirect_ancestors: Clone::clone(&self.indirect_ancestors)?,
        })
    }
}

// ---- changes

impl Entity {
    /// A copy that shares attributes and tags; refused for memory alone.
    pub fn clone(&self, _alloc: Global) -> Result<Entity, AllocError>
        ensures { IfOk result (λ copy. copy ≡ self.now) }
    {
        Clone::clone(self)
    }

    /// Keeps an ancestor beside the parents, unless it is a parent. Refused for memory alone; the entity
    /// is then unchanged.
    pub fn add_indirect_ancestor(&mut self, uid: EntityUID) -> Result<(), AllocError>
        ensures added { OnOk result (self.new ≡ record self.old {
          indirect = (if set.contains self.old.parents uid then self.old.indirect else set.insert self.old.indirect uid);
        }) }
        ensures err { OnErr result (self.new ≡ self.old) }
    {
        if !self.parents.contains(&uid) {
            self.indirect_ancestors.insert(uid)?;
        }
        Ok(())
    }

    /// Keeps these uids beside the parents, those that are parents left out. The list of those kept is made once.
    /// Refused for memory alone; the entity is then unchanged.
    pub fn add_indirect_ancestors(&mut self, uids: Vec<EntityUID>) -> Result<(), AllocError>
        ensures added { OnOk result (self.new ≡ record self.old {
          indirect = set.union self.old.indirect (set.difference (set.from_list uids.items) self.old.parents);
        }) }
        ensures err { OnErr result (self.new ≡ self.old) }
    {
        let others = others_than(&self.parents, uids);
        self.indirect_ancestors.extend(others)
    }

    /// Keeps these uids alone beside the parents, those that are parents left out.
    pub(crate) fn set_ancestors(&mut self, uids: EntityUIDs)
        ensures { self.new ≡ record self.old { indirect = set.difference uids self.old.parents } }
    {
        let mut others = uids;
        others.subtract(&self.parents);
        self.indirect_ancestors = others;
    }

    /// Takes away those of the uids that are kept beside the parents.
    pub(crate) fn remove_indirect_ancestors(&mut self, uids: &EntityUIDs)
        ensures { self.new ≡ record self.old { indirect = set.difference self.old.indirect uids.now } }
    {
        self.indirect_ancestors.subtract(uids);
    }

    /// Adds a parent, which isn't kept beside the parents any more. Refused for memory alone; the entity
    /// is then unchanged.
    pub fn add_parent(&mut self, uid: EntityUID) -> Result<(), AllocError>
        ensures added { OnOk result (self.new ≡ record self.old {
          parents = set.insert self.old.parents uid;
          indirect = set.remove self.old.indirect uid;
        }) }
        ensures err { OnErr result (self.new ≡ self.old) }
    {
        self.parents.insert(Clone::clone(&uid)?)?;
        self.indirect_ancestors.remove(&uid);
        Ok(())
    }

    /// Takes away an ancestor that is kept beside the parents, if it is one.
    pub fn remove_indirect_ancestor(&mut self, uid: &EntityUID)
        ensures { self.new ≡ record self.old { indirect = set.remove self.old.indirect uid.now } }
    {
        self.indirect_ancestors.remove(uid);
    }

    /// Takes away a parent, if it is one.
    pub fn remove_parent(&mut self, uid: &EntityUID)
        ensures { self.new ≡ record self.old { parents = set.remove self.old.parents uid.now } }
    {
        self.parents.remove(uid);
    }

    /// Takes these uids away from its parents and from the ancestors that are kept beside them.
    pub fn remove_ancestors(&mut self, uids: &BTreeSet<EntityUID>)
        ensures { self.new ≡ without (set.from_list uids.now.keys) self.old }
    {
        self.parents.remove_all(uids);
        self.indirect_ancestors.remove_all(uids);
    }

    /// Takes away all ancestors that are kept beside the parents.
    pub fn remove_all_indirect_ancestors(&mut self)
        ensures { self.new ≡ record self.old { indirect = set.empty } }
    {
        self.indirect_ancestors.clear();
    }
}

// Those of the uids that aren't in the list.
fn others_than(list: &EntityUIDs, uids: Vec<EntityUID>) -> Vec<EntityUID>
    ensures { set.from_list result.items ≡ set.difference (set.from_list uids.items) list.now }
{
    let mut others = uids;
    others.retain(|uid| !list.contains(uid));
    others
}
