//! The store of entities: look-ups, and edits that close the ancestors again.
ghost use Rattle.std.specs.Prelude.{◌≡◌, ◌↔◌, [], IsTrue, IfOk, IfErr, IfSome, IfNone, length, map, Some, None};
ghost use Rattle.std.specs.FinSet as set;
ghost use Rattle.cedar_language.specs.Uid.{Uid};
ghost use Rattle.cedar_language.specs.Order.{uid_cmp};
ghost use Rattle.cedar_language.specs.Tree as tree;
ghost use Rattle.cedar_trees.specs.Bare.{bare};
ghost use Rattle.cedar_literals.specs.Escapes.{uid_text};
ghost use Rattle.cedar_entities.specs.Data.{EntityData};
ghost use Rattle.cedar_entities.specs.Lists.{AreRising};
ghost use Rattle.cedar_entities.specs.Beside.{CoversEntities};
ghost use Rattle.cedar_entities.specs.Children.{KnowsChildren};
ghost use Rattle.cedar_entities.specs.Kept.{in_map, IsByUid, IsWhole, KeepsBeside};
ghost use Rattle.std.proofs.Props.{props};

use crate::closing::TCComputation;
use crate::comparing::{agree_where_held, has_uids_of};
use crate::edits::{add_all, put_all, remove_all, uids_of};
use crate::entity::Entity;
use crate::errors::EntitiesError;
use crate::touching::{are_few, few, touched};
use cedar_closure::Sources;
use cedar_literals::types::Type;
use cedar_literals::uids::EntityUID;
use cedar_trees::expr::Expr;
use cedar_trees::unknowns::Unknown;
use std::alloc::{AllocError, Global};
use std::collections::{BTreeMap, BTreeSet, btree_map};
use std::rc::RcStr;

/// What is said of an entity that isn't held: that there is none, or that it isn't known.
#[derive(Debug, PartialEq, Eq, Clone, Copy)]
enum Mode {
    Concrete,
    Partial,
}

/// The entities of a request, by their uids. Each stands under its own uid.
/// (Cedar language reference, "Entities".)
pub struct Entities {
    pub(crate) entities: BTreeMap<EntityUID, Entity>,
    mode: Mode,
    // whether the ancestors kept are known to be those that the parents reach
    pub(crate) is_closed: bool,
    // the children of each uid, once an edit in place wanted them
    pub(crate) children: Option<Sources<EntityUID>>,
    pub ghost by_uid: { IsByUid (in_map entities) },
    pub ghost closed: { IsTrue is_closed → IsWhole (in_map entities) },
    pub ghost known: { IfSome children (KnowsChildren (in_map entities)) } by { Prim.hlevel props },
}

impl Drop for Entities {
    fn drop(self) {
        let Entities {
            entities: _,
            mode: _,
            is_closed: _,
            children: _,
        } = self;
    }
}

/// What a store has at a uid.
#[derive(Debug, Drop)]
pub enum Dereference<'a, T> {
    /// No entity of the uid is held.
    NoSuchEntity,
    /// None is held, and the store is partial: what it is isn't known yet.
    Residual(Expr),
    /// The entity held.
    Data(&'a T),
}

/// A walk over the entities of a store, in the order of their uids.
pub type EntityIterator<'a> = btree_map::Values<'a, EntityUID, Entity>;

impl<'a, T> Dereference<'a, T> {
    ghost use Rattle.cedar_entities.specs.Store.{IsData, Holds};

    /// What is held there.
    pub fn unwrap(self) -> &'a T
        requires { IsData self }
        ensures { Holds self.entry result.now }
    {
        match self {
            Dereference::Data(data) => data,
            _ => unreachable!(),
        }
    }

    /// What is held there. The text says why something is.
    pub fn expect(self, _message: &str) -> &'a T
        requires { IsData self }
        ensures { Holds self.entry result.now }
    {
        self.unwrap()
    }
}

impl Entities {
    ghost use Rattle.std.specs.Prelude.{false, true};
    ghost use Rattle.cedar_entities.specs.Edits.{put, remove, ArePlain};
    ghost use Rattle.cedar_entities.specs.Kept.{put_over, removed_from};
    ghost use Rattle.cedar_entities.specs.Refusals.{IsMemory};
    ghost use Rattle.cedar_entities.specs.Store.{found_in, held_at, IsHeld, IsClosed, entities_in, AreSame, is_partial_mode, is_partial_store, IsDereference, Edits, AddsAs, Leaves, Adds};
    ghost use Rattle.cedar_entities.specs.declared.closing.TCComputation.TheVariants.{ComputeNow};

    /// The store that holds nothing.
    pub fn new(alloc: Global) -> Entities
        ensures found { (uid : Uid) → found_in result uid ≡ None }
        ensures closed { IsClosed result }
        ensures partial { is_partial_store result ≡ false }
    {
        Entities {
            entities: BTreeMap::new(alloc),
            mode: Mode::Concrete,
            is_closed: true,
            children: None,
        }
    }

    /// The same entities, where each that isn't held is unknown.
    pub fn partial(self) -> Entities
        ensures found { (uid : Uid) → found_in result uid ≡ found_in self uid }
        ensures partial { is_partial_store result ≡ true }
    {
        let Entities {
            entities,
            mode: _,
            is_closed,
            children,
        } = self;
        Entities {
            entities,
            mode: Mode::Partial,
            is_closed,
            children,
        }
    }

    /// Whether each entity that isn't held is unknown.
    pub fn is_partial(&self) -> bool
        ensures { result ≡ is_partial_store self.now }
    {
        self.mode == Mode::Partial
    }

    /// The entity of this uid, if one is held. Takes no memory: one look-up.
    ///
    /// Its ancestors are those that the parents held reach, where the store is closed, as it is after each
    /// edit with `ComputeNow`.
    pub fn get(&self, uid: &EntityUID) -> Option<&Entity>
        ensures held { IfSome result (λ entity. IsHeld self.now uid.now entity.now) }
        ensures none { IfNone result (held_at self.now uid.now ≡ None) }
    {
        self.entities.get(uid)
    }

    /// What stands at a uid: `Data` with the entity where one is held. Where none is, `NoSuchEntity`, or, if
    /// the store is partial, `Residual` with an unknown that is named as the uid is printed and typed by the
    /// uid's type.
    ///
    /// Refused where memory runs out, which only the name of an unknown takes: one look-up. `get`
    /// answers whether the entity is held and is never refused.
    pub fn entity(
        &self,
        alloc: Global,
        uid: &EntityUID,
    ) -> Result<Dereference<'_, Entity>, AllocError>
        ensures { IfOk result (IsDereference self.now uid.now) }
    {
        match self.get(uid) {
            Some(entity) => Ok(Dereference::Data(entity)),
            None => match self.mode {
                Mode::Concrete => Ok(Dereference::NoSuchEntity),
                Mode::Partial => Ok(Dereference::Residual(unknown_entity(alloc, uid)?)),
            },
        }
    }

    /// The entities, in the order of their uids.
    pub fn iter(&self) -> EntityIterator<'_>
        ensures listed { result ≡ entities_in self.now }
        ensures rising { AreRising (map (λ (e : EntityData). e.uid) (entities_in self.now)) }
    {
        self.entities.values()
    }

    /// How many entities it holds.
    pub fn len(&self) -> usize
        ensures { result ≡ length (entities_in self.now) }
    {
        self.entities.len()
    }

    /// Whether it holds none.
    pub fn is_empty(&self) -> bool
        ensures { IsTrue result ↔ (entities_in self.now ≡ []) }
    {
        self.entities.len() == 0
    }

    /// Whether both hold entities of the same uids, each with the same attributes, tags and ancestors.
    /// What is said of entities that aren't held plays no part.
    pub fn deep_eq(&self, other: &Entities) -> bool
        ensures { IsTrue result ↔ AreSame self.now other.now }
    {
        agree_where_held(&self.entities, &other.entities)
            && has_uids_of(&self.entities, &other.entities)
    }

    // The store of these entities, their ancestors closed or seen to be closed; those that are stale alone, where it
    // is said which are.
    fn closed(
        alloc: Global,
        mut entities: BTreeMap<EntityUID, Entity>,
        mode: Mode,
        tc_computation: TCComputation,
        stale: Option<Vec<EntityUID>>,
    ) -> Result<Entities, EntitiesError>
        requires by_uid { IsByUid (in_map entities) }
        requires stale { IfSome stale (λ uids. KeepsBeside uids.items (in_map entities)) }
        ensures edited { Edits tc_computation (in_map entities) result }
        ensures partial { IfOk result (λ store. is_partial_store store ≡ is_partial_mode mode) }
    {
        let is_closed = tc_computation.close(alloc, &mut entities, stale)?;
        Ok(Entities {
            entities,
            mode,
            is_closed,
            children: None,
        })
    }

    // The uids of the entities that an edit of these entities touches, where they are few and the ancestors of all
    // others are known to be whole: where ancestors are to be computed, those of these entities alone are then stale.
    fn stale(
        &self,
        alloc: Global,
        entities: &[Entity],
        tc_computation: TCComputation,
    ) -> Result<Option<Vec<EntityUID>>, AllocError>
        ensures { IfOk result (λ stale. IfSome stale (λ uids. IsClosed self.now × CoversEntities (found_in self.now) entities.now uids.items)) }
    {
        if tc_computation != TCComputation::ComputeNow
            || !self.is_closed
            || !are_few(entities.len(), self.len())
        {
            return Ok(None);
        }
        let edited = uids_of(alloc, entities)?;
        let uids = touched(alloc, &self.entities, &edited)?;
        Ok(few(self.is_closed, uids, self.len()))
    }

    /// The store of these entities, which isn't partial. A uid may be listed more than once, if its versions
    /// are the same: equal in attributes and tags, with the same ancestors, parents or not.
    ///
    /// What becomes of the ancestors handed in is said by `tc_computation`: `ComputeNow` drops all but the
    /// parents and keeps beside these what they reach; the other two take the ancestors as they are, and
    /// `EnforceAlreadyComputed` looks whether they are whole.
    ///
    /// Refused `Duplicate` with the uid of a version that differs from the first one listed; then
    /// `TransitiveClosureError`, with `ComputeNow` for a cycle of parents, with `EnforceAlreadyComputed` for an
    /// ancestor that is missing or an entity that is its own; and where memory runs out. Nothing is left of the
    /// entities then.
    ///
    /// Each entity is looked up once. `ComputeNow` then looks, for each entity, once at the ancestors of
    /// each one that it reaches; `EnforceAlreadyComputed` at those of each of its ancestors.
    pub fn from_entities(
        alloc: Global,
        entities: Vec<Entity>,
        tc_computation: TCComputation,
    ) -> Result<Entities, EntitiesError>
        ensures edited { AddsAs tc_computation (λ uid. None) entities.items result }
        ensures added { tc_computation ≡ ComputeNow → ArePlain entities.items → Adds (λ uid. None) entities.items result }
        ensures partial { IfOk result (λ store. is_partial_store store ≡ false) }
    {
        Entities::new(alloc).add_entities(alloc, entities, tc_computation)
    }

    /// The store with these entities as well. One whose uid is held is taken without change where it is the
    /// same: where attributes and tags are equal, and those listed as its ancestors, parents or not, are all
    /// the ancestors of the one held, before the call. Of a uid that is new the first version is taken, and
    /// each further one has to be the same.
    ///
    /// Refused `Duplicate` with the uid of a version that differs from the one held, or else from the first one
    /// listed. Ancestors are then closed or looked at, and refused, as `from_entities` says of
    /// `tc_computation`. Also refused where memory runs out. The store is consumed: a refused call leaves nothing
    /// of it, so a caller that goes on with it calls `add_in_place`.
    ///
    /// With `ComputeNow` it looks once at each entity for those listed among its ancestors, and closes again
    /// these entities and those listed, where they are few; else it goes over the whole store, at the cost told
    /// at `from_entities`.
    pub fn add_entities(
        self,
        alloc: Global,
        entities: Vec<Entity>,
        tc_computation: TCComputation,
    ) -> Result<Entities, EntitiesError>
        ensures edited { AddsAs tc_computation (found_in self) entities.items result }
        ensures added { tc_computation ≡ ComputeNow → IsClosed self → ArePlain entities.items → Adds (held_at self) entities.items result }
        ensures partial { IfOk result (λ store. is_partial_store store ≡ is_partial_store self) }
    {
        let stale = self.stale(alloc, &entities, tc_computation)?;
        let Entities {
            entities: mut map,
            mode,
            is_closed: _,
            children: _,
        } = self;
        add_all(alloc, &mut map, entities)?;
        Entities::closed(alloc, map, mode, tc_computation, stale)
    }

    /// The store with these entities in the place of those of the same uids: of each uid the version listed
    /// last stands, with its attributes, tags and parents, and nothing of the version held before.
    ///
    /// Never refused `Duplicate`. Ancestors are closed or looked at, and refused, as `from_entities` says of
    /// `tc_computation`, at the cost told at `add_entities`. Also refused where memory runs out. The store is
    /// consumed: a refused call leaves nothing of it, so a caller that goes on with it calls `upsert_in_place`.
    pub fn upsert_entities(
        self,
        alloc: Global,
        entities: Vec<Entity>,
        tc_computation: TCComputation,
    ) -> Result<Entities, EntitiesError>
        ensures edited { Edits tc_computation (put_over (found_in self) entities.items) result }
        ensures put { tc_computation ≡ ComputeNow → Leaves (put (held_at self) entities.items) result }
        ensures partial { IfOk result (λ store. is_partial_store store ≡ is_partial_store self) }
    {
        let stale = self.stale(alloc, &entities, tc_computation)?;
        let Entities {
            entities: mut map,
            mode,
            is_closed: _,
            children: _,
        } = self;
        put_all(alloc, &mut map, entities)?;
        Entities::closed(alloc, map, mode, tc_computation, stale)
    }

    /// The store without the entities of these uids, and without all parent edges from and to them; of a uid
    /// that isn't held the edges to it go. Other entities stay, and so do their other parents: with
    /// `ComputeNow` an entity keeps an ancestor where its parents reach that one without those removed, and
    /// loses it else. The other two take the removed uids alone from the ancestors that are kept.
    ///
    /// Ancestors are closed or looked at, and refused, as `from_entities` says of `tc_computation`, but a closed
    /// store is never refused with `ComputeNow`, memory aside; at the cost told at `add_entities`, where in each
    /// mode each entity is looked at once for `uids` among its ancestors. The store is consumed: a refused call
    /// leaves nothing of it, so a caller that goes on with it calls `remove_in_place`.
    pub fn remove_entities(
        self,
        alloc: Global,
        uids: &BTreeSet<EntityUID>,
        tc_computation: TCComputation,
    ) -> Result<Entities, EntitiesError>
        ensures edited { Edits tc_computation (removed_from (found_in self) (set.from_list {R = uid_cmp} uids.now.keys)) result }
        ensures removed { tc_computation ≡ ComputeNow → Leaves (remove (held_at self) (set.from_list {R = uid_cmp} uids.now.keys)) result }
        ensures only_memory { tc_computation ≡ ComputeNow → IsClosed self → IfErr result IsMemory }
        ensures partial { IfOk result (λ store. is_partial_store store ≡ is_partial_store self) }
    {
        let touched = touched(alloc, &self.entities, uids)?;
        let Entities {
            entities: mut map,
            mode,
            is_closed,
            children: _,
        } = self;
        remove_all(&mut map, &touched, uids);
        let stale = few(is_closed, touched, map.len());
        Entities::closed(alloc, map, mode, tc_computation, stale)
    }
}

impl IntoIterator for Entities {
    type Item = Entity;

    type IntoIter = btree_map::IntoValues<EntityUID, Entity>;

    ghost use Rattle.std.specs.Prelude.{◌≡◌};
    ghost use Rattle.cedar_entities.specs.Store.{entities_in};

    ghost into_iter_gives = { λ store it. it ≡ entities_in store };

    /// The entities, in the order of their uids.
    fn into_iter(self) -> btree_map::IntoValues<EntityUID, Entity> {
        let Entities {
            entities,
            mode: _,
            is_closed: _,
            children: _,
        } = self;
        entities.into_values()
    }
}

impl<'a> IntoIterator for &'a Entities {
    type Item = &'a Entity;

    type IntoIter = EntityIterator<'a>;

    ghost use Rattle.std.specs.Prelude.{◌≡◌};
    ghost use Rattle.cedar_entities.specs.Store.{entities_in};

    ghost into_iter_gives = { λ store it. it ≡ entities_in store.now };

    fn into_iter(self) -> EntityIterator<'a> {
        self.iter()
    }
}

impl Clone for Entities {
    ghost use Rattle.cedar_entities.specs.Store.{IsCopy};

    ghost is_clone = { IsCopy };

    fn clone(&self) -> Result<Entities, AllocError> {
        Ok(Entities {
            entities: self.entities.clone()?,
            mode: self.mode,
            is_closed: self.is_closed,
            children: None,
        })
    }
}

impl Entities {
    ghost use Rattle.cedar_entities.specs.Store.{IsCopy};

    /// A copy that shares names, attributes and tags; refused for memory alone.
    pub fn clone(&self, _alloc: Global) -> Result<Entities, AllocError>
        ensures { IfOk result (IsCopy self.now) }
    {
        Clone::clone(self)
    }
}

// The unknown that stands for an entity which isn't held.
fn unknown_entity(alloc: Global, uid: &EntityUID) -> Result<Expr, AllocError>
    ensures { IfOk result (λ expr. bare expr ≡ tree.Unknown (uid_text uid.now) (Some (tree.EntityType uid.now.type_name))) }
{
    let name = RcStr::from_string(uid.to_string(alloc)?)?;
    let ty = Type::Entity {
        ty: uid.entity_type().clone(alloc)?,
    };
    Ok(Expr::unknown(Unknown::new_with_type(name, ty)))
}
