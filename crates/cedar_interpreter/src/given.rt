// An entity that a request gives, and what is asked of it.
ghost use Rattle.std.specs.Prelude.{◌≡◌, false};
ghost use Rattle.std.specs.FinSet as set;
ghost use Rattle.std.specs.Option.{option_map_or, option_copied};
ghost use Rattle.cedar_entities.specs.Data.{ancestors_of};
ghost use Rattle.cedar_language.specs.Order.{same_name, same_uid};
ghost use Rattle.cedar_operators.specs.Hierarchy.{is_within_entity};

use crate::lent_lookups::{is_below, is_same_uid};
use cedar_entities::entity::Entity;
use cedar_literals::uids::{EntityType, EntityUID};

/// An entity that a request gives, with what a store holds of it. Both are lent, so nothing is looked up where
/// something is asked of it.
#[derive(Clone, Copy)]
pub struct GivenEntity<'v, 's> {
    /// Which entity it is.
    pub uid: &'v EntityUID,
    /// What the store holds of it, if it does.
    pub entity: Option<&'s Entity>,
}

impl GivenEntity<'_, '_> {
    /// Whether it is this entity.
    // Inlined, since scopes ask it for each action that they list.
    #[inline(always)]
    pub fn is(&self, uid: &EntityUID) -> bool
        ensures { result ≡ same_uid self.now.uid.now uid.now }
    {
        is_same_uid(self.uid, uid)
    }

    /// Whether it is of this type.
    pub fn is_of(&self, ty: &EntityType) -> bool
        ensures { result ≡ same_name self.now.uid.now.type_name ty.now }
    {
        self.uid.entity_type() == ty
    }

    /// Whether this entity is among its ancestors; none are, where the store doesn't hold it.
    pub fn descends_from(&self, uid: &EntityUID) -> bool
        ensures { result ≡ option_map_or (λ held. set.contains (ancestors_of held) uid.now) (option_copied self.now.entity) false }
    {
        is_below(self.entity, uid)
    }

    /// Whether it is this entity, or descends from it. (Cedar language reference, "in (hierarchy membership)".)
    pub fn is_in(&self, uid: &EntityUID) -> bool
        ensures { result ≡ is_within_entity self.now.uid.now (option_copied self.now.entity) uid.now }
    {
        self.is(uid) || self.descends_from(uid)
    }
}
