// What a scope compares its variable with.
ghost use Rattle.std.specs.Prelude.{◌≡◌, IfOk, Some, option_map, option_to_list};
ghost use Rattle.std.specs.Option.{option_copied};
ghost use Rattle.cedar_grammar.specs.Policy.{the_entity, target_tree, target_slots, bound_target};
ghost use Rattle.cedar_trees.specs.Bare.{bare};
ghost use Rattle.cedar_policy_parts.specs.References.{target_of, target_bound};

use crate::constraints::PrincipalOrResource;
use cedar_literals::literals::Literal;
use cedar_literals::slots::{Slot, SlotId};
use cedar_literals::uids::EntityUID;
use cedar_names::conversions::FromIn;
use cedar_names::places::Loc;
use cedar_trees::expr::Expr;
use std::alloc::{AllocError, Global};
use std::cmp::Ordering;
use std::fmt;
use std::hash::{Hash, Hasher};
use std::rc::Rc;

/// What a scope compares its variable with: an entity, or the slot of the template for this variable.
/// Contracts see it through `target_of`; `==`, order and hash look past places. (Cedar language reference, "Policy
/// scope".)
#[derive(Debug)]
pub enum EntityReference {
    /// An entity.
    EUID(Rc<EntityUID>),
    /// The slot, and where it was read, if it was.
    Slot(Option<Loc>),
}

impl EntityReference {
    /// This entity, which is shared; takes no memory.
    pub fn euid(euid: Rc<EntityUID>) -> EntityReference
        ensures { target_of result ≡ the_entity euid.value }
    {
        EntityReference::EUID(euid)
    }

    /// The expression of it, for the variable that has this slot; refused for memory alone.
    pub fn into_expr(&self, alloc: Global, slot: SlotId) -> Result<Expr, AllocError>
        ensures { IfOk result (λ made. bare made ≡ target_tree slot (target_of self.now)) }
    {
        match self {
            EntityReference::EUID(uid) => Ok(Expr::val(Literal::EntityUID(uid.clone()?))),
            EntityReference::Slot(None) => Ok(Expr::slot(slot)),
            EntityReference::Slot(Some(loc)) => {
                let loc = loc.clone(alloc)?;
                Ok(Expr::slot(slot).with_maybe_source_loc(Some(loc)))
            }
        }
    }

    /// The slot, where it is one, under this name, and where it was read; refused for memory alone.
    pub fn slot(&self, alloc: Global, id: SlotId) -> Result<Option<Slot>, AllocError>
        ensures { IfOk result (λ slot. option_to_list (option_map (λ s. s.id) slot) ≡ target_slots id (target_of self.now)) }
    {
        match self {
            EntityReference::EUID(_) => Ok(None),
            EntityReference::Slot(None) => Ok(Some(Slot { id, loc: None })),
            EntityReference::Slot(Some(loc)) => {
                let loc = Some(loc.clone(alloc)?);
                Ok(Some(Slot { id, loc }))
            }
        }
    }

    /// The entity that it names, or for a slot the one that this is bound to.
    pub fn uid_or_bound<'p>(&'p self, bound: Option<&'p EntityUID>) -> Option<&'p EntityUID>
        ensures { option_copied result ≡ target_bound (option_copied bound.entry) (target_of self.now) }
    {
        match self {
            EntityReference::EUID(uid) => Some(uid.as_ref()),
            EntityReference::Slot(_) => bound,
        }
    }

    /// This entity in the place of the slot; an entity stays.
    pub fn with_filled_slot(self, euid: Rc<EntityUID>) -> EntityReference
        ensures { target_of result ≡ bound_target (Some euid.value) (target_of self) }
    {
        match &self {
            EntityReference::EUID(_) => self,
            EntityReference::Slot(_) => EntityReference::EUID(euid),
        }
    }

    /// A copy that shares the entity; refused for memory alone.
    pub fn clone(&self, alloc: Global) -> Result<EntityReference, AllocError>
        ensures { IfOk result (λ copy. target_of copy ≡ target_of self.now) }
    {
        match self {
            EntityReference::EUID(uid) => Ok(EntityReference::EUID(uid.clone()?)),
            EntityReference::Slot(None) => Ok(EntityReference::Slot(None)),
            EntityReference::Slot(Some(loc)) => Ok(EntityReference::Slot(Some(loc.clone(alloc)?))),
        }
    }
}

impl EntityReference {
    // Writes it, where it stands for this variable.
    pub(crate) fn write<W: fmt::Write>(
        &self,
        f: &mut fmt::Formatter<W>,
        v: PrincipalOrResource,
    ) -> fmt::Result {
        match self {
            EntityReference::EUID(uid) => write!(f, "{uid}"),
            EntityReference::Slot(_) => write!(f, "?{v}"),
        }
    }
}

// By hand, so that letting go of one is a call.
impl Drop for EntityReference {
    fn drop(self) {
        match self {
            EntityReference::EUID(_uid) => {}
            EntityReference::Slot(_loc) => {}
        }
    }
}

/// This entity, shared from now on; refused for memory alone.
impl FromIn<EntityUID> for EntityReference {
    type Error = AllocError;

    ghost use Rattle.std.specs.Prelude.{◌≡◌, IfOk};
    ghost use Rattle.cedar_grammar.specs.Policy.{the_entity};
    ghost use Rattle.cedar_policy_parts.specs.References.{target_of};

    ghost from_in_gives = { λ uid result. IfOk result (λ made. target_of made ≡ the_entity uid) };

    fn from_in(alloc: Global, uid: EntityUID) -> Result<EntityReference, AllocError> {
        Ok(EntityReference::euid(Rc::new(alloc, uid)?))
    }
}

impl PartialEq for EntityReference {
    ghost use Rattle.std.specs.Ordering.{eq_by_cmp};
    ghost use Rattle.std.specs.Cmp.{partial_equiv_from_equiv};
    ghost use Rattle.std.proofs.lemmas.Cmp.{eq_by_cmp_equiv};
    ghost use Rattle.cedar_policy_parts.specs.SameScopes.{order_of_references, references_total};

    ghost eq = { eq_by_cmp order_of_references };

    ghost laws = { partial_equiv_from_equiv (eq_by_cmp_equiv references_total) };

    fn eq(&self, other: &EntityReference) -> bool {
        self.cmp(other).is_eq()
    }
}

impl Eq for EntityReference {
    ghost use Rattle.std.proofs.lemmas.Cmp.{eq_by_cmp_equiv};
    ghost use Rattle.cedar_policy_parts.specs.SameScopes.{references_total};

    ghost laws = { eq_by_cmp_equiv references_total };
}

impl PartialOrd for EntityReference {
    ghost use Rattle.std.specs.Ordering.{as_partial_cmp};
    ghost use Rattle.std.specs.Cmp.{partial_order_from_total};
    ghost use Rattle.cedar_policy_parts.specs.SameScopes.{order_of_references, references_total};

    ghost partial_cmp = { as_partial_cmp order_of_references };

    ghost laws = { partial_order_from_total references_total };

    fn partial_cmp(&self, other: &EntityReference) -> Option<Ordering> {
        Some(self.cmp(other))
    }
}

impl Ord for EntityReference {
    ghost use Rattle.std.specs.Prelude.{refl};
    ghost use Rattle.cedar_policy_parts.specs.SameScopes.{order_of_references, references_total};

    ghost cmp = { order_of_references };

    ghost total = { references_total };

    ghost matches_partial_cmp = { λ x y. refl };

    ghost matches_eq = { λ x y. refl };

    fn cmp(&self, other: &EntityReference) -> Ordering {
        match (self, other) {
            (EntityReference::EUID(a), EntityReference::EUID(b)) => a.cmp(b),
            (EntityReference::EUID(_), EntityReference::Slot(_)) => Ordering::Less,
            (EntityReference::Slot(_), EntityReference::EUID(_)) => Ordering::Greater,
            (EntityReference::Slot(_), EntityReference::Slot(_)) => Ordering::Equal,
        }
    }
}

impl Hash for EntityReference {
    ghost use Rattle.cedar_policy_parts.specs.References.{target_of};
    ghost use Rattle.cedar_policy_parts.specs.SameScopes.{target_hash, references_alike};

    ghost hash_input = { λ e. target_hash (target_of e) };

    ghost respects_eq = { references_alike.fed };

    fn hash<H: Hasher>(&self, state: &mut H) {
        match self {
            EntityReference::EUID(uid) => {
                state.write_u8(0);
                uid.hash(state);
            }
            EntityReference::Slot(_) => state.write_u8(1),
        }
    }
}
