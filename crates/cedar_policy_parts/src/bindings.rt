// The entities that the slots of a template are bound to.
ghost use Rattle.std.specs.Prelude.{◌≡◌, ◌==◌, Option, None, Some, IfOk, length, is_some};
ghost use Rattle.std.specs.Option.{option_copied};
ghost use Rattle.cedar_grammar.specs.Bindings.{binding_of};
ghost use Rattle.cedar_policy_parts.specs.Bindings.{unbound, with_entity, bound_slots};

use cedar_literals::slots::SlotId;
use cedar_literals::uids::EntityUID;
use std::alloc::{AllocError, Global};
use std::fmt;
use std::marker::Model;

/// The entity that each slot is bound to, if it is: a map from slots to uids. It takes no memory of
/// its own, since there are two slots. Contracts see the entities, and so does `==`.
#[derive(Debug)]
pub struct SlotEnv {
    principal: Option<EntityUID>,
    resource: Option<EntityUID>,
}

impl Drop for SlotEnv {
    fn drop(self) {
        let SlotEnv {
            principal: _,
            resource: _,
        } = self;
    }
}

impl Model for SlotEnv {
    ghost use Rattle.cedar_grammar.specs.Bindings.{Bindings};

    ghost Value = { Bindings };

    ghost view = { λ a. record { principal = a.principal; resource = a.resource } };
}

impl SlotEnv {
    /// No slot is bound.
    pub fn new() -> SlotEnv
        ensures { result ≡ unbound }
    {
        SlotEnv {
            principal: None,
            resource: None,
        }
    }

    /// The entity that a slot is bound to.
    pub fn get(&self, slot: &SlotId) -> Option<&EntityUID>
        ensures { option_copied result ≡ binding_of self.now slot.now }
    {
        if slot.is_principal() {
            self.principal.as_ref()
        } else {
            self.resource.as_ref()
        }
    }

    /// Whether a slot is bound.
    pub fn contains_key(&self, slot: &SlotId) -> bool
        ensures { result ≡ is_some (binding_of self.now slot.now) }
    {
        self.get(slot).is_some()
    }

    /// Binds a slot to an entity, and gives what it was bound to before.
    pub fn insert(&mut self, slot: SlotId, uid: EntityUID) -> Option<EntityUID>
        ensures bound { self.new ≡ with_entity self.old slot uid }
        ensures before { result ≡ binding_of self.old slot }
    {
        if slot.is_principal() {
            self.principal.replace(uid)
        } else {
            self.resource.replace(uid)
        }
    }

    /// How many slots are bound.
    pub fn len(&self) -> usize
        ensures { result ≡ length (bound_slots self.now) }
    {
        usize::from(self.principal.is_some()) + usize::from(self.resource.is_some())
    }

    /// Whether no slot is bound.
    pub fn is_empty(&self) -> bool
        ensures { result ≡ (length (bound_slots self.now) == 0) }
    {
        self.principal.is_none() && self.resource.is_none()
    }

    /// A copy that shares the parts of the entities; refused for memory alone.
    pub fn clone(&self, _alloc: Global) -> Result<SlotEnv, AllocError>
        ensures { IfOk result (λ copy. copy ≡ self.now) }
    {
        Clone::clone(self)
    }
}

impl Clone for SlotEnv {
    ghost is_clone = { λ bindings copy. copy ≡ bindings };

    fn clone(&self) -> Result<SlotEnv, AllocError> {
        Ok(SlotEnv {
            principal: self.principal.clone()?,
            resource: self.resource.clone()?,
        })
    }
}

impl PartialEq for SlotEnv {
    ghost use Rattle.std.specs.Cmp.{partial_equiv_from_equiv};
    ghost use Rattle.cedar_policy_parts.specs.SameScopes.{same_bindings, same_bindings_equiv};

    ghost eq = { same_bindings };

    ghost laws = { partial_equiv_from_equiv same_bindings_equiv };

    fn eq(&self, other: &SlotEnv) -> bool {
        self.principal == other.principal && self.resource == other.resource
    }
}

impl Eq for SlotEnv {
    ghost use Rattle.cedar_policy_parts.specs.SameScopes.{same_bindings_equiv};

    ghost laws = { same_bindings_equiv };
}

impl fmt::Display for SlotEnv {
    fn fmt<W: fmt::Write>(&self, f: &mut fmt::Formatter<W>) -> fmt::Result {
        match (&self.principal, &self.resource) {
            (None, None) => Ok(()),
            (Some(principal), None) => write!(f, "?principal -> {principal}"),
            (None, Some(resource)) => write!(f, "?resource -> {resource}"),
            (Some(principal), Some(resource)) => write!(
                f,
                "?principal -> {principal},?resource -> {resource}"
            ),
        }
    }
}
