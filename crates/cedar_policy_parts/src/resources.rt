// What a scope asks of the resource.
ghost use Rattle.std.specs.Prelude.{◌≡◌, IfOk, Some, option_map, option_to_list};
ghost use Rattle.cedar_language.specs.Tree.{Resource, ResourceSlot};
ghost use Rattle.cedar_grammar.specs.Policy.{anything, equals, within, of_type, of_type_within, the_entity, the_slot, constraint_tree, constraint_slots, bound_constraint};
ghost use Rattle.cedar_trees.specs.Bare.{bare};
ghost use Rattle.cedar_policy_parts.specs.Asked.{constraint_of};

use crate::constraints::{PrincipalOrResource, PrincipalOrResourceConstraint};
use cedar_literals::slots::Slot;
use cedar_literals::uids::{EntityType, EntityUID};
use cedar_trees::expr::Expr;
use std::alloc::{AllocError, Global};
use std::fmt;
use std::marker::Model;
use std::rc::Rc;

/// What a scope asks of the resource. Contracts see the constraint, and no place; so does `==`.
/// (Cedar language reference, "Policy scope".)
#[derive(Debug, Drop)]
pub struct ResourceConstraint {
    constraint: PrincipalOrResourceConstraint,
}

impl Model for ResourceConstraint {
    ghost use Rattle.cedar_grammar.specs.Policy.{Constraint};
    ghost use Rattle.cedar_policy_parts.specs.Asked.{constraint_of};

    ghost Value = { Constraint };

    ghost view = { λ a. constraint_of a.constraint };
}

impl ResourceConstraint {
    /// This is asked of the resource.
    pub fn new(constraint: PrincipalOrResourceConstraint) -> ResourceConstraint
        ensures { result ≡ constraint_of constraint }
    {
        ResourceConstraint { constraint }
    }

    /// What is asked, lent, without saying of which variable.
    pub fn as_inner(&self) -> &PrincipalOrResourceConstraint
        ensures { constraint_of result.now ≡ self.now }
    {
        &self.constraint
    }

    /// What is asked, taken out without a copy: the same constraint, which may then be put on the
    /// other variable too. Its slot, where it has one, is no longer tied to `?resource`.
    pub fn into_inner(self) -> PrincipalOrResourceConstraint
        ensures { constraint_of result ≡ self }
    {
        self.constraint
    }

    /// Nothing is asked.
    pub fn any() -> ResourceConstraint
        ensures { result ≡ anything }
    {
        ResourceConstraint::new(PrincipalOrResourceConstraint::any())
    }

    /// That it is this entity.
    pub fn is_eq(euid: Rc<EntityUID>) -> ResourceConstraint
        ensures { result ≡ equals (the_entity euid.value) }
    {
        ResourceConstraint::new(PrincipalOrResourceConstraint::is_eq(euid))
    }

    /// That it is what `?resource` is bound to.
    pub fn is_eq_slot() -> ResourceConstraint
        ensures { result ≡ equals the_slot }
    {
        ResourceConstraint::new(PrincipalOrResourceConstraint::is_eq_slot())
    }

    /// That it is in this entity.
    pub fn is_in(euid: Rc<EntityUID>) -> ResourceConstraint
        ensures { result ≡ within (the_entity euid.value) }
    {
        ResourceConstraint::new(PrincipalOrResourceConstraint::is_in(euid))
    }

    /// That it is in what `?resource` is bound to.
    pub fn is_in_slot() -> ResourceConstraint
        ensures { result ≡ within the_slot }
    {
        ResourceConstraint::new(PrincipalOrResourceConstraint::is_in_slot())
    }

    /// That it is of this type.
    pub fn is_entity_type(entity_type: Rc<EntityType>) -> ResourceConstraint
        ensures { result ≡ of_type entity_type.value }
    {
        ResourceConstraint::new(PrincipalOrResourceConstraint::is_entity_type(entity_type))
    }

    /// That it is of this type, and in this entity.
    pub fn is_entity_type_in(
        entity_type: Rc<EntityType>,
        in_entity: Rc<EntityUID>,
    ) -> ResourceConstraint
        ensures { result ≡ of_type_within entity_type.value (the_entity in_entity.value) }
    {
        ResourceConstraint::new(PrincipalOrResourceConstraint::is_entity_type_in(
            entity_type,
            in_entity,
        ))
    }

    /// That it is of this type, and in what `?resource` is bound to.
    pub fn is_entity_type_in_slot(entity_type: Rc<EntityType>) -> ResourceConstraint
        ensures { result ≡ of_type_within entity_type.value the_slot }
    {
        ResourceConstraint::new(PrincipalOrResourceConstraint::is_entity_type_in_slot(entity_type))
    }

    /// The condition that it is; refused for memory alone.
    pub fn as_expr(&self, alloc: Global) -> Result<Expr, AllocError>
        ensures { IfOk result (λ made. bare made ≡ constraint_tree Resource ResourceSlot self.now) }
    {
        self.constraint
            .as_expr(alloc, PrincipalOrResource::Resource)
    }

    /// Its slot, if it has one, and where it was read; refused for memory alone.
    pub fn slot(&self, alloc: Global) -> Result<Option<Slot>, AllocError>
        ensures { IfOk result (λ slot. option_to_list (option_map (λ s. s.id) slot) ≡ constraint_slots ResourceSlot self.now) }
    {
        self.constraint.slot(alloc, PrincipalOrResource::Resource)
    }

    /// The same, with this entity in the place of its slot, where it has one.
    pub fn with_filled_slot(self, euid: Rc<EntityUID>) -> ResourceConstraint
        ensures { result ≡ bound_constraint (Some euid.value) self }
    {
        ResourceConstraint::new(self.into_inner().with_filled_slot(euid))
    }

    /// A copy that shares the parts; refused for memory alone.
    pub fn clone(&self, alloc: Global) -> Result<ResourceConstraint, AllocError>
        ensures { IfOk result (λ copy. copy ≡ self.now) }
    {
        Ok(ResourceConstraint::new(self.constraint.clone(alloc)?))
    }
}

impl PartialEq for ResourceConstraint {
    ghost use Rattle.std.specs.Cmp.{partial_equiv_from_equiv};
    ghost use Rattle.cedar_policy_parts.specs.SameScopes.{same_constraint, same_constraint_equiv};

    ghost eq = { same_constraint };

    ghost laws = { partial_equiv_from_equiv same_constraint_equiv };

    fn eq(&self, other: &ResourceConstraint) -> bool {
        self.constraint == other.constraint
    }
}

impl Eq for ResourceConstraint {
    ghost use Rattle.cedar_policy_parts.specs.SameScopes.{same_constraint_equiv};

    ghost laws = { same_constraint_equiv };
}

impl fmt::Display for ResourceConstraint {
    fn fmt<W: fmt::Write>(&self, f: &mut fmt::Formatter<W>) -> fmt::Result {
        self.constraint.write(f, PrincipalOrResource::Resource)
    }
}
