// What a scope asks of the principal, or of the resource.
ghost use Rattle.std.specs.Prelude.{◌≡◌, IfOk, Some, option_map, option_to_list};
ghost use Rattle.std.specs.Option.{option_copied};
ghost use Rattle.cedar_grammar.specs.Policy.{anything, equals, within, of_type, of_type_within, the_entity, the_slot, constraint_tree, constraint_slots, bound_constraint};
ghost use Rattle.cedar_trees.specs.Bare.{bare};
ghost use Rattle.cedar_policy_parts.specs.Asked.{variable_asked, slot_asked, constraint_of, entity_of, type_of, types_of};
ghost use Rattle.cedar_policy_parts.specs.TypesLeft.{names_left};

use crate::references::EntityReference;
use cedar_literals::literals::Literal;
use cedar_literals::slots::{Slot, SlotId};
use cedar_literals::uids::{EntityType, EntityUID};
use cedar_literals::variables::Var;
use cedar_trees::expr::Expr;
use std::alloc::{AllocError, Global};
use std::fmt;
use std::rc::Rc;

/// Which variable a scope's constraint speaks of.
#[derive(Clone, Copy, Debug, PartialEq, Eq, PartialOrd, Ord, Hash)]
pub enum PrincipalOrResource {
    /// The principal.
    Principal,
    /// The resource.
    Resource,
}

impl From<PrincipalOrResource> for Var {
    ghost use Rattle.std.specs.Prelude.{◌≡◌};
    ghost use Rattle.cedar_literals.specs.Variables.{variable_of};
    ghost use Rattle.cedar_policy_parts.specs.Asked.{variable_asked};

    ghost from_gives = { λ v var. variable_of var ≡ variable_asked v };

    fn from(v: PrincipalOrResource) -> Var {
        match v {
            PrincipalOrResource::Principal => Var::Principal,
            PrincipalOrResource::Resource => Var::Resource,
        }
    }
}

impl From<PrincipalOrResource> for SlotId {
    ghost use Rattle.std.specs.Prelude.{◌≡◌};
    ghost use Rattle.cedar_policy_parts.specs.Asked.{slot_asked};

    ghost from_gives = { λ v slot. slot ≡ slot_asked v };

    fn from(v: PrincipalOrResource) -> SlotId {
        match v {
            PrincipalOrResource::Principal => SlotId::principal(),
            PrincipalOrResource::Resource => SlotId::resource(),
        }
    }
}

impl TryFrom<Var> for PrincipalOrResource {
    type Error = Var;

    ghost use Rattle.cedar_policy_parts.specs.Asked.{IsAsked};

    ghost try_from_gives = { IsAsked };

    /// The variable, where it is one of the two; given back otherwise.
    fn try_from(var: Var) -> Result<PrincipalOrResource, Var> {
        match var {
            Var::Principal => Ok(PrincipalOrResource::Principal),
            Var::Resource => Ok(PrincipalOrResource::Resource),
            Var::Action | Var::Context => Err(var),
        }
    }
}

impl fmt::Display for PrincipalOrResource {
    ghost use Rattle.std.specs.Prelude.{Some};
    ghost use Rattle.cedar_literals.specs.Variables.{variable_text};
    ghost use Rattle.cedar_policy_parts.specs.Asked.{variable_asked};

    ghost output = { λ v. Some (variable_text (variable_asked v)) };

    fn fmt<W: fmt::Write>(&self, f: &mut fmt::Formatter<W>) -> fmt::Result {
        fmt::Display::fmt(&Var::from(*self), f)
    }
}

/// What a scope asks of the principal, or of the resource. Contracts see it through `constraint_of`;
/// `==` looks past places. (Cedar language reference, "Policy scope".)
#[derive(Debug)]
pub enum PrincipalOrResourceConstraint {
    /// Nothing.
    Any,
    /// That it is in this, or is this.
    In(EntityReference),
    /// That it is this.
    Eq(EntityReference),
    /// That it is of this type.
    Is(Rc<EntityType>),
    /// That it is of this type, and in this.
    IsIn(Rc<EntityType>, EntityReference),
}

impl PrincipalOrResourceConstraint {
    /// Nothing is asked.
    pub fn any() -> PrincipalOrResourceConstraint
        ensures { constraint_of result ≡ anything }
    {
        PrincipalOrResourceConstraint::Any
    }

    /// That it is this entity.
    pub fn is_eq(euid: Rc<EntityUID>) -> PrincipalOrResourceConstraint
        ensures { constraint_of result ≡ equals (the_entity euid.value) }
    {
        PrincipalOrResourceConstraint::Eq(EntityReference::EUID(euid))
    }

    /// That it is what the slot is bound to.
    pub fn is_eq_slot() -> PrincipalOrResourceConstraint
        ensures { constraint_of result ≡ equals the_slot }
    {
        PrincipalOrResourceConstraint::Eq(EntityReference::Slot(None))
    }

    /// That it is in this entity.
    pub fn is_in(euid: Rc<EntityUID>) -> PrincipalOrResourceConstraint
        ensures { constraint_of result ≡ within (the_entity euid.value) }
    {
        PrincipalOrResourceConstraint::In(EntityReference::EUID(euid))
    }

    /// That it is in what the slot is bound to.
    pub fn is_in_slot() -> PrincipalOrResourceConstraint
        ensures { constraint_of result ≡ within the_slot }
    {
        PrincipalOrResourceConstraint::In(EntityReference::Slot(None))
    }

    /// That it is of this type.
    pub fn is_entity_type(entity_type: Rc<EntityType>) -> PrincipalOrResourceConstraint
        ensures { constraint_of result ≡ of_type entity_type.value }
    {
        PrincipalOrResourceConstraint::Is(entity_type)
    }

    /// That it is of this type, and in this entity.
    pub fn is_entity_type_in(
        entity_type: Rc<EntityType>,
        in_entity: Rc<EntityUID>,
    ) -> PrincipalOrResourceConstraint
        ensures { constraint_of result ≡ of_type_within entity_type.value (the_entity in_entity.value) }
    {
        PrincipalOrResourceConstraint::IsIn(entity_type, EntityReference::EUID(in_entity))
    }

    /// That it is of this type, and in what the slot is bound to.
    pub fn is_entity_type_in_slot(entity_type: Rc<EntityType>) -> PrincipalOrResourceConstraint
        ensures { constraint_of result ≡ of_type_within entity_type.value the_slot }
    {
        PrincipalOrResourceConstraint::IsIn(entity_type, EntityReference::Slot(None))
    }

    /// The condition that it is, of this variable; refused for memory alone.
    pub fn as_expr(&self, alloc: Global, v: PrincipalOrResource) -> Result<Expr, AllocError>
        ensures { IfOk result (λ made. bare made ≡ constraint_tree (variable_asked v) (slot_asked v) (constraint_of self.now)) }
    {
        let variable = Expr::var(Var::from(v));
        match self {
            PrincipalOrResourceConstraint::Any => Ok(Expr::val(Literal::from(true))),
            PrincipalOrResourceConstraint::Eq(reference) => {
                Expr::is_eq(
                    alloc,
                    variable,
                    reference.into_expr(alloc, SlotId::from(v))?,
                )
            }
            PrincipalOrResourceConstraint::In(reference) => {
                Expr::is_in(
                    alloc,
                    variable,
                    reference.into_expr(alloc, SlotId::from(v))?,
                )
            }
            PrincipalOrResourceConstraint::Is(entity_type) => is_of(alloc, v, entity_type),
            PrincipalOrResourceConstraint::IsIn(entity_type, reference) => {
                let reference = reference.into_expr(alloc, SlotId::from(v))?;
                let is_in = Expr::is_in(alloc, variable, reference)?;
                Expr::and(alloc, is_of(alloc, v, entity_type)?, is_in)
            }
        }
    }

    /// The entity that it names, if it names one.
    pub fn get_euid(&self) -> Option<&Rc<EntityUID>>
        ensures { option_map (λ uid. uid.value) (option_copied result) ≡ entity_of (constraint_of self.now) }
    {
        match self {
            PrincipalOrResourceConstraint::In(EntityReference::EUID(euid)) => Some(euid),
            PrincipalOrResourceConstraint::Eq(EntityReference::EUID(euid)) => Some(euid),
            PrincipalOrResourceConstraint::IsIn(_, EntityReference::EUID(euid)) => Some(euid),
            _ => None,
        }
    }

    // The type that stands by itself.
    fn get_entity_type(&self) -> Option<&EntityType>
        ensures { option_copied result ≡ type_of (constraint_of self.now) }
    {
        match self {
            PrincipalOrResourceConstraint::Is(entity_type) => Some(entity_type),
            PrincipalOrResourceConstraint::IsIn(entity_type, _) => Some(entity_type),
            _ => None,
        }
    }

    /// The types that it names: that of its entity, and the one that stands by itself.
    pub fn iter_entity_type_names(&self) -> EntityTypeNames<'_>
        ensures { names_left result ≡ types_of (constraint_of self.now) }
    {
        EntityTypeNames {
            of_entity: match self.get_euid() {
                Some(euid) => Some(euid.entity_type()),
                None => None,
            },
            by_itself: self.get_entity_type(),
        }
    }

    /// The slot that it names, of this variable, if it names one, and where it was read; refused for
    /// memory alone.
    pub fn slot(&self, alloc: Global, v: PrincipalOrResource) -> Result<Option<Slot>, AllocError>
        ensures { IfOk result (λ slot. option_to_list (option_map (λ s. s.id) slot) ≡ constraint_slots (slot_asked v) (constraint_of self.now)) }
    {
        match self {
            PrincipalOrResourceConstraint::Any => Ok(None),
            PrincipalOrResourceConstraint::In(reference) => reference.slot(alloc, SlotId::from(v)),
            PrincipalOrResourceConstraint::Eq(reference) => reference.slot(alloc, SlotId::from(v)),
            PrincipalOrResourceConstraint::Is(_) => Ok(None),
            PrincipalOrResourceConstraint::IsIn(_, reference) => {
                reference.slot(alloc, SlotId::from(v))
            }
        }
    }

    /// The same, with this entity in the place of its slot, where it has one.
    pub fn with_filled_slot(self, euid: Rc<EntityUID>) -> PrincipalOrResourceConstraint
        ensures { constraint_of result ≡ bound_constraint (Some euid.value) (constraint_of self) }
    {
        match self {
            PrincipalOrResourceConstraint::Any => PrincipalOrResourceConstraint::Any,
            PrincipalOrResourceConstraint::In(reference) => {
                PrincipalOrResourceConstraint::In(reference.with_filled_slot(euid))
            }
            PrincipalOrResourceConstraint::Eq(reference) => {
                PrincipalOrResourceConstraint::Eq(reference.with_filled_slot(euid))
            }
            PrincipalOrResourceConstraint::Is(entity_type) => {
                PrincipalOrResourceConstraint::Is(entity_type)
            }
            PrincipalOrResourceConstraint::IsIn(entity_type, reference) => {
                PrincipalOrResourceConstraint::IsIn(entity_type, reference.with_filled_slot(euid))
            }
        }
    }

    /// How it is written, of this variable, which is only tested; refused for memory alone.
    pub fn display(&self, alloc: Global, v: PrincipalOrResource) -> Result<String, AllocError> {
        Displayed {
            constraint: self,
            v,
        }
        .to_string(alloc)
    }

    /// A copy that shares the parts; refused for memory alone.
    pub fn clone(&self, alloc: Global) -> Result<PrincipalOrResourceConstraint, AllocError>
        ensures { IfOk result (λ copy. constraint_of copy ≡ constraint_of self.now) }
    {
        match self {
            PrincipalOrResourceConstraint::Any => Ok(PrincipalOrResourceConstraint::Any),
            PrincipalOrResourceConstraint::In(reference) => {
                Ok(PrincipalOrResourceConstraint::In(reference.clone(alloc)?))
            }
            PrincipalOrResourceConstraint::Eq(reference) => {
                Ok(PrincipalOrResourceConstraint::Eq(reference.clone(alloc)?))
            }
            PrincipalOrResourceConstraint::Is(entity_type) => {
                Ok(PrincipalOrResourceConstraint::Is(entity_type.clone()?))
            }
            PrincipalOrResourceConstraint::IsIn(entity_type, reference) => {
                let reference = reference.clone(alloc)?;
                Ok(PrincipalOrResourceConstraint::IsIn(entity_type.clone()?, reference))
            }
        }
    }
}

// By hand, so that letting go of one is a call.
impl Drop for PrincipalOrResourceConstraint {
    fn drop(self) {
        match self {
            PrincipalOrResourceConstraint::Any => {}
            PrincipalOrResourceConstraint::In(_reference) => {}
            PrincipalOrResourceConstraint::Eq(_reference) => {}
            PrincipalOrResourceConstraint::Is(_entity_type) => {}
            PrincipalOrResourceConstraint::IsIn(_entity_type, _reference) => {}
        }
    }
}

impl PartialEq for PrincipalOrResourceConstraint {
    ghost use Rattle.std.specs.Ordering.{on};
    ghost use Rattle.std.specs.Cmp.{partial_equiv_from_equiv, on_equiv};
    ghost use Rattle.cedar_policy_parts.specs.Asked.{constraint_of};
    ghost use Rattle.cedar_policy_parts.specs.SameScopes.{same_constraint, same_constraint_equiv};

    ghost eq = { on constraint_of same_constraint };

    ghost laws = { partial_equiv_from_equiv (on_equiv constraint_of same_constraint_equiv) };

    fn eq(&self, other: &PrincipalOrResourceConstraint) -> bool {
        match (self, other) {
            (PrincipalOrResourceConstraint::Any, PrincipalOrResourceConstraint::Any) => true,
            (PrincipalOrResourceConstraint::In(a), PrincipalOrResourceConstraint::In(b)) => a == b,
            (PrincipalOrResourceConstraint::Eq(a), PrincipalOrResourceConstraint::Eq(b)) => a == b,
            (PrincipalOrResourceConstraint::Is(a), PrincipalOrResourceConstraint::Is(b)) => a == b,
            (
                PrincipalOrResourceConstraint::IsIn(a, within_a),
                PrincipalOrResourceConstraint::IsIn(b, within_b),
            ) => a == b && within_a == within_b,
            _ => false,
        }
    }
}

impl Eq for PrincipalOrResourceConstraint {
    ghost use Rattle.std.specs.Cmp.{on_equiv};
    ghost use Rattle.cedar_policy_parts.specs.Asked.{constraint_of};
    ghost use Rattle.cedar_policy_parts.specs.SameScopes.{same_constraint_equiv};

    ghost laws = { on_equiv constraint_of same_constraint_equiv };
}

/// The types that a constraint names: that of its entity, and the one that stands by itself.
#[derive(Drop)]
pub struct EntityTypeNames<'a> {
    of_entity: Option<&'a EntityType>,
    by_itself: Option<&'a EntityType>,
}

impl<'a> Iterator for EntityTypeNames<'a> {
    type Item = &'a EntityType;

    ghost use Rattle.std.specs.Iterator.{YieldsFirstRef, item_count};
    ghost use Rattle.cedar_policy_parts.specs.TypesLeft.{names_left};

    ghost next_gives = { YieldsFirstRef names_left };

    ghost remaining = { item_count names_left };

    fn next(&mut self) -> Option<&'a EntityType> {
        match self.of_entity.take() {
            Some(entity_type) => Some(entity_type),
            None => self.by_itself.take(),
        }
    }
}

// A constraint as it is written, of a variable.
#[derive(Drop)]
struct Displayed<'a> {
    constraint: &'a PrincipalOrResourceConstraint,
    v: PrincipalOrResource,
}

impl fmt::Display for Displayed<'_> {
    fn fmt<W: fmt::Write>(&self, f: &mut fmt::Formatter<W>) -> fmt::Result {
        self.constraint.write(f, self.v)
    }
}

impl PrincipalOrResourceConstraint {
    // Writes it, of this variable.
    pub(crate) fn write<W: fmt::Write>(
        &self,
        f: &mut fmt::Formatter<W>,
        v: PrincipalOrResource,
    ) -> fmt::Result {
        match self {
            PrincipalOrResourceConstraint::Any => write!(f, "{v}"),
            PrincipalOrResourceConstraint::In(reference) => {
                write!(f, "{v} in ")?;
                reference.write(f, v)
            }
            PrincipalOrResourceConstraint::Eq(reference) => {
                write!(f, "{v} == ")?;
                reference.write(f, v)
            }
            PrincipalOrResourceConstraint::Is(entity_type) => write!(f, "{v} is {entity_type}"),
            PrincipalOrResourceConstraint::IsIn(entity_type, reference) => {
                write!(f, "{v} is {entity_type} in ")?;
                reference.write(f, v)
            }
        }
    }
}

// That the variable is of this type.
fn is_of(
    alloc: Global,
    v: PrincipalOrResource,
    entity_type: &EntityType,
) -> Result<Expr, AllocError>
    ensures { IfOk result (λ made. bare made ≡ constraint_tree (variable_asked v) (slot_asked v) (of_type entity_type.now)) }
{
    Expr::is_entity_type(alloc, Expr::var(Var::from(v)), entity_type.clone(alloc)?)
}
