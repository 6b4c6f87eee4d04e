// What policies of a text have in common, held once.
ghost use Rattle.std.specs.Prelude.{◌≡◌, IfOk};
ghost use Rattle.cedar_policy_parts.specs.Actions.{action_of, held_uids};
ghost use Rattle.cedar_policy_parts.specs.Asked.{constraint_of};
ghost use Rattle.cedar_policy_parts.specs.References.{target_of};

use cedar_literals::uids::{EntityType, EntityUID};
use cedar_policy_parts::actions::ActionConstraint;
use cedar_policy_parts::annotations::Annotations;
use cedar_policy_parts::constraints::PrincipalOrResourceConstraint;
use cedar_policy_parts::principals::PrincipalConstraint;
use cedar_policy_parts::references::EntityReference;
use cedar_policy_parts::resources::ResourceConstraint;
use std::alloc::{AllocError, Global};
use std::rc::Rc;

/// How many types, and how many actions, are kept at most.
const MOST: usize = 64;

// The types that the scopes of a text named first, 64 at most.
#[derive(Drop)]
struct SharedTypes {
    // in rising order, for a binary search
    kept: Vec<EntityType>,
}

impl SharedTypes {
    // The type: the one that is kept, or else a new one, which is kept while there is room.
    fn entity_type(
        &mut self,
        alloc: Global,
        entity_type: &EntityType,
    ) -> Result<EntityType, AllocError>
        ensures { IfOk result (λ shared. shared ≡ entity_type.now) }
    {
        match self.kept.binary_search(entity_type) {
            Ok(index) => self.kept[index].clone(alloc),
            Err(index) => {
                let unplaced = entity_type.with_loc(alloc, None)?;
                if self.kept.len() < MOST {
                    self.kept.insert(index, unplaced.clone(alloc)?)?;
                }
                Ok(unplaced)
            }
        }
    }

    // The uid, of a type that may be shared.
    fn uid(&mut self, alloc: Global, uid: &EntityUID) -> Result<Rc<EntityUID>, AllocError>
        ensures { IfOk result (λ shared. shared.value ≡ uid.now) }
    {
        let entity_type = self.entity_type(alloc, uid.entity_type())?;
        let eid = uid.eid().clone(alloc)?;
        let unplaced = EntityUID::from_components(entity_type, eid, None);
        Ok(Rc::new(alloc, unplaced)?)
    }

    fn reference(
        &mut self,
        alloc: Global,
        reference: &EntityReference,
    ) -> Result<EntityReference, AllocError>
        ensures { IfOk result (λ shared. target_of shared ≡ target_of reference.now) }
    {
        match reference {
            EntityReference::EUID(uid) => Ok(EntityReference::EUID(self.uid(alloc, uid)?)),
            EntityReference::Slot(_) => reference.clone(alloc),
        }
    }

    fn named_type(
        &mut self,
        alloc: Global,
        entity_type: &EntityType,
    ) -> Result<Rc<EntityType>, AllocError>
        ensures { IfOk result (λ shared. shared.value ≡ entity_type.now) }
    {
        Ok(Rc::new(alloc, self.entity_type(alloc, entity_type)?)?)
    }

    fn constraint(
        &mut self,
        alloc: Global,
        constraint: &PrincipalOrResourceConstraint,
    ) -> Result<PrincipalOrResourceConstraint, AllocError>
        ensures { IfOk result (λ shared. constraint_of shared ≡ constraint_of constraint.now) }
    {
        match constraint {
            PrincipalOrResourceConstraint::Any => Ok(PrincipalOrResourceConstraint::Any),
            PrincipalOrResourceConstraint::In(named) => {
                let named = self.reference(alloc, named)?;
                Ok(PrincipalOrResourceConstraint::In(named))
            }
            PrincipalOrResourceConstraint::Eq(named) => {
                let named = self.reference(alloc, named)?;
                Ok(PrincipalOrResourceConstraint::Eq(named))
            }
            PrincipalOrResourceConstraint::Is(entity_type) => {
                let entity_type = self.named_type(alloc, entity_type)?;
                Ok(PrincipalOrResourceConstraint::Is(entity_type))
            }
            PrincipalOrResourceConstraint::IsIn(entity_type, named) => {
                let entity_type = self.named_type(alloc, entity_type)?;
                let named = self.reference(alloc, named)?;
                Ok(PrincipalOrResourceConstraint::IsIn(entity_type, named))
            }
        }
    }
}

/// The types and the actions that the scopes of a text named first, 64 of each at most, and that nothing is
/// annotated: later policies hold these in place of their own. What is shared says of no place where it was written.
/// Contracts say that a shared part is the same part; that it takes less memory no contract says.
#[derive(Drop)]
pub(crate) struct SharedParts {
    types: SharedTypes,
    // in rising order, for a binary search
    actions: Vec<Rc<EntityUID>>,
    annotations: Option<Rc<Annotations>>,
}

impl SharedParts {
    /// Nothing is kept yet. Takes no memory.
    pub(crate) fn new(alloc: Global) -> SharedParts {
        SharedParts {
            types: SharedTypes {
                kept: Vec::new(alloc),
            },
            actions: Vec::new(alloc),
            annotations: None,
        }
    }

    // The action: the one that is kept, or else a new one, which is kept while there is room.
    fn action(&mut self, alloc: Global, action: &Rc<EntityUID>) -> Result<Rc<EntityUID>, AllocError>
        ensures { IfOk result (λ shared. shared.value ≡ action.now.value) }
    {
        match self.actions.binary_search(action) {
            Ok(index) => self.actions[index].clone(),
            Err(index) => {
                let unplaced = self.types.uid(alloc, action)?;
                if self.actions.len() < MOST {
                    self.actions.insert(index, unplaced.clone()?)?;
                }
                Ok(unplaced)
            }
        }
    }

    fn actions(
        &mut self,
        alloc: Global,
        actions: &[Rc<EntityUID>],
    ) -> Result<Vec<Rc<EntityUID>>, AllocError>
        ensures { IfOk result (λ shared. held_uids shared.items ≡ held_uids actions.now) }
    {
        let mut shared = Vec::with_capacity(alloc, actions.len())?;
        for action in actions {
            shared.push(self.action(alloc, action)?)?;
        }
        Ok(shared)
    }

    /// What is asked of the principal, by shared types. Refused for memory alone.
    pub(crate) fn of_principal(
        &mut self,
        alloc: Global,
        principal: &PrincipalConstraint,
    ) -> Result<PrincipalConstraint, AllocError>
        ensures { IfOk result (λ shared. shared ≡ principal.now) }
    {
        let asked = self.types.constraint(alloc, principal.as_inner())?;
        Ok(PrincipalConstraint::new(asked))
    }

    /// What is asked of the resource, by shared types. Refused for memory alone.
    pub(crate) fn of_resource(
        &mut self,
        alloc: Global,
        resource: &ResourceConstraint,
    ) -> Result<ResourceConstraint, AllocError>
        ensures { IfOk result (λ shared. shared ≡ resource.now) }
    {
        let asked = self.types.constraint(alloc, resource.as_inner())?;
        Ok(ResourceConstraint::new(asked))
    }

    /// What is asked of the action, by shared actions. Refused for memory alone.
    pub(crate) fn of_action(
        &mut self,
        alloc: Global,
        action: &ActionConstraint,
    ) -> Result<ActionConstraint, AllocError>
        ensures { IfOk result (λ shared. action_of shared ≡ action_of action.now) }
    {
        match action {
            ActionConstraint::Any => Ok(ActionConstraint::Any),
            ActionConstraint::In(actions) => {
                Ok(ActionConstraint::In(self.actions(alloc, actions)?))
            }
            ActionConstraint::Eq(action) => Ok(ActionConstraint::Eq(self.action(alloc, action)?)),
        }
    }

    /// The annotations, shared where there are none. Refused for memory alone.
    pub(crate) fn of_annotations(
        &mut self,
        alloc: Global,
        annotations: Annotations,
    ) -> Result<Rc<Annotations>, AllocError>
        ensures { IfOk result (λ shared. shared.value ≡ annotations) }
    {
        if !annotations.is_empty() {
            return Ok(Rc::new(alloc, annotations)?);
        }
        if let Some(kept) = &self.annotations
            && kept.is_empty()
        {
            return kept.clone();
        }
        let none = Rc::new(alloc, annotations)?;
        self.annotations = Some(none.clone()?);
        Ok(none)
    }
}
