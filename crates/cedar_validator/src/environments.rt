// The environments of a schema.
ghost use Rattle.std.specs.Prelude.{◌≡◌};
ghost use Rattle.std.specs.Option.{option_copied};
ghost use Rattle.cedar_validator.specs.Environments.{slots_view};

use crate::functions::FunctionSignatures;
use crate::schema_types::SchemaTypes;
use cedar_literals::slots::SlotId;
use cedar_literals::uids::{EntityType, EntityUID};
use cedar_names::names::Name;
use cedar_typechecker::{EntityShape, Field, RequestEnv, Signature};
use std::alloc::{AllocError, Global};
use std::rc::{Rc, RcStr};

/// A kind of requests: an action, with the types of a principal and of a resource that it applies to.
/// (Cedar language reference, "Schema", actions.)
#[derive(Debug, Drop)]
pub struct RequestType {
    pub principal: EntityType,
    pub action: Rc<EntityUID>,
    pub resource: EntityType,
}

/// The types of the entities that slots are bound to, where they are.
#[derive(Debug, Drop)]
pub struct BoundTypes {
    pub principal: Option<EntityType>,
    pub resource: Option<EntityType>,
}

impl BoundTypes {
    /// That of a slot.
    #[tactic(auto, using(crate::proofs::Slots::other_slot))]
    pub fn get(&self, slot: SlotId) -> Option<&EntityType>
        ensures { option_copied result ≡ slots_view self.now slot }
    {
        if slot.is_principal() {
            self.principal.as_ref()
        } else {
            self.resource.as_ref()
        }
    }
}

/// An environment of a schema: a kind of its requests, with slots bound to entities of these types. (Cedar language reference,
/// "Policy validation".)
#[derive_where(Clone, Copy)]
pub struct SchemaEnv<'e, F> {
    pub alloc: Global,
    pub types: &'e SchemaTypes,
    pub functions: &'e F,
    pub request: &'e RequestType,
    pub slots: &'e BoundTypes,
}

impl<F: FunctionSignatures> RequestEnv for SchemaEnv<'_, F> {
    ghost use Rattle.cedar_typing.specs.Schema.{Environment};
    ghost use Rattle.cedar_validator.specs.SchemaTypes.{types_view};
    ghost use Rattle.cedar_validator.specs.Environments.{request_view, slots_view, environment_of};

    ghost environment = { λ e. environment_of (types_view (F.signatures e.functions.now) e.types.now)
        (slots_view e.slots.now) (request_view e.request.now) };

    fn entity(&self, name: &EntityType) -> Option<&EntityShape> {
        self.types.shape(name)
    }

    fn may_name(&self, uid: &EntityUID) -> Result<bool, AllocError> {
        self.types.may_name(self.alloc, uid)
    }

    fn may_reach(
        &self,
        descendant: &EntityType,
        ancestor: &EntityType,
    ) -> Result<bool, AllocError> {
        self.types.may_reach(self.alloc, descendant, ancestor)
    }

    fn is_action(&self, uid: &EntityUID) -> bool {
        self.types.action(uid).is_some()
    }

    fn action_reaches(&self, action: &EntityUID, ancestor: &EntityUID) -> Result<bool, AllocError> {
        self.types.action_reaches(self.alloc, action, ancestor)
    }

    fn signature(&self, function: &Name) -> Option<&Signature> {
        self.functions.signature(function)
    }

    fn accepts(&self, function: &Name, text: &RcStr) -> Result<bool, AllocError> {
        self.functions.accepts(function, text)
    }

    fn principal(&self) -> &EntityType {
        &self.request.principal
    }

    fn action(&self) -> &Rc<EntityUID> {
        &self.request.action
    }

    fn resource(&self) -> &EntityType {
        &self.request.resource
    }

    fn context(&self) -> &Rc<Vec<Field>> {
        self.types.context(&self.request.action)
    }

    fn slot(&self, slot: SlotId) -> Option<&EntityType> {
        self.slots.get(slot)
    }
}
