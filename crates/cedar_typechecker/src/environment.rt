// What a schema declares, for one of its environments.
ghost use Rattle.std.specs.Prelude.{◌≡◌, IfOk};
ghost use Rattle.std.specs.Option.{option_map, option_copied};
ghost use Rattle.std.specs.Rc.{rc_str_bytes};
ghost use Rattle.cedar_typing.specs.Schema.{Environment};
ghost use Rattle.cedar_typechecker.specs.Types.{fields_view};
ghost use Rattle.cedar_typechecker.specs.Environments.{shape_view, signature_view, signature_head, accepts};

use crate::types::{ExprType, Field};
use cedar_literals::slots::SlotId;
use cedar_literals::types::Type;
use cedar_literals::uids::{EntityType, EntityUID};
use cedar_names::names::Name;
use std::alloc::AllocError;
use std::rc::{Rc, RcStr};

/// An entity type: the attributes of its entities, and the type of their tags, where they have any.
#[derive(Debug, Drop)]
pub struct EntityShape {
    /// In rising order of their names.
    pub attributes: Rc<Vec<Field>>,
    pub tags: Option<ExprType>,
}

/// An extension function: its arguments and its result.
#[derive(Debug, Drop)]
pub struct Signature {
    pub arguments: Vec<Type>,
    pub result: ExprType,
    /// Whether it makes values of one text alone.
    pub is_constructor: bool,
}

/// A schema, and one of its environments: an action, with the types of principal and resource and of what slots are bound to.
/// (Cedar language reference, "Policy validation".)
pub trait RequestEnv {
    // as the definition of typing has it
    ghost environment: { Self → Environment };

    /// The entity type of this name, if it is declared.
    fn entity(&self, name: &EntityType) -> Option<&EntityShape>
        ensures { option_map (λ shape. shape_view shape.now) result ≡ (environment self.now).schema.entity name.now };

    /// Whether a policy may name the entity. Refused for memory alone.
    fn may_name(&self, uid: &EntityUID) -> Result<bool, AllocError>
        ensures { IfOk result (λ may_name. may_name ≡ (environment self.now).schema.may_name uid.now) };

    /// Whether entities of the first type may have ancestors of the second. Refused for memory alone.
    fn may_reach(&self, descendant: &EntityType, ancestor: &EntityType) -> Result<bool, AllocError>
        ensures { IfOk result (λ may_reach. may_reach ≡ (environment self.now).schema.may_reach descendant.now ancestor.now) };

    /// Whether it is a declared action.
    fn is_action(&self, uid: &EntityUID) -> bool
        ensures { result ≡ (environment self.now).schema.is_action uid.now };

    /// Whether the second action is an ancestor of the first. Refused for memory alone.
    fn action_reaches(&self, action: &EntityUID, ancestor: &EntityUID) -> Result<bool, AllocError>
        ensures { IfOk result (λ reaches. reaches ≡ (environment self.now).schema.action_reaches action.now ancestor.now) };

    /// The extension function of this name, if there is one.
    fn signature(&self, function: &Name) -> Option<&Signature>
        ensures { option_map (λ signature. signature_view signature.now) result
            ≡ option_map signature_head ((environment self.now).schema.signature function.now) };

    /// Whether the function makes a value of this text, if it makes values of one text alone; else false. Refused for memory
    /// alone.
    fn accepts(&self, function: &Name, text: &RcStr) -> Result<bool, AllocError>
        ensures { IfOk result (λ is_accepted. is_accepted
            ≡ accepts ((environment self.now).schema.signature function.now) (rc_str_bytes text.now)) };

    /// The type of the principal.
    fn principal(&self) -> &EntityType
        ensures { result.now ≡ (environment self.now).principal };

    /// The action.
    fn action(&self) -> &Rc<EntityUID>
        ensures { result.now.value ≡ (environment self.now).action };

    /// The type of the resource.
    fn resource(&self) -> &EntityType
        ensures { result.now ≡ (environment self.now).resource };

    /// The fields of the context.
    fn context(&self) -> &Rc<Vec<Field>>
        ensures { fields_view result.now.value.items ≡ (environment self.now).schema.context (environment self.now).action };

    /// The type of what the slot is bound to, if it is bound.
    fn slot(&self, slot: SlotId) -> Option<&EntityType>
        ensures { option_copied result ≡ (environment self.now).slot slot };
}
