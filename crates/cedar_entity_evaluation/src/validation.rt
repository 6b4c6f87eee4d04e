//! Entities and their stores against tables of extension functions.
ghost use Rattle.std.specs.Prelude.{◌≡◌, List, IfOk};
ghost use Rattle.cedar_extensions.specs.Table.{as_table};
ghost use Rattle.cedar_entities.specs.Data.{EntityData};
ghost use Rattle.cedar_entities.specs.Store.{entities_in};
ghost use Rattle.cedar_entity_evaluation.specs.Calls.{entity_calls, entities_calls};
ghost use Rattle.cedar_entity_evaluation.specs.Validated.{ValidatesCalls};

use crate::validated_attributes::validate_all;
use cedar_entities::entity::Entity;
use cedar_entities::store::Entities;
use cedar_extensions::extensions::Extensions;
use cedar_extensions::objects::ExtensionFunctionObject;
use cedar_extensions::validation_errors::ExprValidationError;
use std::alloc::Global;

/// Entities whose calls of extension functions can be checked before they are evaluated. They stand in
/// the residuals among attributes and tags; values have none.
pub trait EntityValidation: Sized {
    // what the entity holds
    ghost held: { Self → EntityData };

    /// Accepted where each call in its attributes and tags names a function of the table and has as many
    /// arguments as that function takes. Else it is refused for the first other call: those of the
    /// attributes come first, in the order of names, then those of the tags, and within a residual they
    /// come in the order of `ExprIterator`. Also refused for want of memory.
    /// (Cedar language reference, "Extension functions".)
    fn try_validate<F: ExtensionFunctionObject>(
        &self,
        alloc: Global,
        extensions: &Extensions<'_, F>,
    ) -> Result<(), ExprValidationError>
        ensures { ValidatesCalls (as_table F.answers extensions.now) (entity_calls (held self.now)) result };

    /// The entity itself, where `try_validate` accepts it; else refused as that is.
    fn validate<F: ExtensionFunctionObject>(
        self,
        alloc: Global,
        extensions: &Extensions<'_, F>,
    ) -> Result<Self, ExprValidationError>
        ensures validated { ValidatesCalls (as_table F.answers extensions.now) (entity_calls (held self)) result }
        ensures itself { IfOk result (λ entity. entity ≡ self) };
}

impl EntityValidation for Entity {
    ghost held = { λ entity. entity };

    fn try_validate<F: ExtensionFunctionObject>(
        &self,
        alloc: Global,
        extensions: &Extensions<'_, F>,
    ) -> Result<(), ExprValidationError> {
        validate_all(alloc, self.attrs(), extensions)?;
        validate_all(alloc, self.tags(), extensions)
    }

    fn validate<F: ExtensionFunctionObject>(
        self,
        alloc: Global,
        extensions: &Extensions<'_, F>,
    ) -> Result<Entity, ExprValidationError> {
        self.try_validate(alloc, extensions)?;
        Ok(self)
    }
}

/// Stores of entities whose calls of extension functions can be checked before they are evaluated.
pub trait EntitiesValidation {
    // the entities that it holds, in the order of a walk over it
    ghost held: { Self → List EntityData };

    /// Accepted where each entity is valid. Else it is refused as the first other one is, in the order of
    /// a walk over the store. Also refused for want of memory.
    fn try_validate<F: ExtensionFunctionObject>(
        &self,
        alloc: Global,
        extensions: &Extensions<'_, F>,
    ) -> Result<(), ExprValidationError>
        ensures { ValidatesCalls (as_table F.answers extensions.now) (entities_calls (held self.now)) result };
}

impl EntitiesValidation for Entities {
    ghost held = { entities_in };

    fn try_validate<F: ExtensionFunctionObject>(
        &self,
        alloc: Global,
        extensions: &Extensions<'_, F>,
    ) -> Result<(), ExprValidationError> {
        for entity in self {
            entity.try_validate(alloc, extensions)?;
        }
        Ok(())
    }
}
