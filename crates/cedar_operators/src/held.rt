// Entities that operators look up.
ghost use Rattle.cedar_language.specs.Facts.{Facts};
ghost use Rattle.cedar_extensions.specs.Giving.{GivesBy};
ghost use Rattle.cedar_operators.specs.Store.{HasFacts, IsFound};

use cedar_entities::entity::Entity;
use cedar_entities::store::{Dereference, Entities};
use cedar_extensions::evaluation_error::EvaluationError;
use cedar_literals::uids::EntityUID;
use std::alloc::Global;
use std::rc::Rc;

/// The entity of this uid, if one is held. Takes no memory on a store that isn't partial.
///
/// It errs with `NonValue` where none is held and the store is partial, since it isn't known then whether there
/// is one, and with `Memory`.
pub fn held<'a>(
    alloc: Global,
    entities: &'a Entities,
    uid: &Rc<EntityUID>,
) -> Result<Option<&'a Entity>, EvaluationError>
    ensures { (facts : Facts) → HasFacts entities.now facts →
        GivesBy (IsFound entities.now uid.now.value) (λ k. ⊥) ⊥ result }
{
    match entities.entity(alloc, uid)? {
        Dereference::Data(entity) => Ok(Some(entity)),
        Dereference::NoSuchEntity => Ok(None),
        Dereference::Residual(unknown) => Err(EvaluationError::non_value(alloc, unknown)?),
    }
}
