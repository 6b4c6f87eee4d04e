// Uids as a schema has them, and as policies do.
ghost use Rattle.std.specs.Prelude.{◌≡◌, IfOk};
ghost use Rattle.cedar_validator.specs.SchemaTypes.{IsUidOf};

use crate::errors::SchemaNameError;
use crate::names::written_type;
use cedar_literals::uids::{Eid, EntityType, EntityUID};
use cedar_names::names::Name;
use cedar_names::texts::SharedText;
use cedar_schema::TypeName;
use cedar_validator_schema::Uid;
use std::alloc::{AllocError, Global};

// The words of a name, which shares their texts. Refused for memory alone.
fn words_of(alloc: Global, name: &Name) -> Result<Vec<SharedText>, AllocError>
    ensures { IfOk result (λ words. words.items ≡ name.now) }
{
    let ids = name.as_ref().components();
    let mut words = Vec::with_capacity(alloc, ids.len())?;
    for id in ids {
        let copy = id.clone(alloc)?;
        words.push(SharedText::new(copy.into_smolstr()))?;
    }
    Ok(words)
}

/// The name of an entity type as a schema has it. Refused for memory alone.
pub(crate) fn type_name_of(alloc: Global, entity_type: &EntityType) -> Result<TypeName, AllocError>
    ensures { IfOk result (λ name. name ≡ entity_type.now) }
{
    TypeName::new(alloc, words_of(alloc, entity_type.name())?)
}

/// A uid as a schema has it. Refused for memory alone.
pub(crate) fn schema_uid(alloc: Global, uid: &EntityUID) -> Result<Uid, AllocError>
    ensures { IfOk result (λ copy. copy ≡ uid.now) }
{
    let id = uid.eid().clone(alloc)?;
    let type_name = type_name_of(alloc, uid.entity_type())?;
    Ok(Uid::new(type_name, SharedText::new(id.into_smolstr())))
}

/// A uid as policies have it. `UnwritableName` tells a type that no policy can write, `Memory` that memory ran out.
pub(crate) fn entity_uid(alloc: Global, uid: &Uid) -> Result<EntityUID, SchemaNameError>
    ensures { IsUidOf uid.now result }
{
    let entity_type = written_type(alloc, uid.type_name())?;
    let id = uid.id().clone()?;
    Ok(EntityUID::from_components(entity_type, Eid::new(id.into_smolstr()), None))
}
