// Names of types as schemas have them, beside those of values.
ghost use Rattle.std.specs.Prelude.{◌≡◌, IfOk};
ghost use Rattle.cedar_language.specs.Order.{same_name};

use cedar_literals::uids::{EntityType, EntityUID};
use cedar_names::comparing::is_same;
use cedar_names::identifiers::Id;
use cedar_names::names::Name;
use cedar_names::texts::SharedText;
use cedar_schema::TypeName;
use cedar_validator_schema::Uid;
use std::alloc::{AllocError, Global};

// Whether identifiers are these words.
#[tactic(auto, using(crate::proofs::Worded::words_step, crate::proofs::Worded::words_end, crate::proofs::Worded::words_apart))]
fn are_words(ids: &[Id], words: &[SharedText]) -> bool
    ensures { result ≡ same_name ids.now words.now }
{
    if ids.len() != words.len() {
        return false;
    }
    for at in 0..ids.len() {
        if !is_same(ids[at].as_str(), words[at].as_str()) {
            return false;
        }
    }
    true
}

/// Whether a name is that of a type.
pub(crate) fn is_name_of(name: &Name, of: &TypeName) -> bool
    ensures { result ≡ same_name name.now of.now }
{
    are_words(name.as_ref().components(), of.words())
}

// The words of identifiers.
fn words_of(alloc: Global, ids: &[Id]) -> Result<Vec<SharedText>, AllocError>
    ensures { IfOk result (λ words. words.items ≡ ids.now) }
{
    let mut words = Vec::with_capacity(alloc, ids.len())?;
    for id in ids {
        words.push(SharedText::new(id.clone(alloc)?.into_smolstr()))?;
    }
    Ok(words)
}

/// The name of an entity type, as a schema has it. Refused for memory alone.
pub(crate) fn type_name_of(alloc: Global, entity_type: &EntityType) -> Result<TypeName, AllocError>
    ensures { IfOk result (λ name. name ≡ entity_type.now) }
{
    let ids = entity_type.name().as_ref().components();
    TypeName::new(alloc, words_of(alloc, ids)?)
}

/// The uid of an entity, as a schema has it. Refused for memory alone.
pub(crate) fn uid_of(alloc: Global, uid: &EntityUID) -> Result<Uid, AllocError>
    ensures { IfOk result (λ made. made ≡ uid.now) }
{
    let type_name = type_name_of(alloc, uid.entity_type())?;
    let id = SharedText::new(uid.eid().clone(alloc)?.into_smolstr());
    Ok(Uid::new(type_name, id))
}
