// Names as a schema has them, and as policies write them.
ghost use Rattle.std.specs.Prelude.{◌≡◌, true, cond, Some, None, option_map, IfOk};
ghost use Rattle.std.specs.List.{list_all};
ghost use Rattle.cedar_validator.specs.Names as names;
ghost use Rattle.cedar_validator.specs.Names.{is_writable, IsWritten};

use crate::errors::SchemaNameError;
use cedar_literals::uids::EntityType;
use cedar_names::identifiers::{Id, is_normalized_ident};
use cedar_names::names::{InternalName, Name};
use cedar_names::texts::SharedText;
use cedar_schema::TypeName;
use std::alloc::{AllocError, Global};

// Whether a name that a policy writes may have this word.
#[tactic(auto, using(crate::proofs::Naming::word_test))]
fn is_word(word: &SharedText) -> bool
    ensures { result ≡ names.is_word word.now }
{
    is_normalized_ident(word.as_str())
}

// The identifier of a word, if it is one.
#[tactic(auto, using(crate::proofs::Naming::word_is_id))]
fn identifier(word: &SharedText) -> Result<Option<Id>, AllocError>
    ensures { IfOk result (λ id. id ≡ cond (names.is_word word.now) (Some word.now) None) }
{
    if !is_word(word) {
        return Ok(None);
    }
    let copy = word.clone()?;
    Ok(Some(Id::new_unchecked(copy.into_smolstr())))
}

// The identifiers of words, if all are.
fn identifiers(alloc: Global, words: &[SharedText]) -> Result<Option<Vec<Id>>, AllocError>
    ensures { IfOk result (λ ids. option_map (λ v. v.items) ids ≡ cond (list_all names.is_word words.now) (Some words.now) None) }
{
    let mut ids = Vec::new(alloc);
    for word in words {
        match identifier(word)? {
            Some(id) => ids.push(id)?,
            None => return Ok(None),
        }
    }
    Ok(Some(ids))
}

// The name of these identifiers; none of none.
fn name_of_ids(alloc: Global, ids: Vec<Id>) -> Result<Option<Name>, AllocError>
    requires { list_all names.is_word ids.items ≡ true }
    ensures { IfOk result (λ name. name ≡ cond (is_writable ids.items) (Some ids.items) None) }
{
    let mut path = ids;
    let Some(basename) = path.pop() else {
        return Ok(None);
    };
    let name = InternalName::new(alloc, basename, path, None)?;
    match Name::try_from(name) {
        Ok(name) => Ok(Some(name)),
        Err(_) => unreachable!(),
    }
}

// The name of these words, if a policy can write it.
fn name_of(alloc: Global, words: &[SharedText]) -> Result<Option<Name>, AllocError>
    ensures { IfOk result (λ name. name ≡ cond (is_writable words.now) (Some words.now) None) }
{
    match identifiers(alloc, words)? {
        Some(ids) => name_of_ids(alloc, ids),
        None => Ok(None),
    }
}

/// The name as policies write it. `UnwritableName` tells one that no policy can write, `Memory` that memory ran out.
pub(crate) fn written_name(alloc: Global, name: &TypeName) -> Result<Name, SchemaNameError>
    ensures { IsWritten name.now result }
{
    match name_of(alloc, name.words())? {
        Some(written) => Ok(written),
        None => Err(SchemaNameError::UnwritableName(name.clone()?)),
    }
}

/// The entity type of this name, as `written_name` has it.
pub(crate) fn written_type(alloc: Global, name: &TypeName) -> Result<EntityType, SchemaNameError>
    ensures { IsWritten name.now result }
{
    Ok(EntityType::from(written_name(alloc, name)?))
}
