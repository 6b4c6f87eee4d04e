// Names, by the words that spell their identifiers.
ghost use Rattle.std.specs.Prelude.{◌≡◌, ◌++◌, [], ◌∷◌, IfOk, IsTrue, map};
ghost use Rattle.std.specs.List.{All};
ghost use Rattle.cedar_language.specs.Order.{same_name};
ghost use Rattle.cedar_names.specs.Identifiers.{IsUnreservedId};

use crate::unread::Unread;
use cedar_names::comparing::is_same;
use cedar_names::identifiers::Id;
use cedar_names::names::{InternalName, Name};
use std::alloc::{AllocError, Global};
use std::rc::RcStr;

// The identifier of this text; refused for memory alone.
fn id_of(alloc: Global, text: &str) -> Result<Id, AllocError>
    requires { IsUnreservedId text.now }
    ensures { IfOk result (λ id. id ≡ text.now) }
{
    Ok(Id::new_unchecked(RcStr::from_str(alloc, text)?))
}

// The identifiers of these texts, with room for one more; refused for memory alone.
fn ids_of(alloc: Global, words: &[&str]) -> Result<Vec<Id>, AllocError>
    requires { All (λ word. IsUnreservedId word.now) words.now }
    ensures { IfOk result (λ ids. ids.items ≡ map (λ word. word.now) words.now) }
{
    let mut ids = Vec::with_capacity(alloc, words.len() + 1)?;
    for word in words {
        ids.push(id_of(alloc, word)?)?;
    }
    Ok(ids)
}

/// The name of these identifiers, none of which is reserved.
pub fn name_of(alloc: Global, namespace: &[&str], basename: &str) -> Result<Name, Unread>
    requires namespace { All (λ word. IsUnreservedId word.now) namespace.now }
    requires basename { IsUnreservedId basename.now }
    ensures { IfOk result (λ name. name ≡ map (λ word. word.now) namespace.now ++ basename.now ∷ []) }
{
    let path = ids_of(alloc, namespace)?;
    let id = id_of(alloc, basename)?;
    match Name::try_from(InternalName::new(alloc, id, path, None)?) {
        Ok(name) => Ok(name),
        Err(_) => Err(Unread::Other),
    }
}

// Whether the words spell these identifiers.
fn are_same(ids: &[Id], words: &[&str]) -> bool
    ensures { result ≡ same_name ids.now (map (λ word. word.now) words.now) }
{
    if ids.len() != words.len() {
        return false;
    }
    for at in 0..ids.len() {
        if !is_same(ids[at].as_str(), words[at]) {
            return false;
        }
    }
    true
}

/// Whether the words spell this name.
pub fn is_spelled(name: &Name, namespace: &[&str], basename: &str) -> bool
    ensures { IsTrue result → name.now ≡ map (λ word. word.now) namespace.now ++ basename.now ∷ [] }
{
    match name.as_ref().components().split_last() {
        None => false,
        Some((last, path)) => is_same(last.as_str(), basename) && are_same(path, namespace),
    }
}
