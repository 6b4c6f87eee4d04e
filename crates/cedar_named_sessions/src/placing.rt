// Names that are given to the policies of a text, one after the other.
ghost use Rattle.std.specs.Prelude.{◌≡◌, ◌∷◌, [], IfOk, Some, is_some, map};
ghost use Rattle.std.specs.FinMap as finite;
ghost use Rattle.cedar_held.specs.PolicyWorlds.{policies_in};
ghost use Rattle.cedar_named_sessions.specs.Giving.{given_by, placed_in, without_all, without_one};
ghost use Rattle.cedar_named_sessions.specs.NameLists.{name_of};
ghost use Rattle.cedar_named_sessions.specs.Named.{clashes, is_held, is_taken};
ghost use Rattle.cedar_named_sessions.specs.Placed.{ArePlaced, GivesAll};
ghost use Rattle.cedar_policy_set.specs.Texts.{AreToldBySlots};

use crate::names::GivenNames;
use crate::naming::{Given, given_name, is_number};
use crate::refusals::NamedRefusal;
use cedar_held::worlds::{policy_sets_are_worlds, texts_are_loaded};
use cedar_policy_parts::PolicyID;
use cedar_policy_set::sets::PolicySet;
use cedar_store::ast::{Renaming, renamed_id, renaming_of};
use std::alloc::{AllocError, Global};

/// A policy of a text: the id under which it comes, and the name that it is to be given.
pub(crate) type Placed = (PolicyID, Option<PolicyID>);

/// The policies of a text by the ids under which they come to those that are held, in the text's order. Refused for
/// memory alone.
pub(crate) fn placed(
    alloc: Global,
    held: &PolicySet,
    policies: &PolicySet,
    given: Given<'_>,
) -> Result<Vec<Placed>, AllocError>
    requires { AreToldBySlots held.now }
    ensures { IfOk result (λ placed. ArePlaced (given_by given.entry) held.now policies.now placed.items) }
{
    texts_are_loaded();
    // The contract of `len` is what says that a set is whole, and how many ids it binds at the most.
    let _held = held.len();
    let _policies = policies.len();
    let renaming = renaming_of(alloc, held, policies)?;
    placed_by(alloc, &renaming, policies, given)
}

fn placed_by(
    alloc: Global,
    renaming: &Renaming,
    policies: &PolicySet,
    given: Given<'_>,
) -> Result<Vec<Placed>, AllocError>
    ensures { IfOk result (λ placed. placed.items ≡ placed_in renaming.now (given_by given.entry) policies.now) }
{
    let mut placed = Vec::new(alloc);
    for bound in policies.values() {
        let id = renamed_id(renaming, bound.id())?;
        let name = given_name(alloc, given, bound)?;
        placed.push((id, name))?;
    }
    Ok(placed)
}

/// Whether something is held under an id.
fn is_bound(held: &PolicySet, id: &PolicyID) -> bool
    ensures { result ≡ is_some (finite.get (policies_in held.now) id.now) }
{
    policy_sets_are_worlds();
    held.is_bound(id)
}

/// Whether a name was given, or something is held under it as its id.
pub(crate) fn is_taken(held: &PolicySet, names: &GivenNames, name: &PolicyID) -> bool
    ensures { result ≡ is_taken (policies_in held.now) names.now name.now }
{
    names.id(name).is_some() || is_bound(held, name)
}

/// Whether something is held under an id, or comes to be, and was given a name.
fn is_held(held: &PolicySet, names: &GivenNames, id: &PolicyID) -> bool
    ensures { result ≡ is_held (policies_in held.now) names.now id.now }
{
    is_bound(held, id) || names.name(id).is_some()
}

/// Whether what comes under an id can't be given a name.
fn clashes(held: &PolicySet, names: &GivenNames, id: &PolicyID, name: &PolicyID) -> bool
    ensures { result ≡ clashes (policies_in held.now) names.now id.now name.now }
{
    is_taken(held, names, name)
        || is_number(name.as_str()) && id != name
        || is_held(held, names, id)
}

/// Gives what comes under an id its name. A refused call changes nothing.
fn give_one(
    held: &PolicySet,
    names: &mut GivenNames,
    id: &PolicyID,
    name: &PolicyID,
) -> Result<(), NamedRefusal>
    ensures { GivesAll (policies_in held.now) names.old ((id.now, Some name.now) ∷ []) result names.new }
{
    if clashes(held, names, id, name) {
        return Err(NamedRefusal::IdConflict(name.clone()?));
    }
    names.give(id, name)?;
    Ok(())
}

/// Gives a policy its name, where it is to be given one. A refused call changes nothing.
fn give_placed(
    held: &PolicySet,
    names: &mut GivenNames,
    placed: &Placed,
) -> Result<(), NamedRefusal>
    ensures { GivesAll (policies_in held.now) names.old (placed.now ∷ []) result names.new }
{
    match &placed.1 {
        Some(name) => give_one(held, names, &placed.0, name),
        None => Ok(()),
    }
}

/// Gives the policies of a text their names. A refused call changes nothing.
pub(crate) fn give_all(
    held: &PolicySet,
    names: &mut GivenNames,
    placed: &[Placed],
) -> Result<(), NamedRefusal>
    ensures { GivesAll (policies_in held.now) names.old placed.now result names.new }
{
    for index in 0..placed.len() {
        if let Err(refusal) = give_placed(held, names, &placed[index]) {
            take_back_all(names, &placed[..index]);
            return Err(refusal);
        }
    }
    Ok(())
}

/// Takes the name of a policy back, if it was given one.
fn take_back_one(names: &mut GivenNames, placed: &Placed)
    ensures { names.new ≡ without_one placed.now names.old }
{
    match &placed.1 {
        Some(_) => names.take_back(&placed.0),
        None => {}
    }
}

/// Takes the names of these back, the last one first.
pub(crate) fn take_back_all(names: &mut GivenNames, placed: &[Placed])
    ensures { names.new ≡ without_all placed.now names.old }
{
    let mut left = placed.len();
    while left > 0 {
        left -= 1;
        take_back_one(names, &placed[left]);
    }
}

/// The names of the policies of a text. Refused for memory alone.
pub(crate) fn names_of(
    alloc: Global,
    names: &GivenNames,
    placed: &[Placed],
) -> Result<Vec<PolicyID>, AllocError>
    ensures { IfOk result (λ told. told.items ≡ map (λ p. name_of names.now p.0) placed.now) }
{
    let mut told = Vec::new(alloc);
    for policy in placed {
        told.push(names.name_or_id(&policy.0).clone()?)?;
    }
    Ok(told)
}
