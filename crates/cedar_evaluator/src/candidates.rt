// Which policies of a set may be in scope of a request: those that its index finds by the entities that are given.
ghost use Rattle.std.specs.Prelude.{IsTrue, IfOk, OnOk, IfSome};
ghost use Rattle.std.specs.FinSet as set;
ghost use Rattle.std.specs.List.Sorted.{IsStrictlyIncreasing};
ghost use Rattle.std.specs.Option.{option_copied};
ghost use Rattle.cedar_entities.specs.Data.{ancestors_of};
ghost use Rattle.cedar_policy_set.specs.ScopeFinding.{AreAmong};
ghost use Rattle.cedar_evaluator.specs.Candidates.{is_in_given, is_in_known, HasListed, HasPaired, HasFound, AreCandidatesBy};

use crate::scopes::Scopes;
use cedar_entities::entity::Entity;
use cedar_interpreter::GivenEntity;
use cedar_policy_set::scope_index::index::ScopeIndex;
use cedar_policy_set::scope_index::positions::Positions;
use cedar_policy_set::sets::PolicySet;
use std::alloc::{AllocError, Global};

/// Positions in a set, each below the next, outside of which no policy is in scope of a request. A scope is asked from
/// the left, so all that is listed by the action or the resource alone is told where the action isn't given, and all that
/// is listed by the resource alone where that isn't. None are told where the set's index doesn't cover it whole, where the
/// request doesn't give the principal, where an entity has more ancestors than the set has entries, or where more than
/// half of the set would be told. Refused for memory alone.
pub(crate) fn candidates(
    alloc: Global,
    scopes: &Scopes<'_>,
    policies: &PolicySet,
) -> Result<Option<Vec<usize>>, AllocError>
    ensures rising { IfOk result (λ found. IfSome found (λ positions. IsStrictlyIncreasing positions.items)) }
    ensures whole { IfOk result (λ found. IfSome found (λ positions. AreCandidatesBy scopes.now policies.now positions.items)) }
{
    let Some(principal) = &scopes.principal else {
        return Ok(None);
    };
    let action = scopes.action.as_ref();
    let resource = action.and(scopes.resource.as_ref());
    let index = policies.scopes();
    let len = policies.len();
    if index.len() < len {
        return Ok(None);
    }
    match found_by(alloc, index, principal, action, resource, len)? {
        // Where most are found, a look at each takes less than to put them in order.
        Some(found) if found.len() <= len / 2 => Ok(Some(in_order(index.positions(found)))),
        _ => Ok(None),
    }
}

// The places that are listed under these entities and those that they are in, all where one isn't given, and those
// that are listed under none; not told where one of them has more ancestors than `most`.
fn found_by(
    alloc: Global,
    index: &ScopeIndex,
    principal: &GivenEntity<'_, '_>,
    action: Option<&GivenEntity<'_, '_>>,
    resource: Option<&GivenEntity<'_, '_>>,
    most: usize,
) -> Result<Option<Vec<usize>>, AllocError>
    ensures { IfOk result (λ found. IfSome found (λ positions. HasFound index.now principal.now (option_copied action.entry) (option_copied resource.entry) positions.items)) }
{
    let mut found = Vec::new(alloc);
    found.extend_from_slice(index.others())?;
    if add_found(&mut found, index.principals(), principal, most)?
        && add_known(&mut found, index.actions(), action, most)?
        && add_known(&mut found, index.resources(), resource, most)?
        && add_paired(&mut found, index, principal, resource, most)?
    {
        Ok(Some(found))
    } else {
        Ok(None)
    }
}

// Adds what is listed under an entity and under its ancestors, or under any where it isn't given; false where these
// are more than `most`.
fn add_known(
    found: &mut Vec<usize>,
    listed: &Positions,
    known: Option<&GivenEntity<'_, '_>>,
    most: usize,
) -> Result<bool, AllocError>
    ensures kept { OnOk result (AreAmong found.old.items found.new.items) }
    ensures added { IfOk result (λ whole. IsTrue whole → HasListed listed.now (is_in_known (option_copied known.entry)) found.new.items) }
{
    match known {
        Some(given) => add_found(found, listed, given, most),
        None => {
            listed.push_all(found)?;
            Ok(true)
        }
    }
}

// Adds what is listed for pairs, by the resource where it is given, and else by the principal; false where one has more
// ancestors than `most`.
fn add_paired(
    found: &mut Vec<usize>,
    index: &ScopeIndex,
    principal: &GivenEntity<'_, '_>,
    resource: Option<&GivenEntity<'_, '_>>,
    most: usize,
) -> Result<bool, AllocError>
    ensures kept { OnOk result (AreAmong found.old.items found.new.items) }
    ensures added { IfOk result (λ whole. IsTrue whole → HasPaired index.now principal.now (option_copied resource.entry) found.new.items) }
{
    match resource {
        Some(given) => add_found(found, index.paired_resources(), given, most),
        None => add_found(found, index.paired_principals(), principal, most),
    }
}

// Adds what is listed under an entity and under its ancestors; false where these are more than `most`.
fn add_found(
    found: &mut Vec<usize>,
    listed: &Positions,
    given: &GivenEntity<'_, '_>,
    most: usize,
) -> Result<bool, AllocError>
    ensures kept { OnOk result (AreAmong found.old.items found.new.items) }
    ensures added { IfOk result (λ whole. IsTrue whole → HasListed listed.now (is_in_given given.now) found.new.items) }
{
    if listed.is_empty() {
        return Ok(true);
    }
    found.extend_from_slice(listed.at(given.uid))?;
    match given.entity {
        Some(entity) => add_of_ancestors(found, listed, entity, most),
        None => Ok(true),
    }
}

// Adds what is listed under each ancestor of an entity; false where these are more than `most`.
fn add_of_ancestors(
    found: &mut Vec<usize>,
    listed: &Positions,
    entity: &Entity,
    most: usize,
) -> Result<bool, AllocError>
    ensures kept { OnOk result (AreAmong found.old.items found.new.items) }
    ensures added { IfOk result (λ whole. IsTrue whole → HasListed listed.now (set.contains (ancestors_of entity.now)) found.new.items) }
{
    let mut left = most;
    for ancestor in entity.ancestors() {
        if left == 0 {
            return Ok(false);
        }
        left -= 1;
        found.extend_from_slice(listed.at(ancestor))?;
    }
    Ok(true)
}

// The same positions, each below the next.
fn in_order(mut positions: Vec<usize>) -> Vec<usize>
    ensures rising { IsStrictlyIncreasing result.items }
    ensures kept { AreAmong positions.items result.items }
{
    positions.sort_unstable();
    positions.dedup();
    positions
}
