// Answers that are joined along tells.
ghost use Rattle.std.specs.Prelude.{◌≡◌, ◌&&◌, ◌||◌, ◌++◌, IfOk, OnOk};
ghost use Rattle.std.specs.FinMap as finite;
ghost use Rattle.std.specs.Option.{option_or, option_map};
ghost use Rattle.cedar_language.specs.Answering.{kept as first_decision};
ghost use Rattle.cedar_language.specs.Uid.{Text};
ghost use Rattle.cedar_policy_parts.specs.Decisions.{decision_of};
ghost use Rattle.cedar_replies.specs.Replies.{answer_of};
ghost use Rattle.cedar_world.specs.Answer.{has_id};
ghost use Rattle.cedar_world.specs.Joined.{IsJoined};

use cedar_policy_parts::{Decision, PolicyID};
use cedar_replies::{Answer, Erring, ErrorKind, PolicyIds};
use std::alloc::{AllocError, Global};

// Whether the id is in the set: a binary search, since the ids are in order.
fn has(ids: &PolicyIds, id: &PolicyID) -> bool
    ensures { result ≡ has_id ids.now id.now }
{
    ids.as_slice().binary_search(id).is_ok()
}

// Whether the policy had to be a reason before, or has to be now.
fn must_be(last: &Answer, new: &Answer, id: &PolicyID) -> bool
    ensures { result ≡ (has_id last.now.must id.now || has_id new.now.must id.now) }
{
    has(&last.must, id) || has(&new.must, id)
}

// Whether the policy may still be a reason, or must.
fn may_be(last: &Answer, new: &Answer, id: &PolicyID) -> bool
    ensures { result ≡ (has_id new.now.may id.now || (has_id last.now.must id.now || has_id new.now.must id.now)) }
{
    has(&new.may, id) || must_be(last, new, id)
}

// Of the policies that could be reasons, those that must.
fn must_ids(alloc: Global, last: &Answer, new: &Answer) -> Result<PolicyIds, AllocError>
    ensures { IfOk result (λ ids. (id : Text) → has_id ids id ≡ (has_id last.now.may id && (has_id last.now.must id || has_id new.now.must id))) }
{
    let mut ids = Vec::new(alloc);
    let possible = last.may.as_slice();
    for id in possible {
        if must_be(last, new, id) {
            ids.push(id.clone()?)?;
        }
    }
    Ok(PolicyIds::new(ids))
}

// Of the policies that could be reasons, those that still may.
fn may_ids(alloc: Global, last: &Answer, new: &Answer) -> Result<PolicyIds, AllocError>
    ensures { IfOk result (λ ids. (id : Text) → has_id ids id ≡ (has_id last.now.may id && (has_id new.now.may id || (has_id last.now.must id || has_id new.now.must id)))) }
{
    let mut ids = Vec::new(alloc);
    let possible = last.may.as_slice();
    for id in possible {
        if may_be(last, new, id) {
            ids.push(id.clone()?)?;
        }
    }
    Ok(PolicyIds::new(ids))
}

fn push_all(
    entries: &mut Vec<(PolicyID, ErrorKind)>,
    more: &[(PolicyID, ErrorKind)],
) -> Result<(), AllocError>
    ensures { OnOk result (entries.new.items ≡ entries.old.items ++ more.now) }
{
    for (id, kind) in more {
        entries.push((id.clone()?, *kind))?;
    }
    Ok(())
}

// The policies that erred before, each with the kind of its error then, and those that err now.
fn all_erring(alloc: Global, last: &Erring, new: &Erring) -> Result<Erring, AllocError>
    ensures { IfOk result (λ all. (id : Text) → finite.get all id ≡ option_or (finite.get last.now id) (finite.get new.now id)) }
{
    let mut entries = Vec::new(alloc);
    push_all(&mut entries, last.as_slice())?;
    push_all(&mut entries, new.as_slice())?;
    Erring::new(entries)
}

fn first_of(last: Option<Decision>, new: Option<Decision>) -> Option<Decision>
    ensures { option_map decision_of result ≡ first_decision (option_map decision_of last) (option_map decision_of new) }
{
    match last {
        Some(decision) => Some(decision),
        None => new,
    }
}

/// The answer once more is told, from the last one and that which what is told now gives. A decision that
/// was given stays. Of the policies that could be reasons those stay that still may or that must be, and
/// those must that had to or have to now. What erred still does, with the kind that was shown.
pub fn joined(alloc: Global, last: &Answer, new: &Answer) -> Result<Answer, AllocError>
    ensures { IfOk result (λ answer. IsJoined (answer_of last.now) (answer_of new.now) (answer_of answer)) }
{
    Ok(Answer {
        decision: first_of(last.decision, new.decision),
        must: must_ids(alloc, last, new)?,
        may: may_ids(alloc, last, new)?,
        erring: all_erring(alloc, &last.erring, &new.erring)?,
    })
}
