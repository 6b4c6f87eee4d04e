// Answers by names.
ghost use Rattle.std.specs.Prelude.{◌≡◌, IfOk, map};
ghost use Rattle.std.specs.FinMap as finite;
ghost use Rattle.cedar_named_sessions.specs.NameLists.{name_of};
ghost use Rattle.cedar_named_sessions.specs.Steps.{named_answer, named_erring, named_ids};
ghost use Rattle.cedar_replies.specs.Replies.{answer_of};

use crate::names::GivenNames;
use cedar_policy_parts::PolicyID;
use cedar_replies::{Answer, Erring, ErrorKind, PolicyIds};
use std::alloc::{AllocError, Global};

/// The names of these ids, in their order.
fn names_in(
    alloc: Global,
    names: &GivenNames,
    ids: &[PolicyID],
) -> Result<Vec<PolicyID>, AllocError>
    ensures { IfOk result (λ told. told.items ≡ map (name_of names.now) ids.now) }
{
    let mut told = Vec::new(alloc);
    for id in ids {
        told.push(names.name_or_id(id).clone()?)?;
    }
    Ok(told)
}

fn named_ids(alloc: Global, names: &GivenNames, ids: &PolicyIds) -> Result<PolicyIds, AllocError>
    ensures { IfOk result (λ told. told ≡ named_ids names.now ids.now) }
{
    Ok(PolicyIds::new(names_in(alloc, names, ids.as_slice())?))
}

fn named_entries(
    alloc: Global,
    names: &GivenNames,
    entries: &[(PolicyID, ErrorKind)],
) -> Result<Vec<(PolicyID, ErrorKind)>, AllocError>
    ensures { IfOk result (λ told. told.items ≡ map (λ e. (name_of names.now e.0, e.1)) entries.now) }
{
    let mut told = Vec::new(alloc);
    for entry in entries {
        told.push((names.name_or_id(&entry.0).clone()?, entry.1))?;
    }
    Ok(told)
}

fn named_erring(alloc: Global, names: &GivenNames, erring: &Erring) -> Result<Erring, AllocError>
    ensures { IfOk result (λ told. told ≡ named_erring names.now erring.now) }
{
    Erring::new(named_entries(alloc, names, erring.as_slice())?)
}

/// An answer in which each id is its name. Refused for memory alone.
pub(crate) fn named_answer(
    alloc: Global,
    names: &GivenNames,
    answer: &Answer,
) -> Result<Answer, AllocError>
    ensures { IfOk result (λ told. answer_of told ≡ named_answer names.now (answer_of answer.now)) }
{
    Ok(Answer {
        decision: answer.decision,
        must: named_ids(alloc, names, &answer.must)?,
        may: named_ids(alloc, names, &answer.may)?,
        erring: named_erring(alloc, names, &answer.erring)?,
    })
}
