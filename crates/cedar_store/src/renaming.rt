// What a merge renames.
ghost use Rattle.std.specs.Prelude.{◌≡◌, ◌-◌, ◌^◌, ◌<◌, IfNone, IfOk, IfSome, None};
ghost use Rattle.cedar_grammar.specs.Syntax.{numbered};
ghost use Rattle.cedar_policy_set.specs.Bounds.{bound_id, entry_of};
ghost use Rattle.cedar_store.specs.Renaming.{IsNextFree, IsRenaming, conflicts, new_id};
ghost use Rattle.cedar_store.specs.Room.{HasRoom};

use cedar_policy_parts::PolicyID;
use cedar_policy_set::bounds::Bound;
use cedar_policy_set::policy_map::PolicyMap;
use cedar_policy_set::sets::PolicySet;
use std::alloc::{AllocError, Global};

/// New ids by old ones, in the order of the set whose policies are renamed.
pub type Renaming = PolicyMap<PolicyID>;

/// The new ids that a merge gives: to each id that both sets bind, and to different things (places don't
/// count, and links of different templates differ), the next of `policy0`, `policy1`, .. that is bound in
/// neither set, in the order of `theirs`. Refused for memory alone.
pub fn renaming_of(
    alloc: Global,
    mine: &PolicySet,
    theirs: &PolicySet,
) -> Result<Renaming, AllocError>
    ensures { IfOk result (λ renaming. IsRenaming mine.now theirs.now renaming) }
{
    // The contract of `len` is what says that a set is whole, and how many ids it binds at the most.
    let _mine = mine.len();
    let _theirs = theirs.len();
    let mut renaming = PolicyMap::new(alloc);
    let mut from = 0;
    for bound in theirs.values() {
        if conflicts(mine, bound) {
            let (number, new) = next_free(alloc, mine, theirs, from)?;
            renaming.push(copied(bound.id())?, new)?;
            from = number + 1;
        }
    }
    Ok(renaming)
}

// Whether this set binds the id too, and to something else.
pub(crate) fn conflicts(mine: &PolicySet, theirs: &Bound) -> bool
    ensures { result ≡ conflicts mine.now (bound_id theirs.now, entry_of theirs.now) }
{
    match mine.bound(theirs.id()) {
        Some(bound) => !bound.is_same(theirs),
        None => false,
    }
}

// The first number from this one on whose id is bound in neither set, and the id.
fn next_free(
    alloc: Global,
    mine: &PolicySet,
    theirs: &PolicySet,
    from: u64,
) -> Result<(u64, PolicyID), AllocError>
    requires { HasRoom mine.now theirs.now from }
    ensures free { IfOk result (λ found. IsNextFree mine.now theirs.now from found.0) }
    ensures id { IfOk result (λ found. found.1 ≡ numbered found.0) }
    ensures below { IfOk result (λ found. found.0 < 2 ^ 64 - 1) }
{
    let mut next = from;
    while let Some((number, id)) = mine.next_unbound(alloc, next)? {
        if !theirs.is_bound(&id) {
            return Ok((number, id));
        }
        next = number + 1;
    }
    unreachable!()
}

/// The id under which a policy stands after a renaming; refused for memory alone.
pub fn renamed_id(renaming: &Renaming, id: &PolicyID) -> Result<PolicyID, AllocError>
    ensures { IfOk result (λ new. new ≡ new_id renaming.now id.now) }
{
    match given_id(renaming, id) {
        Some(new) => copied(new),
        None => copied(id),
    }
}

// The new id, where one is given.
pub(crate) fn given_id<'a>(renaming: &'a Renaming, id: &PolicyID) -> Option<&'a PolicyID>
    ensures given { IfSome result (λ new. new.now ≡ new_id renaming.now id.now) }
    ensures none { IfNone result (new_id renaming.now id.now ≡ id.now) }
{
    renaming.get(id)
}

// A copy of the id.
pub(crate) fn copied(id: &PolicyID) -> Result<PolicyID, AllocError>
    ensures { IfOk result (λ copy. copy ≡ id.now) }
{
    Ok(id.clone()?)
}
