// Comparing policy sets.
ghost use Rattle.std.specs.Prelude.{◌≡◌};
ghost use Rattle.std.specs.List.{list_all};
ghost use Rattle.std.specs.Map.{keys_of};
ghost use Rattle.cedar_policy_set.specs.SameSets.{alike_at};

use crate::sets::PolicySet;
use cedar_policy_parts::PolicyID;

// Whether both sets bind alike at each id that this one binds.
pub(crate) fn bind_alike(ids: &PolicySet, mine: &PolicySet, theirs: &PolicySet) -> bool
    ensures { result ≡ list_all (alike_at mine.now theirs.now) (keys_of ids.now) }
{
    for bound in ids.values() {
        if !bind_alike_at(mine, theirs, bound.id()) {
            return false;
        }
    }
    true
}

// Whether both sets bind an id to one thing, or neither binds it.
fn bind_alike_at(mine: &PolicySet, theirs: &PolicySet, id: &PolicyID) -> bool
    ensures { result ≡ alike_at mine.now theirs.now id.now }
{
    match (mine.bound(id), theirs.bound(id)) {
        (Some(mine), Some(theirs)) => mine.is_same(theirs),
        (Some(_), None) | (None, Some(_)) => false,
        (None, None) => true,
    }
}
