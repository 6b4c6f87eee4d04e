// Merging policy sets.
ghost use Rattle.std.specs.Prelude.{◌≡◌, [], IfErr, IfOk, OnErr, OnOk, false};
ghost use Rattle.std.specs.Map.{keys_of};
ghost use Rattle.cedar_policy_set.specs.Entries.{Entries};
ghost use Rattle.cedar_store.specs.Renaming.{IsRenaming, conflicting};
ghost use Rattle.cedar_store.specs.Merged.{joined, KeepsMine, KeepsTheirs, IsMergeRefusal, RefusesAny};

use crate::joining::joining;
use crate::renaming::{Renaming, copied, renaming_of};
use cedar_policy_set::errors::PolicySetError;
use cedar_policy_set::sets::PolicySet;
use std::alloc::{AllocError, Global};

/// Merging into a policy set, whose type stands below.
pub trait Merging {
    // what it binds
    ghost entries: { Self → Entries };

    /// Binds what another set has more, under the new ids of the merge, after what is bound here; what
    /// both bind alike stays as it is. The parts are shared. Refused for memory alone; a refused call
    /// changes nothing.
    fn join(
        &mut self,
        alloc: Global,
        other: &PolicySet,
        renaming: &Renaming,
    ) -> Result<(), AllocError>
        requires { IsRenaming (entries self.old) other.now renaming.now }
        ensures joined { OnOk result (entries self.new ≡ joined (entries self.old) other.now renaming.now) }
        ensures mine { OnOk result (KeepsMine (entries self.old) (entries self.new)) }
        ensures theirs { OnOk result (KeepsTheirs other.now renaming.now (entries self.new)) }
        ensures err { OnErr result (entries self.new ≡ entries self.old) };

    /// Binds here what another set has more, where an id that both bind to different things is renamed
    /// there if `rename_duplicates` says so; answers the new ids. Refused for the first id that would have
    /// to be renamed and may not be, or for memory. A refused call changes nothing.
    fn merge_policyset(
        &mut self,
        alloc: Global,
        other: &PolicySet,
        rename_duplicates: bool,
    ) -> Result<Renaming, PolicySetError>
        ensures renaming { IfOk result (λ renaming. IsRenaming (entries self.old) other.now renaming) }
        ensures joined { IfOk result (λ renaming. entries self.new ≡ joined (entries self.old) other.now renaming) }
        ensures mine { OnOk result (KeepsMine (entries self.old) (entries self.new)) }
        ensures theirs { IfOk result (λ renaming. KeepsTheirs other.now renaming (entries self.new)) }
        ensures may_rename { OnOk result (rename_duplicates ≡ false → conflicting (entries self.old) other.now ≡ []) }
        ensures refused { IfErr result (IsMergeRefusal (entries self.old) other.now rename_duplicates) }
        ensures err { OnErr result (entries self.new ≡ entries self.old) };
}

impl Merging for PolicySet {
    ghost entries = { λ es. es };

    fn join(
        &mut self,
        alloc: Global,
        other: &PolicySet,
        renaming: &Renaming,
    ) -> Result<(), AllocError> {
        // The contract of `len` is what says that a set is whole.
        let _mine = self.len();
        let _theirs = other.len();
        let more = joining(alloc, self, other, renaming)?;
        self.append(more)
    }

    fn merge_policyset(
        &mut self,
        alloc: Global,
        other: &PolicySet,
        rename_duplicates: bool,
    ) -> Result<Renaming, PolicySetError> {
        let renaming = renaming_of(alloc, self, other)?;
        if !rename_duplicates {
            refuse_any(&renaming)?;
        }
        self.join(alloc, other, &renaming)?;
        Ok(renaming)
    }
}

// Refused for the first id that has a new one.
fn refuse_any(renaming: &Renaming) -> Result<(), PolicySetError>
    ensures { RefusesAny (keys_of renaming.now) result }
{
    match renaming.get_index(0) {
        None => Ok(()),
        Some((id, _)) => Err(PolicySetError::Occupied { id: copied(id)? }),
    }
}
