//! Laws of merges.
ghost use Rattle.cedar_store.specs.Laws.{IsTheOnlyOne, RenamesConflicts, GivesFreeIds, KeepsApart};

/// Each merge has one renaming: of just the ids that both sets bind to different things, to ids that were
/// bound in neither; and different ids stay different.
pub fn renamings_are_exact()
    ensures one { IsTheOnlyOne }
    ensures conflicts { RenamesConflicts }
    ensures free { GivesFreeIds }
    ensures apart { KeepsApart }
{}
