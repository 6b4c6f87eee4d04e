//! What a store and a policy set hold is what a session's world holds, and their edits are the world's: laws, as
//! contracts of functions that do nothing.
ghost use Rattle.cedar_held.specs.LoadWorlds.{LoadsAsWorlds};
ghost use Rattle.cedar_held.specs.PolicyWorlds.{FindsAsWorlds, BindsAsWorlds, RemovesAsWorlds};
ghost use Rattle.cedar_held.specs.StoreWorlds.{PutsAreTheWorlds, AddsAreTheWorlds, RemovesAreTheWorlds};

/// Putting versions into a store that shows some entities leaves, as the world's put does, the last
/// version of each uid, or is refused where these would have a cycle.
pub fn puts_are_the_worlds()
    ensures { PutsAreTheWorlds }
{
    cedar_world::edits_at_uids();
}

/// Adding versions to a store that shows some entities leaves what the world's add leaves; it is refused
/// `Duplicate` for a version that the world doesn't take, and where a cycle would come of them.
pub fn adds_are_the_worlds()
    ensures { AddsAreTheWorlds }
{
    cedar_world::edits_at_uids();
}

/// Removing uids from a store that shows some entities leaves what the world's removal leaves.
pub fn removes_are_the_worlds()
    ensures { RemovesAreTheWorlds }
{
    cedar_world::edits_at_uids();
}

/// What a policy set binds, and what its edits do, is what a session's world has of policies.
pub fn policy_sets_are_worlds()
    ensures finds { FindsAsWorlds }
    ensures binds { BindsAsWorlds }
    ensures removes { RemovesAsWorlds }
{}

/// Merging the policies of a text, under their own numbers, is a session's load of that text: the policies
/// stand under the ids that the load answers, and the merged set is the load's.
pub fn texts_are_loaded()
    ensures { LoadsAsWorlds }
{}
