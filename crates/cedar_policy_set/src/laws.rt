// Laws of equality.
ghost use Rattle.cedar_names.specs.Laws.{TestsSame};
ghost use Rattle.cedar_policy_set.specs.EntryNodes.{same_entry};
ghost use Rattle.cedar_policy_set.specs.SameSets.{TestsAlike};

/// What ids are bound to is told to be the same exactly where it is: of one kind, of one syntax, and of
/// links with one template and the same entities. No place counts.
pub fn equality_is_sameness()
    ensures { TestsSame same_entry }
{}

/// Two policy sets are told to be the same exactly where each id is bound in both to the same thing, or in
/// neither. The order doesn't count.
pub fn equal_sets_bind_alike()
    ensures { TestsAlike }
{}
