// Laws of uids.
ghost use Rattle.std.specs.Cmp.{IsTotalOrder};
ghost use Rattle.std.specs.FinMap.{IsAntisymmetric};
ghost use Rattle.cedar_language.specs.Order.{uid_cmp, same_uid};
ghost use Rattle.cedar_names.specs.Laws.{TestsSame};
ghost use Rattle.cedar_literals.specs.Laws.{UidsAreToldApart};

/// `==` holds of uids exactly where they are the same; no place counts.
pub fn equality_is_sameness()
    ensures { TestsSame same_uid }
{}

/// Uids are in a total order, in which the same ones alone tie.
pub fn uids_are_ordered()
    ensures total { IsTotalOrder uid_cmp }
    ensures same { IsAntisymmetric uid_cmp }
{}

/// Each uid is written in its own way: two uids that differ are never printed as the same text.
pub fn uids_are_told_apart()
    ensures { UidsAreToldApart }
{}
