// Laws of names.
ghost use Rattle.std.specs.Cmp.{IsTotalOrder};
ghost use Rattle.std.specs.FinMap.{IsAntisymmetric};
ghost use Rattle.cedar_language.specs.Order.{name_cmp, same_name};
ghost use Rattle.cedar_names.specs.Laws.{TestsSame, NamespacesStay, QualifyingIsOnce, NamesAreToldApart};

/// `==` holds of names exactly where they are the same; no place counts.
pub fn equality_is_sameness()
    ensures { TestsSame same_name }
{}

/// Names are in a total order, in which the same ones alone tie.
pub fn names_are_ordered()
    ensures total { IsTotalOrder name_cmp }
    ensures same { IsAntisymmetric name_cmp }
{}

/// Qualifying leaves a name that has a namespace, so it does so once.
pub fn qualifying_is_once()
    ensures kept { NamespacesStay }
    ensures once { QualifyingIsOnce }
{}

/// Each name is written in its own way, so reading what was printed gives the name back.
pub fn names_are_told_apart()
    ensures { NamesAreToldApart }
{}
