// Laws of values and sets.
ghost use Rattle.cedar_language.specs.Order.{same};
ghost use Rattle.cedar_names.specs.Laws.{TestsSame};
ghost use Rattle.cedar_values.specs.Extensions.{same_extension};
ghost use Rattle.cedar_values.specs.Laws.{SetsAreTheirMembers, KindsAreTheirValues};
ghost use Rattle.cedar_values.specs.Orders.{same_set};

/// `==` holds of values, sets, extension values and kinds exactly where they are the same; no place
/// and no representation counts.
pub fn equality_is_sameness()
    ensures values { TestsSame same }
    ensures sets { TestsSame same_set }
    ensures extension_values { TestsSame same_extension }
    ensures kinds { KindsAreTheirValues }
{}

/// Sets with the same members are one set.
pub fn sets_are_their_members()
    ensures { SetsAreTheirMembers }
{
    cedar_language::sets_are_finite();
}
