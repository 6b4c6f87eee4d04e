// Laws of equality.
ghost use Rattle.cedar_names.specs.Laws.{TestsSame};
ghost use Rattle.cedar_policy_parts.specs.SameScopes.{same_target, same_constraint, same_action, same_bindings};

/// `==` holds of parts of policies exactly where they are the same; no place counts.
pub fn equality_is_sameness()
    ensures references { TestsSame same_target }
    ensures constraints { TestsSame same_constraint }
    ensures actions { TestsSame same_action }
    ensures bindings { TestsSame same_bindings }
{}
