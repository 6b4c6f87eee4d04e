// Laws of equality.
ghost use Rattle.cedar_names.specs.Laws.{TestsSame};
ghost use Rattle.cedar_policies.specs.Same.{same_syntax};

/// `==` of what is written of policies holds exactly where the syntax is the same; no place counts.
pub fn equality_is_sameness()
    ensures { TestsSame same_syntax }
{}
