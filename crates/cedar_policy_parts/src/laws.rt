// Laws of equality.
ghost use Rattle.cedar_names.specs.Laws.{TestsSame};
ghost use Rattle.cedar_policy_parts.specs.Sameness.{same_annotations};

/// `==` holds of annotations exactly where keys and texts are the same; no place counts.
pub fn equality_is_sameness()
    ensures { TestsSame same_annotations }
{}
