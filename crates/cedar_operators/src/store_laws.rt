// Which stores have facts: a law, as the contract of a function that does nothing.
ghost use Rattle.cedar_operators.specs.StoreLaws.{StoresHaveFacts};

/// A store of values that isn't partial, and whose ancestors are those that its parents reach, has facts.
/// Each edit with `ComputeNow` leaves such ancestors.
pub fn stores_have_facts()
    ensures { StoresHaveFacts }
{}
