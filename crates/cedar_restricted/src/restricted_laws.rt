// Laws of restricted expressions.
ghost use Rattle.cedar_restricted.specs.Offences.{OffencesAreWhatIsNotRestricted};

/// No part offends exactly where an expression is restricted.
pub fn offences_are_what_is_not_restricted()
    ensures { OffencesAreWhatIsNotRestricted }
{}
