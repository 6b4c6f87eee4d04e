// Laws of values that are written as expressions.
ghost use Rattle.cedar_restricted.specs.Laws.{WrittenValuesAreGround, GroundTreesAreRestricted, WrittenValuesAreReadBack, ExtensionValuesAreNotReadBack, WhatIsReadIsMeant};

/// What writes a value is made of literals, sets, records and calls alone, so it is restricted.
pub fn written_values_are_restricted()
    ensures written { WrittenValuesAreGround }
    ensures ground { GroundTreesAreRestricted }
{}

/// What writes a value is read back as that value exactly where no extension value is in it.
pub fn written_values_are_read_back()
    ensures read { WrittenValuesAreReadBack }
    ensures extensions { ExtensionValuesAreNotReadBack }
{
    cedar_language::sets_are_finite();
}

/// The value that is read of an expression is what the expression means, whatever is asked and held.
pub fn what_is_read_is_meant()
    ensures { WhatIsReadIsMeant }
{}
