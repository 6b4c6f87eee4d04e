// Laws of evaluation, as contracts of functions that do nothing.
ghost use Rattle.cedar_restricted_evaluation.specs.Evaluations.{WrittenNamesAreRead};

/// Where each call of `unknown` in a restricted expression is one on a literal text, its answer is that
/// of partial evaluation, with these calls read as unknowns.
pub fn written_names_are_read()
    ensures { WrittenNamesAreRead }
{}
