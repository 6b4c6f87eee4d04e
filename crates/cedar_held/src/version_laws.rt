// Laws of bodies, as contracts of functions that do nothing.
ghost use Rattle.cedar_held.specs.Reading.{TreesAreRead};

/// What partial evaluation answers of a tree of a body says which value it has, or that it holds an
/// unknown, or that some part of it errs.
pub fn trees_are_read()
    ensures { TreesAreRead }
{}
