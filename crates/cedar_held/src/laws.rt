// Laws of bodies, as contracts of functions that do nothing.
ghost use Rattle.cedar_held.specs.Entities.{BodiesAreWritten};

/// Entities of a body are those that are written, where a call that names an unknown is that unknown.
pub fn bodies_are_written()
    ensures { BodiesAreWritten }
{}
