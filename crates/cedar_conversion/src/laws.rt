// What the own builder makes of the trees that texts write: laws of the conversion.
ghost use Rattle.cedar_conversion.specs.Laws.{TreesAreBuilt, CallsAreNamed};

/// Of a tree that a text writes the own builder makes that tree.
pub fn trees_are_built()
    ensures { TreesAreBuilt }
{}

/// No text calls `unknown` where the table of names lacks it.
pub fn calls_are_named()
    ensures { CallsAreNamed }
{}
