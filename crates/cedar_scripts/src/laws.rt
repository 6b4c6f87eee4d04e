// What holds of scripts, as contracts of functions that do nothing.
ghost use Rattle.cedar_scripts.specs.ScriptLaws.{FaultsAreInNoScript, FaultsAreOne, LinesSayOneThing, TextsAreOneScript};

/// No line of a script says two things.
pub fn lines_say_one_thing()
    ensures { LinesSayOneThing }
{}

/// No text is two scripts.
pub fn texts_are_one_script()
    ensures { TextsAreOneScript }
{}

/// A text with a line that can't stand where it does is no script.
pub fn faults_are_in_no_script()
    ensures { FaultsAreInNoScript }
{}

/// Such a line is found, and why, in one way.
pub fn faults_are_one()
    ensures { FaultsAreOne }
{}
