// Commands with their texts.
ghost use Rattle.std.specs.Prelude.{◌≡◌, true};
ghost use Rattle.cedar_session.specs.Commands.{command_verb, command_text};

use cedar_frames::Verb;

/// A command, with the text that says what it is about.
#[derive(Clone, Copy, Debug)]
pub enum Command<'t> {
    /// Adds the policies of a text.
    Load(&'t str),
    /// Links a template, as a body says.
    Link(&'t str),
    /// Takes the link away whose id a body states.
    Unlink(&'t str),
    /// Takes the static policy away whose id a body states.
    RemoveStatic(&'t str),
    /// Takes the template away whose id a body states.
    RemoveTemplate(&'t str),
    /// Adds the entities that a body lists.
    Add(&'t str),
    /// Puts the entities that a body lists in place of those held.
    Put(&'t str),
    /// Removes the entities that a body lists.
    Remove(&'t str),
    /// Asks the question that a body states.
    Ask(&'t str),
    /// Tells the open question's unknowns, as a body says.
    Tell(&'t str),
}

impl<'t> Command<'t> {
    /// The command of a verb.
    pub fn of(verb: Verb, text: &'t str) -> Command<'t>
        ensures verb { command_verb result ≡ verb }
        ensures text { command_text result ≡ text.now }
    {
        match verb {
            Verb::Load => Command::Load(text),
            Verb::Link => Command::Link(text),
            Verb::Unlink => Command::Unlink(text),
            Verb::RemoveStatic => Command::RemoveStatic(text),
            Verb::RemoveTemplate => Command::RemoveTemplate(text),
            Verb::Add => Command::Add(text),
            Verb::Put => Command::Put(text),
            Verb::Remove => Command::Remove(text),
            Verb::Ask => Command::Ask(text),
            Verb::Tell => Command::Tell(text),
        }
    }
}
