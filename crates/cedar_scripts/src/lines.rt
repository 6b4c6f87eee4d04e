// What a line of a script says.
ghost use Rattle.std.specs.Prelude.{◌≡◌, false, IfSome, IfNone};
ghost use Rattle.cedar_scripts.specs.ScriptLines.{Says, SaysNone, is_idle, is_indented};
ghost use Rattle.cedar_scripts.specs.Spoken.{said_by};

use cedar_frames::Verb;

/// What a line of a script says.
#[derive(Clone, Copy, Debug)]
pub(crate) enum Line<'t> {
    /// Nothing: it is blank, or a comment.
    Nothing,
    /// A test of this name begins.
    Test(&'t str),
    /// A part of a command.
    Part(Part<'t>),
}

/// What a line says of a command.
#[derive(Clone, Copy, Debug)]
pub(crate) enum Part<'t> {
    /// It begins with this verb, and this is the first line of its body.
    Command(Verb, &'t str),
    /// The body of the command before goes on.
    Further(&'t str),
    /// The command before must be answered so.
    Expects(&'t str),
}

impl<'t> Line<'t> {
    /// What this line says, or `None` where it is nothing known.
    pub(crate) fn of(line: &'t str) -> Option<Line<'t>>
        ensures said { IfSome result (λ it. Says line.now (said_by it)) }
        ensures none { IfNone result (SaysNone line.now) }
    {
        if line.starts_with('#') || line.trim().is_empty() {
            Some(Line::Nothing)
        } else if line.starts_with(' ') || line.starts_with('\t') {
            Some(Line::Part(Part::Further(line)))
        } else {
            Line::of_words(line)
        }
    }

    fn of_words(line: &'t str) -> Option<Line<'t>>
        requires busy { is_idle line.now ≡ false }
        requires outer { is_indented line.now ≡ false }
        ensures said { IfSome result (λ it. Says line.now (said_by it)) }
        ensures none { IfNone result (SaysNone line.now) }
    {
        let (word, others) = line.split_once(' ').unwrap_or((line, ""));
        match word {
            "test" => Some(Line::Test(others)),
            "=>" => Some(Line::Part(Part::Expects(others))),
            _ => {
                let verb = Verb::named(word.as_bytes())?;
                Some(Line::Part(Part::Command(verb, others)))
            }
        }
    }
}
