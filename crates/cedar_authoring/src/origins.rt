// Where policies were loaded from.
ghost use Rattle.std.specs.Prelude.{◌≡◌};

use cedar_messages::places::{Places, Position};
use cedar_names::places::Loc;
use cedar_scripts::Step;

/// The places of a text of policies, the name by which it is told of, and how many lines and columns stand before it.
#[derive(Clone, Copy)]
pub(crate) struct Origin<'o, 't> {
    pub(crate) name: &'o str,
    places: &'o Places<'t>,
    pub(crate) lines: usize,
    columns: usize,
}

impl<'o, 't> Origin<'o, 't> {
    /// A text that is told of by itself, by this name.
    pub(crate) fn of(name: &'o str, places: &'o Places<'t>) -> Origin<'o, 't>
        ensures { result.name.now ≡ name.now }
    {
        Origin {
            name,
            places,
            lines: 0,
            columns: 0,
        }
    }

    /// The body of a command: in the file that has it, or else behind its verb in the script of this name.
    pub(crate) fn of_step(
        script: &'o str,
        step: &'o Step,
        places: &'o Places<'t>,
    ) -> Origin<'o, 't> {
        match &step.file {
            Some(file) => Origin::of(file.as_str(), places),
            None => Origin {
                name: script,
                places,
                lines: step.line.saturating_sub(1),
                columns: step.verb.name().len().saturating_add(1),
            },
        }
    }

    /// Where this stands, if its place is known.
    pub(crate) fn place(self, loc: Option<&Loc>) -> Option<Position> {
        let at = self.places.position(loc?.start());
        let columns = if at.line == 1 { self.columns } else { 0 };
        Some(Position {
            line: at.line.saturating_add(self.lines),
            column: at.column.saturating_add(columns),
        })
    }
}
