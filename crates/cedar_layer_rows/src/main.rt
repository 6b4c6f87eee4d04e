//! Answers lines of steps, layer by layer: behind a line `layer NAME` stand lines of that layer. Each is printed
//! again with its answer. Printed alone are a line that names a layer, one that begins with `#` and says what the
//! next ones show, and a blank one.
#![tactic(auto)]

mod devices;
mod ranks;
mod runs;
mod sessions;
mod words;

use crate::ranks::Tables;
use cedar_rows::{Answer, no_case};
use std::alloc::{AllocError, Global};
use std::io;

/// What earlier lines of each layer left.
struct Held<'e, 'f> {
    expressions: cedar_rows::Held,
    parser: cedar_parser_rows::Held,
    evaluation: cedar_evaluation_rows::Held,
    session: sessions::Held<'e, 'f>,
}

impl Drop for Held<'_, '_> {
    fn drop(self) {
        let Held {
            expressions: _,
            parser: _,
            evaluation: _,
            session: _,
        } = self;
    }
}

fn beside<'e, 'f>(
    alloc: Global,
    session: sessions::Held<'e, 'f>,
) -> Result<Held<'e, 'f>, AllocError> {
    Ok(Held {
        expressions: cedar_rows::none(alloc),
        parser: cedar_parser_rows::none(alloc),
        evaluation: cedar_evaluation_rows::none(alloc)?,
        session,
    })
}

/// What the layer of this name answers.
fn answered(alloc: Global, layer: &str, line: &str, held: &mut Held<'_, '_>) -> Answer {
    match layer {
        "expressions" => cedar_rows::answer(alloc, line, &mut held.expressions),
        "parser" => cedar_parser_rows::answer(alloc, line, &mut held.parser),
        "evaluation" => cedar_evaluation_rows::answer(alloc, line, &mut held.evaluation),
        "session" => sessions::answer(alloc, line, &mut held.session),
        _ => no_case(alloc),
    }
}

fn main(rt: HostRuntime) -> io::Result<()> {
    let Ok(tables) = Tables::new(rt.alloc()) else {
        return println!(rt; "no tables");
    };
    let Ok(session) = sessions::none(rt.alloc(), &tables) else {
        return println!(rt; "no session");
    };
    let mut held = beside(rt.alloc(), session)?;
    let mut layer = String::new(rt.alloc());
    for line in rt.lines(rt.alloc()) {
        let line = line?;
        if let Some(name) = line.as_str().strip_prefix("layer ") {
            layer = String::from_str(rt.alloc(), name)?;
            println!(rt; "{line}")?;
        } else if line.as_str().starts_with("#") {
            println!(rt; "{line}")?;
        } else {
            let answer = answered(rt.alloc(), layer.as_str(), line.as_str(), &mut held)?;
            if line.is_empty() {
                println!(rt; "")?;
            } else {
                println!(rt; "{line} => {answer}")?;
            }
        }
    }
    Ok(())
}
