// Calls on nodes of numbers, and on nodes that may be empty.
use cedar_cst::errors::{EmptyNodeError, PlacedError};
use cedar_cst::node::Node;
use cedar_names::places::{Loc, Span};
use cedar_rows::{Answer, index, no_case, tell};
use std::alloc::{AllocError, Global};
use std::fmt::Debug;
use std::rc::RcStr;

/// The place from this byte up to the end of `ab`; none where the word is no number.
fn place(alloc: Global, start: &str) -> Result<Option<Loc>, AllocError> {
    let Some(start) = index(start) else {
        return Ok(None);
    };
    let src = RcStr::from_str(alloc, "ab")?;
    Ok(Some(Loc::new(alloc, Span { start, end: 2 }, src)?))
}

/// The node's value, and where it starts.
fn told<T: Debug + Drop>(alloc: Global, node: Node<T>) -> Answer {
    let (value, loc) = node.into_inner();
    let start = loc.as_ref().map(|loc| loc.start());
    format!(in alloc; "({value:?}, {start:?})")
}

fn half(value: u64) -> u64 {
    value / 2
}

/// What is made of a number, which starts at the byte behind a sign.
pub(crate) fn of_number(alloc: Global, verb: &str, text: &str) -> Answer {
    let (text, start) = text.split_once('@').unwrap_or((text, ""));
    let (Ok(number), loc) = (text.parse::<u64>(), place(alloc, start)?) else {
        return no_case(alloc);
    };
    if verb == "bare" {
        return told(alloc, Node::new(number));
    }
    let mut node: Node<u64> = Node::with_maybe_source_loc(number, loc);
    match verb {
        "made" => told(alloc, node),
        "written" => {
            *node.as_mut(alloc)?.node = 4;
            told(alloc, node)
        }
        "copied" => told(alloc, node.as_ref(alloc)?.copied()),
        "cloned" => told(alloc, node.as_ref(alloc)?.cloned(alloc)?),
        "halved" => told(alloc, node.map(half)),
        "faulty" => {
            let fault: PlacedError<&'static str> = node.to_ast_err(alloc, "odd")?;
            fault.to_string(alloc)
        }
        "parts" => {
            let (value, loc) = node.into_inner();
            told(alloc, Node::with_maybe_source_loc(value, loc))
        }
        _ => no_case(alloc),
    }
}

fn is_placed(_value: &u64, loc: Option<&Loc>) -> Option<bool> {
    Some(loc.is_some())
}

fn without_place(value: u64, _loc: Option<Loc>) -> Option<u64> {
    Some(value)
}

/// What is made of a node that is empty where no number is written.
pub(crate) fn of_maybe(alloc: Global, verb: &str, text: &str) -> Answer {
    let (text, start) = text.split_once('@').unwrap_or((text, ""));
    let node = Node::with_maybe_source_loc(text.parse::<u64>().ok(), place(alloc, start)?);
    match verb {
        "lent" => match node.collapse(alloc)? {
            Some(lent) => told(alloc, lent),
            None => String::from_str(alloc, "nothing"),
        },
        "is-placed" => tell(alloc, node.apply(is_placed)),
        "applied" => tell(alloc, node.into_apply(without_place)),
        "inner" => inner(alloc, node.try_as_inner(alloc)),
        "taken" => inner(alloc, node.try_into_inner()),
        _ => no_case(alloc),
    }
}

/// The value, or why there is none, and where.
fn inner<T: Debug + Drop>(alloc: Global, found: Result<T, EmptyNodeError>) -> Answer {
    match &found {
        Ok(value) => format!(in alloc; "{value:?}"),
        Err(error) => match error {
            EmptyNodeError::Empty(Some(loc)) => {
                format!(in alloc; "{error} at {}..{}", loc.start(), loc.end())
            }
            _ => error.to_string(alloc),
        },
    }
}
