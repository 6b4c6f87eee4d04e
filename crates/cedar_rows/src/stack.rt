// The top of the stack, and places.
use crate::{Answer, index};
use cedar_literals::variables::Var;
use cedar_names::places::{Loc, Span};
use cedar_trees::expr::Expr;
use std::alloc::{AllocError, Global};
use std::rc::RcStr;

/// The top of the stack; `context` where there is none.
pub fn top(stack: &mut Vec<Expr>) -> Expr {
    match stack.pop() {
        Some(expr) => expr,
        None => Expr::var(Var::Context),
    }
}

/// Whether a word is a place as `3-4`, or empty.
pub fn is_place(word: &str) -> bool {
    match word.split_once('-') {
        Some((start, end)) => index(start).is_some() && index(end).is_some(),
        None => word.is_empty(),
    }
}

/// The place of a word as `3-4`; none of another word, which a step has to refuse by itself.
pub fn place(alloc: Global, word: &str) -> Result<Option<Loc>, AllocError> {
    let Some((start, end)) = word.split_once('-') else {
        return Ok(None);
    };
    let (Some(start), Some(end)) = (index(start), index(end)) else {
        return Ok(None);
    };
    let src = RcStr::from_str(alloc, "a == b")?;
    Ok(Some(Loc::new(alloc, Span { start, end }, src)?))
}

/// The place as `3-4`, or `nowhere`.
pub fn told_place(alloc: Global, place: Option<&Loc>) -> Answer {
    match place {
        Some(loc) => format!(in alloc; "{}-{}", loc.start(), loc.end()),
        None => String::from_str(alloc, "nowhere"),
    }
}
