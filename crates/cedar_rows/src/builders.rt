// The builder of the library, whose place is that of what it builds.
use crate::stack::{is_place, place, told_place};
use crate::trees::{made, variable};
use crate::{Answer, count_of, cut, has_each, mapped, no_case, paired, push, taken};
use cedar_builders::expr_builder::ExprBuilder as _;
use cedar_builders::own_builder::ExprBuilder;
use cedar_names::places::Loc;
use cedar_trees::expr::{Expr, ExprKind};
use std::alloc::{AllocError, Global};

fn beside(builder: ExprBuilder, expr: Option<&Expr>) -> Result<ExprBuilder, AllocError> {
    match expr {
        Some(expr) => builder.with_same_source_loc(expr),
        None => Ok(builder),
    }
}

fn at(builder: ExprBuilder, loc: Option<Loc>) -> ExprBuilder {
    match loc {
        Some(loc) => builder.with_source_loc(loc),
        None => builder,
    }
}

/// Moves the builder, and says where it stands then.
fn moved(
    alloc: Global,
    verb: &str,
    word: &str,
    stack: &[Expr],
    builder: &mut ExprBuilder,
) -> Answer {
    let loc = place(alloc, word)?;
    let copy = builder.clone()?;
    *builder = match verb {
        "with_same_source_loc" => beside(copy, stack.last())?,
        "with_source_loc" => at(copy, loc),
        "with_maybe_source_loc" => copy.with_maybe_source_loc(loc),
        _ => return no_case(alloc),
    };
    told_place(alloc, builder.loc())
}

/// The construct of the variable, at the builder's place.
fn construct(alloc: Global, word: &str, builder: ExprBuilder, stack: &mut Vec<Expr>) -> Answer {
    match variable(word) {
        Some(var) => push(
            alloc,
            stack,
            made(builder.with_expr_kind(ExprKind::Var(var))),
        ),
        None => no_case(alloc),
    }
}

/// A record of a map of these keys, whose expressions are on top.
fn record(alloc: Global, keys: &str, builder: ExprBuilder, stack: &mut Vec<Expr>) -> Answer {
    if !has_each(keys, stack) {
        return no_case(alloc);
    }
    let items = taken(alloc, count_of(keys), stack)?;
    let entries = mapped(alloc, paired(alloc, keys, items)?)?;
    push(alloc, stack, made(builder.record_arc(entries)))
}

/// What the builder makes, or where it stands once it was moved as the word before the place says.
pub fn answer(
    alloc: Global,
    kind: &str,
    words: &str,
    held: &mut ExprBuilder,
    stack: &mut Vec<Expr>,
) -> Answer {
    let (verb, word) = cut(words);
    match kind {
        "kind" => construct(alloc, verb, held.clone()?, stack),
        "record" => record(alloc, word, held.clone()?, stack),
        "move" if is_place(word) => moved(alloc, verb, word, stack, held),
        _ => no_case(alloc),
    }
}
