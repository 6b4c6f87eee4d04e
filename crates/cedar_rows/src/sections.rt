// Which section knows a step of the layer of expressions, and what steps leave to later ones.
use crate::restricted::Restricted;
use crate::stack::{is_place, place};
use crate::values::Stack;
use crate::{
    Answer, Step, builders, cut, errors, extensions, names, partial_values, raw_names, read,
    restricted, shapes, substitution, trees, values,
};
use cedar_builders::expr_builder::ExprBuilder as _;
use cedar_builders::own_builder::ExprBuilder;
use cedar_extensions::extensions::Extensions;
use cedar_restricted::partial_values::PartialValue;
use cedar_trees::expr::Expr;
use cedar_values::values::Value;
use std::alloc::Global;
use std::collections::BTreeMap;
use std::rc::RcStr;

/// The stacks of a line, which are empty where it begins, and what is told, the builder and the table, which stay.
pub struct Held {
    stack: Vec<Expr>,
    values: Stack,
    restricted: Restricted,
    partials: Vec<PartialValue>,
    told_exprs: BTreeMap<RcStr, Expr>,
    told_values: BTreeMap<RcStr, Value>,
    builder: ExprBuilder,
    table: Extensions<'static>,
}

impl Drop for Held {
    fn drop(self) {
        let Held {
            stack: _,
            values: _,
            restricted: _,
            partials: _,
            told_exprs: _,
            told_values: _,
            builder: _,
            table: _,
        } = self;
    }
}

/// Nothing was made yet.
pub fn none(alloc: Global) -> Held {
    Held {
        stack: Vec::new(alloc),
        values: Vec::new(alloc),
        restricted: Vec::new(alloc),
        partials: Vec::new(alloc),
        told_exprs: BTreeMap::new(alloc),
        told_values: BTreeMap::new(alloc),
        builder: ExprBuilder::new(alloc),
        table: Extensions::none(alloc),
    }
}

/// The section that knows a verb of names and types, which keeps nothing.
fn named(alloc: Global, section: &str, step: &Step<'_>, held: &mut Held) -> Answer {
    let (verb, one, other) = (step.verb, step.one.as_str(), step.other.as_str());
    match section {
        "names" => names::read(alloc, verb, one),
        "joined" => names::joined(alloc, verb, one, other),
        "conversions" => names::converted(alloc, verb, one),
        "in-namespace" => names::in_namespace(alloc, verb, one),
        "places" if verb == "snippet" => names::snippet(alloc, one, other),
        "raw" => raw_names::answer(alloc, verb, one),
        "uids" => names::uids(alloc, verb, one),
        "types" => names::types(alloc, verb, one, other),
        "twice" => extensions::refusal(alloc, verb, one),
        "error" if is_place(other) => errors::answer(alloc, verb, one, place(alloc, other)?),
        _ => of_trees(alloc, section, step, held),
    }
}

/// That of expressions.
fn of_trees(alloc: Global, section: &str, step: &Step<'_>, held: &mut Held) -> Answer {
    let (verb, one, other) = (step.verb, step.one.as_str(), step.other.as_str());
    let stack = &mut held.stack;
    match section {
        "shapes" if verb == "only_eq" => shapes::compared(alloc, stack),
        "walk" => shapes::walked(alloc, verb, stack, &held.table),
        "build" => builders::answer(alloc, verb, one, &mut held.builder, stack),
        "tell-expr" => substitution::tell_expr(alloc, verb, stack, &mut held.told_exprs),
        "rebuild" => substitution::rebuilt(alloc, verb, stack, &held.told_exprs),
        "substitute" => substitution::substituted(alloc, verb, stack, &held.told_values),
        "stand" => substitution::one(alloc, verb, one, other, stack, &held.told_values),
        "take" => extensions::taken(alloc, verb, one, other, &mut held.table),
        "table" => extensions::sought(alloc, verb, one, &held.table),
        _ => of_values(alloc, section, step, held),
    }
}

/// That of values, partial values and restricted expressions.
fn of_values(alloc: Global, section: &str, step: &Step<'_>, held: &mut Held) -> Answer {
    let (verb, one, other) = (step.verb, step.one.as_str(), step.other.as_str());
    let (stack, values, partials) = (&mut held.stack, &mut held.values, &mut held.partials);
    match section {
        "value" => values::made(alloc, verb, one, values),
        "make-rank" => values::ranked(alloc, verb, one, other, values),
        "top" => values::asked(alloc, verb, one, values),
        "tell" => substitution::tell_value(alloc, verb, values, &mut held.told_values),
        "function" => extensions::asked(alloc, verb, one, other, values),
        "write" => partial_values::written(alloc, verb, values, stack),
        "read" => partial_values::read(alloc, verb, stack, values),
        "partial" => partial_values::partial(alloc, verb, one, stack, values, partials),
        "convert" => partial_values::converted(alloc, verb, one, stack, values, partials),
        "restricted" => restricted::joined(alloc, verb, one, other, &mut held.restricted),
        "restricted-value" => restricted::of_values(alloc, verb, values, &mut held.restricted),
        "restricted-rank" => restricted::ranked(alloc, verb, one, other, &mut held.restricted),
        "restricted-partial" => restricted::of_partials(alloc, partials, &mut held.restricted),
        "restricted-expr" => restricted::of_exprs(alloc, verb, stack, &mut held.restricted),
        "restricted-two" if verb == "shapes" => restricted::compared(alloc, &held.restricted),
        "again" => restricted::again(alloc, verb, &mut held.restricted),
        "as" => restricted::read(alloc, verb, &held.restricted),
        "lent-as" => restricted::read_lent(alloc, verb, &held.restricted, &held.table),
        _ => trees::answer(alloc, section, step, stack),
    }
}

fn answered(alloc: Global, step: &str, held: &mut Held) -> Answer {
    let (section, rest) = cut(step);
    let step = read(alloc, rest)?;
    named(alloc, section, &step, held)
}

/// Empties the stacks.
fn clear(held: &mut Held) {
    held.stack.clear();
    held.values.clear();
    held.restricted.clear();
    held.partials.clear();
}

/// What the last step of a line answers. Refused for memory alone.
pub fn answer(alloc: Global, line: &str, held: &mut Held) -> Answer {
    clear(held);
    let mut answer = String::new(alloc);
    for step in line.split("; ") {
        answer = answered(alloc, step, held)?;
    }
    Ok(answer)
}
