//! What lines of steps of the layer of entities, policies and evaluation answer: a step is a section, a verb, and words
//! with a bar between. Expressions and policies are read from texts. What a step makes is kept, or stands on a stack; a
//! line's answer is that of its last step.
#![tactic(auto)]

mod entities;
mod evaluators;
mod policies;
mod refusing;
mod requests;
mod responses;
mod sets;
mod templates;

use crate::entities::Stores;
use crate::requests::Requests;
use crate::sets::Sets;
use cedar_extensions::extensions::Extensions;
use cedar_restricted::from_expr::TryFromExpr;
use cedar_rows::{Answer, Step, no_case, refused, tell};
use cedar_trees::expr::Expr;
use cedar_values::values::Value;
use std::alloc::{AllocError, Global};
use std::collections::BTreeMap;
use std::rc::RcStr;

/// What earlier steps left. The stack of expressions, and what is told, are empty where a line begins.
pub struct Held {
    stores: Stores,
    sets: Sets,
    requests: Requests,
    exprs: Vec<Expr>,
    told: BTreeMap<RcStr, Value>,
    table: Extensions<'static>,
}

impl Drop for Held {
    fn drop(self) {
        let Held {
            stores: _,
            sets: _,
            requests: _,
            exprs: _,
            told: _,
            table: _,
        } = self;
    }
}

/// Nothing was made yet. Refused for memory alone.
pub fn none(alloc: Global) -> Result<Held, AllocError> {
    Ok(Held {
        stores: entities::none(alloc),
        sets: sets::none(alloc),
        requests: requests::none(alloc),
        exprs: Vec::new(alloc),
        told: BTreeMap::new(alloc),
        table: Extensions::all_available(alloc)?,
    })
}

/// Tells the value of this name that the expression on top writes.
fn told(
    alloc: Global,
    name: &str,
    exprs: &mut Vec<Expr>,
    told: &mut BTreeMap<RcStr, Value>,
) -> Answer {
    let name = RcStr::from_str(alloc, name)?;
    let Some(expr) = exprs.pop() else {
        return no_case(alloc);
    };
    match Value::try_from_expr(alloc, &expr) {
        Ok(value) => {
            told.insert(name, value)?;
            tell(alloc, told.len())
        }
        Err(error) => refused(alloc, error),
    }
}

/// The section that knows a verb of entities, policies and their sets.
fn stored(alloc: Global, section: &str, step: &Step<'_>, held: &mut Held) -> Answer {
    let (verb, one, other) = (step.verb, step.one.as_str(), step.other.as_str());
    let (exprs, table, sets) = (&mut held.exprs, &held.table, &mut held.sets);
    match section {
        "expr" => evaluators::read(alloc, verb, one, table, exprs),
        "part" => entities::part(alloc, verb, one, exprs, &mut held.stores),
        "make" => entities::make(alloc, verb, one, other, table, &mut held.stores),
        "entity" => entities::ask(alloc, verb, one, table, &mut held.stores),
        "store" => entities::fill(alloc, verb, one, table, &mut held.stores),
        "policies" if verb == "read" => sets::read(alloc, one, table, sets),
        "edit" => sets::edit(alloc, verb, one, other, exprs, sets),
        "set" => sets::ask(alloc, verb, table, sets),
        "merged" => sets::merge(alloc, verb, sets),
        "template" => templates::of_template(alloc, verb, one, table, sets),
        "policy" => templates::of_policy(alloc, verb, one, sets),
        _ => evaluated(alloc, section, step, held),
    }
}

/// That of evaluations, requests and responses.
fn evaluated(alloc: Global, section: &str, step: &Step<'_>, held: &mut Held) -> Answer {
    let (verb, one, other) = (step.verb, step.one.as_str(), step.other.as_str());
    let (exprs, store, table) = (&mut held.exprs, &held.stores.store, &held.table);
    match section {
        "evaluate" => evaluators::answer(alloc, verb, one, other, exprs, store, table),
        "restricted" => evaluators::restricted(alloc, verb, one, exprs, table),
        "policies" => policies::answer(alloc, verb, one, other, &held.sets.set, store, table),
        "told" => policies::told(alloc, verb, &held.told, &held.sets.set, store, table),
        "made" => responses::answer(alloc, verb, one),
        "request" => requests::answer(
            alloc,
            verb,
            one,
            other,
            exprs,
            &held.told,
            table,
            &mut held.requests,
        ),
        "tell" => told(alloc, verb, exprs, &mut held.told),
        _ => no_case(alloc),
    }
}

fn answered(alloc: Global, step: &str, held: &mut Held) -> Answer {
    let (section, rest) = cedar_rows::cut(step);
    let step = cedar_rows::read(alloc, rest)?;
    stored(alloc, section, &step, held)
}

/// What the last step of a line answers. Refused for memory alone.
pub fn answer(alloc: Global, line: &str, held: &mut Held) -> Answer {
    held.exprs.clear();
    held.told.clear();
    let mut answer = String::new(alloc);
    for step in line.split("; ") {
        answer = answered(alloc, step, held)?;
    }
    Ok(answer)
}
