// Expressions by their constructors, and what they say of themselves.
use crate::stack::{is_place, place, told_place, top};
use crate::{
    Answer, Step, count_of, has, has_each, mapped, no_case, number, paired, push, said, taken,
};
use cedar_literals::literals::Literal;
use cedar_literals::operators::{BinaryOp, UnaryOp};
use cedar_literals::patterns::{Pattern, PatternElem};
use cedar_literals::slots::SlotId;
use cedar_literals::types::Type;
use cedar_literals::uids::{EntityType, EntityUID};
use cedar_literals::variables::Var;
use cedar_names::conversions::FromIn;
use cedar_names::errors::ParseNameError;
use cedar_names::names::Name;
use cedar_names::reading::FromNormalizedStr;
use cedar_trees::errors::ExpressionConstructionError;
use cedar_trees::expr::Expr;
use cedar_trees::unknowns::{NonEmpty, Unknown};
use std::alloc::{AllocError, Global};
use std::rc::{Rc, RcStr};

fn entity(alloc: Global, eid: &str) -> Result<Literal, ParseNameError> {
    let uid = EntityUID::with_eid_and_type(alloc, "User", eid)?;
    Ok(Literal::EntityUID(Rc::new(alloc, uid)?))
}

/// Whether the text writes a literal of this kind.
pub fn is_literal(verb: &str, text: &str) -> bool {
    match verb {
        "bool" => text == "true" || text == "false",
        "long" => text.parse::<i64>().is_ok(),
        "entity" | "text" => true,
        _ => false,
    }
}

/// The literal of this kind that the text writes, where `is_literal` says that it writes one.
pub fn literal(alloc: Global, verb: &str, text: &str) -> Result<Literal, ParseNameError> {
    match verb {
        "bool" => Ok(Literal::Bool(text == "true")),
        "long" => Ok(Literal::Long(text.parse::<i64>().unwrap_or(0))),
        "entity" => entity(alloc, text),
        _ => Ok(Literal::from_in(alloc, text)?),
    }
}

/// The variable of this name.
pub fn variable(text: &str) -> Option<Var> {
    match text {
        "principal" => Some(Var::Principal),
        "action" => Some(Var::Action),
        "resource" => Some(Var::Resource),
        "context" => Some(Var::Context),
        _ => None,
    }
}

/// The slot of the variable of this name.
pub fn slot(text: &str) -> Option<SlotId> {
    match text {
        "principal" => Some(SlotId::principal()),
        "resource" => Some(SlotId::resource()),
        _ => None,
    }
}

/// The type of this name, which is that of an entity where it names no other.
pub fn type_of(alloc: Global, text: &str) -> Result<Type, ParseNameError> {
    match text {
        "bool" => Ok(Type::Bool),
        "long" => Ok(Type::Long),
        "string" => Ok(Type::String),
        "set" => Ok(Type::Set),
        "record" => Ok(Type::Record),
        _ => Ok(Type::entity_type(Name::from_normalized_str(alloc, text)?)),
    }
}

/// The unknown of this name, and of the type where one is given.
pub fn unknown(alloc: Global, name: &str, ty: &str) -> Result<Unknown, ParseNameError> {
    let name = RcStr::from_str(alloc, name)?;
    if ty.is_empty() {
        return Ok(Unknown::new_untyped(name));
    }
    Ok(Unknown::new_with_type(name, type_of(alloc, ty)?))
}

fn leaf_of(literal: Result<Literal, ParseNameError>) -> Result<Expr, ParseNameError> {
    Ok(Expr::val(literal?))
}

fn unknown_of(unknown: Result<Unknown, ParseNameError>) -> Result<Expr, ParseNameError> {
    Ok(Expr::unknown(unknown?))
}

/// What needs no memory is made.
pub fn made(expr: Expr) -> Result<Expr, AllocError> {
    Ok(expr)
}

/// Puts the leaf that the words name on the stack.
fn leaf(alloc: Global, verb: &str, text: &str, ty: &str, stack: &mut Vec<Expr>) -> Answer {
    match (verb, variable(text), slot(text)) {
        ("var", Some(var), _) => push(alloc, stack, made(Expr::var(var))),
        ("slot", _, Some(slot)) => push(alloc, stack, made(Expr::slot(slot))),
        ("unknown", _, _) => push(alloc, stack, unknown_of(unknown(alloc, text, ty))),
        _ if is_literal(verb, text) => push(alloc, stack, leaf_of(literal(alloc, verb, text))),
        _ => no_case(alloc),
    }
}

/// The operator of this name on one operand.
pub fn unary_op(text: &str) -> Option<UnaryOp> {
    match text {
        "not" => Some(UnaryOp::Not),
        "neg" => Some(UnaryOp::Neg),
        "is_empty" => Some(UnaryOp::IsEmpty),
        _ => None,
    }
}

/// What was made, or none where no operator is written so.
type Found = Option<Result<Expr, AllocError>>;

fn of_one(alloc: Global, verb: &str, op: &str, arg: Expr) -> Found {
    match verb {
        "not" => Some(Expr::not(alloc, arg)),
        "neg" => Some(Expr::neg(alloc, arg)),
        "is_empty" => Some(Expr::is_empty(alloc, arg)),
        "unary_app" => Some(Expr::unary_app(alloc, unary_op(op)?, arg)),
        _ => None,
    }
}

/// An operator on the top of the stack.
fn unary(alloc: Global, verb: &str, op: &str, stack: &mut Vec<Expr>) -> Answer {
    let arg = top(stack);
    match of_one(alloc, verb, op, arg) {
        Some(made) => push(alloc, stack, made),
        None => no_case(alloc),
    }
}

fn of_two(alloc: Global, verb: &str, a: Expr, b: Expr) -> Found {
    match verb {
        "is_eq" => Some(Expr::is_eq(alloc, a, b)),
        "noteq" => Some(Expr::noteq(alloc, a, b)),
        "and" => Some(Expr::and(alloc, a, b)),
        "or" => Some(Expr::or(alloc, a, b)),
        "less" => Some(Expr::less(alloc, a, b)),
        "lesseq" => Some(Expr::lesseq(alloc, a, b)),
        "greater" => Some(Expr::greater(alloc, a, b)),
        "greatereq" => Some(Expr::greatereq(alloc, a, b)),
        "add" => Some(Expr::add(alloc, a, b)),
        "sub" => Some(Expr::sub(alloc, a, b)),
        "mul" => Some(Expr::mul(alloc, a, b)),
        _ => of_members(alloc, verb, a, b),
    }
}

fn of_members(alloc: Global, verb: &str, a: Expr, b: Expr) -> Found {
    match verb {
        "is_in" => Some(Expr::is_in(alloc, a, b)),
        "contains" => Some(Expr::contains(alloc, a, b)),
        "contains_all" => Some(Expr::contains_all(alloc, a, b)),
        "contains_any" => Some(Expr::contains_any(alloc, a, b)),
        "get_tag" => Some(Expr::get_tag(alloc, a, b)),
        "has_tag" => Some(Expr::has_tag(alloc, a, b)),
        "binary_app" => Some(Expr::binary_app(alloc, BinaryOp::Eq, a, b)),
        _ => None,
    }
}

/// An operator on the two on top, the second of which is its right operand.
fn binary(alloc: Global, verb: &str, stack: &mut Vec<Expr>) -> Answer {
    let b = top(stack);
    let a = top(stack);
    match of_two(alloc, verb, a, b) {
        Some(made) => push(alloc, stack, made),
        None => no_case(alloc),
    }
}

/// `if`, `then` and `else` of the three on top.
fn ternary(alloc: Global, stack: &mut Vec<Expr>) -> Answer {
    let c = top(stack);
    let b = top(stack);
    let a = top(stack);
    push(alloc, stack, Expr::ite(alloc, a, b, c))
}

/// The path of a text as `a.b.c`.
pub fn path(alloc: Global, text: &str) -> Result<NonEmpty<RcStr>, AllocError> {
    let (head, others) = text.split_once('.').unwrap_or((text, ""));
    let mut tail = Vec::new(alloc);
    if !others.is_empty() {
        for attr in others.split('.') {
            tail.push(RcStr::from_str(alloc, attr)?)?;
        }
    }
    let head = RcStr::from_str(alloc, head)?;
    Ok(NonEmpty { head, tail })
}

/// The pattern whose wildcards are the stars of the text.
pub fn pattern(alloc: Global, text: &str) -> Result<Pattern, AllocError> {
    let mut elems = Vec::new(alloc);
    for c in text.chars() {
        elems.push(match c {
            '*' => PatternElem::Wildcard,
            _ => PatternElem::Char(c),
        })?;
    }
    Ok(Pattern::from(Rc::new(alloc, elems)?))
}

fn of_type(
    alloc: Global,
    expr: Expr,
    ty: Result<EntityType, ParseNameError>,
) -> Result<Expr, ParseNameError> {
    Ok(Expr::is_entity_type(alloc, expr, ty?)?)
}

/// What is asked of an attribute of that on top, or whether it is like a pattern or of a type.
fn attribute(alloc: Global, verb: &str, word: &str, stack: &mut Vec<Expr>) -> Answer {
    match verb {
        "get_attr" => {
            let attr = RcStr::from_str(alloc, word)?;
            let expr = top(stack);
            push(alloc, stack, Expr::get_attr(alloc, expr, attr))
        }
        "has_attr" => {
            let attr = RcStr::from_str(alloc, word)?;
            let expr = top(stack);
            push(alloc, stack, Expr::has_attr(alloc, expr, attr))
        }
        "extended_has_attr" => {
            let attrs = path(alloc, word)?;
            let expr = top(stack);
            push(alloc, stack, Expr::extended_has_attr(alloc, expr, attrs))
        }
        "like" => {
            let pattern = pattern(alloc, word)?;
            let expr = top(stack);
            push(alloc, stack, Expr::like(alloc, expr, pattern))
        }
        "is_entity_type" => {
            let ty = EntityType::from_normalized_str(alloc, word);
            let expr = top(stack);
            push(alloc, stack, of_type(alloc, expr, ty))
        }
        _ => no_case(alloc),
    }
}

fn called(
    alloc: Global,
    name: Result<Name, ParseNameError>,
    args: Vec<Expr>,
) -> Result<Expr, ParseNameError> {
    Ok(Expr::call_extension_fn(alloc, name?, args)?)
}

/// A call of the function of this name on as many from the top as the word says.
fn call(alloc: Global, name: &str, count: &str, stack: &mut Vec<Expr>) -> Answer {
    if !has(count, stack) {
        return no_case(alloc);
    }
    let args = taken(alloc, number(count), stack)?;
    let name = Name::from_normalized_str(alloc, name);
    push(alloc, stack, called(alloc, name, args))
}

/// A set of as many from the top as the word says.
fn set(alloc: Global, count: &str, stack: &mut Vec<Expr>) -> Answer {
    if !has(count, stack) {
        return no_case(alloc);
    }
    let items = taken(alloc, number(count), stack)?;
    push(alloc, stack, Expr::set(alloc, items))
}

fn shared_record(
    alloc: Global,
    pairs: Vec<(RcStr, Expr)>,
) -> Result<Expr, ExpressionConstructionError> {
    Ok(Expr::record_arc(mapped(alloc, pairs)?))
}

/// A record of these keys, whose expressions are on top.
fn record(alloc: Global, verb: &str, keys: &str, stack: &mut Vec<Expr>) -> Answer {
    if !has_each(keys, stack) {
        return no_case(alloc);
    }
    let items = taken(alloc, count_of(keys), stack)?;
    let pairs = paired(alloc, keys, items)?;
    match verb {
        "record" => push(alloc, stack, Expr::record(alloc, pairs)),
        "record_arc" => push(alloc, stack, shared_record(alloc, pairs)),
        _ => no_case(alloc),
    }
}

fn moved(alloc: Global, word: &str, stack: &mut Vec<Expr>) -> Answer {
    let place = place(alloc, word)?;
    let expr = top(stack);
    push(alloc, stack, made(expr.with_maybe_source_loc(place)))
}

/// What the expression on top says of itself, and its copies.
fn asked(alloc: Global, verb: &str, word: &str, stack: &mut Vec<Expr>) -> Answer {
    if verb == "with_maybe_source_loc" && is_place(word) {
        return moved(alloc, word, stack);
    }
    let Some(expr) = stack.last() else {
        return no_case(alloc);
    };
    match verb {
        "to_string" => expr.to_string(alloc),
        "is_ref" => said(alloc, expr.is_ref()),
        "is_slot" => said(alloc, expr.is_slot()),
        "is_ref_set" => said(alloc, expr.is_ref_set()),
        "source_loc" => told_place(alloc, expr.source_loc()),
        "clone" => {
            let copy = expr.clone(alloc);
            push(alloc, stack, copy)
        }
        _ => no_case(alloc),
    }
}

/// What a section of steps makes of expressions, or asks of the one on top.
pub fn answer(alloc: Global, section: &str, step: &Step<'_>, stack: &mut Vec<Expr>) -> Answer {
    let (verb, one, other) = (step.verb, step.one.as_str(), step.other.as_str());
    match section {
        "leaf" => leaf(alloc, verb, one, other, stack),
        "ask" => asked(alloc, verb, one, stack),
        "unary" => unary(alloc, verb, one, stack),
        "binary" => binary(alloc, verb, stack),
        "ternary" if verb == "ite" => ternary(alloc, stack),
        "attribute" => attribute(alloc, verb, one, stack),
        "set" => set(alloc, verb, stack),
        "record" => record(alloc, verb, one, stack),
        "call" => call(alloc, verb, one, stack),
        _ => no_case(alloc),
    }
}
