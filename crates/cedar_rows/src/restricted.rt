// Restricted expressions on a stack of their own, and what is read of the one on its top.
use crate::trees::unknown;
use crate::values::{Stack, rank};
use crate::{
    Answer, count_of, has, has_each, maybe, no_case, number, paired, push, refused, said, show,
    taken,
};
use cedar_names::conversions::FromIn;
use cedar_names::errors::ParseNameError;
use cedar_names::names::Name;
use cedar_names::reading::FromNormalizedStr;
use cedar_restricted::elements::RestrictedElements;
use cedar_restricted::errors::RestrictedExpressionError;
use cedar_restricted::partial_values::PartialValue;
use cedar_restricted::restricted::RestrictedExpr;
use cedar_restricted::shapes::RestrictedExprShapeOnly;
use cedar_shapes::types::FunctionTypes;
use cedar_trees::expr::Expr;
use cedar_trees::unknowns::Unknown;
use cedar_values::extension_values::RepresentableExtensionValue;
use cedar_values::values::ValueKind;
use std::alloc::{AllocError, Global};
use std::convert::AsRef;
use std::fmt::Display;

pub type Restricted = Vec<RestrictedExpr>;

/// Puts what was made on the stack, which is told as an expression.
fn put<T: AsRef<Expr> + Drop, E: Display + Drop>(
    alloc: Global,
    stack: &mut Vec<T>,
    found: Result<T, E>,
) -> Answer {
    match found {
        Ok(made) => {
            let text = made.as_ref().to_string(alloc)?;
            stack.push(made)?;
            Ok(text)
        }
        Err(error) => refused(alloc, error),
    }
}

fn of_unknown(unknown: Result<Unknown, ParseNameError>) -> Result<RestrictedExpr, ParseNameError> {
    Ok(RestrictedExpr::unknown(unknown?))
}

/// A construct of those on top: as many as the word says, or as it has keys; or an unknown of this name.
pub fn joined(alloc: Global, verb: &str, word: &str, name: &str, stack: &mut Restricted) -> Answer {
    match verb {
        "unknown" => put(alloc, stack, of_unknown(unknown(alloc, word, ""))),
        "set" if has(word, stack) => {
            let items = taken(alloc, number(word), stack)?;
            put(alloc, stack, RestrictedExpr::set(alloc, items))
        }
        "record" if has_each(word, stack) => {
            let items = taken(alloc, count_of(word), stack)?;
            let pairs = paired(alloc, word, items)?;
            put(alloc, stack, RestrictedExpr::record(alloc, pairs))
        }
        "call" if has(word, stack) => {
            let args = taken(alloc, number(word), stack)?;
            put(alloc, stack, called(alloc, name, args))
        }
        _ => no_case(alloc),
    }
}

fn called(
    alloc: Global,
    name: &str,
    args: Vec<RestrictedExpr>,
) -> Result<RestrictedExpr, ParseNameError> {
    let name = Name::from_normalized_str(alloc, name)?;
    Ok(RestrictedExpr::call_extension_fn(alloc, name, args)?)
}

fn of_kind(
    alloc: Global,
    kind: Result<ValueKind, AllocError>,
) -> Result<RestrictedExpr, AllocError> {
    RestrictedExpr::from_in(alloc, kind?)
}

/// What writes the value on top of the stack of values.
pub fn of_values(alloc: Global, verb: &str, values: &mut Stack, stack: &mut Restricted) -> Answer {
    match (verb, values.pop()) {
        ("kind", Some(value)) => put(
            alloc,
            stack,
            of_kind(alloc, value.value_kind().clone(alloc)),
        ),
        ("value", Some(value)) => put(alloc, stack, RestrictedExpr::from_in(alloc, value)),
        _ => no_case(alloc),
    }
}

fn of_rank(
    alloc: Global,
    value: Result<RepresentableExtensionValue, ParseNameError>,
) -> Result<RestrictedExpr, ParseNameError> {
    Ok(RestrictedExpr::from_in(alloc, value?)?)
}

pub fn ranked(alloc: Global, text: &str, key: &str, func: &str, stack: &mut Restricted) -> Answer {
    put(alloc, stack, of_rank(alloc, rank(alloc, key, func, text)))
}

/// What the partial value on top of their stack is.
pub fn of_partials(
    alloc: Global,
    partials: &mut Vec<PartialValue>,
    stack: &mut Restricted,
) -> Answer {
    match partials.pop() {
        Some(partial) => put(alloc, stack, RestrictedExpr::from_in(alloc, partial)),
        None => no_case(alloc),
    }
}

/// Of the expression on top of their stack, or back.
pub fn of_exprs(
    alloc: Global,
    verb: &str,
    exprs: &mut Vec<Expr>,
    stack: &mut Restricted,
) -> Answer {
    match verb {
        "into" => match stack.pop() {
            Some(made) => push(alloc, exprs, Ok::<_, AllocError>(Expr::from(made))),
            None => no_case(alloc),
        },
        "new" => match exprs.pop() {
            Some(expr) => put(alloc, stack, RestrictedExpr::new(alloc, expr)),
            None => no_case(alloc),
        },
        "why" => match exprs.pop() {
            Some(expr) => why(alloc, RestrictedExpr::new(alloc, expr)),
            None => no_case(alloc),
        },
        _ => no_case(alloc),
    }
}

/// A copy of the error of what is no restricted expression.
fn why(alloc: Global, made: Result<RestrictedExpr, RestrictedExpressionError>) -> Answer {
    match made {
        Ok(made) => made.to_string(alloc),
        Err(error) => show(alloc, error.clone(alloc)),
    }
}

/// A copy of that on top, or of what it lends.
pub fn again(alloc: Global, verb: &str, stack: &mut Restricted) -> Answer {
    let Some(top) = stack.last() else {
        return no_case(alloc);
    };
    let made = match verb {
        "copy" => top.clone(alloc),
        "owned" => top.as_borrowed().to_owned(alloc),
        _ => return no_case(alloc),
    };
    put(alloc, stack, made)
}

/// Whether the shapes of the two on top are one.
pub fn compared(alloc: Global, stack: &Restricted) -> Answer {
    let [.., low, high] = stack.as_slice() else {
        return no_case(alloc);
    };
    let low = RestrictedExprShapeOnly::new(low.as_borrowed());
    let high = RestrictedExprShapeOnly::new(high.as_borrowed());
    said(alloc, low == high)
}

/// What that on top is read as, or its text.
pub fn read(alloc: Global, verb: &str, stack: &Restricted) -> Answer {
    let Some(top) = stack.last() else {
        return no_case(alloc);
    };
    match verb {
        "unknown" => maybe(alloc, top.as_unknown()),
        "call" => call(alloc, top.as_extn_fn_call()),
        "shown" => top.to_string(alloc),
        _ => no_case(alloc),
    }
}

/// The same of what is lent, and the type that it shows with the functions of a table.
pub fn read_lent<F: FunctionTypes>(
    alloc: Global,
    verb: &str,
    stack: &Restricted,
    table: &F,
) -> Answer {
    let Some(top) = stack.last() else {
        return no_case(alloc);
    };
    let top = top.as_borrowed();
    match verb {
        "type" => maybe(alloc, top.try_type_of(alloc, table)?),
        "unknown" => maybe(alloc, top.as_unknown()),
        "call" => call(alloc, top.as_extn_fn_call()),
        "shown" => top.to_string(alloc),
        _ => no_case(alloc),
    }
}

fn call(alloc: Global, call: Option<(&Name, RestrictedElements<'_>)>) -> Answer {
    let Some((name, args)) = call else {
        return String::from_str(alloc, "none");
    };
    let mut text = name.to_string(alloc)?;
    for arg in args {
        crate::put(&mut text, " ", arg.as_expr().to_string(alloc))?;
    }
    Ok(text)
}
