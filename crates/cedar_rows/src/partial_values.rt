// Values that are written as expressions and read back, and partial values.
use crate::stack::{is_place, place, told_place, top};
use crate::trees::unknown;
use crate::{Answer, no_case, push, show};
use cedar_names::conversions::FromIn;
use cedar_names::errors::ParseNameError;
use cedar_restricted::from_expr::{NotValue, TryFromExpr};
use cedar_restricted::partial_values::PartialValue;
use cedar_restricted::to_expr::ToExpr;
use cedar_trees::expr::Expr;
use cedar_trees::unknowns::Unknown;
use cedar_values::values::{Value, ValueKind};
use std::alloc::Global;

/// Puts what writes the value on top on the stack of expressions.
pub fn written(alloc: Global, verb: &str, values: &[Value], stack: &mut Vec<Expr>) -> Answer {
    let Some(value) = values.last() else {
        return no_case(alloc);
    };
    match (verb, value.value_kind()) {
        ("kind", kind) => push(alloc, stack, kind.to_expr(alloc)),
        ("rank", ValueKind::ExtensionValue(rank)) => push(alloc, stack, rank.to_expr(alloc)),
        ("value", _) => push(alloc, stack, value.to_expr(alloc)),
        _ => no_case(alloc),
    }
}

fn kind_read(kind: Result<ValueKind, NotValue>) -> Result<Value, NotValue> {
    Ok(Value::new(kind?, None))
}

/// Puts the value that is read of the expression on top on the stack of values.
pub fn read(alloc: Global, verb: &str, stack: &[Expr], values: &mut Vec<Value>) -> Answer {
    let Some(expr) = stack.last() else {
        return no_case(alloc);
    };
    match verb {
        "kind" => push(
            alloc,
            values,
            kind_read(ValueKind::try_from_expr(alloc, expr)),
        ),
        "value" => push(alloc, values, Value::try_from_expr(alloc, expr)),
        _ => no_case(alloc),
    }
}

pub fn told(alloc: Global, partial: &PartialValue) -> Answer {
    match partial {
        PartialValue::Value(value) => {
            let place = told_place(alloc, value.source_loc())?;
            format!(in alloc; "value {value} {place}")
        }
        PartialValue::Residual(expr) => {
            let place = told_place(alloc, expr.source_loc())?;
            format!(in alloc; "residual {expr} {place}")
        }
    }
}

fn hold(alloc: Global, partial: PartialValue, partials: &mut Vec<PartialValue>) -> Answer {
    let text = told(alloc, &partial)?;
    partials.push(partial)?;
    Ok(text)
}

fn hold_unknown(
    alloc: Global,
    unknown: Result<Unknown, ParseNameError>,
    partials: &mut Vec<PartialValue>,
) -> Answer {
    match unknown {
        Ok(unknown) => hold(alloc, PartialValue::unknown(unknown), partials),
        Err(error) => error.to_string(alloc),
    }
}

/// A partial value of a value, of an expression, or of the name of an unknown.
pub fn partial(
    alloc: Global,
    verb: &str,
    word: &str,
    stack: &mut Vec<Expr>,
    values: &mut Vec<Value>,
    partials: &mut Vec<PartialValue>,
) -> Answer {
    match verb {
        "value" => match values.pop() {
            Some(value) => hold(alloc, PartialValue::from(value), partials),
            None => no_case(alloc),
        },
        "expr" => hold(alloc, PartialValue::from(top(stack)), partials),
        "unknown" => hold_unknown(alloc, unknown(alloc, word, ""), partials),
        _ => no_case(alloc),
    }
}

/// The partial value on top stands at a place.
fn moved(alloc: Global, word: &str, partials: &mut Vec<PartialValue>) -> Answer {
    let place = place(alloc, word)?;
    match partials.pop() {
        Some(partial) => hold(alloc, partial.with_maybe_source_loc(place), partials),
        None => no_case(alloc),
    }
}

/// What is made of the partial value on top.
pub fn converted(
    alloc: Global,
    verb: &str,
    word: &str,
    stack: &mut Vec<Expr>,
    values: &mut Vec<Value>,
    partials: &mut Vec<PartialValue>,
) -> Answer {
    if verb == "placed" && is_place(word) {
        return moved(alloc, word, partials);
    }
    let Some(partial) = partials.pop() else {
        return no_case(alloc);
    };
    match verb {
        "to_expr" => push(alloc, stack, partial.to_expr(alloc)),
        "from_in" => push(alloc, stack, Expr::from_in(alloc, partial)),
        "value" => push(alloc, values, Value::try_from(partial)),
        "copied" => told(alloc, &partial.clone(alloc)?),
        "why" => match Value::try_from(partial) {
            Ok(value) => value.to_string(alloc),
            Err(error) => show(alloc, error.clone(alloc)),
        },
        _ => no_case(alloc),
    }
}
