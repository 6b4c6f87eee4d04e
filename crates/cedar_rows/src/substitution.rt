// What is told of unknowns, and expressions with what is told in their places.
use crate::stack::top;
use crate::trees::unknown;
use crate::{Answer, no_case, push, tell};
use cedar_builders::own_builder::ExprBuilder;
use cedar_substitution::functions::{SubstitutionFunction, TypedSubstitution, UntypedSubstitution};
use cedar_substitution::into_expr::IntoExpr;
use cedar_substitution::substitution::SubstituteExprs;
use cedar_substitution::told_values::Substitute;
use cedar_trees::errors::ExpressionConstructionError;
use cedar_trees::expr::Expr;
use cedar_trees::unknowns::Unknown;
use cedar_values::values::Value;
use std::alloc::Global;
use std::collections::BTreeMap;
use std::rc::RcStr;

/// Tells the value on top of this name.
pub fn tell_value(
    alloc: Global,
    name: &str,
    values: &mut Vec<Value>,
    told: &mut BTreeMap<RcStr, Value>,
) -> Answer {
    let name = RcStr::from_str(alloc, name)?;
    match values.pop() {
        Some(value) => {
            told.insert(name, value)?;
            tell(alloc, told.len())
        }
        None => no_case(alloc),
    }
}

/// Tells the expression on top of this name.
pub fn tell_expr(
    alloc: Global,
    name: &str,
    stack: &mut Vec<Expr>,
    told: &mut BTreeMap<RcStr, Expr>,
) -> Answer {
    let name = RcStr::from_str(alloc, name)?;
    let expr = top(stack);
    told.insert(name, expr)?;
    tell(alloc, told.len())
}

/// The expression with what is told.
fn with_told(
    alloc: Global,
    expr: &Expr,
    told: &BTreeMap<RcStr, Expr>,
) -> Result<Expr, ExpressionConstructionError> {
    Ok(expr.substitute_exprs(alloc, told)?)
}

/// The expression as the own builder builds it again, with what is told where the verb says so.
fn again(
    alloc: Global,
    verb: &str,
    expr: &Expr,
    told: &BTreeMap<RcStr, Expr>,
) -> Option<Result<Expr, ExpressionConstructionError>> {
    match verb {
        "into_expr" => Some(expr.into_expr::<ExprBuilder>(alloc)),
        "try_into_expr" => Some(expr.try_into_expr::<ExprBuilder>(alloc)),
        "substitute_exprs" => Some(with_told(alloc, expr, told)),
        "substitute_exprs_into_expr" => {
            Some(expr.substitute_exprs_into_expr::<ExprBuilder>(alloc, told))
        }
        _ => None,
    }
}

/// The expression on top, built again.
pub fn rebuilt(
    alloc: Global,
    verb: &str,
    stack: &mut Vec<Expr>,
    told: &BTreeMap<RcStr, Expr>,
) -> Answer {
    let expr = top(stack);
    match again(alloc, verb, &expr, told) {
        Some(built) => push(alloc, stack, built),
        None => no_case(alloc),
    }
}

/// The expression on top with values in the places of its unknowns.
pub fn substituted(
    alloc: Global,
    verb: &str,
    stack: &mut Vec<Expr>,
    told: &BTreeMap<RcStr, Value>,
) -> Answer {
    let expr = top(stack);
    match verb {
        "substitute" => push(alloc, stack, expr.substitute(alloc, told)),
        "substitute_typed" => push(alloc, stack, expr.substitute_typed(alloc, told)),
        "substitute_into_expr" => {
            let built = expr.substitute_into_expr::<ExprBuilder>(alloc, told);
            push(alloc, stack, built)
        }
        _ => no_case(alloc),
    }
}

fn of_one(
    alloc: Global,
    verb: &str,
    unknown: &Unknown,
    told: Option<&Value>,
    stack: &mut Vec<Expr>,
) -> Answer {
    match verb {
        "typed" => push(
            alloc,
            stack,
            TypedSubstitution::substitute(alloc, unknown, told),
        ),
        "untyped" => push(
            alloc,
            stack,
            UntypedSubstitution::substitute(alloc, unknown, told),
        ),
        _ => no_case(alloc),
    }
}

/// What stands for the unknown of this name and type, by the value that is told of it.
pub fn one(
    alloc: Global,
    verb: &str,
    name: &str,
    ty: &str,
    stack: &mut Vec<Expr>,
    told: &BTreeMap<RcStr, Value>,
) -> Answer {
    match unknown(alloc, name, ty) {
        Ok(unknown) => of_one(alloc, verb, &unknown, told.get(name), stack),
        Err(error) => error.to_string(alloc),
    }
}
