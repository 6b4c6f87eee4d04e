// What evaluators answer of an expression.
use crate::entities::user;
use crate::requests::word_depth;
use cedar_evaluator::evaluator::evaluator_of;
use cedar_extensions::extensions::Extensions;
use cedar_interpreter::{Evaluator, RestrictedEvaluator};
use cedar_parser::ExtStyles;
use cedar_parser::prelude::StylesOfExtensions;
use cedar_parser::strict::parse_expr_strict;
use cedar_policy_parts::bindings::SlotEnv;
use cedar_requests::{Context, EntityUIDEntry, Request};
use cedar_restricted::borrowed::BorrowedRestrictedExpr;
use cedar_rows::trees::slot;
use cedar_rows::{Answer, no_case, push, refused, show};
use cedar_store::entities::Entities;
use cedar_trees::expr::Expr;
use std::alloc::{AllocError, Global};

/// Puts the expression of a text, or a slot, on the stack.
pub(crate) fn read(
    alloc: Global,
    verb: &str,
    text: &str,
    table: &Extensions<'_>,
    exprs: &mut Vec<Expr>,
) -> Answer {
    let styles = ExtStyles::from_extensions(alloc, table)?;
    match (verb, slot(text)) {
        ("text", _) => push(alloc, exprs, parse_expr_strict(alloc, text, &styles, 64)),
        ("slot", Some(slot)) => push(alloc, exprs, Ok::<_, AllocError>(Expr::slot(slot))),
        _ => no_case(alloc),
    }
}

/// The user of this id, or unknown.
fn part(alloc: Global, id: &str, is_missing: bool) -> Result<EntityUIDEntry, AllocError> {
    if is_missing {
        return Ok(EntityUIDEntry::unknown());
    }
    match user(alloc, id) {
        Ok(uid) => EntityUIDEntry::known(alloc, uid, None),
        Err(_error) => Ok(EntityUIDEntry::unknown()),
    }
}

/// The user `a` asks to do `b` to `c` in an empty context; of the four the one of this name is missing, or
/// `nothing` is.
pub(crate) fn question(alloc: Global, missing: &str) -> Result<Option<Request>, AllocError> {
    let principal = part(alloc, "a", missing == "principal")?;
    let action = part(alloc, "b", missing == "action")?;
    let resource = part(alloc, "c", missing == "resource")?;
    let context = match missing {
        "context" => None,
        "principal" | "action" | "resource" | "nothing" | "" => Some(Context::empty(alloc)?),
        _ => return Ok(None),
    };
    Ok(Some(Request::new_unchecked(principal, action, resource, context)))
}

/// What the expression is evaluated to.
fn of(alloc: Global, verb: &str, evaluator: &Evaluator<'_, '_, '_>, expr: &Expr) -> Answer {
    let slots = SlotEnv::new();
    match verb {
        "value" => show(alloc, evaluator.interpret(alloc, expr, &slots)),
        "partial" => show(alloc, evaluator.partial_interpret(alloc, expr, &slots)),
        _ => no_case(alloc),
    }
}

/// What the expression on top is evaluated to within this depth, the variable of this name missing.
pub(crate) fn answer(
    alloc: Global,
    verb: &str,
    depth: &str,
    missing: &str,
    exprs: &mut Vec<Expr>,
    entities: &Entities,
    table: &Extensions<'_>,
) -> Answer {
    let (Some(depth), Some(expr)) = (word_depth(depth), exprs.pop()) else {
        return no_case(alloc);
    };
    let Some(request) = question(alloc, missing)? else {
        return no_case(alloc);
    };
    let evaluator = evaluator_of(alloc, &request, entities, table, depth)?;
    of(alloc, verb, &evaluator, &expr)
}

/// What it is evaluated to as a restricted expression.
pub(crate) fn restricted(
    alloc: Global,
    verb: &str,
    depth: &str,
    exprs: &mut Vec<Expr>,
    table: &Extensions<'_>,
) -> Answer {
    let (Some(depth), Some(expr)) = (word_depth(depth), exprs.pop()) else {
        return no_case(alloc);
    };
    let evaluator = RestrictedEvaluator::new(table, depth);
    match BorrowedRestrictedExpr::new(alloc, &expr) {
        Ok(expr) => match verb {
            "value" => show(alloc, evaluator.interpret(alloc, expr)),
            "partial" => show(alloc, evaluator.partial_interpret(alloc, expr)),
            _ => no_case(alloc),
        },
        Err(error) => refused(alloc, error),
    }
}
