// Entries, contexts and requests.
use crate::entities::user;
use crate::refusing::RefusesAll;
use cedar_extensions::extensions::Extensions;
use cedar_literals::uids::EntityType;
use cedar_names::conversions::FromIn;
use cedar_names::places::Loc;
use cedar_names::reading::FromNormalizedStr;
use cedar_requests::{
    Context, ContextCreationError, EntityUIDEntry, Request, RequestError, RequestSchema,
    RequestSchemaAllPass, UnwrapInfallible,
};
use cedar_restricted::partial_values::PartialValue;
use cedar_restricted::restricted::RestrictedExpr;
use cedar_rows::stack::{is_place, place, told_place};
use cedar_rows::trees::variable;
use cedar_rows::{Answer, append, maybe, no_case, paired, said, show, tell};
use cedar_trees::expr::Expr;
use cedar_values::values::Value;
use std::alloc::{AllocError, Global};
use std::collections::BTreeMap;
use std::rc::RcStr;

/// What was made last: entries on a stack, a context, and a request.
pub(crate) struct Requests {
    entries: Vec<EntityUIDEntry>,
    context: Option<Context>,
    request: Option<Request>,
}

impl Drop for Requests {
    fn drop(self) {
        let Requests {
            entries: _,
            context: _,
            request: _,
        } = self;
    }
}

/// Nothing was made yet.
pub(crate) fn none(alloc: Global) -> Requests {
    Requests {
        entries: Vec::new(alloc),
        context: None,
        request: None,
    }
}

/// The value, or what is left, and its place.
fn told_part(alloc: Global, found: Result<PartialValue, AllocError>) -> Answer {
    match found {
        Ok(part) => {
            let place = match &part {
                PartialValue::Value(value) => told_place(alloc, value.source_loc())?,
                PartialValue::Residual(expr) => told_place(alloc, expr.source_loc())?,
            };
            format!(in alloc; "{part} {place}")
        }
        Err(error) => cedar_rows::refused(alloc, error),
    }
}

/// Keeps an entry, and answers how many there are.
fn kept(alloc: Global, entries: &mut Vec<EntityUIDEntry>, entry: EntityUIDEntry) -> Answer {
    entries.push(entry)?;
    tell(alloc, entries.len())
}

/// An entry of this uid or type, at this place.
fn made(
    alloc: Global,
    verb: &str,
    one: &str,
    other: &str,
    entries: &mut Vec<EntityUIDEntry>,
) -> Answer {
    let loc: Option<Loc> = place(alloc, other)?;
    match verb {
        "known" => match user(alloc, one) {
            Ok(uid) => kept(alloc, entries, EntityUIDEntry::known(alloc, uid, loc)?),
            Err(error) => cedar_rows::refused(alloc, error),
        },
        "from" => match user(alloc, one) {
            Ok(uid) => kept(alloc, entries, EntityUIDEntry::from_in(alloc, uid)?),
            Err(error) => cedar_rows::refused(alloc, error),
        },
        "typed" => match EntityType::from_normalized_str(alloc, one) {
            Ok(ty) => kept(alloc, entries, EntityUIDEntry::unknown_with_type(ty, loc)),
            Err(error) => cedar_rows::refused(alloc, error),
        },
        "unknown" => kept(alloc, entries, EntityUIDEntry::unknown()),
        _ => no_case(alloc),
    }
}

/// What is read of the entry on top.
fn read(alloc: Global, verb: &str, word: &str, entries: &[EntityUIDEntry]) -> Answer {
    let Some(entry) = entries.last() else {
        return no_case(alloc);
    };
    match verb {
        "uid" => maybe(alloc, entry.uid()),
        "type" => maybe(alloc, entry.get_type()),
        "copied" => maybe(alloc, entry.clone(alloc)?.get_type()),
        "evaluate" => match variable(word) {
            Some(var) => told_part(alloc, entry.evaluate(alloc, var)),
            None => no_case(alloc),
        },
        _ => no_case(alloc),
    }
}

/// The context of the expression on top at this key, twice where a second one is written.
fn of_pairs(
    alloc: Global,
    keys: &str,
    depth: u32,
    expr: RestrictedExpr,
    table: &Extensions<'_>,
) -> Result<Context, ContextCreationError> {
    let again = expr.clone(alloc)?;
    let items = vec![in alloc; expr, again]?;
    Context::from_pairs(alloc, paired(alloc, keys, items)?, table, depth)
}

/// Keeps the context of the expression on top: of its pairs, or at the keys that the word has.
fn made_of(
    alloc: Global,
    keys: &str,
    depth: u32,
    exprs: &mut Vec<Expr>,
    table: &Extensions<'_>,
    at: &mut Option<Context>,
) -> Answer {
    let Some(expr) = exprs.pop() else {
        return no_case(alloc);
    };
    match RestrictedExpr::new(alloc, expr) {
        Ok(expr) if keys.is_empty() => {
            let context = Context::from_expr(alloc, expr.as_borrowed(), table, depth);
            held(alloc, at, context)
        }
        Ok(expr) => held(alloc, at, of_pairs(alloc, keys, depth, expr, table)),
        Err(error) => cedar_rows::refused(alloc, error),
    }
}

/// The keys of the context, each before its expression.
fn listed(alloc: Global, context: Context) -> Answer {
    let mut text = String::new(alloc);
    for (key, expr) in context.into_iter(alloc)? {
        append(&mut text, format!(in alloc; "{}: {expr}", key.as_str()))?;
    }
    Ok(text)
}

/// Keeps a context, and answers its text with the number of its keys; or answers why it was not made.
fn held(
    alloc: Global,
    at: &mut Option<Context>,
    found: Result<Context, ContextCreationError>,
) -> Answer {
    match found {
        Ok(context) => {
            let kind = match &context {
                Context::Value(_) => "value",
                Context::RestrictedResidual(_) => "residual",
            };
            let text = format!(in alloc; "{kind} {context} of {}", context.num_keys())?;
            *at = Some(context);
            Ok(text)
        }
        Err(error) => cedar_rows::refused(alloc, error),
    }
}

/// What is made of the context.
fn of_context(
    alloc: Global,
    verb: &str,
    depth: Option<u32>,
    told: &BTreeMap<RcStr, Value>,
    table: &Extensions<'_>,
    at: &mut Option<Context>,
) -> Answer {
    let Some(context) = at.take() else {
        return no_case(alloc);
    };
    match (verb, depth) {
        ("substitute", Some(depth)) => match context.substitute(alloc, told, table, depth) {
            Ok(context) => held(alloc, at, Ok(context)),
            Err(error) => cedar_rows::refused(alloc, error),
        },
        ("partial", _) => told_part(alloc, Ok(PartialValue::from(context))),
        ("restricted", _) => show(alloc, RestrictedExpr::from_in(alloc, context)),
        ("entries", _) => listed(alloc, context),
        ("copy", _) => {
            let copy = context.clone(alloc)?;
            held(alloc, at, Ok(copy))
        }
        _ => no_case(alloc),
    }
}

/// The last three entries, in their order.
fn three(
    entries: &mut Vec<EntityUIDEntry>,
) -> Option<(EntityUIDEntry, EntityUIDEntry, EntityUIDEntry)> {
    let resource = entries.pop()?;
    let action = entries.pop()?;
    let principal = entries.pop()?;
    Some((principal, action, resource))
}

/// Keeps a request, and answers its text.
fn shown(alloc: Global, at: &mut Option<Request>, request: Request) -> Answer {
    let text = request.to_string(alloc)?;
    *at = Some(request);
    Ok(text)
}

/// The request of the entries on top and the context.
fn of_entries(alloc: Global, verb: &str, table: &Extensions<'_>, state: &mut Requests) -> Answer {
    let Some((principal, action, resource)) = three(&mut state.entries) else {
        return no_case(alloc);
    };
    let context = state.context.take();
    match verb {
        "with-unknowns" => shown(
            alloc,
            &mut state.request,
            Request::new_with_unknowns(
                principal,
                action,
                resource,
                context,
                Some(&RequestSchemaAllPass),
                table,
            )
            .unwrap_infallible(),
        ),
        "refused" => match Request::new_with_unknowns(
            principal,
            action,
            resource,
            context,
            Some(&RefusesAll),
            table,
        ) {
            Ok(request) => shown(alloc, &mut state.request, request),
            Err(error) => cedar_rows::refused(alloc, error),
        },
        _ => no_case(alloc),
    }
}

/// The request of three uids and the context, of which this schema is asked, if any is.
fn of_uids<S: RequestSchema>(
    alloc: Global,
    schema: Option<&S>,
    table: &Extensions<'_>,
    state: &mut Requests,
) -> Result<Option<Request>, RequestError<S::Error>> {
    let context = match state.context.take() {
        Some(context) => context,
        None => Context::empty(alloc)?,
    };
    match (user(alloc, "a"), user(alloc, "b"), user(alloc, "c")) {
        (Ok(a), Ok(b), Ok(c)) => {
            let (a, b, c) = ((a, None), (b, None), (c, None));
            Ok(Some(Request::new(alloc, a, b, c, context, schema, table)?))
        }
        _ => Ok(None),
    }
}

/// The request of a schema that refuses nothing.
fn accepted(
    alloc: Global,
    schema: Option<&RequestSchemaAllPass>,
    table: &Extensions<'_>,
    state: &mut Requests,
) -> Answer {
    match of_uids(alloc, schema, table, state) {
        Ok(Some(request)) => shown(alloc, &mut state.request, request),
        Ok(None) => no_case(alloc),
        Err(RequestError::Memory(error)) => cedar_rows::refused(alloc, error),
        Err(RequestError::Schema(error)) => match error {},
    }
}

/// That of the schema that refuses everything.
fn refused(alloc: Global, table: &Extensions<'_>, state: &mut Requests) -> Answer {
    match of_uids(alloc, Some(&RefusesAll), table, state) {
        Ok(Some(request)) => shown(alloc, &mut state.request, request),
        Ok(None) => no_case(alloc),
        Err(error) => cedar_rows::refused(alloc, error),
    }
}

/// What is read of the request.
fn parts(alloc: Global, verb: &str, table: &Extensions<'_>, state: &Requests) -> Answer {
    let Some(request) = &state.request else {
        return no_case(alloc);
    };
    match verb {
        "principal" => maybe(alloc, request.principal().uid()),
        "action" => maybe(alloc, request.action().uid()),
        "resource" => maybe(alloc, request.resource().uid()),
        "context" => maybe(alloc, request.context()),
        "type-of" => match request.to_request_type(alloc)? {
            Some(ty) => {
                let ty = ty.clone(alloc)?;
                let (principal, action, resource) = (&ty.principal, &ty.action, &ty.resource);
                format!(in alloc; "{principal} {action} {resource}")
            }
            None => String::from_str(alloc, "none"),
        },
        "again" => request.clone(alloc)?.to_string(alloc),
        "validated" => said(alloc, RefusesAll.validate_request(request, table).is_ok()),
        _ => no_case(alloc),
    }
}

/// The depth that a word says, if it says one.
pub(crate) fn word_depth(word: &str) -> Option<u32> {
    word.parse::<u32>().ok()
}

/// What a step on requests answers, where the stack has the expressions that earlier steps made and `told`
/// the values that they told. Refused for memory alone.
pub(crate) fn answer(
    alloc: Global,
    verb: &str,
    one: &str,
    other: &str,
    stack: &mut Vec<Expr>,
    told: &BTreeMap<RcStr, Value>,
    table: &Extensions<'_>,
    state: &mut Requests,
) -> Answer {
    match (verb, word_depth(one), word_depth(other)) {
        ("known" | "from" | "typed" | "unknown", _, _) if is_place(other) => {
            made(alloc, verb, one, other, &mut state.entries)
        }
        ("uid" | "type" | "copied" | "evaluate", _, _) => read(alloc, verb, one, &state.entries),
        ("empty", _, _) => held(alloc, &mut state.context, Ok(Context::empty(alloc)?)),
        ("context", _, Some(depth)) => {
            made_of(alloc, one, depth, stack, table, &mut state.context)
        }
        ("substitute" | "partial" | "restricted" | "copy" | "entries", depth, _) => {
            of_context(alloc, verb, depth, told, table, &mut state.context)
        }
        ("with-unknowns" | "refused", _, _) => of_entries(alloc, verb, table, state),
        ("new", _, _) => accepted(alloc, None, table, state),
        ("new-passes", _, _) => accepted(alloc, Some(&RequestSchemaAllPass), table, state),
        ("new-refused", _, _) => refused(alloc, table, state),
        _ => parts(alloc, verb, table, state),
    }
}
