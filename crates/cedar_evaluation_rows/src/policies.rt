// What policies come to for a question, and what the authorizer responds.
use crate::evaluators::question;
use crate::requests::word_depth;
use cedar_evaluator::authorizer::Authorizer;
use cedar_evaluator::errors::AuthorizationError;
use cedar_evaluator::evaluation::EvaluatePolicy;
use cedar_evaluator::evaluator::evaluator_of;
use cedar_evaluator::partial_response::PartialResponse;
use cedar_evaluator::response::Response;
use cedar_extensions::extensions::Extensions;
use cedar_interpreter::Evaluator;
use cedar_policies::policies::Policy;
use cedar_policy_parts::PolicyID;
use cedar_policy_set::sets::PolicySet;
use cedar_rows::{Answer, append, no_case, put, refused, said, show, tell};
use cedar_store::entities::Entities;
use cedar_values::values::Value;
use either::Either;
use std::alloc::{AllocError, Global};
use std::collections::BTreeMap;
use std::rc::RcStr;

/// Whether a policy is satisfied, or what is left of its condition.
fn of(alloc: Global, verb: &str, evaluator: &Evaluator<'_, '_, '_>, policy: &Policy) -> Answer {
    if verb == "value" {
        return show(alloc, evaluator.evaluate(alloc, policy));
    }
    match evaluator.partial_evaluate(alloc, policy) {
        Ok(Either::Left(satisfied)) => said(alloc, satisfied),
        Ok(Either::Right(rest)) => rest.to_string(alloc),
        Err(error) => refused(alloc, error),
    }
}

/// That of each policy, in their order.
fn of_each(
    alloc: Global,
    verb: &str,
    evaluator: &Evaluator<'_, '_, '_>,
    set: &PolicySet,
) -> Answer {
    let mut text = String::new(alloc);
    for policy in set.policies() {
        append(&mut text, of(alloc, verb, evaluator, policy))?;
    }
    Ok(text)
}

fn told_ids(alloc: Global, ids: Result<Vec<PolicyID>, AllocError>) -> Answer {
    let mut text = String::new(alloc);
    for id in &ids? {
        put(&mut text, " ", id.to_string(alloc))?;
    }
    Ok(text)
}

fn told_errors(alloc: Global, errors: &[AuthorizationError]) -> Answer {
    let mut text = String::new(alloc);
    for error in errors {
        put(&mut text, ", ", error.to_string(alloc))?;
    }
    Ok(text)
}

/// What is decided, the policies that must and that may be reasons, and the errors.
pub(crate) fn responded(alloc: Global, response: &PartialResponse) -> Answer {
    let decision = response.decision();
    let must = told_ids(alloc, response.must_be_determining_ids(alloc))?;
    let may = told_ids(alloc, response.may_be_determining_ids(alloc))?;
    let errors = told_errors(alloc, response.errors.as_slice())?;
    format!(in alloc; "{decision:?} must{must} may{may}{errors}")
}

/// Whether the request is allowed, the reasons, and the errors.
fn answered(alloc: Global, response: &Response) -> Answer {
    let mut text = tell(alloc, response.decision)?;
    for id in &response.diagnostics.reason {
        put(&mut text, " ", id.to_string(alloc))?;
    }
    let errors = told_errors(alloc, response.diagnostics.errors.as_slice());
    put(&mut text, "", errors)?;
    Ok(text)
}

/// What is left of a policy, behind its annotations.
fn left_of(alloc: Global, policy: &Policy) -> Answer {
    let condition = policy.condition(alloc)?;
    format!(in alloc; "{} {}{condition}", policy.id(), policy.annotations())
}

/// What is left of policies, one after another.
fn listed(alloc: Global, policies: Result<Vec<Policy>, AllocError>) -> Answer {
    let mut text = String::new(alloc);
    for policy in &policies? {
        append(&mut text, left_of(alloc, policy))?;
    }
    Ok(text)
}

fn named(alloc: Global, ids: Result<Vec<&PolicyID>, AllocError>) -> Answer {
    let mut text = String::new(alloc);
    for id in &ids? {
        append(&mut text, id.to_string(alloc))?;
    }
    Ok(text)
}

/// What a reader of the response gives.
fn read_response(alloc: Global, reader: &str, response: &PartialResponse) -> Answer {
    match reader {
        "satisfied" => listed(alloc, response.definitely_satisfied(alloc)),
        "must" => listed(alloc, response.must_be_determining(alloc)),
        "may" => listed(alloc, response.may_be_determining(alloc)),
        "open" => listed(alloc, response.nontrivial_residuals(alloc)),
        "open-forbids" => listed(alloc, response.nontrivial_forbids(alloc)),
        "all" => listed(alloc, response.all_residuals(alloc)),
        "open-ids" => named(alloc, response.nontrivial_residual_ids().collect(alloc)),
        "errored" => named(alloc, response.definitely_errored().collect(alloc)),
        _ => no_case(alloc),
    }
}

/// What is read of the response for a question without a principal.
fn residuals(
    alloc: Global,
    reader: &str,
    set: &PolicySet,
    entities: &Entities,
    table: &Extensions<'_>,
) -> Answer {
    let authorizer = Authorizer::new(table, 9);
    let Some(request) = question(alloc, "principal")? else {
        return no_case(alloc);
    };
    let response = authorizer.is_authorized_core(alloc, request, set, entities)?;
    read_response(alloc, reader, &response)
}

/// What a step on policies answers, within the depth that a word gives, the variable of this name missing.
pub(crate) fn answer(
    alloc: Global,
    verb: &str,
    one: &str,
    missing: &str,
    set: &PolicySet,
    entities: &Entities,
    table: &Extensions<'_>,
) -> Answer {
    if verb == "residuals" {
        return residuals(alloc, one, set, entities, table);
    }
    let (Some(depth), Some(request)) = (word_depth(one), question(alloc, missing)?) else {
        return no_case(alloc);
    };
    let authorizer = Authorizer::new(table, depth);
    match verb {
        "respond" => {
            let response = authorizer.is_authorized_core(alloc, request, set, entities)?;
            responded(alloc, &response.clone(alloc)?)
        }
        "respond-without-false" => {
            let response = authorizer.is_authorized_without_false(alloc, request, set, entities)?;
            listed(alloc, response.all_residuals(alloc))
        }
        "answer" => {
            let response = authorizer.is_authorized(alloc, request, set, entities)?;
            answered(alloc, &response.clone(alloc)?)
        }
        "value" | "left" => {
            let evaluator = evaluator_of(alloc, &request, entities, table, depth)?;
            of_each(alloc, verb, &evaluator, set)
        }
        _ => no_case(alloc),
    }
}

/// What is decided, once the values are told, for a question of which the variable of this name is missing.
pub(crate) fn told(
    alloc: Global,
    missing: &str,
    told: &BTreeMap<RcStr, Value>,
    set: &PolicySet,
    entities: &Entities,
    table: &Extensions<'_>,
) -> Answer {
    let authorizer = Authorizer::new(table, 9);
    let Some(request) = question(alloc, missing)? else {
        return no_case(alloc);
    };
    let first = authorizer.is_authorized_core(alloc, request, set, entities)?;
    match first.reauthorize(alloc, told, &authorizer, entities) {
        Ok(again) => responded(alloc, &again),
        Err(error) => refused(alloc, error),
    }
}
