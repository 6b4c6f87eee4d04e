// A response that is made by hand of what is found of policies.
use crate::evaluators::question;
use crate::policies::responded;
use cedar_evaluator::EvaluationResponse;
use cedar_evaluator::errors::AuthorizationError;
use cedar_evaluator::partial_response::{ErrorState, PartialResponse};
use cedar_evaluator::reasons::Reasons;
use cedar_extensions::evaluation_error::EvaluationError;
use cedar_policy_parts::PolicyID;
use cedar_policy_parts::annotations::Annotations;
use cedar_policy_set::sets::PolicySet;
use cedar_rows::{Answer, no_case, tell};
use std::alloc::Global;
use std::rc::Rc;

/// How many permits a copy of what was evaluated has as satisfied, where the one of this id is.
fn evaluated(alloc: Global, id: PolicyID) -> Answer {
    let mut satisfied_permits = Reasons::new(alloc);
    satisfied_permits.insert(id)?;
    let response = EvaluationResponse {
        satisfied_permits,
        satisfied_forbids: Reasons::new(alloc),
        errors: Vec::new(alloc),
        permit_residuals: PolicySet::new(alloc),
        forbid_residuals: PolicySet::new(alloc),
    };
    tell(alloc, response.clone(alloc)?.satisfied_permits.len())
}

/// What is decided where the permit of this id is satisfied, or errs by a limit.
pub(crate) fn answer(alloc: Global, verb: &str, id: &str) -> Answer {
    let Some(request) = question(alloc, "principal")? else {
        return no_case(alloc);
    };
    let request = Rc::new(alloc, request)?;
    let id = PolicyID::from_string(alloc, id)?;
    if verb == "evaluated" {
        return evaluated(alloc, id);
    }
    let annotations = Rc::new(alloc, Annotations::new(alloc))?;
    let mut permits = Vec::new(alloc);
    let mut false_permits = Vec::new(alloc);
    let mut errors = Vec::new(alloc);
    match verb {
        "satisfied" => permits.push((id, annotations))?,
        "erring" => {
            let error = EvaluationError::recursion_limit(None);
            let of_policy = id.clone()?;
            false_permits.push((id, (ErrorState::Error, annotations)))?;
            errors.push(AuthorizationError::PolicyEvaluationError {
                id: of_policy,
                error,
            })?;
        }
        _ => return no_case(alloc),
    }
    let response = PartialResponse::new(
        alloc,
        permits,
        false_permits,
        Vec::new(alloc),
        Vec::new(alloc),
        Vec::new(alloc),
        Vec::new(alloc),
        errors,
        request,
    )?;
    responded(alloc, &response)
}
