//! Responses to requests of which nothing more will be told. Begin with `Response`, the decision and, in its
//! `Diagnostics`, the reasons and errors: `Authorizer::is_authorized` gives it, and `PartialResponse::concretize`
//! makes it of what is found so far.
ghost use Rattle.std.specs.Prelude.{◌≡◌, ◌++◌, map, IfOk, OnOk};
ghost use Rattle.std.specs.Map.{keys_of};
ghost use Rattle.cedar_language.specs.Answering.{known_decision, in_must};
ghost use Rattle.cedar_policy_parts.specs.Decisions.{decision_of};
ghost use Rattle.cedar_evaluator.specs.Asking.{untold};
ghost use Rattle.cedar_requests.specs.Holding.{request_parts};
ghost use Rattle.cedar_trees.specs.Bare.{bare};
ghost use Rattle.cedar_language.specs.Answering.{ids_with};
ghost use Rattle.cedar_evaluator.specs.Authorizing.{table_of, limit_of};
ghost use Rattle.cedar_evaluator.specs.Concrete.{cause_seen, without_value, left_of, all_causes, IsConcrete, Answers};
ghost use Rattle.cedar_evaluator.specs.Holding.{holding_in};
ghost use Rattle.cedar_evaluator.specs.Known.{AnswersByRules};
ghost use Rattle.cedar_evaluator.specs.Responses.{judged_held};

use crate::authorizer::Authorizer;
use crate::errors::AuthorizationError;
use crate::partial_response::PartialResponse;
use crate::reasons::Reasons;
use cedar_entities::store::Entities;
use cedar_extensions::evaluation_error::EvaluationError;
use cedar_extensions::objects::ExtensionFunctionObject;
use cedar_names::conversions::FromIn;
use cedar_partial_evaluation::{known_is_meaning, leaves_dont_matter};
use cedar_policy_parts::annotations::Annotations;
use cedar_policy_parts::{Decision, PolicyID};
use cedar_policy_set::policy_map::PolicyMap;
use cedar_policy_set::sets::PolicySet;
use cedar_requests::Request;
use cedar_trees::expr::Expr;
use std::alloc::{AllocError, Global};
use std::rc::Rc;

/// What a request comes to, and why. (Cedar language reference, "Authorization".)
#[derive(Debug, PartialEq, Eq)]
pub struct Response {
    /// Whether the request is allowed.
    pub decision: Decision,
    /// Why it is or isn't.
    pub diagnostics: Diagnostics,
}

// By hand, so that letting go of one is a call.
impl Drop for Response {
    fn drop(self) {
        let Response {
            decision: _,
            diagnostics: _diagnostics,
        } = self;
    }
}

/// Why a request is allowed or denied. (Cedar language reference, "Authorization".)
#[derive(Debug, PartialEq, Eq)]
pub struct Diagnostics {
    /// The ids of the policies that decide, in the order of the set; none where no policy applies.
    pub reason: Reasons,
    /// The errors of policies.
    pub errors: Vec<AuthorizationError>,
}

// By hand, so that letting go of one is a call.
impl Drop for Diagnostics {
    fn drop(self) {
        let Diagnostics {
            reason: _reason,
            errors: _errors,
        } = self;
    }
}

impl Response {
    /// The response of this decision, these reasons and these errors.
    pub fn new(decision: Decision, reason: Reasons, errors: Vec<AuthorizationError>) -> Response
        ensures decision { result.decision ≡ decision }
        ensures reason { result.diagnostics.reason ≡ reason }
        ensures errors { result.diagnostics.errors.items ≡ errors.items }
    {
        Response {
            decision,
            diagnostics: Diagnostics { reason, errors },
        }
    }
}

impl FromIn<PartialResponse> for Response {
    type Error = AllocError;

    ghost use Rattle.std.specs.Prelude.{IfOk};
    ghost use Rattle.cedar_evaluator.specs.Concrete.{IsConcreteOf};

    ghost from_in_gives = { λ partial result. IfOk result (IsConcreteOf partial) };

    /// The response as it stands, by `concretize`; refused for memory alone.
    fn from_in(alloc: Global, partial: PartialResponse) -> Result<Response, AllocError> {
        partial.concretize(alloc)
    }
}

// The ids of a group, as reasons.
fn key_set<V>(alloc: Global, group: &PolicyMap<V>) -> Result<Reasons, AllocError>
    ensures { IfOk result (λ ids. ids ≡ keys_of group.now) }
{
    let _count = group.len();
    let mut ids = Reasons::new(alloc);
    for (id, _) in group.iter() {
        let copy = id.clone()?;
        ids.insert(copy)?;
    }
    Ok(ids)
}

// The error of an open policy, of whose condition this is left.
fn open_error(alloc: Global, id: &PolicyID, rest: &Expr) -> Result<AuthorizationError, AllocError>
    ensures { IfOk result (λ error. cause_seen error ≡ without_value (id.now, bare rest.now)) }
{
    let id = id.clone()?;
    let error = EvaluationError::non_value(alloc, rest.clone(alloc)?)?;
    Ok(AuthorizationError::PolicyEvaluationError { id, error })
}

// Appends the errors of a group of open policies.
fn push_open_errors(
    alloc: Global,
    errors: &mut Vec<AuthorizationError>,
    group: &PolicyMap<(Rc<Expr>, Rc<Annotations>)>,
) -> Result<(), AllocError>
    ensures { OnOk result (map cause_seen errors.new.items ≡ map cause_seen errors.old.items ++ map left_of group.now) }
{
    for (id, kept) in group.iter() {
        errors.push(open_error(alloc, id, &kept.0)?)?;
    }
    Ok(())
}

impl PartialResponse {
    // What is decided where the open policies aren't satisfied.
    fn concrete_decision(&self) -> Decision
        ensures { decision_of result ≡ known_decision (judged_held (holding_in self.now)) }
    {
        if self.satisfied_forbids.is_empty() && !self.satisfied_permits.is_empty() {
            Decision::Allow
        } else {
            Decision::Deny
        }
    }

    // The ids of the policies that are reasons whatever the open ones come to.
    fn reasons(&self, alloc: Global) -> Result<Reasons, AllocError>
        ensures { IfOk result (λ ids. ids ≡ ids_with (in_must (judged_held (holding_in self.now))) (judged_held (holding_in self.now))) }
    {
        if self.satisfied_forbids.is_empty() && self.residual_forbids.is_empty() {
            key_set(alloc, &self.satisfied_permits)
        } else {
            key_set(alloc, &self.satisfied_forbids)
        }
    }

    // The errors of the open policies, and then those that are told.
    fn into_errors(mut self, alloc: Global) -> Result<Vec<AuthorizationError>, AllocError>
        ensures { IfOk result (λ errors. map cause_seen errors.items ≡ all_causes self) }
    {
        let mut errors = Vec::new(alloc);
        push_open_errors(alloc, &mut errors, &self.residual_forbids)?;
        push_open_errors(alloc, &mut errors, &self.residual_permits)?;
        errors.append(&mut self.errors)?;
        Ok(errors)
    }

    /// The response as it stands: an open policy isn't satisfied, and counts as one that errs, having no
    /// value. The errors of the open forbids come first, then those of the open permits, then those of the
    /// policies that erred. The reasons are those that hold whatever the open policies come to, so that
    /// there are none where an open forbid keeps the satisfied permits from being sure.
    /// (Cedar language reference, "Authorization".) Refused for memory alone.
    pub fn concretize(self, alloc: Global) -> Result<Response, AllocError>
        ensures concrete { IfOk result (IsConcrete (holding_in self)) }
        ensures causes { IfOk result (λ whole. map cause_seen whole.diagnostics.errors.items ≡ all_causes self) }
    {
        let decision = self.concrete_decision();
        let reason = self.reasons(alloc)?;
        let errors = self.into_errors(alloc)?;
        Ok(Response::new(decision, reason, errors))
    }
}

impl<'e, 'f, F: ExtensionFunctionObject> Authorizer<'e, 'f, F> {
    /// What the request comes to by the policies in force, static policies and links: denied where a
    /// forbid is satisfied, else allowed where a permit is, else denied. A policy that errs isn't
    /// satisfied, and its error is told, `RecursionLimit` among them; so is each of whose condition
    /// something is left. Refused for memory alone. (Cedar language reference, "Authorization".)
    pub fn is_authorized(
        &self,
        alloc: Global,
        request: Request,
        policies: &PolicySet,
        entities: &Entities,
    ) -> Result<Response, AllocError>
        ensures answers { IfOk result (λ whole. Answers (untold (request_parts request)) entities.now (table_of F.answers self.now) (limit_of self.now) policies.now whole) }
        ensures means { IfOk result (λ whole. AnswersByRules (untold (request_parts request)) entities.now (table_of F.answers self.now) (limit_of self.now) policies.now whole) }
    {
        // Laws, which run no code.
        leaves_dont_matter();
        known_is_meaning();
        let partial = self.is_authorized_core(alloc, request, policies, entities)?;
        partial.concretize(alloc)
    }
}

/// What is found of the policies of a set for a request, by their ids, and what is left of the open ones.
/// (Cedar language reference, "Authorization" and "Partial evaluation".)
#[derive(Debug, PartialEq, Eq)]
pub struct EvaluationResponse {
    /// The ids of the permits that are satisfied.
    pub satisfied_permits: Reasons,
    /// The ids of the forbids that are satisfied.
    pub satisfied_forbids: Reasons,
    /// The errors of policies.
    pub errors: Vec<AuthorizationError>,
    /// What is left of the open permits.
    pub permit_residuals: PolicySet,
    /// What is left of the open forbids.
    pub forbid_residuals: PolicySet,
}

// By hand, so that letting go of one is a call.
impl Drop for EvaluationResponse {
    fn drop(self) {
        let EvaluationResponse {
            satisfied_permits: _satisfied_permits,
            satisfied_forbids: _satisfied_forbids,
            errors: _errors,
            permit_residuals: _permit_residuals,
            forbid_residuals: _forbid_residuals,
        } = self;
    }
}
