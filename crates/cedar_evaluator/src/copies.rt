// Copies of responses, and of what they tell.
ghost use Rattle.std.specs.Prelude.{◌≡◌, map, IfOk};
ghost use Rattle.cedar_extensions.specs.Causes.{place_of};
ghost use Rattle.cedar_evaluator.specs.Concrete.{cause_seen, all_causes};
ghost use Rattle.cedar_evaluator.specs.Copies.{error_in, TellsSame};
ghost use Rattle.cedar_evaluator.specs.Holding.{holding_in, request_asked};

use crate::authorizer::Authorizer;
use crate::errors::AuthorizationError;
use crate::partial_response::PartialResponse;
use crate::reasons::Reasons;
use crate::response::{Diagnostics, EvaluationResponse, Response};
use std::alloc::{AllocError, Global};

/// The same functions and limit; takes no memory.
impl<F> Clone for Authorizer<'_, '_, F> {
    ghost use Rattle.std.specs.Prelude.{◌≡◌};

    ghost is_clone = { λ authorizer copy. copy ≡ authorizer };

    fn clone(&self) -> Result<Self, AllocError> {
        Ok(Authorizer {
            extensions: self.extensions,
            depth: self.depth,
        })
    }
}

impl AuthorizationError {
    /// A copy that shares the policy's id; refused for memory alone.
    pub fn clone(&self, alloc: Global) -> Result<AuthorizationError, AllocError>
        ensures cause { IfOk result (λ copy. cause_seen copy ≡ cause_seen self.now) }
        ensures place { IfOk result (λ copy. place_of (error_in copy) ≡ place_of (error_in self.now)) }
    {
        let AuthorizationError::PolicyEvaluationError { id, error } = self;
        let error = error.clone(alloc)?;
        Ok(AuthorizationError::PolicyEvaluationError {
            id: id.clone()?,
            error,
        })
    }
}

// Copies of errors, one after another; refused for memory alone.
fn copied(
    alloc: Global,
    errors: &[AuthorizationError],
) -> Result<Vec<AuthorizationError>, AllocError>
    ensures { IfOk result (λ copies. map cause_seen copies.items ≡ map cause_seen errors.now) }
{
    let mut copies = Vec::with_capacity(alloc, errors.len())?;
    for error in errors {
        copies.push(error.clone(alloc)?)?;
    }
    Ok(copies)
}

impl Reasons {
    /// A copy that shares the ids; refused for memory alone.
    pub fn clone(&self, alloc: Global) -> Result<Reasons, AllocError>
        ensures { IfOk result (λ copy. copy ≡ self.now) }
    {
        let ids = self.ids.clone(alloc)?;
        Ok(Reasons { ids })
    }
}

impl Diagnostics {
    /// A copy that shares the ids; refused for memory alone.
    pub fn clone(&self, alloc: Global) -> Result<Diagnostics, AllocError>
        ensures { IfOk result (TellsSame self.now) }
    {
        Ok(Diagnostics {
            reason: self.reason.clone(alloc)?,
            errors: copied(alloc, &self.errors)?,
        })
    }
}

impl Response {
    /// A copy that shares the ids; refused for memory alone.
    pub fn clone(&self, alloc: Global) -> Result<Response, AllocError>
        ensures decision { IfOk result (λ copy. copy.decision ≡ self.now.decision) }
        ensures diagnostics { IfOk result (λ copy. TellsSame self.now.diagnostics copy.diagnostics) }
    {
        Ok(Response {
            decision: self.decision,
            diagnostics: self.diagnostics.clone(alloc)?,
        })
    }
}

impl PartialResponse {
    /// A copy that shares ids, annotations, what is left of conditions, and the request; refused for memory
    /// alone.
    pub fn clone(&self, alloc: Global) -> Result<PartialResponse, AllocError>
        ensures held { IfOk result (λ copy. holding_in copy ≡ holding_in self.now) }
        ensures asked { IfOk result (λ copy. request_asked copy ≡ request_asked self.now) }
        ensures causes { IfOk result (λ copy. all_causes copy ≡ all_causes self.now) }
    {
        let satisfied_permits = self.satisfied_permits.clone(alloc)?;
        let false_permits = self.false_permits.clone(alloc)?;
        let residual_permits = self.residual_permits.clone(alloc)?;
        let satisfied_forbids = self.satisfied_forbids.clone(alloc)?;
        let false_forbids = self.false_forbids.clone(alloc)?;
        let residual_forbids = self.residual_forbids.clone(alloc)?;
        let errors = copied(alloc, &self.errors)?;
        let request = self.request.clone()?;
        Ok(PartialResponse {
            satisfied_permits,
            false_permits,
            residual_permits,
            satisfied_forbids,
            false_forbids,
            residual_forbids,
            errors,
            request,
        })
    }
}

impl EvaluationResponse {
    /// A copy that shares ids and parts of policies; refused for memory alone.
    pub fn clone(&self, alloc: Global) -> Result<EvaluationResponse, AllocError>
        ensures permits { IfOk result (λ copy. copy.satisfied_permits ≡ self.now.satisfied_permits) }
        ensures forbids { IfOk result (λ copy. copy.satisfied_forbids ≡ self.now.satisfied_forbids) }
        ensures errors { IfOk result (λ copy. map cause_seen copy.errors.items ≡ map cause_seen self.now.errors.items) }
        ensures open_permits { IfOk result (λ copy. copy.permit_residuals ≡ self.now.permit_residuals) }
        ensures open_forbids { IfOk result (λ copy. copy.forbid_residuals ≡ self.now.forbid_residuals) }
    {
        Ok(EvaluationResponse {
            satisfied_permits: self.satisfied_permits.clone(alloc)?,
            satisfied_forbids: self.satisfied_forbids.clone(alloc)?,
            errors: copied(alloc, &self.errors)?,
            permit_residuals: self.permit_residuals.clone(alloc)?,
            forbid_residuals: self.forbid_residuals.clone(alloc)?,
        })
    }
}
