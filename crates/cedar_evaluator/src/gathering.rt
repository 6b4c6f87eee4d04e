// What is found of the policies of a set, gathered in a response.
ghost use Rattle.std.specs.Prelude.{◌≡◌, Bool, true, false, [], IfOk, OnOk};
ghost use Rattle.std.specs.List.{IsDistinct};
ghost use Rattle.std.specs.Map.{keys_of};
ghost use Rattle.cedar_language.specs.Order.{same_text};
ghost use Rattle.cedar_extensions.specs.Failures.{failure_of};
ghost use Rattle.cedar_policies.specs.Policies.{policy_id, policy_syntax};
ghost use Rattle.cedar_policy_set.specs.Entries.{policies_of};
ghost use Rattle.cedar_requests.specs.Holding.{request_parts};
ghost use Rattle.cedar_trees.specs.Bare.{bare};
ghost use Rattle.cedar_evaluator.specs.Candidates.{policies_at};
ghost use Rattle.cedar_evaluator.specs.Evaluations.{Found, Satisfied, Erred, Open};
ghost use Rattle.cedar_evaluator.specs.Grouping.{kept_as, kept_of, is_want, IsKeepable, Adds, AddsFalse, IsNew, IsToldBy, KeepsBy, KeepsOneMore};
ghost use Rattle.cedar_evaluator.specs.Holding.{has_erred, holding_in, noted, request_asked};
ghost use Rattle.cedar_evaluator.specs.Responses.{false_id, holding_of};
ghost use Rattle.cedar_evaluator.specs.declared.scopes.Scopes.{Scopes};

use crate::candidates::candidates;
use crate::errors::AuthorizationError;
use crate::evaluation::EvaluatePolicy;
use crate::judging::{Told, at_a_glance, in_scope};
use crate::partial_response::{ErrorState, PartialResponse};
use crate::scopes::Scopes;
use cedar_extensions::evaluation_error::EvaluationError;
use cedar_extensions::lookups::ExtensionFunctionLookupError;
use cedar_extensions::objects::ExtensionFunctionObject;
use cedar_interpreter::Evaluator;
use cedar_policies::policies::Policy;
use cedar_policy_parts::annotations::Annotations;
use cedar_policy_parts::{Effect, PolicyID};
use cedar_policy_set::policy_map::PolicyMap;
use cedar_policy_set::sets::PolicySet;
use cedar_requests::Request;
use cedar_trees::expr::Expr;
use either::Either;
use std::alloc::{AllocError, Global};
use std::rc::Rc;

// Whether an error is want of memory.
fn is_want_of_memory(error: &EvaluationError) -> bool
    ensures { result ≡ is_want (failure_of error.now) }
{
    match error {
        EvaluationError::Memory => true,
        EvaluationError::FailedExtensionFunctionLookup(error) => match error {
            ExtensionFunctionLookupError::Memory(_) => true,
            ExtensionFunctionLookupError::FuncDoesNotExist(_) => false,
        },
        EvaluationError::EntityDoesNotExist(_) => false,
        EvaluationError::EntityAttrDoesNotExist(_) => false,
        EvaluationError::RecordAttrDoesNotExist(_) => false,
        EvaluationError::TypeError(_) => false,
        EvaluationError::WrongNumArguments(_) => false,
        EvaluationError::IntegerOverflow(_) => false,
        EvaluationError::UnlinkedSlot(_) => false,
        EvaluationError::FailedExtensionFunctionExecution(_) => false,
        EvaluationError::NonValue(_) => false,
        EvaluationError::RecursionLimit(_) => false,
    }
}

// The id and the annotations of a policy, as a group keeps them. Refused for memory alone.
fn noted(policy: &Policy) -> Result<(PolicyID, Rc<Annotations>), AllocError>
    ensures { IfOk result (λ kept. noted kept ≡ (policy_id policy.now, (policy_syntax policy.now).annotations)) }
{
    let id = policy.id().clone()?;
    let annotations = policy.annotations_arc().clone()?;
    Ok((id, annotations))
}

impl PartialResponse {
    /// The response to a request of which nothing is found yet; takes no memory.
    pub(crate) fn empty(alloc: Global, request: Rc<Request>) -> PartialResponse
        ensures none { holding_in result ≡ holding_of [] }
        ensures asked { request_asked result ≡ request_parts request.value }
    {
        PartialResponse {
            satisfied_permits: PolicyMap::new(alloc),
            false_permits: PolicyMap::new(alloc),
            residual_permits: PolicyMap::new(alloc),
            satisfied_forbids: PolicyMap::new(alloc),
            false_forbids: PolicyMap::new(alloc),
            residual_forbids: PolicyMap::new(alloc),
            errors: Vec::new(alloc),
            request,
        }
    }

    /// Keeps what each policy of a set, a static policy or a link, comes to, in their order, those that aren't
    /// satisfied as well where that is asked; without them, of one that errs the error alone. Refused for memory
    /// alone.
    pub(crate) fn gather<F: ExtensionFunctionObject>(
        &mut self,
        alloc: Global,
        evaluator: &Evaluator<'_, '_, '_, F>,
        scopes: &Scopes<'_>,
        policies: &PolicySet,
        with_false: bool,
    ) -> Result<(), AllocError>
        requires none { holding_in self.old ≡ holding_of [] }
        requires apart { IsDistinct same_text (keys_of (policies_of policies.now)) }
        ensures keeps { OnOk result (KeepsBy F.answers with_false evaluator.now scopes.now (policies_of policies.now) self.new) }
        ensures same { self.new.request ≡ self.old.request }
    {
        if with_false {
            return self.gather_all(alloc, evaluator, scopes, policies, with_false);
        }
        match candidates(alloc, scopes, policies)? {
            Some(positions) => self.gather_at(alloc, evaluator, scopes, policies, &positions),
            None => self.gather_all(alloc, evaluator, scopes, policies, with_false),
        }
    }

    // The same, by a look at each policy.
    fn gather_all<F: ExtensionFunctionObject>(
        &mut self,
        alloc: Global,
        evaluator: &Evaluator<'_, '_, '_, F>,
        scopes: &Scopes<'_>,
        policies: &PolicySet,
        with_false: bool,
    ) -> Result<(), AllocError>
        requires none { holding_in self.old ≡ holding_of [] }
        requires apart { IsDistinct same_text (keys_of (policies_of policies.now)) }
        ensures keeps { OnOk result (KeepsBy F.answers with_false evaluator.now scopes.now (policies_of policies.now) self.new) }
        ensures same { self.new.request ≡ self.old.request }
    {
        for policy in policies.policies() {
            self.evaluate(alloc, evaluator, scopes, policy, with_false)?;
        }
        Ok(())
    }

    // The same of the policies at these positions, without those that aren't satisfied.
    fn gather_at<F: ExtensionFunctionObject>(
        &mut self,
        alloc: Global,
        evaluator: &Evaluator<'_, '_, '_, F>,
        scopes: &Scopes<'_>,
        policies: &PolicySet,
        positions: &[usize],
    ) -> Result<(), AllocError>
        requires none { holding_in self.old ≡ holding_of [] }
        requires apart { IsDistinct same_text (keys_of (policies_at policies.now positions.now)) }
        ensures keeps { OnOk result (KeepsBy F.answers false evaluator.now scopes.now (policies_at policies.now positions.now) self.new) }
        ensures same { self.new.request ≡ self.old.request }
    {
        for position in positions {
            if let Some(policy) = policies.policy_at(*position) {
                self.evaluate(alloc, evaluator, scopes, policy, false)?;
            }
        }
        Ok(())
    }

    // Evaluates one more policy, and keeps what it comes to. Of most policies it is told whether they are
    // satisfied, and then no answer of an evaluation is made and taken apart.
    fn evaluate<F: ExtensionFunctionObject>(
        &mut self,
        alloc: Global,
        evaluator: &Evaluator<'_, '_, '_, F>,
        scopes: &Scopes<'_>,
        policy: &Policy,
        with_false: bool,
    ) -> Result<(), AllocError>
        requires { IsNew policy.now self.old }
        ensures keeps { OnOk result (KeepsOneMore F.answers with_false evaluator.now scopes.now policy.now self.old self.new) }
        ensures same { self.new.request ≡ self.old.request }
    {
        let told = at_a_glance(evaluator, scopes, policy);
        match told {
            Told::Decided(true) => self.keep_satisfied(policy),
            Told::Decided(false) => self.keep_false(policy, ErrorState::NoError, with_false),
            Told::InScope | Told::Unsaid => {
                self.evaluate_in_full(alloc, evaluator, policy, told, with_false)
            }
        }
    }

    // The same of a policy of which this is told. Not inlined, since few are evaluated in full.
    #[inline(never)]
    fn evaluate_in_full<F: ExtensionFunctionObject>(
        &mut self,
        alloc: Global,
        evaluator: &Evaluator<'_, '_, '_, F>,
        policy: &Policy,
        told: Told,
        with_false: bool,
    ) -> Result<(), AllocError>
        requires { IsNew policy.now self.old }
        ensures keeps { (scopes : Scopes) → IsToldBy F.answers evaluator.now scopes policy.now told →
            OnOk result (KeepsOneMore F.answers with_false evaluator.now scopes policy.now self.old self.new) }
        ensures same { self.new.request ≡ self.old.request }
    {
        match told {
            Told::InScope => {
                let answer = in_scope(alloc, evaluator, policy);
                self.keep(alloc, policy, answer, with_false)
            }
            Told::Unsaid | Told::Decided(_) => {
                let answer = evaluator.partial_evaluate(alloc, policy);
                self.keep(alloc, policy, answer, with_false)
            }
        }
    }

    // Keeps what one more policy comes to; want of memory is handed on.
    fn keep(
        &mut self,
        alloc: Global,
        policy: &Policy,
        answer: Result<Either<bool, Expr>, EvaluationError>,
        with_false: bool,
    ) -> Result<(), AllocError>
        requires { IsNew policy.now self.old }
        ensures held { OnOk result (Adds with_false (kept_of policy.now answer) self.old self.new) }
        ensures keepable { OnOk result (IsKeepable answer) }
        ensures same { self.new.request ≡ self.old.request }
    {
        match answer {
            Ok(Either::Left(true)) => self.keep_satisfied(policy),
            Ok(Either::Left(false)) => self.keep_false(policy, ErrorState::NoError, with_false),
            Ok(Either::Right(rest)) => self.keep_open(policy, Rc::new(alloc, rest)?),
            Err(error) => self.keep_erring(policy, error, with_false),
        }
    }

    fn keep_satisfied(&mut self, policy: &Policy) -> Result<(), AllocError>
        requires { IsNew policy.now self.old }
        ensures held { (with_false : Bool) → OnOk result (Adds with_false (kept_as policy.now Satisfied) self.old self.new) }
        ensures same { self.new.request ≡ self.old.request }
    {
        let (id, annotations) = noted(policy)?;
        match policy.effect() {
            Effect::Permit => self.satisfied_permits.push(id, annotations),
            Effect::Forbid => self.satisfied_forbids.push(id, annotations),
        }
    }

    fn keep_open(&mut self, policy: &Policy, rest: Rc<Expr>) -> Result<(), AllocError>
        requires { IsNew policy.now self.old }
        ensures held { (with_false : Bool) → OnOk result (Adds with_false (kept_as policy.now (Open (bare rest.value))) self.old self.new) }
        ensures same { self.new.request ≡ self.old.request }
    {
        let (id, annotations) = noted(policy)?;
        let kept = (rest, annotations);
        match policy.effect() {
            Effect::Permit => self.residual_permits.push(id, kept),
            Effect::Forbid => self.residual_forbids.push(id, kept),
        }
    }

    // An error counts as not satisfied; want of memory is handed on.
    fn keep_erring(
        &mut self,
        policy: &Policy,
        error: EvaluationError,
        with_false: bool,
    ) -> Result<(), AllocError>
        requires { IsNew policy.now self.old }
        ensures held { OnOk result (Adds with_false (kept_as policy.now (Erred (failure_of error))) self.old self.new) }
        ensures keepable { OnOk result (is_want (failure_of error) ≡ false) }
        ensures same { self.new.request ≡ self.old.request }
    {
        if is_want_of_memory(&error) {
            return Err(AllocError);
        }
        let id = policy.id().clone()?;
        self.errors
            .push(AuthorizationError::PolicyEvaluationError { id, error })?;
        self.keep_false(policy, ErrorState::Error, with_false)
    }

    // Keeps a policy that isn't satisfied, if such are kept; its error, where it erred, is kept already.
    fn keep_false(
        &mut self,
        policy: &Policy,
        state: ErrorState,
        with_false: bool,
    ) -> Result<(), AllocError>
        requires { IsNew policy.now self.old }
        ensures held { (found : Found) → false_id (policy_id policy.now) found ≡ Some (policy_id policy.now, has_erred state) →
            OnOk result (AddsFalse with_false (kept_as policy.now found) self.old self.new) }
        ensures same { self.new.request ≡ self.old.request }
    {
        if !with_false {
            return Ok(());
        }
        let (id, annotations) = noted(policy)?;
        let kept = (state, annotations);
        match policy.effect() {
            Effect::Permit => self.false_permits.push(id, kept),
            Effect::Forbid => self.false_forbids.push(id, kept),
        }
    }
}
