//! One policy evaluated for a request: by `EvaluatePolicy` an `Evaluator` says whether it is satisfied, or what
//! is left of its condition. All policies of a set together are an `Authorizer`'s to evaluate.
ghost use Rattle.std.specs.Prelude.{◌<◌, ⊤, ℕ};
ghost use Rattle.cedar_language.specs.Facts.{Facts};
ghost use Rattle.cedar_language.specs.Tree.{Tree};
ghost use Rattle.cedar_language.specs.Value.{Outcome};
ghost use Rattle.cedar_partial_evaluation.specs.Partial.{Answer, LeafAnswers, partial_in};
ghost use Rattle.cedar_partial_evaluation.specs.ReadUnknowns.{read_unknowns};
ghost use Rattle.cedar_extensions.specs.Giving.{Gives};
ghost use Rattle.cedar_policies.specs.Policies.{bindings_of};
ghost use Rattle.cedar_policy_parts.specs.Bindings.{Bindings};
ghost use Rattle.cedar_interpreter.specs.Depths.{evaluation_depth};
ghost use Rattle.cedar_interpreter.specs.Holding.{held_by, Serves, ServesRead, Deep, NestsBeyond, IsDeepRead, depth_of};
ghost use Rattle.cedar_interpreter.specs.Meeting.{MeetsAt, ValueAt, IsLimit};
ghost use Rattle.cedar_evaluator.specs.Evaluating.{condition_of, JudgesAt, JudgesReadAt, MeansStanding, StandsAt, StandsBy};

use cedar_extensions::evaluation_error::EvaluationError;
use cedar_extensions::objects::ExtensionFunctionObject;
use cedar_interpreter::Evaluator;
use cedar_partial_evaluation::unknowns_are_read;
use cedar_policies::policies::Policy;
use cedar_restricted::partial_values::PartialValue;
use cedar_trees::expr::Expr;
use cedar_value_operators::get_as_bool;
use cedar_values::values::Value;
use either::Either;
use std::alloc::Global;

/// Evaluators of policies; their type stands below the policies.
pub trait EvaluatePolicy {
    // these are facts by which it evaluates a tree
    ghost serves: { Self → Facts → Tree → Type 0 };

    // what is held of variables, of unknowns and of slots that are bound so
    ghost holds: { Self → Bindings → LeafAnswers };

    // no evaluation nests deeper
    ghost depth: { Self → ℕ };

    /// Whether a policy is satisfied, or what is left of its condition where some of what it reads isn't
    /// known.
    ///
    /// It errs with what the condition errs with, `TypeError` where the condition is no Boolean,
    /// `RecursionLimit` where the evaluation nests deeper than the limit, and `Memory`.
    /// (Cedar language reference, "Authorization".)
    fn partial_evaluate(
        &self,
        alloc: Global,
        policy: &Policy,
    ) -> Result<Either<bool, Expr>, EvaluationError>
        ensures found { (facts : Facts) → serves self.now facts (condition_of policy.now) → JudgesAt (partial_in facts (holds self.now (bindings_of policy.now)) (condition_of policy.now)) result }
        ensures limit { IsLimit result → (facts : Facts) → serves self.now facts (condition_of policy.now) → depth self.now < evaluation_depth facts (holds self.now (bindings_of policy.now)) (condition_of policy.now) };

    /// Whether a policy is satisfied. It errs besides with `NonValue` where something is left of its
    /// condition.
    fn evaluate(&self, alloc: Global, policy: &Policy) -> Result<bool, EvaluationError>
        ensures found { (facts : Facts) → serves self.now facts (condition_of policy.now) → StandsAt (partial_in facts (holds self.now (bindings_of policy.now)) (condition_of policy.now)) result }
        ensures limit { IsLimit result → (facts : Facts) → serves self.now facts (condition_of policy.now) → depth self.now < evaluation_depth facts (holds self.now (bindings_of policy.now)) (condition_of policy.now) };
}

impl<'s, 'e, 'f, F: ExtensionFunctionObject> EvaluatePolicy for Evaluator<'s, 'e, 'f, F> {
    ghost serves = { λ ev facts t. Serves F.answers ev facts t };

    ghost holds = { λ ev slots. held_by ev slots };

    ghost depth = { λ ev. depth_of ev };

    fn partial_evaluate(
        &self,
        alloc: Global,
        policy: &Policy,
    ) -> Result<Either<bool, Expr>, EvaluationError>
        ensures found { (facts : Facts) → Serves F.answers self.now facts (condition_of policy.now) → JudgesAt (partial_in facts (held_by self.now (bindings_of policy.now)) (condition_of policy.now)) result }
        ensures limit { IsLimit result → Deep F.answers self.now (bindings_of policy.now) (depth_of self.now) (condition_of policy.now) }
        ensures named_limit { IsLimit result → NestsBeyond F.answers self.now (bindings_of policy.now) (depth_of self.now) (condition_of policy.now) }
        ensures read { (facts : Facts) → ServesRead F.answers self.now facts (condition_of policy.now) → JudgesReadAt (partial_in facts (held_by self.now (bindings_of policy.now)) (read_unknowns (condition_of policy.now))) result }
        ensures read_limit { IsLimit result → IsDeepRead F.answers self.now (bindings_of policy.now) (depth_of self.now) (condition_of policy.now) }
    {
        unknowns_are_read();
        let condition = policy.condition(alloc)?;
        let answer = self.partial_interpret(alloc, &condition, policy.env());
        judged(alloc, answer)
    }

    fn evaluate(&self, alloc: Global, policy: &Policy) -> Result<bool, EvaluationError>
        ensures means { (facts : Facts) → Serves F.answers self.now facts (condition_of policy.now) → MeansStanding facts (held_by self.now (bindings_of policy.now)) (depth_of self.now) (condition_of policy.now) result }
        ensures found { (facts : Facts) → Serves F.answers self.now facts (condition_of policy.now) → StandsAt (partial_in facts (held_by self.now (bindings_of policy.now)) (condition_of policy.now)) result }
        ensures limit { IsLimit result → Deep F.answers self.now (bindings_of policy.now) (depth_of self.now) (condition_of policy.now) }
        ensures named_limit { IsLimit result → NestsBeyond F.answers self.now (bindings_of policy.now) (depth_of self.now) (condition_of policy.now) }
        ensures read { (facts : Facts) → ServesRead F.answers self.now facts (condition_of policy.now) → StandsAt (partial_in facts (held_by self.now (bindings_of policy.now)) (read_unknowns (condition_of policy.now))) result }
        ensures read_limit { IsLimit result → IsDeepRead F.answers self.now (bindings_of policy.now) (depth_of self.now) (condition_of policy.now) }
    {
        let condition = policy.condition(alloc)?;
        let answer = self.interpret(alloc, &condition, policy.env());
        tested(alloc, answer)
    }
}

// Whether an answer is true, or what is left of it; `TypeError` where it is no Boolean.
pub(crate) fn judged(
    alloc: Global,
    answer: Result<PartialValue, EvaluationError>,
) -> Result<Either<bool, Expr>, EvaluationError>
    ensures found { (b : Answer) → MeetsAt ⊤ b answer → JudgesAt b result }
    ensures limit { IsLimit result → IsLimit answer }
{
    match answer {
        Err(error) => Err(error),
        Ok(PartialValue::Residual(rest)) => Ok(Either::Right(rest)),
        Ok(PartialValue::Value(value)) => match get_as_bool(alloc, &value) {
            Ok(satisfied) => Ok(Either::Left(satisfied)),
            Err(error) => Err(error),
        },
    }
}

// Whether an answer is true; `TypeError` where it is no Boolean.
fn tested(alloc: Global, answer: Result<Value, EvaluationError>) -> Result<bool, EvaluationError>
    ensures means { (depth high : ℕ) (meant : Outcome) → Gives (λ v. v) (depth < high) answer meant → StandsBy (depth < high) meant result }
    ensures found { (b : Answer) → ValueAt ⊤ b answer → StandsAt b result }
    ensures limit { IsLimit result → IsLimit answer }
{
    match answer {
        Err(error) => Err(error),
        Ok(value) => get_as_bool(alloc, &value),
    }
}
