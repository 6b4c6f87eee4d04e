// How a policy stands for a request: its scope is looked at first, since most scopes don't hold, and then
// nothing else of the policy is read.
ghost use Rattle.std.specs.Prelude.{◌<◌, ◌≤◌};
ghost use Rattle.cedar_language.specs.Facts.{Facts};
ghost use Rattle.cedar_partial_evaluation.specs.Partial.{partial_in};
ghost use Rattle.cedar_partial_evaluation.specs.ReadUnknowns.{read_unknowns};
ghost use Rattle.cedar_evaluator.specs.Asking.{request_held};
ghost use Rattle.cedar_interpreter.specs.Depths.{evaluation_depth};
ghost use Rattle.cedar_interpreter.specs.Holding.{is_naming, depth_of};
ghost use Rattle.cedar_interpreter.specs.Meeting.{IsLimit};
ghost use Rattle.cedar_interpreter.specs.Naming.{naming_depth};
ghost use Rattle.cedar_policies.specs.Policies.{bindings_of};
ghost use Rattle.cedar_evaluator.specs.Evaluating.{condition_of, InScope, InScopeKnown, InScopeRead, JudgesAt, JudgesReadAt};
ghost use Rattle.cedar_evaluator.specs.Evaluations.{IsServedRead};
ghost use Rattle.cedar_evaluator.specs.Grouping.{ForEach, IsToldBy};
ghost use Rattle.cedar_evaluator.specs.Scopes.{Tells};

use crate::evaluation::judged;
use crate::scopes::Scopes;
use cedar_extensions::evaluation_error::EvaluationError;
use cedar_extensions::objects::ExtensionFunctionObject;
use cedar_interpreter::{Evaluator, last_of_and};
use cedar_partial_evaluation::unknowns_are_read;
use cedar_policies::policies::Policy;
use cedar_trees::expr::Expr;
use either::Either;
use std::alloc::Global;

/// What the scope of a policy tells of it, and behind a scope that holds a glance at its clauses.
#[derive(Clone, Copy)]
pub(crate) enum Told {
    /// Whether it is satisfied.
    Decided(bool),
    /// Its scope holds.
    InScope,
    /// Nothing.
    Unsaid,
}

/// What is told of a policy before it is evaluated. Its scope is looked at here alone. Takes no memory.
// Inlined, since each policy in force is asked so.
#[inline(always)]
pub(crate) fn at_a_glance<F: ExtensionFunctionObject>(
    evaluator: &Evaluator<'_, '_, '_, F>,
    scopes: &Scopes<'_>,
    policy: &Policy,
) -> Told
    ensures found { IsToldBy F.answers evaluator.now scopes.now policy.now result }
    ensures read { ForEach F.answers evaluator.now scopes.now (λ i store table depth.
        (facts : Facts) → IsServedRead i store table depth facts (condition_of policy.now) →
        Tells facts (request_held i (bindings_of policy.now)) policy.now (read_unknowns (condition_of policy.now)) result) }
{
    unknowns_are_read();
    match scopes.hold(policy) {
        Some(false) => Told::Decided(false),
        Some(true) => match policy.non_scope_constraints() {
            None => Told::Decided(true),
            Some(clauses) => match evaluator.glance(clauses) {
                Some(satisfied) => Told::Decided(satisfied),
                None => Told::InScope,
            },
        },
        None => Told::Unsaid,
    }
}

/// What a policy comes to, as `EvaluatePolicy::partial_evaluate` has it, where its scope holds: the clauses alone
/// are evaluated.
pub(crate) fn in_scope<F: ExtensionFunctionObject>(
    alloc: Global,
    evaluator: &Evaluator<'_, '_, '_, F>,
    policy: &Policy,
) -> Result<Either<bool, Expr>, EvaluationError>
    ensures found { InScope F.answers evaluator.now policy.now (λ facts holds. JudgesAt (partial_in facts holds (condition_of policy.now)) result) }
    ensures limit { IsLimit result → InScope F.answers evaluator.now policy.now (λ facts holds.
        depth_of evaluator.now < evaluation_depth facts holds (condition_of policy.now)) }
    ensures named_limit { IsLimit result → InScopeKnown F.answers evaluator.now policy.now (λ facts holds.
        depth_of evaluator.now < naming_depth (is_naming F.answers evaluator.now) facts holds (condition_of policy.now)) }
    ensures read { InScopeRead F.answers evaluator.now policy.now (λ facts holds.
        JudgesReadAt (partial_in facts holds (read_unknowns (condition_of policy.now))) result) }
    ensures read_limit { IsLimit result → InScopeRead F.answers evaluator.now policy.now (λ facts holds.
        depth_of evaluator.now ≤ evaluation_depth facts holds (read_unknowns (condition_of policy.now))) }
{
    unknowns_are_read();
    match policy.non_scope_constraints() {
        None => Ok(Either::Left(true)),
        Some(clauses) => {
            let answer = evaluator.partial_interpret(alloc, clauses, policy.env());
            judged(alloc, last_of_and(alloc, answer))
        }
    }
}
