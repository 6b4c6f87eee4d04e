// An evaluator made, and asked.
ghost use Rattle.std.specs.Prelude.{⊤, ℕ, Option, Some, IfOk};
ghost use Rattle.cedar_language.specs.Facts.{Facts};
ghost use Rattle.cedar_language.specs.Tree.{Variable};
ghost use Rattle.cedar_language.specs.Uid.{Text};
ghost use Rattle.cedar_language.specs.Value.{Value as Meant};
ghost use Rattle.cedar_partial_evaluation.specs.Partial.{Answer, partial_in};
ghost use Rattle.cedar_partial_evaluation.specs.ReadUnknowns.{read_unknowns};
ghost use Rattle.cedar_entities.specs.declared.store.Entities.{Entities as Store};
ghost use Rattle.cedar_extensions.specs.Table.{Table, as_table};
ghost use Rattle.cedar_trees.specs.Bare.{bare};
ghost use Rattle.cedar_interpreter.specs.Asking.{answer_asked, nothing_told, StandFor, AnswersFor, MeansTree};
ghost use Rattle.cedar_interpreter.specs.Holding.{held_by, value_told, Knows, Serves, ServesRead, is_naming, Deep, NestsBeyond, IsDeepRead, depth_of};
ghost use Rattle.cedar_interpreter.specs.Meeting.{MeetsAt, ReadsAt, ValueAt, IsLimit};
ghost use Rattle.cedar_interpreter.specs.Naming.{naming_in};
ghost use Rattle.cedar_interpreter.specs.Seen.{AreSeen};

use crate::evaluator::{EntityVariable, Evaluator, Variables};
use cedar_entities::store::Entities;
use cedar_extensions::evaluation_error::EvaluationError;
use cedar_extensions::extensions::Extensions;
use cedar_extensions::objects::ExtensionFunctionObject;
use cedar_names::shared::Shared;
use cedar_partial_evaluation::{
    known_is_meaning, known_is_never_left, leaves_dont_matter, unknowns_are_read,
};
use cedar_policy_parts::bindings::SlotEnv;
use cedar_restricted::partial_values::PartialValue;
use cedar_trees::expr::Expr;
use cedar_values::values::Value;
use std::alloc::{AllocError, Global};
use std::collections::BTreeMap;
use std::rc::RcStr;

/// What stands for the variables of a request: for the principal, the action and the resource an entity or an
/// unknown; for the context a record, what is left of one, or an unknown.
#[derive(Drop)]
pub struct AskedVariables {
    /// For the principal.
    pub principal: PartialValue,
    /// For the action.
    pub action: PartialValue,
    /// For the resource.
    pub resource: PartialValue,
    /// For the context.
    pub context: PartialValue,
}

impl<'s, 'e, 'f, F: ExtensionFunctionObject> Evaluator<'s, 'e, 'f, F> {
    /// The evaluator for which these stand for the variables, over these entities and functions. No evaluation
    /// nests deeper than `depth`, the outermost expression being at 1. Refused for memory alone. (Cedar language
    /// reference, "Request".)
    pub fn asked(
        alloc: Global,
        asked: AskedVariables,
        entities: &'s Entities,
        extensions: &'e Extensions<'f, F>,
        depth: u32,
    ) -> Result<Evaluator<'s, 'e, 'f, F>, AllocError>
        ensures { IfOk result (λ ev. AnswersFor F.answers (answer_asked asked) nothing_told entities.now (as_table F.answers extensions.now) depth ev) }
    {
        let variables = Shared::new(alloc, Variables::seen(entities, asked))?;
        Ok(Evaluator {
            variables,
            entities,
            extensions,
            depth,
            told: None,
        })
    }

    /// The evaluator for which unknowns of these names have these values: an unknown with another type
    /// than its value's errs with `TypeError`.
    pub fn with_told(self, told: &'s BTreeMap<RcStr, Value>) -> Evaluator<'s, 'e, 'f, F>
        ensures { (variables : Variable → Answer) (before : Text → Option Meant) (store : Store) (table : Table) (depth : ℕ) →
            AnswersFor F.answers variables before store table depth self.entry →
            AnswersFor F.answers variables (value_told (Some told.entry)) store table depth result }
    {
        Evaluator {
            variables: self.variables,
            entities: self.entities,
            extensions: self.extensions,
            depth: self.depth,
            told: Some(told),
        }
    }

    /// The value of an expression, or what is left of it where some of what it reads isn't known.
    ///
    /// Where the table has the function `unknown`, a call of it on one string literal is the unknown of this
    /// name; what is left may keep it as that call.
    ///
    /// It errs with what the expression errs with, `RecursionLimit` where the evaluation nests deeper than
    /// the limit, and `Memory`. (Cedar language reference, "Semantics of operators".)
    pub fn partial_interpret(
        &self,
        alloc: Global,
        expr: &Expr,
        slots: &SlotEnv,
    ) -> Result<PartialValue, EvaluationError>
        ensures found { (facts : Facts) → Serves F.answers self.now facts (bare expr.now) → MeetsAt ⊤ (partial_in facts (held_by self.now slots.now) (bare expr.now)) result }
        ensures limit { IsLimit result → Deep F.answers self.now slots.now (depth_of self.now) (bare expr.now) }
        ensures named { (facts : Facts) → Knows F.answers self.now facts → MeetsAt ⊤ (naming_in (is_naming F.answers self.now) facts (held_by self.now slots.now) (bare expr.now)) result }
        ensures named_limit { IsLimit result → NestsBeyond F.answers self.now slots.now (depth_of self.now) (bare expr.now) }
        ensures read { (facts : Facts) → ServesRead F.answers self.now facts (bare expr.now) → ReadsAt ⊤ (partial_in facts (held_by self.now slots.now) (read_unknowns (bare expr.now))) result }
        ensures read_limit { IsLimit result → IsDeepRead F.answers self.now slots.now (depth_of self.now) (bare expr.now) }
    {
        unknowns_are_read();
        self.interpret_within(alloc, expr, slots, self.depth)
    }

    /// The value of an expression: what it means, where it reads nothing that is unknown. It errs besides
    /// with `NonValue` where something is left of it.
    pub fn interpret(
        &self,
        alloc: Global,
        expr: &Expr,
        slots: &SlotEnv,
    ) -> Result<Value, EvaluationError>
        ensures means { (facts : Facts) → Serves F.answers self.now facts (bare expr.now) → MeansTree facts (held_by self.now slots.now) (depth_of self.now) (bare expr.now) result }
        ensures found { (facts : Facts) → Serves F.answers self.now facts (bare expr.now) → ValueAt ⊤ (partial_in facts (held_by self.now slots.now) (bare expr.now)) result }
        ensures limit { IsLimit result → Deep F.answers self.now slots.now (depth_of self.now) (bare expr.now) }
        ensures named_limit { IsLimit result → NestsBeyond F.answers self.now slots.now (depth_of self.now) (bare expr.now) }
        ensures read { (facts : Facts) → ServesRead F.answers self.now facts (bare expr.now) → ValueAt ⊤ (partial_in facts (held_by self.now slots.now) (read_unknowns (bare expr.now))) result }
        ensures read_limit { IsLimit result → IsDeepRead F.answers self.now slots.now (depth_of self.now) (bare expr.now) }
    {
        unknowns_are_read();
        known_is_meaning();
        known_is_never_left();
        leaves_dont_matter();
        value_of(alloc, self.partial_interpret(alloc, expr, slots))
    }
}

// The value that an answer is; it errs with `NonValue` where something is left.
fn value_of(
    alloc: Global,
    answer: Result<PartialValue, EvaluationError>,
) -> Result<Value, EvaluationError>
    ensures found { (b : Answer) → MeetsAt ⊤ b answer → ValueAt ⊤ b result }
    ensures limit { IsLimit result → IsLimit answer }
{
    match answer {
        Ok(PartialValue::Value(value)) => Ok(value),
        Ok(PartialValue::Residual(rest)) => Err(EvaluationError::non_value(alloc, rest)?),
        Err(error) => Err(error),
    }
}

impl<'s> Variables<'s> {
    // What stands for the variables, with what a store holds of the entities among it.
    fn seen(entities: &'s Entities, asked: AskedVariables) -> Variables<'s>
        ensures stand { StandFor asked result }
        ensures seen { AreSeen entities.now result }
    {
        Variables {
            principal: EntityVariable::of(entities, asked.principal),
            action: EntityVariable::of(entities, asked.action),
            resource: EntityVariable::of(entities, asked.resource),
            context: asked.context,
        }
    }
}
