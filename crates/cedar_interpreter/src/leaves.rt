// Expressions without parts.
ghost use Rattle.std.specs.Prelude.{◌≡◌, Bool, true, Some, None, option_map, IfOk};
ghost use Rattle.std.specs.Option.{option_copied};
ghost use Rattle.cedar_language.specs.Facts.{Facts};
ghost use Rattle.cedar_language.specs.Meaning.{slot_outcome};
ghost use Rattle.cedar_language.specs.Operators.{called};
ghost use Rattle.cedar_language.specs.Tree.{Unknown as Leaf};
ghost use Rattle.cedar_language.specs.Uid.{Name};
ghost use Rattle.cedar_language.specs.Value.{Values};
ghost use Rattle.cedar_literals.specs.Variables.{variable_of};
ghost use Rattle.cedar_partial_evaluation.specs.Partial.{answer_of};
ghost use Rattle.cedar_partial_evaluation.specs.Question.{name_held, value_held};
ghost use Rattle.cedar_partial_evaluation.specs.Unknowns.{fits};
ghost use Rattle.cedar_policy_parts.specs.Bindings.{binding_of};
ghost use Rattle.cedar_trees.specs.Bare.{bare};
ghost use Rattle.cedar_trees.specs.Unknowns.{unknown_name, unknown_type};
ghost use Rattle.cedar_extensions.specs.Table.{Table};
ghost use Rattle.cedar_restricted.specs.PartialValues.{partial_of};
ghost use Rattle.cedar_restricted_evaluation.specs.Findings.{Calls};
ghost use Rattle.cedar_interpreter.specs.Forms.{is_leaf};
ghost use Rattle.cedar_interpreter.specs.Holding.{held_by, value_told, variable_in};
ghost use Rattle.cedar_interpreter.specs.Meeting.{MeetsAt};
ghost use Rattle.cedar_interpreter.specs.Naming.{call_answer, naming_in};
ghost use Rattle.cedar_interpreter.specs.Operating.{unknown_at};

use crate::evaluator::{Evaluator, Variables};
use cedar_extensions::evaluation_error::EvaluationError;
use cedar_literals::literals::Literal;
use cedar_literals::slots::SlotId;
use cedar_literals::types::StaticallyTyped;
use cedar_literals::variables::Var;
use cedar_policy_parts::bindings::SlotEnv;
use cedar_restricted::partial_values::PartialValue;
use cedar_trees::expr::{Expr, ExprKind};
use cedar_trees::unknowns::Unknown;
use cedar_values::values::Value;
use std::alloc::{AllocError, Global};
use std::collections::BTreeMap;
use std::rc::{Rc, RcStr};

impl<'s, 'e, 'f, F> Evaluator<'s, 'e, 'f, F> {
    /// The answer of an expression without parts.
    pub(crate) fn leaf(
        &self,
        alloc: Global,
        expr: &Expr,
        slots: &SlotEnv,
    ) -> Result<PartialValue, EvaluationError>
        requires { is_leaf (bare expr.now) ≡ true }
        ensures { (naming : Bool) (facts : Facts) → MeetsAt ⊥ (naming_in naming facts (held_by self.now slots.now) (bare expr.now)) result }
    {
        match &expr.expr_kind {
            ExprKind::Lit(literal) => Ok(PartialValue::from(Value::from(literal.clone()?))),
            ExprKind::Var(var) => Ok(variable(alloc, self.variables.get(), *var)?),
            ExprKind::Slot(slot) => bound(alloc, slots, slot),
            ExprKind::Unknown(name) => unknown(alloc, self.told, name),
            ExprKind::If { .. } => unreachable!(),
            ExprKind::And { .. } => unreachable!(),
            ExprKind::Or { .. } => unreachable!(),
            ExprKind::UnaryApp { .. } => unreachable!(),
            ExprKind::BinaryApp { .. } => unreachable!(),
            ExprKind::ExtensionFunctionApp { .. } => unreachable!(),
            ExprKind::GetAttr { .. } => unreachable!(),
            ExprKind::HasAttr { .. } => unreachable!(),
            ExprKind::ExtHasAttr { .. } => unreachable!(),
            ExprKind::Like { .. } => unreachable!(),
            ExprKind::Is { .. } => unreachable!(),
            ExprKind::Set(_) => unreachable!(),
            ExprKind::Record(_) => unreachable!(),
        }
    }
}

// What stands for a variable; refused for memory alone.
fn variable(alloc: Global, variables: &Variables<'_>, var: Var) -> Result<PartialValue, AllocError>
    ensures { IfOk result (λ p. partial_of p ≡ partial_of (variable_in variables.now (variable_of var))) }
{
    copied(alloc, variables.part(var))
}

fn copied(alloc: Global, partial: &PartialValue) -> Result<PartialValue, AllocError>
    ensures { IfOk result (λ p. partial_of p ≡ partial_of partial.now) }
{
    match partial {
        PartialValue::Value(value) => Ok(PartialValue::Value(value.clone(alloc)?)),
        PartialValue::Residual(rest) => Ok(PartialValue::Residual(rest.clone(alloc)?)),
    }
}

/// The answer of a call, by what its function answers: where that names an unknown, the value that is told for
/// it, or else the unknown itself.
pub(crate) fn named(
    alloc: Global,
    told: Option<&BTreeMap<RcStr, Value>>,
    answer: Result<PartialValue, EvaluationError>,
) -> Result<PartialValue, EvaluationError>
    ensures { (table : Table) (f : Name) (vs : Values) → Calls table f vs answer →
        MeetsAt ⊥ (call_answer table.has_unknown (λ n. name_held (value_told told.entry n) n None) f (called (table.function f) vs)) result }
{
    match answer {
        Ok(PartialValue::Value(value)) => Ok(PartialValue::Value(value)),
        Ok(PartialValue::Residual(rest)) => match unknown_in(&rest) {
            Some(name) => unknown(alloc, told, name),
            None => Ok(PartialValue::Residual(rest)),
        },
        Err(error) => Err(error),
    }
}

// The unknown that an expression is.
fn unknown_in(expr: &Expr) -> Option<&Unknown>
    ensures { option_map (λ u. Leaf (unknown_name u) (unknown_type u)) (option_copied result) ≡ unknown_at (bare expr.now) }
{
    match &expr.expr_kind {
        ExprKind::Unknown(unknown) => Some(unknown),
        _ => None,
    }
}

// The value that is told for an unknown, or else the unknown itself. It errs with `TypeError` where the
// value is of another type than the one that the unknown states.
fn unknown(
    alloc: Global,
    told: Option<&BTreeMap<RcStr, Value>>,
    unknown: &Unknown,
) -> Result<PartialValue, EvaluationError>
    ensures { MeetsAt ⊥ (name_held (value_told told.entry (unknown_name unknown.now)) (unknown_name unknown.now) (unknown_type unknown.now)) result }
{
    match value_for(told, unknown) {
        Some(value) => typed(alloc, value, unknown),
        None => Ok(PartialValue::unknown(unknown.clone()?)),
    }
}

// The value that is told for an unknown.
fn value_for<'s>(told: Option<&'s BTreeMap<RcStr, Value>>, unknown: &Unknown) -> Option<&'s Value>
    ensures { option_copied result ≡ value_told told.entry (unknown_name unknown.now) }
{
    match told {
        Some(told) => found_for(told, unknown.name.as_str()),
        None => None,
    }
}

// The value that is told for a name.
fn found_for<'s>(told: &'s BTreeMap<RcStr, Value>, name: &str) -> Option<&'s Value>
    ensures { option_copied result ≡ value_told (Some told.entry) name.now }
{
    told.get(name)
}

// A value for an unknown. It errs with `TypeError` where the unknown states another type.
fn typed(alloc: Global, value: &Value, unknown: &Unknown) -> Result<PartialValue, EvaluationError>
    ensures { MeetsAt ⊥ (value_held (fits (unknown_type unknown.now) value.now) value.now) result }
{
    match &unknown.type_annotation {
        Some(expected) => {
            if *expected == value.type_of(alloc)? {
                return Ok(PartialValue::from(value.clone(alloc)?));
            }
            let expected = expected.clone()?;
            Err(EvaluationError::type_error_single(alloc, expected, value)?)
        }
        None => Ok(PartialValue::from(value.clone(alloc)?)),
    }
}

// The entity that a slot is bound to. It errs with `UnlinkedSlot` where it isn't bound.
fn bound(alloc: Global, slots: &SlotEnv, slot: &SlotId) -> Result<PartialValue, EvaluationError>
    ensures { MeetsAt ⊥ (answer_of (slot_outcome (binding_of slots.now slot.now))) result }
{
    match slots.get(slot) {
        Some(uid) => {
            let uid = Rc::new(alloc, uid.clone(alloc)?)?;
            Ok(PartialValue::from(Value::from(Literal::EntityUID(uid))))
        }
        None => Err(EvaluationError::unlinked_slot(*slot, None)),
    }
}
