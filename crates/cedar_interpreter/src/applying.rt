// Constructs at the values of their parts.
ghost use Rattle.std.specs.Prelude.{◌≡◌, None, true, false, length, IfOk};
ghost use Rattle.cedar_language.specs.Facts.{Facts};
ghost use Rattle.cedar_language.specs.Operators.{applied};
ghost use Rattle.cedar_language.specs.Order.{all_of};
ghost use Rattle.cedar_language.specs.Value.{Outcome, RecordOf};
ghost use Rattle.cedar_partial_evaluation.specs.Partial.{AllEvaluated, LeafAnswers, answer_of};
ghost use Rattle.cedar_grammar.specs.Build.{keys};
ghost use Rattle.cedar_literals.specs.Operators.{binary_operator_of};
ghost use Rattle.cedar_shapes.specs.Parts.{parts as parts_of};
ghost use Rattle.cedar_trees.specs.Bare.{bare, bare_entries};
ghost use Rattle.cedar_extensions.specs.Giving.{Gives};
ghost use Rattle.cedar_extensions.specs.Table.{as_table};
ghost use Rattle.cedar_value_operators.specs.Operands.{one, two};
ghost use Rattle.cedar_operators.specs.Store.{HasFacts};
ghost use Rattle.cedar_interpreter.specs.Forms.{unary_operator, is_of_list};
ghost use Rattle.cedar_interpreter.specs.Meeting.{MeetsAt};
ghost use Rattle.cedar_interpreter.specs.Holding.{AreTold};
ghost use Rattle.cedar_interpreter.specs.Operating.{applied_in, is_call, operated, HasFunctions};

use crate::leaves::named;
use crate::operands::UnaryOperator;
use crate::partial_stores::{open_has, open_pair, open_path};
use cedar_entities::store::Entities;
use cedar_extensions::evaluation_error::EvaluationError;
use cedar_extensions::extensions::Extensions;
use cedar_extensions::objects::ExtensionFunctionObject;
use cedar_literals::operators::BinaryOp;
use cedar_names::places::Loc;
use cedar_operators::{get_tag, has_attr, has_path, has_tag, is_in};
use cedar_restricted::partial_values::PartialValue;
use cedar_restricted_evaluation::{call, keyed};
use cedar_trees::expr::{Expr, ExprKind};
use cedar_value_operators::{
    binary_arith, binary_relation, contains, contains_all, contains_any, is_like, is_of_type,
    unary_app,
};
use cedar_values::values::Value;
use std::alloc::{AllocError, Global};
use std::collections::BTreeMap;
use std::rc::{Rc, RcStr};

/// A value as an answer.
pub(crate) fn known(value: Result<Value, EvaluationError>) -> Result<PartialValue, EvaluationError>
    ensures { (o : Outcome) → Gives (λ v. v) ⊥ value o → MeetsAt ⊥ (answer_of o) result }
{
    Ok(PartialValue::from(value?))
}

// What is left, if the store doesn't know what was looked up, and else what was found.
fn left_or_found(
    left: Option<PartialValue>,
    found: Result<Value, EvaluationError>,
) -> Result<PartialValue, EvaluationError>
    ensures { (o : Outcome) → left ≡ None → Gives (λ v. v) ⊥ found o → MeetsAt ⊥ (answer_of o) result }
{
    match left {
        Some(rest) => Ok(rest),
        None => known(found),
    }
}

/// What an operator of one operand gives for a value, or what is left of it where the store doesn't know
/// what it looks up.
pub(crate) fn apply_to_one(
    alloc: Global,
    op: UnaryOperator<'_>,
    value: Value,
    loc: Option<&Loc>,
    entities: &Entities,
) -> Result<PartialValue, EvaluationError>
    ensures { (facts : Facts) → HasFacts entities.now facts → MeetsAt ⊥ (answer_of (applied facts (unary_operator op.entry) (one value))) result }
{
    match op {
        UnaryOperator::Applied(op) => known(unary_app(alloc, op, value, loc)),
        UnaryOperator::Has(attr) => {
            let found = has_attr(alloc, entities, &value, attr);
            let rest = open_has(alloc, &found, entities, &value, attr)?;
            left_or_found(rest, found)
        }
        UnaryOperator::HasPath(attrs) => {
            let found = has_path(alloc, entities, &value, attrs);
            let rest = open_path(alloc, &found, entities, &value, attrs)?;
            left_or_found(rest, found)
        }
        UnaryOperator::Like(pattern) => known(is_like(alloc, &value, pattern)),
        UnaryOperator::Is(entity_type) => known(is_of_type(alloc, &value, entity_type)),
    }
}

/// What an operator of two operands gives for values, or what is left of it where the store doesn't know
/// what it looks up.
pub(crate) fn apply_to_two<F>(
    alloc: Global,
    op: BinaryOp,
    left: Value,
    right: Value,
    loc: Option<&Loc>,
    entities: &Entities,
    extensions: &Extensions<'_, F>,
) -> Result<PartialValue, EvaluationError>
    ensures { (facts : Facts) → HasFacts entities.now facts → MeetsAt ⊥ (answer_of (applied facts (binary_operator_of op) (two left right))) result }
{
    match op {
        BinaryOp::Eq => known(binary_relation(alloc, op, &left, &right, extensions)),
        BinaryOp::Less => known(binary_relation(alloc, op, &left, &right, extensions)),
        BinaryOp::LessEq => known(binary_relation(alloc, op, &left, &right, extensions)),
        BinaryOp::Add => known(binary_arith(alloc, op, left, right, loc)),
        BinaryOp::Sub => known(binary_arith(alloc, op, left, right, loc)),
        BinaryOp::Mul => known(binary_arith(alloc, op, left, right, loc)),
        BinaryOp::Contains => known(contains(alloc, &left, &right)),
        BinaryOp::ContainsAll => known(contains_all(alloc, &left, &right)),
        BinaryOp::ContainsAny => known(contains_any(alloc, &left, &right)),
        BinaryOp::In => {
            let found = is_in(alloc, entities, &left, &right);
            let rest = open_pair(alloc, &found, entities, op, &left, right)?;
            left_or_found(rest, found)
        }
        BinaryOp::GetTag => {
            let found = get_tag(alloc, entities, &left, &right, loc);
            let rest = open_pair(alloc, &found, entities, op, &left, right)?;
            left_or_found(rest, found)
        }
        BinaryOp::HasTag => {
            let found = has_tag(alloc, entities, &left, &right);
            let rest = open_pair(alloc, &found, entities, op, &left, right)?;
            left_or_found(rest, found)
        }
    }
}

/// What a call, a set or a record gives for the values of its parts. An unknown that a call names is answered
/// by the value that is told for it, if there is one.
pub(crate) fn apply_to_list<F: ExtensionFunctionObject>(
    alloc: Global,
    expr: &Expr,
    values: Vec<Value>,
    extensions: &Extensions<'_, F>,
    told: Option<&BTreeMap<RcStr, Value>>,
) -> Result<PartialValue, EvaluationError>
    requires list { is_of_list (bare expr.now) ≡ true }
    requires count { length values.items ≡ length (parts_of (bare expr.now)) }
    ensures { (facts : Facts) → HasFunctions (as_table F.answers extensions.now) facts → (holds : LeafAnswers) → AreTold told.entry holds →
        MeetsAt ⊥ (operated (as_table F.answers extensions.now).has_unknown facts holds (bare expr.now) (AllEvaluated (all_of values.items))) result }
{
    match &expr.expr_kind {
        ExprKind::ExtensionFunctionApp { fn_name, .. } => {
            let answer = call(alloc, fn_name, &values, None, extensions);
            named(alloc, told, answer)
        }
        _ => known(collected(alloc, expr, values)),
    }
}

// The set or the record of these values.
#[tactic(auto, using(crate::proofs::Applied::unary_is_no_list, crate::proofs::Applied::binary_is_no_list))]
fn collected(alloc: Global, expr: &Expr, values: Vec<Value>) -> Result<Value, EvaluationError>
    requires list { is_of_list (bare expr.now) ≡ true }
    requires called { is_call (bare expr.now) ≡ false }
    requires count { length values.items ≡ length (parts_of (bare expr.now)) }
    ensures found { (facts : Facts) → Gives (λ v. v) ⊥ result (applied_in facts (bare expr.now) (all_of values.items)) }
    ensures other { is_call (bare expr.now) ≡ false }
{
    match &expr.expr_kind {
        ExprKind::Set(_) => Ok(Value::set(alloc, values, None)?),
        ExprKind::Record(entries) => Ok(record_of(alloc, entries, values)?),
        ExprKind::Lit(_) => unreachable!(),
        ExprKind::Var(_) => unreachable!(),
        ExprKind::Slot(_) => unreachable!(),
        ExprKind::Unknown(_) => unreachable!(),
        ExprKind::If { .. } => unreachable!(),
        ExprKind::And { .. } => unreachable!(),
        ExprKind::Or { .. } => unreachable!(),
        ExprKind::UnaryApp { .. } => unreachable!(),
        ExprKind::BinaryApp { .. } => unreachable!(),
        ExprKind::ExtensionFunctionApp { .. } => unreachable!(),
        ExprKind::GetAttr { .. } => unreachable!(),
        ExprKind::HasAttr { .. } => unreachable!(),
        ExprKind::ExtHasAttr { .. } => unreachable!(),
        ExprKind::Like { .. } => unreachable!(),
        ExprKind::Is { .. } => unreachable!(),
    }
}

// The record of these values at the keys of the entries.
fn record_of(
    alloc: Global,
    entries: &BTreeMap<RcStr, Expr>,
    values: Vec<Value>,
) -> Result<Value, AllocError>
    requires { length values.items ≡ length entries.now.entries }
    ensures { IfOk result (λ value. value ≡ RecordOf (keys (bare_entries entries.now.entries)) (all_of values.items)) }
{
    let fields = keyed(alloc, entries, values)?;
    Ok(Value::record_arc(Rc::new(alloc, fields)?, None))
}
