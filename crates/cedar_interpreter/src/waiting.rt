// What is left of a construct of which some parts wait for unknowns.
ghost use Rattle.std.specs.Prelude.{◌≡◌, [], ◌∷◌, true, IfOk, map, length};
ghost use Rattle.std.specs.Rc.{rc_str_bytes};
ghost use Rattle.cedar_language.specs.Facts.{Facts};
ghost use Rattle.cedar_language.specs.Tree as tree;
ghost use Rattle.cedar_partial_evaluation.specs.Partial.{LeafAnswers, residual_answer, has_answer, is_answer};
ghost use Rattle.cedar_grammar.specs.Build.{trees, keys};
ghost use Rattle.cedar_literals.specs.Operators.{unary_operator_of, binary_operator_of};
ghost use Rattle.cedar_shapes.specs.Parts.{parts as parts_of};
ghost use Rattle.cedar_trees.specs.Bare.{bare, bare_entries};
ghost use Rattle.cedar_restricted.specs.PartialValues.{partial_of};
ghost use Rattle.cedar_interpreter.specs.Forms.{unary_operator, is_of_list};
ghost use Rattle.cedar_interpreter.specs.Meeting.{part_answer};
ghost use Rattle.cedar_interpreter.specs.Operating.{left_in};

use crate::nodes::{has_chain, truth};
use crate::operands::UnaryOperator;
use crate::stated::{is_decided, key_told, type_told};
use cedar_literals::operators::{BinaryOp, UnaryOp};
use cedar_literals::uids::EntityType;
use cedar_restricted::partial_values::PartialValue;
use cedar_restricted_evaluation::keyed;
use cedar_trees::expr::{Expr, ExprKind};
use cedar_trees::unknowns::NonEmpty;
use std::alloc::{AllocError, Global};
use std::collections::BTreeMap;
use std::rc::{Rc, RcStr};

/// What is left of an operator of one operand, by what is left of that: the operator of it, but for `has`
/// and `is` where what is left decides. Refused for memory alone.
pub(crate) fn wait_for_one(
    alloc: Global,
    op: UnaryOperator<'_>,
    part: Expr,
) -> Result<PartialValue, AllocError>
    ensures { IfOk result (λ p. (facts : Facts) (holds : LeafAnswers) →
        residual_answer facts holds (unary_operator op.entry) (trees (bare part ∷ [])) ≡ part_answer (partial_of p)) }
{
    match op {
        UnaryOperator::Applied(op) => wait_for_applied(alloc, op, part),
        UnaryOperator::Has(attr) => wait_for_has(alloc, part, attr),
        UnaryOperator::HasPath(attrs) => wait_for_path(alloc, part, attrs),
        UnaryOperator::Like(pattern) => {
            let pattern = pattern.clone()?;
            Ok(PartialValue::from(Expr::like(alloc, part, pattern)?))
        }
        UnaryOperator::Is(entity_type) => wait_for_is(alloc, part, entity_type),
    }
}

/// What is left of a call, a set or a record, by what is left of its parts: the construct of these. Refused
/// for memory alone.
#[tactic(auto, using(crate::proofs::Applied::unary_is_no_list, crate::proofs::Applied::binary_is_no_list))]
pub(crate) fn wait_for_list(
    alloc: Global,
    expr: &Expr,
    parts: Vec<Expr>,
) -> Result<PartialValue, AllocError>
    requires list { is_of_list (bare expr.now) ≡ true }
    requires count { length parts.items ≡ length (parts_of (bare expr.now)) }
    ensures { IfOk result (λ p. (facts : Facts) (holds : LeafAnswers) →
        left_in facts holds (bare expr.now) (trees (map bare parts.items)) ≡ part_answer (partial_of p)) }
{
    match &expr.expr_kind {
        ExprKind::ExtensionFunctionApp { fn_name, .. } => {
            let name = fn_name.clone(alloc)?;
            Ok(PartialValue::from(Expr::call_extension_fn(alloc, name, parts)?))
        }
        ExprKind::Set(_) => Ok(PartialValue::from(Expr::set(alloc, parts)?)),
        ExprKind::Record(entries) => wait_for_entries(alloc, entries, parts),
        ExprKind::Lit(_) => unreachable!(),
        ExprKind::Var(_) => unreachable!(),
        ExprKind::Slot(_) => unreachable!(),
        ExprKind::Unknown(_) => unreachable!(),
        ExprKind::If { .. } => unreachable!(),
        ExprKind::And { .. } => unreachable!(),
        ExprKind::Or { .. } => unreachable!(),
        ExprKind::UnaryApp { .. } => unreachable!(),
        ExprKind::BinaryApp { .. } => unreachable!(),
        ExprKind::GetAttr { .. } => unreachable!(),
        ExprKind::HasAttr { .. } => unreachable!(),
        ExprKind::ExtHasAttr { .. } => unreachable!(),
        ExprKind::Like { .. } => unreachable!(),
        ExprKind::Is { .. } => unreachable!(),
    }
}

#[tactic(auto, using(crate::proofs::Left::one_left))]
fn wait_for_applied(alloc: Global, op: UnaryOp, part: Expr) -> Result<PartialValue, AllocError>
    ensures { IfOk result (λ p. (facts : Facts) (holds : LeafAnswers) →
        residual_answer facts holds (unary_operator_of op) (trees (bare part ∷ [])) ≡ part_answer (partial_of p)) }
{
    Ok(PartialValue::from(Expr::unary_app(alloc, op, part)?))
}

/// What is left of an operator of two operands, by what is left of these: the operator of them, but for `==`
/// where what is left decides. Refused for memory alone.
#[tactic(auto, using(crate::proofs::Left::two_left))]
pub(crate) fn wait_for_two(
    alloc: Global,
    op: BinaryOp,
    left: Expr,
    right: Expr,
) -> Result<PartialValue, AllocError>
    ensures { IfOk result (λ p. (facts : Facts) (holds : LeafAnswers) →
        residual_answer facts holds (binary_operator_of op) (trees (bare left ∷ bare right ∷ [])) ≡ part_answer (partial_of p)) }
{
    if is_decided(op, &left, &right) {
        Ok(truth(false))
    } else {
        Ok(PartialValue::from(Expr::binary_app(alloc, op, left, right)?))
    }
}

#[tactic(auto, using(crate::proofs::Left::has_left))]
fn wait_for_has(alloc: Global, part: Expr, attr: &RcStr) -> Result<PartialValue, AllocError>
    ensures { IfOk result (λ p. has_answer (rc_str_bytes attr.now) (bare part) ≡ part_answer (partial_of p)) }
{
    match key_told(&part, attr.as_str()) {
        Some(told) => Ok(truth(told)),
        None => Ok(PartialValue::from(Expr::has_attr(alloc, part, attr.clone()?)?)),
    }
}

fn wait_for_path(
    alloc: Global,
    part: Expr,
    attrs: &NonEmpty<RcStr>,
) -> Result<PartialValue, AllocError>
    ensures { IfOk result (λ p. (facts : Facts) (holds : LeafAnswers) →
        residual_answer facts holds (tree.HasPath (rc_str_bytes attrs.now.head) (map rc_str_bytes attrs.now.tail.items)) (trees (bare part ∷ [])) ≡ part_answer (partial_of p)) }
{
    let expr = Rc::new(alloc, part)?;
    let attrs = attrs.clone(alloc)?;
    Ok(PartialValue::from(has_chain(expr, attrs)))
}

#[tactic(auto, using(crate::proofs::Left::is_left))]
fn wait_for_is(
    alloc: Global,
    part: Expr,
    entity_type: &EntityType,
) -> Result<PartialValue, AllocError>
    ensures { IfOk result (λ p. is_answer entity_type.now (bare part) ≡ part_answer (partial_of p)) }
{
    match type_told(&part, entity_type) {
        Some(told) => Ok(truth(told)),
        None => {
            let entity_type = entity_type.clone(alloc)?;
            Ok(PartialValue::from(Expr::is_entity_type(alloc, part, entity_type)?))
        }
    }
}

fn wait_for_entries(
    alloc: Global,
    entries: &BTreeMap<RcStr, Expr>,
    parts: Vec<Expr>,
) -> Result<PartialValue, AllocError>
    requires { length parts.items ≡ length entries.now.entries }
    ensures { IfOk result (λ p. (facts : Facts) (holds : LeafAnswers) →
        residual_answer facts holds (tree.MakeRecord (keys (bare_entries entries.now.entries))) (trees (map bare parts.items)) ≡ part_answer (partial_of p)) }
{
    let entries = keyed(alloc, entries, parts)?;
    Ok(PartialValue::from(Expr::record_arc(Rc::new(alloc, entries)?)))
}
