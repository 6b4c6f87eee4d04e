// Constructs at the answers of their parts: what they give for the parts' values where all are values, and
// else what is left of them.
ghost use Rattle.std.specs.Prelude.{◌≡◌, true, map, length};
ghost use Rattle.cedar_language.specs.Facts.{Facts};
ghost use Rattle.cedar_language.specs.Value.{no_values};
ghost use Rattle.cedar_partial_evaluation.specs.Alike.{gathered};
ghost use Rattle.cedar_partial_evaluation.specs.Partial.{AllEvaluated, LeafAnswers, and_next, apply_answer};
ghost use Rattle.cedar_literals.specs.Operators.{binary_operator_of};
ghost use Rattle.cedar_shapes.specs.Parts.{parts as parts_of};
ghost use Rattle.cedar_trees.specs.Bare.{bare};
ghost use Rattle.cedar_restricted.specs.PartialValues.{partial_of};
ghost use Rattle.cedar_extensions.specs.Table.{as_table};
ghost use Rattle.cedar_operators.specs.Store.{HasFacts};
ghost use Rattle.cedar_interpreter.specs.Forms.{unary_operator, is_of_list};
ghost use Rattle.cedar_interpreter.specs.Meeting.{MeetsAt, part_answer};
ghost use Rattle.cedar_interpreter.specs.Holding.{AreTold};
ghost use Rattle.cedar_interpreter.specs.Operating.{operated, HasFunctions};

use crate::applying::{apply_to_list, apply_to_one, apply_to_two};
use crate::operands::UnaryOperator;
use crate::waiting::{wait_for_list, wait_for_one, wait_for_two};
use cedar_entities::store::Entities;
use cedar_extensions::evaluation_error::EvaluationError;
use cedar_extensions::extensions::Extensions;
use cedar_extensions::objects::ExtensionFunctionObject;
use cedar_literals::operators::BinaryOp;
use cedar_names::conversions::FromIn;
use cedar_names::places::Loc;
use cedar_partial_evaluation::gathered_splits;
use cedar_restricted::partial_values::PartialValue;
use cedar_restricted::split::split;
use cedar_trees::expr::Expr;
use cedar_values::values::Value;
use either::Either;
use std::alloc::Global;
use std::collections::BTreeMap;
use std::rc::RcStr;

/// The answer of an operator of one operand, by that one's.
#[inline(never)]
pub(crate) fn operate_on_one(
    alloc: Global,
    op: UnaryOperator<'_>,
    part: PartialValue,
    loc: Option<&Loc>,
    entities: &Entities,
) -> Result<PartialValue, EvaluationError>
    ensures { (facts : Facts) → HasFacts entities.now facts → (holds : LeafAnswers) →
        MeetsAt ⊥ (apply_answer facts holds (unary_operator op.entry) (and_next facts (part_answer (partial_of part)) (AllEvaluated no_values))) result }
{
    match part {
        PartialValue::Value(value) => apply_to_one(alloc, op, value, loc, entities),
        PartialValue::Residual(rest) => Ok(wait_for_one(alloc, op, rest)?),
    }
}

/// The answer of an operator of two operands, by theirs.
#[inline(never)]
pub(crate) fn operate_on_two<F>(
    alloc: Global,
    op: BinaryOp,
    left: PartialValue,
    right: PartialValue,
    loc: Option<&Loc>,
    entities: &Entities,
    extensions: &Extensions<'_, F>,
) -> Result<PartialValue, EvaluationError>
    ensures { (facts : Facts) → HasFacts entities.now facts → (holds : LeafAnswers) →
        MeetsAt ⊥ (apply_answer facts holds (binary_operator_of op) (and_next facts (part_answer (partial_of left)) (and_next facts (part_answer (partial_of right)) (AllEvaluated no_values)))) result }
{
    gathered_splits();
    match left {
        PartialValue::Residual(left) => {
            let right = Expr::from_in(alloc, right)?;
            Ok(wait_for_two(alloc, op, left, right)?)
        }
        PartialValue::Value(left) => match right {
            PartialValue::Residual(right) => {
                let left = Expr::from_in(alloc, PartialValue::Value(left))?;
                Ok(wait_for_two(alloc, op, left, right)?)
            }
            PartialValue::Value(right) => {
                apply_to_two(alloc, op, left, right, loc, entities, extensions)
            }
        },
    }
}

/// The answer of a call, a set or a record, by those of its parts. An unknown that a call names is answered
/// by the value that is told for it, if there is one.
#[inline(never)]
pub(crate) fn operate_on_list<F: ExtensionFunctionObject>(
    alloc: Global,
    expr: &Expr,
    parts: Vec<PartialValue>,
    extensions: &Extensions<'_, F>,
    told: Option<&BTreeMap<RcStr, Value>>,
) -> Result<PartialValue, EvaluationError>
    requires list { is_of_list (bare expr.now) ≡ true }
    requires count { length parts.items ≡ length (parts_of (bare expr.now)) }
    ensures { (facts : Facts) → HasFunctions (as_table F.answers extensions.now) facts → (holds : LeafAnswers) → AreTold told.entry holds →
        MeetsAt ⊥ (operated (as_table F.answers extensions.now).has_unknown facts holds (bare expr.now) (gathered facts (map part_answer (map partial_of parts.items)))) result }
{
    gathered_splits();
    match split(alloc, parts)? {
        Either::Left(values) => apply_to_list(alloc, expr, values, extensions, told),
        Either::Right(exprs) => Ok(wait_for_list(alloc, expr, exprs)?),
    }
}
