// The types of operators, by those of their operands.
ghost use Rattle.std.specs.Prelude.{◌≡◌, [], ◌∷◌, map, length};
ghost use Rattle.cedar_grammar.specs.Build.{trees};
ghost use Rattle.cedar_literals.specs.Operators.{binary_operator_of};
ghost use Rattle.cedar_trees.specs.Bare.{bare};
ghost use Rattle.cedar_typing.specs.Typing.{operator_type, type_of};
ghost use Rattle.cedar_typechecker.specs.Capabilities.{capabilities_view};
ghost use Rattle.cedar_typechecker.specs.Forms.{leaf_tree, unary_operator, list_operator, list_parts};
ghost use Rattle.cedar_typechecker.specs.Operators.{part_count};
ghost use Rattle.cedar_typechecker.specs.Results.{Finds};
ghost use Rattle.cedar_typechecker.specs.Types.{type_view};

use crate::attributes::{attribute_type, has_attribute_type};
use crate::calls::call_type;
use crate::capabilities::Capability;
use crate::containers::set_type;
use crate::environment::RequestEnv;
use crate::faults::{TypingError, TypingFault};
use crate::forms::Leaf;
use crate::leaves::{literal_type, slot_type, variable_type};
use crate::operands::{ListOperator, UnaryOperator};
use crate::paths::has_path_type;
use crate::plain::{
    arithmetic_type, contains_type, is_empty_type, is_type, less_type, like_type, neg_type,
    not_type, two_sets_type,
};
use crate::records::record_type;
use crate::relations::{equal_type, in_type};
use crate::results::Typed;
use crate::tags::{get_tag_type, has_tag_type};
use crate::types::ExprType;
use cedar_literals::operators::{BinaryOp, UnaryOp};
use cedar_trees::expr::Expr;
use std::alloc::Global;
use std::rc::Rc;

/// The type of an expression without parts.
pub(crate) fn leaf_type<E: RequestEnv>(
    env: &E,
    alloc: Global,
    leaf: Leaf<'_>,
) -> Result<Typed, TypingError>
    ensures { Finds ⊥ (type_of (E.environment env.now) (leaf_tree leaf.entry) []) result }
{
    let expr_type = match leaf {
        Leaf::Literal(literal) => literal_type(env, alloc, literal)?,
        Leaf::Variable(var) => variable_type(env, alloc, var)?,
        Leaf::Slot(slot) => slot_type(env, alloc, slot)?,
        Leaf::Unknown(_) => return Err(TypingError::Faulty(TypingFault::UnknownNotAllowed)),
    };
    Ok(Typed::plainly(alloc, expr_type))
}

/// The type of an operator of one operand.
pub(crate) fn unary_type<E: RequestEnv>(
    env: &E,
    alloc: Global,
    op: UnaryOperator<'_>,
    of: &Rc<Expr>,
    of_type: &ExprType,
    held: &[Capability],
) -> Result<Typed, TypingError>
    ensures { Finds ⊥ (operator_type (E.environment env.now) (unary_operator op.entry) (trees (bare of.now.value ∷ [])) (type_view of_type.now ∷ []) (capabilities_view held.now)) result }
{
    let expr_type = match op {
        UnaryOperator::Applied(UnaryOp::Not) => not_type(of_type)?,
        UnaryOperator::Applied(UnaryOp::Neg) => neg_type(of_type)?,
        UnaryOperator::Applied(UnaryOp::IsEmpty) => is_empty_type(of_type)?,
        UnaryOperator::Get(attr) => attribute_type(env, alloc, of, of_type, attr, held)?,
        UnaryOperator::Has(attr) => return has_attribute_type(env, alloc, of, of_type, attr, held),
        UnaryOperator::HasPath(attrs) => return has_path_type(env, alloc, of, of_type, attrs, held),
        UnaryOperator::Like(_) => like_type(of_type)?,
        UnaryOperator::Is(name) => is_type(env, name, of_type)?,
    };
    Ok(Typed::plainly(alloc, expr_type))
}

/// The type of an operator of two operands.
pub(crate) fn binary_type<E: RequestEnv>(
    env: &E,
    alloc: Global,
    op: BinaryOp,
    left: &Rc<Expr>,
    right: &Rc<Expr>,
    left_type: &ExprType,
    right_type: &ExprType,
    held: &[Capability],
) -> Result<Typed, TypingError>
    ensures { Finds ⊥ (operator_type (E.environment env.now) (binary_operator_of op) (trees (bare left.now.value ∷ bare right.now.value ∷ [])) (type_view left_type.now ∷ type_view right_type.now ∷ []) (capabilities_view held.now)) result }
{
    let expr_type = match op {
        BinaryOp::Eq => equal_type(env, alloc, left, right, left_type, right_type)?,
        BinaryOp::Less | BinaryOp::LessEq => less_type(left_type, right_type)?,
        BinaryOp::Add | BinaryOp::Sub | BinaryOp::Mul => arithmetic_type(left_type, right_type)?,
        BinaryOp::In => in_type(env, left, right, left_type, right_type)?,
        BinaryOp::Contains => contains_type(alloc, left_type, right_type)?,
        BinaryOp::ContainsAll | BinaryOp::ContainsAny => two_sets_type(
            alloc, left_type, right_type,
        )?,
        BinaryOp::GetTag => get_tag_type(env, alloc, left, right, left_type, right_type, held)?,
        BinaryOp::HasTag => return has_tag_type(
            env, alloc, left, right, left_type, right_type, held,
        ),
    };
    Ok(Typed::plainly(alloc, expr_type))
}

/// The type of a set, a record or a call, whose parts are of these types.
pub(crate) fn list_type<E: RequestEnv>(
    env: &E,
    alloc: Global,
    op: ListOperator<'_>,
    types: Vec<ExprType>,
    held: &[Capability],
) -> Result<Typed, TypingError>
    requires { length types.items ≡ part_count (list_parts op) }
    ensures { Finds ⊥ (operator_type (E.environment env.now) (list_operator op.entry) (list_parts op.entry) (map type_view types.items) (capabilities_view held.now)) result }
{
    let expr_type = match op {
        ListOperator::Set(_) => set_type(alloc, types)?,
        ListOperator::Record(entries) => record_type(alloc, entries, types)?,
        ListOperator::Call(function, arguments) => call_type(
            env, alloc, function, arguments, &types,
        )?,
    };
    Ok(Typed::plainly(alloc, expr_type))
}
