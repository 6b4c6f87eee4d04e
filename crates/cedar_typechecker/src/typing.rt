// The types of expressions.
ghost use Rattle.std.specs.Prelude.{◌≡◌, ◌+◌, map};
ghost use Rattle.cedar_language.specs.Tree as tree;
ghost use Rattle.cedar_language.specs.Tree.{Apply};
ghost use Rattle.cedar_grammar.specs.Build.{trees, unary, binary};
ghost use Rattle.cedar_literals.specs.Operators.{binary_operator_of};
ghost use Rattle.cedar_trees.specs.Bare.{bare};
ghost use Rattle.cedar_typechecker.specs.Forms.{unary_operator, list_operator, list_parts};
ghost use Rattle.cedar_typechecker.specs.Results.{FindsWithin, FindAllWithin};

use crate::capabilities::{Capability, joined};
use crate::environment::RequestEnv;
use crate::faults::{TypingError, TypingFault};
use crate::forms::Form;
use crate::lazies::{and_type, boolean_alone, if_type, or_type, with_more};
use crate::operands::{ListOperator, UnaryOperator};
use crate::operators::{binary_type, leaf_type, list_type, unary_type};
use crate::parts::listed;
use crate::results::Typed;
use crate::types::{BoolType, ExprType};
use cedar_literals::operators::BinaryOp;
use cedar_trees::expr::Expr;
use std::alloc::Global;
use std::rc::Rc;

/// The type of an expression in an environment, under what tests before it say, and what it says itself where it is true. The
/// first fault from the left is told. Refused are, but for want of memory, only expressions higher than `depth`: a leaf is 1,
/// and others are one more than their highest part.
/// (Cedar language reference, "Policy validation".)
#[cycle(typed)]
#[tactic(none)]
pub fn typed<E: RequestEnv>(
    env: &E,
    alloc: Global,
    expr: &Expr,
    held: &[Capability],
    depth: u32,
) -> Result<Typed, TypingError>
    ensures { FindsWithin depth (E.environment env.now) (bare expr.now) held.now result }
{
    let Some(below) = depth.checked_sub(1) else {
        return Err(TypingError::Depth);
    };
    match Form::of(expr) {
        Form::Leaf(leaf) => leaf_type(env, alloc, leaf),
        Form::If { test, yes, no } => typed_if(env, alloc, test, yes, no, held, below),
        Form::And { left, right } => typed_and(env, alloc, left, right, held, below),
        Form::Or { left, right } => typed_or(env, alloc, left, right, held, below),
        Form::One(op, of) => typed_one(env, alloc, op, of, held, below),
        Form::Two(op, left, right) => typed_two(env, alloc, op, left, right, held, below),
        Form::List(op) => typed_list(env, alloc, op, expr, held, below),
    }
}

#[cycle(typed)]
#[tactic(none)]
fn typed_if<E: RequestEnv>(
    env: &E,
    alloc: Global,
    test: &Expr,
    yes: &Expr,
    no: &Expr,
    held: &[Capability],
    depth: u32,
) -> Result<Typed, TypingError>
    ensures { FindsWithin (depth + 1) (E.environment env.now) (tree.If (bare test.now) (bare yes.now) (bare no.now)) held.now result }
{
    let test = typed(env, alloc, test, held, depth)?;
    match test.expr_type.as_boolean() {
        None => Err(TypingError::Faulty(TypingFault::UnexpectedType)),
        Some(BoolType::AlwaysFalse) => typed(env, alloc, no, held, depth),
        Some(BoolType::AlwaysTrue) => {
            let more = joined(alloc, &test.capabilities, held)?;
            let yes = typed(env, alloc, yes, &more, depth)?;
            with_more(test.capabilities, yes)
        }
        Some(BoolType::Unsure) => {
            let more = joined(alloc, &test.capabilities, held)?;
            let yes = typed(env, alloc, yes, &more, depth)?;
            let no = typed(env, alloc, no, held, depth)?;
            if_type(alloc, test.capabilities, yes, no)
        }
    }
}

#[cycle(typed)]
#[tactic(none)]
fn typed_and<E: RequestEnv>(
    env: &E,
    alloc: Global,
    left: &Expr,
    right: &Expr,
    held: &[Capability],
    depth: u32,
) -> Result<Typed, TypingError>
    ensures { FindsWithin (depth + 1) (E.environment env.now) (tree.And (bare left.now) (bare right.now)) held.now result }
{
    let left = typed(env, alloc, left, held, depth)?;
    match left.expr_type.as_boolean() {
        None => Err(TypingError::Faulty(TypingFault::UnexpectedType)),
        Some(BoolType::AlwaysFalse) => {
            Ok(Typed::plainly(alloc, ExprType::Boolean(BoolType::AlwaysFalse)))
        }
        Some(BoolType::AlwaysTrue) => {
            let more = joined(alloc, &left.capabilities, held)?;
            let right = typed(env, alloc, right, &more, depth)?;
            and_type(alloc, BoolType::AlwaysTrue, left.capabilities, right)
        }
        Some(BoolType::Unsure) => {
            let more = joined(alloc, &left.capabilities, held)?;
            let right = typed(env, alloc, right, &more, depth)?;
            and_type(alloc, BoolType::Unsure, left.capabilities, right)
        }
    }
}

#[cycle(typed)]
#[tactic(none)]
fn typed_or<E: RequestEnv>(
    env: &E,
    alloc: Global,
    left: &Expr,
    right: &Expr,
    held: &[Capability],
    depth: u32,
) -> Result<Typed, TypingError>
    ensures { FindsWithin (depth + 1) (E.environment env.now) (tree.Or (bare left.now) (bare right.now)) held.now result }
{
    let left = typed(env, alloc, left, held, depth)?;
    match left.expr_type.as_boolean() {
        None => Err(TypingError::Faulty(TypingFault::UnexpectedType)),
        Some(BoolType::AlwaysTrue) => {
            Ok(Typed::plainly(alloc, ExprType::Boolean(BoolType::AlwaysTrue)))
        }
        Some(BoolType::AlwaysFalse) => boolean_alone(typed(env, alloc, right, held, depth)?),
        Some(BoolType::Unsure) => {
            let right = typed(env, alloc, right, held, depth)?;
            or_type(alloc, left.capabilities, right)
        }
    }
}

#[cycle(typed)]
#[tactic(none)]
fn typed_one<E: RequestEnv>(
    env: &E,
    alloc: Global,
    op: UnaryOperator<'_>,
    of: &Rc<Expr>,
    held: &[Capability],
    depth: u32,
) -> Result<Typed, TypingError>
    ensures { FindsWithin (depth + 1) (E.environment env.now) (unary (unary_operator op.entry) (bare of.now.value)) held.now result }
{
    let operand = typed(env, alloc, of, held, depth)?;
    unary_type(env, alloc, op, of, &operand.expr_type, held)
}

#[cycle(typed)]
#[tactic(none)]
fn typed_two<E: RequestEnv>(
    env: &E,
    alloc: Global,
    op: BinaryOp,
    left: &Rc<Expr>,
    right: &Rc<Expr>,
    held: &[Capability],
    depth: u32,
) -> Result<Typed, TypingError>
    ensures { FindsWithin (depth + 1) (E.environment env.now)
        (binary (binary_operator_of op) (bare left.now.value) (bare right.now.value)) held.now result }
{
    let first = typed(env, alloc, left, held, depth)?;
    let second = typed(env, alloc, right, held, depth)?;
    binary_type(
        env,
        alloc,
        op,
        left,
        right,
        &first.expr_type,
        &second.expr_type,
        held,
    )
}

#[cycle(typed)]
#[tactic(none)]
fn typed_list<E: RequestEnv>(
    env: &E,
    alloc: Global,
    op: ListOperator<'_>,
    expr: &Expr,
    held: &[Capability],
    depth: u32,
) -> Result<Typed, TypingError>
    requires { bare expr.now ≡ Apply (list_operator op) (list_parts op) }
    ensures { FindsWithin (depth + 1) (E.environment env.now) (Apply (list_operator op.entry) (list_parts op.entry)) held.now result }
{
    let parts = listed(alloc, expr)?;
    let types = typed_parts(env, alloc, &parts, held, depth)?;
    list_type(env, alloc, op, types, held)
}

#[cycle(typed)]
fn typed_parts<E: RequestEnv>(
    env: &E,
    alloc: Global,
    parts: &[&Expr],
    held: &[Capability],
    depth: u32,
) -> Result<Vec<ExprType>, TypingError>
    ensures { FindAllWithin depth (E.environment env.now) (trees (map (λ e. bare e.now) parts.now)) held.now result }
{
    let mut types = Vec::new(alloc);
    for part in parts {
        let part = typed(env, alloc, part, held, depth)?;
        types.push(part.expr_type)?;
    }
    Ok(types)
}
