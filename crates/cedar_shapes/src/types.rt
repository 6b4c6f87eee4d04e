// Types of expressions, as far as they show without evaluating.
ghost use Rattle.std.specs.Prelude.{◌≡◌, IfOk, Option, option_map};
ghost use Rattle.cedar_language.specs.Uid as language;
ghost use Rattle.cedar_language.specs.Tree.{ValueType};
ghost use Rattle.cedar_literals.specs.Operators.{unary_operator_of, binary_operator_of};
ghost use Rattle.cedar_literals.specs.Types.{value_type_of};
ghost use Rattle.cedar_trees.specs.Bare.{bare};
ghost use Rattle.cedar_shapes.specs.StaticTypes.{operator_type, agreed, type_of};

use cedar_literals::operators::{BinaryOp, UnaryOp};
use cedar_literals::types::{StaticallyTyped, Type};
use cedar_names::names::Name;
use cedar_trees::expr::{Expr, ExprKind};
use std::alloc::{AllocError, Global};

/// A table of extension functions that knows the types of their answers.
pub trait FunctionTypes {
    // the type of a function's answers, where it is stated
    ghost returns: { Self → language.Name → Option ValueType };

    /// The type of the answers of the function of this name, where there is one that states it.
    fn return_type(&self, name: &Name) -> Option<&Type>
        ensures { option_map (λ ty. value_type_of ty.now) result ≡ returns self.now name.now };
}

fn type_of_unary(op: UnaryOp) -> Type
    ensures { (returns : language.Name → Option ValueType) → operator_type returns (unary_operator_of op) ≡ Some (value_type_of result) }
{
    match op {
        UnaryOp::Not | UnaryOp::IsEmpty => Type::Bool,
        UnaryOp::Neg => Type::Long,
    }
}

fn type_of_binary(op: BinaryOp) -> Option<Type>
    ensures { (returns : language.Name → Option ValueType) → operator_type returns (binary_operator_of op) ≡ option_map value_type_of result }
{
    match op {
        BinaryOp::Add | BinaryOp::Sub | BinaryOp::Mul => Some(Type::Long),
        BinaryOp::GetTag => None,
        BinaryOp::Eq
        | BinaryOp::Less
        | BinaryOp::LessEq
        | BinaryOp::In
        | BinaryOp::Contains
        | BinaryOp::ContainsAll
        | BinaryOp::ContainsAny
        | BinaryOp::HasTag => Some(Type::Bool),
    }
}

fn copied(ty: Option<&Type>) -> Result<Option<Type>, AllocError>
    ensures { IfOk result (λ copy. option_map value_type_of copy ≡ option_map (λ t. value_type_of t.now) ty.entry) }
{
    match ty {
        None => Ok(None),
        Some(ty) => Ok(Some(ty.clone()?)),
    }
}

// The type that both sides have.
fn agreeing(left: Option<Type>, right: Option<Type>) -> Option<Type>
    ensures { option_map value_type_of result ≡ agreed (option_map value_type_of left) (option_map value_type_of right) }
{
    match (left, right) {
        (Some(left), Some(right)) => { if left == right { Some(left) } else { None } }
        _ => None,
    }
}

/// The type of an expression's value, as far as the expression shows it; refused for memory alone.
pub(crate) fn static_type<T, F: FunctionTypes>(
    alloc: Global,
    expr: &Expr<T>,
    functions: &F,
) -> Result<Option<Type>, AllocError>
    ensures { IfOk result (λ ty. option_map value_type_of ty ≡ type_of (F.returns functions.now) (bare expr.now)) }
{
    match &expr.expr_kind {
        ExprKind::Lit(literal) => Ok(Some(literal.type_of(alloc)?)),
        ExprKind::Var(_) | ExprKind::Slot(_) | ExprKind::GetAttr { .. } => Ok(None),
        ExprKind::Unknown(unknown) => copied(unknown.type_annotation.as_ref()),
        ExprKind::If {
            then_expr,
            else_expr,
            ..
        } => {
            let then_type = static_type(alloc, then_expr, functions)?;
            let else_type = static_type(alloc, else_expr, functions)?;
            Ok(agreeing(then_type, else_type))
        }
        ExprKind::UnaryApp { op, .. } => Ok(Some(type_of_unary(*op))),
        ExprKind::BinaryApp { op, .. } => Ok(type_of_binary(*op)),
        ExprKind::ExtensionFunctionApp { fn_name, .. } => copied(functions.return_type(fn_name)),
        ExprKind::And { .. }
        | ExprKind::Or { .. }
        | ExprKind::HasAttr { .. }
        | ExprKind::ExtHasAttr { .. }
        | ExprKind::Like { .. }
        | ExprKind::Is { .. } => Ok(Some(Type::Bool)),
        ExprKind::Set(_) => Ok(Some(Type::Set)),
        ExprKind::Record(_) => Ok(Some(Type::Record)),
    }
}
