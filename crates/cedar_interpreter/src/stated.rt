// What the expression that is left of something tells of it.
ghost use Rattle.std.specs.Prelude.{◌≡◌};
ghost use Rattle.std.specs.Option.{option_copied};
ghost use Rattle.cedar_partial_evaluation.specs.Partial.{stated_type as stated_in, types_differ};
ghost use Rattle.cedar_trees.specs.Bare.{bare};
ghost use Rattle.cedar_trees.specs.Unknowns.{unknown_type};
ghost use Rattle.cedar_interpreter.specs.Operating.{entity_type_in, is_equality, is_decided as decides, told_key, told_type};

use cedar_literals::literals::Literal;
use cedar_literals::operators::BinaryOp;
use cedar_literals::types::Type;
use cedar_literals::uids::EntityType;
use cedar_shapes::readers::ExprReaders;
use cedar_trees::expr::{Expr, ExprKind};
use cedar_trees::unknowns::Unknown;

// The type of an entity, or of an unknown with a stated type of entities.
fn stated_type(expr: &Expr) -> Option<&EntityType>
    ensures { option_copied result ≡ stated_in (bare expr.now) }
{
    match &expr.expr_kind {
        ExprKind::Lit(literal) => match literal {
            Literal::EntityUID(uid) => Some(uid.entity_type()),
            Literal::Bool(_) => None,
            Literal::Long(_) => None,
            Literal::String(_) => None,
        },
        ExprKind::Unknown(unknown) => type_of_unknown(unknown),
        _ => None,
    }
}

fn type_of_unknown(unknown: &Unknown) -> Option<&EntityType>
    ensures { option_copied result ≡ entity_type_in (unknown_type unknown.now) }
{
    match &unknown.type_annotation {
        Some(Type::Entity { ty }) => Some(ty),
        _ => None,
    }
}

// Whether two things are of types that are known to differ.
fn are_of_two_types(left: &Expr, right: &Expr) -> bool
    ensures { result ≡ types_differ (stated_in (bare left.now)) (stated_in (bare right.now)) }
{
    match (stated_type(left), stated_type(right)) {
        (Some(left), Some(right)) => left != right,
        (Some(_), None) => false,
        (None, _) => false,
    }
}

fn is_equality(op: BinaryOp) -> bool
    ensures { result ≡ is_equality op }
{
    match op {
        BinaryOp::Eq => true,
        BinaryOp::Less => false,
        BinaryOp::LessEq => false,
        BinaryOp::Add => false,
        BinaryOp::Sub => false,
        BinaryOp::Mul => false,
        BinaryOp::In => false,
        BinaryOp::Contains => false,
        BinaryOp::ContainsAll => false,
        BinaryOp::ContainsAny => false,
        BinaryOp::GetTag => false,
        BinaryOp::HasTag => false,
    }
}

/// Whether the operator is `==`, and its operands can't be equal, as their types differ.
pub(crate) fn is_decided(op: BinaryOp, left: &Expr, right: &Expr) -> bool
    ensures { result ≡ decides op (bare left.now) (bare right.now) }
{
    is_equality(op) && are_of_two_types(left, right)
}

/// Whether a record of which nothing can err has a key; none of anything else.
pub(crate) fn key_told(expr: &Expr, key: &str) -> Option<bool>
    ensures { result ≡ told_key key.now (bare expr.now) }
{
    match &expr.expr_kind {
        ExprKind::Record(entries) => {
            if expr.is_projectable() {
                Some(entries.contains_key(key))
            } else {
                None
            }
        }
        _ => None,
    }
}

/// Whether an unknown with a stated type of entities is of this type; none of anything else.
pub(crate) fn type_told(expr: &Expr, entity_type: &EntityType) -> Option<bool>
    ensures { result ≡ told_type entity_type.now (bare expr.now) }
{
    match &expr.expr_kind {
        ExprKind::Unknown(unknown) => match type_of_unknown(unknown) {
            Some(ty) => Some(ty == entity_type),
            None => None,
        },
        _ => None,
    }
}
