// How an expression is evaluated, by its construct.
ghost use Rattle.cedar_trees.specs.Bare.{bare};
ghost use Rattle.cedar_interpreter.specs.Forms.{IsForm};

use crate::operands::{Operands, UnaryOperator};
use cedar_trees::expr::{Expr, ExprKind};
use std::rc::{Rc, RcStr};

/// The order in which the parts of an expression are evaluated.
#[derive(Drop)]
pub(crate) enum Form<'a> {
    /// It has no parts.
    Leaf,
    /// The test, and one of the others.
    If {
        test: &'a Expr,
        yes: &'a Rc<Expr>,
        no: &'a Rc<Expr>,
    },
    /// The right operand where the left one is true.
    And {
        left: &'a Expr,
        right: &'a Rc<Expr>,
    },
    /// The right operand where the left one is false.
    Or {
        left: &'a Expr,
        right: &'a Rc<Expr>,
    },
    /// An attribute of a part, which may be an entry to be evaluated again.
    GetAttr {
        of: &'a Expr,
        attr: &'a RcStr,
    },
    /// All parts, from the left.
    Strict(Operands<'a>),
}

impl<'a> Form<'a> {
    /// How this expression is evaluated.
    pub(crate) fn of(expr: &'a Expr) -> Form<'a>
        ensures { IsForm (bare expr.now) result }
    {
        match &expr.expr_kind {
            ExprKind::Lit(_) => Form::Leaf,
            ExprKind::Var(_) => Form::Leaf,
            ExprKind::Slot(_) => Form::Leaf,
            ExprKind::Unknown(_) => Form::Leaf,
            ExprKind::If {
                test_expr,
                then_expr,
                else_expr,
            } => Form::If {
                test: test_expr,
                yes: then_expr,
                no: else_expr,
            },
            ExprKind::And { left, right } => Form::And { left, right },
            ExprKind::Or { left, right } => Form::Or { left, right },
            ExprKind::GetAttr { expr, attr } => Form::GetAttr { of: expr, attr },
            ExprKind::UnaryApp { op, arg } => {
                Form::Strict(Operands::One(UnaryOperator::Applied(*op), arg))
            }
            ExprKind::BinaryApp { op, arg1, arg2 } => {
                Form::Strict(Operands::Two(*op, arg1, arg2))
            }
            ExprKind::HasAttr { expr, attr } => {
                Form::Strict(Operands::One(UnaryOperator::Has(attr), expr))
            }
            ExprKind::ExtHasAttr { expr, attrs } => {
                Form::Strict(Operands::One(UnaryOperator::HasPath(attrs), expr))
            }
            ExprKind::Like { expr, pattern } => {
                Form::Strict(Operands::One(UnaryOperator::Like(pattern), expr))
            }
            ExprKind::Is { expr, entity_type } => {
                Form::Strict(Operands::One(UnaryOperator::Is(entity_type), expr))
            }
            ExprKind::ExtensionFunctionApp { .. } => Form::Strict(Operands::List),
            ExprKind::Set(_) => Form::Strict(Operands::List),
            ExprKind::Record(_) => Form::Strict(Operands::List),
        }
    }
}
