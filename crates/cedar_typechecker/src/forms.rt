// How an expression is typed, by its construct.
ghost use Rattle.cedar_trees.specs.Bare.{bare};
ghost use Rattle.cedar_typechecker.specs.Forms.{IsForm};

use crate::operands::{ListOperator, UnaryOperator};
use cedar_literals::literals::Literal;
use cedar_literals::operators::BinaryOp;
use cedar_literals::slots::SlotId;
use cedar_literals::variables::Var;
use cedar_trees::expr::{Expr, ExprKind};
use cedar_trees::unknowns::Unknown;
use std::rc::Rc;

/// An expression without parts.
#[derive(Drop)]
pub(crate) enum Leaf<'a> {
    Literal(&'a Literal),
    Variable(Var),
    Slot(SlotId),
    Unknown(&'a Unknown),
}

/// The order in which the parts of an expression are typed.
#[derive(Drop)]
pub(crate) enum Form<'a> {
    Leaf(Leaf<'a>),
    /// The test, and one of the others or both.
    If {
        test: &'a Expr,
        yes: &'a Expr,
        no: &'a Expr,
    },
    /// The right operand where the left one may be true.
    And {
        left: &'a Expr,
        right: &'a Expr,
    },
    /// The right operand where the left one may be false.
    Or {
        left: &'a Expr,
        right: &'a Expr,
    },
    /// The operand.
    One(UnaryOperator<'a>, &'a Rc<Expr>),
    /// Both operands.
    Two(BinaryOp, &'a Rc<Expr>, &'a Rc<Expr>),
    /// All parts, from the left.
    List(ListOperator<'a>),
}

impl<'a> Form<'a> {
    /// How this expression is typed.
    #[tactic(auto, using(cedar_trees::proofs::Bares::bares))]
    pub(crate) fn of(expr: &'a Expr) -> Form<'a>
        ensures { IsForm (bare expr.now) result }
    {
        match &expr.expr_kind {
            ExprKind::Lit(literal) => Form::Leaf(Leaf::Literal(literal)),
            ExprKind::Var(var) => Form::Leaf(Leaf::Variable(*var)),
            ExprKind::Slot(slot) => Form::Leaf(Leaf::Slot(*slot)),
            ExprKind::Unknown(unknown) => Form::Leaf(Leaf::Unknown(unknown)),
            ExprKind::If {
                test_expr,
                then_expr,
                else_expr,
            } => Form::If {
                test: test_expr,
                yes: then_expr,
                no: else_expr,
            },
            ExprKind::And { left, right } => Form::And { left, right },
            ExprKind::Or { left, right } => Form::Or { left, right },
            ExprKind::UnaryApp { op, arg } => Form::One(UnaryOperator::Applied(*op), arg),
            ExprKind::BinaryApp { op, arg1, arg2 } => Form::Two(*op, arg1, arg2),
            ExprKind::GetAttr { expr, attr } => Form::One(UnaryOperator::Get(attr), expr),
            ExprKind::HasAttr { expr, attr } => Form::One(UnaryOperator::Has(attr), expr),
            ExprKind::ExtHasAttr { expr, attrs } => Form::One(UnaryOperator::HasPath(attrs), expr),
            ExprKind::Like { expr, pattern } => Form::One(UnaryOperator::Like(pattern), expr),
            ExprKind::Is { expr, entity_type } => Form::One(UnaryOperator::Is(entity_type), expr),
            ExprKind::Set(items) => Form::List(ListOperator::Set(items)),
            ExprKind::Record(entries) => Form::List(ListOperator::Record(entries)),
            ExprKind::ExtensionFunctionApp { fn_name, args } => {
                Form::List(ListOperator::Call(fn_name, args))
            }
        }
    }
}
