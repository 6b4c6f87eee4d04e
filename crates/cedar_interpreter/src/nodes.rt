// Expressions that are left, without places: each gets that of its answer.
ghost use Rattle.std.specs.Prelude.{◌≡◌, map};
ghost use Rattle.std.specs.Rc.{rc_str_bytes};
ghost use Rattle.cedar_language.specs.Tree as tree;
ghost use Rattle.cedar_language.specs.Tree.{Boolean};
ghost use Rattle.cedar_language.specs.Value.{Plain};
ghost use Rattle.cedar_partial_evaluation.specs.Partial.{Evaluated};
ghost use Rattle.cedar_grammar.specs.Build.{unary};
ghost use Rattle.cedar_trees.specs.Bare.{bare, bare_kind};
ghost use Rattle.cedar_restricted.specs.PartialValues.{partial_of};
ghost use Rattle.cedar_interpreter.specs.Meeting.{part_answer};

use cedar_literals::literals::Literal;
use cedar_restricted::partial_values::PartialValue;
use cedar_trees::expr::{Expr, ExprKind};
use cedar_trees::unknowns::NonEmpty;
use cedar_values::values::Value;
use std::rc::{Rc, RcStr};

fn made(expr_kind: ExprKind) -> Expr
    ensures { bare result ≡ bare_kind expr_kind }
{
    Expr {
        expr_kind,
        source_loc: None,
        data: (),
    }
}

/// `left && right`, also of literals.
pub(crate) fn both_true(left: Rc<Expr>, right: Rc<Expr>) -> Expr
    ensures { bare result ≡ tree.And (bare left.value) (bare right.value) }
{
    made(ExprKind::And { left, right })
}

/// `left || right`, also of literals.
pub(crate) fn one_true(left: Rc<Expr>, right: Rc<Expr>) -> Expr
    ensures { bare result ≡ tree.Or (bare left.value) (bare right.value) }
{
    made(ExprKind::Or { left, right })
}

/// `expr has a.b.c`, also of one attribute.
pub(crate) fn has_chain(expr: Rc<Expr>, attrs: NonEmpty<RcStr>) -> Expr
    ensures { bare result ≡ unary (tree.HasPath (rc_str_bytes attrs.head) (map rc_str_bytes attrs.tail.items)) (bare expr.value) }
{
    made(ExprKind::ExtHasAttr { expr, attrs })
}

/// A Boolean, as an answer.
pub(crate) fn truth(b: bool) -> PartialValue
    ensures { part_answer (partial_of result) ≡ Evaluated (Plain (Boolean b)) }
{
    PartialValue::from(Value::from(Literal::Bool(b)))
}
