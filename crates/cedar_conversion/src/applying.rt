// Operators of two operands.
ghost use Rattle.std.specs.Prelude.{◌⊎◌, Option, Some, IfErr};
ghost use Rattle.cedar_language.specs.Tree.{Tree};
ghost use Rattle.cedar_faults.specs.Converts.{and_then};
ghost use Rattle.cedar_faults.specs.Telling.{Told, TellsOnly};
ghost use Rattle.cedar_conversion.specs.Building.{IsBuilt, MakesTree};
ghost use Rattle.cedar_conversion.specs.Joints.{joined};
ghost use Rattle.cedar_conversion.specs.Shows.{joint_shows};

use crate::building::{builder_at, taken};
use cedar_builders::expr_builder::ExprBuilder;
use cedar_cst::cst::{AddOp, MultOp, RelOp};
use cedar_faults::{ConversionError, ToASTErrorKind, flatten_tuple_2};
use cedar_names::places::Loc;
use std::alloc::Global;

/// What joins two operands.
#[derive(Clone, Copy, Debug, PartialEq, Eq)]
pub enum Joint {
    Or,
    And,
    Relation(RelOp),
    Sum(AddOp),
    Product(MultOp),
}

// The comparison of two operands.
fn compared<B: ExprBuilder>(
    alloc: Global,
    loc: Option<&Loc>,
    builder: B,
    op: RelOp,
    left: B::Expr,
    right: B::Expr,
) -> Result<B::Expr, ConversionError<B::BuildError>>
    ensures tree { (x y : Tree) → IsBuilt B.operations B.meaning left x → IsBuilt B.operations B.meaning right y →
        MakesTree B.operations B.meaning B.refusal result (joined (Joint.Relation op) x y) }
    ensures shown { IfErr result (λ error. TellsOnly error (joint_shows (Joint.Relation op))) }
{
    match op {
        RelOp::Less => taken::<B>(builder.less(left, right)),
        RelOp::LessEq => taken::<B>(builder.lesseq(left, right)),
        RelOp::GreaterEq => taken::<B>(builder.greatereq(left, right)),
        RelOp::Greater => taken::<B>(builder.greater(left, right)),
        RelOp::NotEq => taken::<B>(builder.noteq(left, right)),
        RelOp::Eq => taken::<B>(builder.is_eq(left, right)),
        RelOp::In => taken::<B>(builder.is_in(left, right)),
        RelOp::InvalidSingleEq => {
            let kind = ToASTErrorKind::InvalidSingleEq;
            Err(ConversionError::fault(alloc, kind, loc))
        }
    }
}

// The product of two operands; there is no division.
fn multiplied<B: ExprBuilder>(
    alloc: Global,
    loc: Option<&Loc>,
    builder: B,
    op: MultOp,
    left: B::Expr,
    right: B::Expr,
) -> Result<B::Expr, ConversionError<B::BuildError>>
    ensures tree { (x y : Tree) → IsBuilt B.operations B.meaning left x → IsBuilt B.operations B.meaning right y →
        MakesTree B.operations B.meaning B.refusal result (joined (Joint.Product op) x y) }
    ensures shown { IfErr result (λ error. TellsOnly error (joint_shows (Joint.Product op))) }
{
    match op {
        MultOp::Times => taken::<B>(builder.mul(left, right)),
        MultOp::Divide => {
            let kind = ToASTErrorKind::UnsupportedDivision;
            Err(ConversionError::fault(alloc, kind, loc))
        }
        MultOp::Mod => {
            let kind = ToASTErrorKind::UnsupportedModulo;
            Err(ConversionError::fault(alloc, kind, loc))
        }
    }
}

// The sum of two operands, or their difference.
fn added<B: ExprBuilder>(
    builder: B,
    op: AddOp,
    left: B::Expr,
    right: B::Expr,
) -> Result<B::Expr, ConversionError<B::BuildError>>
    ensures tree { (x y : Tree) → IsBuilt B.operations B.meaning left x → IsBuilt B.operations B.meaning right y →
        MakesTree B.operations B.meaning B.refusal result (joined (Joint.Sum op) x y) }
    ensures shown { IfErr result (λ error. TellsOnly error (λ kind. ⊥)) }
{
    match op {
        AddOp::Plus => taken::<B>(builder.add(left, right)),
        AddOp::Minus => taken::<B>(builder.sub(left, right)),
    }
}

// Two operands joined.
fn applied<B: ExprBuilder>(
    alloc: Global,
    loc: Option<&Loc>,
    joint: Joint,
    left: B::Expr,
    right: B::Expr,
) -> Result<B::Expr, ConversionError<B::BuildError>>
    ensures tree { (x y : Tree) → IsBuilt B.operations B.meaning left x → IsBuilt B.operations B.meaning right y →
        MakesTree B.operations B.meaning B.refusal result (joined joint x y) }
    ensures shown { IfErr result (λ error. TellsOnly error (joint_shows joint)) }
{
    let builder = builder_at::<B>(alloc, loc)?;
    match joint {
        Joint::Or => taken::<B>(builder.or(left, right)),
        Joint::And => taken::<B>(builder.and(left, right)),
        Joint::Relation(op) => compared::<B>(alloc, loc, builder, op, left, right),
        Joint::Sum(op) => added::<B>(builder, op, left, right),
        Joint::Product(op) => multiplied::<B>(alloc, loc, builder, op, left, right),
    }
}

/// The operands joined, or the faults of both.
pub fn join<B: ExprBuilder>(
    alloc: Global,
    loc: Option<&Loc>,
    joint: Joint,
    left: Result<B::Expr, ConversionError<B::BuildError>>,
    right: Result<B::Expr, ConversionError<B::BuildError>>,
) -> Result<B::Expr, ConversionError<B::BuildError>>
    ensures tree { (v w : Option Tree) → MakesTree B.operations B.meaning B.refusal left v → MakesTree B.operations B.meaning B.refusal right w →
        MakesTree B.operations B.meaning B.refusal result (and_then v (λ x. and_then w (λ y. joined joint x y))) }
    ensures shown { IfErr result (λ error. TellsOnly error (λ kind. Told left kind ⊎ Told right kind ⊎ joint_shows joint kind)) }
{
    let (left, right) = flatten_tuple_2(left, right)?;
    applied::<B>(alloc, loc, joint, left, right)
}
