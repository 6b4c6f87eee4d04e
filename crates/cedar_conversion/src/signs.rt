// Signs, and numbers under them.
ghost use Rattle.std.specs.Prelude.{◌≡◌, Option, Some, IfErr};
ghost use Rattle.std.specs.Option.{option_map};
ghost use Rattle.cedar_language.specs.Tree.{Tree, Lit};
ghost use Rattle.cedar_literals.specs.Literals.{literal_of};
ghost use Rattle.cedar_faults.specs.Converts.{and_then};
ghost use Rattle.cedar_faults.specs.Telling.{Told, TellsOnly};
ghost use Rattle.cedar_conversion.specs.Building.{IsBuilt, MakesTree};
ghost use Rattle.cedar_conversion.specs.Joints.{repeated, minus_long};
ghost use Rattle.cedar_conversion.specs.Shows.{minus_shows};

use crate::building::{builder_at, taken};
use cedar_builders::expr_builder::ExprBuilder;
use cedar_faults::{ConversionError, ToASTErrorKind};
use cedar_literals::literals::Literal;
use cedar_names::places::Loc;
use std::alloc::Global;

/// A sign before an operand.
#[derive(Clone, Copy, Debug, PartialEq, Eq)]
pub enum Sign {
    Bang,
    Minus,
}

// One sign before an operand.
fn signed_once<B: ExprBuilder>(
    alloc: Global,
    loc: Option<&Loc>,
    sign: Sign,
    expr: B::Expr,
) -> Result<B::Expr, ConversionError<B::BuildError>>
    ensures tree { (t : Tree) → IsBuilt B.operations B.meaning expr t → MakesTree B.operations B.meaning B.refusal result (Some (repeated sign 1 t)) }
    ensures shown { IfErr result (λ error. TellsOnly error (λ kind. ⊥)) }
{
    let builder = builder_at::<B>(alloc, loc)?;
    match sign {
        Sign::Bang => taken::<B>(builder.not(expr)),
        Sign::Minus => taken::<B>(builder.neg(expr)),
    }
}

/// So many signs before an operand.
pub fn signed<B: ExprBuilder>(
    alloc: Global,
    loc: Option<&Loc>,
    sign: Sign,
    count: u8,
    expr: Result<B::Expr, ConversionError<B::BuildError>>,
) -> Result<B::Expr, ConversionError<B::BuildError>>
    ensures tree { (v : Option Tree) → MakesTree B.operations B.meaning B.refusal expr v → MakesTree B.operations B.meaning B.refusal result (and_then v (λ t. Some (repeated sign count t))) }
    ensures shown { IfErr result (λ error. TellsOnly error (Told expr)) }
{
    let first = expr?;
    let mut made = first;
    'signs: for _done in 0..count {
        made = signed_once::<B>(alloc, loc, sign, made)?;
    }
    Ok(made)
}

/// A number under a minus; faults where the two are no long.
pub fn negative<B: ExprBuilder>(
    alloc: Global,
    loc: Option<&Loc>,
    number: u64,
) -> Result<B::Expr, ConversionError<B::BuildError>>
    ensures tree { MakesTree B.operations B.meaning B.refusal result (minus_long number) }
    ensures shown { IfErr result (λ error. TellsOnly error (minus_shows number)) }
{
    match minus(number) {
        Some(literal) => {
            let builder = builder_at::<B>(alloc, loc)?;
            taken::<B>(builder.val(literal))
        }
        None => {
            let kind = ToASTErrorKind::IntegerLiteralTooLarge(number);
            Err(ConversionError::fault(alloc, kind, loc))
        }
    }
}

/// A number under a minus, and so many `more` before that one.
#[inline(never)]
pub(crate) fn number_to_expr<B: ExprBuilder>(
    alloc: Global,
    loc: Option<&Loc>,
    number: u64,
    more: u8,
) -> Result<B::Expr, ConversionError<B::BuildError>>
    ensures tree { MakesTree B.operations B.meaning B.refusal result (and_then (minus_long number) (λ t. Some (repeated Sign.Minus more t))) }
    ensures shown { IfErr result (λ error. TellsOnly error (minus_shows number)) }
{
    let item = negative::<B>(alloc, loc, number);
    signed::<B>(alloc, loc, Sign::Minus, more, item)
}

// The number under a minus, where that is a long.
fn minus(number: u64) -> Option<Literal>
    ensures { option_map (λ l. Lit (literal_of l)) result ≡ minus_long number }
{
    if number < 0x8000_0000_0000_0000 {
        Some(Literal::Long(-(number as i64)))
    } else if number == 0x8000_0000_0000_0000 {
        Some(Literal::Long(i64::MIN))
    } else {
        None
    }
}
