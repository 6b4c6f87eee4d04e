// Literals.
ghost use Rattle.std.specs.Prelude.{◌≡◌, IfErr, IfOk};
ghost use Rattle.cedar_grammar.specs.LooseReading.{read_primary};
ghost use Rattle.cedar_cst.specs.View.{shown_primary};
ghost use Rattle.cedar_trees.specs.Bare.{bare};
ghost use Rattle.cedar_parser.specs.Errors.{TellsSameOfLiteral};
ghost use Rattle.cedar_parser.specs.Faults.{TellOnly, LiteralTellsOnly, strict_operand_shows, text_shows};
ghost use Rattle.cedar_parser.specs.Literals.{free_operand, ReadsLiteral, TakesLiteral, WritesLiteral};
ghost use Rattle.cedar_parser.specs.Strict.{Writes};

use crate::errors::ParseErrors;
use crate::refusals::refused;
use crate::slots::without_slots;
use crate::text_to_cst::parse_primary;
use cedar_builders::own_builder::ExprBuilder;
use cedar_conversion::{primary_to_expr, trees_are_built};
use cedar_cst::cst::Primary;
use cedar_cst::node::Node;
use cedar_faults::ExtStyles;
use cedar_grammar::{at_most_one_meaning, converting_is_the_grammar, wider_limits_change_nothing};
use cedar_literals::literals::Literal;
use cedar_shapes::shapes::ExprShape;
use cedar_trees::expr::{Expr, ExprKind};
use std::alloc::{AllocError, Global};
use thiserror::Error;

/// Why a text isn't read as a literal. `==` compares expressions by their shapes, and not by places.
#[derive(Debug, Drop, Error)]
pub enum LiteralParseError {
    /// The text is no operand that stands alone, or a slot stands in it.
    #[error(transparent)]
    Parse(ParseErrors),
    /// It is one, but no literal.
    #[error("invalid literal: `{0}`")]
    InvalidLiteral(Expr),
}

impl LiteralParseError {
    /// A copy that shares the parts; refused for memory alone.
    pub fn clone(&self, alloc: Global) -> Result<LiteralParseError, AllocError>
        ensures { IfOk result (TellsSameOfLiteral self.now) }
    {
        match self {
            LiteralParseError::Parse(errors) => Ok(LiteralParseError::Parse(errors.clone(alloc)?)),
            LiteralParseError::InvalidLiteral(expr) => {
                Ok(LiteralParseError::InvalidLiteral(expr.clone(alloc)?))
            }
        }
    }
}

impl PartialEq for LiteralParseError {
    ghost use Rattle.cedar_parser.specs.contracts.errors.ParseErrorsEq.TheImpl.Laws as errors_eq;
    ghost use Rattle.cedar_parser.specs.Sameness.{same_refusal, same_refusal_partial};

    ghost eq = { same_refusal ⟦<ParseErrors as PartialEq>⟧.eq };

    ghost laws = { same_refusal_partial ⟦<ParseErrors as PartialEq>⟧.eq errors_eq.laws-law };

    fn eq(&self, other: &LiteralParseError) -> bool {
        match (self, other) {
            (LiteralParseError::Parse(errors), LiteralParseError::Parse(others)) => {
                errors == others
            }
            (LiteralParseError::InvalidLiteral(expr), LiteralParseError::InvalidLiteral(other)) => {
                expr.cmp_shape(other).is_eq()
            }
            _ => false,
        }
    }
}

impl Eq for LiteralParseError {
    ghost use Rattle.cedar_parser.specs.contracts.errors.ParseErrorsEq.TheImpl.Laws as errors_eq;
    ghost use Rattle.cedar_parser.specs.Sameness.{same_refusal_equiv};

    ghost laws = { same_refusal_equiv ⟦<ParseErrors as PartialEq>⟧.eq errors_eq.laws-law };
}

impl From<ParseErrors> for LiteralParseError {
    ghost use Rattle.std.specs.Prelude.{◌≡◌};
    ghost use Rattle.cedar_parser.specs.declared.literals.LiteralParseError.TheVariants.{Parse};

    ghost from_gives = { λ errors made. made ≡ Parse errors };

    fn from(errors: ParseErrors) -> LiteralParseError {
        LiteralParseError::Parse(errors)
    }
}

/// The literal that a text is within a nesting of `depth`: an operand without signs and accesses whose
/// expression is a literal, where these names may be called. Parentheses may stand round it. (Cedar
/// language reference, "Data types".)
///
/// It is refused `InvalidLiteral` with its expression where it is such an operand without slots, but no
/// literal; else `Parse`. Of that the first error is `ToCST` or `ToAST`, with a place, where the text is none
/// within any nesting; `Depth` where it is none within this one and more places in it open a construct; and
/// `Memory`. With `ToAST` the errors are all faults of the text, in order; where it has none of these, a slot
/// that stands in it is told as `InvalidSlot`. Each other error stands alone.
pub fn parse_literal_strict(
    alloc: Global,
    text: &str,
    styles: &ExtStyles,
    depth: u32,
) -> Result<Literal, LiteralParseError>
    ensures literal { ReadsLiteral styles.now depth text.now result }
    ensures shown { IfErr result (λ error. LiteralTellsOnly error (text_shows read_primary depth text.now (strict_operand_shows styles.now))) }
{
    // These run no code: their contracts are laws of the grammars.
    at_most_one_meaning();
    converting_is_the_grammar();
    wider_limits_change_nothing();

    match parse_primary(alloc, text, depth) {
        Ok(tree) => written(alloc, &tree, styles),
        Err(errors) => Err(LiteralParseError::Parse(errors)),
    }
}

// The literal that a loose tree writes.
fn written(
    alloc: Global,
    tree: &Node<Option<Primary>>,
    styles: &ExtStyles,
) -> Result<Literal, LiteralParseError>
    ensures literal { WritesLiteral result (free_operand styles.now (shown_primary tree.now)) }
    ensures shown { IfErr result (λ error. LiteralTellsOnly error (strict_operand_shows styles.now (shown_primary tree.now))) }
{
    match converted(alloc, tree, styles) {
        Ok(expr) => literal(expr),
        Err(errors) => Err(LiteralParseError::Parse(errors)),
    }
}

// The expression that a loose tree writes, where no slot stands in it. The builder refuses only a record with
// a key twice, and no loose tree is converted to one.
fn converted(
    alloc: Global,
    tree: &Node<Option<Primary>>,
    styles: &ExtStyles,
) -> Result<Expr, ParseErrors>
    ensures tree { Writes bare result (free_operand styles.now (shown_primary tree.now)) }
    ensures shown { IfErr result (λ errors. TellOnly errors (strict_operand_shows styles.now (shown_primary tree.now))) }
{
    // This runs no code: its contract is a law of what a conversion gives.
    trees_are_built();

    match primary_to_expr::<ExprBuilder>(alloc, tree, styles) {
        Ok(expr) => without_slots(alloc, expr),
        Err(error) => Err(refused(alloc, error)),
    }
}

// The expression, where it is a literal.
fn literal(expr: Expr) -> Result<Literal, LiteralParseError>
    ensures { TakesLiteral (bare expr) result }
{
    let (kind, source_loc, data) = expr.into_parts();
    match kind {
        ExprKind::Lit(literal) => Ok(literal),
        expr_kind => Err(LiteralParseError::InvalidLiteral(Expr {
            expr_kind,
            source_loc,
            data,
        })),
    }
}
