// What loose trees mean to a builder. The faults of a tree that means nothing go before what the builder
// refuses of it.
ghost use Rattle.std.specs.Prelude.{◌⊎◌, IfErr};
ghost use Rattle.cedar_grammar.specs.Converting.{expr_tree, primary_tree};
ghost use Rattle.cedar_cst.specs.View.{shown_expr, shown_primary};
ghost use Rattle.cedar_faults.specs.Reasons.{reason};
ghost use Rattle.cedar_faults.specs.Telling.{Tells, Told, TellsOnly};
ghost use Rattle.cedar_conversion.specs.Building.{MakesTree};
ghost use Rattle.cedar_conversion.specs.Meanings.{IsMeant, Weighs};
ghost use Rattle.cedar_conversion.specs.Shows.{expr_shows, operand_shows};

use crate::expressions::{expr_to_expr, primary_to_head};
use crate::heads::head_to_expr;
use cedar_builders::expr_builder::ExprBuilder;
use cedar_builders::own_builder;
use cedar_cst::cst::{Expr, Primary};
use cedar_cst::node::Node;
use cedar_faults::{ConversionError, ExtStyles};
use std::alloc::Global;

// What a builder's refusal is answered as, once the tree was converted again by a builder that refuses no
// tree which means something: its faults, where there are any.
fn weighed<T: Drop, E: Drop, F: Drop>(
    refusal: ConversionError<E>,
    again: Result<T, ConversionError<F>>,
) -> ConversionError<E>
    ensures weighed { Weighs (reason refusal) again (reason result) }
    ensures shown { TellsOnly result (λ kind. Tells refusal kind ⊎ Told again kind) }
{
    match again {
        Ok(_) => refusal,
        Err(error) => match error.into_faults() {
            Some(faults) => ConversionError::Faults(faults),
            None => ConversionError::Memory,
        },
    }
}

/// The expression that a loose tree writes, built by `B`; `styles` says what may be called.
///
/// What is given has the builder's meaning of the tree that the loose tree converts to; faults stand exactly
/// where it converts to none, one at least. The builder's own error, one of them where there are several,
/// stands only where the loose tree converts to one that the builder's operations refuse, or for want of
/// memory. Where the builder refuses a part, the loose tree is converted a second time, to look for faults.
/// Each fault is of a kind that the loose tree shows.
pub fn to_expr<B: ExprBuilder>(
    alloc: Global,
    node: &Node<Option<Expr>>,
    styles: &ExtStyles,
) -> Result<B::Expr, ConversionError<B::BuildError>>
    ensures tree { MakesTree B.operations B.meaning B.refusal result (expr_tree styles.now (shown_expr node.now)) }
    ensures meant { IfErr result (λ error. IsMeant (reason error) (expr_tree styles.now (shown_expr node.now))) }
    ensures shown { IfErr result (λ error. TellsOnly error (expr_shows styles.now (shown_expr node.now))) }
{
    match expr_to_expr::<B>(alloc, styles, node) {
        Ok(expr) => Ok(expr),
        Err(error) => match &error {
            ConversionError::Builder(_) => {
                let again = expr_to_expr::<own_builder::ExprBuilder>(alloc, styles, node);
                Err(weighed(error, again))
            }
            ConversionError::Faults(_) => Err(error),
            ConversionError::Memory => Err(error),
        },
    }
}

// The expression that a primary writes; what the builder refuses is answered also where there is none.
fn primary_built<B: ExprBuilder>(
    alloc: Global,
    styles: &ExtStyles,
    node: &Node<Option<Primary>>,
) -> Result<B::Expr, ConversionError<B::BuildError>>
    ensures tree { MakesTree B.operations B.meaning B.refusal result (primary_tree styles.now (shown_primary node.now)) }
    ensures shown { IfErr result (λ error. TellsOnly error (operand_shows styles.now (shown_primary node.now))) }
{
    let head = primary_to_head::<B>(alloc, styles, node);
    head_to_expr::<B>(alloc, node.loc(), head)
}

/// The expression that a primary writes, built by `B`, as [`to_expr`] builds those of whole expressions.
pub fn primary_to_expr<B: ExprBuilder>(
    alloc: Global,
    node: &Node<Option<Primary>>,
    styles: &ExtStyles,
) -> Result<B::Expr, ConversionError<B::BuildError>>
    ensures tree { MakesTree B.operations B.meaning B.refusal result (primary_tree styles.now (shown_primary node.now)) }
    ensures meant { IfErr result (λ error. IsMeant (reason error) (primary_tree styles.now (shown_primary node.now))) }
    ensures shown { IfErr result (λ error. TellsOnly error (operand_shows styles.now (shown_primary node.now))) }
{
    match primary_built::<B>(alloc, styles, node) {
        Ok(expr) => Ok(expr),
        Err(error) => match &error {
            ConversionError::Builder(_) => {
                let again = primary_built::<own_builder::ExprBuilder>(alloc, styles, node);
                Err(weighed(error, again))
            }
            ConversionError::Faults(_) => Err(error),
            ConversionError::Memory => Err(error),
        },
    }
}
