// Expressions.
ghost use Rattle.std.specs.Prelude.{◌≡◌, IfOk, IfErr, false};
ghost use Rattle.cedar_grammar.specs.Converting.{free_tree};
ghost use Rattle.cedar_grammar.specs.LooseReading.{read_expr};
ghost use Rattle.cedar_cst.specs.View.{shown_expr};
ghost use Rattle.cedar_trees.specs.Bare.{bare};
ghost use Rattle.cedar_grammar.specs.UnknownCalls.{holds_call};
ghost use Rattle.cedar_parser.specs.Faults.{TellOnly, strict_shows, text_shows};
ghost use Rattle.cedar_parser.specs.Strict.{LacksUnknown, Writes, ReadsTree};

use crate::errors::ParseErrors;
use crate::refusals::refused;
use crate::slots::without_slots;
use crate::text_to_cst::parse_expr;
use cedar_builders::own_builder::ExprBuilder;
use cedar_conversion::{calls_are_named, to_expr, trees_are_built};
use cedar_cst::cst;
use cedar_cst::node::Node;
use cedar_faults::ExtStyles;
use cedar_grammar::{at_most_one_meaning, converting_is_the_grammar, wider_limits_change_nothing};
use cedar_trees::expr::Expr;
use std::alloc::Global;

/// The expression that a text is within a nesting of `depth`, where these names may be called. No slot of
/// templates stands in it, since it is no policy's. (Cedar language reference, "Grammar specification".)
///
/// The first error is `ToCST` or `ToAST`, with a place, where the text is none within any nesting; `Depth`
/// where it is none within this one and more places in it open a construct; and `Memory`. With `ToAST` the
/// errors are all faults of the text, in order, each of a kind that its loose tree shows; where it has none
/// of these, a slot that stands in it is told as `InvalidSlot`. Each other error stands alone.
pub fn parse_expr_strict(
    alloc: Global,
    text: &str,
    styles: &ExtStyles,
    depth: u32,
) -> Result<Expr, ParseErrors>
    ensures tree { ReadsTree styles.now depth text.now result }
    ensures calls { IfOk result (λ expr. LacksUnknown styles.now → holds_call (bare expr) ≡ false) }
    ensures shown { IfErr result (λ errors. TellOnly errors (text_shows read_expr depth text.now (strict_shows styles.now))) }
{
    // These run no code: their contracts are laws of the grammars.
    at_most_one_meaning();
    converting_is_the_grammar();
    wider_limits_change_nothing();

    match parse_expr(alloc, text, depth) {
        Ok(tree) => converted(alloc, &tree, styles),
        Err(errors) => Err(errors),
    }
}

// The expression that a loose tree writes, where no slot stands in it. The builder refuses only a record with
// a key twice, and no loose tree is converted to one.
fn converted(
    alloc: Global,
    tree: &Node<Option<cst::Expr>>,
    styles: &ExtStyles,
) -> Result<Expr, ParseErrors>
    ensures tree { Writes bare result (free_tree styles.now (shown_expr tree.now)) }
    ensures calls { IfOk result (λ expr. LacksUnknown styles.now → holds_call (bare expr) ≡ false) }
    ensures shown { IfErr result (λ errors. TellOnly errors (strict_shows styles.now (shown_expr tree.now))) }
{
    // These run no code: their contracts are laws of what a conversion gives.
    trees_are_built();
    calls_are_named();

    match to_expr::<ExprBuilder>(alloc, tree, styles) {
        Ok(expr) => without_slots(alloc, expr),
        Err(error) => Err(refused(alloc, error)),
    }
}
