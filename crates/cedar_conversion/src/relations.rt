// `has`, `like` and `is`.
ghost use Rattle.std.specs.Prelude.{◌⊎◌, Option, Some, List, IfErr};
ghost use Rattle.cedar_language.specs.Tree as tree;
ghost use Rattle.cedar_language.specs.Tree.{Tree, PatternElem};
ghost use Rattle.cedar_language.specs.Uid.{Text, Name};
ghost use Rattle.cedar_grammar.specs.Build as build;
ghost use Rattle.cedar_grammar.specs.Build.{unary, is_in};
ghost use Rattle.cedar_grammar.specs.Escape.{pattern_of};
ghost use Rattle.cedar_grammar.specs.Converting.{lone_primary, lone_member, member_fields, primary_path, primary_raw};
ghost use Rattle.cedar_cst.specs.View.{shown_add};
ghost use Rattle.cedar_faults.specs.Converts.{and_then, Finds};
ghost use Rattle.cedar_faults.specs.Telling.{Told, TellsOnly};
ghost use Rattle.cedar_conversion.specs.Building.{MakesTree};
ghost use Rattle.cedar_conversion.specs.Fields.{path_texts};
ghost use Rattle.cedar_conversion.specs.Shown.{attributes_show, pattern_shows, type_shows};

use crate::building::{builder_at, taken};
use crate::primaries::{to_entity_type, to_fields, to_like_pattern};
use cedar_builders::expr_builder::ExprBuilder;
use cedar_cst::cst::Add;
use cedar_cst::node::Node;
use cedar_faults::{ConversionError, flatten_tuple_2};
use cedar_literals::patterns::Pattern;
use cedar_literals::uids::EntityType;
use cedar_names::names;
use cedar_names::places::Loc;
use cedar_trees::unknowns::NonEmpty;
use std::alloc::Global;
use std::rc::RcStr;

/// `target has attrs`, or the faults of both.
pub fn has<B: ExprBuilder>(
    alloc: Global,
    loc: Option<&Loc>,
    target: Result<B::Expr, ConversionError<B::BuildError>>,
    attrs: Result<NonEmpty<RcStr>, ConversionError<B::BuildError>>,
) -> Result<B::Expr, ConversionError<B::BuildError>>
    ensures tree { (v : Option Tree) (w : Option (List Text)) → MakesTree B.operations B.meaning B.refusal target v → Finds path_texts attrs w →
        MakesTree B.operations B.meaning B.refusal result (and_then v (λ x. and_then w (λ ss. Some (build.has ss x)))) }
    ensures shown { IfErr result (λ error. TellsOnly error (λ kind. Told target kind ⊎ Told attrs kind)) }
{
    let (target, attrs) = flatten_tuple_2(target, attrs)?;
    let builder = builder_at::<B>(alloc, loc)?;
    if attrs.tail.is_empty() {
        taken::<B>(builder.has_attr(target, attrs.head))
    } else {
        taken::<B>(builder.extended_has_attr(target, attrs))
    }
}

/// `target like pattern`, or the faults of both.
pub fn like<B: ExprBuilder>(
    alloc: Global,
    loc: Option<&Loc>,
    target: Result<B::Expr, ConversionError<B::BuildError>>,
    pattern: Result<Pattern, ConversionError<B::BuildError>>,
) -> Result<B::Expr, ConversionError<B::BuildError>>
    ensures tree { (v : Option Tree) (w : Option (List PatternElem)) → MakesTree B.operations B.meaning B.refusal target v → Finds (λ p. p) pattern w →
        MakesTree B.operations B.meaning B.refusal result (and_then v (λ x. and_then w (λ q. Some (unary (tree.Like q) x)))) }
    ensures shown { IfErr result (λ error. TellsOnly error (λ kind. Told target kind ⊎ Told pattern kind)) }
{
    let (target, pattern) = flatten_tuple_2(target, pattern)?;
    let builder = builder_at::<B>(alloc, loc)?;
    taken::<B>(builder.like(target, pattern))
}

/// `target is name`, or the faults of both.
pub fn is_type<B: ExprBuilder>(
    alloc: Global,
    loc: Option<&Loc>,
    target: Result<B::Expr, ConversionError<B::BuildError>>,
    name: Result<names::Name, ConversionError<B::BuildError>>,
) -> Result<B::Expr, ConversionError<B::BuildError>>
    ensures tree { (v : Option Tree) (w : Option Name) → MakesTree B.operations B.meaning B.refusal target v → Finds (λ p. p) name w →
        MakesTree B.operations B.meaning B.refusal result (and_then v (λ x. and_then w (λ p. Some (unary (tree.Is p) x)))) }
    ensures shown { IfErr result (λ error. TellsOnly error (λ kind. Told target kind ⊎ Told name kind)) }
{
    let (target, name) = flatten_tuple_2(target, name)?;
    let builder = builder_at::<B>(alloc, loc)?;
    taken::<B>(builder.is_entity_type(target, EntityType::from(name)))
}

/// `target is name in entity`, or the faults of all three.
pub fn is_type_in<B: ExprBuilder>(
    alloc: Global,
    loc: Option<&Loc>,
    target: Result<B::Expr, ConversionError<B::BuildError>>,
    name: Result<names::Name, ConversionError<B::BuildError>>,
    entity: Result<B::Expr, ConversionError<B::BuildError>>,
) -> Result<B::Expr, ConversionError<B::BuildError>>
    ensures tree { (v : Option Tree) (w : Option Name) (u : Option Tree) → MakesTree B.operations B.meaning B.refusal target v → Finds (λ p. p) name w → MakesTree B.operations B.meaning B.refusal entity u →
        MakesTree B.operations B.meaning B.refusal result (and_then v (λ x. and_then w (λ p. and_then u (λ y. Some (is_in p x y))))) }
    ensures shown { IfErr result (λ error. TellsOnly error (λ kind. Told target kind ⊎ Told name kind ⊎ Told entity kind)) }
{
    let (target, (name, entity)) = flatten_tuple_2(target, flatten_tuple_2(name, entity))?;
    let builder = builder_at::<B>(alloc, loc)?;
    taken::<B>(builder.is_in_entity_type(target, EntityType::from(name), entity))
}

/// `target has fields`, or the faults of both.
#[inline(never)]
pub(crate) fn has_to_expr<B: ExprBuilder>(
    alloc: Global,
    loc: Option<&Loc>,
    target: Result<B::Expr, ConversionError<B::BuildError>>,
    fields: &Node<Option<Add>>,
) -> Result<B::Expr, ConversionError<B::BuildError>>
    ensures tree { (v : Option Tree) → MakesTree B.operations B.meaning B.refusal target v →
        MakesTree B.operations B.meaning B.refusal result
        (and_then v (λ x. and_then (and_then (lone_member (shown_add fields.now)) member_fields) (λ ss. Some (build.has ss x)))) }
    ensures shown { IfErr result (λ error. TellsOnly error (λ kind. Told target kind ⊎ attributes_show (shown_add fields.now) kind)) }
{
    let attrs = to_fields(alloc, fields);
    has::<B>(alloc, loc, target, attrs)
}

/// `target like text`, or the faults of both.
#[inline(never)]
pub(crate) fn like_to_expr<B: ExprBuilder>(
    alloc: Global,
    loc: Option<&Loc>,
    target: Result<B::Expr, ConversionError<B::BuildError>>,
    text: &Node<Option<Add>>,
) -> Result<B::Expr, ConversionError<B::BuildError>>
    ensures tree { (v : Option Tree) → MakesTree B.operations B.meaning B.refusal target v →
        MakesTree B.operations B.meaning B.refusal result
        (and_then v (λ x. and_then (and_then (and_then (lone_primary (shown_add text.now)) primary_raw) pattern_of) (λ q. Some (unary (tree.Like q) x)))) }
    ensures shown { IfErr result (λ error. TellsOnly error (λ kind. Told target kind ⊎ pattern_shows (shown_add text.now) kind)) }
{
    let pattern = to_like_pattern(alloc, text);
    like::<B>(alloc, loc, target, pattern)
}

/// `target is name`, or the faults of both.
#[inline(never)]
pub(crate) fn is_to_expr<B: ExprBuilder>(
    alloc: Global,
    loc: Option<&Loc>,
    target: Result<B::Expr, ConversionError<B::BuildError>>,
    name: &Node<Option<Add>>,
) -> Result<B::Expr, ConversionError<B::BuildError>>
    ensures tree { (v : Option Tree) → MakesTree B.operations B.meaning B.refusal target v →
        MakesTree B.operations B.meaning B.refusal result
        (and_then v (λ x. and_then (and_then (lone_primary (shown_add name.now)) primary_path) (λ p. Some (unary (tree.Is p) x)))) }
    ensures shown { IfErr result (λ error. TellsOnly error (λ kind. Told target kind ⊎ type_shows (shown_add name.now) kind)) }
{
    let named = to_entity_type(alloc, name);
    is_type::<B>(alloc, loc, target, named)
}

/// `target is name in entity`, or the faults of all three.
#[inline(never)]
pub(crate) fn is_in_to_expr<B: ExprBuilder>(
    alloc: Global,
    loc: Option<&Loc>,
    target: Result<B::Expr, ConversionError<B::BuildError>>,
    name: &Node<Option<Add>>,
    entity: Result<B::Expr, ConversionError<B::BuildError>>,
) -> Result<B::Expr, ConversionError<B::BuildError>>
    ensures tree { (v : Option Tree) (u : Option Tree) →
        MakesTree B.operations B.meaning B.refusal target v → MakesTree B.operations B.meaning B.refusal entity u →
        MakesTree B.operations B.meaning B.refusal result
        (and_then v (λ x. and_then (and_then (lone_primary (shown_add name.now)) primary_path) (λ p. and_then u (λ y. Some (is_in p x y))))) }
    ensures shown { IfErr result (λ error. TellsOnly error (λ kind. Told target kind ⊎ type_shows (shown_add name.now) kind ⊎ Told entity kind)) }
{
    let named = to_entity_type(alloc, name);
    is_type_in::<B>(alloc, loc, target, named, entity)
}

/// `if test then then_expr else else_expr`, or the faults of all three.
pub fn ite<B: ExprBuilder>(
    alloc: Global,
    loc: Option<&Loc>,
    test: Result<B::Expr, ConversionError<B::BuildError>>,
    then_expr: Result<B::Expr, ConversionError<B::BuildError>>,
    else_expr: Result<B::Expr, ConversionError<B::BuildError>>,
) -> Result<B::Expr, ConversionError<B::BuildError>>
    ensures tree { (u v w : Option Tree) → MakesTree B.operations B.meaning B.refusal test u → MakesTree B.operations B.meaning B.refusal then_expr v → MakesTree B.operations B.meaning B.refusal else_expr w →
        MakesTree B.operations B.meaning B.refusal result (and_then u (λ x. and_then v (λ y. and_then w (λ z. Some (tree.If x y z))))) }
    ensures shown { IfErr result (λ error. TellsOnly error (λ kind. Told test kind ⊎ Told then_expr kind ⊎ Told else_expr kind)) }
{
    let (test, (then_expr, else_expr)) = flatten_tuple_2(
        test,
        flatten_tuple_2(then_expr, else_expr),
    )?;
    let builder = builder_at::<B>(alloc, loc)?;
    taken::<B>(builder.ite(test, then_expr, else_expr))
}
