// Constructs of one operand that is built already, and of a name, a path, a pattern or a type of their own.
ghost use Rattle.std.specs.Prelude.{◌≡◌, ◌∷◌, map};
ghost use Rattle.std.specs.Rc.{rc_str_bytes};
ghost use Rattle.cedar_language.specs.Tree as tree;
ghost use Rattle.cedar_builders.specs.Operations.{Builds, of_one};

use cedar_builders::expr_builder::ExprBuilder;
use cedar_literals::patterns::Pattern;
use cedar_literals::uids::EntityType;
use cedar_trees::unknowns::NonEmpty;
use std::alloc::Global;
use std::rc::RcStr;

/// `first.attr`.
pub(crate) fn get_attr<B: ExprBuilder>(
    builder: B,
    first: B::Expr,
    attr: &RcStr,
) -> Result<B::Expr, B::BuildError>
    ensures { Builds B.meaning B.refusal result (of_one B.operations
        (tree.GetAttr (rc_str_bytes attr.now)) (B.meaning first)) }
{
    builder.get_attr(first, attr.clone()?)
}

/// `first has attr`.
pub(crate) fn has_attr<B: ExprBuilder>(
    builder: B,
    first: B::Expr,
    attr: &RcStr,
) -> Result<B::Expr, B::BuildError>
    ensures { Builds B.meaning B.refusal result (of_one B.operations
        (tree.HasAttr (rc_str_bytes attr.now)) (B.meaning first)) }
{
    builder.has_attr(first, attr.clone()?)
}

/// `first has a.b.c`.
pub(crate) fn has_path<B: ExprBuilder>(
    alloc: Global,
    builder: B,
    first: B::Expr,
    attrs: &NonEmpty<RcStr>,
) -> Result<B::Expr, B::BuildError>
    ensures { Builds B.meaning B.refusal result (of_one B.operations
        (tree.HasPath (rc_str_bytes attrs.now.head) (map rc_str_bytes attrs.now.tail.items))
        (B.meaning first)) }
{
    builder.extended_has_attr(first, attrs.clone(alloc)?)
}

/// `first like pattern`.
pub(crate) fn like<B: ExprBuilder>(
    builder: B,
    first: B::Expr,
    pattern: &Pattern,
) -> Result<B::Expr, B::BuildError>
    ensures { Builds B.meaning B.refusal result (of_one B.operations
        (tree.Like pattern.now) (B.meaning first)) }
{
    builder.like(first, pattern.clone()?)
}

/// `first is entity_type`.
pub(crate) fn is_of_type<B: ExprBuilder>(
    alloc: Global,
    builder: B,
    first: B::Expr,
    entity_type: &EntityType,
) -> Result<B::Expr, B::BuildError>
    ensures { Builds B.meaning B.refusal result (of_one B.operations
        (tree.Is entity_type.now) (B.meaning first)) }
{
    builder.is_entity_type(first, entity_type.clone(alloc)?)
}
