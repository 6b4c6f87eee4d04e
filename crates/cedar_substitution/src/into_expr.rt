// Expressions made by another builder.

use crate::rebuilding::{Replacement, rebuilt};
use cedar_builders::expr_builder::ExprBuilder;
use cedar_trees::expr::Expr;
use cedar_trees::unknowns::Unknown;
use std::alloc::Global;

/// Expressions that any builder can build again.
pub trait IntoExpr {
    ghost use Rattle.cedar_language.specs.Tree.{Tree};
    ghost use Rattle.cedar_builders.specs.Operations.{Gives, built};
    ghost use Rattle.cedar_substitution.specs.Rising.{RecordsRise, BuildsRising};

    ghost tree: { Self → Tree };

    /// The expression, built again by `B`: each of its constructs at its place, with the default of
    /// `B`'s data. Refused where `B` refuses a construct, with that error, and for want of memory.
    fn try_into_expr<B: ExprBuilder>(&self, alloc: Global) -> Result<B::Expr, B::BuildError>
        ensures built { Gives B.meaning B.refusal result (built B.operations (tree self.now)) }
        ensures rising { BuildsRising B.operations B.refusal (RecordsRise (tree self.now)) result };

    /// The same, for a builder whose errors are want of memory alone, as well as for any other.
    fn into_expr<B: ExprBuilder>(&self, alloc: Global) -> Result<B::Expr, B::BuildError>
        ensures built { Gives B.meaning B.refusal result (built B.operations (tree self.now)) }
        ensures rising { BuildsRising B.operations B.refusal (RecordsRise (tree self.now)) result }
    {
        self.try_into_expr::<B>(alloc)
    }
}

impl<T> IntoExpr for Expr<T> {
    ghost use Rattle.cedar_trees.specs.Bare.{bare};

    ghost tree = { bare };

    fn try_into_expr<B: ExprBuilder>(&self, alloc: Global) -> Result<B::Expr, B::BuildError> {
        rebuilt::<T, B, Unchanged>(alloc, &Unchanged, self)
    }
}

// Each unknown stands for itself.
struct Unchanged;

impl Replacement for Unchanged {
    ghost use Rattle.cedar_language.specs.Tree as tree;

    ghost replaced = { λ same name ty. tree.Unknown name ty };

    #[tactic(auto, unfolding(cedar_builders::specs::Operations::made))]
    fn build_unknown<B: ExprBuilder>(
        &self,
        _alloc: Global,
        unknown: &Unknown,
        builder: B,
    ) -> Result<B::Expr, B::BuildError> {
        builder.unknown(unknown.clone()?)
    }
}
