// Expressions with others in the places of their unknowns.

use crate::finding::find_told;
use crate::into_expr::IntoExpr;
use crate::rebuilding::{Replacement, rebuilt};
use cedar_builders::expr_builder::ExprBuilder;
use cedar_builders::own_builder;
use cedar_trees::errors::ExpressionConstructionError;
use cedar_trees::expr::Expr;
use cedar_trees::unknowns::Unknown;
use std::alloc::{AllocError, Global};
use std::collections::BTreeMap;
use std::rc::RcStr;

/// Expressions whose unknowns can be told, as expressions.
pub trait SubstituteExprs {
    ghost use Rattle.std.specs.Prelude.{IfOk};
    ghost use Rattle.cedar_language.specs.Tree.{Tree};
    ghost use Rattle.cedar_trees.specs.Bare.{bare};
    ghost use Rattle.cedar_builders.specs.Operations.{Gives, made};
    ghost use Rattle.cedar_substitution.specs.Chains.{with_built};
    ghost use Rattle.cedar_substitution.specs.Rising.{RecordsRiseWith, BuildsRising};
    ghost use Rattle.cedar_substitution.specs.Told.{told_tree, Substitutes};

    ghost tree: { Self → Tree };

    /// The expression, built again by `B` with what is told for a name in the place of each unknown of
    /// that name. Refused where `B` refuses a construct, with that error, and for want of memory; for
    /// want of memory alone where `B` takes every call.
    fn substitute_exprs_into_expr<B: ExprBuilder>(
        &self,
        alloc: Global,
        told: &BTreeMap<RcStr, Expr>,
    ) -> Result<B::Expr, B::BuildError>
        ensures built { Gives B.meaning B.refusal result (made B.operations (with_built B.operations (told_tree told.now.entries)) (tree self.now)) }
        ensures rising { BuildsRising B.operations B.refusal (RecordsRiseWith (told_tree told.now.entries) (tree self.now)) result };

    /// The expression with what is told for a name in the place of each unknown of that name, without
    /// data; refused for memory alone.
    fn substitute_exprs(
        &self,
        alloc: Global,
        told: &BTreeMap<RcStr, Expr>,
    ) -> Result<Expr, AllocError>
        ensures { IfOk result (λ expr. Substitutes (told_tree told.now.entries) (tree self.now) (bare expr)) }
    {
        match self.substitute_exprs_into_expr::<own_builder::ExprBuilder>(alloc, told) {
            Ok(expr) => Ok(expr),
            Err(error) => match error {
                ExpressionConstructionError::Memory(error) => Err(error),
                ExpressionConstructionError::DuplicateKey(_repeated) => unreachable!(),
            },
        }
    }
}

impl<T> SubstituteExprs for Expr<T> {
    ghost use Rattle.cedar_trees.specs.Bare.{bare};

    ghost tree = { bare };

    fn substitute_exprs_into_expr<B: ExprBuilder>(
        &self,
        alloc: Global,
        told: &BTreeMap<RcStr, Expr>,
    ) -> Result<B::Expr, B::BuildError> {
        rebuilt::<T, B, Told<'_>>(alloc, &Told { told }, self)
    }
}

// What is told for unknowns, by their names.
#[derive(Drop)]
struct Told<'a> {
    told: &'a BTreeMap<RcStr, Expr>,
}

impl<'a> Replacement for Told<'a> {
    ghost use Rattle.cedar_substitution.specs.Told.{told_tree};

    ghost replaced = { λ told. told_tree told.told.now.entries };

    #[tactic(auto, unfolding(cedar_builders::specs::Operations::made))]
    fn build_unknown<B: ExprBuilder>(
        &self,
        alloc: Global,
        unknown: &Unknown,
        builder: B,
    ) -> Result<B::Expr, B::BuildError> {
        match find_told(self.told, unknown.name.as_str()) {
            Some(expr) => expr.try_into_expr::<B>(alloc),
            None => builder.unknown(unknown.clone()?),
        }
    }
}
