// Readers of expressions that stand above their type.
ghost use Rattle.std.specs.Prelude.{◌≡◌, IfOk, option_map};
ghost use Rattle.cedar_language.specs.Tree.{Tree};
ghost use Rattle.cedar_literals.specs.Types.{value_type_of};
ghost use Rattle.cedar_shapes.specs.Leaves.{slots_among, unknowns_among, holds_unknown, is_projectable as is_projectable_tree};
ghost use Rattle.cedar_shapes.specs.Positions.{positions};
ghost use Rattle.cedar_shapes.specs.PositionsLeft.{positions_left, slots_left, unknowns_left};
ghost use Rattle.cedar_shapes.specs.StaticTypes.{type_of};

use crate::iteration::{ExprIterator, Slots, Unknowns};
use crate::leaves::{has_unknown, projectable};
use crate::types::{FunctionTypes, static_type};
use cedar_literals::types::Type;
use cedar_trees::expr::Expr;
use std::alloc::{AllocError, Global};

/// What is read of an expression and all that are in it.
pub trait ExprReaders<T> {
    // its bare tree
    ghost tree: { Self → Tree };

    /// Each position once, an expression before those in it; refused for memory alone.
    fn subexpressions(&self, alloc: Global) -> Result<ExprIterator<'_, T>, AllocError>
        ensures { IfOk result (λ it. positions_left it ≡ positions (tree self.now)) };

    /// Its slots, one for each position that holds one; refused for memory alone.
    fn slots(&self, alloc: Global) -> Result<Slots<'_, T>, AllocError>
        ensures { IfOk result (λ it. slots_left it ≡ slots_among (positions (tree self.now))) };

    /// Its unknowns, one for each position that holds one; refused for memory alone.
    fn unknowns(&self, alloc: Global) -> Result<Unknowns<'_, T>, AllocError>
        ensures { IfOk result (λ it. unknowns_left it ≡ unknowns_among (positions (tree self.now))) };

    /// Whether an unknown stands at one of its positions. Takes no memory.
    fn contains_unknown(&self) -> bool
        ensures { result ≡ holds_unknown (tree self.now) };

    /// The type of its value, as far as it shows without evaluating: none where it doesn't, or where
    /// the branches of an `if` differ. Refused for memory alone.
    fn try_type_of<F: FunctionTypes>(
        &self,
        alloc: Global,
        functions: &F,
    ) -> Result<Option<Type>, AllocError>
        ensures { IfOk result (λ ty. option_map value_type_of ty ≡ type_of (F.returns functions.now) (tree self.now)) };

    /// Whether it consists of literals, unknowns, variables, sets and records alone. Takes no memory.
    fn is_projectable(&self) -> bool
        ensures { result ≡ is_projectable_tree (tree self.now) };
}

impl<T> ExprReaders<T> for Expr<T> {
    ghost use Rattle.cedar_trees.specs.Bare.{bare};

    ghost tree = { bare };

    fn subexpressions(&self, alloc: Global) -> Result<ExprIterator<'_, T>, AllocError> {
        ExprIterator::new(alloc, self)
    }

    fn slots(&self, alloc: Global) -> Result<Slots<'_, T>, AllocError> {
        Slots::new(alloc, self)
    }

    fn unknowns(&self, alloc: Global) -> Result<Unknowns<'_, T>, AllocError> {
        Unknowns::new(alloc, self)
    }

    fn contains_unknown(&self) -> bool {
        has_unknown(self)
    }

    fn try_type_of<F: FunctionTypes>(
        &self,
        alloc: Global,
        functions: &F,
    ) -> Result<Option<Type>, AllocError> {
        static_type(alloc, self, functions)
    }

    fn is_projectable(&self) -> bool {
        projectable(self)
    }
}
