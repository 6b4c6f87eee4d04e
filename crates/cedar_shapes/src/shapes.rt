// Comparisons of expressions that look past places and data.
ghost use Rattle.std.specs.Prelude.{◌≡◌, ◌↔◌, IsTrue};
ghost use Rattle.std.specs.Cmp.{IsTotalOrder};
ghost use Rattle.std.specs.FinMap.{IsAntisymmetric};
ghost use Rattle.std.specs.List.{fold};
ghost use Rattle.cedar_language.specs.Tree.{Tree};
ghost use Rattle.cedar_trees.specs.Bare.{bare};
ghost use Rattle.cedar_shapes.specs.ShapeHash.{shape_hash};
ghost use Rattle.cedar_shapes.specs.ShapeOrder.{tree_cmp};
ghost use Rattle.cedar_shapes.specs.ShapesOnly.{only_shape};

use crate::order::{compare, feed};
use cedar_trees::expr::Expr;
use std::cmp::Ordering;
use std::fmt;
use std::hash::{Hash, Hasher};

/// What compares expressions by their shapes: by their constructs and parts, and not by places and
/// data. Nothing here takes memory, and a chain down the first parts takes no stack.
pub trait ExprShape {
    // its bare tree
    ghost tree: { Self → Tree };

    /// Whether both have one shape.
    fn eq_shape<U>(&self, other: &Expr<U>) -> bool
        ensures { IsTrue result ↔ (tree self.now ≡ bare other.now) };

    /// Which one is the lesser by shape: first how many parts count, then the constructs, and then
    /// the parts. `Equal` exactly where both have one shape.
    fn cmp_shape<U>(&self, other: &Expr<U>) -> Ordering
        ensures { result ≡ tree_cmp (tree self.now) (bare other.now) };

    /// Feeds a hasher the shape; equal shapes feed it the same.
    fn hash_shape<H: Hasher>(&self, state: &mut H)
        ensures { state.new ≡ fold H.write state.old (shape_hash (tree self.now)) };
}

impl<T> ExprShape for Expr<T> {
    ghost use Rattle.cedar_trees.specs.Bare.{bare};

    ghost tree = { bare };

    fn eq_shape<U>(&self, other: &Expr<U>) -> bool {
        compare(self, other).is_eq()
    }

    fn cmp_shape<U>(&self, other: &Expr<U>) -> Ordering {
        compare(self, other)
    }

    fn hash_shape<H: Hasher>(&self, state: &mut H) {
        feed(self, state);
    }
}

/// The order of shapes is total, and ties equal shapes alone.
pub fn shapes_are_ordered()
    ensures total { IsTotalOrder tree_cmp }
    ensures same { IsAntisymmetric tree_cmp }
{}

#[derive(Drop)]
enum Held<'a, T> {
    Borrowed(&'a Expr<T>),
    Owned(Expr<T>),
}

/// An expression whose `==`, order and hash are those of its shape.
#[derive(Drop)]
pub struct ExprShapeOnly<'a, T = ()> {
    expr: Held<'a, T>,
}

impl<'a, T> ExprShapeOnly<'a, T> {
    /// The shape of an expression that is lent. Takes no memory.
    pub fn new_from_borrowed(expr: &'a Expr<T>) -> ExprShapeOnly<'a, T>
        ensures { only_shape result ≡ bare expr.now }
    {
        ExprShapeOnly {
            expr: Held::Borrowed(expr),
        }
    }

    /// The shape of an expression that is given, and let go with it. Takes no memory.
    pub fn new_from_owned(expr: Expr<T>) -> ExprShapeOnly<'a, T>
        ensures { only_shape result ≡ bare expr }
    {
        ExprShapeOnly {
            expr: Held::Owned(expr),
        }
    }

    fn expr(&self) -> &Expr<T>
        ensures { bare result.now ≡ only_shape self.now }
    {
        match &self.expr {
            Held::Borrowed(expr) => expr,
            Held::Owned(expr) => expr,
        }
    }
}

impl<T> fmt::Debug for ExprShapeOnly<'_, T> {
    fn fmt<W: fmt::Write>(&self, f: &mut fmt::Formatter<W>) -> fmt::Result {
        fmt::Debug::fmt(self.expr(), f)
    }
}

impl<T> PartialEq for ExprShapeOnly<'_, T> {
    ghost use Rattle.std.specs.Ordering.{eq_by_cmp};
    ghost use Rattle.std.specs.Cmp.{partial_equiv_from_equiv};
    ghost use Rattle.std.proofs.lemmas.Cmp.{eq_by_cmp_equiv};
    ghost use Rattle.cedar_shapes.specs.ShapesOnly.{order_of_shapes, shapes_total};

    ghost eq = { eq_by_cmp order_of_shapes };

    ghost laws = { partial_equiv_from_equiv (eq_by_cmp_equiv shapes_total) };

    fn eq(&self, other: &Self) -> bool {
        self.cmp(other).is_eq()
    }
}

impl<T> Eq for ExprShapeOnly<'_, T> {
    ghost use Rattle.std.proofs.lemmas.Cmp.{eq_by_cmp_equiv};
    ghost use Rattle.cedar_shapes.specs.ShapesOnly.{shapes_total};

    ghost laws = { eq_by_cmp_equiv shapes_total };
}

impl<T> PartialOrd for ExprShapeOnly<'_, T> {
    ghost use Rattle.std.specs.Ordering.{as_partial_cmp};
    ghost use Rattle.std.specs.Cmp.{partial_order_from_total};
    ghost use Rattle.cedar_shapes.specs.ShapesOnly.{order_of_shapes, shapes_total};

    ghost partial_cmp = { as_partial_cmp order_of_shapes };

    ghost laws = { partial_order_from_total shapes_total };

    fn partial_cmp(&self, other: &Self) -> Option<Ordering> {
        Some(self.cmp(other))
    }
}

impl<T> Ord for ExprShapeOnly<'_, T> {
    ghost use Rattle.std.specs.Prelude.{refl};
    ghost use Rattle.cedar_shapes.specs.ShapesOnly.{order_of_shapes, shapes_total};

    ghost cmp = { order_of_shapes };

    ghost total = { shapes_total };

    ghost matches_partial_cmp = { λ x y. refl };

    ghost matches_eq = { λ x y. refl };

    fn cmp(&self, other: &Self) -> Ordering {
        compare(self.expr(), other.expr())
    }
}

impl<T> Hash for ExprShapeOnly<'_, T> {
    ghost use Rattle.cedar_shapes.specs.ShapeHash.{shape_hash};
    ghost use Rattle.cedar_shapes.specs.ShapesOnly.{only_shape, shapes_alike};

    ghost hash_input = { λ s. shape_hash (only_shape s) };

    ghost respects_eq = { shapes_alike.fed };

    fn hash<H: Hasher>(&self, state: &mut H) {
        feed(self.expr(), state);
    }
}
