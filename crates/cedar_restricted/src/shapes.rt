// Restricted expressions compared by their shapes: by their constructs and parts, and not by places.
ghost use Rattle.std.specs.Prelude.{◌≡◌};
ghost use Rattle.cedar_restricted.specs.Views.{borrowed_tree};
ghost use Rattle.cedar_restricted.specs.ShapesOnly.{restricted_shape};

use crate::borrowed::BorrowedRestrictedExpr;
use crate::restricted::RestrictedExpr;
use cedar_shapes::shapes::ExprShape;
use std::hash::{Hash, Hasher};

/// A restricted expression whose `==` and hash are those of its shape.
#[derive(Debug, Clone, Copy)]
pub struct RestrictedExprShapeOnly<'a> {
    expr: BorrowedRestrictedExpr<'a>,
}

impl<'a> RestrictedExprShapeOnly<'a> {
    /// The shape of an expression that is lent. Takes no memory.
    pub fn new(expr: BorrowedRestrictedExpr<'a>) -> RestrictedExprShapeOnly<'a>
        ensures { restricted_shape result ≡ borrowed_tree expr.entry }
    {
        RestrictedExprShapeOnly { expr }
    }
}

impl PartialEq for RestrictedExprShapeOnly<'_> {
    ghost use Rattle.cedar_restricted.specs.ShapesOnly.{same_shape, same_shape_partial};

    ghost eq = { same_shape };

    ghost laws = { same_shape_partial };

    fn eq(&self, other: &Self) -> bool {
        self.expr == other.expr
    }
}

impl Eq for RestrictedExprShapeOnly<'_> {
    ghost use Rattle.cedar_restricted.specs.ShapesOnly.{same_shape_equiv};

    ghost laws = { same_shape_equiv };
}

impl Hash for RestrictedExprShapeOnly<'_> {
    ghost use Rattle.cedar_shapes.specs.ShapeHash.{shape_hash};
    ghost use Rattle.cedar_restricted.specs.ShapesOnly.{restricted_shape, shapes_alike};

    ghost hash_input = { λ s. shape_hash (restricted_shape s) };

    ghost respects_eq = { shapes_alike.fed };

    fn hash<H: Hasher>(&self, state: &mut H) {
        self.expr.hash(state);
    }
}

impl PartialEq for BorrowedRestrictedExpr<'_> {
    ghost use Rattle.cedar_restricted.specs.ShapesOnly.{same_borrowed, same_borrowed_partial};

    ghost eq = { same_borrowed };

    ghost laws = { same_borrowed_partial };

    fn eq(&self, other: &Self) -> bool {
        self.as_expr().cmp_shape(other.as_expr()).is_eq()
    }
}

impl Eq for BorrowedRestrictedExpr<'_> {
    ghost use Rattle.cedar_restricted.specs.ShapesOnly.{same_borrowed_equiv};

    ghost laws = { same_borrowed_equiv };
}

impl Hash for BorrowedRestrictedExpr<'_> {
    ghost use Rattle.cedar_shapes.specs.ShapeHash.{shape_hash};
    ghost use Rattle.cedar_restricted.specs.Views.{borrowed_tree};
    ghost use Rattle.cedar_restricted.specs.ShapesOnly.{borrowed_alike};

    ghost hash_input = { λ b. shape_hash (borrowed_tree b) };

    ghost respects_eq = { borrowed_alike.fed };

    fn hash<H: Hasher>(&self, state: &mut H) {
        self.as_expr().hash_shape(state);
    }
}

impl PartialEq for RestrictedExpr {
    ghost use Rattle.cedar_restricted.specs.ShapesOnly.{same_restricted, same_restricted_partial};

    ghost eq = { same_restricted };

    ghost laws = { same_restricted_partial };

    fn eq(&self, other: &RestrictedExpr) -> bool {
        self.as_borrowed() == other.as_borrowed()
    }
}

impl Eq for RestrictedExpr {
    ghost use Rattle.cedar_restricted.specs.ShapesOnly.{same_restricted_equiv};

    ghost laws = { same_restricted_equiv };
}

impl Hash for RestrictedExpr {
    ghost use Rattle.cedar_shapes.specs.ShapeHash.{shape_hash};
    ghost use Rattle.cedar_restricted.specs.ShapesOnly.{restricted_alike};
    ghost use Rattle.cedar_restricted.specs.Views.{restricted_tree};

    ghost hash_input = { λ r. shape_hash (restricted_tree r) };

    ghost respects_eq = { restricted_alike.fed };

    fn hash<H: Hasher>(&self, state: &mut H) {
        self.as_borrowed().hash(state);
    }
}
