// Why an expression is not restricted.
ghost use Rattle.std.specs.Prelude.{◌≡◌};

use cedar_shapes::shapes::ExprShape;
use cedar_trees::expr::Expr;
use std::alloc::AllocError;
use thiserror::Error;

/// A part of an expression may not stand in a restricted expression. `==` compares the parts by their
/// shapes, and not by places.
#[derive(Debug, Drop, Error)]
#[error("not allowed to use {feature} in a restricted expression: `{expr}`")]
pub struct InvalidRestrictedExpressionError {
    /// What the part is called, as `variables`.
    pub feature: &'static str,
    /// The part.
    pub expr: Expr,
}

impl PartialEq for InvalidRestrictedExpressionError {
    ghost use Rattle.cedar_restricted.specs.SameOffence.{same_offence, same_offence_partial};

    ghost eq = { same_offence };

    ghost laws = { same_offence_partial };

    fn eq(&self, other: &InvalidRestrictedExpressionError) -> bool {
        self.feature == other.feature && self.expr.cmp_shape(&other.expr).is_eq()
    }
}

impl Eq for InvalidRestrictedExpressionError {
    ghost use Rattle.cedar_restricted.specs.SameOffence.{same_offence_equiv};

    ghost laws = { same_offence_equiv };
}

/// Why an expression is not restricted.
#[derive(Debug, PartialEq, Eq, Drop, Error)]
pub enum RestrictedExpressionError {
    /// A part of it may not stand there.
    #[error(transparent)]
    InvalidRestrictedExpression(InvalidRestrictedExpressionError),
    /// Memory ran out.
    #[error(transparent)]
    Memory(AllocError),
}

impl From<AllocError> for RestrictedExpressionError {
    ghost use Rattle.cedar_restricted.specs.declared.errors.RestrictedExpressionError.TheVariants.{Memory};

    ghost from_gives = { λ error made. made ≡ Memory error };

    fn from(error: AllocError) -> RestrictedExpressionError {
        RestrictedExpressionError::Memory(error)
    }
}
