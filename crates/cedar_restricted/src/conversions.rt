// Restricted expressions from values, and expressions from restricted ones.
ghost use Rattle.std.specs.Prelude.{◌≡◌};
ghost use Rattle.either.specs.declared.Either.TheVariants.{Right};
ghost use Rattle.cedar_trees.specs.Bare.{bare};
ghost use Rattle.cedar_restricted.specs.Converting.{MakesRestricted};

use crate::borrowed::BorrowedRestrictedExpr;
use crate::offences::first_offence;
use crate::partial_value_laws::written_values_are_restricted;
use crate::partial_values::PartialValue;
use crate::restricted::RestrictedExpr;
use crate::restricted_laws::offences_are_what_is_not_restricted;
use crate::to_expr::ToExpr;
use cedar_names::conversions::FromIn;
use cedar_shapes::shapes::ExprShape;
use cedar_trees::expr::Expr;
use cedar_values::extension_values::RepresentableExtensionValue;
use cedar_values::values::{Value, ValueKind};
use std::alloc::{AllocError, Global};
use std::convert::AsRef;
use std::ops::Deref;
use thiserror::Error;

impl FromIn<Value> for RestrictedExpr {
    type Error = AllocError;

    ghost use Rattle.cedar_restricted.specs.Views.{restricted_tree};
    ghost use Rattle.std.specs.Prelude.{IfOk};
    ghost use Rattle.cedar_restricted.specs.Expressing.{Expresses};

    ghost from_in_gives = { λ value result. IfOk result (λ expr. Expresses value (restricted_tree expr)) };

    /// What writes the value, at its place; refused for memory alone.
    fn from_in(alloc: Global, value: Value) -> Result<RestrictedExpr, AllocError> {
        written_values_are_restricted();
        Ok(RestrictedExpr::new_unchecked(value.to_expr(alloc)?))
    }
}

impl FromIn<ValueKind> for RestrictedExpr {
    type Error = AllocError;

    ghost use Rattle.cedar_restricted.specs.Views.{restricted_tree};
    ghost use Rattle.std.specs.Prelude.{IfOk};
    ghost use Rattle.cedar_values.specs.Kinds.{value_of};
    ghost use Rattle.cedar_restricted.specs.Expressing.{Expresses};

    ghost from_in_gives = { λ kind result. IfOk result (λ expr. Expresses (value_of kind) (restricted_tree expr)) };

    /// What writes the value; refused for memory alone.
    fn from_in(alloc: Global, kind: ValueKind) -> Result<RestrictedExpr, AllocError> {
        written_values_are_restricted();
        Ok(RestrictedExpr::new_unchecked(kind.to_expr(alloc)?))
    }
}

impl FromIn<RepresentableExtensionValue> for RestrictedExpr {
    type Error = AllocError;

    ghost use Rattle.cedar_restricted.specs.Views.{restricted_tree};
    ghost use Rattle.std.specs.Prelude.{◌≡◌, IfOk};
    ghost use Rattle.cedar_values.specs.Representations.{written_call};

    ghost from_in_gives = { λ value result. IfOk result (λ expr. restricted_tree expr ≡ written_call value) };

    /// The call that makes the value; refused for memory alone.
    fn from_in(
        alloc: Global,
        value: RepresentableExtensionValue,
    ) -> Result<RestrictedExpr, AllocError> {
        written_values_are_restricted();
        Ok(RestrictedExpr::new_unchecked(value.to_expr(alloc)?))
    }
}

/// Why no restricted expression is made of a partial value. `==` compares residuals by their shapes, and
/// not by places.
#[derive(Debug, Drop, Error)]
pub enum PartialValueToRestrictedExprError {
    /// It is a residual that is not restricted.
    #[error("residual is not a valid restricted expression")]
    NontrivialResidual {
        /// The residual.
        residual: Expr,
    },
    /// Memory ran out.
    #[error(transparent)]
    Memory(AllocError),
}

impl PartialEq for PartialValueToRestrictedExprError {
    ghost use Rattle.cedar_restricted.specs.Sameness.{same_refusal, same_refusal_partial};

    ghost eq = { same_refusal };

    ghost laws = { same_refusal_partial };

    fn eq(&self, other: &PartialValueToRestrictedExprError) -> bool {
        match (self, other) {
            (
                PartialValueToRestrictedExprError::NontrivialResidual { residual: a },
                PartialValueToRestrictedExprError::NontrivialResidual { residual: b },
            ) => a.cmp_shape(b).is_eq(),
            (
                PartialValueToRestrictedExprError::Memory(_),
                PartialValueToRestrictedExprError::Memory(_),
            ) => true,
            _ => false,
        }
    }
}

impl Eq for PartialValueToRestrictedExprError {
    ghost use Rattle.cedar_restricted.specs.Sameness.{same_refusal_equiv};

    ghost laws = { same_refusal_equiv };
}

impl From<AllocError> for PartialValueToRestrictedExprError {
    ghost use Rattle.cedar_restricted.specs.declared.conversions.PartialValueToRestrictedExprError.TheVariants.{Memory};

    ghost from_gives = { λ error made. made ≡ Memory error };

    fn from(error: AllocError) -> PartialValueToRestrictedExprError {
        PartialValueToRestrictedExprError::Memory(error)
    }
}

impl FromIn<PartialValue> for RestrictedExpr {
    type Error = PartialValueToRestrictedExprError;

    ghost use Rattle.cedar_restricted.specs.PartialValues.{partial_of};
    ghost use Rattle.cedar_restricted.specs.Converting.{MakesRestricted};

    ghost from_in_gives = { λ partial result. MakesRestricted (partial_of partial) result };

    /// What writes the value, or the residual; refused where the residual is not restricted, or for
    /// memory.
    fn from_in(
        alloc: Global,
        partial: PartialValue,
    ) -> Result<RestrictedExpr, PartialValueToRestrictedExprError> {
        match partial {
            PartialValue::Value(value) => Ok(RestrictedExpr::from_in(alloc, value)?),
            PartialValue::Residual(residual) => restricted_residual(residual),
        }
    }
}

fn restricted_residual(residual: Expr) -> Result<RestrictedExpr, PartialValueToRestrictedExprError>
    ensures { MakesRestricted (Right (bare residual)) result }
{
    offences_are_what_is_not_restricted();
    if first_offence(&residual).is_some() {
        return Err(PartialValueToRestrictedExprError::NontrivialResidual { residual });
    }
    Ok(RestrictedExpr::new_unchecked(residual))
}

impl From<RestrictedExpr> for Expr {
    ghost use Rattle.cedar_restricted.specs.Views.{restricted_tree};
    ghost use Rattle.std.specs.Prelude.{◌≡◌};
    ghost use Rattle.cedar_trees.specs.Bare.{bare};

    ghost from_gives = { λ restricted expr. bare expr ≡ restricted_tree restricted };

    fn from(restricted: RestrictedExpr) -> Expr {
        restricted.into_expr()
    }
}

impl AsRef<Expr> for RestrictedExpr {
    ghost use Rattle.cedar_restricted.specs.Views.{restricted_tree};
    ghost use Rattle.std.specs.Prelude.{◌≡◌, true};
    ghost use Rattle.cedar_language.specs.Restricted.{is_restricted};
    ghost use Rattle.cedar_trees.specs.Bare.{bare};

    fn as_ref(&self) -> &Expr
        ensures tree { bare result.now ≡ restricted_tree self.now }
        ensures restricted { is_restricted (bare result.now) ≡ true }
    {
        self.as_borrowed().as_expr()
    }
}

impl Deref for RestrictedExpr {
    type Target = Expr;

    ghost use Rattle.cedar_restricted.specs.Views.{restricted_tree};
    ghost use Rattle.std.specs.Prelude.{◌≡◌};
    ghost use Rattle.cedar_trees.specs.Bare.{bare};

    ghost deref_gives = { λ restricted expr. bare expr ≡ restricted_tree restricted };

    fn deref(&self) -> &Expr {
        self.as_borrowed().as_expr()
    }
}

impl AsRef<Expr> for BorrowedRestrictedExpr<'_> {
    ghost use Rattle.std.specs.Prelude.{◌≡◌, true};
    ghost use Rattle.cedar_language.specs.Restricted.{is_restricted};
    ghost use Rattle.cedar_trees.specs.Bare.{bare};
    ghost use Rattle.cedar_restricted.specs.Views.{borrowed_tree};

    fn as_ref(&self) -> &Expr
        ensures tree { bare result.now ≡ borrowed_tree self.now }
        ensures restricted { is_restricted (bare result.now) ≡ true }
    {
        self.as_expr()
    }
}

impl Deref for BorrowedRestrictedExpr<'_> {
    type Target = Expr;

    ghost use Rattle.std.specs.Prelude.{◌≡◌};
    ghost use Rattle.cedar_trees.specs.Bare.{bare};
    ghost use Rattle.cedar_restricted.specs.Views.{borrowed_tree};

    ghost deref_gives = { λ borrowed expr. bare expr ≡ borrowed_tree borrowed };

    fn deref(&self) -> &Expr {
        self.as_expr()
    }
}
