// Expressions that aren't evaluated to the end.
ghost use Rattle.std.specs.Prelude.{◌≡◌};

use cedar_literals::slots::SlotId;
use cedar_names::places::Loc;
use cedar_names::shared::Shared;
use cedar_shapes::shapes::ExprShape;
use cedar_trees::expr::Expr;
use std::fmt;
use thiserror::Error;

/// A slot of a template was met that no entity is linked to.
#[derive(Debug, PartialEq, Eq, Clone, Drop, Error)]
#[error("template slot `{slot}` was not linked")]
pub struct UnlinkedSlotError {
    pub(crate) slot: SlotId,
    pub(crate) source_loc: Option<Loc>,
}

/// An expression that is left. `==` looks at its shape.
#[derive(Debug, Drop)]
pub(crate) struct Residual {
    pub(crate) expr: Expr,
}

impl PartialEq for Residual {
    ghost use Rattle.std.specs.Cmp.{partial_equiv_from_equiv};
    ghost use Rattle.std.proofs.lemmas.Cmp.{eq_by_cmp_equiv};
    ghost use Rattle.cedar_extensions.specs.Residuals.{same_residual, residuals_total};

    ghost eq = { same_residual };

    ghost laws = { partial_equiv_from_equiv (eq_by_cmp_equiv residuals_total) };

    fn eq(&self, other: &Residual) -> bool {
        self.expr.cmp_shape(&other.expr).is_eq()
    }
}

impl Eq for Residual {
    ghost use Rattle.std.proofs.lemmas.Cmp.{eq_by_cmp_equiv};
    ghost use Rattle.cedar_extensions.specs.Residuals.{residuals_total};

    ghost laws = { eq_by_cmp_equiv residuals_total };
}

impl fmt::Display for Residual {
    fn fmt<W: fmt::Write>(&self, f: &mut fmt::Formatter<W>) -> fmt::Result {
        self.expr.fmt(f)
    }
}

/// A value was asked for, and what is left of the expression depends on something unknown.
#[derive(Debug, PartialEq, Eq, Clone, Drop, Error)]
#[error("the expression contains unknown(s): `{expr}`")]
pub struct NonValueError {
    pub(crate) expr: Shared<Residual>,
    pub(crate) source_loc: Option<Loc>,
}

/// The limit on nested evaluations was met.
#[derive(Debug, PartialEq, Eq, Clone, Drop, Error)]
#[error("recursion limit reached")]
pub struct RecursionLimitError {
    pub(crate) source_loc: Option<Loc>,
}

impl UnlinkedSlotError {
    // The same error, met at another place, or at none.
    pub(crate) fn at(self, source_loc: Option<Loc>) -> UnlinkedSlotError
        ensures { result ≡ record self { source_loc = source_loc } }
    {
        UnlinkedSlotError { source_loc, ..self }
    }
}

impl NonValueError {
    // The same error, met at another place, or at none.
    pub(crate) fn at(self, source_loc: Option<Loc>) -> NonValueError
        ensures { result ≡ record self { source_loc = source_loc } }
    {
        NonValueError { source_loc, ..self }
    }
}
