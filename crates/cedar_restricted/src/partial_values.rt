// What partial evaluation gives: values and residuals.
ghost use Rattle.std.specs.Prelude.{◌≡◌};
ghost use Rattle.cedar_language.specs.Tree as tree;
ghost use Rattle.cedar_trees.specs.Unknowns.{unknown_name, unknown_type};
ghost use Rattle.cedar_restricted.specs.PartialValues.{partial_of};
ghost use Rattle.either.specs.declared.Either.TheVariants.{Right};

use cedar_literals::bounded_display::BoundedDisplay;
use cedar_names::places::Loc;
use cedar_shapes::shapes::ExprShape;
use cedar_trees::expr::Expr;
use cedar_trees::unknowns::Unknown;
use cedar_values::values::Value;
use std::fmt;
use thiserror::Error;

/// What an expression is evaluated to where some values aren't known. Contracts see the value, or the
/// residual's tree, by `partial_of`, and `==` compares these: places don't count.
#[derive(Debug, Drop)]
pub enum PartialValue {
    /// A value.
    Value(Value),
    /// An expression that waits for values of its unknowns.
    Residual(Expr),
}

impl PartialValue {
    /// The residual that is this unknown.
    pub fn unknown(unknown: Unknown) -> PartialValue
        ensures { partial_of result ≡ Right (tree.Unknown (unknown_name unknown) (unknown_type unknown)) }
    {
        PartialValue::Residual(Expr::unknown(unknown))
    }

    /// The same at another place, or at none.
    pub fn with_maybe_source_loc(self, loc: Option<Loc>) -> PartialValue
        ensures { partial_of result ≡ partial_of self }
    {
        match self {
            PartialValue::Value(value) => PartialValue::Value(value.with_maybe_source_loc(loc)),
            PartialValue::Residual(expr) => {
                PartialValue::Residual(expr.with_maybe_source_loc(loc))
            }
        }
    }
}

impl PartialEq for PartialValue {
    ghost use Rattle.cedar_restricted.specs.Sameness.{same_partial_value, same_partial_value_partial};

    ghost eq = { same_partial_value };

    ghost laws = { same_partial_value_partial };

    fn eq(&self, other: &PartialValue) -> bool {
        match (self, other) {
            (PartialValue::Value(a), PartialValue::Value(b)) => a == b,
            (PartialValue::Residual(a), PartialValue::Residual(b)) => a.cmp_shape(b).is_eq(),
            _ => false,
        }
    }
}

impl Eq for PartialValue {
    ghost use Rattle.cedar_restricted.specs.Sameness.{same_partial_value_equiv};

    ghost laws = { same_partial_value_equiv };
}

/// The text of the value, or of the residual, with the first elements alone of each set and each record.
impl BoundedDisplay for PartialValue {
    ghost use Rattle.std.specs.Prelude.{None};

    ghost bounded_output = { λ partial n. None };

    fn fmt<W: fmt::Write>(&self, f: &mut fmt::Formatter<W>, n: Option<usize>) -> fmt::Result {
        match self {
            PartialValue::Value(value) => BoundedDisplay::fmt(value, f, n),
            PartialValue::Residual(expr) => BoundedDisplay::fmt(expr, f, n),
        }
    }
}

/// The text of the value, or of the residual.
impl fmt::Display for PartialValue {
    fn fmt<W: fmt::Write>(&self, f: &mut fmt::Formatter<W>) -> fmt::Result {
        self.fmt_unbounded(f)
    }
}

impl From<Value> for PartialValue {
    ghost use Rattle.std.specs.Prelude.{◌≡◌};
    ghost use Rattle.cedar_restricted.specs.PartialValues.{partial_of};
    ghost use Rattle.either.specs.declared.Either.TheVariants.{Left};

    ghost from_gives = { λ value partial. partial_of partial ≡ Left value };

    fn from(value: Value) -> PartialValue {
        PartialValue::Value(value)
    }
}

impl From<Expr> for PartialValue {
    ghost use Rattle.std.specs.Prelude.{◌≡◌};
    ghost use Rattle.cedar_trees.specs.Bare.{bare};
    ghost use Rattle.cedar_restricted.specs.PartialValues.{partial_of};
    ghost use Rattle.either.specs.declared.Either.TheVariants.{Right};

    ghost from_gives = { λ expr partial. partial_of partial ≡ Right (bare expr) };

    /// The expression as a residual.
    fn from(expr: Expr) -> PartialValue {
        PartialValue::Residual(expr)
    }
}

/// A residual stands where a value is wanted. `==` compares residuals by their shapes: by their
/// constructs and parts, and not by places.
#[derive(Debug, Drop, Error)]
#[error("value contains a residual expression")]
pub struct ContainsUnknown {
    /// The residual.
    pub residual: Expr,
}

impl PartialEq for ContainsUnknown {
    ghost use Rattle.cedar_restricted.specs.Sameness.{same_unknown_part, same_unknown_part_partial};

    ghost eq = { same_unknown_part };

    ghost laws = { same_unknown_part_partial };

    fn eq(&self, other: &ContainsUnknown) -> bool {
        self.residual.cmp_shape(&other.residual).is_eq()
    }
}

impl Eq for ContainsUnknown {
    ghost use Rattle.cedar_restricted.specs.Sameness.{same_unknown_part_equiv};

    ghost laws = { same_unknown_part_equiv };
}

/// Why a partial value is no value.
#[derive(Debug, PartialEq, Eq, Drop, Error)]
pub enum PartialValueToValueError {
    /// It is a residual.
    #[error(transparent)]
    ContainsUnknown(ContainsUnknown),
}

impl TryFrom<PartialValue> for Value {
    type Error = PartialValueToValueError;

    ghost use Rattle.cedar_restricted.specs.PartialValues.{IsValueOf};

    ghost try_from_gives = { IsValueOf };

    /// The value; refused where it is a residual.
    fn try_from(partial: PartialValue) -> Result<Value, PartialValueToValueError> {
        match partial {
            PartialValue::Value(value) => Ok(value),
            PartialValue::Residual(residual) => Err(PartialValueToValueError::ContainsUnknown(
                ContainsUnknown { residual },
            )),
        }
    }
}
