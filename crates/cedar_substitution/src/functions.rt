// What stands for an unknown.

use crate::errors::SubstitutionError;
use crate::told_values::types_apart;
use cedar_restricted::to_expr::ToExpr;
use cedar_trees::expr::Expr;
use cedar_trees::unknowns::Unknown;
use cedar_values::values::Value;
use std::alloc::{AllocError, Global};

/// What stands for an unknown, by what is told of it.
pub trait SubstitutionFunction {
    ghost use Rattle.std.specs.Prelude.{Option, Result};
    ghost use Rattle.std.specs.Option.{option_copied};
    ghost use Rattle.cedar_language.specs.Uid.{Text};
    ghost use Rattle.cedar_language.specs.Tree.{ValueType};
    ghost use Rattle.cedar_language.specs.Value as language;
    ghost use Rattle.cedar_trees.specs.Unknowns.{unknown_name, unknown_type};
    ghost use Rattle.cedar_trees.specs.declared.expr.Expr as tree;

    /// Why nothing stands for it.
    type Err: From<AllocError> + Drop;

    ghost stands: { Option language.Value → Text → Option ValueType
        → Result (tree.Expr (Unit {0})) Self.Err → Type 0 };

    /// An expression that writes the value told, or the unknown itself where none is.
    fn substitute(alloc: Global, unknown: &Unknown, told: Option<&Value>) -> Result<Expr, Self::Err>
        ensures { stands (option_copied told.entry) (unknown_name unknown.now) (unknown_type unknown.now) result };
}

/// Any value stands for any unknown; refused for memory alone.
pub struct UntypedSubstitution;

impl SubstitutionFunction for UntypedSubstitution {
    ghost use Rattle.std.specs.Prelude.{IfOk};
    ghost use Rattle.cedar_trees.specs.Bare.{bare};
    ghost use Rattle.cedar_substitution.specs.Typed.{StandsFor};

    type Err = AllocError;

    ghost stands = { λ told name ty result. IfOk result (λ expr. StandsFor told name ty (bare expr)) };

    fn substitute(
        alloc: Global,
        unknown: &Unknown,
        told: Option<&Value>,
    ) -> Result<Expr, AllocError> {
        match told {
            Some(value) => value.to_expr(alloc),
            None => Ok(Expr::unknown(unknown.clone()?)),
        }
    }
}

/// Refused with TypeError where the unknown's type is stated and the value is of another one.
pub struct TypedSubstitution;

impl SubstitutionFunction for TypedSubstitution {
    ghost use Rattle.cedar_substitution.specs.Typed.{StandsForTyped};

    type Err = SubstitutionError;

    ghost stands = { StandsForTyped };

    fn substitute(
        alloc: Global,
        unknown: &Unknown,
        told: Option<&Value>,
    ) -> Result<Expr, SubstitutionError> {
        match types_apart(alloc, unknown, told)? {
            None => Ok(UntypedSubstitution::substitute(alloc, unknown, told)?),
            Some((expected, actual)) => Err(SubstitutionError::TypeError { expected, actual }),
        }
    }
}
