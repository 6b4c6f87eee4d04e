// Operands that don't fit their operator.
ghost use Rattle.std.specs.Prelude.{◌≡◌, [], ◌∷◌, IfOk};
ghost use Rattle.cedar_extensions.specs.Causes as causes;
ghost use Rattle.cedar_extensions.specs.Causes.{overflow_of_two, place_of_two, overflow_of_one, place_of_one, overflow_cause, overflow_place};
ghost use Rattle.std.specs.Option.{option_copied};
ghost use Rattle.cedar_literals.specs.Operators.{unary_operator_of, binary_operator_of};

use cedar_literals::operators::{BinaryOp, UnaryOp};
use cedar_literals::types::Type;
use cedar_names::places::Loc;
use cedar_names::shared::Shared;
use cedar_trees::unknowns::NonEmpty;
use cedar_values::values::Value;
use std::alloc::{AllocError, Global};
use std::error::Error;
use std::fmt;
use thiserror::Error;

/// A value is of another type than the operation takes.
#[derive(Debug, PartialEq, Eq, Clone, Drop)]
pub struct TypeError {
    pub(crate) expected: Shared<NonEmpty<Type>>,
    pub(crate) actual: Shared<Type>,
    pub(crate) source_loc: Option<Loc>,
}

impl fmt::Display for TypeError {
    fn fmt<W: fmt::Write>(&self, f: &mut fmt::Formatter<W>) -> fmt::Result {
        let expected = self.expected.get();
        let first = &expected.head;
        let actual = &self.actual;
        if expected.tail.is_empty() {
            return write!(f, "type error: expected {first}, got {actual}");
        }
        write!(f, "type error: expected one of [{first}")?;
        for other in &expected.tail {
            write!(f, ", {other}")?;
        }
        write!(f, "], got {actual}")
    }
}

impl Error for TypeError {}

impl TypeError {
    // The same error, met at another place, or at none.
    pub(crate) fn at(self, source_loc: Option<Loc>) -> TypeError
        ensures { result ≡ record self { source_loc = source_loc } }
    {
        TypeError { source_loc, ..self }
    }
}

/// The result of an operator of two longs is no long.
#[derive(Debug, PartialEq, Eq, Clone, Drop, Error)]
#[error("integer overflow while attempting to {verb} the values `{arg1}` and `{arg2}`", verb = verb_of_two(.op))]
pub struct BinaryOpOverflowError {
    pub(crate) op: BinaryOp,
    pub(crate) arg1: Shared<Value>,
    pub(crate) arg2: Shared<Value>,
    pub(crate) source_loc: Option<Loc>,
}

impl BinaryOpOverflowError {
    /// The error of `op` at these operands; refused for memory alone.
    pub fn new(
        alloc: Global,
        op: BinaryOp,
        arg1: Value,
        arg2: Value,
        source_loc: Option<Loc>,
    ) -> Result<BinaryOpOverflowError, AllocError>
        ensures cause { IfOk result (λ error. overflow_of_two error ≡ causes.Overflow (binary_operator_of op) (arg1 ∷ arg2 ∷ [])) }
        ensures place { IfOk result (λ error. place_of_two error ≡ source_loc) }
    {
        Ok(BinaryOpOverflowError {
            op,
            arg1: Shared::new(alloc, arg1)?,
            arg2: Shared::new(alloc, arg2)?,
            source_loc,
        })
    }
}

fn verb_of_two(op: &BinaryOp) -> &'static str {
    match op {
        BinaryOp::Add => "add",
        BinaryOp::Sub => "subtract",
        BinaryOp::Mul => "multiply",
        _ => "perform an operation on",
    }
}

/// The result of an operator of one long is no long.
#[derive(Debug, PartialEq, Eq, Clone, Drop, Error)]
#[error("integer overflow while attempting to {verb} the value `{arg}`", verb = verb_of_one(.op))]
pub struct UnaryOpOverflowError {
    pub(crate) op: UnaryOp,
    pub(crate) arg: Shared<Value>,
    pub(crate) source_loc: Option<Loc>,
}

impl UnaryOpOverflowError {
    /// The error of `op` at this operand; refused for memory alone.
    pub fn new(
        alloc: Global,
        op: UnaryOp,
        arg: Value,
        source_loc: Option<Loc>,
    ) -> Result<UnaryOpOverflowError, AllocError>
        ensures cause { IfOk result (λ error. overflow_of_one error ≡ causes.Overflow (unary_operator_of op) (arg ∷ [])) }
        ensures place { IfOk result (λ error. place_of_one error ≡ source_loc) }
    {
        Ok(UnaryOpOverflowError {
            op,
            arg: Shared::new(alloc, arg)?,
            source_loc,
        })
    }
}

fn verb_of_one(op: &UnaryOp) -> &'static str {
    match op {
        UnaryOp::Neg => "negate",
        _ => "perform an operation on",
    }
}

/// The result of an operator is no long.
#[derive(Debug, PartialEq, Eq, Clone, Drop, Error)]
pub enum IntegerOverflowError {
    /// Of an operator of two operands.
    #[error(transparent)]
    BinaryOp(BinaryOpOverflowError),
    /// Of an operator of one operand.
    #[error(transparent)]
    UnaryOp(UnaryOpOverflowError),
}

impl IntegerOverflowError {
    /// Where it was met, if that is known.
    pub fn source_loc(&self) -> Option<&Loc>
        ensures { option_copied result ≡ overflow_place self.now }
    {
        match self {
            IntegerOverflowError::BinaryOp(error) => error.source_loc.as_ref(),
            IntegerOverflowError::UnaryOp(error) => error.source_loc.as_ref(),
        }
    }

    /// The same error, met at another place, or at none.
    pub fn with_maybe_source_loc(self, source_loc: Option<Loc>) -> IntegerOverflowError
        ensures cause { overflow_cause result ≡ overflow_cause self }
        ensures place { overflow_place result ≡ source_loc }
    {
        match self {
            IntegerOverflowError::BinaryOp(error) => {
                IntegerOverflowError::from(BinaryOpOverflowError {
                    source_loc,
                    ..error
                })
            }
            IntegerOverflowError::UnaryOp(error) => {
                IntegerOverflowError::from(UnaryOpOverflowError {
                    source_loc,
                    ..error
                })
            }
        }
    }
}

impl From<BinaryOpOverflowError> for IntegerOverflowError {
    ghost use Rattle.cedar_extensions.specs.declared.operands.IntegerOverflowError.TheVariants.{BinaryOp as OfTwo};

    ghost from_gives = { λ error made. made ≡ OfTwo error };

    fn from(error: BinaryOpOverflowError) -> IntegerOverflowError {
        IntegerOverflowError::BinaryOp(error)
    }
}

impl From<UnaryOpOverflowError> for IntegerOverflowError {
    ghost use Rattle.cedar_extensions.specs.declared.operands.IntegerOverflowError.TheVariants.{UnaryOp as OfOne};

    ghost from_gives = { λ error made. made ≡ OfOne error };

    fn from(error: UnaryOpOverflowError) -> IntegerOverflowError {
        IntegerOverflowError::UnaryOp(error)
    }
}
