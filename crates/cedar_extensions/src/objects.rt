// What functions of a caller's do.
use cedar_values::values::Value;
use std::alloc::{AllocError, Global};
use thiserror::Error;

/// Why a function of a caller's gives no value.
#[derive(Debug, PartialEq, Eq, Drop, Error)]
pub enum CallError {
    /// It has no answer for its arguments. The text says why, and stands in the error of the evaluation.
    #[error("{0}")]
    NoAnswer(String),
    /// Memory ran out.
    #[error(transparent)]
    Memory(AllocError),
}

impl From<AllocError> for CallError {
    ghost use Rattle.std.specs.Prelude.{◌≡◌};
    ghost use Rattle.cedar_extensions.specs.declared.objects.CallError.TheVariants.{Memory};

    ghost from_gives = { λ error made. made ≡ Memory error };

    fn from(error: AllocError) -> CallError {
        CallError::Memory(error)
    }
}

/// A function of a caller's, as `ExtensionFunction::unary` and its kin take it. It may always be called,
/// and answers equally on equal arguments, with any value. (Cedar language reference, "Extension
/// functions".)
pub trait ExtensionFunctionObject: Drop {
    ghost use Rattle.cedar_language.specs.Order.{all_of};
    ghost use Rattle.cedar_extensions.specs.Answering.{FunctionAnswers, Answered};

    // what it answers
    ghost answers: { Self → FunctionAnswers };

    /// The value that it gives for these arguments, of which there are as many as it takes. Refused
    /// `NoAnswer` where it has none, and `Memory`.
    fn call(&self, alloc: Global, args: &[Value]) -> Result<Value, CallError>
        ensures { Answered ((answers self.now).given (all_of args.now)) result };
}

/// A function of a caller's in a box, so that one table may have functions of unlike types. The box
/// answers what the function in it does. A function that makes a box may lend it, or a table of it, but
/// hands out neither; so one that makes such a table takes its boxes.
pub type BoxedFunction = Box<dyn ExtensionFunctionObject>;

/// A boxed function, as `ExtensionFunction::nullary` takes it: it is called with no argument.
pub type NullaryExtensionFunctionObject = BoxedFunction;

/// A boxed function, as `ExtensionFunction::unary` takes it: it is called with one argument.
pub type UnaryExtensionFunctionObject = BoxedFunction;

/// A boxed function, as `ExtensionFunction::binary` takes it: it is called with two arguments.
pub type BinaryExtensionFunctionObject = BoxedFunction;

/// A boxed function, as `ExtensionFunction::ternary` takes it: it is called with three arguments.
pub type TernaryExtensionFunctionObject = BoxedFunction;

/// A boxed function, as `ExtensionFunction::variadic` takes it: it is called with any number of arguments.
pub type VariadicExtensionFunctionObject = BoxedFunction;

impl ExtensionFunctionObject for Box<dyn ExtensionFunctionObject> {
    ghost answers = { λ boxed. (ExtensionFunctionObject-box boxed).answers boxed.value };

    fn call(&self, alloc: Global, args: &[Value]) -> Result<Value, CallError> {
        (**self).call(alloc, args)
    }
}

/// The caller's functions of a table that has none: one that never has an answer.
#[derive(Drop)]
pub struct NoFunction;

impl ExtensionFunctionObject for NoFunction {
    ghost use Rattle.cedar_extensions.specs.Answering.{no_answers};

    ghost answers = { λ function. no_answers };

    fn call(&self, alloc: Global, _args: &[Value]) -> Result<Value, CallError> {
        Err(CallError::NoAnswer(String::new(alloc)))
    }
}
