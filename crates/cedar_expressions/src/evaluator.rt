//! Why an evaluation has no value, and the evaluation of restricted expressions.

pub use cedar_extensions::calls::{ExtensionFunctionExecutionError, WrongNumArgumentsError};
pub use cedar_extensions::evaluation_error::EvaluationError;
pub use cedar_extensions::missing::{
    EntityAttrDoesNotExistError, EntityDoesNotExistError, RecordAttrDoesNotExistError,
};
pub use cedar_extensions::operands::{
    BinaryOpOverflowError, IntegerOverflowError, TypeError, UnaryOpOverflowError,
};
pub use cedar_extensions::unevaluated::{NonValueError, RecursionLimitError, UnlinkedSlotError};
pub use cedar_restricted_evaluation::interpret_restricted;
