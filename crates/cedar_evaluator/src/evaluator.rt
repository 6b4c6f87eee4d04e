//! Expressions evaluated for a request, restricted expressions evaluated alone, what operators give for
//! values, and why an evaluation has none.

pub use crate::asking::evaluator_of;
pub use crate::evaluation::EvaluatePolicy;
pub use cedar_extensions::evaluation_error::EvaluationError;
pub use cedar_interpreter::{AskedVariables, Evaluator, GivenEntity, RestrictedEvaluator};
pub use cedar_operators::{get_attr, get_tag, has_attr, has_path, has_tag, is_in};
pub use cedar_value_operators::{
    binary_arith, binary_relation, contains, contains_all, contains_any, is_like, is_of_type,
    unary_app,
};
