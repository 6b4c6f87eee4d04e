//! The traits of the layer, whose methods a caller can't call without having them in reach, and two of the
//! layers below: `from_in`, by which responses and requests are made here, and the functions of which the
//! calls of this library are generic.

pub use crate::ast::{RequestSchema, UnwrapInfallible};
pub use crate::evaluator::EvaluatePolicy;
pub use crate::extensions::ExtensionFunctionObject;
pub use cedar_names::conversions::FromIn;
