//! Tables of the functions that policies may call, and the functions that a caller puts in.

pub use cedar_extensions::extensions::Extensions;
pub use cedar_extensions::objects::{CallError, ExtensionFunctionObject, NoFunction};
