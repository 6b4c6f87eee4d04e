//! Tables of extension functions, the caller's functions that they hold, walks over them, and why a
//! function isn't found or no table is made.

pub use cedar_extensions::collecting::{CollectError, collect_no_duplicates};
pub use cedar_extensions::extensions::Extensions;
pub use cedar_extensions::iteration::{ExtNames, ExtTypes, Funcs, OrderedTypes};
pub use cedar_extensions::lookups::{ExtensionFunctionLookupError, FuncDoesNotExistError};
pub use cedar_extensions::objects::{
    BinaryExtensionFunctionObject, BoxedFunction, CallError, ExtensionFunctionObject, NoFunction,
    NullaryExtensionFunctionObject, TernaryExtensionFunctionObject, UnaryExtensionFunctionObject,
    VariadicExtensionFunctionObject,
};
pub use cedar_extensions::table_errors::{
    ExtensionInitializationError, FuncMultiplyDefinedError, MultipleConstructorsSameSignatureError,
};
