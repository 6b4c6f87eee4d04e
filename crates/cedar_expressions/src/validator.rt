//! Names of a schema before they are resolved.

pub use cedar_names::raw_names::{
    AllDefs, ConditionalName, RawName, ReferenceType, TypeNotDefinedError,
};
