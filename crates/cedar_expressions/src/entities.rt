//! Types as extension functions state them.

pub use cedar_extensions::functions::SchemaType;
