//! Expressions of Cedar, and all that stands on them alone: names, values, the trees and what builds
//! them, restricted expressions, extension functions, and why an evaluation has no value. Each item has
//! the name that it has in `cedar-policy-core`, in the module of that name; `laws` and `shared` are this
//! library's own, and so is `prelude`, which holds the traits whose methods these items have.
//! `crates/cedar_examples` shows how these are called.
#![tactic(auto)]

pub mod ast;
pub mod entities;
pub mod evaluator;
pub mod expr_builder;
pub mod extensions;
pub mod laws;
pub mod parser;
pub mod prelude;
pub mod shared;
pub mod validator;

pub use cedar_extensions::extensions::Extensions;
pub use cedar_names::conversions::FromIn;
pub use cedar_names::reading::FromNormalizedStr;
