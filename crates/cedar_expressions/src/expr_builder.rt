//! What builds expressions.

pub use cedar_builders::expr_builder::ExprBuilder;
