//! What builds expressions: the trait that every builder has, and the builder of `Expr`.
#![tactic(auto)]

pub mod expr_builder;
pub mod own_builder;
