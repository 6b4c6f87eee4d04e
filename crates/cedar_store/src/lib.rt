//! Entities and policies of Cedar: the transitive closure, entities and their store, scopes, templates,
//! policies and policy sets, and the merging of these. Each item has the name that it has in
//! `cedar-policy-core`, in the module of that name; `laws` and `prelude` are this library's own.
//! `crates/cedar_examples` shows how a policy set and a store are built (`asking`), a template is linked
//! (`linking`) and entities are edited (`editing`).
#![tactic(auto)]

pub mod ast;
pub mod entities;
mod joining;
pub mod laws;
mod merging;
pub mod merging_laws;
pub mod prelude;
mod renaming;
pub mod transitive_closure;
