//! The laws of the layer, part by part: each is a function without a body whose contract is the law, so that
//! a caller's proof can cite it by a call. They say that `==` is sameness, places aside, and what a merge renames.

pub use crate::merging_laws as merging;
pub use cedar_policies::laws as templates;
pub use cedar_policy_parts::{laws as annotations, scope_laws as constraints};
pub use cedar_policy_set::laws as sets;
