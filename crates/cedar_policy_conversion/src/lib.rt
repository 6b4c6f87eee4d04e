//! Conversion of policies: annotations, effect, scope and clauses of a loose policy, templates, static policies,
//! and the policy set of a text.
#![tactic(auto)]

mod actions;
mod annotations;
mod clauses;
mod constraints;
mod copies;
mod effects;
mod entities;
mod gathered;
mod misfits;
mod numbers;
mod parentheses;
mod policies;
mod references;
mod scopes;
mod sets;
mod sharing;
mod templates;
mod variables;

pub use actions::to_action_constraint;
pub use annotations::{get_ast_annotations, to_annotations, to_kv_pair};
pub use clauses::{PolicyError, to_clauses};
pub use constraints::to_principal_or_resource_constraint;
pub use effects::to_effect;
pub use entities::{OneOrMultipleRefs, to_action, to_refs};
pub use gathered::GatheredPolicies;
pub use numbers::{NumberedPolicies, with_generated_policyids};
pub use policies::{to_policy, to_policy_or_template, to_policy_template};
pub use references::to_ref_or_slot;
pub use scopes::extract_scope;
pub use sets::to_policyset;
pub use templates::to_template;
