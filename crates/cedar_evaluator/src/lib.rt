//! Requests authorized by the policies of a set over the entities of a store: each policy is evaluated, and
//! what is found of all of them is a response, of which the decision and the policies that are its reasons
//! are read. Once values are told for what was unknown, the response is made anew of what is left.
//! (Cedar language reference, "Authorization" and "Partial evaluation".)
//!
//! `ast`, `entities`, `evaluator` and `extensions` hand on requests, the evaluator of expressions and all else
//! that these calls take and give, each item under the name that it has in `cedar-policy-core`; `laws` and
//! `prelude`, which has the traits, are this library's own. `crates/cedar_examples` shows how a request is
//! authorized (`asking`).
#![tactic(auto)]

mod asking;
pub mod ast;
pub mod authorizer;
mod candidates;
mod concretizing;
mod copies;
pub mod entities;
pub mod errors;
pub mod evaluation;
pub mod evaluator;
pub mod extensions;
mod gathering;
pub mod ids;
mod judging;
pub mod laws;
pub mod partial_response;
pub mod prelude;
pub mod readers;
pub mod reasons;
mod reauthorizing;
pub mod response;
mod scopes;

pub use authorizer::Authorizer;
pub use cedar_extensions::extensions::Extensions;
pub use cedar_policy_parts::Decision;
pub use errors::{AuthorizationError, ConcretizationError, ReauthorizationError};
pub use ids::{ErroredIds, ResidualIds};
pub use partial_response::{ErrorState, PartialResponse};
pub use reasons::Reasons;
pub use response::{Diagnostics, EvaluationResponse, Response};
