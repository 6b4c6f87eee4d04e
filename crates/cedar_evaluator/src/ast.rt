//! What is asked: requests whose parts may be missing, contexts in which names may be unknown, and schemas
//! that accept or refuse them; and what the calls of this library take and give besides: expressions and
//! values, operators, slots, policies and policy sets, and why no set is made.

pub use cedar_entities::entity::Entity;
pub use cedar_literals::literals::Literal;
pub use cedar_literals::operators::{BinaryOp, UnaryOp};
pub use cedar_literals::patterns::Pattern;
pub use cedar_literals::uids::{EntityType, EntityUID};
pub use cedar_literals::variables::Var;
pub use cedar_names::places::Loc;
pub use cedar_names::shared::Shared;
pub use cedar_policies::policies::Policy;
pub use cedar_policy_parts::annotations::Annotations;
pub use cedar_policy_parts::bindings::SlotEnv;
pub use cedar_policy_parts::{Effect, PolicyID};
pub use cedar_policy_set::errors::PolicySetError;
pub use cedar_policy_set::policy_map::PolicyMap;
pub use cedar_policy_set::sets::PolicySet;
pub use cedar_requests::{
    Context, ContextCreationError, ContextEntries, EntityUIDEntry, NotARecord, Request,
    RequestError, RequestSchema, RequestSchemaAllPass, RequestType, ResidualEntries,
    UnwrapInfallible,
};
pub use cedar_restricted::borrowed::BorrowedRestrictedExpr;
pub use cedar_restricted::partial_values::PartialValue;
pub use cedar_restricted::restricted::RestrictedExpr;
pub use cedar_trees::errors::ExpressionConstructionError;
pub use cedar_trees::expr::Expr;
pub use cedar_trees::unknowns::NonEmpty;
pub use cedar_values::values::Value;
