//! The parser of Cedar: texts read into trees of the loose syntax, their conversion to expressions and
//! policies, and calls that do both. Each item has the name that it has in `cedar-policy-core`, in the
//! module of that name; `strict` is this library's own. What the calls take and give from below is handed on
//! here, at the root. `crates/cedar_examples` shows how a text is read (`asking`).
#![tactic(auto)]

pub mod cst;
pub mod cst_to_ast;
pub mod err;
mod errors;
mod expressions;
mod height;
mod iteration;
mod leaves;
mod literals;
pub mod prelude;
mod refusals;
mod restricted;
mod sets;
mod slots;
pub mod strict;
mod styles;
pub mod text_to_cst;
pub mod unescape;

pub use cedar_builders::expr_builder::ExprBuilder;
pub use cedar_cst::node::Node;
pub use cedar_extensions::evaluation_error::EvaluationError;
pub use cedar_extensions::extensions::Extensions;
pub use cedar_extensions::objects::ExtensionFunctionObject;
pub use cedar_faults::ExtStyles;
pub use cedar_literals::literals::Literal;
pub use cedar_literals::operators::UnaryOp;
pub use cedar_literals::slots::{Slot, SlotId};
pub use cedar_literals::uids::{EntityType, EntityUID};
pub use cedar_literals::variables::Var;
pub use cedar_names::errors::ReservedNameError;
pub use cedar_names::identifiers::{AnyId, Id, UnreservedId};
pub use cedar_names::names::Name;
pub use cedar_names::places::{Loc, Span};
pub use cedar_policies::static_policies::StaticPolicy;
pub use cedar_policies::templates::Template;
pub use cedar_policy_parts::actions::ActionConstraint;
pub use cedar_policy_parts::annotations::{Annotation, Annotations};
pub use cedar_policy_parts::constraints::{PrincipalOrResource, PrincipalOrResourceConstraint};
pub use cedar_policy_parts::principals::PrincipalConstraint;
pub use cedar_policy_parts::references::EntityReference;
pub use cedar_policy_parts::resources::ResourceConstraint;
pub use cedar_policy_parts::{Effect, PolicyID};
pub use cedar_policy_set::sets::PolicySet;
pub use cedar_restricted::errors::RestrictedExpressionError;
pub use cedar_restricted::restricted::RestrictedExpr;
pub use cedar_trees::errors::ExpressionConstructionError;
pub use cedar_trees::expr::Expr;
