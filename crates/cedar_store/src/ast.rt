//! What a policy is made of and what it speaks of: entities, annotations, ids and effects; the constraints of
//! a scope; templates, static policies and their links; policy sets, their iterators, their refusals and
//! their merging. What these name from below is handed on: uids and types of entities, names, places,
//! expressions, partial values, tables of extensions and errors of evaluation. What stands above its type is a
//! method of a trait: `prelude` has them all.

pub use crate::merging::Merging;
pub use crate::renaming::{Renaming, renamed_id, renaming_of};
pub use cedar_entities::attributes::Attributes;
pub use cedar_entities::entity::{Ancestors, Entity};
pub use cedar_entities::{EntityUIDs, Uids};
pub use cedar_entity_evaluation::{
    EntityAttrEvaluationError, EntityCreationError, EntityValidation, EvaluateEntity,
};
pub use cedar_extensions::evaluation_error::EvaluationError;
pub use cedar_extensions::extensions::Extensions;
pub use cedar_extensions::objects::ExtensionFunctionObject;
pub use cedar_extensions::validation_errors::ExprValidationError;
pub use cedar_literals::slots::{Slot, SlotId};
pub use cedar_literals::uids::{ACTION_ENTITY_TYPE, Eid, EntityType, EntityUID, EntityUIDImpl};
pub use cedar_literals::variables::Var;
pub use cedar_names::identifiers::AnyId;
pub use cedar_names::names::Name;
pub use cedar_names::places::Loc;
pub use cedar_policies::bodies::{TemplateBody, TemplateBodyImpl};
pub use cedar_policies::errors::{LinkingError, SlotsInConditionClause, TemplateValidationError};
pub use cedar_policies::linking::TemplateLinks;
pub use cedar_policies::policies::Policy;
pub use cedar_policies::static_policies::StaticPolicy;
pub use cedar_policies::templates::Template;
pub use cedar_policy_parts::actions::{ActionConstraint, EntityTypeNames as ActionEntityTypeNames};
pub use cedar_policy_parts::annotations::{Annotation, Annotations, IntoIter};
pub use cedar_policy_parts::bindings::SlotEnv;
pub use cedar_policy_parts::constraints::{
    EntityTypeNames, PrincipalOrResource, PrincipalOrResourceConstraint,
};
pub use cedar_policy_parts::errors::{ActionTypeError, InvalidActionType, UnexpectedSlotError};
pub use cedar_policy_parts::principals::PrincipalConstraint;
pub use cedar_policy_parts::references::EntityReference;
pub use cedar_policy_parts::resources::ResourceConstraint;
pub use cedar_policy_parts::{Effect, PolicyID};
pub use cedar_policy_set::bounds::{Bound, BoundKind};
pub use cedar_policy_set::errors::{
    PolicySetError, PolicySetGetLinksError, PolicySetPolicyRemovalError,
    PolicySetTemplateRemovalError, PolicySetUnlinkError, PolicySetValidationError,
};
pub use cedar_policy_set::listing::{
    AllTemplates, IntoPolicies, LinkedPolicies, Policies, StaticPolicies, Templates,
};
pub use cedar_policy_set::map_values::{IntoValues, Values};
pub use cedar_policy_set::policy_map::PolicyMap;
pub use cedar_policy_set::scope_index::index::ScopeIndex;
pub use cedar_policy_set::scope_index::positions::Positions;
pub use cedar_policy_set::sets::PolicySet;
pub use cedar_restricted::partial_values::PartialValue;
pub use cedar_restricted::restricted::RestrictedExpr;
pub use cedar_trees::expr::Expr;
pub use cedar_trees::unknowns::NonEmpty;
