//! Entities that are made of expressions, their attributes and tags evaluated, and calls of extension
//! functions in entities and stores checked before they are evaluated.
#![tactic(auto)]

mod evaluated_attributes;
mod evaluation;
mod evaluation_errors;
mod validated_attributes;
mod validation;

pub use evaluation::EvaluateEntity;
pub use evaluation_errors::{EntityAttrEvaluationError, EntityCreationError};
pub use validation::{EntitiesValidation, EntityValidation};
