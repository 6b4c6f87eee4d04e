//! Parts of policies: ids, effects and annotations; what a scope asks of the principal, of the action and of the
//! resource, and the entities that the slots of a template are bound to; what may be wrong with them; and what
//! policies decide. The condition is an expression.
#![tactic(auto)]

pub mod actions;
pub mod annotations;
mod arguments;
pub mod bindings;
pub mod constraints;
mod decision;
mod effect;
pub mod errors;
pub mod laws;
mod policies;
mod policy_id;
pub mod principals;
pub mod references;
pub mod resources;
pub mod scope_laws;

pub use arguments::{Ref, WrongEntityArgument};
pub use decision::Decision;
pub use effect::Effect;
pub use policies::{
    ExpectedStaticPolicy, ExpectedTemplate, InvalidActionType, SlotsInConditionClause,
};
pub use policy_id::PolicyID;
