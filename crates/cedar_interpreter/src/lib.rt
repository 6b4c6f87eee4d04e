//! Expressions of Cedar evaluated for a request over the entities of a store: to a value, or to what is
//! left of them where some of what they read isn't known. (Cedar language reference, "Semantics of
//! operators".)
#![tactic(auto)]

mod applying;
mod asking;
mod attributes;
mod evaluator;
mod forms;
mod given;
mod glancing;
mod interpreting;
mod lazy;
mod leaves;
mod lent;
mod lent_lookups;
mod lent_operators;
mod nodes;
mod operands;
mod operating;
mod partial_stores;
mod parts;
mod places;
mod restricted;
mod seeing;
mod stated;
mod waiting;
mod written_sets;

pub use asking::AskedVariables;
pub use evaluator::Evaluator;
pub use given::GivenEntity;
pub use lazy::last_of_and;
pub use restricted::RestrictedEvaluator;
