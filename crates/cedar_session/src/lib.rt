//! A session that answers commands on policies, and a program's work that reads them as frames.
//!
//! A [`Session`] is made with the functions that its texts may call, and answers each command by a method,
//! or by [`Session::apply`]. [`run`] reads commands as frames from any reader and writes a line for each to
//! any writer; [`program`] does so with a session of its own and gives an exit status. The types that their
//! answers are made of are handed on here, so that a caller names them without the crates below.
//! `crates/cedar_examples` shows frames in memory (`frames`) and telling (`telling`).
#![tactic(auto)]

mod asked;
mod buffered;
mod called_names;
mod command;
mod entry;
mod finishing;
mod given_questions;
mod held;
mod in_memory;
mod lending;
mod naming;
mod open_question;
mod owned;
mod policy_reading;
mod questions;
mod reading;
mod refusals;
mod running;
mod session;

pub use buffered::run_buffered;
pub use cedar_entities::store::Entities;
pub use cedar_evaluator::partial_response::PartialResponse;
pub use cedar_extensions::evaluation_error::EvaluationError;
pub use cedar_extensions::extensions::Extensions;
pub use cedar_extensions::objects::{ExtensionFunctionObject, NoFunction};
pub use cedar_frames::{BODY_LIMIT, Fault, Verb, Watched};
pub use cedar_literals::uids::{EntityType, EntityUID};
pub use cedar_names::places::Loc;
pub use cedar_policy_parts::{Decision, PolicyID};
pub use cedar_policy_set::policy_map::PolicyMap;
pub use cedar_policy_set::sets::PolicySet;
pub use cedar_replies::{Answer, Erring, ErrorKind, PolicyIds, Refusal, Reply, put_line};
pub use cedar_restricted::restricted::RestrictedExpr;
pub use command::Command;
pub use entry::program;
pub use in_memory::{Outcome, line_in_memory, run_input, run_input_within};
pub use owned::OwnedSession;
pub use running::{End, RunError, run};
pub use session::Session;
