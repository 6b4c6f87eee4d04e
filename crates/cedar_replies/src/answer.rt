// What accepted commands are answered.
ghost use Rattle.std.specs.Prelude.{◌≡◌};

use crate::erring::Erring;
use crate::policy_ids::PolicyIds;
use cedar_policy_parts::{Decision, PolicyID};
use std::alloc::AllocError;

/// What a question is answered.
#[derive(Debug, Drop)]
pub struct Answer {
    /// What is decided, and nothing where the question is open.
    pub decision: Option<Decision>,
    /// The policies that are a reason whatever is unknown.
    pub must: PolicyIds,
    /// The policies that are a reason for some values of what is unknown.
    pub may: PolicyIds,
    /// The policies that err, each with a reason.
    pub erring: Erring,
}

impl Clone for Answer {
    ghost is_clone = { λ answer copy. copy ≡ answer };

    fn clone(&self) -> Result<Answer, AllocError> {
        Ok(Answer {
            decision: self.decision,
            must: self.must.clone()?,
            may: self.may.clone()?,
            erring: self.erring.clone()?,
        })
    }
}

/// What an accepted command is answered.
#[derive(Debug, Drop)]
pub enum Reply {
    /// It is done.
    Done,
    /// The ids under which the policies of a text now stand, in its order.
    Ids(Vec<PolicyID>),
    /// The answer to a question.
    Answer(Answer),
}
