// Why a policy set refuses an edit or a question.
ghost use Rattle.std.specs.Prelude.{◌≡◌, IfOk};
ghost use Rattle.cedar_policy_set.specs.Validated.{TellsSame};

use cedar_policies::errors::TemplateValidationError;
use cedar_policy_parts::PolicyID;
use std::alloc::{AllocError, AllocFailed, Global};
use thiserror::Error;

/// Why a policy isn't added.
#[derive(Debug, PartialEq, Eq, Clone, Drop, Error)]
pub enum PolicySetError {
    /// The id is bound already, or the template of a link is another one here.
    #[error("duplicate template or policy id `{id}`")]
    Occupied {
        /// The id.
        id: PolicyID,
    },
    /// Memory ran out.
    #[error(transparent)]
    Memory(AllocError),
}

/// Why the links of a template aren't listed.
#[derive(Debug, PartialEq, Eq, Clone, Drop, Error)]
pub enum PolicySetGetLinksError {
    /// The id is bound to no template and to no static policy.
    #[error("no template `{0}`")]
    MissingTemplate(PolicyID),
    /// Memory ran out for the id.
    #[error(transparent)]
    Memory(AllocError),
}

/// Why a link isn't taken away.
#[derive(Debug, PartialEq, Eq, Clone, Drop, Error)]
pub enum PolicySetUnlinkError {
    /// The id isn't bound.
    #[error("unable to unlink policy id `{0}` because it does not exist")]
    UnlinkingError(PolicyID),
    /// The id is bound to something else.
    #[error("unable to remove link with policy id `{0}` because it is not a link")]
    NotLinkError(PolicyID),
    /// Memory ran out for the id of one of these.
    #[error(transparent)]
    Memory(AllocError),
}

/// Why a template isn't taken away.
#[derive(Debug, PartialEq, Eq, Clone, Drop, Error)]
pub enum PolicySetTemplateRemovalError {
    /// The id isn't bound.
    #[error("unable to remove template id `{0}` from template list because it does not exist")]
    RemovePolicyNoTemplateError(PolicyID),
    /// Links name the template.
    #[error("unable to remove template id `{0}` from template list because it still has active links")]
    RemoveTemplateWithLinksError(PolicyID),
    /// The id is bound to a policy.
    #[error("unable to remove template with policy id `{0}` because it is not a template")]
    NotTemplateError(PolicyID),
    /// Memory ran out for the id of one of these.
    #[error(transparent)]
    Memory(AllocError),
}

/// Why a static policy isn't taken away.
#[derive(Debug, PartialEq, Eq, Clone, Drop, Error)]
pub enum PolicySetPolicyRemovalError {
    /// The id is bound to no policy.
    #[error("unable to remove static policy id `{0}` from link list because it does not exist")]
    RemovePolicyNoLinkError(PolicyID),
    /// The id is bound to a link.
    #[error("unable to remove static policy id `{0}` from template list because it does not exist")]
    RemovePolicyNoTemplateError(PolicyID),
    /// Memory ran out for the id of one of these.
    #[error(transparent)]
    Memory(AllocError),
}

/// Why a policy set isn't valid.
#[derive(Debug, PartialEq, Eq, Drop, Error)]
pub enum PolicySetValidationError {
    /// A template isn't valid, or a static policy, which is its own.
    #[error("invalid template `{id}`: {error}")]
    InvalidTemplate {
        /// The id.
        id: PolicyID,
        /// Why it isn't.
        error: TemplateValidationError,
    },
    /// A link is of a template that has no slot.
    #[error("policy `{id}` is a link of a template without slots")]
    LinkToSlotlessTemplate {
        /// The id of the link.
        id: PolicyID,
    },
    /// Memory ran out.
    #[error(transparent)]
    Memory(AllocError),
}

impl PolicySetValidationError {
    /// A copy that shares ids, uids and names; refused for memory alone.
    pub fn clone(&self, alloc: Global) -> Result<PolicySetValidationError, AllocError>
        ensures { IfOk result (TellsSame self.now) }
    {
        Ok(match self {
            PolicySetValidationError::InvalidTemplate { id, error } => {
                PolicySetValidationError::InvalidTemplate {
                    id: id.clone()?,
                    error: error.clone(alloc)?,
                }
            }
            PolicySetValidationError::LinkToSlotlessTemplate { id } => {
                PolicySetValidationError::LinkToSlotlessTemplate { id: id.clone()? }
            }
            PolicySetValidationError::Memory(error) => PolicySetValidationError::Memory(*error),
        })
    }
}

impl From<AllocError> for PolicySetError {
    ghost use Rattle.cedar_policy_set.specs.declared.errors.PolicySetError.TheVariants.{Memory};

    ghost from_gives = { λ error made. made ≡ Memory error };

    fn from(error: AllocError) -> PolicySetError {
        PolicySetError::Memory(error)
    }
}

impl<T: Drop> From<AllocFailed<T>> for PolicySetError {
    ghost use Rattle.std.specs.Prelude.{alloc_error};
    ghost use Rattle.cedar_policy_set.specs.declared.errors.PolicySetError.TheVariants.{Memory};

    ghost from_gives = { λ _ made. made ≡ Memory alloc_error };

    fn from(_error: AllocFailed<T>) -> PolicySetError {
        PolicySetError::Memory(AllocError)
    }
}

impl From<AllocError> for PolicySetGetLinksError {
    ghost use Rattle.cedar_policy_set.specs.declared.errors.PolicySetGetLinksError.TheVariants.{Memory};

    ghost from_gives = { λ error made. made ≡ Memory error };

    fn from(error: AllocError) -> PolicySetGetLinksError {
        PolicySetGetLinksError::Memory(error)
    }
}

impl From<AllocError> for PolicySetUnlinkError {
    ghost use Rattle.cedar_policy_set.specs.declared.errors.PolicySetUnlinkError.TheVariants.{Memory};

    ghost from_gives = { λ error made. made ≡ Memory error };

    fn from(error: AllocError) -> PolicySetUnlinkError {
        PolicySetUnlinkError::Memory(error)
    }
}

impl From<AllocError> for PolicySetTemplateRemovalError {
    ghost use Rattle.cedar_policy_set.specs.declared.errors.PolicySetTemplateRemovalError.TheVariants.{Memory};

    ghost from_gives = { λ error made. made ≡ Memory error };

    fn from(error: AllocError) -> PolicySetTemplateRemovalError {
        PolicySetTemplateRemovalError::Memory(error)
    }
}

impl From<AllocError> for PolicySetPolicyRemovalError {
    ghost use Rattle.cedar_policy_set.specs.declared.errors.PolicySetPolicyRemovalError.TheVariants.{Memory};

    ghost from_gives = { λ error made. made ≡ Memory error };

    fn from(error: AllocError) -> PolicySetPolicyRemovalError {
        PolicySetPolicyRemovalError::Memory(error)
    }
}

impl From<AllocError> for PolicySetValidationError {
    ghost use Rattle.cedar_policy_set.specs.declared.errors.PolicySetValidationError.TheVariants.{Memory};

    ghost from_gives = { λ error made. made ≡ Memory error };

    fn from(error: AllocError) -> PolicySetValidationError {
        PolicySetValidationError::Memory(error)
    }
}
