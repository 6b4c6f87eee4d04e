// Why a command by names is refused.
ghost use Rattle.std.specs.Prelude.{◌≡◌};

use cedar_json::Unread;
use cedar_policy_parts::PolicyID;
use cedar_replies::Refusal;
use std::alloc::AllocError;
use thiserror::Error;

/// Why a command by names isn't answered. It changes nothing, but for [`NamedRefusal::Untold`].
#[derive(Debug, Drop, PartialEq, Eq, Error)]
pub enum NamedRefusal {
    /// This name can't be given: something is held under it, or stands before in the text; it is in the shape of a number,
    /// `policy` and digits, that isn't the policy's own; or the policy that would have it is held already.
    #[error("the name {0} can't be given")]
    IdConflict(PolicyID),
    /// The text that is to have one name isn't one policy or template.
    #[error("the text isn't one policy or template")]
    NotOne,
    /// The JSON says no link.
    #[error("the JSON says no link")]
    Unsaid,
    /// The body that says the same by ids is longer than 1,048,576 bytes.
    #[error("the body by ids is too long")]
    Long,
    /// The question was answered, and is open, but there was no memory to tell the answer by names.
    #[error("there was no memory to tell the answer")]
    Untold,
    /// The session refuses it.
    #[error("{0}")]
    Refused(Refusal),
}

impl From<Refusal> for NamedRefusal {
    ghost use Rattle.cedar_named_sessions.specs.declared.refusals.NamedRefusal.TheVariants.{Refused};

    ghost from_gives = { λ refusal named. named ≡ Refused refusal };

    fn from(refusal: Refusal) -> NamedRefusal {
        NamedRefusal::Refused(refusal)
    }
}

impl From<AllocError> for NamedRefusal {
    ghost use Rattle.cedar_named_sessions.specs.declared.refusals.NamedRefusal.TheVariants.{Refused};
    ghost use Rattle.cedar_replies.specs.declared.refusal.Refusal.TheVariants.{Memory};

    ghost from_gives = { λ _ named. named ≡ Refused Memory };

    fn from(_: AllocError) -> NamedRefusal {
        NamedRefusal::Refused(Refusal::Memory)
    }
}

impl From<Unread> for NamedRefusal {
    ghost use Rattle.cedar_named_sessions.specs.Unreading.{refusal_for};

    ghost from_gives = { λ unread named. named ≡ refusal_for unread };

    fn from(unread: Unread) -> NamedRefusal {
        match unread {
            Unread::Unsaid => NamedRefusal::Unsaid,
            Unread::Memory => NamedRefusal::Refused(Refusal::Memory),
        }
    }
}
