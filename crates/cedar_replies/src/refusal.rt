// Why a command is refused.
ghost use Rattle.std.specs.Prelude.{◌≡◌};
ghost use Rattle.cedar_world.specs.Lines as world;
ghost use Rattle.cedar_replies.specs.Refusals.{refusal_of};

use std::alloc::{AllocError, AllocFailed};
use thiserror::Error;

/// Why a command is refused. Where several reasons stand, the first in this order is answered, but
/// that `Depth` and `Memory` may stand in place of what would be checked later.
#[derive(Clone, Copy, Debug, PartialEq, Eq, Error)]
pub enum Refusal {
    /// The body of a frame isn't UTF-8.
    #[error("the body isn't UTF-8")]
    NotUtf8,
    /// The text is outside the grammar, under the names of the session's functions.
    #[error("the text is outside the grammar")]
    Text,
    /// The text nests deeper than the session's limit, or an evaluation met the limit.
    #[error("the text or an evaluation is deeper than the limit")]
    Depth,
    /// The body holds what only a policy may hold, as a variable or an operator.
    #[error("the body holds more than values, calls and unknowns")]
    NotRestricted,
    /// The body hasn't the command's shape.
    #[error("the body hasn't the command's shape")]
    Shape,
    /// A value of the body errs.
    #[error("a value errs")]
    Evaluation,
    /// A value of the body holds an unknown.
    #[error("a value holds an unknown")]
    NotAValue,
    /// The context calls `unknown` on what is no name, or on the name of a variable.
    #[error("an unknown has no name of its own")]
    BadUnknown,
    /// The entity is held already, and otherwise.
    #[error("the entity is held with other parts")]
    Duplicate,
    /// The parents of some entity would lead back to it.
    #[error("an entity would be its own ancestor")]
    Cycle,
    /// No template has the id.
    #[error("no template has the id")]
    NoSuchTemplate,
    /// The id is bound, but not to a template.
    #[error("the id isn't a template's")]
    NotTemplate,
    /// The slots given aren't those of the template.
    #[error("the slots aren't those of the template")]
    Arity,
    /// The new id is bound.
    #[error("the id is bound")]
    IdConflict,
    /// The id is bound, but not to a link.
    #[error("the id isn't a link's")]
    NotLink,
    /// No policy has the id.
    #[error("no policy has the id")]
    NoSuchPolicy,
    /// The template has links.
    #[error("the template has links")]
    HasLinks,
    /// The id is bound to a template or a link.
    #[error("the id isn't a static policy's")]
    NotStatic,
    /// No question is open.
    #[error("no question is open")]
    NoQuestion,
    /// The question has no such unknown.
    #[error("the question has no such unknown")]
    NoSuchUnknown,
    /// The unknown was told before.
    #[error("the unknown was told before")]
    AlreadyTold,
    /// A variable is told what is no entity, or a context what is no record.
    #[error("the value isn't of the unknown's kind")]
    WrongKind,
    /// There was no memory.
    #[error("no memory")]
    Memory,
}

impl Refusal {
    /// How it is written.
    pub fn name(self) -> &'static str
        ensures { result.now ≡ world.refusal_name (refusal_of self) }
    {
        match self {
            Refusal::NotUtf8 => "NotUtf8",
            Refusal::Text => "Text",
            Refusal::Depth => "Depth",
            Refusal::NotRestricted => "NotRestricted",
            Refusal::Shape => "Shape",
            Refusal::Evaluation => "Evaluation",
            Refusal::NotAValue => "NotAValue",
            Refusal::BadUnknown => "BadUnknown",
            Refusal::Duplicate => "Duplicate",
            Refusal::Cycle => "Cycle",
            Refusal::NoSuchTemplate => "NoSuchTemplate",
            Refusal::NotTemplate => "NotTemplate",
            Refusal::Arity => "Arity",
            Refusal::IdConflict => "IdConflict",
            Refusal::NotLink => "NotLink",
            Refusal::NoSuchPolicy => "NoSuchPolicy",
            Refusal::HasLinks => "HasLinks",
            Refusal::NotStatic => "NotStatic",
            Refusal::NoQuestion => "NoQuestion",
            Refusal::NoSuchUnknown => "NoSuchUnknown",
            Refusal::AlreadyTold => "AlreadyTold",
            Refusal::WrongKind => "WrongKind",
            Refusal::Memory => "Memory",
        }
    }
}

impl From<AllocError> for Refusal {
    ghost use Rattle.std.specs.Prelude.{◌≡◌};
    ghost use Rattle.cedar_replies.specs.declared.refusal.Refusal.TheVariants.{Memory};

    ghost from_gives = { λ _ refusal. refusal ≡ Memory };

    fn from(_: AllocError) -> Refusal {
        Refusal::Memory
    }
}

impl<T: Drop> From<AllocFailed<T>> for Refusal {
    ghost use Rattle.std.specs.Prelude.{◌≡◌};
    ghost use Rattle.cedar_replies.specs.declared.refusal.Refusal.TheVariants.{Memory};

    ghost from_gives = { λ _ refusal. refusal ≡ Memory };

    fn from(_: AllocFailed<T>) -> Refusal {
        Refusal::Memory
    }
}
