// Why a template is refused, and why it isn't linked.
ghost use Rattle.std.specs.Prelude.{◌≡◌, IfOk};
ghost use Rattle.cedar_policies.specs.Linking as linking;
ghost use Rattle.cedar_policies.specs.Validation as validation;

use cedar_extensions::validation_errors::ExprValidationError;
use cedar_literals::slots::SlotId;
use cedar_policy_parts::PolicyID;
pub use cedar_policy_parts::SlotsInConditionClause;
use cedar_policy_parts::errors::{ActionTypeError, InvalidActionType};
use std::alloc::{AllocError, AllocFailed, Global};
use std::fmt;
use thiserror::Error;

/// Why a template isn't taken.
#[derive(Debug, PartialEq, Eq, Drop, Error)]
pub enum TemplateValidationError {
    /// The scope names entities as actions that are none.
    #[error(transparent)]
    InvalidActionType(InvalidActionType),
    /// A slot stands in a clause. It may, so nothing tells this; callers may match on it still.
    #[error(transparent)]
    SlotsInConditionClause(SlotsInConditionClause),
    /// The slots that the template lists aren't those of its scope and its clauses.
    #[error("the slots listed are not those of the template")]
    SlotCacheMismatch,
    /// A call in a clause doesn't fit the table of extensions. Never for want of memory.
    #[error(transparent)]
    InvalidExpression(ExprValidationError),
    /// Memory ran out.
    #[error(transparent)]
    Memory(AllocError),
}

impl TemplateValidationError {
    /// A copy that shares the uids and names; refused for memory alone.
    pub fn clone(&self, alloc: Global) -> Result<TemplateValidationError, AllocError>
        ensures { IfOk result (validation.TellsSame self.now) }
    {
        Ok(match self {
            TemplateValidationError::InvalidActionType(error) => {
                TemplateValidationError::InvalidActionType(error.clone(alloc)?)
            }
            TemplateValidationError::SlotsInConditionClause(error) => {
                TemplateValidationError::SlotsInConditionClause(error.clone()?)
            }
            TemplateValidationError::SlotCacheMismatch =>
                TemplateValidationError::SlotCacheMismatch,
            TemplateValidationError::InvalidExpression(error) => {
                TemplateValidationError::InvalidExpression(error.clone()?)
            }
            TemplateValidationError::Memory(error) => TemplateValidationError::Memory(*error),
        })
    }
}

impl From<ActionTypeError> for TemplateValidationError {
    ghost use Rattle.cedar_policies.specs.Validation.{by_actions};

    ghost from_gives = { λ error made. made ≡ by_actions error };

    fn from(error: ActionTypeError) -> TemplateValidationError {
        match error {
            ActionTypeError::InvalidActionType(error) => {
                TemplateValidationError::InvalidActionType(error)
            }
            ActionTypeError::Memory(error) => TemplateValidationError::Memory(error),
        }
    }
}

impl From<ExprValidationError> for TemplateValidationError {
    ghost use Rattle.cedar_policies.specs.Validation.{by_expression};

    ghost from_gives = { λ error made. made ≡ by_expression error };

    fn from(error: ExprValidationError) -> TemplateValidationError {
        match error {
            ExprValidationError::Memory(error) => TemplateValidationError::Memory(error),
            error => TemplateValidationError::InvalidExpression(error),
        }
    }
}

impl From<AllocError> for TemplateValidationError {
    ghost use Rattle.cedar_policies.specs.declared.errors.TemplateValidationError.TheVariants.{Memory};

    ghost from_gives = { λ error made. made ≡ Memory error };

    fn from(error: AllocError) -> TemplateValidationError {
        TemplateValidationError::Memory(error)
    }
}

/// Why a template isn't linked.
#[derive(Debug, PartialEq, Eq, Drop)]
pub enum LinkingError {
    /// The slots given aren't exactly those that the template holds.
    ArityError {
        /// The slots that lack an entity.
        unbound_values: Vec<SlotId>,
        /// The slots that an entity is given for, and that the template doesn't have.
        extra_values: Vec<SlotId>,
    },
    /// No template has this id.
    NoSuchTemplate {
        /// The id.
        id: PolicyID,
    },
    /// The id of the link is bound already.
    PolicyIdConflict {
        /// The id.
        id: PolicyID,
    },
    /// Memory ran out.
    Memory(AllocError),
}

impl LinkingError {
    /// A copy; refused for memory alone.
    pub fn clone(&self, alloc: Global) -> Result<LinkingError, AllocError>
        ensures { IfOk result (linking.TellsSame self.now) }
    {
        Ok(match self {
            LinkingError::ArityError {
                unbound_values,
                extra_values,
            } => LinkingError::ArityError {
                unbound_values: Vec::from_slice(alloc, unbound_values)?,
                extra_values: Vec::from_slice(alloc, extra_values)?,
            },
            LinkingError::NoSuchTemplate { id } => LinkingError::NoSuchTemplate { id: id.clone()? },
            LinkingError::PolicyIdConflict { id } => {
                LinkingError::PolicyIdConflict { id: id.clone()? }
            }
            LinkingError::Memory(error) => LinkingError::Memory(*error),
        })
    }
}

impl fmt::Display for LinkingError {
    fn fmt<W: fmt::Write>(&self, f: &mut fmt::Formatter<W>) -> fmt::Result {
        match self {
            LinkingError::ArityError {
                unbound_values,
                extra_values,
            } => write_arity(f, unbound_values, extra_values),
            LinkingError::NoSuchTemplate { id } => {
                write!(f, "failed to find a template with id `{id}`")
            }
            LinkingError::PolicyIdConflict { id } => write!(
                f,
                "template-linked policy id `{id}` conflicts with an existing policy id"
            ),
            LinkingError::Memory(error) => write!(f, "{error}"),
        }
    }
}

impl std::error::Error for LinkingError {}

fn write_arity<W: fmt::Write>(
    f: &mut fmt::Formatter<W>,
    unbound: &[SlotId],
    extra: &[SlotId],
) -> fmt::Result {
    if !unbound.is_empty() {
        write!(f, "the following slots were not provided as arguments: ")?;
        write_separated(f, unbound)?;
    }
    if !unbound.is_empty() && !extra.is_empty() {
        write!(f, ". ")?;
    }
    if !extra.is_empty() {
        write!(
            f,
            "the following slots were provided as arguments, but did not exist in the template: "
        )?;
        write_separated(f, extra)?;
    }
    Ok(())
}

// The slots, with a comma between each two.
fn write_separated<W: fmt::Write>(f: &mut fmt::Formatter<W>, slots: &[SlotId]) -> fmt::Result {
    let Some((first, rest)) = slots.split_first() else {
        return Ok(());
    };
    write!(f, "{first}")?;
    for slot in rest {
        write!(f, ",{slot}")?;
    }
    Ok(())
}

impl From<AllocError> for LinkingError {
    ghost use Rattle.cedar_policies.specs.declared.errors.LinkingError.TheVariants.{Memory};

    ghost from_gives = { λ error made. made ≡ Memory error };

    fn from(error: AllocError) -> LinkingError {
        LinkingError::Memory(error)
    }
}

impl<T: Drop> From<AllocFailed<T>> for LinkingError {
    ghost use Rattle.std.specs.Prelude.{alloc_error};
    ghost use Rattle.cedar_policies.specs.declared.errors.LinkingError.TheVariants.{Memory};

    ghost from_gives = { λ _ made. made ≡ Memory alloc_error };

    fn from(_error: AllocFailed<T>) -> LinkingError {
        LinkingError::Memory(AllocError)
    }
}
