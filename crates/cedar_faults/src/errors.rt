// Faults, and what else keeps a tree from being converted.
ghost use Rattle.std.specs.Prelude.{◌≡◌, ◌++◌, IfOk, MatchOption};
ghost use Rattle.std.specs.Option.{option_copied};
ghost use Rattle.cedar_faults.specs.Reasons.{IsFault, IsFaultOf, Gathers, reason, means_nothing, faults_of, listed};

use crate::kinds::ToASTErrorKind;
use cedar_cst::errors::PlacedError;
use cedar_names::places::Loc;
use cedar_trees::unknowns::NonEmpty;
use std::alloc::{AllocError, AllocFailed, Global};
use std::error::Error;
use std::fmt;

/// Why a part of a loose tree means nothing, and where it stands.
pub type ToASTError = PlacedError<ToASTErrorKind>;

/// Why a conversion gives nothing; `E` is why a builder refuses.
#[derive(Debug, PartialEq, Eq)]
pub enum ConversionError<E> {
    /// The tree means nothing: its faults, at least one.
    Faults(NonEmpty<ToASTError>),
    /// The builder refused a part: its own error.
    Builder(E),
    /// Memory ran out.
    Memory,
}

impl<E: Drop> Drop for ConversionError<E> {
    fn drop(self) {
        match self {
            ConversionError::Faults(_faults) => {}
            ConversionError::Builder(_error) => {}
            ConversionError::Memory => {}
        }
    }
}

impl<E> From<AllocError> for ConversionError<E> {
    ghost use Rattle.std.specs.Prelude.{◌≡◌};
    ghost use Rattle.cedar_faults.specs.declared.errors.ConversionError.TheVariants.{Memory};

    ghost from_gives = { λ _ e. e ≡ Memory };

    fn from(_error: AllocError) -> ConversionError<E> {
        ConversionError::Memory
    }
}

impl<T: Drop, E> From<AllocFailed<T>> for ConversionError<E> {
    ghost use Rattle.std.specs.Prelude.{◌≡◌};
    ghost use Rattle.cedar_faults.specs.declared.errors.ConversionError.TheVariants.{Memory};

    ghost from_gives = { λ _ e. e ≡ Memory };

    fn from(_error: AllocFailed<T>) -> ConversionError<E> {
        ConversionError::Memory
    }
}

impl<E: Drop> ConversionError<E> {
    /// The fault of this kind at a copy of this place; or want of memory for the copy.
    pub fn fault(alloc: Global, kind: ToASTErrorKind, loc: Option<&Loc>) -> ConversionError<E>
        ensures fault { IsFault result }
        ensures kind { IsFaultOf kind (option_copied loc.entry) result }
    {
        match ToASTError::at(alloc, kind, loc) {
            Ok(head) => ConversionError::Faults(NonEmpty {
                head,
                tail: Vec::new(alloc),
            }),
            Err(_) => ConversionError::Memory,
        }
    }

    /// The fault of a node at this place that recovery left empty; or want of memory.
    pub fn missing(alloc: Global, loc: Option<&Loc>) -> ConversionError<E>
        ensures fault { IsFault result }
        ensures kind { IsFaultOf ToASTErrorKind.EmptyNodeInvariantViolation (option_copied loc.entry) result }
    {
        ConversionError::fault(alloc, ToASTErrorKind::EmptyNodeInvariantViolation, loc)
    }

    /// The faults, in order; none where the tree means something or memory ran out.
    pub fn into_faults(self) -> Option<NonEmpty<ToASTError>>
        ensures { MatchOption result (reason self ≡ means_nothing → ⊥) (λ faults. self ≡ ConversionError.Faults faults) }
    {
        match self {
            ConversionError::Faults(faults) => Some(faults),
            ConversionError::Builder(_error) => None,
            ConversionError::Memory => None,
        }
    }

    /// What two parts fail by together: want of memory wins over all, and faults, of both in order, over a
    /// builder's refusals, of which the first counts.
    pub fn and(self, other: ConversionError<E>) -> ConversionError<E>
        ensures reason { Gathers (reason self) (reason other) (reason result) }
        ensures faults { reason result ≡ means_nothing → faults_of result ≡ faults_of self ++ faults_of other }
    {
        match self {
            ConversionError::Faults(faults) => other.after(faults),
            ConversionError::Builder(error) => match other {
                ConversionError::Faults(faults) => ConversionError::Faults(faults),
                ConversionError::Builder(_later) => ConversionError::Builder(error),
                ConversionError::Memory => ConversionError::Memory,
            },
            ConversionError::Memory => ConversionError::Memory,
        }
    }

    // What fails by these faults and then by this.
    fn after(self, faults: NonEmpty<ToASTError>) -> ConversionError<E>
        ensures reason { Gathers means_nothing (reason self) (reason result) }
        ensures faults { reason result ≡ means_nothing → faults_of result ≡ listed faults ++ faults_of self }
    {
        match self {
            ConversionError::Faults(more) => match joined(faults, more) {
                Ok(all) => ConversionError::Faults(all),
                Err(_) => ConversionError::Memory,
            },
            ConversionError::Builder(_error) => ConversionError::Faults(faults),
            ConversionError::Memory => ConversionError::Memory,
        }
    }
}

// The faults, and then the others.
fn joined(
    faults: NonEmpty<ToASTError>,
    others: NonEmpty<ToASTError>,
) -> Result<NonEmpty<ToASTError>, AllocError>
    ensures { IfOk result (λ all. listed all ≡ listed faults ++ listed others) }
{
    let NonEmpty { head, mut tail } = faults;
    let NonEmpty {
        head: next,
        tail: others,
    } = others;
    tail.push(next)?;
    for other in others {
        tail.push(other)?;
    }
    Ok(NonEmpty { head, tail })
}

impl<E: fmt::Display> fmt::Display for ConversionError<E> {
    fn fmt<W: fmt::Write>(&self, f: &mut fmt::Formatter<W>) -> fmt::Result {
        match self {
            ConversionError::Faults(faults) => faults.head.fmt(f),
            ConversionError::Builder(error) => error.fmt(f),
            ConversionError::Memory => write!(f, "out of memory"),
        }
    }
}

impl<E: Error> Error for ConversionError<E> {}
