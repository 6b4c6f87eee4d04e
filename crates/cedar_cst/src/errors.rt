// Errors of nodes.
ghost use Rattle.std.specs.Prelude.{◌≡◌, IfOk};
ghost use Rattle.std.specs.Option.{option_copied};

use cedar_names::places::Loc;
use cedar_names::shared::Shared;
use std::alloc::{AllocError, Global};
use std::error::Error;
use std::fmt;
use thiserror::Error;

/// An error of one kind, and where it stands in a text, if that is known. `==` compares places too.
#[derive(Debug, PartialEq, Eq)]
pub struct PlacedError<K> {
    pub kind: Shared<K>,
    pub loc: Option<Loc>,
}

// By hand, so that letting go of one is a call, whatever its kind holds.
impl<K: Drop> Drop for PlacedError<K> {
    fn drop(self) {
        let PlacedError { kind: _, loc: _ } = self;
    }
}

impl<K: Drop> PlacedError<K> {
    /// The error of this kind at this place; refused for memory alone.
    pub fn new(alloc: Global, kind: K, loc: Option<Loc>) -> Result<PlacedError<K>, AllocError>
        ensures kind { IfOk result (λ error. error.kind ≡ kind) }
        ensures place { IfOk result (λ error. error.loc ≡ loc) }
    {
        let kind = Shared::new(alloc, kind)?;
        Ok(PlacedError { kind, loc })
    }

    /// The error of this kind at a copy of this place; refused for memory alone.
    pub fn at(alloc: Global, kind: K, loc: Option<&Loc>) -> Result<PlacedError<K>, AllocError>
        ensures kind { IfOk result (λ error. error.kind ≡ kind) }
        ensures place { IfOk result (λ error. error.loc ≡ option_copied loc.entry) }
    {
        PlacedError::new(alloc, kind, loc.cloned()?)
    }
}

/// The kind is shared.
impl<K: Drop> Clone for PlacedError<K> {
    ghost is_clone = { λ error copy. copy ≡ error };

    fn clone(&self) -> Result<PlacedError<K>, AllocError> {
        Ok(PlacedError {
            kind: self.kind.clone()?,
            loc: self.loc.as_ref().cloned()?,
        })
    }
}

impl<K> PlacedError<K> {
    /// The kind.
    pub fn kind(&self) -> &K
        ensures { result.now ≡ self.now.kind }
    {
        self.kind.get()
    }
}

impl<K: fmt::Display> fmt::Display for PlacedError<K> {
    fn fmt<W: fmt::Write>(&self, f: &mut fmt::Formatter<W>) -> fmt::Result {
        self.kind.fmt(f)
    }
}

impl<K: Error> Error for PlacedError<K> {}

/// Why a node doesn't give its value.
#[derive(Debug, PartialEq, Eq, Clone, Drop, Error)]
pub enum EmptyNodeError {
    /// The node is empty. It stands at this place, if that is known.
    #[error("a part of the text was not read")]
    Empty(Option<Loc>),
    /// Memory ran out.
    #[error(transparent)]
    Memory(AllocError),
}

impl From<AllocError> for EmptyNodeError {
    ghost use Rattle.cedar_cst.specs.declared.errors.EmptyNodeError.TheVariants.{Memory};

    ghost from_gives = { λ error made. made ≡ Memory error };

    fn from(error: AllocError) -> EmptyNodeError {
        EmptyNodeError::Memory(error)
    }
}
