// Why no expression is made.
ghost use Rattle.std.specs.Prelude.{◌≡◌};
ghost use Rattle.std.specs.Rc.{rc_str_bytes};

use std::alloc::{AllocError, AllocFailed};
use std::rc::RcStr;
use thiserror::Error;

/// One key stands twice among the entries of a record.
#[derive(Debug, PartialEq, Eq, Clone, Drop, Error)]
#[error("duplicate key `{key}` {context}")]
pub struct DuplicateKeyError {
    pub key: RcStr,
    pub context: &'static str,
}

impl DuplicateKeyError {
    /// The error of this key; `context` says where it stands, as `in record literal`.
    pub fn new(key: RcStr, context: &'static str) -> DuplicateKeyError
        ensures key { result.key ≡ key }
        ensures context { result.context.now ≡ context.entry.now }
    {
        DuplicateKeyError { key, context }
    }

    /// The key that stands twice, as the record has it: without quotes and escapes.
    pub fn key(&self) -> &str
        ensures { result.now ≡ rc_str_bytes self.now.key }
    {
        self.key.as_str()
    }

    /// The same error, which says another place.
    pub fn with_context(self, context: &'static str) -> DuplicateKeyError
        ensures key { result.key ≡ self.key }
        ensures context { result.context.now ≡ context.entry.now }
    {
        DuplicateKeyError {
            key: self.key,
            context,
        }
    }
}

/// Why no expression is made of its parts: a record refuses a key that stands twice, and every
/// construct may want memory.
#[derive(Debug, PartialEq, Eq, Clone, Drop, Error)]
pub enum ExpressionConstructionError {
    /// A record holds one key twice.
    #[error(transparent)]
    DuplicateKey(DuplicateKeyError),
    /// Memory ran out.
    #[error(transparent)]
    Memory(AllocError),
}

impl From<DuplicateKeyError> for ExpressionConstructionError {
    ghost use Rattle.cedar_trees.specs.declared.errors.ExpressionConstructionError.TheVariants.{DuplicateKey};

    ghost from_gives = { λ error made. made ≡ DuplicateKey error };

    fn from(error: DuplicateKeyError) -> ExpressionConstructionError {
        ExpressionConstructionError::DuplicateKey(error)
    }
}

impl From<AllocError> for ExpressionConstructionError {
    ghost use Rattle.cedar_trees.specs.declared.errors.ExpressionConstructionError.TheVariants.{Memory};

    ghost from_gives = { λ error made. made ≡ Memory error };

    fn from(error: AllocError) -> ExpressionConstructionError {
        ExpressionConstructionError::Memory(error)
    }
}

impl<T: Drop> From<AllocFailed<T>> for ExpressionConstructionError {
    ghost use Rattle.std.specs.Prelude.{alloc_error};
    ghost use Rattle.cedar_trees.specs.declared.errors.ExpressionConstructionError.TheVariants.{Memory};

    ghost from_gives = { λ _ made. made ≡ Memory alloc_error };

    fn from(_error: AllocFailed<T>) -> ExpressionConstructionError {
        ExpressionConstructionError::Memory(AllocError)
    }
}
