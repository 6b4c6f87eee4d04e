//! Why a graph is refused.
ghost use Rattle.std.specs.Prelude.{◌≡◌};

use std::alloc::{AllocError, AllocFailed};
use std::fmt::Display;
use thiserror::Error;

/// An edge that a transitive closure has and this graph lacks: `child` has an edge to `parent`,
/// which has one to `grandparent`, and `child` has none there.
#[derive(Debug, PartialEq, Eq, Clone, Drop, Error)]
#[error_bound(K: Display)]
#[error("expected all transitive edges to exist, but `{child}` -> `{parent}` and `{parent}` -> `{grandparent}` exist, while `{child}` -> `{grandparent}` does not")]
pub struct MissingTcEdge<K> {
    pub child: K,
    pub parent: K,
    pub grandparent: K,
}

/// A node that one or more edges lead back to.
#[derive(Debug, PartialEq, Eq, Clone, Drop, Error)]
#[error_bound(K: Display)]
#[error("input graph has a cycle containing vertex `{vertex_with_loop}`")]
pub struct HasCycle<K> {
    pub vertex_with_loop: K,
}

impl<K> HasCycle<K> {
    /// The key of a node on the cycle.
    pub fn vertex_with_loop(&self) -> &K
        ensures { result.now ≡ self.now.vertex_with_loop }
    {
        &self.vertex_with_loop
    }
}

/// Why a graph isn't closed, or isn't taken as closed.
#[derive(Debug, PartialEq, Eq, Clone, Drop, Error)]
#[error_bound(K: Display)]
pub enum TcError<K> {
    /// The graph was to be its own closure, and lacks an edge.
    #[error(transparent)]
    MissingTcEdge(MissingTcEdge<K>),
    /// The graph was to have no cycle, and has one.
    #[error(transparent)]
    HasCycle(HasCycle<K>),
    /// Memory ran out.
    #[error(transparent)]
    Memory(AllocError),
}

impl<K> From<AllocError> for TcError<K> {
    ghost use Rattle.cedar_closure.specs.declared.errors.TcError.TheVariants.{Memory};

    ghost from_gives = { λ error made. made ≡ Memory error };

    fn from(error: AllocError) -> TcError<K> {
        TcError::Memory(error)
    }
}

impl<T: Drop, K> From<AllocFailed<T>> for TcError<K> {
    ghost use Rattle.std.specs.Prelude.{alloc_error};
    ghost use Rattle.cedar_closure.specs.declared.errors.TcError.TheVariants.{Memory};

    ghost from_gives = { λ _ made. made ≡ Memory alloc_error };

    fn from(_error: AllocFailed<T>) -> TcError<K> {
        TcError::Memory(AllocError)
    }
}
