//! The transitive closure of graphs, as of maps from keys to nodes.
#![tactic(auto)]

mod closing;
mod enforcing;
mod errors;
mod graphs;
mod hashed_graphs;
mod keys;
mod nodes;
mod numbering;
mod numbers;
mod ordered_graphs;
mod ordering;
mod reaching;
mod rebuilding;
mod sources;

pub use closing::{compute_tc, repair_tc};
pub use enforcing::enforce_tc_and_dag;
pub use errors::{HasCycle, MissingTcEdge, TcError};
pub use graphs::TCGraph;
pub use nodes::TCNode;
pub use rebuilding::{rebuild_tc, rebuild_tc_at};
pub use sources::Sources;
