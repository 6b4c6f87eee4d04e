//! The transitive closure of graphs over any keys: made, repaired after an edit, made anew, or looked over
//! for what lacks. Nodes are what implements `TCNode`, graphs what implements `TCGraph`, as maps from keys to nodes do.

pub use cedar_closure::{
    HasCycle, MissingTcEdge, TCGraph, TCNode, TcError, compute_tc, enforce_tc_and_dag, rebuild_tc,
    rebuild_tc_at, repair_tc,
};
