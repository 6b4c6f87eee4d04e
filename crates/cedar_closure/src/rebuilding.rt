//! The closure of the direct edges.
ghost use Rattle.std.specs.Prelude.{◌≡◌, ◌↔◌, ◌⊎◌, false, OnOk, IfErr, OnErr, IsTrue};
ghost use Rattle.std.specs.Set.{is_member, ClonesAreEqual};
ghost use Rattle.cedar_closure.specs.Graph.{edges_at, HasEdge, SameKeys, SameNodes, IsBetween, IsBuiltBeside};
ghost use Rattle.cedar_language.specs.Facts.{Reaches};
ghost use Rattle.cedar_closure.specs.Refused.{IsTcRefusal};

use crate::closing::{add_all, compute_tc, keys_of, reached_from_each, refuse_cycle};
use crate::errors::TcError;
use crate::graphs::TCGraph;
use crate::nodes::TCNode;
use std::alloc::{AllocError, Global};
use std::hash::Hash;

// Leaves each listed node its direct edges alone.
fn reset_all<K: Eq + Drop, V: TCNode<K>, G: TCGraph<K, V>>(
    nodes: &mut G,
    listed: &[K],
) -> Result<(), AllocError>
    ensures reset { OnOk result ((a : K) → IsTrue (is_member K.eq listed.now a) →
        SameKeys K.eq (edges_at V.direct (G.found nodes.old) a) (edges_at V.edges (G.found nodes.new) a)) }
    ensures others { (a : K) → is_member K.eq listed.now a ≡ false →
        edges_at V.edges (G.found nodes.new) a ≡ edges_at V.edges (G.found nodes.old) a }
    ensures left { OnErr result ((a : K) → SameKeys K.eq (edges_at V.direct (G.found nodes.old) a) (edges_at V.edges (G.found nodes.new) a)
        ⊎ (edges_at V.edges (G.found nodes.new) a ≡ edges_at V.edges (G.found nodes.old) a)) }
    ensures same { SameNodes V.is_same (G.found nodes.old) (G.found nodes.new) }
{
    for at in listed {
        nodes.reset_edges_at(at)?;
    }
    Ok(())
}

/// Gives each node an edge to each key that one or more direct edges lead to from it, cycles included, and no other edge.
/// Where `enforce_dag`, direct edges with a cycle are refused.
///
/// `HasCycle` names a node of a cycle; refused otherwise only where memory runs out.
/// A refused call leaves the nodes with the direct ones of their edges, and perhaps some of the others and of those
/// that were to be added.
pub fn rebuild_tc<K: Eq + Hash + Clone + Drop, V: TCNode<K>, G: TCGraph<K, V>>(
    alloc: Global,
    nodes: &mut G,
    enforce_dag: bool,
) -> Result<(), TcError<K>>
    requires { ClonesAreEqual K.eq K.is_clone }
    ensures edges { OnOk result ((a b : K) →
        HasEdge K.eq V.edges (G.found nodes.new) a b ↔ Reaches (HasEdge K.eq V.direct (G.found nodes.old)) a b) }
    ensures acyclic { OnOk result (IsTrue enforce_dag →
        (a : K) → ¬ (Reaches (HasEdge K.eq V.direct (G.found nodes.old)) a a)) }
    ensures left { OnErr result (IsBetween
        (λ a b. HasEdge K.eq V.direct (G.found nodes.old) a b × HasEdge K.eq V.edges (G.found nodes.old) a b)
        (λ a b. HasEdge K.eq V.edges (G.found nodes.old) a b ⊎ Reaches (HasEdge K.eq V.direct (G.found nodes.old)) a b)
        (HasEdge K.eq V.edges (G.found nodes.new))) }
    ensures refused { IfErr result (IsTcRefusal enforce_dag (λ k. Reaches (HasEdge K.eq V.direct (G.found nodes.old)) k k)) }
    ensures same { SameNodes V.is_same (G.found nodes.old) (G.found nodes.new) }
{
    let listed = keys_of(alloc, nodes)?;
    reset_all(nodes, &listed)?;
    match compute_tc(alloc, nodes, enforce_dag) {
        Ok(()) => Ok(()),
        Err(refusal) => Err(refusal),
    }
}

/// Gives each node at one of the keys an edge to each key that one or more direct edges lead to from it, cycles
/// included, and no other edge. Every other node has to have just these edges before, and then every node does.
/// Where `enforce_dag`, it is refused if direct edges lead from one of the keys back to it.
///
/// It looks once at the direct edges of the keys and of what they reach.
/// `HasCycle` names such a key; refused otherwise only where memory runs out.
/// A refused call leaves the nodes with the direct ones of their edges, and perhaps some of the others and of those
/// that were to be added; the nodes at other keys it leaves as they were.
pub fn rebuild_tc_at<K: Eq + Hash + Clone + Drop, V: TCNode<K>, G: TCGraph<K, V>>(
    alloc: Global,
    nodes: &mut G,
    keys: &[K],
    enforce_dag: bool,
) -> Result<(), TcError<K>>
    requires clones { ClonesAreEqual K.eq K.is_clone }
    requires beside { IsBuiltBeside K.eq keys.now (HasEdge K.eq V.direct (G.found nodes.old)) (HasEdge K.eq V.edges (G.found nodes.old)) }
    ensures edges { OnOk result ((a b : K) →
        HasEdge K.eq V.edges (G.found nodes.new) a b ↔ Reaches (HasEdge K.eq V.direct (G.found nodes.old)) a b) }
    ensures acyclic { OnOk result (IsTrue enforce_dag →
        (a : K) → IsTrue (is_member K.eq keys.now a) → ¬ (Reaches (HasEdge K.eq V.direct (G.found nodes.old)) a a)) }
    ensures left { OnErr result (IsBetween
        (λ a b. HasEdge K.eq V.direct (G.found nodes.old) a b × HasEdge K.eq V.edges (G.found nodes.old) a b)
        (λ a b. HasEdge K.eq V.edges (G.found nodes.old) a b ⊎ Reaches (HasEdge K.eq V.direct (G.found nodes.old)) a b)
        (HasEdge K.eq V.edges (G.found nodes.new))) }
    ensures others_left { OnErr result ((a b : K) → is_member K.eq keys.now a ≡ false →
        HasEdge K.eq V.edges (G.found nodes.new) a b ↔ HasEdge K.eq V.edges (G.found nodes.old) a b) }
    ensures refused { IfErr result (IsTcRefusal enforce_dag
        (λ k. IsTrue (is_member K.eq keys.now k) × Reaches (HasEdge K.eq V.direct (G.found nodes.old)) k k)) }
    ensures same { SameNodes V.is_same (G.found nodes.old) (G.found nodes.new) }
{
    let all = reached_from_each(alloc, nodes, keys, true)?;
    refuse_cycle(&all, enforce_dag)?;
    reset_all(nodes, keys)?;
    add_all(nodes, all)?;
    Ok(())
}
