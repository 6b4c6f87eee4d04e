//! Whether a graph is its own transitive closure and has no cycle.
ghost use Rattle.std.specs.Prelude.{◌≡◌, false, IfOk, OnOk, IfErr, IfSome, IfNone, IsTrue};
ghost use Rattle.std.specs.Set.{is_member, ClonesAreEqual};
ghost use Rattle.cedar_closure.specs.Graph.{edges_at, HasEdge};
ghost use Rattle.cedar_closure.specs.Paths.{IsTransitive};
ghost use Rattle.cedar_closure.specs.Refused.{IsTcViolation};

use crate::errors::{HasCycle, MissingTcEdge, TcError};
use crate::graphs::TCGraph;
use crate::nodes::TCNode;
use std::alloc::{AllocError, Global};

// A key to which the parent has an edge and the child has none, if there is one.
fn find_missing<K: Eq + Clone, V: TCNode<K>>(
    alloc: Global,
    child: &V,
    parent: &V,
) -> Result<Option<K>, AllocError>
    requires { ClonesAreEqual K.eq K.is_clone }
    ensures none { IfOk result (λ o. IfNone o
        ((q : K) → IsTrue (is_member K.eq (V.edges parent.now) q) → IsTrue (is_member K.eq (V.edges child.now) q))) }
    ensures found { IfOk result (λ o. IfSome o
        (λ q. IsTrue (is_member K.eq (V.edges parent.now) q) × (is_member K.eq (V.edges child.now) q ≡ false))) }
{
    for grandparent in parent.out_edges(alloc)? {
        if !child.has_edge_to(grandparent) {
            return Ok(Some(grandparent.clone()?));
        }
    }
    Ok(None)
}

// Refuses a node that lacks an edge which a node has to which it has an edge.
fn enforce_tc_at<K: Eq + Clone + Drop, V: TCNode<K>, G: TCGraph<K, V>>(
    alloc: Global,
    nodes: &G,
    child: &K,
) -> Result<(), TcError<K>>
    requires { ClonesAreEqual K.eq K.is_clone }
    ensures closed { OnOk result ((b c : K) → HasEdge K.eq V.edges (G.found nodes.now) child.now b →
        HasEdge K.eq V.edges (G.found nodes.now) b c → HasEdge K.eq V.edges (G.found nodes.now) child.now c) }
    ensures refused { IfErr result (IsTcViolation (HasEdge K.eq V.edges (G.found nodes.now))) }
{
    let Some(node) = nodes.find_node(child) else {
        return Ok(());
    };
    for parent in node.out_edges(alloc)? {
        if let Some(above) = nodes.find_node(parent) {
            if let Some(grandparent) = find_missing(alloc, node, above)? {
                return Err(TcError::MissingTcEdge(MissingTcEdge {
                    child: child.clone()?,
                    parent: parent.clone()?,
                    grandparent,
                }));
            }
        }
    }
    Ok(())
}

// Refuses a graph in which an edge is missing.
fn enforce_tc<K: Eq + Clone + Drop, V: TCNode<K>, G: TCGraph<K, V>>(
    alloc: Global,
    nodes: &G,
) -> Result<(), TcError<K>>
    requires { ClonesAreEqual K.eq K.is_clone }
    ensures closed { OnOk result (IsTransitive (HasEdge K.eq V.edges (G.found nodes.now))) }
    ensures refused { IfErr result (IsTcViolation (HasEdge K.eq V.edges (G.found nodes.now))) }
{
    for child in nodes.list_keys(alloc)? {
        enforce_tc_at(alloc, nodes, child)?;
    }
    Ok(())
}

// Whether an edge leads from a key to itself.
fn has_loop<K: Eq + Drop, V: TCNode<K>, G: TCGraph<K, V>>(nodes: &G, at: &K) -> bool
    ensures { result ≡ is_member K.eq (edges_at V.edges (G.found nodes.now) at.now) at.now }
{
    match nodes.find_node(at) {
        Some(node) => node.has_edge_to(at),
        None => false,
    }
}

// A key with an edge to itself, if there is one.
fn find_loop<K: Eq + Drop, V: TCNode<K>, G: TCGraph<K, V>>(
    alloc: Global,
    nodes: &G,
) -> Result<Option<&K>, AllocError>
    ensures found { IfOk result (λ o. IfSome o (λ k. HasEdge K.eq V.edges (G.found nodes.now) k.now k.now)) }
    ensures none { IfOk result (λ o. IfNone o ((a : K) → ¬ (HasEdge K.eq V.edges (G.found nodes.now) a a))) }
{
    for key in nodes.list_keys(alloc)? {
        if has_loop(nodes, key) {
            return Ok(Some(key));
        }
    }
    Ok(None)
}

/// Answers whether each node with an edge to a node has all the edges of that node, to keys without a node too,
/// and no node has an edge to itself.
///
/// `MissingTcEdge` names an edge that is missing, `HasCycle` a node with an edge to itself;
/// refused otherwise only where memory runs out.
pub fn enforce_tc_and_dag<K: Eq + Clone + Drop, V: TCNode<K>, G: TCGraph<K, V>>(
    alloc: Global,
    nodes: &G,
) -> Result<(), TcError<K>>
    requires { ClonesAreEqual K.eq K.is_clone }
    ensures closed { OnOk result (IsTransitive (HasEdge K.eq V.edges (G.found nodes.now))) }
    ensures acyclic { OnOk result ((a : K) → ¬ (HasEdge K.eq V.edges (G.found nodes.now) a a)) }
    ensures refused { IfErr result (IsTcViolation (HasEdge K.eq V.edges (G.found nodes.now))) }
{
    enforce_tc(alloc, nodes)?;
    if let Some(with_loop) = find_loop(alloc, nodes)? {
        return Err(TcError::HasCycle(HasCycle {
            vertex_with_loop: with_loop.clone()?,
        }));
    }
    Ok(())
}
