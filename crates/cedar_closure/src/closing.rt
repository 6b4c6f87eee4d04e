//! Adding the edges that a transitive closure has.
ghost use Rattle.std.specs.Prelude.{◌≡◌, ◌↔◌, ◌||◌, ◌&&◌, false, ◌++◌, IfOk, OnOk, IfErr, OnErr, IfSome, IfNone, IsTrue, is_some};
ghost use Rattle.std.specs.Set.{is_member, ClonesAreEqual};
ghost use Rattle.cedar_closure.specs.Graph.{edges_at, edges_of, HasEdge, SameKeys, SameNodes, IsBetween, IsClosedBeside};
ghost use Rattle.cedar_language.specs.Facts.{Reaches};
ghost use Rattle.cedar_closure.specs.Found.{finds};
ghost use Rattle.cedar_closure.specs.Refused.{IsTcRefusal};

use crate::errors::{HasCycle, TcError};
use crate::graphs::TCGraph;
use crate::nodes::TCNode;
use crate::numbering::{each_once, keys_at, number_reached};
use crate::reaching::reached_by_each;
use std::alloc::{AllocError, Global};
use std::hash::Hash;

/// A key, and the keys that it reaches.
#[derive(Drop)]
pub(crate) struct Reached<K> {
    from: K,
    keys: Vec<K>,
}

/// The keys that each of the listed ones reaches, by direct edges alone where it is `only_direct`.
pub(crate) fn reached_from_each<K: Eq + Hash + Clone + Drop, V: TCNode<K>, G: TCGraph<K, V>>(
    alloc: Global,
    nodes: &G,
    listed: &[K],
    only_direct: bool,
) -> Result<Vec<Reached<K>>, AllocError>
    requires { ClonesAreEqual K.eq K.is_clone }
    ensures sound { IfOk result (λ all. (a q : K) → IsTrue (finds K.eq all.items a q) →
        IsTrue (is_member K.eq listed.now a) × Reaches (HasEdge K.eq (edges_of V.direct V.edges only_direct) (G.found nodes.now)) a q) }
    ensures whole { IfOk result (λ all. (a q : K) → IsTrue (is_member K.eq listed.now a) →
        Reaches (HasEdge K.eq (edges_of V.direct V.edges only_direct) (G.found nodes.now)) a q → IsTrue (finds K.eq all.items a q)) }
{
    let first = each_once(alloc, listed)?;
    let count = first.len();
    let numbering = number_reached(alloc, nodes, first, only_direct)?;
    let mut rows = reached_by_each(alloc, &numbering.edges, count)?;
    let mut all = Vec::with_capacity(alloc, count)?;
    for number in 0..count {
        let keys = keys_at(alloc, &numbering.keys, &rows[number])?;
        // The keys take its place.
        rows[number] = Vec::new(alloc);
        let from = numbering.keys[number].clone()?;
        all.push(Reached { from, keys })?;
    }
    Ok(all)
}

// A key that reaches itself, if there is one.
fn find_cycle<K: Eq + Hash>(all: &[Reached<K>]) -> Option<&K>
    ensures found { IfSome result (λ k. IsTrue (finds K.eq all.now k.now k.now)) }
    ensures none { IfNone result ((a : K) → finds K.eq all.now a a ≡ false) }
{
    for reached in all {
        if reached.keys.contains(&reached.from) {
            return Some(&reached.from);
        }
    }
    None
}

/// Refuses a key that reaches itself, where there may be none. Refused otherwise only where memory runs out.
pub(crate) fn refuse_cycle<K: Eq + Hash + Clone>(
    all: &[Reached<K>],
    enforce_dag: bool,
) -> Result<(), TcError<K>>
    requires { ClonesAreEqual K.eq K.is_clone }
    ensures acyclic { OnOk result (IsTrue enforce_dag → (a : K) → finds K.eq all.now a a ≡ false) }
    ensures refused { IfErr result (IsTcRefusal enforce_dag (λ k. IsTrue (finds K.eq all.now k k))) }
{
    if enforce_dag {
        if let Some(on_cycle) = find_cycle(all) {
            return Err(TcError::HasCycle(HasCycle {
                vertex_with_loop: on_cycle.clone()?,
            }));
        }
    }
    Ok(())
}

/// Adds what was found at each node. Refused where memory runs out; some of it may then be added.
pub(crate) fn add_all<K: Eq + Drop, V: TCNode<K>, G: TCGraph<K, V>>(
    nodes: &mut G,
    all: Vec<Reached<K>>,
) -> Result<(), AllocError>
    ensures added { OnOk result ((a q : K) → is_member K.eq (edges_at V.edges (G.found nodes.new) a) q
        ≡ (is_member K.eq (edges_at V.edges (G.found nodes.old) a) q
        || (is_some (G.found nodes.old a) && finds K.eq all.items a q))) }
    ensures left { OnErr result (IsBetween (HasEdge K.eq V.edges (G.found nodes.old))
        (λ a q. IsTrue (is_member K.eq (edges_at V.edges (G.found nodes.old) a) q
        || (is_some (G.found nodes.old a) && finds K.eq all.items a q)))
        (HasEdge K.eq V.edges (G.found nodes.new))) }
    ensures same { SameNodes V.is_same (G.found nodes.old) (G.found nodes.new) }
{
    for reached in all {
        let Reached { from, keys } = reached;
        nodes.add_edges_at(&from, keys)?;
    }
    Ok(())
}

/// The keys of the graph.
pub(crate) fn keys_of<K: Eq + Clone + Drop, V: TCNode<K>, G: TCGraph<K, V>>(
    alloc: Global,
    nodes: &G,
) -> Result<Vec<K>, AllocError>
    requires { ClonesAreEqual K.eq K.is_clone }
    ensures { IfOk result (λ v. (q : K) → is_member K.eq v.items q ≡ is_some (G.found nodes.now q)) }
{
    let mut listed = Vec::new(alloc);
    for key in nodes.list_keys(alloc)? {
        listed.push(key.clone()?)?;
    }
    Ok(listed)
}

/// Gives each node an edge to each key that one or more edges lead to from it, cycles included.
/// Where `enforce_dag`, a graph with a cycle is refused.
///
/// What a node's edges lead to is closed before it where no cycle is in the way, and taken over whole. The graph may
/// have any keys.
/// `HasCycle` names a node of a cycle; refused otherwise only where memory runs out.
/// A refused call leaves the nodes with all their edges, and perhaps some of those that were to be added.
pub fn compute_tc<K: Eq + Hash + Clone + Drop, V: TCNode<K>, G: TCGraph<K, V>>(
    alloc: Global,
    nodes: &mut G,
    enforce_dag: bool,
) -> Result<(), TcError<K>>
    requires { ClonesAreEqual K.eq K.is_clone }
    ensures edges { OnOk result ((a b : K) →
        HasEdge K.eq V.edges (G.found nodes.new) a b ↔ Reaches (HasEdge K.eq V.edges (G.found nodes.old)) a b) }
    ensures acyclic { OnOk result (IsTrue enforce_dag →
        (a : K) → ¬ (Reaches (HasEdge K.eq V.edges (G.found nodes.old)) a a)) }
    ensures left { OnErr result (IsBetween (HasEdge K.eq V.edges (G.found nodes.old))
        (Reaches (HasEdge K.eq V.edges (G.found nodes.old))) (HasEdge K.eq V.edges (G.found nodes.new))) }
    ensures refused { IfErr result (IsTcRefusal enforce_dag (λ k. Reaches (HasEdge K.eq V.edges (G.found nodes.old)) k k)) }
    ensures same { SameNodes V.is_same (G.found nodes.old) (G.found nodes.new) }
{
    let listed = keys_of(alloc, nodes)?;
    match repair_tc(alloc, nodes, &listed, enforce_dag) {
        Ok(()) => Ok(()),
        Err(refusal) => Err(refusal),
    }
}

/// Gives each node at one of `keys_to_fix` an edge to each key that one or more edges lead to from it.
/// Where every other node has all these edges, then every node does in the end.
/// Where `enforce_dag`, it is refused if one of `keys_to_fix` is on a cycle.
///
/// `HasCycle` names such a key; refused otherwise only where memory runs out.
/// A refused call leaves the nodes with all their edges, and perhaps some of those that were to be added; the nodes at
/// other keys it leaves as they were.
pub fn repair_tc<K: Eq + Hash + Clone + Drop, V: TCNode<K>, G: TCGraph<K, V>>(
    alloc: Global,
    nodes: &mut G,
    keys_to_fix: &[K],
    enforce_dag: bool,
) -> Result<(), TcError<K>>
    requires { ClonesAreEqual K.eq K.is_clone }
    ensures fixed { OnOk result ((a b : K) → IsTrue (is_member K.eq keys_to_fix.now a) →
        HasEdge K.eq V.edges (G.found nodes.new) a b ↔ Reaches (HasEdge K.eq V.edges (G.found nodes.old)) a b) }
    ensures others { OnOk result ((a b : K) → is_member K.eq keys_to_fix.now a ≡ false →
        HasEdge K.eq V.edges (G.found nodes.new) a b ↔ HasEdge K.eq V.edges (G.found nodes.old) a b) }
    ensures edges { OnOk result (IsClosedBeside K.eq keys_to_fix.now (HasEdge K.eq V.edges (G.found nodes.old)) →
        (a b : K) → HasEdge K.eq V.edges (G.found nodes.new) a b ↔ Reaches (HasEdge K.eq V.edges (G.found nodes.old)) a b) }
    ensures acyclic { OnOk result (IsTrue enforce_dag →
        (a : K) → IsTrue (is_member K.eq keys_to_fix.now a) → ¬ (Reaches (HasEdge K.eq V.edges (G.found nodes.old)) a a)) }
    ensures left { OnErr result (IsBetween (HasEdge K.eq V.edges (G.found nodes.old))
        (Reaches (HasEdge K.eq V.edges (G.found nodes.old))) (HasEdge K.eq V.edges (G.found nodes.new))) }
    ensures others_left { OnErr result ((a b : K) → is_member K.eq keys_to_fix.now a ≡ false →
        HasEdge K.eq V.edges (G.found nodes.new) a b ↔ HasEdge K.eq V.edges (G.found nodes.old) a b) }
    ensures refused { IfErr result (IsTcRefusal enforce_dag
        (λ k. IsTrue (is_member K.eq keys_to_fix.now k) × Reaches (HasEdge K.eq V.edges (G.found nodes.old)) k k)) }
    ensures same { SameNodes V.is_same (G.found nodes.old) (G.found nodes.new) }
{
    let all = reached_from_each(alloc, nodes, keys_to_fix, false)?;
    refuse_cycle(&all, enforce_dag)?;
    add_all(nodes, all)?;
    Ok(())
}
