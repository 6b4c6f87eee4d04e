//! Numbers that stand for the keys of a graph.
ghost use Rattle.std.specs.Prelude.{◌≡◌, ℕ, List, ◌∷◌, [], ◌++◌, length, ◌<◌, ◌≤◌, map, nat_eq, IfOk, OnOk, IsTrue, Some, OnSome};
ghost use Rattle.std.specs.List.{slice_get};
ghost use Rattle.std.specs.Set.{is_member, ClonesAreEqual, IsUnion};
ghost use Rattle.std.specs.Map.Iter.{deref};
ghost use Rattle.cedar_closure.specs.Graph.{edges_at, edges_of, SameKeys};
ghost use Rattle.cedar_closure.specs.Keys.{digest, IsFound};
ghost use Rattle.cedar_closure.specs.Numbering.{stands_for, is_numbered, AreNumbersOf, IsNumbering};

use crate::graphs::TCGraph;
use crate::keys::FoundKeys;
use crate::nodes::TCNode;
use std::alloc::{AllocError, Global};
use std::hash::Hash;

/// Keys by their numbers, and the numbers to which edges lead from each.
#[derive(Drop)]
pub(crate) struct Numbering<K> {
    pub(crate) keys: Vec<K>,
    pub(crate) edges: Vec<Vec<usize>>,
}

// The numbers of keys.
fn numbers_of<K: Eq + Hash + Clone + Drop>(
    alloc: Global,
    keys: &mut FoundKeys<K>,
    targets: &[&K],
) -> Result<Vec<usize>, AllocError>
    requires clones { ClonesAreEqual K.eq K.is_clone }
    requires found { IsFound K.eq (λ x. digest (K.hash_input x)) keys.old.keys.items keys.old.numbers }
    ensures found { OnOk result (IsFound K.eq (λ x. digest (K.hash_input x)) keys.new.keys.items keys.new.numbers) }
    ensures numbers { IfOk result (λ numbers. AreNumbersOf K.eq keys.new.keys.items numbers.items (map deref targets.now)) }
    ensures below { IfOk result (λ numbers. (i : ℕ) → IsTrue (is_member nat_eq numbers.items i) → i < length keys.new.keys.items) }
    ensures union { OnOk result (IsUnion K.eq keys.old.keys.items (map deref targets.now) keys.new.keys.items) }
    ensures behind { OnOk result ((more : List K) × (keys.new.keys.items ≡ keys.old.keys.items ++ more)) }
{
    let mut numbers = Vec::new(alloc);
    for target in targets {
        let target: &K = target;
        numbers.push(keys.number_of(alloc, target)?)?;
    }
    Ok(numbers)
}

// The keys to which edges lead from a node, or its direct ones alone.
fn targets_of<K: Eq, V: TCNode<K>>(
    alloc: Global,
    node: &V,
    only_direct: bool,
) -> Result<Vec<&K>, AllocError>
    ensures { IfOk result (λ targets. SameKeys K.eq (edges_of V.direct V.edges only_direct node.now) (map deref targets.items)) }
{
    if only_direct {
        node.direct_edges(alloc)
    } else {
        node.out_edges(alloc)
    }
}

// The numbers of the keys to which edges lead from the node at a key, where it has one.
fn numbers_from<K: Eq + Hash + Clone + Drop, V: TCNode<K>, G: TCGraph<K, V>>(
    alloc: Global,
    keys: &mut FoundKeys<K>,
    nodes: &G,
    at: &K,
    only_direct: bool,
) -> Result<Vec<usize>, AllocError>
    requires clones { ClonesAreEqual K.eq K.is_clone }
    requires found { IsFound K.eq (λ x. digest (K.hash_input x)) keys.old.keys.items keys.old.numbers }
    ensures found { OnOk result (IsFound K.eq (λ x. digest (K.hash_input x)) keys.new.keys.items keys.new.numbers) }
    ensures numbers { IfOk result (λ numbers. AreNumbersOf K.eq keys.new.keys.items numbers.items
        (edges_at (edges_of V.direct V.edges only_direct) (G.found nodes.now) at.now)) }
    ensures below { IfOk result (λ numbers. (i : ℕ) → IsTrue (is_member nat_eq numbers.items i) → i < length keys.new.keys.items) }
    ensures union { OnOk result (IsUnion K.eq keys.old.keys.items
        (edges_at (edges_of V.direct V.edges only_direct) (G.found nodes.now) at.now) keys.new.keys.items) }
    ensures behind { OnOk result ((more : List K) × (keys.new.keys.items ≡ keys.old.keys.items ++ more)) }
{
    match nodes.find_node(at) {
        Some(node) => {
            let targets = targets_of(alloc, node, only_direct)?;
            numbers_of(alloc, keys, &targets)
        }
        None => Ok(Vec::new(alloc)),
    }
}

/// The listed keys, each once.
pub(crate) fn each_once<K: Eq + Hash + Clone + Drop>(
    alloc: Global,
    listed: &[K],
) -> Result<FoundKeys<K>, AllocError>
    requires { ClonesAreEqual K.eq K.is_clone }
    ensures found { IfOk result (λ keys. IsFound K.eq (λ x. digest (K.hash_input x)) keys.keys.items keys.numbers) }
    ensures keys { IfOk result (λ keys. (q : K) → is_member K.eq keys.keys.items q ≡ is_member K.eq listed.now q) }
{
    let mut keys = FoundKeys::new(alloc);
    for key in listed {
        keys.number_of(alloc, key)?;
    }
    Ok(keys)
}

/// Numbers all that the keys reach, by direct edges alone where it is `only_direct`, behind the keys themselves. It
/// looks at the edges of each of them once.
/// Refused where memory runs out.
pub(crate) fn number_reached<K: Eq + Hash + Clone + Drop, V: TCNode<K>, G: TCGraph<K, V>>(
    alloc: Global,
    nodes: &G,
    first: FoundKeys<K>,
    only_direct: bool,
) -> Result<Numbering<K>, AllocError>
    requires clones { ClonesAreEqual K.eq K.is_clone }
    requires found { IsFound K.eq (λ x. digest (K.hash_input x)) first.keys.items first.numbers }
    ensures { IfOk result (λ made.
        IsNumbering K.eq (edges_at (edges_of V.direct V.edges only_direct) (G.found nodes.now))
        first.keys.items made.keys.items made.edges.items) }
{
    let mut keys = first;
    let mut edges = Vec::new(alloc);
    let mut numbered = 0;
    while numbered < keys.len() {
        let at = keys.key(numbered).clone()?;
        let numbers = numbers_from(alloc, &mut keys, nodes, &at, only_direct)?;
        edges.push(numbers)?;
        numbered += 1;
    }
    Ok(Numbering {
        keys: keys.into_keys(),
        edges,
    })
}

/// The keys for which numbers stand.
pub(crate) fn keys_at<K: Eq + Clone + Drop>(
    alloc: Global,
    keys: &[K],
    numbers: &[usize],
) -> Result<Vec<K>, AllocError>
    requires clones { ClonesAreEqual K.eq K.is_clone }
    requires below { (i : ℕ) → IsTrue (is_member nat_eq numbers.now i) → i < length keys.now }
    ensures { IfOk result (λ all. (q : K) → is_member K.eq all.items q ≡ is_numbered K.eq keys.now numbers.now q) }
{
    let mut all = Vec::with_capacity(alloc, numbers.len())?;
    for number in numbers {
        all.push(keys[*number].clone()?)?;
    }
    Ok(all)
}
