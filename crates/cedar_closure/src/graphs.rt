//! Graphs by their nodes.
ghost use Rattle.std.specs.Prelude.{◌≡◌, Option, List, IfOk, OnOk, OnErr, IsTrue, false, is_some, map};
ghost use Rattle.std.specs.Set.{is_member};
ghost use Rattle.std.specs.Option.{option_copied};
ghost use Rattle.std.specs.Map.Iter.{deref};
ghost use Rattle.cedar_closure.specs.Graph.{edges_at, has_edge_with, HasEdge, SameKeys, SameNodes, IsBetween};

use crate::nodes::TCNode;
use std::alloc::{AllocError, Global};

/// A graph: at each key it has a node or none, as a map from keys to nodes does.
pub trait TCGraph<K: Eq + Drop, V: TCNode<K>> {
    // the node that is found at a key
    ghost found: { Self → K → Option V };

    // the keys at which there are nodes
    ghost keys: { Self → List K };

    /// The keys at which there are nodes, in any order. Refused where memory runs out.
    fn list_keys(&self, alloc: Global) -> Result<Vec<&K>, AllocError>
        ensures { IfOk result (λ v. (q : K) → is_member K.eq (map deref v.items) q ≡ is_some (found self.now q)) };

    /// The node at a key, where there is one.
    fn find_node(&self, at: &K) -> Option<&V>
        ensures { option_copied result ≡ found self.now at.now };

    /// Adds edges from the node at a key, where there is one, to each of the targets, none of them a direct one.
    /// Refused where memory runs out; some edges may then be added.
    fn add_edges_at(&mut self, from: &K, targets: Vec<K>) -> Result<(), AllocError>
        ensures added { OnOk result ((a b : K) → is_member K.eq (edges_at V.edges (found self.new) a) b
            ≡ has_edge_with K.eq V.edges (found self.old) from.now targets.items a b) }
        ensures left { OnErr result (IsBetween (HasEdge K.eq V.edges (found self.old))
            (λ a b. IsTrue (has_edge_with K.eq V.edges (found self.old) from.now targets.items a b))
            (HasEdge K.eq V.edges (found self.new))) }
        ensures same { SameNodes V.is_same (found self.old) (found self.new) };

    /// Leaves the node at a key, where there is one, its direct edges alone.
    /// Refused where memory runs out; the edges then stay.
    fn reset_edges_at(&mut self, at: &K) -> Result<(), AllocError>
        ensures reset { OnOk result ((a : K) → IsTrue (K.eq at.now a) →
            SameKeys K.eq (edges_at V.direct (found self.old) a) (edges_at V.edges (found self.new) a)) }
        ensures err { OnErr result ((a : K) → edges_at V.edges (found self.new) a ≡ edges_at V.edges (found self.old) a) }
        ensures others { (a : K) → K.eq at.now a ≡ false →
            edges_at V.edges (found self.new) a ≡ edges_at V.edges (found self.old) a }
        ensures same { SameNodes V.is_same (found self.old) (found self.new) };

    ghost alike: { (graph : Self) (a b : K) → IsTrue (K.eq a b) → found graph a ≡ found graph b };

    ghost has_node: { (graph : Self) (k : K) → is_member K.eq (keys graph) k ≡ is_some (found graph k) };
}
