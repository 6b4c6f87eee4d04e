//! The nodes of a graph.
ghost use Rattle.std.specs.Prelude.{◌≡◌, List, ◌∷◌, ◌++◌, map, IfOk, OnOk, OnErr, IsTrue};
ghost use Rattle.std.specs.Set.{is_member};
ghost use Rattle.std.specs.Map.Iter.{deref};
ghost use Rattle.cedar_closure.specs.Graph.{SameKeys};

use std::alloc::{AllocError, Global};

/// A node of a graph: it has a key, and edges that lead to keys, some of them direct.
/// A key to which an edge leads may have no node.
pub trait TCNode<K: Eq> {
    ghost key: { Self → K };

    ghost direct: { Self → List K };

    ghost edges: { Self → List K };

    // the second node is the first but for edges that are not direct
    ghost is_same: { Self → Self → Type 0 };

    /// The node's key.
    fn get_key(&self) -> &K
        ensures { result.now ≡ key self.now };

    /// Adds an edge to `k`, which isn't a direct one, where there is none.
    /// Refused where memory runs out; the edges then stay.
    fn add_edge_to(&mut self, k: K) -> Result<(), AllocError>
        ensures added { OnOk result (SameKeys K.eq (k ∷ edges self.old) (edges self.new)) }
        ensures err { OnErr result (edges self.new ≡ edges self.old) }
        ensures same { is_same self.old self.new };

    /// Adds an edge to each of the keys, none of them a direct one, where there is none. A node that keeps its
    /// edges in an order can take them all at once. Refused where memory runs out; some edges may then be added.
    fn add_edges_to(&mut self, keys: Vec<K>) -> Result<(), AllocError>
    where
        K: Drop,
        ensures added { OnOk result (SameKeys K.eq (keys.items ++ edges self.old) (edges self.new)) }
        ensures kept { OnErr result ((q : K) → IsTrue (is_member K.eq (edges self.old) q) → IsTrue (is_member K.eq (edges self.new) q)) }
        ensures only { OnErr result ((q : K) → IsTrue (is_member K.eq (edges self.new) q) → IsTrue (is_member K.eq (keys.items ++ edges self.old) q)) }
        ensures same { is_same self.old self.new }
    {
        for key in keys {
            self.add_edge_to(key)?;
        }
        Ok(())
    }

    /// The keys to which edges lead, in any order. Refused where memory runs out.
    fn out_edges(&self, alloc: Global) -> Result<Vec<&K>, AllocError>
        ensures { IfOk result (λ v. SameKeys K.eq (edges self.now) (map deref v.items)) };

    /// Whether an edge leads to `k`.
    fn has_edge_to(&self, k: &K) -> bool
        ensures { result ≡ is_member K.eq (edges self.now) k.now };

    /// Drops the edges that aren't direct. Refused where memory runs out; the edges then stay.
    fn reset_edges(&mut self) -> Result<(), AllocError>
        ensures reset { OnOk result (SameKeys K.eq (direct self.old) (edges self.new)) }
        ensures err { OnErr result (edges self.new ≡ edges self.old) }
        ensures same { is_same self.old self.new };

    /// The keys to which direct edges lead, in any order. Refused where memory runs out.
    fn direct_edges(&self, alloc: Global) -> Result<Vec<&K>, AllocError>
        ensures { IfOk result (λ v. SameKeys K.eq (direct self.now) (map deref v.items)) };

    ghost itself: { (v : Self) → is_same v v };

    ghost through: { (u v w : Self) → is_same u v → is_same v w → is_same u w };

    ghost key_stays: { (u v : Self) → is_same u v → key v ≡ key u };

    ghost direct_stays: { (u v : Self) → is_same u v → direct v ≡ direct u };
}
