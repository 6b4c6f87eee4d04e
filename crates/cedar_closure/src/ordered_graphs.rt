//! Graphs that are held in the order of keys.
ghost use Rattle.std.specs.BTreeMap as tree;

use crate::graphs::TCGraph;
use crate::nodes::TCNode;
use std::alloc::{AllocError, Global};
use std::collections::BTreeMap;

impl<K: Ord + Drop, V: TCNode<K>> TCGraph<K, V> for BTreeMap<K, V> {
    ghost use Rattle.std.specs.Prelude.{◌≡◌, OnOk, OnErr, IsTrue};
    ghost use Rattle.std.specs.Set.{is_member};
    ghost use Rattle.cedar_closure.specs.Graph.{edges_at, has_edge_with, HasEdge, SameNodes, IsBetween};
    ghost use Rattle.cedar_closure.specs.GraphLaws.{tree_alike, tree_has_node};

    ghost found = { λ m k. tree.get K.cmp m k };

    ghost keys = { λ m. tree.keys m };

    ghost alike = { λ m a b e. tree_alike K.total K.matches_eq m a b e };

    ghost has_node = { λ m k. tree_has_node K.cmp K.matches_eq m k };

    fn list_keys(&self, alloc: Global) -> Result<Vec<&K>, AllocError> {
        let mut listed = Vec::new(alloc);
        for key in self.keys() {
            listed.push(key)?;
        }
        Ok(listed)
    }

    fn find_node(&self, at: &K) -> Option<&V> {
        self.get(at)
    }

    fn add_edges_at(&mut self, from: &K, targets: Vec<K>) -> Result<(), AllocError>
        ensures added { OnOk result ((a b : K) → is_member K.eq (edges_at V.edges (tree.get K.cmp self.new) a) b
            ≡ has_edge_with K.eq V.edges (tree.get K.cmp self.old) from.now targets.items a b) }
        ensures left { OnErr result (IsBetween (HasEdge K.eq V.edges (tree.get K.cmp self.old))
            (λ a b. IsTrue (has_edge_with K.eq V.edges (tree.get K.cmp self.old) from.now targets.items a b))
            (HasEdge K.eq V.edges (tree.get K.cmp self.new))) }
        ensures same { SameNodes V.is_same (tree.get K.cmp self.old) (tree.get K.cmp self.new) }
    {
        match self.get_mut(from) {
            Some(node) => node.add_edges_to(targets),
            None => Ok(()),
        }
    }

    fn reset_edges_at(&mut self, at: &K) -> Result<(), AllocError> {
        match self.get_mut(at) {
            Some(node) => node.reset_edges(),
            None => Ok(()),
        }
    }
}
