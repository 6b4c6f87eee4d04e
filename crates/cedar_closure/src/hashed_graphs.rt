//! Graphs that are held by the hashes of keys.
ghost use Rattle.std.specs.HashMap as hash;

use crate::graphs::TCGraph;
use crate::nodes::TCNode;
use std::alloc::{AllocError, Global};
use std::collections::HashMap;
use std::hash::Hash;

impl<K: Eq + Hash + Drop, V: TCNode<K>> TCGraph<K, V> for HashMap<K, V> {
    ghost use Rattle.std.specs.Prelude.{◌≡◌, OnOk, OnErr, IsTrue};
    ghost use Rattle.std.specs.Set.{is_member};
    ghost use Rattle.cedar_closure.specs.Graph.{edges_at, has_edge_with, HasEdge, SameNodes, IsBetween};
    ghost use Rattle.cedar_closure.specs.GraphLaws.{hash_alike, hash_has_node};

    ghost found = { λ m k. hash.get K.eq m k };

    ghost keys = { λ m. hash.keys m };

    ghost alike = { λ m a b e. hash_alike K.Eq.laws m a b e };

    ghost has_node = { λ m k. hash_has_node K.eq m k };

    fn list_keys(&self, alloc: Global) -> Result<Vec<&K>, AllocError> {
        let mut listed = Vec::new(alloc);
        for key in self.keys() {
            listed.push(key)?;
        }
        Ok(listed)
    }

    fn find_node(&self, at: &K) -> Option<&V> {
        self.get(at)
    }

    fn add_edges_at(&mut self, from: &K, targets: Vec<K>) -> Result<(), AllocError>
        ensures added { OnOk result ((a b : K) → is_member K.eq (edges_at V.edges (hash.get K.eq self.new) a) b
            ≡ has_edge_with K.eq V.edges (hash.get K.eq self.old) from.now targets.items a b) }
        ensures left { OnErr result (IsBetween (HasEdge K.eq V.edges (hash.get K.eq self.old))
            (λ a b. IsTrue (has_edge_with K.eq V.edges (hash.get K.eq self.old) from.now targets.items a b))
            (HasEdge K.eq V.edges (hash.get K.eq self.new))) }
        ensures same { SameNodes V.is_same (hash.get K.eq self.old) (hash.get K.eq self.new) }
    {
        match self.get_mut(from) {
            Some(node) => node.add_edges_to(targets),
            None => Ok(()),
        }
    }

    fn reset_edges_at(&mut self, at: &K) -> Result<(), AllocError> {
        match self.get_mut(at) {
            Some(node) => node.reset_edges(),
            None => Ok(()),
        }
    }
}
