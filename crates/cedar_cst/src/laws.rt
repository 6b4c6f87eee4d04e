// Laws of nodes.
ghost use Rattle.std.specs.Prelude.{◌≡◌};
ghost use Rattle.cedar_cst.specs.declared.node.Node.{Node};

use crate::node::Node;
use std::hash::Hash;

/// `==`, order and hash of nodes are those of their values: no place counts.
pub fn nodes_look_past_places<T: Ord + Hash>()
    ensures equality { (a b : Node T) → ⟦<Node<T> as PartialEq>⟧.eq a b ≡ T.eq a.node b.node }
    ensures order { (a b : Node T) → ⟦<Node<T> as Ord>⟧.cmp a b ≡ T.cmp a.node b.node }
    ensures hash { (a : Node T) → ⟦<Node<T> as Hash>⟧.hash_input a ≡ T.hash_input a.node }
{}
