//! Entities as the nodes of a graph: edges lead to their ancestors, the direct ones to their parents.

use crate::entity::Entity;
use cedar_closure::TCNode;
use cedar_literals::uids::EntityUID;
use std::alloc::{AllocError, Global};

impl TCNode<EntityUID> for Entity {
    ghost use Rattle.std.specs.Prelude.{◌++◌, IsTrue, OnOk, OnErr};
    ghost use Rattle.std.specs.FinSet as set;
    ghost use Rattle.std.specs.Set.{is_member};
    ghost use Rattle.cedar_closure.specs.Graph.{SameKeys};
    ghost use Rattle.cedar_language.specs.Order.{same_uid};
    ghost use Rattle.cedar_language.specs.Uid.{Uid};
    ghost use Rattle.cedar_entities.specs.Data.{ancestors_of, IsSameBesideAncestors};
    ghost use Rattle.cedar_entities.specs.Sameness.{same_beside_itself, same_beside_through};

    ghost key = { λ e. e.uid };

    ghost direct = { λ e. set.items e.parents };

    ghost edges = { λ e. set.items (ancestors_of e) };

    ghost is_same = { IsSameBesideAncestors };

    fn get_key(&self) -> &EntityUID {
        self.uid()
    }

    fn add_edge_to(&mut self, k: EntityUID) -> Result<(), AllocError> {
        self.add_indirect_ancestor(k)
    }

    fn add_edges_to(&mut self, keys: Vec<EntityUID>) -> Result<(), AllocError>
        ensures added { OnOk result (SameKeys same_uid (keys.items ++ set.items (ancestors_of self.old)) (set.items (ancestors_of self.new))) }
        ensures kept { OnErr result ((q : Uid) → IsTrue (is_member same_uid (set.items (ancestors_of self.old)) q) → IsTrue (is_member same_uid (set.items (ancestors_of self.new)) q)) }
        ensures only { OnErr result ((q : Uid) → IsTrue (is_member same_uid (set.items (ancestors_of self.new)) q) → IsTrue (is_member same_uid (keys.items ++ set.items (ancestors_of self.old)) q)) }
        ensures same { IsSameBesideAncestors self.old self.new }
    {
        self.add_indirect_ancestors(keys)
    }

    fn out_edges(&self, alloc: Global) -> Result<Vec<&EntityUID>, AllocError> {
        let mut targets = Vec::new(alloc);
        for uid in self.ancestors() {
            targets.push(uid)?;
        }
        Ok(targets)
    }

    fn has_edge_to(&self, k: &EntityUID) -> bool {
        self.is_descendant_of(k)
    }

    fn reset_edges(&mut self) -> Result<(), AllocError> {
        self.remove_all_indirect_ancestors();
        Ok(())
    }

    fn direct_edges(&self, alloc: Global) -> Result<Vec<&EntityUID>, AllocError> {
        let mut targets = Vec::new(alloc);
        for uid in self.parents() {
            targets.push(uid)?;
        }
        Ok(targets)
    }

    ghost itself = { same_beside_itself };

    ghost through = { same_beside_through };

    ghost key_stays = { λ u v h. h.uid };

    ghost direct_stays = { λ u v h i. set.items (h.parents i) };
}
