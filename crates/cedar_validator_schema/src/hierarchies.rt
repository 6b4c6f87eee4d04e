// Keys, and those to which edges lead from each.
ghost use Rattle.std.specs.Prelude.{◌≡◌, ◌↔◌, IsTrue, IfOk, OnOk, cond, [], ◌∷◌, ◌++◌};
ghost use Rattle.std.specs.BTreeMap.{is_at};
ghost use Rattle.cedar_language.specs.Facts.{Reaches};
ghost use Rattle.cedar_validator_schema.specs.Hierarchies.{targets_at, Leads, AreExact};

use crate::searches::Search;
use std::alloc::{AllocError, Global};
use std::collections::BTreeMap;

/// Keys, and those to which edges lead from each: the groups of actions, or the types that entities of a type may have parents
/// of. Its memory is linear in the edges.
#[derive(Drop)]
pub struct Hierarchy<K: Ord> {
    targets: BTreeMap<K, Vec<K>>,
}

impl<K: Ord + Clone + Drop> Hierarchy<K> {
    /// One without edges.
    pub(crate) fn new(alloc: Global) -> Hierarchy<K>
        ensures { (x : K) → targets_at K.cmp result x ≡ [] }
    {
        Hierarchy {
            targets: BTreeMap::new(alloc),
        }
    }

    /// Lets edges lead from a key to these alone. Refused for memory alone.
    pub(crate) fn set(&mut self, from: K, targets: Vec<K>) -> Result<(), AllocError>
        ensures { OnOk result ((x : K) → targets_at K.cmp self.new x
            ≡ cond (is_at (K.cmp from) x) targets.items (targets_at K.cmp self.old x)) }
    {
        self.targets.insert(from, targets)?;
        Ok(())
    }

    /// Lets an edge lead from a key to one more. Refused for memory alone.
    pub(crate) fn add(&mut self, alloc: Global, from: K, to: K) -> Result<(), AllocError>
        ensures { OnOk result ((x : K) → targets_at K.cmp self.new x
            ≡ cond (is_at (K.cmp from) x) (targets_at K.cmp self.old from ++ to ∷ []) (targets_at K.cmp self.old x)) }
    {
        let mut targets = match self.targets.remove(&from) {
            Some(targets) => targets,
            None => Vec::new(alloc),
        };
        targets.push(to)?;
        self.set(from, targets)
    }

    /// The keys to which edges lead from a key.
    pub fn targets_of(&self, from: &K) -> &[K]
        ensures { result.now ≡ targets_at K.cmp self.now from.now }
    {
        match self.targets.get(from) {
            Some(targets) => targets,
            None => &[],
        }
    }

    /// Whether one or more edges lead from a key to another. It looks at each key that is reached once; refused for memory
    /// alone.
    pub fn reaches(&self, alloc: Global, from: &K, to: &K) -> Result<bool, AllocError>
        requires { AreExact K.eq K.is_clone }
        ensures { IfOk result (λ reaches. IsTrue reaches ↔ Reaches (Leads K.eq K.cmp self.now) from.now to.now) }
    {
        let mut search = Search::new(alloc);
        search.see_all(self.targets_of(from))?;
        while let Some(via) = search.next() {
            search.see_all(self.targets_of(&via))?;
        }
        Ok(search.has_seen(to))
    }
}
