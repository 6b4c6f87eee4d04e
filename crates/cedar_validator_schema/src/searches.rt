// Keys that are found along edges.
ghost use Rattle.std.specs.Prelude.{◌≡◌, IsTrue, IfOk, OnOk, IfSome, IfNone, [], ◌∷◌, ◌++◌};
ghost use Rattle.std.specs.BTreeSet.{contains};
ghost use Rattle.cedar_validator_schema.specs.Hierarchies.{AreExact};
ghost use Rattle.cedar_validator_schema.specs.Searches.{IsNew, SeesMore, seen_by};

use std::alloc::{AllocError, Global};
use std::collections::BTreeSet;

/// The keys that were seen, and those of them whose edges are still to be followed.
#[derive(Drop)]
pub(crate) struct Search<K: Ord> {
    seen: BTreeSet<K>,
    pending: Vec<K>,
}

impl<K: Ord + Clone + Drop> Search<K> {
    /// A search that has seen nothing.
    pub(crate) fn new(alloc: Global) -> Search<K>
        ensures { IsNew K.cmp result }
    {
        Search {
            seen: BTreeSet::new(alloc),
            pending: Vec::new(alloc),
        }
    }

    // Sees a key.
    fn see(&mut self, key: &K) -> Result<(), AllocError>
        requires { AreExact K.eq K.is_clone }
        ensures { OnOk result (SeesMore K.eq K.cmp (key.now ∷ []) self.old self.new) }
    {
        if self.seen.contains(key) {
            return Ok(());
        }
        self.seen.insert(key.clone()?)?;
        self.pending.push(key.clone()?)?;
        Ok(())
    }

    /// Sees keys.
    pub(crate) fn see_all(&mut self, keys: &[K]) -> Result<(), AllocError>
        requires { AreExact K.eq K.is_clone }
        ensures { OnOk result (SeesMore K.eq K.cmp keys.now self.old self.new) }
    {
        for key in keys {
            self.see(key)?;
        }
        Ok(())
    }

    /// One of those whose edges are still to be followed, which aren't any more then.
    pub(crate) fn next(&mut self) -> Option<K>
        ensures seen { self.new.seen ≡ self.old.seen }
        ensures some { IfSome result (λ via. self.old.pending.items ≡ self.new.pending.items ++ via ∷ []) }
        ensures none { IfNone result (self.old.pending.items ≡ []) }
    {
        self.pending.pop()
    }

    /// Whether a key was seen.
    pub(crate) fn has_seen(&self, key: &K) -> bool
        ensures { result ≡ seen_by K.cmp self.now key.now }
    {
        self.seen.contains(key)
    }
}
