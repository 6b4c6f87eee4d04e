//! The edges of a graph, turned round.
ghost use Rattle.std.specs.Prelude.{◌≡◌, ℕ, List, [], ◌∷◌, ◌++◌, length, ◌<◌, ◌≤◌, map, false, ◌||◌, ◌&&◌, not, IfOk, OnOk, OnErr, IfSome, IfNone, IsTrue, Some};
ghost use Rattle.std.specs.List.{IsDistinct, slice_get};
ghost use Rattle.std.specs.BTreeMap.{get};
ghost use Rattle.std.specs.BTreeSet.{contains};
ghost use Rattle.std.specs.Map.Iter.{deref};
ghost use Rattle.std.specs.Set.{is_member, ClonesAreEqual, IsUnion};
ghost use Rattle.cedar_closure.specs.Sources.{has_source, LeadsTo, LeadsToOne, AreMoreThan, IsSeen, Finds};

use std::alloc::{AllocError, Global};
use std::collections::{BTreeMap, BTreeSet};

/// For each key the keys from which edges lead to it: the edges of a graph, turned round. It is ordered by keys, so
/// that no choice of keys makes it slow. Contracts see it through `has_source`.
pub struct Sources<K: Ord> {
    by_target: BTreeMap<K, BTreeSet<K>>,
}

// Written by hand, so that a function which may return early lets go of them by a call.
impl<K: Ord + Drop> Drop for Sources<K> {
    fn drop(self) {
        let Sources {
            by_target: _by_target,
        } = self;
    }
}

// The keys that were found, in the order in which they were, and the same keys as a set.
#[derive(Drop)]
struct Found<'a, K: Ord> {
    keys: Vec<&'a K>,
    seen: BTreeSet<&'a K>,
}

// Clones of keys.
fn cloned<K: Eq + Clone + Drop>(alloc: Global, keys: &[&K]) -> Result<Vec<K>, AllocError>
    requires { ClonesAreEqual K.eq K.is_clone }
    ensures members { IfOk result (λ all. (q : K) → is_member K.eq all.items q ≡ is_member K.eq (map deref keys.now) q) }
    ensures len { IfOk result (λ all. length all.items ≡ length keys.now) }
{
    let mut all = Vec::new(alloc);
    for key in keys {
        let key: &K = key;
        all.push(key.clone()?)?;
    }
    Ok(all)
}

impl<K: Ord + Clone + Drop> Sources<K> {
    /// Those of a graph without edges; takes no memory.
    pub fn new(alloc: Global) -> Sources<K>
        ensures { (t s : K) → has_source K.cmp result t s ≡ false }
    {
        Sources {
            by_target: BTreeMap::new(alloc),
        }
    }

    /// Adds an edge, which may be there. Refused for memory alone, and all edges then stay.
    pub fn add(&mut self, alloc: Global, target: &K, source: &K) -> Result<(), AllocError>
        requires { ClonesAreEqual K.eq K.is_clone }
        ensures added { OnOk result ((t s : K) → has_source K.cmp self.new t s
            ≡ (has_source K.cmp self.old t s || (K.eq target.now t && K.eq source.now s))) }
        ensures kept { OnErr result ((t s : K) → has_source K.cmp self.new t s ≡ has_source K.cmp self.old t s) }
    {
        let source = source.clone()?;
        match self.by_target.get_mut(target) {
            Some(sources) => {
                sources.insert(source)?;
                Ok(())
            }
            None => self.add_first(alloc, target, source),
        }
    }

    // The same where no edge leads to the target yet.
    fn add_first(&mut self, alloc: Global, target: &K, source: K) -> Result<(), AllocError>
        requires clones { ClonesAreEqual K.eq K.is_clone }
        requires none { (s : K) → has_source K.cmp self.old target.now s ≡ false }
        ensures added { OnOk result ((t s : K) → has_source K.cmp self.new t s
            ≡ (has_source K.cmp self.old t s || (K.eq target.now t && K.eq source s))) }
        ensures kept { OnErr result ((t s : K) → has_source K.cmp self.new t s ≡ has_source K.cmp self.old t s) }
    {
        let target = target.clone()?;
        let mut sources = BTreeSet::new(alloc);
        sources.insert(source)?;
        self.by_target.insert(target, sources)?;
        Ok(())
    }

    /// Removes an edge, where there is one; takes no memory.
    pub fn remove(&mut self, target: &K, source: &K)
        ensures { (t s : K) → has_source K.cmp self.new t s
            ≡ (has_source K.cmp self.old t s && not (K.eq target.now t && K.eq source.now s)) }
    {
        let Some(sources) = self.by_target.get_mut(target) else {
            return;
        };
        sources.remove(source);
        if sources.is_empty() {
            self.by_target.remove(target);
        }
    }

    /// The targets and all keys from which one or more edges lead to one of them, each once; `None` where there are
    /// more than `most`. It looks at the sources of each key once, and at no others. Refused for memory alone.
    pub fn that_lead_to(
        &self,
        alloc: Global,
        targets: &[K],
        most: usize,
    ) -> Result<Option<Vec<K>>, AllocError>
        requires { ClonesAreEqual K.eq K.is_clone }
        ensures targets { IfOk result (λ all. IfSome all (λ found.
            (q : K) → IsTrue (is_member K.eq targets.now q) → IsTrue (is_member K.eq found.items q))) }
        ensures sources { IfOk result (λ all. IfSome all (λ found.
            (t s : K) → IsTrue (is_member K.eq found.items t) → IsTrue (has_source K.cmp self.now t s) → IsTrue (is_member K.eq found.items s))) }
        ensures only { IfOk result (λ all. IfSome all (λ found.
            (q : K) → IsTrue (is_member K.eq found.items q) → LeadsToOne K.eq (LeadsTo K.cmp self.now) targets.now q)) }
        ensures once { IfOk result (λ all. IfSome all (λ found. IsDistinct K.eq found.items)) }
        ensures most { IfOk result (λ all. IfSome all (λ found. length found.items ≤ most)) }
        ensures none { IfOk result (λ all. IfNone all (AreMoreThan K.eq most (LeadsToOne K.eq (LeadsTo K.cmp self.now) targets.now))) }
    {
        let mut found = Found::new(alloc);
        found.add_targets(targets, most)?;
        let mut looked = 0;
        while looked < found.keys.len() {
            if found.keys.len() > most {
                return Ok(None);
            }
            found.add_sources(self, looked, most)?;
            looked += 1;
        }
        Ok(Some(cloned(alloc, &found.keys)?))
    }
}

impl<'a, K: Ord> Found<'a, K> {
    // No key.
    fn new(alloc: Global) -> Found<'a, K>
        ensures seen { IsSeen K.eq K.cmp (map deref result.keys.items) result.seen }
        ensures empty { map deref result.keys.items ≡ [] }
    {
        Found {
            keys: Vec::new(alloc),
            seen: BTreeSet::new(alloc),
        }
    }

    // Adds a key behind the others, where it isn't there.
    fn add(&mut self, key: &'a K) -> Result<(), AllocError>
        requires { IsSeen K.eq K.cmp (map deref self.old.keys.items) self.old.seen }
        ensures seen { OnOk result (IsSeen K.eq K.cmp (map deref self.new.keys.items) self.new.seen) }
        ensures union { OnOk result (IsUnion K.eq (map deref self.old.keys.items) (key.now ∷ []) (map deref self.new.keys.items)) }
        ensures behind { OnOk result ((more : List K) × (map deref self.new.keys.items ≡ map deref self.old.keys.items ++ more)) }
    {
        if self.seen.contains(&key) {
            return Ok(());
        }
        self.seen.insert(key)?;
        self.keys.push(key)?;
        Ok(())
    }

    // Adds keys until there are more than `most`.
    fn add_targets(&mut self, targets: &'a [K], most: usize) -> Result<(), AllocError>
        requires { IsSeen K.eq K.cmp (map deref self.old.keys.items) self.old.seen }
        ensures seen { OnOk result (IsSeen K.eq K.cmp (map deref self.new.keys.items) self.new.seen) }
        ensures finds { OnOk result (Finds K.eq most (is_member K.eq targets.now) (map deref self.old.keys.items) (map deref self.new.keys.items)) }
    {
        for target in targets {
            if self.keys.len() > most {
                return Ok(());
            }
            self.add(target)?;
        }
        Ok(())
    }

    // The same of a set.
    fn add_each(&mut self, sources: &'a BTreeSet<K>, most: usize) -> Result<(), AllocError>
        requires { IsSeen K.eq K.cmp (map deref self.old.keys.items) self.old.seen }
        ensures seen { OnOk result (IsSeen K.eq K.cmp (map deref self.new.keys.items) self.new.seen) }
        ensures finds { OnOk result (Finds K.eq most (contains K.cmp sources.now) (map deref self.old.keys.items) (map deref self.new.keys.items)) }
    {
        for source in sources {
            if self.keys.len() > most {
                return Ok(());
            }
            self.add(source)?;
        }
        Ok(())
    }

    // Adds those from which edges lead to the key at an index, until there are more than `most`.
    fn add_sources(
        &mut self,
        graph: &'a Sources<K>,
        at: usize,
        most: usize,
    ) -> Result<(), AllocError>
        requires seen { IsSeen K.eq K.cmp (map deref self.old.keys.items) self.old.seen }
        requires below { at < length self.old.keys.items }
        ensures seen { OnOk result (IsSeen K.eq K.cmp (map deref self.new.keys.items) self.new.seen) }
        ensures finds { OnOk result ((t : K) → slice_get (map deref self.old.keys.items) at ≡ Some t →
            Finds K.eq most (has_source K.cmp graph.now t) (map deref self.old.keys.items) (map deref self.new.keys.items)) }
    {
        match graph.by_target.get(self.keys[at]) {
            Some(sources) => self.add_each(sources, most),
            None => Ok(()),
        }
    }
}
