//! Keys that are found by what they write to a hasher.
ghost use Rattle.std.specs.Prelude.{◌≡◌, ℕ, List, [], ◌∷◌, ◌++◌, length, ◌<◌, false, ◌||◌, ◌^◌, cond, nat_eq, IfOk, OnOk, IfSome, IfNone, IsTrue, Some};
ghost use Rattle.std.specs.List.{slice_get};
ghost use Rattle.std.specs.Set.{is_member, ClonesAreEqual, IsUnion};
ghost use Rattle.cedar_closure.specs.Numbering.{stands_for, is_numbered};
ghost use Rattle.cedar_closure.specs.Keys.{salted, digest, numbers_of, IsFound};

use std::alloc::{AllocError, Global};
use std::collections::BTreeMap;
use std::hash::{DefaultHasher, Hash, Hasher};

/// Keys by their numbers. A key is found by two hashes of 64 bits, for which many keys can't be chosen together.
#[derive(Drop)]
pub(crate) struct FoundKeys<K> {
    keys: Vec<K>,
    numbers: BTreeMap<u128, Vec<usize>>,
}

// The hash of a key behind a number.
fn salted_hash<K: Hash>(salt: u64, key: &K) -> u64
    ensures { result ≡ salted salt (K.hash_input key.now) }
{
    let mut state = DefaultHasher::new();
    state.write_u64(salt);
    key.hash(&mut state);
    state.finish()
}

// Two hashes of a key as one number.
fn digest_of<K: Hash>(key: &K) -> u128
    ensures { result ≡ digest (K.hash_input key.now) }
{
    salted_hash(1, key) as u128 * 0x1_0000_0000_0000_0000 + salted_hash(2, key) as u128
}

// The first of the numbers that stands for a key.
fn find_among<K: Eq>(keys: &[K], numbers: &[usize], key: &K) -> Option<usize>
    requires { (i : ℕ) → IsTrue (is_member nat_eq numbers.now i) → i < length keys.now }
    ensures found { IfSome result (λ number. IsTrue (stands_for K.eq keys.now key.now number)) }
    ensures none { IfNone result (is_numbered K.eq keys.now numbers.now key.now ≡ false) }
{
    for number in numbers {
        if keys[*number] == *key {
            return Some(*number);
        }
    }
    None
}

// Adds a number to those that are held at a digest.
fn add_number(
    alloc: Global,
    numbers: &mut BTreeMap<u128, Vec<usize>>,
    at: u128,
    number: usize,
) -> Result<(), AllocError>
    ensures { OnOk result ((d i : ℕ) → is_member nat_eq (numbers_of numbers.new d) i
        ≡ cond (nat_eq at d) (is_member nat_eq (numbers_of numbers.old d) i || nat_eq i number) (is_member nat_eq (numbers_of numbers.old d) i)) }
{
    match numbers.get_mut(&at) {
        Some(held) => {
            held.push(number)?;
        }
        None => {
            let mut held = Vec::new(alloc);
            held.push(number)?;
            numbers.insert(at, held)?;
        }
    }
    Ok(())
}

impl<K: Eq + Hash> FoundKeys<K> {
    /// No keys.
    pub(crate) fn new(alloc: Global) -> FoundKeys<K>
        ensures found { IsFound K.eq (λ x. digest (K.hash_input x)) result.keys.items result.numbers }
        ensures empty { result.keys.items ≡ [] }
    {
        FoundKeys {
            keys: Vec::new(alloc),
            numbers: BTreeMap::new(alloc),
        }
    }

    /// How many keys there are.
    pub(crate) fn len(&self) -> usize
        ensures len { result ≡ length self.now.keys.items }
        ensures small { result < 2 ^ 63 }
    {
        self.keys.len()
    }

    /// The key of a number.
    pub(crate) fn key(&self, number: usize) -> &K
        requires { number < length self.now.keys.items }
        ensures { slice_get self.now.keys.items number ≡ Some result.now }
    {
        &self.keys[number]
    }

    /// The keys as a list.
    pub(crate) fn into_keys(self) -> Vec<K>
        ensures { result ≡ self.keys }
    {
        self.keys
    }

    // The number of a key, where it has one.
    fn find(&self, key: &K, at: u128) -> Option<usize>
        requires found { IsFound K.eq (λ x. digest (K.hash_input x)) self.now.keys.items self.now.numbers }
        requires at { at ≡ digest (K.hash_input key.now) }
        ensures found { IfSome result (λ number. IsTrue (stands_for K.eq self.now.keys.items key.now number)) }
        ensures none { IfNone result (is_member K.eq self.now.keys.items key.now ≡ false) }
    {
        match self.numbers.get(&at) {
            Some(numbers) => find_among(&self.keys, numbers, key),
            None => None,
        }
    }

    // Gives a key that has no number the next one.
    fn add(&mut self, alloc: Global, key: K, at: u128) -> Result<usize, AllocError>
    where
        K: Drop,
        requires found { IsFound K.eq (λ x. digest (K.hash_input x)) self.old.keys.items self.old.numbers }
        requires at { at ≡ digest (K.hash_input key) }
        requires absent { is_member K.eq self.old.keys.items key ≡ false }
        ensures found { OnOk result (IsFound K.eq (λ x. digest (K.hash_input x)) self.new.keys.items self.new.numbers) }
        ensures stands { IfOk result (λ number. slice_get self.new.keys.items number ≡ Some key) }
        ensures pushed { OnOk result (self.new.keys.items ≡ self.old.keys.items ++ key ∷ []) }
    {
        let number = self.keys.len();
        add_number(alloc, &mut self.numbers, at, number)?;
        self.keys.push(key)?;
        Ok(number)
    }

    /// The number of a key, which is the next one where it has none.
    pub(crate) fn number_of(&mut self, alloc: Global, key: &K) -> Result<usize, AllocError>
    where
        K: Clone + Drop,
        requires clones { ClonesAreEqual K.eq K.is_clone }
        requires found { IsFound K.eq (λ x. digest (K.hash_input x)) self.old.keys.items self.old.numbers }
        ensures found { OnOk result (IsFound K.eq (λ x. digest (K.hash_input x)) self.new.keys.items self.new.numbers) }
        ensures stands { IfOk result (λ number. IsTrue (stands_for K.eq self.new.keys.items key.now number)) }
        ensures union { OnOk result (IsUnion K.eq self.old.keys.items (key.now ∷ []) self.new.keys.items) }
        ensures behind { OnOk result ((more : List K) × (self.new.keys.items ≡ self.old.keys.items ++ more)) }
    {
        let at = digest_of(key);
        match self.find(key, at) {
            Some(number) => Ok(number),
            None => {
                let key = key.clone()?;
                self.add(alloc, key, at)
            }
        }
    }
}
