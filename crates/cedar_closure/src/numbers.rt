//! Sets of numbers.
ghost use Rattle.std.specs.Prelude.{◌≡◌, ℕ, List, [], ◌∷◌, ◌++◌, length, not, ◌<◌, nat_eq, IfOk, OnOk, IsTrue, Some};
ghost use Rattle.std.specs.List.{slice_get};
ghost use Rattle.std.specs.List.Sorted.{IsSorted};
ghost use Rattle.std.specs.Ordering.{nat_cmp};
ghost use Rattle.std.specs.Set.{is_member, IsUnion};
ghost use Rattle.cedar_closure.specs.Numbers.{IsSet};

use std::alloc::{AllocError, Global};

/// Numbers below a bound, in the order in which they came.
#[derive(Drop)]
pub(crate) struct NumberSet {
    members: Vec<usize>,
    is_member: Vec<bool>,
}

impl NumberSet {
    /// The empty set. It takes a byte for each number below the bound.
    pub(crate) fn below(alloc: Global, bound: usize) -> Result<NumberSet, AllocError>
        ensures set { IfOk result (λ set. IsSet set) }
        ensures empty { IfOk result (λ set. set.members.items ≡ []) }
        ensures bound { IfOk result (λ set. length set.is_member.items ≡ bound) }
    {
        let is_member = vec![in alloc; false; bound]?;
        Ok(NumberSet {
            members: Vec::new(alloc),
            is_member,
        })
    }

    /// How many members there are.
    pub(crate) fn len(&self) -> usize
        ensures { result ≡ length self.now.members.items }
    {
        self.members.len()
    }

    /// The member at an index.
    pub(crate) fn member(&self, index: usize) -> usize
        requires set { IsSet self.now }
        requires index { index < length self.now.members.items }
        ensures value { slice_get self.now.members.items index ≡ Some result }
        ensures below { result < length self.now.is_member.items }
    {
        self.members[index]
    }

    /// The members, each below the next.
    pub(crate) fn sorted(&self, alloc: Global) -> Result<Vec<usize>, AllocError>
        ensures listed { IfOk result (λ all. (q : ℕ) → is_member nat_eq all.items q ≡ is_member nat_eq self.now.members.items q) }
        ensures sorted { IfOk result (λ all. IsSorted nat_cmp all.items) }
    {
        let mut all = Vec::from_slice(alloc, &self.members)?;
        all.sort()?;
        Ok(all)
    }

    /// Puts a number behind the others, where it isn't a member. Answers whether it was none.
    pub(crate) fn insert(&mut self, number: usize) -> Result<bool, AllocError>
        requires set { IsSet self.old }
        requires below { number < length self.old.is_member.items }
        ensures set { OnOk result (IsSet self.new) }
        ensures added { IfOk result (λ is_new. is_new ≡ not (is_member nat_eq self.old.members.items number)) }
        ensures union { OnOk result (IsUnion nat_eq self.old.members.items (number ∷ []) self.new.members.items) }
        ensures behind { OnOk result ((more : List ℕ) × (self.new.members.items ≡ self.old.members.items ++ more)) }
        ensures bound { length self.new.is_member.items ≡ length self.old.is_member.items }
    {
        if self.is_member[number] {
            return Ok(false);
        }
        self.members.push(number)?;
        self.is_member[number] = true;
        Ok(true)
    }

    /// Puts those numbers behind the members that are none.
    pub(crate) fn insert_all(&mut self, numbers: &[usize]) -> Result<(), AllocError>
        requires set { IsSet self.old }
        requires below { (q : ℕ) → IsTrue (is_member nat_eq numbers.now q) → q < length self.old.is_member.items }
        ensures set { OnOk result (IsSet self.new) }
        ensures union { OnOk result (IsUnion nat_eq self.old.members.items numbers.now self.new.members.items) }
        ensures behind { OnOk result ((more : List ℕ) × (self.new.members.items ≡ self.old.members.items ++ more)) }
        ensures bound { length self.new.is_member.items ≡ length self.old.is_member.items }
    {
        for number in numbers {
            self.insert(*number)?;
        }
        Ok(())
    }

    /// Leaves no member. It takes the time of those that were.
    pub(crate) fn clear(&mut self)
        requires { IsSet self.old }
        ensures set { IsSet self.new }
        ensures empty { self.new.members.items ≡ [] }
        ensures bound { length self.new.is_member.items ≡ length self.old.is_member.items }
    {
        for index in 0..self.members.len() {
            let number = self.members[index];
            self.is_member[number] = false;
        }
        self.members.clear();
    }
}
