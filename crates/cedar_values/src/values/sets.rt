// Sets of values.
ghost use Rattle.std.specs.Prelude.{◌≡◌, ◌↔◌, [], length, map, not, IsTrue, IfOk};
ghost use Rattle.std.specs.List.{Contains, list_all, list_any};
ghost use Rattle.std.specs.List.Sorted.{IsStrictlySortedBy};
ghost use Rattle.std.specs.Slice.Iter.{iter_rest};
ghost use Rattle.cedar_language.specs.Operators.{has_member, has_all, has_some};
ghost use Rattle.cedar_language.specs.Order.{value_cmp, all_of, rising};
ghost use Rattle.cedar_language.specs.Value as language;
ghost use Rattle.cedar_values.specs.Kinds.{plain_of};
ghost use Rattle.cedar_values.specs.LiteralSets.{are_literals, literals_in};

use crate::values::literal_sets::LiteralSet;
use crate::values::lookups::{Lookup, has_hashed, has_literal, has_value};
use crate::values::{Members, Set, Value, ValueKind};
use cedar_literals::literals::Literal;
use std::alloc::{AllocError, Global};
use std::rc::Rc;
use std::slice::Iter;

impl Set {
    /// The set without members; refused for memory alone.
    pub fn empty(alloc: Global) -> Result<Set, AllocError>
        ensures { IfOk result (λ set. set ≡ []) }
    {
        Set::of_rising(alloc, Vec::new(alloc))
    }

    /// The set of these values, each once; refused for memory alone.
    pub fn new(alloc: Global, values: Vec<Value>) -> Result<Set, AllocError>
        ensures members { IfOk result (λ set. (v : language.Value) → Contains set v ↔ Contains values.items v) }
        ensures language { IfOk result (λ set. all_of set ≡ rising (all_of values.items)) }
    {
        cedar_language::sets_are_finite();
        Set::of_rising(alloc, each_once(values)?)
    }

    fn of_rising(alloc: Global, authoritative: Vec<Value>) -> Result<Set, AllocError>
        requires { IsStrictlySortedBy value_cmp authoritative.items }
        ensures { IfOk result (λ set. set ≡ authoritative.items) }
    {
        let lookup = Lookup::of(alloc, &authoritative)?;
        let members = Members {
            authoritative,
            lookup,
        };
        Ok(Set {
            members: Rc::new(alloc, members)?,
        })
    }

    /// The set of these literals, each once; refused for memory alone.
    pub fn from_lits(alloc: Global, literals: Vec<Literal>) -> Result<Set, AllocError>
        ensures members { IfOk result (λ set. (v : language.Value) → Contains set v ↔ Contains (map plain_of literals.items) v) }
        ensures language { IfOk result (λ set. all_of set ≡ rising (all_of (map plain_of literals.items))) }
    {
        let mut values = Vec::with_capacity(alloc, literals.len())?;
        for literal in literals {
            values.push(Value::new(ValueKind::Lit(literal), None))?;
        }
        Set::new(alloc, values)
    }

    /// How many members it has, each counted once: what was given twice is one member.
    pub fn len(&self) -> usize
        ensures { result ≡ length self.now }
    {
        self.members.authoritative.len()
    }

    /// Whether it has no member. (Cedar language reference, "isEmpty() (set emptiness test)".)
    pub fn is_empty(&self) -> bool
        ensures { IsTrue result ↔ (self.now ≡ []) }
    {
        self.members.authoritative.is_empty()
    }

    /// Its members, each below the next.
    pub fn authoritative(&self) -> &[Value]
        ensures members { result.now ≡ self.now }
        ensures rising { IsStrictlySortedBy value_cmp self.now }
    {
        self.members.authoritative.as_slice()
    }

    /// Its members, each below the next.
    pub fn iter(&self) -> Iter<'_, Value>
        ensures { iter_rest result ≡ self.now }
    {
        self.members.authoritative.iter()
    }

    /// The set of its literals, if each member is one, as in the empty set. Takes no memory.
    pub fn fast(&self) -> Option<LiteralSet<'_>>
        ensures { literals_in self.now ≡ result }
    {
        if self.is_of_literals() {
            Some(LiteralSet { set: self })
        } else {
            None
        }
    }

    fn is_of_literals(&self) -> bool
        ensures { result ≡ are_literals self.now }
    {
        match &self.members.lookup {
            Lookup::Values => false,
            Lookup::FewLiterals | Lookup::HashedLiterals(_) => true,
        }
    }

    /// Whether `value` is a member. A literal is looked up by its hash among many literals, and nothing
    /// else is among literals. Otherwise, and where hashes tie, it compares `value` with about as many
    /// members as `len` has binary digits.
    pub fn contains(&self, value: &Value) -> bool
        ensures members { IsTrue result ↔ Contains self.now value.now }
        ensures language { result ≡ has_member (all_of self.now) value.now }
    {
        match value.as_literal() {
            Some(literal) => self.contains_literal(literal),
            None => !self.is_of_literals() && has_value(&self.members.authoritative, value),
        }
    }

    pub(super) fn contains_literal(&self, literal: &Literal) -> bool
        ensures { IsTrue result ↔ Contains self.now (plain_of literal.now) }
    {
        let members = &self.members.authoritative;
        match &self.members.lookup {
            Lookup::Values | Lookup::FewLiterals => has_literal(members, literal),
            Lookup::HashedLiterals(places) => has_hashed(places, members, literal),
        }
    }

    /// Whether each member is one of `other` too.
    pub fn is_subset(&self, other: &Set) -> bool
        ensures members { IsTrue result ↔ ((v : language.Value) → Contains self.now v → Contains other.now v) }
        ensures language { result ≡ has_all (all_of other.now) (all_of self.now) }
    {
        if other.is_of_literals() && !self.is_of_literals() {
            return false;
        }
        are_members(self.authoritative(), other)
    }

    /// Whether no member is one of `other`.
    pub fn is_disjoint(&self, other: &Set) -> bool
        ensures members { IsTrue result ↔ ((v : language.Value) → Contains self.now v → Contains other.now v → ⊥) }
        ensures language { result ≡ not (has_some (all_of other.now) (all_of self.now)) }
    {
        !is_any_member(self.authoritative(), other)
    }

    /// A copy that shares the members; refused for memory alone.
    pub fn clone(&self, _alloc: Global) -> Result<Set, AllocError>
        ensures { IfOk result (λ copy. copy ≡ self.now) }
    {
        Clone::clone(self)
    }
}

// Whether each value is below the next, as most sets are written.
fn is_rising(values: &[Value]) -> bool
    ensures { IsTrue result ↔ IsStrictlySortedBy value_cmp values.now }
{
    for at in 1..values.len() {
        if !values[at - 1].cmp(&values[at]).is_lt() {
            return false;
        }
    }
    true
}

// The values, each once and below the next.
fn each_once(values: Vec<Value>) -> Result<Vec<Value>, AllocError>
    ensures rising { IfOk result (λ members. IsStrictlySortedBy value_cmp members.items) }
    ensures members { IfOk result (λ members. (v : language.Value) → Contains members.items v ↔ Contains values.items v) }
{
    if is_rising(&values) {
        return Ok(values);
    }
    let mut members = values;
    members.sort()?;
    members.dedup();
    Ok(members)
}

fn are_members(values: &[Value], set: &Set) -> bool
    ensures { result ≡ list_all (has_member (all_of set.now)) values.now }
{
    values.iter().all(|value| set.contains(value))
}

fn is_any_member(values: &[Value], set: &Set) -> bool
    ensures { result ≡ list_any (has_member (all_of set.now)) values.now }
{
    values.iter().any(|value| set.contains(value))
}

impl Clone for Set {
    ghost is_clone = { λ set copy. copy ≡ set };

    fn clone(&self) -> Result<Set, AllocError> {
        Ok(Set {
            members: self.members.clone()?,
        })
    }
}
