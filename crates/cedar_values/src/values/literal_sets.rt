// Sets whose members are literals.
ghost use Rattle.std.specs.Prelude.{◌≡◌, ◌↔◌, [], length, IsTrue};
ghost use Rattle.std.specs.List.{Contains};
ghost use Rattle.cedar_language.specs.Tree as language;
ghost use Rattle.cedar_literals.specs.Literals.{literal_of};
ghost use Rattle.cedar_values.specs.LiteralsLeft.{literals_left};

use crate::values::{Set, Value};
use cedar_literals::literals::Literal;
use std::marker::Model;
use std::slice::Iter;

/// A set whose members are literals, lent by `Set::fast`. Contracts see these literals, each below the
/// next in the order of values.
#[derive(Debug, Drop)]
pub struct LiteralSet<'a> {
    pub(super) set: &'a Set,
}

impl<'a> Model for LiteralSet<'a> {
    ghost use Rattle.std.specs.Prelude.{◌≡◌, List, true};
    ghost use Rattle.cedar_language.specs.Tree.{Literal};
    ghost use Rattle.cedar_values.specs.LiteralSets.{are_literals, literals_among};

    ghost Value = { List Literal };

    ghost view = { λ a. literals_among a.set.now };

    ghost invariant = { λ a. are_literals a.set.now ≡ true };
}

impl<'a> LiteralSet<'a> {
    /// How many members it has.
    pub fn len(&self) -> usize
        ensures { result ≡ length self.now }
    {
        self.set.len()
    }

    /// Whether it has no member.
    pub fn is_empty(&self) -> bool
        ensures { IsTrue result ↔ (self.now ≡ []) }
    {
        self.set.is_empty()
    }

    /// Whether `literal` is a member: by its hash, where members are many.
    pub fn contains(&self, literal: &Literal) -> bool
        ensures { IsTrue result ↔ Contains self.now (literal_of literal.now) }
    {
        self.set.contains_literal(literal)
    }

    /// Its members, each below the next.
    pub fn iter(&self) -> Literals<'a>
        ensures { literals_left result ≡ self.now }
    {
        Literals {
            values: self.set.iter(),
        }
    }

    /// Whether each member is one of `other` too.
    pub fn is_subset(&self, other: &LiteralSet<'_>) -> bool
        ensures { IsTrue result ↔ ((l : language.Literal) → Contains self.now l → Contains other.now l) }
    {
        self.set.is_subset(other.set)
    }

    /// Whether no member is one of `other`.
    pub fn is_disjoint(&self, other: &LiteralSet<'_>) -> bool
        ensures { IsTrue result ↔ ((l : language.Literal) → Contains self.now l → Contains other.now l → ⊥) }
    {
        self.set.is_disjoint(other.set)
    }
}

/// The members of a set of literals, each below the next.
#[derive(Drop)]
pub struct Literals<'a> {
    values: Iter<'a, Value>,
}

impl<'a> Iterator for Literals<'a> {
    type Item = &'a Literal;

    ghost use Rattle.std.specs.Iterator.{YieldsFirstBy, item_count};
    ghost use Rattle.cedar_literals.specs.Literals.{literal_of};
    ghost use Rattle.cedar_values.specs.LiteralsLeft.{literals_left};

    ghost next_gives = { YieldsFirstBy (λ l. literal_of l.now) literals_left };

    ghost remaining = { item_count literals_left };

    fn next(&mut self) -> Option<&'a Literal> {
        while let Some(value) = self.values.next() {
            if let Some(literal) = value.as_literal() {
                return Some(literal);
            }
        }
        None
    }
}
