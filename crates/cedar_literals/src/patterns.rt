// Patterns of `like`.
ghost use Rattle.std.specs.Prelude.{◌≡◌, ◌↔◌, IsTrue, [], map, length};
ghost use Rattle.std.specs.Fmt.{WritesOnOk};
ghost use Rattle.std.specs.Slice.Iter.{iter_rest};
ghost use Rattle.std.specs.Str.{chars};
ghost use Rattle.cedar_language.specs.Pattern.{Matches};
ghost use Rattle.cedar_literals.specs.Patterns.{elem_of, pattern_text};

use crate::escapes::EscapedChar;
use crate::matching;
use cedar_names::conversions::FromIn;
use std::alloc::{AllocError, Global};
use std::cmp::Ordering;
use std::fmt;
use std::hash::{Hash, Hasher};
use std::marker::Model;
use std::rc::Rc;
use std::slice::Iter;

/// An element of a pattern. Contracts see it through `elem_of`. (Cedar language reference, "like
/// (string matching with wildcard)".)
#[derive(Clone, Copy, Debug)]
pub enum PatternElem {
    /// A character that stands for itself.
    Char(char),
    /// Any run of characters, also none.
    Wildcard,
}

impl PartialEq for PatternElem {
    ghost use Rattle.std.specs.Ordering.{eq_by_cmp};
    ghost use Rattle.std.specs.Cmp.{partial_equiv_from_equiv};
    ghost use Rattle.std.proofs.lemmas.Cmp.{eq_by_cmp_equiv};
    ghost use Rattle.cedar_literals.specs.Patterns.{order_of_elems, elems_total};

    ghost eq = { eq_by_cmp order_of_elems };

    ghost laws = { partial_equiv_from_equiv (eq_by_cmp_equiv elems_total) };

    fn eq(&self, other: &PatternElem) -> bool {
        self.cmp(other).is_eq()
    }
}

impl Eq for PatternElem {
    ghost use Rattle.std.proofs.lemmas.Cmp.{eq_by_cmp_equiv};
    ghost use Rattle.cedar_literals.specs.Patterns.{elems_total};

    ghost laws = { eq_by_cmp_equiv elems_total };
}

impl PartialOrd for PatternElem {
    ghost use Rattle.std.specs.Ordering.{as_partial_cmp};
    ghost use Rattle.std.specs.Cmp.{partial_order_from_total};
    ghost use Rattle.cedar_literals.specs.Patterns.{order_of_elems, elems_total};

    ghost partial_cmp = { as_partial_cmp order_of_elems };

    ghost laws = { partial_order_from_total elems_total };

    fn partial_cmp(&self, other: &PatternElem) -> Option<Ordering> {
        Some(self.cmp(other))
    }
}

impl Ord for PatternElem {
    ghost use Rattle.std.specs.Prelude.{refl};
    ghost use Rattle.cedar_literals.specs.Patterns.{order_of_elems, elems_total};

    ghost cmp = { order_of_elems };

    ghost total = { elems_total };

    ghost matches_partial_cmp = { λ x y. refl };

    ghost matches_eq = { λ x y. refl };

    fn cmp(&self, other: &PatternElem) -> Ordering {
        match (self, other) {
            (PatternElem::Char(a), PatternElem::Char(b)) => a.cmp(b),
            (PatternElem::Char(_), PatternElem::Wildcard) => Ordering::Less,
            (PatternElem::Wildcard, PatternElem::Char(_)) => Ordering::Greater,
            (PatternElem::Wildcard, PatternElem::Wildcard) => Ordering::Equal,
        }
    }
}

impl Hash for PatternElem {
    ghost use Rattle.cedar_literals.specs.Patterns.{elem_of, elem_hash, elems_alike};

    ghost hash_input = { λ p. elem_hash (elem_of p) };

    ghost respects_eq = { elems_alike.fed };

    fn hash<H: Hasher>(&self, state: &mut H) {
        match self {
            PatternElem::Char(c) => {
                state.write_u8(0);
                c.hash(state);
            }
            PatternElem::Wildcard => state.write_u8(1),
        }
    }
}

/// A pattern. Contracts see its elements, as the language has them.
#[derive(Debug, Drop)]
pub struct Pattern {
    elems: Rc<Vec<PatternElem>>,
}

impl Model for Pattern {
    ghost use Rattle.std.specs.Prelude.{List, map};
    ghost use Rattle.cedar_language.specs.Tree as tree;

    ghost Value = { List tree.PatternElem };

    ghost use Rattle.cedar_literals.specs.Patterns.{elem_of};

    ghost view = { λ a. map elem_of a.elems.value.items };
}

impl Pattern {
    /// Its elements.
    pub fn get_elems(&self) -> &[PatternElem]
        ensures { map elem_of result.now ≡ self.now }
    {
        self.elems.as_slice()
    }

    /// Its elements, in order.
    pub fn iter(&self) -> Iter<'_, PatternElem>
        ensures { map elem_of (iter_rest result) ≡ self.now }
    {
        self.elems.iter()
    }

    /// How many elements it has.
    pub fn len(&self) -> usize
        ensures { result ≡ length self.now }
    {
        self.elems.len()
    }

    /// Whether it has no element.
    pub fn is_empty(&self) -> bool
        ensures { IsTrue result ↔ (self.now ≡ []) }
    {
        self.elems.is_empty()
    }

    /// Whether the text matches: each character of the pattern stands for itself, and each wildcard for
    /// any run of characters. Takes no memory, and at most n * (m + 1) turns for n characters and m
    /// elements. (Cedar language reference, "like (string matching with wildcard)".)
    pub fn wildcard_match(&self, text: &str) -> bool
        ensures { IsTrue result ↔ Matches self.now (chars text.now) }
    {
        matching::wildcard_match(self.elems.as_slice(), text)
    }
}

impl Clone for Pattern {
    ghost use Rattle.std.specs.Prelude.{◌≡◌};

    ghost is_clone = { λ pattern copy. copy ≡ pattern };

    fn clone(&self) -> Result<Pattern, AllocError> {
        Ok(Pattern {
            elems: self.elems.clone()?,
        })
    }
}

impl PartialEq for Pattern {
    ghost use Rattle.std.specs.Cmp.{partial_equiv_from_equiv};
    ghost use Rattle.cedar_literals.specs.Patterns.{same_pattern, same_pattern_equiv};

    ghost eq = { same_pattern };

    ghost laws = { partial_equiv_from_equiv same_pattern_equiv };

    fn eq(&self, other: &Pattern) -> bool {
        *self.elems == *other.elems
    }
}

impl Eq for Pattern {
    ghost use Rattle.cedar_literals.specs.Patterns.{same_pattern_equiv};

    ghost laws = { same_pattern_equiv };
}

impl PartialOrd for Pattern {
    ghost use Rattle.std.specs.Ordering.{as_partial_cmp};
    ghost use Rattle.cedar_literals.specs.Patterns.{pattern_cmp, pattern_cmp_partial};

    ghost partial_cmp = { as_partial_cmp pattern_cmp };

    ghost laws = { pattern_cmp_partial };

    fn partial_cmp(&self, other: &Pattern) -> Option<Ordering> {
        Some(self.cmp(other))
    }
}

impl Ord for Pattern {
    ghost use Rattle.std.specs.Prelude.{refl};
    ghost use Rattle.cedar_literals.specs.Patterns.{pattern_cmp, pattern_cmp_total, pattern_cmp_ties};

    ghost cmp = { pattern_cmp };

    ghost total = { pattern_cmp_total };

    ghost matches_partial_cmp = { λ x y. refl };

    ghost matches_eq = { pattern_cmp_ties };

    fn cmp(&self, other: &Pattern) -> Ordering {
        self.elems.cmp(&other.elems)
    }
}

impl Hash for Pattern {
    ghost use Rattle.cedar_literals.specs.Patterns.{pattern_hash, patterns_alike};

    ghost hash_input = { pattern_hash };

    ghost respects_eq = { patterns_alike.fed };

    fn hash<H: Hasher>(&self, state: &mut H) {
        self.elems.hash(state);
    }
}

impl From<Rc<Vec<PatternElem>>> for Pattern {
    ghost use Rattle.std.specs.Prelude.{◌≡◌, map};
    ghost use Rattle.cedar_literals.specs.Patterns.{elem_of};

    ghost from_gives = { λ elems pattern. pattern ≡ map elem_of elems.value.items };

    fn from(elems: Rc<Vec<PatternElem>>) -> Pattern {
        Pattern { elems }
    }
}

impl FromIn<Vec<PatternElem>> for Pattern {
    type Error = AllocError;

    ghost use Rattle.std.specs.Prelude.{◌≡◌, IfOk, map};
    ghost use Rattle.cedar_literals.specs.Patterns.{elem_of};

    ghost from_in_gives = { λ elems result. IfOk result (λ pattern. pattern ≡ map elem_of elems.items) };

    fn from_in(alloc: Global, elems: Vec<PatternElem>) -> Result<Pattern, AllocError> {
        Ok(Pattern {
            elems: Rc::new(alloc, elems)?,
        })
    }
}

impl FromIterator<PatternElem> for Pattern {
    type Alloc = Global;

    ghost use Rattle.std.specs.Prelude.{◌≡◌, map};
    ghost use Rattle.cedar_literals.specs.Patterns.{elem_of};

    ghost from_iter_gives = { λ elems pattern. pattern ≡ map elem_of elems };

    fn from_iter<U: IntoIterator<Item = PatternElem>>(
        alloc: Global,
        iter: U,
    ) -> Result<Pattern, AllocError> {
        Pattern::from_in(alloc, Vec::from_iter(alloc, iter)?)
    }
}

impl fmt::Display for PatternElem {
    ghost use Rattle.std.specs.Prelude.{Some};
    ghost use Rattle.cedar_literals.specs.Patterns.{elem_of, elem_text};

    ghost output = { λ elem. Some (elem_text (elem_of elem)) };

    fn fmt<W: fmt::Write>(&self, f: &mut fmt::Formatter<W>) -> fmt::Result {
        match *self {
            PatternElem::Char('*') => write!(f, "\\*"),
            PatternElem::Char(c) => {
                let c = EscapedChar::new(c);
                write!(f, "{c}")
            }
            PatternElem::Wildcard => write!(f, "*"),
        }
    }
}

impl fmt::Display for Pattern {
    ghost use Rattle.std.specs.Prelude.{Some};
    ghost use Rattle.cedar_literals.specs.Patterns.{pattern_text};

    ghost output = { λ pattern. Some (pattern_text pattern) };

    fn fmt<W: fmt::Write>(&self, f: &mut fmt::Formatter<W>) -> fmt::Result {
        write_elems(self.get_elems(), f)
    }
}

fn write_elems<W: fmt::Write>(elems: &[PatternElem], f: &mut fmt::Formatter<W>) -> fmt::Result
    ensures { WritesOnOk W.write_str_gives f.old result (pattern_text (map elem_of elems.now)) f.new }
{
    for elem in elems {
        write!(f, "{elem}")?;
    }
    Ok(())
}
