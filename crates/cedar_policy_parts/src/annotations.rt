// Annotations of policies.
ghost use Rattle.std.specs.Prelude.{◌≡◌, ◌==◌, [], length, IfOk};
ghost use Rattle.std.specs.Option.{option_copied};
ghost use Rattle.std.specs.Rc.{rc_str_bytes};
ghost use Rattle.std.specs.List.Sorted.{IsStrictlySortedBy};
ghost use Rattle.std.specs.Map.{keys_of, lookup};
ghost use Rattle.cedar_language.specs.Order.{same_text, text_cmp};
ghost use Rattle.cedar_policy_parts.specs.Annotations.{text_or_empty};

use cedar_literals::escapes::Escaped;
use cedar_names::identifiers::AnyId;
use cedar_names::places::Loc;
use std::alloc::{AllocError, Global};
use std::cmp::Ordering;
use std::collections::{BTreeMap, btree_map};
use std::convert::AsStr;
use std::fmt;
use std::hash::{Hash, Hasher};
use std::marker::Model;
use std::rc::RcStr;

/// The value of an annotation: a text, and where it was read, if it was. Contracts see the text; so do
/// `==`, order and hash. (Cedar language reference, "Annotations".)
#[derive(Debug, Drop)]
pub struct Annotation {
    val: RcStr,
    loc: Option<Loc>,
}

impl Model for Annotation {
    ghost use Rattle.std.specs.Rc.{rc_str_bytes};
    ghost use Rattle.cedar_language.specs.Uid.{Text};

    ghost Value = { Text };

    ghost view = { λ a. rc_str_bytes a.val };
}

impl Annotation {
    /// The annotation of this value.
    pub fn new(val: RcStr, loc: Option<Loc>) -> Annotation
        ensures { result ≡ rc_str_bytes val }
    {
        Annotation { val, loc }
    }

    /// The annotation of this value, or of the empty text where none is written, as in `@k`. Refused
    /// for memory alone.
    pub fn with_optional_value(
        alloc: Global,
        val: Option<RcStr>,
        loc: Option<Loc>,
    ) -> Result<Annotation, AllocError>
        ensures { IfOk result (λ annotation. annotation ≡ text_or_empty val) }
    {
        let val = match val {
            Some(val) => val,
            None => RcStr::from_str(alloc, "")?,
        };
        Ok(Annotation::new(val, loc))
    }

    /// The value.
    pub fn val(&self) -> &str
        ensures { result.now ≡ self.now }
    {
        self.val.as_str()
    }

    /// Where it was read, if it was. No contract tells places: they are only tested.
    pub fn loc(&self) -> Option<&Loc> {
        self.loc.as_ref()
    }

    /// A copy that shares the text; refused for memory alone.
    pub fn clone(&self, _alloc: Global) -> Result<Annotation, AllocError>
        ensures { IfOk result (λ copy. copy ≡ self.now) }
    {
        Clone::clone(self)
    }
}

impl AsStr for Annotation {
    ghost text = { λ annotation. annotation };

    fn as_str(&self) -> &str {
        self.val()
    }
}

impl Clone for Annotation {
    ghost is_clone = { λ annotation copy. copy ≡ annotation };

    fn clone(&self) -> Result<Annotation, AllocError> {
        Ok(Annotation {
            val: self.val.clone()?,
            loc: self.loc.clone()?,
        })
    }
}

impl PartialEq for Annotation {
    ghost use Rattle.std.specs.Cmp.{partial_equiv_from_equiv};
    ghost use Rattle.std.specs.Cmp.Lexicographic.{nat_list_eq_equiv};
    ghost use Rattle.cedar_language.specs.Order.{same_text};

    ghost eq = { same_text };

    ghost laws = { partial_equiv_from_equiv nat_list_eq_equiv };

    fn eq(&self, other: &Annotation) -> bool {
        self.val == other.val
    }
}

impl Eq for Annotation {
    ghost use Rattle.std.specs.Cmp.Lexicographic.{nat_list_eq_equiv};

    ghost laws = { nat_list_eq_equiv };
}

impl PartialOrd for Annotation {
    ghost use Rattle.std.specs.Ordering.{as_partial_cmp};
    ghost use Rattle.std.specs.Cmp.Lexicographic.{texts_po};
    ghost use Rattle.cedar_language.specs.Order.{text_cmp};

    ghost partial_cmp = { as_partial_cmp text_cmp };

    ghost laws = { texts_po };

    fn partial_cmp(&self, other: &Annotation) -> Option<Ordering> {
        Some(self.cmp(other))
    }
}

impl Ord for Annotation {
    ghost use Rattle.std.specs.Prelude.{refl};
    ghost use Rattle.std.specs.Cmp.Lexicographic.{nat_list_cmp_total, texts_ties};
    ghost use Rattle.cedar_language.specs.Order.{text_cmp};

    ghost cmp = { text_cmp };

    ghost total = { nat_list_cmp_total };

    ghost matches_partial_cmp = { λ x y. refl };

    ghost matches_eq = { texts_ties };

    fn cmp(&self, other: &Annotation) -> Ordering {
        self.val.cmp(&other.val)
    }
}

impl Hash for Annotation {
    ghost use Rattle.std.specs.Hash as fed;
    ghost use Rattle.std.specs.Hash.{same_Alike};
    ghost use Rattle.std.specs.Cmp.Lexicographic.{bytes_decides};

    ghost hash_input = { fed.str };

    ghost respects_eq = { (same_Alike fed.str bytes_decides).fed };

    fn hash<H: Hasher>(&self, state: &mut H) {
        self.val.hash(state);
    }
}

impl fmt::Display for Annotation {
    ghost use Rattle.std.specs.Prelude.{Some, ◌++◌, codes};
    ghost use Rattle.cedar_literals.specs.Escapes.{escaped};

    ghost output = { λ annotation. Some (codes "\"" ++ escaped annotation ++ codes "\"") };

    fn fmt<W: fmt::Write>(&self, f: &mut fmt::Formatter<W>) -> fmt::Result {
        let val = Escaped::new(self.val());
        write!(f, "\"{val}\"")
    }
}

/// The annotations of a policy, by their keys. Contracts see the keys in rising order, each with its
/// text. (Cedar language reference, "Annotations".)
#[derive(Debug, Drop)]
pub struct Annotations {
    entries: BTreeMap<AnyId, Annotation>,
}

impl Model for Annotations {
    ghost use Rattle.std.specs.Prelude.{List};
    ghost use Rattle.cedar_language.specs.Uid.{Text};
    ghost use Rattle.cedar_grammar.specs.Build.{Keyed};

    ghost Value = { List (Keyed Text) };

    ghost view = { λ a. a.entries.entries };
}

impl Annotations {
    /// No annotations.
    pub fn new(alloc: Global) -> Annotations
        ensures { result ≡ [] }
    {
        Annotations {
            entries: BTreeMap::new(alloc),
        }
    }

    /// The annotation of this key, if there is one.
    pub fn get(&self, key: &AnyId) -> Option<&Annotation>
        ensures { option_copied result ≡ lookup (same_text key.now) self.now }
    {
        self.entries.get(key)
    }

    /// The annotations, by their keys in rising order: no key stands twice.
    pub fn iter(&self) -> btree_map::Iter<'_, AnyId, Annotation>
        ensures all { result ≡ self.now }
        ensures rising { IsStrictlySortedBy text_cmp (keys_of self.now) }
    {
        self.entries.iter()
    }

    /// Whether there is none.
    pub fn is_empty(&self) -> bool
        ensures { result ≡ (length self.now == 0) }
    {
        self.entries.is_empty()
    }

    /// A copy that shares the texts and the keys; refused for memory alone.
    pub fn clone(&self, _alloc: Global) -> Result<Annotations, AllocError>
        ensures { IfOk result (λ copy. copy ≡ self.now) }
    {
        Ok(Annotations {
            entries: self.entries.clone()?,
        })
    }
}

impl From<BTreeMap<AnyId, Annotation>> for Annotations {
    ghost from_gives = { λ entries annotations. annotations ≡ entries.entries };

    fn from(entries: BTreeMap<AnyId, Annotation>) -> Annotations {
        Annotations { entries }
    }
}

/// Of two annotations with one key the later one stays; refused for memory alone.
impl FromIterator<(AnyId, Annotation)> for Annotations {
    type Alloc = Global;

    ghost use Rattle.cedar_policy_parts.specs.Annotations.{IsGathered};

    ghost from_iter_gives = { IsGathered };

    fn from_iter<U: IntoIterator<Item = (AnyId, Annotation)>>(
        alloc: Global,
        iter: U,
    ) -> Result<Annotations, AllocError> {
        Ok(Annotations {
            entries: BTreeMap::from_iter(alloc, iter)?,
        })
    }
}

impl PartialEq for Annotations {
    ghost use Rattle.std.specs.Cmp.{partial_equiv_from_equiv};
    ghost use Rattle.cedar_policy_parts.specs.Sameness.{same_annotations, same_annotations_equiv};

    ghost eq = { same_annotations };

    ghost laws = { partial_equiv_from_equiv same_annotations_equiv };

    fn eq(&self, other: &Annotations) -> bool {
        self.entries == other.entries
    }
}

impl Eq for Annotations {
    ghost use Rattle.cedar_policy_parts.specs.Sameness.{same_annotations_equiv};

    ghost laws = { same_annotations_equiv };
}

impl fmt::Display for Annotations {
    fn fmt<W: fmt::Write>(&self, f: &mut fmt::Formatter<W>) -> fmt::Result {
        for (key, annotation) in self.entries.iter() {
            writeln!(f, "@{key}({annotation})")?;
        }
        Ok(())
    }
}

/// The annotations of a policy, each taken out with its key, by their keys in rising order.
#[derive(Drop)]
pub struct IntoIter {
    entries: btree_map::IntoIter<AnyId, Annotation>,
}

impl Model for IntoIter {
    ghost use Rattle.std.specs.Prelude.{List};
    ghost use Rattle.cedar_language.specs.Uid.{Text};
    ghost use Rattle.cedar_grammar.specs.Build.{Keyed};

    ghost Value = { List (Keyed Text) };

    ghost view = { λ a. a.entries };
}

impl Iterator for IntoIter {
    type Item = (AnyId, Annotation);

    ghost use Rattle.std.specs.Iterator.{YieldsFirst, item_count};

    ghost next_gives = { YieldsFirst (λ it. it) };

    ghost remaining = { item_count (λ it. it) };

    fn next(&mut self) -> Option<(AnyId, Annotation)> {
        self.entries.next()
    }
}

impl IntoIterator for Annotations {
    type Item = (AnyId, Annotation);

    type IntoIter = IntoIter;

    ghost into_iter_gives = { λ annotations it. it ≡ annotations };

    fn into_iter(self) -> IntoIter {
        IntoIter {
            entries: self.entries.into_iter(),
        }
    }
}
