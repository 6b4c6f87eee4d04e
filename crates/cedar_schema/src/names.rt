// Names of types, by their full paths.
ghost use Rattle.std.specs.Prelude.{◌≡◌, [], ◌∷◌, ◌++◌, IfOk, map};
ghost use Rattle.std.specs.Rc.{rc_str_bytes};
ghost use Rattle.cedar_schema_syntax.specs.View.{name_view, path_view};

use cedar_names::texts::SharedText;
use cedar_schema_syntax::{Name, Path};
use std::alloc::{AllocError, Global};
use std::cmp::Ordering;
use std::fmt;
use std::marker::Model;
use std::rc::{Rc, RcStr};

/// The full name of a type, as `A::B::C`: what a schema declares it by. Contracts see its words, the last of them its own
/// name; so do `==` and the order. Copies share it.
#[derive(Debug, Drop)]
pub struct TypeName {
    words: Rc<Vec<SharedText>>,
}

impl Model for TypeName {
    ghost use Rattle.cedar_language.specs.Uid.{Name};

    ghost Value = { Name };

    ghost view = { λ a. a.words.value.items };
}

// Copies of these words, which share their texts.
fn copied(alloc: Global, words: &[SharedText]) -> Result<Vec<SharedText>, AllocError>
    ensures { IfOk result (λ copies. copies.items ≡ words.now) }
{
    let mut copies = Vec::with_capacity(alloc, words.len())?;
    for word in words {
        copies.push(word.clone()?)?;
    }
    Ok(copies)
}

// Words, and those of a path behind them.
fn with_words(words: Vec<SharedText>, more: &[RcStr]) -> Result<Vec<SharedText>, AllocError>
    ensures { IfOk result (λ all. all.items ≡ words.items ++ map rc_str_bytes more.now) }
{
    let mut all = words;
    for word in more {
        all.push(SharedText::new(word.clone()?))?;
    }
    Ok(all)
}

impl TypeName {
    /// The name of these words; refused for memory alone.
    pub fn new(alloc: Global, words: Vec<SharedText>) -> Result<TypeName, AllocError>
        ensures { IfOk result (λ name. name ≡ words.items) }
    {
        Ok(TypeName {
            words: Rc::new(alloc, words)?,
        })
    }

    /// The name that a path writes; refused for memory alone.
    pub fn from_path(alloc: Global, path: &Path) -> Result<TypeName, AllocError>
        ensures { IfOk result (λ name. name ≡ path_view path.now) }
    {
        let words = with_words(Vec::new(alloc), &path.words)?;
        TypeName::new(alloc, words)
    }

    /// The name of a path's words behind those of a namespace; refused for memory alone.
    pub fn within(
        alloc: Global,
        namespace: &[SharedText],
        path: &Path,
    ) -> Result<TypeName, AllocError>
        ensures { IfOk result (λ name. name ≡ namespace.now ++ path_view path.now) }
    {
        let words = with_words(copied(alloc, namespace)?, &path.words)?;
        TypeName::new(alloc, words)
    }

    /// The name that is declared in a namespace; refused for memory alone.
    pub fn declared(
        alloc: Global,
        namespace: &[SharedText],
        own: &Name,
    ) -> Result<TypeName, AllocError>
        ensures { IfOk result (λ name. name ≡ namespace.now ++ name_view own.now ∷ []) }
    {
        let mut words = copied(alloc, namespace)?;
        words.push(SharedText::new(own.text.clone()?))?;
        TypeName::new(alloc, words)
    }

    /// Its words, the namespace's first.
    pub fn words(&self) -> &[SharedText]
        ensures { result.now ≡ self.now }
    {
        self.words.as_slice()
    }
}

impl Clone for TypeName {
    ghost is_clone = { λ name copy. copy ≡ name };

    fn clone(&self) -> Result<TypeName, AllocError> {
        Ok(TypeName {
            words: self.words.clone()?,
        })
    }
}

impl PartialEq for TypeName {
    ghost use Rattle.cedar_language.specs.Order.{same_name};
    ghost use Rattle.cedar_names.specs.Laws.{same_name_partial_equiv};

    ghost eq = { same_name };

    ghost laws = { same_name_partial_equiv };

    fn eq(&self, other: &TypeName) -> bool {
        *self.words == *other.words
    }
}

impl Eq for TypeName {
    ghost use Rattle.cedar_names.specs.Laws.{same_name_equiv};

    ghost laws = { same_name_equiv };
}

impl PartialOrd for TypeName {
    ghost use Rattle.std.specs.Ordering.{as_partial_cmp};
    ghost use Rattle.cedar_language.specs.Order.{name_cmp};
    ghost use Rattle.cedar_names.specs.Laws.{name_cmp_partial};

    ghost partial_cmp = { as_partial_cmp name_cmp };

    ghost laws = { name_cmp_partial };

    fn partial_cmp(&self, other: &TypeName) -> Option<Ordering> {
        Some(self.cmp(other))
    }
}

impl Ord for TypeName {
    ghost use Rattle.std.specs.Prelude.{refl};
    ghost use Rattle.cedar_language.specs.Order.{name_cmp};
    ghost use Rattle.cedar_language.specs.OrderLaws.{name_cmp_total};
    ghost use Rattle.cedar_names.specs.Laws.{name_cmp_ties};

    ghost cmp = { name_cmp };

    ghost total = { name_cmp_total };

    ghost matches_partial_cmp = { λ x y. refl };

    ghost matches_eq = { name_cmp_ties };

    fn cmp(&self, other: &TypeName) -> Ordering {
        self.words.as_slice().cmp(other.words.as_slice())
    }
}

impl fmt::Display for TypeName {
    fn fmt<W: fmt::Write>(&self, f: &mut fmt::Formatter<W>) -> fmt::Result {
        for (at, word) in self.words.iter().enumerate() {
            if at > 0 {
                f.write_str("::")?;
            }
            f.write_str(word.as_str())?;
        }
        Ok(())
    }
}
