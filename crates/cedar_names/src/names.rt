// Names: identifiers of a namespace, and a basename.
ghost use Rattle.std.specs.Prelude.{◌≡◌, ◌≢◌, ◌↔◌, [], ◌∷◌, ◌++◌, IsTrue, IfOk, MatchResult, false};
ghost use Rattle.std.specs.Slice.Iter.{iter_rest};
ghost use Rattle.std.specs.Option.{option_copied};
ghost use Rattle.std.specs.String.{string_bytes};
ghost use Rattle.cedar_names.specs.Identifiers.{reserved};
ghost use Rattle.cedar_names.specs.Names.{name_text, namespace_of, basename_of, is_unqualified, is_reserved_name, qualified};
ghost use Rattle.cedar_names.specs.Reading.{ReadsUnqualifiedInternalName, ReadsUnqualifiedName};

use crate::errors::{ParseNameError, ReservedNameError};
use crate::identifiers::{Id, UnreservedId};
use crate::places::Loc;
use crate::reading::FromNormalizedStr;
use std::alloc::{AllocError, Global};
use std::cmp::Ordering;
use std::fmt;
use std::hash::{Hash, Hasher};
use std::marker::Model;
use std::rc::Rc;
use std::slice::Iter;

// The identifiers of a name, and where it was written.
#[derive(Debug, Drop)]
struct Parts {
    components: Vec<Id>,
    loc: Option<Loc>,
}

/// A name, as `A::B::C`: identifiers of a namespace, and a basename after them. Its identifiers may be
/// `__cedar`. Contracts see its identifiers in order, and no place; so do `==`, order and hash.
/// Copies share all of it, so that a name is one handle.
#[derive(Debug)]
pub struct InternalName {
    parts: Rc<Parts>,
}

// By hand, so that letting go of one is a call.
impl Drop for InternalName {
    fn drop(self) {
        let InternalName { parts: _ } = self;
    }
}

impl Model for InternalName {
    ghost use Rattle.std.specs.Prelude.{◌≢◌, []};
    ghost use Rattle.cedar_language.specs.Uid.{Name};

    ghost Value = { Name };

    ghost view = { λ a. a.parts.value.components.items };

    ghost invariant = { λ a. a.parts.value.components.items ≢ [] };
}

impl InternalName {
    // The name of these identifiers.
    fn of_components(
        alloc: Global,
        components: Vec<Id>,
        loc: Option<Loc>,
    ) -> Result<InternalName, AllocError>
        requires { components.items ≢ [] }
        ensures { IfOk result (λ name. name ≡ components.items) }
    {
        let parts = Rc::new(alloc, Parts { components, loc })?;
        Ok(InternalName { parts })
    }

    /// The name `path::basename`; refused for memory alone.
    pub fn new(
        alloc: Global,
        basename: Id,
        path: Vec<Id>,
        loc: Option<Loc>,
    ) -> Result<InternalName, AllocError>
        ensures { IfOk result (λ name. name ≡ path.items ++ basename ∷ []) }
    {
        let mut components = path;
        components.push(basename)?;
        InternalName::of_components(alloc, components, loc)
    }

    /// The name without a namespace; refused for memory alone.
    pub fn unqualified_name(
        alloc: Global,
        basename: Id,
        loc: Option<Loc>,
    ) -> Result<InternalName, AllocError>
        ensures { IfOk result (λ name. name ≡ basename ∷ []) }
    {
        InternalName::new(alloc, basename, Vec::new(alloc), loc)
    }

    /// The last identifier.
    pub fn basename(&self) -> &Id
        ensures basename { result.now ≡ basename_of self.now }
        ensures last { self.now ≡ namespace_of self.now ++ result.now ∷ [] }
    {
        &self.parts.components[self.parts.components.len() - 1]
    }

    /// The identifiers of the namespace, from the outermost.
    pub fn namespace_components(&self) -> Iter<'_, Id>
        ensures { iter_rest result ≡ namespace_of self.now }
    {
        self.parts.components[..self.parts.components.len() - 1].iter()
    }

    /// All identifiers, the basename last.
    pub fn components(&self) -> &[Id]
        ensures components { result.now ≡ self.now }
        ensures some { self.now ≢ [] }
    {
        self.parts.components.as_slice()
    }

    /// Whether it has no namespace.
    pub fn is_unqualified(&self) -> bool
        ensures { result ≡ is_unqualified self.now }
    {
        self.parts.components.len() == 1
    }

    /// Whether one of its identifiers is `__cedar`.
    pub fn is_reserved(&self) -> bool
        ensures { result ≡ is_reserved_name self.now }
    {
        self.parts.components.iter().any(|id| id.is_reserved())
    }

    /// Where it was written, if that is known.
    pub fn loc(&self) -> Option<&Loc> {
        self.parts.loc.as_ref()
    }

    /// The reserved namespace, `__cedar`; refused for memory alone.
    pub fn cedar(alloc: Global) -> Result<InternalName, AllocError>
        ensures { IfOk result (λ name. name ≡ reserved ∷ []) }
    {
        InternalName::unqualified_name(alloc, Id::reserved(alloc)?, None)
    }

    /// Reads a name without a namespace; refused where the text is no identifier, or for memory.
    pub fn parse_unqualified_name(alloc: Global, text: &str) -> Result<InternalName, ParseNameError>
        ensures { ReadsUnqualifiedInternalName text.now result }
    {
        let basename = Id::from_normalized_str(alloc, text)?;
        Ok(InternalName::unqualified_name(alloc, basename, None)?)
    }

    /// The name `namespace::basename`; refused for memory alone.
    pub fn type_in_namespace(
        alloc: Global,
        basename: Id,
        namespace: InternalName,
        loc: Option<Loc>,
    ) -> Result<InternalName, AllocError>
        ensures { IfOk result (λ name. name ≡ namespace ++ basename ∷ []) }
    {
        let path = copied(alloc, namespace.components())?;
        InternalName::new(alloc, basename, path, loc)
    }

    /// The namespace's text, `A::B` for `A::B::C`; refused for memory alone.
    pub fn namespace(&self, alloc: Global) -> Result<String, AllocError>
        ensures { IfOk result (λ text. string_bytes text ≡ name_text (namespace_of self.now)) }
    {
        let path = Joined {
            ids: &self.parts.components[..self.parts.components.len() - 1],
        };
        path.to_string(alloc)
    }

    /// The name in `namespace`, where it has no namespace of its own and one is given; the same name
    /// otherwise. Refused for memory alone.
    pub fn qualify_with(
        &self,
        alloc: Global,
        namespace: Option<&InternalName>,
    ) -> Result<InternalName, AllocError>
        ensures { IfOk result (λ name. name ≡ qualified (option_copied namespace.entry) self.now) }
    {
        match namespace {
            Some(namespace) if self.is_unqualified() => {
                let path = copied(alloc, namespace.components())?;
                let basename = self.basename().clone(alloc)?;
                InternalName::new(alloc, basename, path, Clone::clone(&self.parts.loc)?)
            }
            _ => self.clone(alloc),
        }
    }

    /// As `qualify_with`, for a namespace without `__cedar`.
    pub fn qualify_with_name(
        &self,
        alloc: Global,
        namespace: Option<&Name>,
    ) -> Result<InternalName, AllocError>
        ensures { IfOk result (λ name. name ≡ qualified (option_copied namespace.entry) self.now) }
    {
        match namespace {
            Some(namespace) => self.qualify_with(alloc, Some(namespace.as_ref())),
            None => self.clone(alloc),
        }
    }

    /// The same name, written at `loc`, which shares the texts of the identifiers; refused for memory alone.
    pub fn with_loc(&self, alloc: Global, loc: Option<&Loc>) -> Result<InternalName, AllocError>
        ensures { IfOk result (λ name. name ≡ self.now) }
    {
        let loc = match loc {
            Some(loc) => Some(loc.clone(alloc)?),
            None => None,
        };
        InternalName::of_components(alloc, copied(alloc, self.components())?, loc)
    }

    /// A copy that shares the identifiers; refused for memory alone.
    pub fn clone(&self, _alloc: Global) -> Result<InternalName, AllocError>
        ensures { IfOk result (λ copy. copy ≡ self.now) }
    {
        Clone::clone(self)
    }
}

/// Copies of these identifiers, which share their texts; refused for memory alone.
fn copied(alloc: Global, ids: &[Id]) -> Result<Vec<Id>, AllocError>
    ensures { IfOk result (λ copies. copies.items ≡ ids.now) }
{
    let mut copies = Vec::with_capacity(alloc, ids.len())?;
    for id in ids {
        copies.push(id.clone(alloc)?)?;
    }
    Ok(copies)
}

impl Clone for InternalName {
    ghost is_clone = { λ name copy. copy ≡ name };

    fn clone(&self) -> Result<InternalName, AllocError> {
        Ok(InternalName {
            parts: self.parts.clone()?,
        })
    }
}

impl PartialEq for InternalName {
    ghost use Rattle.cedar_language.specs.Order.{same_name};
    ghost use Rattle.cedar_names.specs.Laws.{same_name_partial_equiv};

    ghost eq = { same_name };

    ghost laws = { same_name_partial_equiv };

    fn eq(&self, other: &InternalName) -> bool {
        self.parts.components == other.parts.components
    }
}

impl Eq for InternalName {
    ghost use Rattle.cedar_names.specs.Laws.{same_name_equiv};

    ghost laws = { same_name_equiv };
}

impl PartialOrd for InternalName {
    ghost use Rattle.std.specs.Ordering.{as_partial_cmp};
    ghost use Rattle.cedar_language.specs.Order.{name_cmp};
    ghost use Rattle.cedar_names.specs.Laws.{name_cmp_partial};

    ghost partial_cmp = { as_partial_cmp name_cmp };

    ghost laws = { name_cmp_partial };

    fn partial_cmp(&self, other: &InternalName) -> Option<Ordering> {
        Some(self.cmp(other))
    }
}

impl Ord for InternalName {
    ghost use Rattle.std.specs.Prelude.{refl};
    ghost use Rattle.cedar_language.specs.Order.{name_cmp};
    ghost use Rattle.cedar_language.specs.OrderLaws.{name_cmp_total};
    ghost use Rattle.cedar_names.specs.Laws.{name_cmp_ties};

    ghost cmp = { name_cmp };

    ghost total = { name_cmp_total };

    ghost matches_partial_cmp = { λ x y. refl };

    ghost matches_eq = { name_cmp_ties };

    fn cmp(&self, other: &InternalName) -> Ordering {
        self.parts.components.cmp(&other.parts.components)
    }
}

impl Hash for InternalName {
    ghost use Rattle.cedar_names.specs.Names.{name_hash};
    ghost use Rattle.cedar_names.specs.Laws.{name_hash_alike};

    ghost hash_input = { name_hash };

    ghost respects_eq = { name_hash_alike.fed };

    fn hash<H: Hasher>(&self, state: &mut H) {
        self.parts.components.hash(state);
    }
}

/// A name none of whose identifiers is `__cedar`.
#[derive(Debug, PartialEq, Eq, PartialOrd, Ord, Hash, Clone, Drop)]
pub struct Name {
    name: InternalName,
}

impl Model for Name {
    ghost use Rattle.std.specs.Prelude.{◌≡◌, false};
    ghost use Rattle.cedar_language.specs.Uid as language;
    ghost use Rattle.cedar_names.specs.Names.{is_reserved_name};

    ghost Value = { language.Name };

    ghost view = { λ a. a.name };

    ghost invariant = { λ a. is_reserved_name a.name ≡ false };

    ghost inverse = { λ name. record { name = name } };
}

impl Name {
    /// The name without a namespace; refused for memory alone.
    pub fn unqualified_name(
        alloc: Global,
        basename: UnreservedId,
        loc: Option<Loc>,
    ) -> Result<Name, AllocError>
        ensures { IfOk result (λ name. name ≡ basename ∷ []) }
    {
        let name = InternalName::unqualified_name(alloc, Id::from(basename), loc)?;
        Ok(Name { name })
    }

    /// The last identifier.
    pub fn basename_as_ref(&self) -> &Id
        ensures basename { result.now ≡ basename_of self.now }
        ensures last { self.now ≡ namespace_of self.now ++ result.now ∷ [] }
    {
        self.name.basename()
    }

    /// A copy of the last identifier; refused for memory alone.
    pub fn basename(&self, alloc: Global) -> Result<UnreservedId, AllocError>
        ensures { IfOk result (λ basename. basename ≡ basename_of self.now) }
    {
        match UnreservedId::try_from(self.name.basename().clone(alloc)?) {
            Ok(basename) => Ok(basename),
            Err(_) => unreachable!(),
        }
    }

    /// Reads a name without a namespace; refused where the text is no identifier, where it is
    /// `__cedar`, or for memory.
    pub fn parse_unqualified_name(alloc: Global, text: &str) -> Result<Name, ParseNameError>
        ensures { ReadsUnqualifiedName text.now result }
    {
        let basename = UnreservedId::from_normalized_str(alloc, text)?;
        Ok(Name::unqualified_name(alloc, basename, None)?)
    }

    /// Whether it has no namespace.
    pub fn is_unqualified(&self) -> bool
        ensures { result ≡ is_unqualified self.now }
    {
        self.name.is_unqualified()
    }

    /// The name in `namespace`, where it has no namespace of its own and one is given; the same name
    /// otherwise. Refused for memory alone.
    pub fn qualify_with(
        &self,
        alloc: Global,
        namespace: Option<&InternalName>,
    ) -> Result<InternalName, AllocError>
        ensures { IfOk result (λ name. name ≡ qualified (option_copied namespace.entry) self.now) }
    {
        self.name.qualify_with(alloc, namespace)
    }

    /// As `qualify_with`, for a namespace without `__cedar`.
    #[tactic(auto, using(crate::proofs::Qualifying::unreserved_qualified))]
    pub fn qualify_with_name(
        &self,
        alloc: Global,
        namespace: Option<&Name>,
    ) -> Result<Name, AllocError>
        ensures { IfOk result (λ name. name ≡ qualified (option_copied namespace.entry) self.now) }
    {
        match namespace {
            Some(namespace) => {
                let name = self.name.qualify_with(alloc, Some(namespace.as_ref()))?;
                Ok(Name { name })
            }
            None => self.clone(alloc),
        }
    }

    /// The same name, written at `loc`; refused for memory alone.
    pub fn with_loc(&self, alloc: Global, loc: Option<&Loc>) -> Result<Name, AllocError>
        ensures { IfOk result (λ name. name ≡ self.now) }
    {
        let name = self.name.with_loc(alloc, loc)?;
        Ok(Name { name })
    }

    /// Where it was written, if that is known.
    pub fn loc(&self) -> Option<&Loc> {
        self.name.loc()
    }

    /// A copy that shares the identifiers; refused for memory alone.
    pub fn clone(&self, _alloc: Global) -> Result<Name, AllocError>
        ensures { IfOk result (λ copy. copy ≡ self.now) }
    {
        Clone::clone(self)
    }
}

impl AsRef<InternalName> for Name {
    fn as_ref(&self) -> &InternalName
        ensures name { result.now ≡ self.now }
        ensures unreserved { is_reserved_name self.now ≡ false }
    {
        &self.name
    }
}

impl From<Name> for InternalName {
    ghost from_gives = { λ unreserved name. name ≡ unreserved };

    fn from(unreserved: Name) -> InternalName {
        unreserved.name
    }
}

impl TryFrom<InternalName> for Name {
    type Error = ReservedNameError;

    ghost use Rattle.std.specs.Prelude.{true, false};

    ghost try_from_gives = { λ name result. MatchResult result (λ made. (made ≡ name) × (is_reserved_name name ≡ false)) (λ error. (error.name ≡ name) × (is_reserved_name name ≡ true)) };

    /// The same name; refused where one of its identifiers is `__cedar`.
    fn try_from(name: InternalName) -> Result<Name, ReservedNameError> {
        if name.is_reserved() {
            return Err(ReservedNameError { name });
        }
        Ok(Name { name })
    }
}

/// Identifiers with `::` between each two.
#[derive(Clone, Copy)]
struct Joined<'a> {
    ids: &'a [Id],
}

impl fmt::Display for Joined<'_> {
    ghost use Rattle.std.specs.Prelude.{Some};
    ghost use Rattle.cedar_names.specs.Names.{name_text};

    ghost output = { λ joined. Some (name_text joined.ids.now) };

    fn fmt<W: fmt::Write>(&self, f: &mut fmt::Formatter<W>) -> fmt::Result {
        if let Some((first, more)) = self.ids.split_first() {
            write!(f, "{first}")?;
            for id in more {
                write!(f, "::{id}")?;
            }
        }
        Ok(())
    }
}

impl fmt::Display for InternalName {
    ghost use Rattle.std.specs.Prelude.{Some};
    ghost use Rattle.cedar_names.specs.Names.{name_text};

    ghost output = { λ name. Some (name_text name) };

    fn fmt<W: fmt::Write>(&self, f: &mut fmt::Formatter<W>) -> fmt::Result {
        let joined = Joined {
            ids: self.components(),
        };
        write!(f, "{joined}")
    }
}
