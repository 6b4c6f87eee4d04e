// Names of a schema before they are resolved.
ghost use Rattle.std.specs.Prelude.{◌≡◌, ◌<◌, [], ◌∷◌, length, slice_get, Some, None, IfOk, MatchOption, MatchResult};
ghost use Rattle.std.specs.List.{find};
ghost use Rattle.std.specs.Option.{option_copied};
ghost use Rattle.cedar_names.specs.Names.{is_unqualified, qualified};
ghost use Rattle.cedar_names.specs.Raw.{candidates, candidates_of, reference_type_of, raw_of, is_common, is_entity, is_declared};
ghost use Rattle.cedar_names.specs.Reading.{ReadsUnqualifiedInternalName};

use crate::errors::ParseNameError;
use crate::identifiers::{Id, UnreservedId};
use crate::names::{InternalName, Name};
use crate::places::Loc;
use crate::reading::FromNormalizedStr;
use std::alloc::{AllocError, Global};
use std::collections::BTreeSet;
use std::fmt;
use std::marker::Model;
use thiserror::Error;

/// A name as a schema has it, which may still want a namespace.
#[derive(Debug, PartialEq, Eq, PartialOrd, Ord, Hash, Clone, Drop)]
pub struct RawName {
    name: InternalName,
}

impl Model for RawName {
    ghost use Rattle.cedar_language.specs.Uid as language;

    ghost Value = { language.Name };

    ghost view = { λ a. a.name };

    ghost inverse = { λ name. record { name = name } };
}

impl RawName {
    /// The name of one identifier; refused for memory alone.
    pub fn new(alloc: Global, id: Id) -> Result<RawName, AllocError>
        ensures { IfOk result (λ name. name ≡ id ∷ []) }
    {
        let name = InternalName::unqualified_name(alloc, id, None)?;
        Ok(RawName { name })
    }

    /// The name of one identifier, written at `loc`; refused for memory alone.
    pub fn new_from_unreserved(
        alloc: Global,
        id: UnreservedId,
        loc: Option<Loc>,
    ) -> Result<RawName, AllocError>
        ensures { IfOk result (λ name. name ≡ id ∷ []) }
    {
        let name = InternalName::unqualified_name(alloc, Id::from(id), loc)?;
        Ok(RawName { name })
    }

    /// The name with the namespace that it has.
    pub fn from_name(name: InternalName) -> RawName
        ensures { result ≡ name }
    {
        RawName { name }
    }

    /// Reads a name without a namespace; refused where the text is no identifier, or for memory.
    pub fn parse_unqualified_name(alloc: Global, text: &str) -> Result<RawName, ParseNameError>
        ensures { ReadsUnqualifiedInternalName text.now result }
    {
        let name = InternalName::parse_unqualified_name(alloc, text)?;
        Ok(RawName { name })
    }

    /// Whether it is written without a namespace.
    pub fn is_unqualified(&self) -> bool
        ensures { result ≡ is_unqualified self.now }
    {
        self.name.is_unqualified()
    }

    /// Where it was written, if that is known.
    pub fn loc(&self) -> Option<&Loc> {
        self.name.loc()
    }

    /// The name in `namespace`, where it has no namespace of its own and one is given; the same name
    /// otherwise. Refused for memory alone.
    pub fn qualify_with(
        self,
        alloc: Global,
        namespace: Option<&InternalName>,
    ) -> Result<InternalName, AllocError>
        ensures { IfOk result (λ name. name ≡ qualified (option_copied namespace.entry) self) }
    {
        self.name.qualify_with(alloc, namespace)
    }

    /// As `qualify_with`, for a namespace without `__cedar`.
    pub fn qualify_with_name(
        self,
        alloc: Global,
        namespace: Option<&Name>,
    ) -> Result<InternalName, AllocError>
        ensures { IfOk result (λ name. name ≡ qualified (option_copied namespace.entry) self) }
    {
        self.name.qualify_with_name(alloc, namespace)
    }

    /// The name that this one resolves to once all declarations are known: where it has no namespace,
    /// the one in `namespace` before the one in none. Refused for memory alone.
    pub fn conditionally_qualify_with(
        self,
        alloc: Global,
        namespace: Option<&InternalName>,
        reference_type: ReferenceType,
    ) -> Result<ConditionalName, AllocError>
        ensures candidates { IfOk result (λ name. candidates_of name ≡ candidates (option_copied namespace.entry) self) }
        ensures reference_type { IfOk result (λ name. reference_type_of name ≡ reference_type) }
        ensures raw { IfOk result (λ name. raw_of name ≡ self) }
    {
        let mut possibilities = Vec::with_capacity(alloc, 2)?;
        if let Some(namespace) = namespace
            && self.is_unqualified()
        {
            possibilities.push(self.name.qualify_with(alloc, Some(namespace))?)?;
        }
        possibilities.push(self.name.clone(alloc)?)?;
        Ok(ConditionalName {
            possibilities,
            reference_type,
            raw: self,
        })
    }
}

impl FromNormalizedStr for RawName {
    ghost use Rattle.cedar_names.specs.Reading.{ReadsInternalName};

    ghost reads = { ReadsInternalName };

    fn from_normalized_str(alloc: Global, text: &str) -> Result<RawName, ParseNameError> {
        let name = InternalName::from_normalized_str(alloc, text)?;
        Ok(RawName { name })
    }
}

impl fmt::Display for RawName {
    ghost use Rattle.cedar_names.specs.Names.{name_text};

    ghost output = { λ name. Some (name_text name) };

    fn fmt<W: fmt::Write>(&self, f: &mut fmt::Formatter<W>) -> fmt::Result {
        fmt::Display::fmt(&self.name, f)
    }
}

/// What a name of a schema may refer to.
#[derive(Clone, Copy, Debug, PartialEq, Eq, PartialOrd, Ord, Hash)]
pub enum ReferenceType {
    /// A common type.
    Common,
    /// An entity type.
    Entity,
    /// Either.
    CommonOrEntity,
}

/// All names that schemas declare.
#[derive(Debug, Drop)]
pub struct AllDefs {
    pub common_types: BTreeSet<InternalName>,
    pub entity_types: BTreeSet<InternalName>,
}

impl AllDefs {
    /// Whether a common type of this name is declared.
    pub fn is_defined_as_common(&self, name: &InternalName) -> bool
        ensures { result ≡ is_common self.now name.now }
    {
        self.common_types.contains(name)
    }

    /// Whether an entity type of this name is declared.
    pub fn is_defined_as_entity(&self, name: &InternalName) -> bool
        ensures { result ≡ is_entity self.now name.now }
    {
        self.entity_types.contains(name)
    }

    /// Whether something of this name that the reference may mean is declared.
    pub fn is_defined(&self, reference_type: ReferenceType, name: &InternalName) -> bool
        ensures { result ≡ is_declared self.now reference_type name.now }
    {
        match reference_type {
            ReferenceType::Common => self.is_defined_as_common(name),
            ReferenceType::Entity => self.is_defined_as_entity(name),
            ReferenceType::CommonOrEntity => {
                self.is_defined_as_common(name) || self.is_defined_as_entity(name)
            }
        }
    }
}

/// A name that resolves to the first of some candidates that is declared.
#[derive(Debug, PartialEq, Eq, PartialOrd, Ord, Hash, Clone, Drop)]
pub struct ConditionalName {
    possibilities: Vec<InternalName>,
    reference_type: ReferenceType,
    raw: RawName,
}

impl ConditionalName {
    /// The name whose one candidate is `name`; refused for memory alone.
    pub fn unconditional(
        alloc: Global,
        name: InternalName,
        reference_type: ReferenceType,
    ) -> Result<ConditionalName, AllocError>
        ensures candidates { IfOk result (λ made. candidates_of made ≡ name ∷ []) }
        ensures reference_type { IfOk result (λ made. reference_type_of made ≡ reference_type) }
        ensures raw { IfOk result (λ made. raw_of made ≡ name) }
    {
        let mut possibilities = Vec::with_capacity(alloc, 1)?;
        possibilities.push(name.clone(alloc)?)?;
        Ok(ConditionalName {
            possibilities,
            reference_type,
            raw: RawName::from_name(name),
        })
    }

    /// The name as the schema has it.
    pub fn raw(&self) -> &RawName
        ensures { result.now ≡ raw_of self.now }
    {
        &self.raw
    }

    /// Where it was written, if that is known.
    pub fn loc(&self) -> Option<&Loc> {
        self.raw.loc()
    }

    /// The index of the first candidate that is declared.
    fn first_defined(&self, all_defs: &AllDefs) -> Option<usize>
        ensures { let found = find (is_declared all_defs.now (reference_type_of self.now)) (candidates_of self.now) in MatchOption result (found ≡ None) (λ k. (k < length (candidates_of self.now)) × (found ≡ slice_get (candidates_of self.now) k)) }
    {
        for (index, name) in self.possibilities.iter().enumerate() {
            if all_defs.is_defined(self.reference_type, name) {
                return Some(index);
            }
        }
        None
    }

    /// The first candidate that is declared; refused where none is.
    pub fn resolve(self, all_defs: &AllDefs) -> Result<InternalName, TypeNotDefinedError>
        ensures { let found = find (is_declared all_defs.now (reference_type_of self)) (candidates_of self) in MatchResult result (λ name. found ≡ Some name) (λ error. (found ≡ None) × (error.undefined_type ≡ self)) }
    {
        match self.first_defined(all_defs) {
            Some(index) => {
                let mut possibilities = self.possibilities;
                Ok(possibilities.remove(index))
            }
            None => Err(TypeNotDefinedError {
                undefined_type: self,
            }),
        }
    }
}

/// No candidate of a name is declared.
#[derive(Debug, PartialEq, Eq, Clone, Drop, Error)]
#[error("`{}` is not declared", .undefined_type.raw)]
pub struct TypeNotDefinedError {
    pub undefined_type: ConditionalName,
}
