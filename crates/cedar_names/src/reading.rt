// Reading identifiers and names from texts.
ghost use Rattle.std.specs.Prelude.{◌≡◌, [], ◌∷◌, IfOk, List, ℕ, Result};
ghost use Rattle.cedar_names.specs.Identifiers.{IsUnreservedId};
ghost use Rattle.cedar_names.specs.Reading.{ReadsBy};
ghost use Rattle.cedar_names.specs.declared.errors.ParseNameError.{ParseNameError};

use crate::errors::{ParseNameError, ReservedNameError};
use crate::identifiers::{AnyId, Id, UnreservedId, is_id, is_identifier};
use crate::names::{InternalName, Name};
use std::alloc::{AllocError, Global};
use std::rc::RcStr;

/// What can be read from its normalized text: the one that `Display` prints, without white space.
pub trait FromNormalizedStr: Sized {
    ghost reads: { List ℕ → Result Self ParseNameError → Type 0 };

    /// Reads `text`; refused where it isn't normalized, where it holds `__cedar` and none may, or for
    /// memory.
    fn from_normalized_str(alloc: Global, text: &str) -> Result<Self, ParseNameError>
        ensures { reads text.now result };
}

impl FromNormalizedStr for AnyId {
    ghost use Rattle.cedar_names.specs.Reading.{ReadsAnyId};

    ghost reads = { ReadsAnyId };

    fn from_normalized_str(alloc: Global, text: &str) -> Result<AnyId, ParseNameError> {
        if !is_identifier(text) {
            return Err(ParseNameError::NotNormalized);
        }
        Ok(AnyId::new_unchecked(RcStr::from_str(alloc, text)?))
    }
}

impl FromNormalizedStr for Id {
    ghost use Rattle.cedar_names.specs.Reading.{ReadsId};

    ghost reads = { ReadsId };

    fn from_normalized_str(alloc: Global, text: &str) -> Result<Id, ParseNameError> {
        if !is_id(text) {
            return Err(ParseNameError::NotNormalized);
        }
        Ok(Id::new_unchecked(RcStr::from_str(alloc, text)?))
    }
}

impl FromNormalizedStr for UnreservedId {
    ghost use Rattle.cedar_names.specs.Reading.{ReadsUnreservedId};

    ghost reads = { ReadsUnreservedId };

    fn from_normalized_str(alloc: Global, text: &str) -> Result<UnreservedId, ParseNameError> {
        let id = Id::from_normalized_str(alloc, text)?;
        match UnreservedId::try_from(id) {
            Ok(unreserved) => Ok(unreserved),
            Err(id) => {
                let name = InternalName::unqualified_name(alloc, id, None)?;
                Err(ParseNameError::Reserved(ReservedNameError { name }))
            }
        }
    }
}

impl FromNormalizedStr for InternalName {
    ghost use Rattle.cedar_names.specs.Reading.{ReadsInternalName};

    ghost reads = { ReadsInternalName };

    fn from_normalized_str(alloc: Global, text: &str) -> Result<InternalName, ParseNameError> {
        let mut path = Vec::new(alloc);
        let mut rest = text;
        while let Some((component, more)) = rest.split_once("::") {
            path.push(Id::from_normalized_str(alloc, component)?)?;
            rest = more;
        }
        let basename = Id::from_normalized_str(alloc, rest)?;
        Ok(InternalName::new(alloc, basename, path, None)?)
    }
}

impl FromNormalizedStr for Name {
    ghost use Rattle.cedar_names.specs.Reading.{ReadsName};

    ghost reads = { ReadsName };

    fn from_normalized_str(alloc: Global, text: &str) -> Result<Name, ParseNameError> {
        let name = InternalName::from_normalized_str(alloc, text)?;
        Ok(Name::try_from(name)?)
    }
}

impl Name {
    /// The name of this identifier alone, without a namespace, where the identifier is known to be free
    /// to use: no keyword, and not `__cedar`. Refused for memory alone. (Cedar language reference,
    /// "Policy grammar".)
    pub fn of_identifier(alloc: Global, identifier: &str) -> Result<Name, AllocError>
        requires { IsUnreservedId identifier.now }
        ensures { IfOk result (λ name. name ≡ identifier.now ∷ []) }
    {
        match Name::parse_unqualified_name(alloc, identifier) {
            Ok(name) => Ok(name),
            Err(ParseNameError::Memory(error)) => Err(error),
            Err(ParseNameError::NotNormalized) => unreachable!(),
            Err(ParseNameError::Reserved(_)) => unreachable!(),
        }
    }
}
