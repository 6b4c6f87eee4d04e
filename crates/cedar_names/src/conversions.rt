// Conversions that take memory, those between identifiers and names, and a name as text.
ghost use Rattle.std.specs.Prelude.{Result};

use crate::errors::ConvertNameError;
use crate::identifiers::{Id, UnreservedId};
use crate::names::{InternalName, Name};
use std::alloc::{AllocError, Global};
use std::fmt;

/// A conversion that takes memory, or may be refused.
pub trait FromIn<X>: Sized {
    type Error;

    // Holds of a value and each result that `from_in` may return for it.
    ghost from_in_gives: { X → Result Self Self.Error → Type 0 };

    /// Converts `value`.
    fn from_in(alloc: Global, value: X) -> Result<Self, Self::Error>
        ensures { from_in_gives value result };
}

impl FromIn<Id> for InternalName {
    type Error = AllocError;

    ghost use Rattle.std.specs.Prelude.{◌≡◌, [], ◌∷◌, IfOk};

    ghost from_in_gives = { λ id result. IfOk result (λ name. name ≡ id ∷ []) };

    fn from_in(alloc: Global, id: Id) -> Result<InternalName, AllocError> {
        InternalName::unqualified_name(alloc, id, None)
    }
}

impl FromIn<UnreservedId> for InternalName {
    type Error = AllocError;

    ghost use Rattle.std.specs.Prelude.{◌≡◌, [], ◌∷◌, IfOk};

    ghost from_in_gives = { λ id result. IfOk result (λ name. name ≡ id ∷ []) };

    fn from_in(alloc: Global, id: UnreservedId) -> Result<InternalName, AllocError> {
        InternalName::unqualified_name(alloc, Id::from(id), None)
    }
}

impl FromIn<UnreservedId> for Name {
    type Error = AllocError;

    ghost use Rattle.std.specs.Prelude.{◌≡◌, [], ◌∷◌, IfOk};

    ghost from_in_gives = { λ id result. IfOk result (λ name. name ≡ id ∷ []) };

    fn from_in(alloc: Global, id: UnreservedId) -> Result<Name, AllocError> {
        Name::unqualified_name(alloc, id, None)
    }
}

impl FromIn<InternalName> for Id {
    type Error = ConvertNameError;

    ghost use Rattle.cedar_names.specs.Converting.{TakesBasename};

    ghost from_in_gives = { TakesBasename };

    /// The basename; refused where the name has a namespace.
    fn from_in(alloc: Global, name: InternalName) -> Result<Id, ConvertNameError> {
        if !name.is_unqualified() {
            return Err(ConvertNameError::HasNamespace);
        }
        Ok(name.basename().clone(alloc)?)
    }
}

impl FromIn<Name> for UnreservedId {
    type Error = ConvertNameError;

    ghost use Rattle.cedar_names.specs.Converting.{TakesBasename};

    ghost from_in_gives = { TakesBasename };

    /// The basename; refused where the name has a namespace.
    fn from_in(alloc: Global, name: Name) -> Result<UnreservedId, ConvertNameError> {
        if !name.is_unqualified() {
            return Err(ConvertNameError::HasNamespace);
        }
        Ok(name.basename(alloc)?)
    }
}

impl fmt::Display for Name {
    ghost use Rattle.std.specs.Prelude.{Some};
    ghost use Rattle.cedar_names.specs.Names.{name_text};

    ghost output = { λ name. Some (name_text name) };

    fn fmt<W: fmt::Write>(&self, f: &mut fmt::Formatter<W>) -> fmt::Result {
        fmt::Display::fmt(self.as_ref(), f)
    }
}
