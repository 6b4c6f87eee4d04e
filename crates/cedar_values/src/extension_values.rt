// Extension values.
ghost use Rattle.std.specs.Prelude.{◌≡◌};
ghost use Rattle.cedar_language.specs.Constructing.{is_the_constructor};
ghost use Rattle.cedar_language.specs.Tree.{Apply, Call};
ghost use Rattle.cedar_values.specs.Representations.{extension_of, function_of, written_call, written_all};

use cedar_literals::literals::Literal;
use cedar_literals::types::{StaticallyTyped, Type};
use cedar_names::names::Name;
use std::alloc::{AllocError, Global};
use std::cmp::Ordering;
use std::collections::BTreeMap;
use std::hash::{Hash, Hasher};
use std::marker::Model;
use std::rc::{Rc, RcStr};

mod displays;

/// A value of an extension type: the name of the type, whether the type has an order, and the bytes
/// by which values of the type are told apart and ordered. (Cedar language reference, "Extension
/// functions".)
#[derive(Debug)]
pub struct ExtensionValue {
    typename: Name,
    supports_operator_overloading: bool,
    key: Vec<u8>,
}

impl Drop for ExtensionValue {
    fn drop(self) {
        let ExtensionValue {
            typename: _,
            supports_operator_overloading: _,
            key: _,
        } = self;
    }
}

impl Model for ExtensionValue {
    ghost use Rattle.cedar_language.specs.Value.{Extension};

    ghost Value = { Extension };

    ghost view = { λ a. record { type_name = a.typename; ordered = a.supports_operator_overloading; key = a.key.items } };
}

impl ExtensionValue {
    /// The value of the type `typename` with these bytes; `<` may compare it where
    /// `supports_operator_overloading`.
    pub fn new(typename: Name, supports_operator_overloading: bool, key: Vec<u8>) -> ExtensionValue
        ensures { result ≡ record { type_name = typename; ordered = supports_operator_overloading; key = key.items } }
    {
        ExtensionValue {
            typename,
            supports_operator_overloading,
            key,
        }
    }

    /// The name of its type, as the extension declares it.
    pub fn typename(&self) -> &Name
        ensures { result.now ≡ self.now.type_name }
    {
        &self.typename
    }

    /// Whether its type has an order, so that `<` and `<=` may compare it.
    pub fn supports_operator_overloading(&self) -> bool
        ensures { result ≡ self.now.ordered }
    {
        self.supports_operator_overloading
    }

    /// The bytes by which it is compared.
    pub fn key(&self) -> &[u8]
        ensures { result.now ≡ self.now.key }
    {
        self.key.as_slice()
    }
}

/// An extension value beside its representation: the function and the arguments that make it. `==`,
/// order and hash look at the value alone.
#[cycle(representation)]
#[derive(Debug)]
pub struct RepresentableExtensionValue {
    value: ExtensionValue,
    func: Name,
    args: Vec<Argument>,
}

impl Drop for RepresentableExtensionValue {
    #[cycle(representation)]
    fn drop(self) {
        let RepresentableExtensionValue {
            value: _,
            func: _,
            args: _,
        } = self;
    }
}

/// An argument of the function that makes an extension value: a value, without places. Contracts see
/// how it is written.
#[cycle(representation)]
#[derive(Debug)]
pub enum Argument {
    /// A Boolean, a long, a text or an entity.
    Lit(Literal),
    /// A set, by its members in the order in which they are written.
    Set(Rc<Vec<Argument>>),
    /// A record, by its attributes.
    Record(Rc<BTreeMap<RcStr, Argument>>),
    /// A value of an extension type, which is written as its representation.
    ExtensionValue(Rc<RepresentableExtensionValue>),
}

impl Drop for Argument {
    #[cycle(representation)]
    fn drop(self) {
        match self {
            Argument::Lit(_) => {}
            Argument::Set(_) => {}
            Argument::Record(_) => {}
            Argument::ExtensionValue(_) => {}
        }
    }
}

impl RepresentableExtensionValue {
    /// The value `value`, which is written as the call of `func` with these arguments.
    pub fn new(
        value: ExtensionValue,
        func: Name,
        args: Vec<Argument>,
    ) -> RepresentableExtensionValue
        ensures value { extension_of result ≡ value }
        ensures written { written_call result ≡ Apply (Call func) (written_all args.items) }
    {
        RepresentableExtensionValue { value, func, args }
    }

    /// The value, without the call that makes it: by this alone it is compared and hashed.
    pub fn value(&self) -> &ExtensionValue
        ensures { result.now ≡ extension_of self.now }
    {
        &self.value
    }

    /// The name of the value's type, as the extension declares it.
    pub fn typename(&self) -> &Name
        ensures { result.now ≡ (extension_of self.now).type_name }
    {
        self.value.typename()
    }

    /// The name of the function that makes it.
    pub fn func(&self) -> &Name
        ensures { result.now ≡ function_of self.now }
    {
        &self.func
    }

    /// The arguments with which the function makes it.
    pub fn args(&self) -> &[Argument]
        ensures { written_call self.now ≡ Apply (Call (function_of self.now)) (written_all result.now) }
    {
        self.args.as_slice()
    }
}

/// Whether calls of this name are those of the language's own constructor of extension values. No text
/// calls it; it gives a value that stands in an expression again, whatever functions a table has.
pub fn is_constructor(name: &Name) -> bool
    ensures { result ≡ is_the_constructor name.now }
{
    name.is_unqualified() && name.basename_as_ref().as_str() == "extension_value"
}

impl StaticallyTyped for RepresentableExtensionValue {
    ghost use Rattle.cedar_language.specs.Tree.{ExtensionType};
    ghost use Rattle.cedar_values.specs.Representations.{extension_of};

    ghost static_type = { λ value. ExtensionType (extension_of value).type_name };

    fn type_of(&self, alloc: Global) -> Result<Type, AllocError> {
        let name = self.typename().clone(alloc)?;
        Ok(Type::Extension { name })
    }
}

impl PartialEq for ExtensionValue {
    ghost use Rattle.cedar_values.specs.Extensions.{same_extension, same_extension_partial};

    ghost eq = { same_extension };

    ghost laws = { same_extension_partial };

    fn eq(&self, other: &ExtensionValue) -> bool {
        self.cmp(other).is_eq()
    }
}

impl Eq for ExtensionValue {
    ghost use Rattle.cedar_values.specs.Extensions.{same_extension_equiv};

    ghost laws = { same_extension_equiv };
}

impl PartialOrd for ExtensionValue {
    ghost use Rattle.std.specs.Ordering.{as_partial_cmp};
    ghost use Rattle.cedar_values.specs.Extensions.{extension_cmp, extension_cmp_partial};

    ghost partial_cmp = { as_partial_cmp extension_cmp };

    ghost laws = { extension_cmp_partial };

    fn partial_cmp(&self, other: &ExtensionValue) -> Option<Ordering> {
        Some(self.cmp(other))
    }
}

impl Ord for ExtensionValue {
    ghost use Rattle.std.specs.Prelude.{refl};
    ghost use Rattle.cedar_values.specs.Extensions.{extension_cmp, extension_cmp_total};

    ghost cmp = { extension_cmp };

    ghost total = { extension_cmp_total };

    ghost matches_partial_cmp = { λ x y. refl };

    ghost matches_eq = { λ x y. refl };

    fn cmp(&self, other: &ExtensionValue) -> Ordering {
        self.supports_operator_overloading
            .cmp(&other.supports_operator_overloading)
            .then(self.typename.cmp(&other.typename))
            .then(self.key.cmp(&other.key))
    }
}

impl Hash for ExtensionValue {
    ghost use Rattle.cedar_values.specs.Extensions.{extension_hash, extension_hash_alike};

    ghost hash_input = { extension_hash };

    ghost respects_eq = { extension_hash_alike.fed };

    fn hash<H: Hasher>(&self, state: &mut H) {
        self.supports_operator_overloading.hash(state);
        self.typename.hash(state);
        self.key.hash(state);
    }
}

impl PartialEq for RepresentableExtensionValue {
    ghost use Rattle.cedar_values.specs.Representations.{same_represented, same_represented_partial};

    ghost eq = { same_represented };

    ghost laws = { same_represented_partial };

    fn eq(&self, other: &RepresentableExtensionValue) -> bool {
        self.value == other.value
    }
}

impl Eq for RepresentableExtensionValue {
    ghost use Rattle.cedar_values.specs.Representations.{same_represented_equiv};

    ghost laws = { same_represented_equiv };
}

impl PartialOrd for RepresentableExtensionValue {
    ghost use Rattle.std.specs.Ordering.{as_partial_cmp};
    ghost use Rattle.cedar_values.specs.Representations.{represented_cmp, represented_cmp_partial};

    ghost partial_cmp = { as_partial_cmp represented_cmp };

    ghost laws = { represented_cmp_partial };

    fn partial_cmp(&self, other: &RepresentableExtensionValue) -> Option<Ordering> {
        Some(self.cmp(other))
    }
}

impl Ord for RepresentableExtensionValue {
    ghost use Rattle.std.specs.Prelude.{refl};
    ghost use Rattle.cedar_values.specs.Representations.{represented_cmp, represented_cmp_total};

    ghost cmp = { represented_cmp };

    ghost total = { represented_cmp_total };

    ghost matches_partial_cmp = { λ x y. refl };

    ghost matches_eq = { λ x y. refl };

    fn cmp(&self, other: &RepresentableExtensionValue) -> Ordering {
        self.value.cmp(&other.value)
    }
}

impl Hash for RepresentableExtensionValue {
    ghost use Rattle.cedar_values.specs.Representations.{represented_hash, represented_hash_alike};

    ghost hash_input = { represented_hash };

    ghost respects_eq = { represented_hash_alike.fed };

    fn hash<H: Hasher>(&self, state: &mut H) {
        self.value.hash(state);
    }
}
