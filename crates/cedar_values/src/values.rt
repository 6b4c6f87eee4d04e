// Values and sets: their types, and what contracts see of them.
ghost use Rattle.std.specs.Prelude.{◌≡◌};
ghost use Rattle.cedar_values.specs.Kinds.{value_of};

use crate::extension_values::RepresentableExtensionValue;
use crate::values::lookups::Lookup;
use cedar_literals::literals::Literal;
use cedar_names::places::Loc;
use std::collections::BTreeMap;
use std::fmt;
use std::marker::Model;
use std::rc::{Rc, RcStr};

mod constructors;
mod displays;
mod hashes;
mod literal_sets;
mod lookups;
mod orders;
mod readers;
mod sets;
mod types;
mod uids;

pub use literal_sets::{LiteralSet, Literals};

/// A value, and where it was written, if that is known. Contracts see the value, as the language has
/// it, and no place; so do `==`, order and hash. (Cedar language reference, "Data types".)
#[cycle(value)]
#[derive(Debug)]
pub struct Value {
    value: ValueKind,
    loc: Option<Loc>,
}

impl Drop for Value {
    #[cycle(value)]
    fn drop(self) {
        let Value { value: _, loc: _ } = self;
    }
}

/// What a value is. Contracts see it through `value_of`.
#[cycle(value)]
#[derive(Debug)]
pub enum ValueKind {
    /// A Boolean, a long, a text or an entity.
    Lit(Literal),
    /// A set.
    Set(Set),
    /// A record, by its attributes.
    Record(Rc<BTreeMap<RcStr, Value>>),
    /// A value of an extension type.
    ExtensionValue(Rc<RepresentableExtensionValue>),
}

impl Drop for ValueKind {
    #[cycle(value)]
    fn drop(self) {
        match self {
            ValueKind::Lit(_) => {}
            ValueKind::Set(_) => {}
            ValueKind::Record(_fields) => {}
            ValueKind::ExtensionValue(_) => {}
        }
    }
}

/// A finite set of values. Contracts see its members, each below the next in the order of values: so
/// two sets are one exactly where they have the same members.
#[cycle(value)]
pub struct Set {
    members: Rc<Members>,
}

impl Drop for Set {
    #[cycle(value)]
    fn drop(self) {
        let Set { members: _ } = self;
    }
}

// The members alone are shown, not how they are looked up.
impl fmt::Debug for Set {
    #[cycle(values_debug)]
    fn fmt<W: fmt::Write>(&self, f: &mut fmt::Formatter<W>) -> fmt::Result {
        f.debug_struct("Set")
            .field("authoritative", &self.members)
            .finish()
    }
}

impl fmt::Debug for Members {
    #[cycle(values_debug)]
    fn fmt<W: fmt::Write>(&self, f: &mut fmt::Formatter<W>) -> fmt::Result {
        fmt::Debug::fmt(&self.authoritative, f)
    }
}

// What the copies of a set share: its members, each below the next, and how they are looked up.
#[cycle(value)]
struct Members {
    authoritative: Vec<Value>,
    lookup: Lookup,
}

impl Drop for Members {
    #[cycle(value)]
    fn drop(self) {
        let Members {
            authoritative: _,
            lookup: _,
        } = self;
    }
}

impl Model for Value {
    ghost use Rattle.cedar_language.specs.Value as language;
    ghost use Rattle.cedar_language.specs.OrderLaws.{value_code};
    ghost use Rattle.cedar_values.specs.Sizes.{weigh};

    ghost Value = { language.Value };

    ghost coded = { value_code };

    ghost use Rattle.cedar_values.specs.Kinds.{value_of};

    ghost view = { λ a. value_of a.value };

    ghost size = { weigh };

    ghost use Rattle.std.proofs.Common.{arith};
    ghost use Rattle.cedar_values.specs.Falls.{kind_falls};

    ghost size_decreases = { λ a h. Prim.omega (arith, kind_falls a.value) };
}

impl Model for Set {
    ghost use Rattle.std.specs.Prelude.{List};
    ghost use Rattle.std.specs.List.Sorted.{IsStrictlySortedBy};
    ghost use Rattle.std.specs.Coded.{coded_list};
    ghost use Rattle.cedar_language.specs.Value as language;
    ghost use Rattle.cedar_language.specs.Order.{value_cmp, all_of};
    ghost use Rattle.cedar_language.specs.OrderLaws.{value_code};
    ghost use Rattle.cedar_values.specs.Sizes.{weigh_all};

    ghost Value = { List language.Value };

    ghost coded = { coded_list value_code };

    ghost view = { λ a. a.members.value.authoritative.items };

    ghost use Rattle.cedar_values.specs.Lookups.{FitsMembers};

    ghost invariant = { λ a. (IsStrictlySortedBy value_cmp a.members.value.authoritative.items) × FitsMembers a.members.value.lookup a.members.value.authoritative.items };

    ghost size = { λ vs. weigh_all (all_of vs) };

    ghost use Rattle.std.proofs.Common.{arith};
    ghost use Rattle.cedar_values.specs.Falls.{items_fall};

    ghost size_decreases = { λ a h. Prim.omega (arith, items_fall a.members.value.authoritative.items) };
}

impl Value {
    /// The value of this kind, written at `loc`.
    pub fn new(kind: ValueKind, loc: Option<Loc>) -> Value
        ensures { result ≡ value_of kind }
    {
        Value { value: kind, loc }
    }

    /// The same value, written at `loc`.
    pub fn with_maybe_source_loc(self, loc: Option<Loc>) -> Value
        ensures { result ≡ self }
    {
        let Value { value, loc: _ } = self;
        Value { value, loc }
    }

    /// Which kind of value it is, and what it holds: a literal, a set by its members, a record by its
    /// attributes, or an extension value. Takes no memory, and shows no place of its own; what stands in
    /// it has its places. (Cedar language reference, "Data types".)
    pub fn value_kind(&self) -> &ValueKind
        ensures { value_of result.now ≡ self.now }
    {
        &self.value
    }

    /// Where it was written, if that is known: the range of bytes in the text that it was read from. No
    /// contract says more, since a value's view has no place.
    pub fn source_loc(&self) -> Option<&Loc> {
        self.loc.as_ref()
    }
}
