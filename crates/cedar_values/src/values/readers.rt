// What a value is, where it is of one type. They take no memory.
ghost use Rattle.std.specs.Prelude.{◌≡◌};
ghost use Rattle.std.specs.Option.{option_map, option_copied};
ghost use Rattle.std.specs.Rc.{rc_str_bytes};
ghost use Rattle.cedar_language.specs.Order.{all_of};
ghost use Rattle.cedar_values.specs.Readers.{boolean_in, long_in, text_in, uid_in, members_in, extension_in};

use crate::extension_values::ExtensionValue;
use crate::values::{Set, Value, ValueKind};
use cedar_literals::literals::{Integer, Literal};
use cedar_literals::uids::EntityUID;
use std::rc::{Rc, RcStr};

impl Value {
    /// The Boolean that it is, if it is one. (Cedar language reference, "Data types".)
    pub fn as_bool(&self) -> Option<bool>
        ensures { boolean_in self.now ≡ result }
    {
        match &self.value {
            ValueKind::Lit(literal) => match literal {
                Literal::Bool(b) => Some(*b),
                Literal::Long(_) | Literal::String(_) | Literal::EntityUID(_) => None,
            },
            ValueKind::Set(_) | ValueKind::Record(_) | ValueKind::ExtensionValue(_) => None,
        }
    }

    /// The long that it is, if it is one. (Cedar language reference, "Data types".)
    pub fn as_long(&self) -> Option<Integer>
        ensures { long_in self.now ≡ result }
    {
        match &self.value {
            ValueKind::Lit(literal) => match literal {
                Literal::Long(n) => Some(*n),
                Literal::Bool(_) | Literal::String(_) | Literal::EntityUID(_) => None,
            },
            ValueKind::Set(_) | ValueKind::Record(_) | ValueKind::ExtensionValue(_) => None,
        }
    }

    /// The text that it is, if it is one; a copy of it shares its bytes. (Cedar language reference,
    /// "Data types".)
    pub fn as_string(&self) -> Option<&RcStr>
        ensures { text_in self.now ≡ option_map rc_str_bytes (option_copied result) }
    {
        match &self.value {
            ValueKind::Lit(literal) => match literal {
                Literal::String(text) => Some(text),
                Literal::Bool(_) | Literal::Long(_) | Literal::EntityUID(_) => None,
            },
            ValueKind::Set(_) | ValueKind::Record(_) | ValueKind::ExtensionValue(_) => None,
        }
    }

    /// The entity that it names, if it is one; a copy of it shares its name. (Cedar language reference,
    /// "Data types".)
    pub fn as_entity(&self) -> Option<&Rc<EntityUID>>
        ensures { uid_in self.now ≡ option_map (λ uid. uid.value) (option_copied result) }
    {
        match &self.value {
            ValueKind::Lit(literal) => match literal {
                Literal::EntityUID(uid) => Some(uid),
                Literal::Bool(_) | Literal::Long(_) | Literal::String(_) => None,
            },
            ValueKind::Set(_) | ValueKind::Record(_) | ValueKind::ExtensionValue(_) => None,
        }
    }

    /// The set that it is, if it is one. (Cedar language reference, "Data types".)
    pub fn as_set(&self) -> Option<&Set>
        ensures { members_in self.now ≡ option_map all_of (option_copied result) }
    {
        match &self.value {
            ValueKind::Set(set) => Some(set),
            ValueKind::Lit(_) | ValueKind::Record(_) | ValueKind::ExtensionValue(_) => None,
        }
    }

    /// The extension value that it is, if it is one. (Cedar language reference, "Data types".)
    pub fn as_extension_value(&self) -> Option<&ExtensionValue>
        ensures { extension_in self.now ≡ option_copied result }
    {
        match &self.value {
            ValueKind::ExtensionValue(value) => Some(value.value()),
            ValueKind::Lit(_) | ValueKind::Set(_) | ValueKind::Record(_) => None,
        }
    }
}
