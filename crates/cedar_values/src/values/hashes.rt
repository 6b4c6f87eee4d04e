// What values feed a hasher.
ghost use Rattle.std.specs.Prelude.{◌≡◌};
ghost use Rattle.std.specs.Hash as fed;
ghost use Rattle.std.specs.List.{fold, flat_map};
ghost use Rattle.cedar_language.specs.Order.{all_of};
ghost use Rattle.cedar_values.specs.Hashes.{value_hash, values_hash};
ghost use Rattle.cedar_values.specs.Kinds.{value_of, keys_of, values_of};

use crate::values::{Set, Value, ValueKind};
use std::collections::BTreeMap;
use std::hash::{Hash, Hasher};
use std::rc::RcStr;

#[cycle(hash_kinds)]
fn hash_kind<H: Hasher>(kind: &ValueKind, state: &mut H)
    ensures { state.new ≡ fold H.write state.old (value_hash (value_of kind.now)) }
{
    match kind {
        ValueKind::Lit(literal) => literal.hash(state),
        ValueKind::Set(set) => {
            state.write_u8(4);
            hash_members(set, state);
        }
        ValueKind::Record(fields) => {
            state.write_u8(5);
            hash_keys(fields, state);
            hash_fields(fields, state);
        }
        ValueKind::ExtensionValue(value) => {
            state.write_u8(6);
            value.value().hash(state);
        }
    }
}

#[cycle(hash_kinds)]
fn hash_members<H: Hasher>(set: &Set, state: &mut H)
    ensures { state.new ≡ fold H.write state.old (values_hash (all_of set.now)) }
{
    for member in set.members.authoritative.iter() {
        hash_kind(&member.value, state);
    }
}

#[cycle(hash_kinds)]
fn hash_fields<H: Hasher>(fields: &BTreeMap<RcStr, Value>, state: &mut H)
    ensures { state.new ≡ fold H.write state.old (values_hash (values_of fields.now.entries)) }
{
    for (_key, value) in fields {
        hash_kind(&value.value, state);
    }
}

fn hash_keys<H: Hasher>(fields: &BTreeMap<RcStr, Value>, state: &mut H)
    ensures { state.new ≡ fold H.write state.old (flat_map fed.str (keys_of fields.now.entries)) }
{
    for (key, _value) in fields {
        key.hash(state);
    }
}

impl Hash for ValueKind {
    ghost use Rattle.cedar_values.specs.Hashes.{value_hash, kinds_alike};
    ghost use Rattle.cedar_values.specs.Kinds.{value_of};

    ghost hash_input = { λ kind. value_hash (value_of kind) };

    ghost respects_eq = { kinds_alike.fed };

    fn hash<H: Hasher>(&self, state: &mut H) {
        hash_kind(self, state);
    }
}

impl Hash for Value {
    ghost use Rattle.cedar_values.specs.Hashes.{value_hash, values_alike};

    ghost hash_input = { value_hash };

    ghost respects_eq = { values_alike.fed };

    fn hash<H: Hasher>(&self, state: &mut H) {
        self.value.hash(state);
    }
}

impl Hash for Set {
    ghost use Rattle.cedar_values.specs.Hashes.{set_hash, sets_alike};

    ghost hash_input = { set_hash };

    ghost respects_eq = { sets_alike.fed };

    fn hash<H: Hasher>(&self, state: &mut H) {
        hash_members(self, state);
    }
}
