// The fields of a record, by their keys.
ghost use Rattle.std.specs.Prelude.{◌≡◌, map, option_map};
ghost use Rattle.std.specs.Rc.{rc_str_bytes};
ghost use Rattle.cedar_world.specs.Orders.{text_eq};
ghost use Rattle.cedar_trees.specs.Bare.{bare};
ghost use Rattle.cedar_world.specs.Bodies as world;
ghost use Rattle.cedar_held.specs.Lent.{fields_in, tree_in};

use crate::literals::{entity_of, entries_of, shared_entity_of, string_of};
use cedar_literals::uids::EntityUID;
use cedar_names::comparing;
use cedar_trees::expr::Expr;
use std::collections::BTreeMap;
use std::rc::{Rc, RcStr};

fn is_same(text: &str, other: &str) -> bool
    ensures { result ≡ text_eq text.now other.now }
{
    comparing::is_same(text, other)
}

fn is_one_of(keys: &[&str], key: &str) -> bool
    ensures { result ≡ world.is_one_of (map (λ k. k.now) keys.now) key.now }
{
    for k in keys {
        if is_same(k, key) {
            return true;
        }
    }
    false
}

// Whether no key but these stands there.
pub fn has_only(entries: &BTreeMap<RcStr, Expr>, keys: &[&str]) -> bool
    ensures { result ≡ world.are_among (map (λ k. k.now) keys.now) (fields_in entries.now) }
{
    for (key, _value) in entries {
        if !is_one_of(keys, key.as_str()) {
            return false;
        }
    }
    true
}

// What stands beside a key. Bodies that are read so have few keys, of which telling whether two are the same costs less
// than their order.
pub fn field<'e>(entries: &'e BTreeMap<RcStr, Expr>, key: &str) -> Option<&'e Expr>
    ensures { option_map (λ value. bare value.now) result ≡ world.found key.now (fields_in entries.now) }
{
    for (name, value) in entries {
        if is_same(key, name.as_str()) {
            return Some(value);
        }
    }
    None
}

// The text beside a key; none where none stands there.
pub fn required_string<'e>(entries: &'e BTreeMap<RcStr, Expr>, key: &str) -> Option<&'e RcStr>
    ensures { option_map (λ text. rc_str_bytes text.now) result ≡ world.required world.string_of key.now (fields_in entries.now) }
{
    string_of(field(entries, key)?)
}

// The entity beside a key; none where none stands there.
pub fn required_entity<'e>(entries: &'e BTreeMap<RcStr, Expr>, key: &str) -> Option<&'e EntityUID>
    ensures { option_map (λ uid. uid.now) result ≡ world.required world.entity_of key.now (fields_in entries.now) }
{
    entity_of(field(entries, key)?)
}

/// The entity, where something is given; none where that is no entity.
pub fn entity_if_given(value: Option<&Expr>) -> Option<Option<&Rc<EntityUID>>>
    ensures { option_map (option_map (λ uid. uid.now.value)) result ≡ world.if_there world.entity_of (tree_in value.entry) }
{
    match value {
        None => Some(None),
        Some(value) => Some(Some(shared_entity_of(value)?)),
    }
}

// The entity beside a key, where the key stands there; none where something else stands beside it.
pub fn optional_entity<'e>(
    entries: &'e BTreeMap<RcStr, Expr>,
    key: &str,
) -> Option<Option<&'e EntityUID>>
    ensures { option_map (option_map (λ uid. uid.now)) result ≡ world.optional world.entity_of key.now (fields_in entries.now) }
{
    match entity_if_given(field(entries, key))? {
        None => Some(None),
        Some(uid) => Some(Some(uid)),
    }
}

// The record beside a key, where the key stands there; none where something else stands beside it.
pub fn optional_record<'e>(
    entries: &'e BTreeMap<RcStr, Expr>,
    key: &str,
) -> Option<Option<&'e BTreeMap<RcStr, Expr>>>
    ensures { option_map (option_map (λ found. fields_in found.now)) result ≡ world.optional world.fields_of key.now (fields_in entries.now) }
{
    match field(entries, key) {
        None => Some(None),
        Some(value) => Some(Some(entries_of(value)?)),
    }
}
