// Look-ups in what is lent: attributes of records and of entities that are held, and which entities are
// below others.
ghost use Rattle.std.specs.Prelude.{◌≡◌, IfSome, Some, false};
ghost use Rattle.std.specs.FinSet as set;
ghost use Rattle.std.specs.Option.{option_copied, option_map_or};
ghost use Rattle.cedar_entities.specs.Data.{ancestors_of};
ghost use Rattle.cedar_entities.specs.Held.{held_of};
ghost use Rattle.cedar_entities.specs.Store.{held_at};
ghost use Rattle.cedar_entities.specs.declared.store.Entities.{Entities as Store};
ghost use Rattle.cedar_language.specs.Facts.{Facts};
ghost use Rattle.cedar_language.specs.Operators.{truth, found, or_fails, is_there, attribute_held, attribute, is_within};
ghost use Rattle.cedar_language.specs.Order.{same_uid};
ghost use Rattle.cedar_language.specs.Uid.{Uid};
ghost use Rattle.cedar_language.specs.Value.{RecordAttrDoesNotExist, Gives};
ghost use Rattle.cedar_values.specs.Kinds.{keys_of, values_of};
ghost use Rattle.cedar_operators.specs.Store.{HasFacts, IsFound};
ghost use Rattle.cedar_interpreter.specs.Glancing.{value_lent};

use crate::lent::Lent;
use cedar_entities::entity::Entity;
use cedar_entities::store::Entities;
use cedar_literals::uids::EntityUID;
use cedar_names::comparing::is_same;
use cedar_values::values::{Value, ValueKind};
use std::collections::BTreeMap;
use std::rc::RcStr;

/// The entity of this uid, if one is held.
pub(crate) fn held<'a>(entities: &'a Entities, uid: &EntityUID) -> Option<&'a Entity>
    ensures { IsFound entities.now uid.now result }
{
    entities.get(uid)
}

/// The value of an attribute of a record, or of an entity that is held.
// Inlined, since most conditions ask it for each policy.
#[inline(always)]
pub(crate) fn attribute_lent<'a>(
    entities: &'a Entities,
    of: Lent<'a>,
    attr: &str,
) -> Option<Lent<'a>>
    ensures { (facts : Facts) → HasFacts entities.now facts → IfSome result (λ seen. attribute facts attr.now (value_lent of.entry) ≡ Gives (value_lent seen)) }
{
    match of {
        Lent::Entity(uid) => attribute_of_entity(entities, uid, attr),
        Lent::Held(value) => attribute_of_record(value, attr),
        Lent::Bool(_) | Lent::Long(_) | Lent::Text(_) | Lent::Written(_) => None,
    }
}

fn attribute_of_entity<'a>(entities: &'a Entities, uid: &EntityUID, attr: &str) -> Option<Lent<'a>>
    ensures { (facts : Facts) → HasFacts entities.now facts → IfSome result (λ seen. attribute_held attr.now (facts.entity uid.now) ≡ Gives (value_lent seen)) }
{
    let entity = entities.get(uid)?;
    attribute_of_held(entity, attr)
}

/// The value of an attribute of an entity that a store holds.
pub(crate) fn attribute_of_held<'a>(entity: &'a Entity, attr: &str) -> Option<Lent<'a>>
    ensures { (store : Store) (facts : Facts) (uid : Uid) → HasFacts store facts → held_at store uid ≡ Some (held_of entity.now) → IfSome result (λ seen. attribute_held attr.now (facts.entity uid) ≡ Gives (value_lent seen)) }
{
    let part = entity.get(attr)?;
    Lent::of_partial(part)
}

fn attribute_of_record<'a>(value: &'a Value, key: &str) -> Option<Lent<'a>>
    ensures { (facts : Facts) → IfSome result (λ seen. attribute facts key.now value.now ≡ Gives (value_lent seen)) }
{
    match value.value_kind() {
        ValueKind::Record(fields) => field(fields, key),
        ValueKind::Lit(_) | ValueKind::Set(_) | ValueKind::ExtensionValue(_) => None,
    }
}

fn field<'a>(fields: &'a BTreeMap<RcStr, Value>, key: &str) -> Option<Lent<'a>>
    ensures { IfSome result (λ seen. or_fails RecordAttrDoesNotExist (found (keys_of fields.now.entries) (values_of fields.now.entries) key.now) ≡ Gives (value_lent seen)) }
{
    let value = value_at(fields, key)?;
    Some(Lent::of_value(value))
}

/// The most keys of a record that are compared one after another.
const FEW: usize = 8;

// The value under a key. Where keys are few, telling whether two are the same costs less than their order.
fn value_at<'a>(fields: &'a BTreeMap<RcStr, Value>, key: &str) -> Option<&'a Value>
    ensures { option_copied result ≡ found (keys_of fields.now.entries) (values_of fields.now.entries) key.now }
{
    if fields.len() > FEW {
        return value_in_order(fields, key);
    }
    for (name, value) in fields {
        if is_same(name.as_str(), key) {
            return Some(value);
        }
    }
    None
}

// The same by the order of the keys.
fn value_in_order<'a>(fields: &'a BTreeMap<RcStr, Value>, key: &str) -> Option<&'a Value>
    ensures { option_copied result ≡ found (keys_of fields.now.entries) (values_of fields.now.entries) key.now }
{
    match fields.get(key) {
        Some(value) => Some(value),
        None => None,
    }
}

/// Whether a record, or an entity, has an attribute.
pub(crate) fn has_lent(entities: &Entities, of: Lent<'_>, attr: &str) -> Option<bool>
    ensures { (facts : Facts) → HasFacts entities.now facts → IfSome result (λ b. is_there (attribute facts attr.now (value_lent of.entry)) ≡ truth b) }
{
    match of {
        Lent::Entity(uid) => Some(entity_has(entities, uid, attr)),
        Lent::Held(value) => record_has(value, attr),
        Lent::Bool(_) | Lent::Long(_) | Lent::Text(_) | Lent::Written(_) => None,
    }
}

fn entity_has(entities: &Entities, uid: &EntityUID, attr: &str) -> bool
    ensures { (facts : Facts) → HasFacts entities.now facts → is_there (attribute_held attr.now (facts.entity uid.now)) ≡ truth result }
{
    match entities.get(uid) {
        Some(entity) => entity.get(attr).is_some(),
        None => false,
    }
}

fn record_has(value: &Value, key: &str) -> Option<bool>
    ensures { (facts : Facts) → IfSome result (λ b. is_there (attribute facts key.now value.now) ≡ truth b) }
{
    match value.value_kind() {
        ValueKind::Record(fields) => Some(has_field(fields, key)),
        ValueKind::Lit(_) | ValueKind::Set(_) | ValueKind::ExtensionValue(_) => None,
    }
}

fn has_field(fields: &BTreeMap<RcStr, Value>, key: &str) -> bool
    ensures { is_there (or_fails RecordAttrDoesNotExist (found (keys_of fields.now.entries) (values_of fields.now.entries) key.now)) ≡ truth result }
{
    match value_at(fields, key) {
        Some(_) => true,
        None => false,
    }
}

/// Whether both are one: the ids first, in which most entities that are compared differ.
#[inline(always)]
#[tactic(auto, using(crate::proofs::Glanced::same_by_id, crate::proofs::Glanced::differs_by_id))]
pub(crate) fn is_same_uid(uid: &EntityUID, other: &EntityUID) -> bool
    ensures { result ≡ same_uid uid.now other.now }
{
    is_same(uid.eid().as_str(), other.eid().as_str()) && uid.entity_type() == other.entity_type()
}

/// Whether an entity is another one, or below it.
pub(crate) fn is_within(entities: &Entities, uid: &EntityUID, above: &EntityUID) -> bool
    ensures { (facts : Facts) → HasFacts entities.now facts → is_within facts uid.now above.now ≡ result }
{
    *uid == *above || is_below(held(entities, uid), above)
}

/// Whether an entity is below another one, by what a store holds of it, if it does.
pub(crate) fn is_below(entity: Option<&Entity>, above: &EntityUID) -> bool
    ensures { result ≡ option_map_or (λ held. set.contains (ancestors_of held) above.now) (option_copied entity.entry) false }
{
    match entity {
        Some(entity) => entity.is_descendant_of(above),
        None => false,
    }
}
