// Look-ups of attributes, in records and in entities.
ghost use Rattle.std.specs.Prelude.{◌≡◌, ◌∷◌, map, IfOk, List, Option, None};
ghost use Rattle.std.specs.FinMap as finite;
ghost use Rattle.std.specs.Option.{option_map, option_copied};
ghost use Rattle.std.specs.Rc.{rc_str_bytes};
ghost use Rattle.either.specs.declared.Either.TheVariants.{Left};
ghost use Rattle.cedar_language.specs.Uid.{Text};
ghost use Rattle.cedar_language.specs.Facts.{Facts};
ghost use Rattle.cedar_language.specs.Operators.{truth, found, or_fails, is_there, attribute_held, attribute, path_from};
ghost use Rattle.cedar_language.specs.Value as language;
ghost use Rattle.cedar_language.specs.Value.{TypeError, RecordAttrDoesNotExist, EntityAttrDoesNotExist, NonValue, Outcome, Gives, Fails};
ghost use Rattle.cedar_values.specs.Kinds.{keys_of, values_of};
ghost use Rattle.cedar_restricted.specs.PartialValues.{partial_of};
ghost use Rattle.cedar_trees.specs.Bare.{bare};
ghost use Rattle.cedar_extensions.specs.Causes as causes;
ghost use Rattle.cedar_extensions.specs.Causes.{cause_of};
ghost use Rattle.cedar_extensions.specs.Failures.{OfKind, failure_of};
ghost use Rattle.cedar_extensions.specs.Giving.{GivesBy};
ghost use Rattle.cedar_operators.specs.Store.{HasFacts};
ghost use Rattle.cedar_operators.specs.Lookups.{record_in, Shows};

use crate::held::held;
use cedar_entities::entity::Entity;
use cedar_entities::store::Entities;
use cedar_extensions::evaluation_error::EvaluationError;
use cedar_literals::types::Type;
use cedar_literals::uids::EntityUID;
use cedar_restricted::partial_values::PartialValue;
use cedar_trees::expr::Expr;
use cedar_trees::unknowns::NonEmpty;
use cedar_value_operators::any_entity_type;
use cedar_values::values::{Value, ValueKind};
use std::alloc::{AllocError, Global};
use std::collections::BTreeMap;
use std::rc::{Rc, RcStr};

/// What stands at the name of an attribute, or what there is none of.
#[derive(Drop)]
pub enum Lookup<'a> {
    /// A value.
    Value(&'a Value),
    /// What is left of one that depends on something unknown.
    Residual(&'a Expr),
    /// The entity isn't held.
    NoEntity(&'a Rc<EntityUID>),
    /// The entity has no such attribute.
    NoAttribute(&'a Rc<EntityUID>),
    /// The record has no such attribute.
    NoKey,
}

/// What stands at the name of an attribute of a record, or of an entity: one that isn't held is told as such.
///
/// It errs with `TypeError` where `of` is neither, with `NonValue` where a partial store holds no such entity,
/// and with `Memory`.
pub fn find<'a>(
    alloc: Global,
    entities: &'a Entities,
    of: &'a Value,
    attr: &str,
) -> Result<Lookup<'a>, EvaluationError>
    ensures { (facts : Facts) → HasFacts entities.now facts → GivesBy (Shows (λ o. attribute facts attr.now of.now ≡ o))
        (λ k. (attribute facts attr.now of.now ≡ Fails k) × (k ≡ TypeError)) ⊥ result }
{
    match record(of) {
        Some(fields) => Ok(in_record(fields, attr)),
        None => find_in_entity(alloc, entities, of, attr),
    }
}

// What stands at a further name, where a value was found before. TypeError where that has no attributes.
fn find_further<'a>(
    alloc: Global,
    entities: &'a Entities,
    before: Lookup<'a>,
    attr: &str,
) -> Result<Lookup<'a>, EvaluationError>
    ensures { (facts : Facts) (rest : List Text) (meant : Outcome) → HasFacts entities.now facts →
        Shows (λ o. path_from facts (attr.now ∷ rest) o ≡ meant) before.entry →
        GivesBy (Shows (λ o. path_from facts rest o ≡ meant)) (λ k. meant ≡ Fails k) ⊥ result }
{
    match before {
        Lookup::Value(value) => find(alloc, entities, value, attr),
        Lookup::Residual(rest) => Err(still_unknown(alloc, rest)?),
        Lookup::NoEntity(uid) => Ok(Lookup::NoEntity(uid)),
        Lookup::NoAttribute(uid) => Ok(Lookup::NoAttribute(uid)),
        Lookup::NoKey => Ok(Lookup::NoKey),
    }
}

/// What stands at the end of a chain of further names; where a name before the last is missing, that it is.
///
/// It errs with `TypeError` where a value on the way is neither a record nor an entity, with `NonValue` where
/// one isn't known yet or a partial store holds no such entity, and with `Memory`.
pub fn find_along<'a>(
    alloc: Global,
    entities: &'a Entities,
    before: Lookup<'a>,
    attrs: &[RcStr],
) -> Result<Lookup<'a>, EvaluationError>
    ensures { (facts : Facts) (meant : Outcome) → HasFacts entities.now facts →
        Shows (λ o. path_from facts (map rc_str_bytes attrs.now) o ≡ meant) before.entry →
        GivesBy (Shows (λ o. is_there o ≡ meant)) (λ k. meant ≡ Fails k) ⊥ result }
{
    let mut lookup = before;
    for attr in attrs {
        let next = find_further(alloc, entities, lookup, attr.as_str())?;
        lookup = next;
    }
    Ok(lookup)
}

/// Whether something was found: a value, or what is left of one.
pub fn is_found(lookup: Lookup<'_>) -> bool
    ensures { (meant : Outcome) → Shows (λ o. is_there o ≡ meant) lookup.entry → meant ≡ truth result }
{
    match lookup {
        Lookup::Value(_) | Lookup::Residual(_) => true,
        Lookup::NoEntity(_) | Lookup::NoAttribute(_) | Lookup::NoKey => false,
    }
}

/// The error of a residual that a value is asked of: `NonValue`, with that residual. Refused for want of memory
/// alone.
pub fn still_unknown(alloc: Global, residual: &Expr) -> Result<EvaluationError, AllocError>
    ensures kind { IfOk result (λ error. failure_of error ≡ OfKind NonValue) }
    ensures cause { IfOk result (λ error. cause_of error ≡ causes.Residual (bare residual.now)) }
{
    EvaluationError::non_value(alloc, residual.clone(alloc)?)
}

// The attributes of the record that a value is.
fn record(value: &Value) -> Option<&Rc<BTreeMap<RcStr, Value>>>
    ensures { record_in value.now ≡
        option_map (λ fields. (keys_of fields.value.entries, values_of fields.value.entries)) (option_copied result) }
{
    match value.value_kind() {
        ValueKind::Record(fields) => Some(fields),
        ValueKind::Lit(_) | ValueKind::Set(_) | ValueKind::ExtensionValue(_) => None,
    }
}

fn in_record<'a>(fields: &'a BTreeMap<RcStr, Value>, attr: &str) -> Lookup<'a>
    ensures { Shows
        (λ o. or_fails RecordAttrDoesNotExist
        (found (keys_of fields.now.entries) (values_of fields.now.entries) attr.now) ≡ o) result }
{
    match fields.get(attr) {
        Some(value) => Lookup::Value(value),
        None => Lookup::NoKey,
    }
}

// The same for what is no record.
fn find_in_entity<'a>(
    alloc: Global,
    entities: &'a Entities,
    of: &'a Value,
    attr: &str,
) -> Result<Lookup<'a>, EvaluationError>
    ensures { (facts : Facts) → HasFacts entities.now facts → record_in of.now ≡ None →
        GivesBy (Shows (λ o. attribute facts attr.now of.now ≡ o))
        (λ k. (attribute facts attr.now of.now ≡ Fails k) × (k ≡ TypeError)) ⊥ result }
{
    match of.as_entity() {
        Some(uid) => in_entity(alloc, entities, uid, attr),
        None => Err(has_no_attributes(alloc, of)?),
    }
}

fn in_entity<'a>(
    alloc: Global,
    entities: &'a Entities,
    uid: &'a Rc<EntityUID>,
    attr: &str,
) -> Result<Lookup<'a>, EvaluationError>
    ensures { (facts : Facts) → HasFacts entities.now facts →
        GivesBy (Shows (λ o. attribute_held attr.now (facts.entity uid.now.value) ≡ o)) (λ k. ⊥) ⊥ result }
{
    let entity = held(alloc, entities, uid)?;
    match entity {
        Some(entity) => Ok(in_held(uid, entity, attr)),
        None => Ok(Lookup::NoEntity(uid)),
    }
}

fn in_held<'a>(uid: &'a Rc<EntityUID>, entity: &'a Entity, attr: &str) -> Lookup<'a>
    ensures { (v : Option language.Value) → finite.get entity.now.attributes attr.now ≡ option_map Left v →
        Shows (λ o. or_fails EntityAttrDoesNotExist v ≡ o) result }
{
    match entity.get(attr) {
        Some(part) => in_part(part),
        None => Lookup::NoAttribute(uid),
    }
}

fn in_part<'a>(part: &'a PartialValue) -> Lookup<'a>
    ensures { (v : language.Value) → partial_of part.now ≡ Left v → Shows (λ o. Gives v ≡ o) result }
{
    match part {
        PartialValue::Value(value) => Lookup::Value(value),
        PartialValue::Residual(residual) => Lookup::Residual(residual),
    }
}

// The error of a value that has no attributes, as it is neither a record nor an entity; refused for memory
// alone.
fn has_no_attributes(alloc: Global, value: &Value) -> Result<EvaluationError, AllocError>
    ensures { IfOk result (λ error. failure_of error ≡ OfKind TypeError) }
{
    let mut tail = Vec::new(alloc);
    tail.push(any_entity_type(alloc)?)?;
    let head = Type::Record;
    EvaluationError::type_error(alloc, NonEmpty { head, tail }, value)
}
