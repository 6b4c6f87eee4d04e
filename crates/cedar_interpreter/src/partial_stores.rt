// What a store doesn't know: entities that a partial store doesn't hold, and attributes and tags of which a
// residual is left. What looks for these stays a residual. A store that has facts knows all.
ghost use Rattle.std.specs.Prelude.{◌≡◌, None, false, IfOk, IfSome};
ghost use Rattle.cedar_language.specs.Facts.{Facts};
ghost use Rattle.cedar_operators.specs.Store.{HasFacts};
ghost use Rattle.cedar_restricted.specs.PartialValues.{partial_of};
ghost use Rattle.cedar_restricted.specs.Splitting.{is_residual};

use crate::attributes::Projected;
use cedar_entities::store::{Dereference, Entities};
use cedar_extensions::evaluation_error::EvaluationError;
use cedar_literals::operators::BinaryOp;
use cedar_names::conversions::FromIn;
use cedar_restricted::partial_values::PartialValue;
use cedar_trees::expr::Expr;
use cedar_trees::unknowns::NonEmpty;
use cedar_values::values::{Value, ValueKind};
use std::alloc::{AllocError, Global};
use std::rc::RcStr;

// Whether an operator says that what it looks up isn't known.
fn is_unknown(found: &Result<Value, EvaluationError>) -> bool {
    match found {
        Ok(_) => false,
        Err(error) => matches!(error, EvaluationError::NonValue(_)),
    }
}

// The unknown that stands for an entity which a partial store doesn't hold; refused for memory alone.
fn unheld(alloc: Global, entities: &Entities, value: &Value) -> Result<Option<Expr>, AllocError>
    ensures { (facts : Facts) → HasFacts entities.now facts → IfOk result (λ unknown. unknown ≡ None) }
{
    match value.as_entity() {
        Some(uid) => match entities.entity(alloc, uid)? {
            Dereference::Residual(unknown) => Ok(Some(unknown)),
            Dereference::NoSuchEntity => Ok(None),
            Dereference::Data(_) => Ok(None),
        },
        None => Ok(None),
    }
}

// What stands at an attribute of an entity that is held.
fn attribute_of<'a>(entities: &'a Entities, of: &Value, attr: &str) -> Option<&'a PartialValue>
    ensures { (facts : Facts) → HasFacts entities.now facts → IfSome result (λ part. is_residual (partial_of part.now) ≡ false) }
{
    let uid = of.as_entity()?;
    let entity = entities.get(uid)?;
    entity.get(attr)
}

// What stands at a tag of an entity that is held.
fn tag_of<'a>(entities: &'a Entities, of: &Value, tag: &Value) -> Option<&'a PartialValue>
    ensures { (facts : Facts) → HasFacts entities.now facts → IfSome result (λ part. is_residual (partial_of part.now) ≡ false) }
{
    let uid = of.as_entity()?;
    let entity = entities.get(uid)?;
    let tag = tag.as_string()?;
    entity.get_tag(tag.as_str())
}

// What is left of it, if it isn't known.
fn residual(part: Option<&PartialValue>) -> Option<&Expr>
    ensures { IfSome part.entry (λ part. is_residual (partial_of part.now) ≡ false) → result ≡ None }
{
    match part {
        Some(PartialValue::Residual(rest)) => Some(rest),
        Some(PartialValue::Value(_)) => None,
        None => None,
    }
}

// The value at an attribute of a record, or of an entity that is held.
fn value_at<'a>(entities: &'a Entities, of: &'a Value, attr: &str) -> Option<&'a Value> {
    if let ValueKind::Record(fields) = of.value_kind() {
        return fields.get(attr);
    }
    match attribute_of(entities, of, attr)? {
        PartialValue::Value(value) => Some(value),
        PartialValue::Residual(_) => None,
    }
}

/// What is left of an access, where the store doesn't know the entity: the access to the unknown that stands
/// for it; where it doesn't know the attribute: what is left of that, to be evaluated again. Refused for
/// memory alone.
pub(crate) fn open_attribute(
    alloc: Global,
    found: &Result<Value, EvaluationError>,
    entities: &Entities,
    of: &Value,
    attr: &RcStr,
) -> Result<Option<Projected>, AllocError>
    ensures { (facts : Facts) → HasFacts entities.now facts → IfOk result (λ left. left ≡ None) }
{
    if !is_unknown(found) {
        return Ok(None);
    }
    if let Some(unknown) = unheld(alloc, entities, of)? {
        let access = Expr::get_attr(alloc, unknown, attr.clone()?)?;
        return Ok(Some(Projected::Done(PartialValue::from(access))));
    }
    match residual(attribute_of(entities, of, attr.as_str())) {
        Some(rest) => Ok(Some(Projected::Entry(rest.clone(alloc)?))),
        None => Ok(None),
    }
}

/// What is left of `has` of an attribute, where the store doesn't know the entity. Refused for memory alone.
pub(crate) fn open_has(
    alloc: Global,
    found: &Result<Value, EvaluationError>,
    entities: &Entities,
    of: &Value,
    attr: &RcStr,
) -> Result<Option<PartialValue>, AllocError>
    ensures { (facts : Facts) → HasFacts entities.now facts → IfOk result (λ left. left ≡ None) }
{
    if !is_unknown(found) {
        return Ok(None);
    }
    match unheld(alloc, entities, of)? {
        Some(unknown) => {
            let has = Expr::has_attr(alloc, unknown, attr.clone()?)?;
            Ok(Some(PartialValue::from(has)))
        }
        None => Ok(None),
    }
}

/// What is left of `in`, `getTag` or `hasTag`, where the store doesn't know the entity: the operator of the
/// unknown that stands for it; where it doesn't know the tag: what is left of that. Refused for memory alone.
pub(crate) fn open_pair(
    alloc: Global,
    found: &Result<Value, EvaluationError>,
    entities: &Entities,
    op: BinaryOp,
    left: &Value,
    right: Value,
) -> Result<Option<PartialValue>, AllocError>
    ensures { (facts : Facts) → HasFacts entities.now facts → IfOk result (λ left. left ≡ None) }
{
    if !is_unknown(found) {
        return Ok(None);
    }
    if let Some(unknown) = unheld(alloc, entities, left)? {
        let right = Expr::from_in(alloc, PartialValue::Value(right))?;
        let pair = Expr::binary_app(alloc, op, unknown, right)?;
        return Ok(Some(PartialValue::from(pair)));
    }
    match residual(tag_of(entities, left, &right)) {
        Some(rest) => Ok(Some(PartialValue::from(rest.clone(alloc)?))),
        None => Ok(None),
    }
}

/// What is left of `has` of a chain of attributes, where the store doesn't know an entity or an attribute
/// that the chain leads through: the chain from there on. Refused for memory alone.
pub(crate) fn open_path(
    alloc: Global,
    found: &Result<Value, EvaluationError>,
    entities: &Entities,
    of: &Value,
    attrs: &NonEmpty<RcStr>,
) -> Result<Option<PartialValue>, AllocError>
    ensures { (facts : Facts) → HasFacts entities.now facts → IfOk result (λ left. left ≡ None) }
{
    if !is_unknown(found) {
        return Ok(None);
    }
    open_chain(alloc, entities, of, &attrs.head, &attrs.tail)
}

fn open_chain(
    alloc: Global,
    entities: &Entities,
    of: &Value,
    first: &RcStr,
    others: &[RcStr],
) -> Result<Option<PartialValue>, AllocError>
    ensures { (facts : Facts) → HasFacts entities.now facts → IfOk result (λ left. left ≡ None) }
{
    let mut of = of;
    let mut attr = first;
    let mut rest = others;
    while let Some((next, after)) = rest.split_first() {
        if let Some(unknown) = unheld(alloc, entities, of)? {
            return Ok(Some(chain(alloc, unknown, attr, rest)?));
        }
        if let Some(left) = residual(attribute_of(entities, of, attr.as_str())) {
            return Ok(Some(chain(alloc, left.clone(alloc)?, next, after)?));
        }
        let Some(value) = value_at(entities, of, attr.as_str()) else {
            return Ok(None);
        };
        of = value;
        attr = next;
        rest = after;
    }
    match unheld(alloc, entities, of)? {
        Some(unknown) => Ok(Some(chain(alloc, unknown, attr, rest)?)),
        None => Ok(None),
    }
}

// `has` of the attribute and those after it; refused for memory alone.
fn chain(
    alloc: Global,
    of: Expr,
    attr: &RcStr,
    others: &[RcStr],
) -> Result<PartialValue, AllocError> {
    let mut tail = Vec::new(alloc);
    for other in others {
        tail.push(other.clone()?)?;
    }
    let head = attr.clone()?;
    let has = Expr::extended_has_attr(alloc, of, NonEmpty { head, tail })?;
    Ok(PartialValue::from(has))
}
