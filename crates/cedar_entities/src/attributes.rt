//! Attributes and tags.
ghost use Rattle.std.specs.Prelude.{◌≡◌, ◌↔◌, IsTrue};
ghost use Rattle.std.specs.Option.{option_map, option_copied};
ghost use Rattle.std.specs.FinMap as finite;
ghost use Rattle.cedar_language.specs.Order.{text_cmp};
ghost use Rattle.cedar_restricted.specs.PartialValues.{partial_of};
ghost use Rattle.cedar_entities.specs.Attributes.{attributes_of, seen_entries};

use cedar_names::comparing::is_same;
use cedar_restricted::partial_values::PartialValue;
use cedar_shapes::shapes::ExprShape;
use std::collections::BTreeMap;
use std::rc::{Rc, RcStr};

/// The attributes of an entity, or its tags: at each name a value or a residual. They are shared.
pub type Attributes = Rc<BTreeMap<RcStr, PartialValue>>;

// The most names that are compared one after another.
const FEW: usize = 8;

// What stands at a name, by a look at each.
fn attribute_named<'a>(
    attributes: &'a BTreeMap<RcStr, PartialValue>,
    name: &str,
) -> Option<&'a PartialValue>
    ensures { option_map partial_of (option_copied result) ≡ finite.find text_cmp name.now (seen_entries attributes.now.entries) }
{
    for (key, attribute) in attributes {
        if is_same(name, key.as_str()) {
            return Some(attribute);
        }
    }
    None
}

/// What stands at a name. Where names are few, telling whether two are the same costs less than their order.
pub(crate) fn attribute_at<'a>(
    attributes: &'a BTreeMap<RcStr, PartialValue>,
    name: &str,
) -> Option<&'a PartialValue>
    ensures { option_map (λ v. partial_of v.now) result ≡ finite.get (attributes_of attributes.now.entries) name.now }
{
    if attributes.len() <= FEW {
        return attribute_named(attributes, name);
    }
    attributes.get(name)
}

// Whether both are one value, or residuals of one shape.
fn same_attribute(a: &PartialValue, b: &PartialValue) -> bool
    ensures { IsTrue result ↔ (partial_of b.now ≡ partial_of a.now) }
{
    match (a, b) {
        (PartialValue::Value(x), PartialValue::Value(y)) => x == y,
        (PartialValue::Residual(x), PartialValue::Residual(y)) => x.eq_shape(y),
        _ => false,
    }
}

fn same_entries(a: &BTreeMap<RcStr, PartialValue>, b: &BTreeMap<RcStr, PartialValue>) -> bool
    ensures { IsTrue result ↔ (seen_entries b.now.entries ≡ seen_entries a.now.entries) }
{
    let mut others = b.iter();
    for (name, attribute) in a {
        match others.next() {
            None => return false,
            Some((other_name, other)) => {
                if *name != *other_name || !same_attribute(attribute, other) {
                    return false;
                }
            }
        }
    }
    others.next().is_none()
}

/// Whether both have the same names, and at each the same.
pub(crate) fn same_attributes(
    a: &BTreeMap<RcStr, PartialValue>,
    b: &BTreeMap<RcStr, PartialValue>,
) -> bool
    ensures { IsTrue result ↔ (attributes_of b.now.entries ≡ attributes_of a.now.entries) }
{
    a.len() == b.len() && same_entries(a, b)
}
