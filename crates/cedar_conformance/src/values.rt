// Values held against types.
ghost use Rattle.std.specs.Prelude.{◌≡◌, ◌&&◌, Bool, None};
ghost use Rattle.std.specs.Option.{option_copied, option_map};
ghost use Rattle.cedar_language.specs.Order.{all_of, same_name};
ghost use Rattle.cedar_language.specs.Value as language;
ghost use Rattle.cedar_language.specs.Value.{RecordOf};
ghost use Rattle.cedar_typing.specs.Deciding.{is_value_of, fits_at, all_are};
ghost use Rattle.cedar_typing.specs.Types.{Records, same_flag};
ghost use Rattle.cedar_schema.specs.Types.{type_view, attribute_view, fields_of};
ghost use Rattle.cedar_values.specs.Kinds.{keys_of, values_of};
ghost use Rattle.cedar_conformance.specs.Walks.{left_of, value_there};

use crate::names::is_name_of;
use cedar_names::comparing::is_same;
use cedar_names::texts::SharedText;
use cedar_schema::{AttributeType, SchemaType, TypeName};
use cedar_schema_syntax::Presence;
use cedar_values::extension_values::ExtensionValue;
use cedar_values::values::{Value, ValueKind};
use std::collections::BTreeMap;
use std::collections::btree_map::Iter;
use std::rc::RcStr;

/// Whether a value is of a type: each element of a set is of the type of its elements, and a record has no attribute but those
/// declared, each of its type, and all that are required. Of an entity its type alone is looked at. It looks at each part of the
/// value once and takes no memory. (Cedar language reference, "Schema", data types.)
#[cycle(values)]
pub fn has_type(value: &Value, schema_type: &SchemaType) -> bool
    ensures { result ≡ is_value_of (type_view schema_type.now) value.now }
{
    match schema_type {
        SchemaType::Boolean => value.as_bool().is_some(),
        SchemaType::Long => value.as_long().is_some(),
        SchemaType::String => value.as_string().is_some(),
        SchemaType::Entity(name) => match value.as_entity() {
            Some(uid) => is_name_of(uid.entity_type().name(), name),
            None => false,
        },
        SchemaType::Set(element) => match value.as_set() {
            Some(set) => have_type(set.authoritative(), element),
            None => false,
        },
        SchemaType::Record(attributes) => match value.value_kind() {
            ValueKind::Record(fields) => have_attributes(fields, attributes),
            ValueKind::Lit(_) | ValueKind::Set(_) | ValueKind::ExtensionValue(_) => false,
        },
        SchemaType::Extension(name, is_ordered) => match value.as_extension_value() {
            Some(extension) => is_of_extension(extension, name, *is_ordered),
            None => false,
        },
    }
}

// Whether an extension value is of the type of this name, which has an order or none.
fn is_of_extension(extension: &ExtensionValue, name: &TypeName, is_ordered: bool) -> bool
    ensures { result ≡ (same_name extension.now.type_name name.now && same_flag extension.now.ordered is_ordered) }
{
    is_name_of(extension.typename(), name)
        && extension.supports_operator_overloading() == is_ordered
}

// Whether values are all of a type.
#[cycle(values)]
fn have_type(values: &[Value], schema_type: &SchemaType) -> bool
    ensures { result ≡ all_are (is_value_of (type_view schema_type.now)) (all_of values.now) }
{
    for value in values {
        if !has_type(value, schema_type) {
            return false;
        }
    }
    true
}

// Whether a value is of an attribute's type.
#[cycle(values)]
fn is_declared_so(value: &Value, attribute: &AttributeType) -> bool
    ensures { result ≡ is_value_of (attribute_view attribute.now).type value.now }
{
    has_type(value, &attribute.schema_type)
}

// Whether a record may lack an attribute.
fn may_be_missing(attribute: &AttributeType) -> bool
    ensures { (f : language.Value → Bool) → result ≡ fits_at (attribute_view attribute.now).presence f None }
{
    match attribute.presence {
        Presence::Required => false,
        Presence::Optional => true,
    }
}

// Whether a record's fields are as its attributes are declared. Both rise by their names, so that one walk along both is
// enough: a field that isn't declared stays behind.
#[cycle(values)]
pub(crate) fn have_attributes(
    fields: &BTreeMap<RcStr, Value>,
    attributes: &BTreeMap<SharedText, AttributeType>,
) -> bool
    ensures { result ≡ is_value_of (Records (fields_of attributes.now)) (RecordOf (keys_of fields.now.entries) (values_of fields.now.entries)) }
{
    let mut behind = fields.iter();
    let mut ahead = next_field(&mut behind);
    for (name, attribute) in attributes {
        match value_at(ahead, name) {
            Some(value) => {
                if !is_declared_so(value, attribute) {
                    return false;
                }
                ahead = next_field(&mut behind);
            }
            None => {
                if !may_be_missing(attribute) {
                    return false;
                }
            }
        }
    }
    ahead.is_none()
}

// The next field of those that are left, if there is one.
fn next_field<'a>(fields: &mut Iter<'a, RcStr, Value>) -> Option<(&'a RcStr, &'a Value)>
    ensures { fields.old ≡ left_of (option_map (λ e. (e.0.now, e.1.now)) result) fields.new }
{
    match fields.next() {
        Some((key, value)) => Some((key, value)),
        None => None,
    }
}

// The value of a field, where it is of this name.
fn value_at<'a>(field: Option<(&'a RcStr, &'a Value)>, name: &SharedText) -> Option<&'a Value>
    ensures { option_copied result ≡ value_there name.now (option_map (λ e. (e.0.now, e.1.now)) field.entry) }
{
    match field {
        Some((key, value)) => {
            if is_same(key.as_str(), name.as_str()) {
                return Some(value);
            }
            None
        }
        None => None,
    }
}
