// Values and the types that they have.

use crate::has_type;
use cedar_literals::literals::Literal;
use cedar_literals::uids::EntityUID;
use cedar_names::errors::ParseNameError;
use cedar_names::texts::SharedText;
use cedar_schema::{AttributeType, SchemaType, TypeName};
use cedar_schema_syntax::Presence;
use cedar_values::values::Value;
use std::alloc::{AllocError, Global};
use std::collections::BTreeMap;
use std::rc::{Rc, RcStr};
use std::test::Fail;

/// A value: of a record its fields, which are longs.
#[derive(Clone, Copy)]
enum Shown<'t> {
    Flag,
    Number,
    Text(&'t str),
    /// The entity "a" of a type.
    Entity(&'t str),
    /// A set of a long and of what else is shown.
    SetWith(&'t str),
    Fields(&'t [&'t str]),
}

/// A type: of records those of a required long `at` and an optional long `by`.
#[derive(Clone, Copy)]
enum Declared {
    Boolean,
    Long,
    String,
    Photos,
    SetOfLongs,
    Records,
}

fn number() -> Value {
    Value::from(Literal::Long(1))
}

fn text(alloc: Global, text: &str) -> Result<Value, AllocError> {
    Ok(Value::from(Literal::String(RcStr::from_str(alloc, text)?)))
}

fn entity(alloc: Global, type_name: &str) -> Result<Value, ParseNameError> {
    let uid = EntityUID::with_eid_and_type(alloc, type_name, "a")?;
    Ok(Value::from(Literal::EntityUID(Rc::new(alloc, uid)?)))
}

fn set_with(alloc: Global, other: &str) -> Result<Value, AllocError> {
    let mut members = Vec::new(alloc);
    members.push(number())?;
    if !other.is_empty() {
        members.push(text(alloc, other)?)?;
    }
    Value::set(alloc, members, None)
}

fn record_of(alloc: Global, names: &[&str]) -> Result<Value, AllocError> {
    let mut fields = Vec::new(alloc);
    for name in names {
        fields.push((RcStr::from_str(alloc, name)?, number()))?;
    }
    Value::record(alloc, fields, None)
}

fn value_of(alloc: Global, shown: Shown<'_>) -> Result<Value, ParseNameError> {
    Ok(match shown {
        Shown::Flag => Value::from(Literal::Bool(true)),
        Shown::Number => number(),
        Shown::Text(words) => text(alloc, words)?,
        Shown::Entity(type_name) => entity(alloc, type_name)?,
        Shown::SetWith(other) => set_with(alloc, other)?,
        Shown::Fields(names) => record_of(alloc, names)?,
    })
}

fn long_attribute(presence: Presence) -> AttributeType {
    AttributeType {
        presence,
        schema_type: SchemaType::Long,
    }
}

fn shared(alloc: Global, text: &str) -> Result<SharedText, AllocError> {
    Ok(SharedText::new(RcStr::from_str(alloc, text)?))
}

fn records(alloc: Global) -> Result<SchemaType, AllocError> {
    let mut attributes = BTreeMap::new(alloc);
    attributes.insert(shared(alloc, "at")?, long_attribute(Presence::Required))?;
    attributes.insert(shared(alloc, "by")?, long_attribute(Presence::Optional))?;
    Ok(SchemaType::Record(Rc::new(alloc, attributes)?))
}

fn photos(alloc: Global) -> Result<SchemaType, AllocError> {
    let mut words = Vec::new(alloc);
    words.push(shared(alloc, "Photo")?)?;
    Ok(SchemaType::Entity(TypeName::new(alloc, words)?))
}

fn type_of(alloc: Global, declared: Declared) -> Result<SchemaType, AllocError> {
    Ok(match declared {
        Declared::Boolean => SchemaType::Boolean,
        Declared::Long => SchemaType::Long,
        Declared::String => SchemaType::String,
        Declared::Photos => photos(alloc)?,
        Declared::SetOfLongs => SchemaType::Set(Rc::new(alloc, SchemaType::Long)?),
        Declared::Records => records(alloc)?,
    })
}

#[test]
fn values_have_the_types_of_their_parts(rt: HostRuntime) -> Result<(), Fail> {
    let cases = [
        ("a Boolean", Shown::Flag, Declared::Boolean, true),
        ("a long", Shown::Number, Declared::Long, true),
        ("no long", Shown::Text("1"), Declared::Long, false),
        ("a string", Shown::Text("x"), Declared::String, true),
        ("an entity", Shown::Entity("Photo"), Declared::Photos, true),
        (
            "of another type",
            Shown::Entity("Album"),
            Declared::Photos,
            false,
        ),
        ("a set", Shown::SetWith(""), Declared::SetOfLongs, true),
        (
            "another element",
            Shown::SetWith("x"),
            Declared::SetOfLongs,
            false,
        ),
        (
            "all attributes",
            Shown::Fields(&["at", "by"]),
            Declared::Records,
            true,
        ),
        (
            "an optional one less",
            Shown::Fields(&["at"]),
            Declared::Records,
            true,
        ),
        (
            "a required one less",
            Shown::Fields(&["by"]),
            Declared::Records,
            false,
        ),
        (
            "one more before them",
            Shown::Fields(&["as", "at"]),
            Declared::Records,
            false,
        ),
        (
            "between them",
            Shown::Fields(&["at", "be"]),
            Declared::Records,
            false,
        ),
        (
            "behind them",
            Shown::Fields(&["at", "by", "to"]),
            Declared::Records,
            false,
        ),
        ("no record", Shown::Number, Declared::Records, false),
    ];
    for (shows, shown, declared, wanted) in cases {
        let value = value_of(rt.alloc(), shown)?;
        assert_eq!(rt;
            has_type(&value, &type_of(rt.alloc(), declared)?),
            wanted,
            "{shows}"
        );
    }
    Ok(())
}
