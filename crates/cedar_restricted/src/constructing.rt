// Extension values as calls of the language's own constructor, and back.
ghost use Rattle.std.specs.Prelude.{◌≡◌, ◌++◌, IfOk, map, option_map};
ghost use Rattle.cedar_language.specs.Constructing as language;
ghost use Rattle.cedar_language.specs.Constructing.{the_constructor, bytes_of};
ghost use Rattle.cedar_language.specs.Order.{all_of};
ghost use Rattle.cedar_trees.specs.Bare.{bare};
ghost use Rattle.cedar_restricted.specs.Constructing.{byte_in, type_in, long_tree};

use cedar_literals::literals::Literal;
use cedar_literals::uids::{Eid, EntityType, EntityUID};
use cedar_names::names::Name;
use cedar_trees::expr::Expr;
use cedar_values::extension_values::{Argument, ExtensionValue, RepresentableExtensionValue};
use cedar_values::values::{Value, ValueKind};
use std::alloc::{AllocError, Global};
use std::rc::{Rc, RcStr};

// The constructor's name.
fn constructor(alloc: Global) -> Result<Name, AllocError>
    ensures { IfOk result (λ name. name ≡ the_constructor) }
{
    Name::of_identifier(alloc, "extension_value")
}

/// The call of the constructor that gives the extension value; refused for memory alone.
pub(crate) fn construction(alloc: Global, value: &ExtensionValue) -> Result<Expr, AllocError>
    ensures { IfOk result (λ expr. bare expr ≡ language.construction value.now) }
{
    let entity_type = EntityType::from(value.typename().clone(alloc)?);
    let uid = EntityUID::from_components(entity_type, Eid::new(RcStr::from_str(alloc, "")?), None);
    let mut args = Vec::new(alloc);
    args.push(Expr::val(Literal::EntityUID(Rc::new(alloc, uid)?)))?;
    args.push(Expr::val(Literal::Bool(value.supports_operator_overloading())))?;
    push_longs(&mut args, value.key())?;
    Expr::call_extension_fn(alloc, constructor(alloc)?, args)
}

// Adds a long for each byte.
fn push_longs(exprs: &mut Vec<Expr>, bytes: &[u8]) -> Result<(), AllocError>
    ensures { IfOk result (λ _. map bare exprs.new.items ≡ map bare exprs.old.items ++ map long_tree bytes.now) }
{
    for byte in bytes {
        exprs.push(Expr::val(Literal::Long(i64::from(*byte))))?;
    }
    Ok(())
}

/// The extension value that the constructor gives for these arguments: for an entity, whose type is the
/// value's, a Boolean that tells whether the type has an order, and longs, which are the bytes of the
/// key. It gives none for others; refused for memory alone.
pub fn constructed(alloc: Global, args: &[Value]) -> Result<Option<Value>, AllocError>
    ensures { IfOk result (λ value. value ≡ language.constructed (all_of args.now)) }
{
    let Some((first, rest)) = args.split_first() else {
        return Ok(None);
    };
    let Some((second, longs)) = rest.split_first() else {
        return Ok(None);
    };
    let (Some(typename), Some(ordered)) = (type_of(first), second.as_bool()) else {
        return Ok(None);
    };
    let Some(key) = key_of(alloc, longs)? else {
        return Ok(None);
    };
    let value = ExtensionValue::new(typename.clone(alloc)?, ordered, key);
    let value = RepresentableExtensionValue::new(
        value,
        constructor(alloc)?,
        arguments(alloc, args)?,
    );
    Ok(Some(Value::new(ValueKind::ExtensionValue(Rc::new(alloc, value)?), None)))
}

// The literals, as arguments.
fn arguments(alloc: Global, values: &[Value]) -> Result<Vec<Argument>, AllocError> {
    let mut arguments = Vec::new(alloc);
    for value in values {
        if let ValueKind::Lit(literal) = value.value_kind() {
            arguments.push(Argument::Lit(literal.clone()?))?;
        }
    }
    Ok(arguments)
}

// The name of the type of an entity.
fn type_of(value: &Value) -> Option<&Name>
    ensures { option_map (λ name. name.now) result ≡ type_in value.now }
{
    match value.as_entity() {
        Some(uid) => Some(uid.entity_type().name()),
        None => None,
    }
}

fn byte_of(value: &Value) -> Option<u8>
    ensures { result ≡ byte_in value.now }
{
    match value.as_long() {
        Some(n) => u8::try_from(n).ok(),
        None => None,
    }
}

// The bytes that the longs are, where all of them are bytes.
fn key_of(alloc: Global, longs: &[Value]) -> Result<Option<Vec<u8>>, AllocError>
    ensures { IfOk result (λ key. option_map (λ bytes. bytes.items) key ≡ bytes_of (all_of longs.now)) }
{
    let mut key = Vec::new(alloc);
    for long in longs {
        let Some(byte) = byte_of(long) else {
            return Ok(None);
        };
        key.push(byte)?;
    }
    Ok(Some(key))
}
