// Values that are put on a stack, and what is asked of those on its top.
use crate::names::loc;
use crate::stack::told_place;
use crate::trees::{is_literal, literal};
use crate::{
    Answer, count_of, has, has_each, index, mapped, no_case, number, paired, push, put, said, show,
    taken, tell,
};
use cedar_literals::bounded_display::BoundedToString;
use cedar_literals::literals::Literal;
use cedar_literals::types::StaticallyTyped;
use cedar_names::conversions::FromIn;
use cedar_names::errors::ParseNameError;
use cedar_names::names::Name;
use cedar_values::extension_values::{Argument, ExtensionValue, RepresentableExtensionValue};
use cedar_values::values::{Set, Value, ValueKind};
use std::alloc::{AllocError, Global};
use std::rc::Rc;

/// Values, the last of which is the top.
pub type Stack = Vec<Value>;

/// Puts on the stack what the verb makes of the word, or of the values on top.
pub fn made(alloc: Global, verb: &str, word: &str, stack: &mut Stack) -> Answer {
    match verb {
        "set" | "set-in" | "kind" | "kind-in" | "set-new" => set(alloc, verb, word, stack),
        "set-of-literals" | "kind-of-literals" | "set-from-literals" => {
            literal_set(alloc, verb, word, stack)
        }
        "record" | "record-kind" | "record-arc" => record(alloc, verb, word, stack),
        "empty-set" => push(alloc, stack, Value::empty_set(alloc, None)),
        "empty-record" => push(alloc, stack, Value::empty_record(alloc, None)),
        "empty-kind" => push(alloc, stack, valued(ValueKind::empty_set(alloc))),
        "empty-record-kind" => push(alloc, stack, valued(ValueKind::empty_record(alloc))),
        "no-set" => push(alloc, stack, setted(Set::empty(alloc))),
        _ if is_literal(verb, word) => push(alloc, stack, of_literal(literal(alloc, verb, word))),
        _ => no_case(alloc),
    }
}

fn of_literal(literal: Result<Literal, ParseNameError>) -> Result<Value, ParseNameError> {
    Ok(Value::from(literal?))
}

fn valued(kind: Result<ValueKind, AllocError>) -> Result<Value, AllocError> {
    Ok(Value::new(kind?, None))
}

fn setted(set: Result<Set, AllocError>) -> Result<Value, AllocError> {
    Ok(Value::new(ValueKind::Set(set?), None))
}

/// The value of the type `rank` with this key, or with 0.
fn keyed(alloc: Global, key: &str) -> Result<ExtensionValue, ParseNameError> {
    let key = Vec::from_array(alloc, [key.parse::<u8>().unwrap_or(0)])?;
    let typename = Name::parse_unqualified_name(alloc, "rank")?;
    Ok(ExtensionValue::new(typename, true, key))
}

/// The rank with this key, made by a call of `func`.
pub fn rank(
    alloc: Global,
    key: &str,
    func: &str,
    text: &str,
) -> Result<RepresentableExtensionValue, ParseNameError> {
    let value = keyed(alloc, key)?;
    let func = Name::parse_unqualified_name(alloc, func)?;
    let args = Vec::from_array(alloc, [Argument::Lit(Literal::from_in(alloc, text)?)])?;
    Ok(RepresentableExtensionValue::new(value, func, args))
}

fn extended(
    alloc: Global,
    value: Result<RepresentableExtensionValue, ParseNameError>,
) -> Result<Value, ParseNameError> {
    let value = Rc::new(alloc, value?)?;
    Ok(Value::new(ValueKind::ExtensionValue(value), None))
}

/// Puts the rank with this key on the stack, made by a call of `func`.
pub fn ranked(alloc: Global, text: &str, key: &str, func: &str, stack: &mut Stack) -> Answer {
    push(alloc, stack, extended(alloc, rank(alloc, key, func, text)))
}

/// A set of as many values as the word says.
fn set(alloc: Global, verb: &str, count: &str, stack: &mut Stack) -> Answer {
    if !has(count, stack) {
        return no_case(alloc);
    }
    let values = taken(alloc, number(count), stack)?;
    match verb {
        "set" => push(alloc, stack, Value::set(alloc, values, None)),
        "set-in" => push(alloc, stack, Value::from_in(alloc, values)),
        "kind" => push(alloc, stack, valued(ValueKind::set(alloc, values))),
        "kind-in" => push(alloc, stack, valued(ValueKind::from_in(alloc, values))),
        "set-new" => push(alloc, stack, setted(Set::new(alloc, values))),
        _ => no_case(alloc),
    }
}

/// A set of the number, made as the verb says.
fn literal_set(alloc: Global, verb: &str, word: &str, stack: &mut Stack) -> Answer {
    if !is_literal("long", word) {
        return no_case(alloc);
    }
    let long = Literal::from(word.parse::<i64>().unwrap_or(0));
    let literals = Vec::from_array(alloc, [long])?;
    match verb {
        "set-of-literals" => push(alloc, stack, Value::set_of_lits(alloc, literals, None)),
        "kind-of-literals" => push(
            alloc,
            stack,
            valued(ValueKind::set_of_lits(alloc, literals)),
        ),
        _ => push(alloc, stack, setted(Set::from_lits(alloc, literals))),
    }
}

/// A record of these keys, whose values are on top.
fn record(alloc: Global, verb: &str, keys: &str, stack: &mut Stack) -> Answer {
    if !has_each(keys, stack) {
        return no_case(alloc);
    }
    let values = taken(alloc, count_of(keys), stack)?;
    let pairs = paired(alloc, keys, values)?;
    match verb {
        "record" => push(alloc, stack, Value::record(alloc, pairs, None)),
        "record-kind" => push(alloc, stack, valued(ValueKind::record(alloc, pairs))),
        "record-arc" => {
            let map = mapped(alloc, pairs)?;
            push(
                alloc,
                stack,
                Ok::<_, AllocError>(Value::record_arc(map, None)),
            )
        }
        _ => no_case(alloc),
    }
}

/// What is asked of the values on top, or the topmost one at a place.
pub fn asked(alloc: Global, verb: &str, text: &str, stack: &mut Stack) -> Answer {
    if verb == "placed" {
        return placed(alloc, stack);
    }
    match stack.as_slice() {
        [.., low, high] if verb == "two-placed-alike" => {
            said(alloc, low.eq_and_same_source_loc(high))
        }
        [.., top] => of_one(alloc, verb, text, top),
        [] => no_case(alloc),
    }
}

/// The value on top stands at the bytes 0 to 1.
fn placed(alloc: Global, stack: &mut Stack) -> Answer {
    let loc = loc(alloc, "0", "1")?;
    match stack.pop() {
        Some(value) => push(
            alloc,
            stack,
            Ok::<_, AllocError>(value.with_maybe_source_loc(Some(loc))),
        ),
        None => no_case(alloc),
    }
}

/// The value with so many elements of each set and record, or with all where no word says how many.
fn shown(alloc: Global, count: &str, value: &Value) -> Answer {
    if count.is_empty() {
        return show(alloc, BoundedToString::to_string(value, alloc, None));
    }
    match index(count) {
        Some(count) => show(alloc, BoundedToString::to_string(value, alloc, Some(count))),
        None => no_case(alloc),
    }
}

fn of_one(alloc: Global, verb: &str, text: &str, value: &Value) -> Answer {
    match (verb, value.value_kind()) {
        ("show", _) => shown(alloc, text, value),
        ("type-of", _) => show(alloc, value.type_of(alloc)),
        ("place", _) => told_place(alloc, value.source_loc()),
        ("uids", _) => show_uids(alloc, value),
        ("is-ref", ValueKind::Lit(literal)) => said(alloc, literal.is_ref()),
        ("literal-type", ValueKind::Lit(literal)) => show(alloc, literal.type_of(alloc)),
        ("fast", ValueKind::Set(set)) => show_literals(alloc, set),
        ("copied-set", ValueKind::Set(set)) => show(alloc, setted(set.clone(alloc))),
        ("copied-kind", kind) => show(alloc, valued(kind.clone(alloc))),
        _ => no_case(alloc),
    }
}

/// How many literals a set of literals lends, and each of them behind a semicolon.
fn show_literals(alloc: Global, set: &Set) -> Answer {
    let Some(literals) = set.fast() else {
        return String::from_str(alloc, "None");
    };
    let mut text = tell(alloc, literals.len())?;
    for literal in literals.iter() {
        put(&mut text, ";", literal.to_string(alloc))?;
    }
    Ok(text)
}

/// The ids of the uids in the value, in order.
fn show_uids(alloc: Global, value: &Value) -> Answer {
    let mut text = String::new(alloc);
    for uid in &value.all_literal_uids(alloc)? {
        text.push_str(uid.eid().as_str())?;
        text.push(';')?;
    }
    Ok(text)
}
