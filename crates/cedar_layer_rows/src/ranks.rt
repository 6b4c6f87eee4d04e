// Functions of a caller's that make values of a type with an order, and tables with them and without.
ghost use Rattle.std.specs.Prelude.{◌≡◌, IfOk, true, option_map};
ghost use Rattle.std.specs.List.{flat_map};
ghost use Rattle.cedar_language.specs.Order.{all_of, same_name};
ghost use Rattle.cedar_extensions.specs.Holding.{extension_functions, is_named, are_named};
ghost use Rattle.cedar_layer_rows.specs.Ranks.{rank_type, rank_of, key_of, name_of, next_level, level_of_key, level_of, level_in, level_named, rank_answer, up_answer};

use cedar_extensions::extension::Extension;
use cedar_extensions::extensions::Extensions;
use cedar_extensions::functions::{CallStyle, ExtensionFunction, SchemaType};
use cedar_extensions::objects::{CallError, ExtensionFunctionObject};
use cedar_extensions::table_errors::ExtensionInitializationError;
use cedar_literals::literals::Literal;
use cedar_names::names::Name;
use cedar_rows::{Answer, maybe, put};
use cedar_values::extension_values::{Argument, ExtensionValue, RepresentableExtensionValue};
use cedar_values::values::{Value, ValueKind};
use std::alloc::{AllocError, Global};
use std::rc::{Rc, RcStr};

/// A function on ranks.
#[derive(Drop)]
pub(crate) enum Ranks {
    /// The rank of this name.
    Rank,
    /// The rank above this one.
    Up,
}

/// How high a rank is.
#[derive(Clone, Copy)]
enum Level {
    Low,
    Mid,
    High,
}

impl ExtensionFunctionObject for Ranks {
    ghost use Rattle.cedar_layer_rows.specs.Ranks.{answers_of};

    ghost answers = { answers_of };

    fn call(&self, alloc: Global, args: &[Value]) -> Result<Value, CallError> {
        match self.value(alloc, args)? {
            Some(value) => Ok(value),
            None => Err(CallError::NoAnswer(String::from_str(alloc, self.wanted())?)),
        }
    }
}

impl Ranks {
    ghost use Rattle.cedar_layer_rows.specs.Ranks.{value_given};

    /// The value that it gives.
    fn value(&self, alloc: Global, args: &[Value]) -> Result<Option<Value>, AllocError>
        ensures { IfOk result (λ value. value ≡ value_given self.now (all_of args.now)) }
    {
        match self {
            Ranks::Rank => ranked(alloc, rank_answer(args)),
            Ranks::Up => ranked(alloc, up_answer(args)),
        }
    }

    /// For which arguments it has an answer.
    fn wanted(&self) -> &'static str {
        match self {
            Ranks::Rank => "it takes the name of a rank",
            Ranks::Up => "it takes a rank that isn't the highest",
        }
    }
}

fn ranked(alloc: Global, level: Option<Level>) -> Result<Option<Value>, AllocError>
    ensures { IfOk result (λ value. value ≡ option_map rank_of level) }
{
    match level {
        Some(level) => Ok(Some(rank_of(alloc, level)?)),
        None => Ok(None),
    }
}

#[tactic(auto, using(crate::proofs::Counts::rank_answer_none))]
fn rank_answer(args: &[Value]) -> Option<Level>
    ensures { result ≡ rank_answer (all_of args.now) }
{
    let [name] = args else {
        return None;
    };
    level_named(name.as_string()?.as_str())
}

#[tactic(auto, using(crate::proofs::Counts::up_answer_none))]
fn up_answer(args: &[Value]) -> Option<Level>
    ensures { result ≡ up_answer (all_of args.now) }
{
    let [rank] = args else {
        return None;
    };
    next_level(level_in(rank)?)
}

fn next_level(level: Level) -> Option<Level>
    ensures { result ≡ next_level level }
{
    match level {
        Level::Low => Some(Level::Mid),
        Level::Mid => Some(Level::High),
        Level::High => None,
    }
}

fn level_named(text: &str) -> Option<Level>
    ensures { result ≡ level_named text.now }
{
    if text == "low" {
        Some(Level::Low)
    } else if text == "mid" {
        Some(Level::Mid)
    } else if text == "high" {
        Some(Level::High)
    } else {
        None
    }
}

/// The level of a value that is a rank.
fn level_in(value: &Value) -> Option<Level>
    ensures { result ≡ level_in value.now }
{
    match value.value_kind() {
        ValueKind::ExtensionValue(extended) => level_of(extended.value()),
        ValueKind::Lit(_) | ValueKind::Set(_) | ValueKind::Record(_) => None,
    }
}

fn level_of(value: &ExtensionValue) -> Option<Level>
    ensures { result ≡ level_of value.now }
{
    if is_rank_type(value.typename()) && value.supports_operator_overloading() {
        level_of_key(value.key())
    } else {
        None
    }
}

fn is_rank_type(name: &Name) -> bool
    ensures { result ≡ same_name name.now rank_type }
{
    name.is_unqualified() && name.basename_as_ref().as_str() == "rank"
}

fn level_of_key(key: &[u8]) -> Option<Level>
    ensures { result ≡ level_of_key key.now }
{
    if key == b"\0".as_slice() {
        Some(Level::Low)
    } else if key == b"\x01".as_slice() {
        Some(Level::Mid)
    } else if key == b"\x02".as_slice() {
        Some(Level::High)
    } else {
        None
    }
}

/// The rank of this level, which is written as the call of its name.
fn rank_of(alloc: Global, level: Level) -> Result<Value, AllocError>
    ensures { IfOk result (λ value. value ≡ rank_of level) }
{
    let key = vec![in alloc; key_of(level)]?;
    let value = ExtensionValue::new(Name::of_identifier(alloc, "rank")?, true, key);
    let name = Literal::String(RcStr::from_str(alloc, name_of(level))?);
    let args = vec![in alloc; Argument::Lit(name)]?;
    let rank = RepresentableExtensionValue::new(value, Name::of_identifier(alloc, "rank")?, args);
    Ok(Value::new(ValueKind::ExtensionValue(Rc::new(alloc, rank)?), None))
}

fn key_of(level: Level) -> u8
    ensures { result ≡ key_of level }
{
    match level {
        Level::Low => 0,
        Level::Mid => 1,
        Level::High => 2,
    }
}

fn name_of(level: Level) -> &'static str
    ensures { result.now ≡ name_of level }
{
    match level {
        Level::Low => "low",
        Level::Mid => "mid",
        Level::High => "high",
    }
}

/// A table of the built-in function alone, and one with the functions on ranks.
pub(crate) struct Tables<'f> {
    bare: Extensions<'f, Ranks>,
    with_ranks: Extensions<'f, Ranks>,
}

impl Drop for Tables<'_> {
    fn drop(self) {
        let Tables {
            bare: _,
            with_ranks: _,
        } = self;
    }
}

impl<'f> Tables<'f> {
    /// The two tables. Refused for memory alone.
    pub(crate) fn new(alloc: Global) -> Result<Tables<'f>, ExtensionInitializationError> {
        Ok(Tables {
            bare: Extensions::specific_extensions(alloc, bare_extensions(alloc)?)?,
            with_ranks: Extensions::specific_extensions(alloc, extensions(alloc)?)?,
        })
    }

    pub(crate) fn bare(&self) -> &Extensions<'f, Ranks> {
        &self.bare
    }

    pub(crate) fn with_ranks(&self) -> &Extensions<'f, Ranks> {
        &self.with_ranks
    }
}

fn bare_extensions(alloc: Global) -> Result<Vec<Extension<Ranks>>, AllocError>
    ensures { IfOk result (λ extensions. are_named (flat_map extension_functions extensions.items) ≡ true) }
{
    let name = Name::of_identifier(alloc, "partial_evaluation")?;
    let functions = vec![in alloc; unknown(alloc)?]?;
    let extension = Extension::new(name, functions, Vec::new(alloc));
    Ok(vec![in alloc; extension]?)
}

fn extensions(alloc: Global) -> Result<Vec<Extension<Ranks>>, AllocError>
    ensures { IfOk result (λ extensions. are_named (flat_map extension_functions extensions.items) ≡ true) }
{
    let name = Name::of_identifier(alloc, "ranks")?;
    let functions = vec![in alloc; unknown(alloc)?, rank(alloc)?, up(alloc)?]?;
    let ordered = vec![in alloc; Name::of_identifier(alloc, "rank")?]?;
    let extension = Extension::new(name, functions, ordered);
    Ok(vec![in alloc; extension]?)
}

fn unknown(alloc: Global) -> Result<ExtensionFunction<Ranks>, AllocError>
    ensures { IfOk result (λ function. is_named function ≡ true) }
{
    let name = Name::of_identifier(alloc, "unknown")?;
    let (style, arg) = (CallStyle::FunctionStyle, SchemaType::String);
    ExtensionFunction::partial_eval_unknown(alloc, name, style, arg)
}

fn rank(alloc: Global) -> Result<ExtensionFunction<Ranks>, AllocError>
    ensures { IfOk result (λ function. is_named function ≡ true) }
{
    let name = Name::of_identifier(alloc, "rank")?;
    let (style, arg) = (CallStyle::FunctionStyle, SchemaType::String);
    let ty = of_ranks(alloc)?;
    ExtensionFunction::unary(alloc, name, style, Ranks::Rank, ty, arg)
}

fn up(alloc: Global) -> Result<ExtensionFunction<Ranks>, AllocError>
    ensures { IfOk result (λ function. is_named function ≡ true) }
{
    let name = Name::of_identifier(alloc, "up")?;
    let (style, arg) = (CallStyle::MethodStyle, of_ranks(alloc)?);
    let ty = of_ranks(alloc)?;
    ExtensionFunction::unary(alloc, name, style, Ranks::Up, ty, arg)
}

/// The type of ranks.
fn of_ranks(alloc: Global) -> Result<SchemaType, AllocError> {
    let name = Name::of_identifier(alloc, "rank")?;
    Ok(SchemaType::Extension { name })
}

/// A function on ranks of no argument, of two, or of any number.
fn of_count(alloc: Global, count: &str) -> Result<ExtensionFunction<Ranks>, AllocError> {
    let name = Name::of_identifier(alloc, "f")?;
    let (style, ty) = (CallStyle::FunctionStyle, SchemaType::Long);
    match count {
        "nullary" => Ok(ExtensionFunction::nullary(alloc, name, style, Ranks::Rank, ty)),
        "binary" => {
            let args = (SchemaType::Long, SchemaType::Bool);
            ExtensionFunction::binary(alloc, name, style, Ranks::Rank, ty, args)
        }
        _ => {
            let args = vec![in alloc; SchemaType::Set]?;
            Ok(ExtensionFunction::variadic(name, style, Ranks::Rank, ty, args))
        }
    }
}

/// What such a function says of itself, and what it answers to no value.
pub(crate) fn made(alloc: Global, count: &str) -> Answer {
    let function = of_count(alloc, count)?;
    let (name, arity, style) = (function.name(), function.arity(), function.style());
    let mut text = format!(in alloc; "{name} {arity:?} {style:?}")?;
    put(&mut text, " to ", maybe(alloc, function.return_type()))?;
    for ty in function.arg_types() {
        put(&mut text, " of ", ty.to_string(alloc))?;
    }
    match function.call(alloc, &[]) {
        Ok(_output) => put(&mut text, ": ", String::from_str(alloc, "a value"))?,
        Err(error) => put(&mut text, ": ", error.to_string(alloc))?,
    }
    Ok(text)
}
