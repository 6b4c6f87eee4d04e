// What tables of extension functions and the functions answer.
ghost use Rattle.std.specs.Prelude.{◌≡◌, IfOk, true};
ghost use Rattle.std.specs.Iterator.{IsFinite};
ghost use Rattle.std.specs.List.{flat_map};
ghost use Rattle.cedar_extensions.specs.Holding.{extension_functions, are_named};

use crate::partial_values::told;
use crate::trees::type_of;
use crate::{Answer, append, no_case, refused, said, tell};
use cedar_extensions::evaluation_error::EvaluationError;
use cedar_extensions::extension::Extension;
use cedar_extensions::extensions::Extensions;
use cedar_extensions::functions::{CallStyle, ExtensionFunction, ExtensionOutputValue, SchemaType};
use cedar_extensions::lookups::ExtensionFunctionLookupError;
use cedar_extensions::table_errors::{
    ExtensionInitializationError, FuncMultiplyDefinedError, MultipleConstructorsSameSignatureError,
};
use cedar_names::errors::ParseNameError;
use cedar_names::names::Name;
use cedar_names::reading::FromNormalizedStr;
use cedar_restricted::partial_values::PartialValue;
use cedar_values::values::Value;
use std::alloc::Global;

/// An extension of this name, with the built-in `unknown` alone.
fn with_unknown(alloc: Global, name: &str) -> Result<Extension, ParseNameError>
    ensures { IfOk result (λ extension. are_named (extension_functions extension) ≡ true) }
{
    let name = Name::from_normalized_str(alloc, name)?;
    let unknown = Name::parse_unqualified_name(alloc, "unknown")?;
    let style = CallStyle::FunctionStyle;
    let ty = SchemaType::String;
    let function = ExtensionFunction::partial_eval_unknown(alloc, unknown, style, ty)?;
    Ok(Extension::new(name, vec![in alloc; function]?, Vec::new(alloc)))
}

/// Two such extensions; one where the other name is empty.
fn with_unknowns(alloc: Global, one: &str, other: &str) -> Result<Vec<Extension>, ParseNameError>
    ensures { IfOk result (λ extensions. are_named (flat_map extension_functions extensions.items) ≡ true) }
{
    let extension = with_unknown(alloc, one)?;
    if other.is_empty() {
        return Ok(vec![in alloc; extension]?);
    }
    Ok(vec![in alloc; extension, with_unknown(alloc, other)?]?)
}

fn taken_of(alloc: Global, extensions: Vec<Extension>, table: &mut Extensions<'static>) -> Answer
    requires { are_named (flat_map extension_functions extensions.items) ≡ true }
{
    match Extensions::specific_extensions(alloc, extensions) {
        Ok(made) => {
            *table = made;
            said(alloc, table.holds_unknown())
        }
        Err(error) => refused(alloc, error),
    }
}

fn specific(alloc: Global, one: &str, other: &str, table: &mut Extensions<'static>) -> Answer {
    match with_unknowns(alloc, one, other) {
        Ok(extensions) => taken_of(alloc, extensions, table),
        Err(error) => error.to_string(alloc),
    }
}

/// Takes another table; of extensions of these names, where they are handed in.
pub fn taken(
    alloc: Global,
    verb: &str,
    one: &str,
    other: &str,
    table: &mut Extensions<'static>,
) -> Answer {
    match verb {
        "all_available" => *table = Extensions::all_available(alloc)?,
        "specific_extensions" => return specific(alloc, one, other, table),
        "none" => *table = Extensions::none(alloc),
        _ => return no_case(alloc),
    }
    said(alloc, table.holds_unknown())
}

fn joined<'a, I: Iterator<Item = &'a Name> + Drop>(alloc: Global, names: I) -> Answer
    requires can { I.can_next names }
    requires ends { IsFinite (I.remaining names) }
{
    let mut text = String::new(alloc);
    for name in names {
        append(&mut text, name.to_string(alloc))?;
    }
    Ok(text)
}

fn told_function(
    alloc: Global,
    found: Result<&ExtensionFunction, ExtensionFunctionLookupError>,
) -> Answer {
    match found {
        Ok(function) => function.name().to_string(alloc),
        Err(error) => error.to_string(alloc),
    }
}

/// The names of the table's extensions, or what it has of this name.
pub fn sought(alloc: Global, verb: &str, name: &str, table: &Extensions<'_>) -> Answer {
    match (verb, Name::from_normalized_str(alloc, name)) {
        ("ext_names", _) => joined(alloc, table.ext_names()),
        ("shown", _) => format!(in alloc; "{table:?}"),
        ("func", Ok(name)) => told_function(alloc, table.func(alloc, &name)),
        (_, Err(error)) => error.to_string(alloc),
        _ => no_case(alloc),
    }
}

fn unknown(alloc: Global, name: &str, ty: &str) -> Result<ExtensionFunction, ParseNameError> {
    let name = Name::from_normalized_str(alloc, name)?;
    let ty: SchemaType = type_of(alloc, ty)?;
    let style = CallStyle::FunctionStyle;
    Ok(ExtensionFunction::partial_eval_unknown(alloc, name, style, ty)?)
}

/// The value or the unknown that a function gave, or why it gave none.
fn told_output(alloc: Global, output: Result<ExtensionOutputValue, EvaluationError>) -> Answer {
    match output {
        Ok(ExtensionOutputValue::Known(value)) => told(alloc, &PartialValue::from(value)),
        Ok(ExtensionOutputValue::Unknown(unknown)) => unknown.to_string(alloc),
        Err(error) => error.to_string(alloc),
    }
}

fn told_types(alloc: Global, types: &[SchemaType]) -> Answer {
    let mut text = String::new(alloc);
    for ty in types {
        append(&mut text, ty.to_string(alloc))?;
    }
    Ok(text)
}

/// What a function of this name says of itself, whose argument of a type names an unknown, and what it answers to
/// the values.
pub fn asked(alloc: Global, verb: &str, name: &str, ty: &str, values: &[Value]) -> Answer {
    let function = match unknown(alloc, name, ty) {
        Ok(function) => function,
        Err(error) => return error.to_string(alloc),
    };
    match verb {
        "call" => told_output(alloc, function.call(alloc, values)),
        "arity" => tell(alloc, function.arity()),
        "arg_types" => told_types(alloc, function.arg_types()),
        "is_variadic" => said(alloc, function.is_variadic()),
        "style" => tell(alloc, function.style()),
        "is_unknown" => said(alloc, function.is_unknown()),
        _ => no_case(alloc),
    }
}

/// Why a table that has this twice is refused.
pub fn refusal(alloc: Global, verb: &str, name: &str) -> Answer {
    let name = match Name::from_normalized_str(alloc, name) {
        Ok(name) => name,
        Err(error) => return error.to_string(alloc),
    };
    let error = if verb == "func" {
        ExtensionInitializationError::from(FuncMultiplyDefinedError::new(name))
    } else {
        let return_type = SchemaType::Extension { name };
        let error = MultipleConstructorsSameSignatureError::new(return_type);
        ExtensionInitializationError::from(error)
    };
    error.to_string(alloc)
}
