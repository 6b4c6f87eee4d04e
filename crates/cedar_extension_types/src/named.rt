// The functions of the standard extension types, by their names.
ghost use Rattle.std.specs.Prelude.{◌≡◌, [], ◌∷◌, IfOk, map};
ghost use Rattle.cedar_language.specs.Tree.{BooleanType, LongType, StringType, ExtensionType};
ghost use Rattle.cedar_grammar.specs.Functions.{as_function, as_method};
ghost use Rattle.cedar_literals.specs.Types.{value_type_of};
ghost use Rattle.cedar_names.specs.Identifiers.{IsUnreservedId};
ghost use Rattle.cedar_extension_types.specs.Standard.{answers_beside};
ghost use Rattle.cedar_extension_types.specs.Tables.{name_of, stated, called, standard_function, a_decimal, a_range, an_instant, a_duration};

use crate::functions::{StandardFunction, TypeFunction};
use cedar_extensions::functions::{CallStyle, ExtensionFunction};
use cedar_extensions::objects::ExtensionFunctionObject;
use cedar_literals::types::Type;
use cedar_names::names::Name;
use std::alloc::{AllocError, Global};

/// The name under which policies call it.
fn name_of(function: StandardFunction) -> &'static str
    ensures name { result.now ≡ name_of function }
    ensures unreserved { IsUnreservedId result.now }
{
    match function {
        StandardFunction::Decimal => "decimal",
        StandardFunction::LessThan => "lessThan",
        StandardFunction::LessThanOrEqual => "lessThanOrEqual",
        StandardFunction::GreaterThan => "greaterThan",
        StandardFunction::GreaterThanOrEqual => "greaterThanOrEqual",
        StandardFunction::Ip => "ip",
        StandardFunction::IsIpv4 => "isIpv4",
        StandardFunction::IsIpv6 => "isIpv6",
        StandardFunction::IsLoopback => "isLoopback",
        StandardFunction::IsMulticast => "isMulticast",
        StandardFunction::IsInRange => "isInRange",
        StandardFunction::Datetime => "datetime",
        StandardFunction::Offset => "offset",
        StandardFunction::DurationSince => "durationSince",
        StandardFunction::ToDate => "toDate",
        StandardFunction::ToTime => "toTime",
        StandardFunction::Duration => "duration",
        StandardFunction::ToMilliseconds => "toMilliseconds",
        StandardFunction::ToSeconds => "toSeconds",
        StandardFunction::ToMinutes => "toMinutes",
        StandardFunction::ToHours => "toHours",
        StandardFunction::ToDays => "toDays",
    }
}

/// The extension type of this name.
fn extension_type(alloc: Global, name: &str) -> Result<Type, AllocError>
    requires { IsUnreservedId name.now }
    ensures { IfOk result (λ made. value_type_of made ≡ ExtensionType (name.now ∷ [])) }
{
    Ok(Type::Extension {
        name: Name::of_identifier(alloc, name)?,
    })
}

/// A function of a text, which makes values of the type.
#[tactic(auto, using(crate::proofs::Stating::made_stated))]
fn constructor<F: ExtensionFunctionObject>(
    alloc: Global,
    function: StandardFunction,
    type_name: &str,
) -> Result<ExtensionFunction<TypeFunction<F>>, AllocError>
    requires { IsUnreservedId type_name.now }
    ensures { IfOk result (λ made. stated (answers_beside F.answers) made
        ≡ called as_function (StringType ∷ []) (ExtensionType (type_name.now ∷ [])) function) }
{
    ExtensionFunction::unary(
        alloc,
        Name::of_identifier(alloc, name_of(function))?,
        CallStyle::FunctionStyle,
        TypeFunction::Standard(function),
        extension_type(alloc, type_name)?,
        Type::String,
    )
}

/// A method of a value alone.
#[tactic(auto, using(crate::proofs::Stating::made_stated))]
fn reader<F: ExtensionFunctionObject>(
    alloc: Global,
    function: StandardFunction,
    given: Type,
    of: &str,
) -> Result<ExtensionFunction<TypeFunction<F>>, AllocError>
    requires { IsUnreservedId of.now }
    ensures { IfOk result (λ made. stated (answers_beside F.answers) made
        ≡ called as_method (ExtensionType (of.now ∷ []) ∷ []) (value_type_of given) function) }
{
    ExtensionFunction::unary(
        alloc,
        Name::of_identifier(alloc, name_of(function))?,
        CallStyle::MethodStyle,
        TypeFunction::Standard(function),
        given,
        extension_type(alloc, of)?,
    )
}

/// A method of a value and another.
#[tactic(auto, using(crate::proofs::Stating::made_stated))]
fn method<F: ExtensionFunctionObject>(
    alloc: Global,
    function: StandardFunction,
    given: Type,
    of: (&str, &str),
) -> Result<ExtensionFunction<TypeFunction<F>>, AllocError>
    requires first { IsUnreservedId of.0.now }
    requires second { IsUnreservedId of.1.now }
    ensures { IfOk result (λ made. stated (answers_beside F.answers) made
        ≡ called as_method (ExtensionType (of.entry.0.now ∷ []) ∷ ExtensionType (of.entry.1.now ∷ []) ∷ []) (value_type_of given) function) }
{
    let first = extension_type(alloc, of.0)?;
    let second = extension_type(alloc, of.1)?;
    ExtensionFunction::binary(
        alloc,
        Name::of_identifier(alloc, name_of(function))?,
        CallStyle::MethodStyle,
        TypeFunction::Standard(function),
        given,
        (first, second),
    )
}

/// A method of two decimals, which is true or false.
fn of_decimals<F: ExtensionFunctionObject>(
    alloc: Global,
    function: StandardFunction,
) -> Result<ExtensionFunction<TypeFunction<F>>, AllocError>
    ensures { IfOk result (λ made. stated (answers_beside F.answers) made
        ≡ called as_method (a_decimal ∷ a_decimal ∷ []) BooleanType function) }
{
    method(alloc, function, Type::Bool, ("decimal", "decimal"))
}

/// What is asked of a range of IP addresses.
fn of_range<F: ExtensionFunctionObject>(
    alloc: Global,
    function: StandardFunction,
) -> Result<ExtensionFunction<TypeFunction<F>>, AllocError>
    ensures { IfOk result (λ made. stated (answers_beside F.answers) made ≡ called as_method (a_range ∷ []) BooleanType function) }
{
    reader(alloc, function, Type::Bool, "ipaddr")
}

/// A method of an instant and an instant or a duration.
fn of_instant<F: ExtensionFunctionObject>(
    alloc: Global,
    function: StandardFunction,
    given: &str,
    by: &str,
) -> Result<ExtensionFunction<TypeFunction<F>>, AllocError>
    requires given { IsUnreservedId given.now }
    requires by { IsUnreservedId by.now }
    ensures { IfOk result (λ made. stated (answers_beside F.answers) made
        ≡ called as_method (an_instant ∷ ExtensionType (by.now ∷ []) ∷ []) (ExtensionType (given.now ∷ [])) function) }
{
    let given = extension_type(alloc, given)?;
    method(alloc, function, given, ("datetime", by))
}

/// A part of an instant.
fn part_of_instant<F: ExtensionFunctionObject>(
    alloc: Global,
    function: StandardFunction,
    given: &str,
) -> Result<ExtensionFunction<TypeFunction<F>>, AllocError>
    requires { IsUnreservedId given.now }
    ensures { IfOk result (λ made. stated (answers_beside F.answers) made
        ≡ called as_method (an_instant ∷ []) (ExtensionType (given.now ∷ [])) function) }
{
    let given = extension_type(alloc, given)?;
    reader(alloc, function, given, "datetime")
}

/// How many units a duration has.
fn count_of<F: ExtensionFunctionObject>(
    alloc: Global,
    function: StandardFunction,
) -> Result<ExtensionFunction<TypeFunction<F>>, AllocError>
    ensures { IfOk result (λ made. stated (answers_beside F.answers) made ≡ called as_method (a_duration ∷ []) LongType function) }
{
    reader(alloc, function, Type::Long, "duration")
}

/// The function of a table.
fn named<F: ExtensionFunctionObject>(
    alloc: Global,
    function: StandardFunction,
) -> Result<ExtensionFunction<TypeFunction<F>>, AllocError>
    ensures { IfOk result (λ made. stated (answers_beside F.answers) made ≡ standard_function function) }
{
    match function {
        StandardFunction::Decimal => constructor(alloc, function, "decimal"),
        StandardFunction::LessThan => of_decimals(alloc, function),
        StandardFunction::LessThanOrEqual => of_decimals(alloc, function),
        StandardFunction::GreaterThan => of_decimals(alloc, function),
        StandardFunction::GreaterThanOrEqual => of_decimals(alloc, function),
        StandardFunction::Ip => constructor(alloc, function, "ipaddr"),
        StandardFunction::IsIpv4 => of_range(alloc, function),
        StandardFunction::IsIpv6 => of_range(alloc, function),
        StandardFunction::IsLoopback => of_range(alloc, function),
        StandardFunction::IsMulticast => of_range(alloc, function),
        StandardFunction::IsInRange => method(alloc, function, Type::Bool, ("ipaddr", "ipaddr")),
        StandardFunction::Datetime => constructor(alloc, function, "datetime"),
        StandardFunction::Offset => of_instant(alloc, function, "datetime", "duration"),
        StandardFunction::DurationSince => of_instant(alloc, function, "duration", "datetime"),
        StandardFunction::ToDate => part_of_instant(alloc, function, "datetime"),
        StandardFunction::ToTime => part_of_instant(alloc, function, "duration"),
        StandardFunction::Duration => constructor(alloc, function, "duration"),
        StandardFunction::ToMilliseconds => count_of(alloc, function),
        StandardFunction::ToSeconds => count_of(alloc, function),
        StandardFunction::ToMinutes => count_of(alloc, function),
        StandardFunction::ToHours => count_of(alloc, function),
        StandardFunction::ToDays => count_of(alloc, function),
    }
}

/// The functions of a table, one after the other.
pub(crate) fn all_named<F: ExtensionFunctionObject>(
    alloc: Global,
    functions: &[StandardFunction],
) -> Result<Vec<ExtensionFunction<TypeFunction<F>>>, AllocError>
    ensures { IfOk result (λ made. map (stated (answers_beside F.answers)) made.items ≡ map standard_function functions.now) }
{
    let mut made = Vec::new(alloc);
    for function in functions {
        made.push(named(alloc, *function)?)?;
    }
    Ok(made)
}
