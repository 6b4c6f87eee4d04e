//! The extensions of the standard types, and their table.
ghost use Rattle.std.specs.Prelude.{◌≡◌, ◌++◌, [], ◌∷◌, IfOk, true, map};
ghost use Rattle.std.specs.List.{flat_map};
ghost use Rattle.cedar_extensions.specs.Defining.{defined};
ghost use Rattle.cedar_extensions.specs.Holding.{are_named, extension_functions, ordered_types};
ghost use Rattle.cedar_extensions.specs.Tables.{extensions_in, functions_in};
ghost use Rattle.cedar_extension_types.specs.Types.{datetime_type, duration_type};
ghost use Rattle.cedar_extension_types.specs.Standard.{answers_beside};
ghost use Rattle.cedar_extension_types.specs.Tables.{stated, standard_function, stated_unknown};
ghost use Rattle.cedar_extension_types.specs.Tables.{decimal_functions, ip_functions, datetime_functions, standard_functions, standard_table};

use crate::functions::{StandardFunction, TypeFunction};
use crate::named::all_named;
use cedar_extensions::extension::Extension;
use cedar_extensions::extensions::Extensions;
use cedar_extensions::functions::{CallStyle, ExtensionFunction};
use cedar_extensions::objects::ExtensionFunctionObject;
use cedar_extensions::table_errors::ExtensionInitializationError;
use cedar_literals::types::Type;
use cedar_names::names::Name;
use std::alloc::{AllocError, Global};

/// The extension of `decimal`. Its values have no order. Refused for memory alone.
#[tactic(auto, using(crate::proofs::Stating::decimal_named))]
pub fn decimal_extension<F: ExtensionFunctionObject>(
    alloc: Global,
) -> Result<Extension<TypeFunction<F>>, AllocError>
    ensures functions { IfOk result (λ e. map (stated (answers_beside F.answers)) (extension_functions e) ≡ map standard_function decimal_functions) }
    ensures named { IfOk result (λ e. are_named (extension_functions e) ≡ true) }
    ensures ordered { IfOk result (λ e. ordered_types e ≡ []) }
{
    let functions = [
        StandardFunction::Decimal,
        StandardFunction::LessThan,
        StandardFunction::LessThanOrEqual,
        StandardFunction::GreaterThan,
        StandardFunction::GreaterThanOrEqual,
    ];
    let made = all_named(alloc, &functions)?;
    Ok(Extension::new(
        Name::of_identifier(alloc, "decimal")?,
        made,
        Vec::new(alloc),
    ))
}

/// The extension of `ipaddr`. Its values have no order. Refused for memory alone.
#[tactic(auto, using(crate::proofs::Stating::ip_named))]
pub fn ip_extension<F: ExtensionFunctionObject>(
    alloc: Global,
) -> Result<Extension<TypeFunction<F>>, AllocError>
    ensures functions { IfOk result (λ e. map (stated (answers_beside F.answers)) (extension_functions e) ≡ map standard_function ip_functions) }
    ensures named { IfOk result (λ e. are_named (extension_functions e) ≡ true) }
    ensures ordered { IfOk result (λ e. ordered_types e ≡ []) }
{
    let functions = [
        StandardFunction::Ip,
        StandardFunction::IsIpv4,
        StandardFunction::IsIpv6,
        StandardFunction::IsLoopback,
        StandardFunction::IsMulticast,
        StandardFunction::IsInRange,
    ];
    let made = all_named(alloc, &functions)?;
    Ok(Extension::new(Name::of_identifier(alloc, "ipaddr")?, made, Vec::new(alloc)))
}

/// The types whose values have an order.
fn types_with_order(alloc: Global) -> Result<Vec<Name>, AllocError>
    ensures { IfOk result (λ names. names.items ≡ datetime_type ∷ duration_type ∷ []) }
{
    let datetime = Name::of_identifier(alloc, "datetime")?;
    let duration = Name::of_identifier(alloc, "duration")?;
    Ok(vec![in alloc; datetime, duration]?)
}

/// The extension of `datetime` and `duration`, whose values have an order. Refused for memory alone.
#[tactic(auto, using(crate::proofs::Stating::datetime_named))]
pub fn datetime_extension<F: ExtensionFunctionObject>(
    alloc: Global,
) -> Result<Extension<TypeFunction<F>>, AllocError>
    ensures functions { IfOk result (λ e. map (stated (answers_beside F.answers)) (extension_functions e) ≡ map standard_function datetime_functions) }
    ensures named { IfOk result (λ e. are_named (extension_functions e) ≡ true) }
    ensures ordered { IfOk result (λ e. ordered_types e ≡ datetime_type ∷ duration_type ∷ []) }
{
    let functions = [
        StandardFunction::Datetime,
        StandardFunction::Duration,
        StandardFunction::Offset,
        StandardFunction::DurationSince,
        StandardFunction::ToDate,
        StandardFunction::ToTime,
        StandardFunction::ToMilliseconds,
        StandardFunction::ToSeconds,
        StandardFunction::ToMinutes,
        StandardFunction::ToHours,
        StandardFunction::ToDays,
    ];
    let made = all_named(alloc, &functions)?;
    Ok(Extension::new(
        Name::of_identifier(alloc, "datetime")?,
        made,
        types_with_order(alloc)?,
    ))
}

/// The built-in function that names unknowns.
#[tactic(auto, using(crate::proofs::Stating::unknown_stated))]
fn unknown_function<F: ExtensionFunctionObject>(
    alloc: Global,
) -> Result<ExtensionFunction<TypeFunction<F>>, AllocError>
    ensures { IfOk result (λ made. stated (answers_beside F.answers) made ≡ stated_unknown) }
{
    ExtensionFunction::partial_eval_unknown(
        alloc,
        Name::of_identifier(alloc, "unknown")?,
        CallStyle::FunctionStyle,
        Type::String,
    )
}

/// The extension of the built-in `unknown`, by which bodies name unknowns. Refused for memory alone.
#[tactic(auto, using(crate::proofs::Stating::unknown_named))]
pub fn unknown_extension<F: ExtensionFunctionObject>(
    alloc: Global,
) -> Result<Extension<TypeFunction<F>>, AllocError>
    ensures functions { IfOk result (λ e. map (stated (answers_beside F.answers)) (extension_functions e) ≡ stated_unknown ∷ []) }
    ensures named { IfOk result (λ e. are_named (extension_functions e) ≡ true) }
    ensures ordered { IfOk result (λ e. ordered_types e ≡ []) }
{
    let mut functions = Vec::new(alloc);
    functions.push(unknown_function(alloc)?)?;
    Ok(Extension::new(
        Name::of_identifier(alloc, "partial_evaluation")?,
        functions,
        Vec::new(alloc),
    ))
}

/// The three extensions of the standard types, to which a caller adds its own before it makes a table of them
/// by `Extensions::specific_extensions`; `unknown_extension` is the one by which bodies name unknowns. Refused
/// for memory alone.
#[tactic(auto, using(crate::proofs::Stating::three_stated, crate::proofs::Stating::standard_named, crate::proofs::Stating::three_ordered))]
pub fn standard_extensions<F: ExtensionFunctionObject>(
    alloc: Global,
) -> Result<Vec<Extension<TypeFunction<F>>>, AllocError>
    ensures functions { IfOk result (λ es. map (stated (answers_beside F.answers)) (flat_map extension_functions es.items)
        ≡ map standard_function standard_functions) }
    ensures ordered { IfOk result (λ es. flat_map ordered_types es.items ≡ datetime_type ∷ duration_type ∷ []) }
    ensures named { IfOk result (λ es. are_named (flat_map extension_functions es.items) ≡ true) }
{
    let decimal = decimal_extension(alloc)?;
    let ip = ip_extension(alloc)?;
    let datetime = datetime_extension(alloc)?;
    Ok(vec![in alloc; decimal, ip, datetime]?)
}

/// The extensions of the table.
#[tactic(auto, using(crate::proofs::Stating::four_stated, crate::proofs::Stating::all_are_named, crate::proofs::Stating::four_ordered))]
fn all_extensions<F: ExtensionFunctionObject>(
    alloc: Global,
) -> Result<Vec<Extension<TypeFunction<F>>>, AllocError>
    ensures functions { IfOk result (λ es. map (stated (answers_beside F.answers)) (flat_map extension_functions es.items)
        ≡ map standard_function standard_functions ++ stated_unknown ∷ []) }
    ensures named { IfOk result (λ es. are_named (flat_map extension_functions es.items) ≡ true) }
    ensures ordered { IfOk result (λ es. flat_map ordered_types es.items ≡ datetime_type ∷ duration_type ∷ []) }
{
    let decimal = decimal_extension(alloc)?;
    let ip = ip_extension(alloc)?;
    let datetime = datetime_extension(alloc)?;
    let unknown = unknown_extension(alloc)?;
    Ok(vec![in alloc; decimal, ip, datetime, unknown]?)
}

/// The table of the standard types and of the built-in `unknown`. Refused for memory alone.
#[tactic(auto, using(crate::proofs::Stating::stated_of_table, crate::proofs::Stating::defined_of_table, crate::proofs::Apart::no_name_repeats, crate::proofs::Apart::no_type_repeats))]
pub fn standard_table<'a, F: ExtensionFunctionObject>(
    alloc: Global,
) -> Result<Extensions<'a, TypeFunction<F>>, AllocError>
    ensures functions { IfOk result (λ table. map (stated (answers_beside F.answers)) (functions_in table)
        ≡ map standard_function standard_functions ++ stated_unknown ∷ []) }
    ensures defined { IfOk result (λ table. defined (answers_beside F.answers) (functions_in table) ≡ standard_table) }
    ensures ordered { IfOk result (λ table. flat_map ordered_types (extensions_in table) ≡ datetime_type ∷ duration_type ∷ []) }
{
    let extensions = all_extensions(alloc)?;
    match Extensions::specific_extensions(alloc, extensions) {
        Ok(table) => Ok(table),
        Err(ExtensionInitializationError::Memory(error)) => Err(error),
        Err(ExtensionInitializationError::FuncMultiplyDefined(_)) => unreachable!(),
        Err(ExtensionInitializationError::MultipleConstructorsSameSignature(_)) => unreachable!(),
    }
}
