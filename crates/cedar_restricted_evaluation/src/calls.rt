// Calls of extension functions.
ghost use Rattle.std.specs.Prelude.{◌≡◌, Bool, true, Some};
ghost use Rattle.cedar_language.specs.Constructing.{is_the_constructor, constructor_function};
ghost use Rattle.cedar_language.specs.Order.{all_of};
ghost use Rattle.cedar_extensions.specs.Table.{as_table};
ghost use Rattle.cedar_extensions.specs.Tables.{function_called, holds_unknown};
ghost use Rattle.cedar_restricted_evaluation.specs.Findings.{Calls, CallsBy};

use cedar_extensions::evaluation_error::EvaluationError;
use cedar_extensions::extensions::Extensions;
use cedar_extensions::functions::ExtensionOutputValue;
use cedar_extensions::objects::ExtensionFunctionObject;
use cedar_names::names::Name;
use cedar_names::places::Loc;
use cedar_restricted::constructing::constructed;
use cedar_restricted::partial_values::PartialValue;
use cedar_values::extension_values::is_constructor;
use cedar_values::values::Value;
use std::alloc::Global;

/// What a function of the table, or the language's own constructor of extension values, answers, at the
/// place of its call: a value, or the unknown that the built-in function names by its text.
///
/// It errs at this place with `FailedExtensionFunctionLookup` where the table lacks the function,
/// `WrongNumArguments` for another number of arguments than it takes, `FailedExtensionFunctionExecution`
/// where it has no answer, and `Memory`. (Cedar language reference, "Operators and functions".)
pub fn call<F: ExtensionFunctionObject>(
    alloc: Global,
    name: &Name,
    args: &[Value],
    place: Option<Loc>,
    extensions: &Extensions<'_, F>,
) -> Result<PartialValue, EvaluationError>
    ensures { Calls (as_table F.answers extensions.now) name.now (all_of args.now) result }
{
    match answer(alloc, name, args, extensions) {
        Ok(answer) => Ok(answer.with_maybe_source_loc(place)),
        Err(error) => Err(error.with_maybe_source_loc(place)),
    }
}

fn answer<F: ExtensionFunctionObject>(
    alloc: Global,
    name: &Name,
    args: &[Value],
    extensions: &Extensions<'_, F>,
) -> Result<PartialValue, EvaluationError>
    ensures { Calls (as_table F.answers extensions.now) name.now (all_of args.now) result }
{
    if is_constructor(name) {
        construct(alloc, name, args)
    } else {
        call_declared(alloc, name, args, extensions)
    }
}

// What the language's own constructor of extension values answers.
fn construct(alloc: Global, name: &Name, args: &[Value]) -> Result<PartialValue, EvaluationError>
    requires { is_the_constructor name.now ≡ true }
    ensures { (has_unknown : Bool) → CallsBy (Some constructor_function) has_unknown name.now (all_of args.now) result }
{
    match constructed(alloc, args)? {
        Some(value) => Ok(PartialValue::from(value)),
        None => {
            let name = name.clone(alloc)?;
            let msg = String::from_str(alloc, "these aren't the parts of an extension value")?;
            Err(EvaluationError::failed_extension_function_application(name, msg, None))
        }
    }
}

// What a function that an extension declares answers.
fn call_declared<F: ExtensionFunctionObject>(
    alloc: Global,
    name: &Name,
    args: &[Value],
    extensions: &Extensions<'_, F>,
) -> Result<PartialValue, EvaluationError>
    ensures { CallsBy (function_called F.answers extensions.now name.now) (holds_unknown extensions.now) name.now (all_of args.now) result }
{
    let function = extensions.func(alloc, name)?;
    match function.call(alloc, args)? {
        ExtensionOutputValue::Known(value) => Ok(PartialValue::from(value)),
        ExtensionOutputValue::Unknown(unknown) => Ok(PartialValue::unknown(unknown)),
    }
}
