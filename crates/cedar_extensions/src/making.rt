// What may stand only once in a table.
ghost use Rattle.std.specs.Prelude.{◌≡◌, IfOk};
ghost use Rattle.std.specs.List.{flat_map};
ghost use Rattle.std.specs.Map.{keys_of};
ghost use Rattle.std.specs.Option.{option_copied};
ghost use Rattle.cedar_extensions.specs.Holding.{extension_functions};
ghost use Rattle.cedar_extensions.specs.Making as making;
ghost use Rattle.cedar_extensions.specs.Making.{Repeats};

use crate::collecting::{CollectError, collect_no_duplicates};
use crate::extension::Extension;
use crate::functions::ExtensionFunction;
use crate::iteration::Funcs;
use cedar_names::names::Name;
use std::alloc::{AllocError, Global};

/// The names that functions can't have once more: that of the language's own constructor of extension
/// values, and those of all functions of these extensions. Refused for memory alone.
pub(crate) fn names_taken<F>(
    alloc: Global,
    extensions: &[Extension<F>],
) -> Result<Vec<(Name, ())>, AllocError>
    ensures { IfOk result (λ names.
        keys_of names.items ≡ making.names_taken (flat_map extension_functions extensions.now)) }
{
    let constructor = Name::of_identifier(alloc, "extension_value")?;
    let mut names = vec![in alloc; (constructor, ())]?;
    for function in Funcs::new(extensions) {
        names.push((function.name().clone(alloc)?, ()))?;
    }
    Ok(names)
}

// The extension type of which it makes values from one text, if it is no method.
fn type_made<F>(function: &ExtensionFunction<F>) -> Option<&Name>
    ensures { option_copied result ≡ making.type_made function.now }
{
    if function.is_single_arg_constructor() {
        function.ext_types()
    } else {
        None
    }
}

/// The extension types of which their functions make values from one text, methods aside: one for each
/// such function.
pub(crate) fn types_made<F>(
    alloc: Global,
    extensions: &[Extension<F>],
) -> Result<Vec<(Name, ())>, AllocError>
    ensures { IfOk result (λ names.
        keys_of names.items ≡ making.types_made (flat_map extension_functions extensions.now)) }
{
    let mut names = Vec::new(alloc);
    for function in Funcs::new(extensions) {
        if let Some(name) = type_made(function) {
            names.push((name.clone(alloc)?, ()))?;
        }
    }
    Ok(names)
}

/// The first of these names that stands before it too, if there is one. Refused for memory alone.
pub(crate) fn first_repeated(
    alloc: Global,
    names: Vec<(Name, ())>,
) -> Result<Option<Name>, AllocError>
    ensures { IfOk result (Repeats (keys_of names.items)) }
{
    match collect_no_duplicates(alloc, names) {
        Ok(_once) => Ok(None),
        Err(CollectError::Duplicate(name)) => Ok(Some(name)),
        Err(CollectError::Memory(error)) => Err(error),
    }
}
