// The extensions of the library's own.
ghost use Rattle.std.specs.Prelude.{◌≡◌, [], IfOk};
ghost use Rattle.cedar_extensions.specs.Holding.{extension_functions, ordered_types};
ghost use Rattle.cedar_extensions.specs.Lookups.{IsUnknownAlone};

use crate::extension::Extension;
use crate::functions::{CallStyle, ExtensionFunction, SchemaType};
use cedar_names::names::Name;
use std::alloc::{AllocError, Global};

/// The extension of the built-in `unknown`.
pub(crate) fn partial_evaluation(alloc: Global) -> Result<Extension, AllocError>
    ensures alone { IfOk result (λ extension. IsUnknownAlone (extension_functions extension)) }
    ensures ordered { IfOk result (λ extension. ordered_types extension ≡ []) }
{
    let unknown = ExtensionFunction::partial_eval_unknown(
        alloc,
        Name::of_identifier(alloc, "unknown")?,
        CallStyle::FunctionStyle,
        SchemaType::String,
    )?;
    Ok(Extension::new(
        Name::of_identifier(alloc, "partial_evaluation")?,
        vec![in alloc; unknown]?,
        Vec::new(alloc),
    ))
}
