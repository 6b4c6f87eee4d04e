// The names that texts may call, from the table that an evaluation knows.
ghost use Rattle.std.specs.Prelude.{◌≡◌, ◌++◌, IfOk};
ghost use Rattle.cedar_extensions.specs.Functions.{function_name, function_style};
ghost use Rattle.cedar_grammar.specs.Functions.{body_names, policy_names, the_unknown};
ghost use Rattle.cedar_parser.specs.Settings.{functions_of, is_method};

use cedar_extensions::extensions::Extensions;
use cedar_extensions::functions::{CallStyle, ExtensionFunction};
use cedar_extensions::objects::ExtensionFunctionObject;
use cedar_faults::ExtStyles;
use cedar_names::identifiers::UnreservedId;
use cedar_names::names::Name;
use std::alloc::{AllocError, Global};

/// The names that texts may call, from the table that an evaluation knows.
pub trait StylesOfExtensions {
    /// The names of the table's functions, `unknown` among them where the table has it. Refused for memory
    /// alone.
    fn from_extensions<F: ExtensionFunctionObject>(
        alloc: Global,
        extensions: &Extensions<'_, F>,
    ) -> Result<ExtStyles, AllocError>
        ensures { IfOk result (λ styles. styles ≡ body_names (functions_of F.answers extensions.now)) };

    /// The names of the table's functions but `unknown`, which policies never call. Refused for memory
    /// alone.
    fn for_policies<F: ExtensionFunctionObject>(
        alloc: Global,
        extensions: &Extensions<'_, F>,
    ) -> Result<ExtStyles, AllocError>
        ensures { IfOk result (λ styles. styles ≡ policy_names (functions_of F.answers extensions.now)) };
}

impl StylesOfExtensions for ExtStyles {
    fn from_extensions<F: ExtensionFunctionObject>(
        alloc: Global,
        extensions: &Extensions<'_, F>,
    ) -> Result<ExtStyles, AllocError> {
        body_styles(alloc, extensions)
    }

    fn for_policies<F: ExtensionFunctionObject>(
        alloc: Global,
        extensions: &Extensions<'_, F>,
    ) -> Result<ExtStyles, AllocError> {
        policy_styles(alloc, extensions)
    }
}

// The names of the table's functions, `unknown` among them where the table has it.
fn body_styles<F: ExtensionFunctionObject>(
    alloc: Global,
    extensions: &Extensions<'_, F>,
) -> Result<ExtStyles, AllocError>
    ensures { IfOk result (λ styles. styles ≡ body_names (functions_of F.answers extensions.now)) }
{
    let mut functions = Vec::new(alloc);
    if extensions.holds_unknown() {
        functions.push(unknown(alloc)?)?;
    }
    let functions = with_functions(alloc, functions, extensions)?;
    Ok(ExtStyles::new(functions, methods(alloc, extensions)?))
}

// The names of the table's functions but `unknown`.
fn policy_styles<F: ExtensionFunctionObject>(
    alloc: Global,
    extensions: &Extensions<'_, F>,
) -> Result<ExtStyles, AllocError>
    ensures { IfOk result (λ styles. styles ≡ policy_names (functions_of F.answers extensions.now)) }
{
    let functions = with_functions(alloc, Vec::new(alloc), extensions)?;
    Ok(ExtStyles::new(functions, methods(alloc, extensions)?))
}

// These names, and behind them those of the table's functions that aren't methods; `unknown` isn't
// among the latter.
fn with_functions<F: ExtensionFunctionObject>(
    alloc: Global,
    names: Vec<Name>,
    extensions: &Extensions<'_, F>,
) -> Result<Vec<Name>, AllocError>
    ensures { IfOk result (λ all. all.items ≡ names.items ++ (policy_names (functions_of F.answers extensions.now)).functions) }
{
    let mut all = names;
    for function in extensions.all_funcs() {
        if !function.is_unknown() && function.style() == CallStyle::FunctionStyle {
            all.push(function.name().clone(alloc)?)?;
        }
    }
    Ok(all)
}

// The names of the table's methods, where they have no namespace.
fn methods<F: ExtensionFunctionObject>(
    alloc: Global,
    extensions: &Extensions<'_, F>,
) -> Result<Vec<UnreservedId>, AllocError>
    ensures { IfOk result (λ methods. methods.items ≡ (policy_names (functions_of F.answers extensions.now)).methods) }
{
    let mut methods = Vec::new(alloc);
    for function in extensions.all_funcs() {
        if !function.is_unknown() && is_method(function) {
            methods.push(function.name().basename(alloc)?)?;
        }
    }
    Ok(methods)
}

// Whether texts may call it behind its first argument.
fn is_method<F>(function: &ExtensionFunction<F>) -> bool
    ensures { result ≡ is_method (function_style function.now) (function_name function.now) }
{
    function.style() == CallStyle::MethodStyle && function.name().is_unqualified()
}

// The name of the function that names unknowns.
fn unknown(alloc: Global) -> Result<Name, AllocError>
    ensures { IfOk result (λ name. name ≡ the_unknown) }
{
    Name::of_identifier(alloc, "unknown")
}
