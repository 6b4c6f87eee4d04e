// Expressions against tables of extension functions.
ghost use Rattle.cedar_trees.specs.Bare.{bare};
ghost use Rattle.cedar_extensions.specs.Table.{as_table};
ghost use Rattle.cedar_extensions.specs.ValidationRefusals.{Validates, Checks};

use crate::calls::WrongNumArgumentsError;
use crate::extensions::Extensions;
use crate::objects::ExtensionFunctionObject;
use crate::validation_errors::ExprValidationError;
use cedar_names::names::Name;
use cedar_shapes::iteration::ExprIterator;
use cedar_trees::expr::{Expr, ExprKind};
use cedar_values::extension_values::is_constructor;
use std::alloc::Global;

/// Expressions whose calls of extension functions can be checked before they are evaluated.
pub trait ExprValidation {
    ghost use Rattle.cedar_language.specs.Tree.{Tree};
    ghost use Rattle.cedar_extensions.specs.Table.{as_table};
    ghost use Rattle.cedar_extensions.specs.ValidationRefusals.{Validates};

    // its bare tree
    ghost tree: { Self → Tree };

    /// Accepted where each call in it names a function of the table, or the language's own constructor
    /// of extension values, and has as many arguments as that function takes. Else it is refused for
    /// the first other call in the order of `ExprIterator`: `FuncDoesNotExist` where the table lacks the
    /// function, `WrongNumArguments` with the number that it takes and the number given. Also refused
    /// for want of memory.
    /// (Cedar language reference, "Extension functions".)
    fn try_validate<F: ExtensionFunctionObject>(
        &self,
        alloc: Global,
        extensions: &Extensions<'_, F>,
    ) -> Result<(), ExprValidationError>
        ensures { Validates (as_table F.answers extensions.now) (tree self.now) result };
}

impl<T> ExprValidation for Expr<T> {
    ghost use Rattle.cedar_trees.specs.Bare.{bare};

    ghost tree = { bare };

    fn try_validate<F: ExtensionFunctionObject>(
        &self,
        alloc: Global,
        extensions: &Extensions<'_, F>,
    ) -> Result<(), ExprValidationError> {
        validated(alloc, self, extensions)
    }
}

fn validated<T, F: ExtensionFunctionObject>(
    alloc: Global,
    expr: &Expr<T>,
    extensions: &Extensions<'_, F>,
) -> Result<(), ExprValidationError>
    ensures { Validates (as_table F.answers extensions.now) (bare expr.now) result }
{
    for part in ExprIterator::new(alloc, expr)? {
        if let ExprKind::ExtensionFunctionApp { fn_name, args } = &part.expr_kind {
            check_call(alloc, fn_name, args.len(), extensions)?;
        }
    }
    Ok(())
}

// Whether the function of this name takes so many arguments. An error tells the place of the name.
fn check_call<F: ExtensionFunctionObject>(
    alloc: Global,
    name: &Name,
    actual: usize,
    extensions: &Extensions<'_, F>,
) -> Result<(), ExprValidationError>
    ensures { Checks (as_table F.answers extensions.now) (name.now, actual) result }
{
    if is_constructor(name) {
        return Ok(());
    }
    let function = extensions.func(alloc, name)?;
    let Some(expected) = function.arity() else {
        return Ok(());
    };
    if actual == expected {
        return Ok(());
    }
    let source_loc = match name.loc() {
        None => None,
        Some(loc) => Some(loc.clone(alloc)?),
    };
    let name = name.clone(alloc)?;
    let error = WrongNumArgumentsError::new(name, expected, actual, source_loc);
    Err(ExprValidationError::from(error))
}
