// The evaluation of one attribute or tag.
ghost use Rattle.std.specs.Prelude.{◌≡◌, IfOk, true};
ghost use Rattle.cedar_language.specs.Restricted.{is_restricted};
ghost use Rattle.cedar_extensions.specs.Table.{as_table};
ghost use Rattle.cedar_extensions.specs.Failures.{failure_by, failure_of};
ghost use Rattle.cedar_extensions.specs.Causes.{lookup_cause};
ghost use Rattle.cedar_restricted.specs.PartialValues.{partial_of};
ghost use Rattle.cedar_trees.specs.Bare.{bare};
ghost use Rattle.cedar_held.specs.Built.{IsBuiltPart};
ghost use Rattle.cedar_held.specs.Fields.{IsEvaluated};
ghost use Rattle.cedar_held.specs.BodyRefusals.{refusal_by};

use cedar_extensions::evaluation_error::EvaluationError;
use cedar_extensions::extensions::Extensions;
use cedar_extensions::lookups::ExtensionFunctionLookupError;
use cedar_extensions::objects::ExtensionFunctionObject;
use cedar_replies::Refusal;
use cedar_restricted::borrowed::BorrowedRestrictedExpr;
use cedar_restricted::partial_values::PartialValue;
use cedar_restricted_evaluation::interpret_restricted;
use cedar_trees::expr::Expr;
use std::alloc::Global;

fn lookup_refusal(error: &ExtensionFunctionLookupError) -> Refusal
    ensures { result ≡ refusal_by (failure_by (lookup_cause error.now)) }
{
    match error {
        ExtensionFunctionLookupError::FuncDoesNotExist(_) => Refusal::Evaluation,
        ExtensionFunctionLookupError::Memory(_) => Refusal::Memory,
    }
}

/// What a failure of an evaluation is refused as: `Depth` where it met the limit, `Memory`, and `Evaluation`
/// for each error.
pub fn refusal(error: &EvaluationError) -> Refusal
    ensures { result ≡ refusal_by (failure_of error.now) }
{
    match error {
        EvaluationError::RecursionLimit(_) => Refusal::Depth,
        EvaluationError::FailedExtensionFunctionLookup(error) => lookup_refusal(error),
        EvaluationError::Memory => Refusal::Memory,
        _ => Refusal::Evaluation,
    }
}

// What a tree is evaluated to.
pub fn evaluated<F: ExtensionFunctionObject>(
    alloc: Global,
    expr: &Expr,
    extensions: &Extensions<'_, F>,
    depth: u32,
) -> Result<PartialValue, Refusal>
    requires { is_restricted (bare expr.now) ≡ true }
    ensures evaluated { IsEvaluated (as_table F.answers extensions.now) depth (bare expr.now) result }
    ensures built { IfOk result (λ value. IsBuiltPart (partial_of value)) }
{
    let tree = BorrowedRestrictedExpr::new_unchecked(expr);
    match interpret_restricted(alloc, tree, extensions, depth) {
        Ok(value) => Ok(value),
        Err(error) => Err(refusal(&error)),
    }
}
