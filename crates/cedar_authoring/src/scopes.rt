// Whether a question lies in the scope of a policy.

use crate::expecting::unless_memory;
use cedar_evaluator::evaluator::Evaluator;
use cedar_extensions::objects::ExtensionFunctionObject;
use cedar_held::refusal;
use cedar_literals::literals::Literal;
use cedar_policies::policies::Policy;
use cedar_policy_parts::bindings::SlotEnv;
use cedar_trees::expr::Expr;
use cedar_values::values::ValueKind;
use std::alloc::{AllocError, Global};

/// What evaluates expressions for the open question as it was asked.
pub(crate) type Asker<'s, 'e, 'f, F> = Evaluator<'s, 'e, 'f, F>;

/// Whether the question lies in the scope of a policy whatever is unknown. Refused for memory alone.
pub(crate) fn is_in_scope<F: ExtensionFunctionObject>(
    alloc: Global,
    asker: &Asker<'_, '_, '_, F>,
    policy: &Policy,
) -> Result<bool, AllocError> {
    let template = policy.template();
    let principal = template.principal_constraint().as_expr(alloc)?;
    let action = template.action_constraint().as_expr(alloc)?;
    let resource = template.resource_constraint().as_expr(alloc)?;
    let slots = policy.env();
    Ok(
        holds(alloc, asker, &principal, slots)?
            && holds(alloc, asker, &action, slots)?
            && holds(alloc, asker, &resource, slots)?,
    )
}

fn holds<F: ExtensionFunctionObject>(
    alloc: Global,
    asker: &Asker<'_, '_, '_, F>,
    part: &Expr,
    slots: &SlotEnv,
) -> Result<bool, AllocError> {
    match asker.interpret(alloc, part, slots) {
        Ok(value) => match value.value_kind() {
            ValueKind::Lit(Literal::Bool(holds)) => Ok(*holds),
            _ => Ok(false),
        },
        Err(error) => {
            unless_memory(refusal(&error))?;
            Ok(false)
        }
    }
}
