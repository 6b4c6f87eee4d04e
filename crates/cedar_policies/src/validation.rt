// What a template must fulfil to be taken.
ghost use Rattle.std.specs.Prelude.{option_map};
ghost use Rattle.std.specs.Option.{option_copied};
ghost use Rattle.cedar_trees.specs.Bare.{bare};
ghost use Rattle.cedar_extensions.specs.Table.{as_table};
ghost use Rattle.cedar_policies.specs.Templates.{listed_slots, syntax_of};
ghost use Rattle.cedar_policies.specs.Validation.{Validates, ValidatesClauses};

use crate::errors::TemplateValidationError;
use crate::templates::Template;
use cedar_extensions::extensions::Extensions;
use cedar_extensions::objects::ExtensionFunctionObject;
use cedar_extensions::validation::ExprValidation;
use cedar_trees::expr::Expr;
use std::alloc::Global;

impl Template {
    /// Whether each action that its scope names has a type whose last identifier is `Action`, whether it
    /// lists the slots of its scope and its clauses, and whether each call in its clauses fits the table of
    /// extensions. Refused for the first of these that isn't so: `InvalidActionType` with the entities that
    /// have another type, `SlotCacheMismatch`, `InvalidExpression` with what is wrong with the first other
    /// call of a walk; or for memory. (Cedar language reference, "Policy templates", "Extension functions".)
    pub fn try_validate<F: ExtensionFunctionObject>(
        &self,
        alloc: Global,
        extensions: &Extensions<'_, F>,
    ) -> Result<(), TemplateValidationError>
        ensures { Validates (as_table F.answers extensions.now) (listed_slots self.now) (syntax_of self.now) result }
    {
        self.action_constraint().check_action_types(alloc)?;
        if !self.check_invariant() {
            return Err(TemplateValidationError::SlotCacheMismatch);
        }
        check_clauses(alloc, self.non_scope_constraints(), extensions)
    }
}

// Whether each call in the clauses fits the table.
fn check_clauses<F: ExtensionFunctionObject>(
    alloc: Global,
    clauses: Option<&Expr>,
    extensions: &Extensions<'_, F>,
) -> Result<(), TemplateValidationError>
    ensures { ValidatesClauses (as_table F.answers extensions.now) (option_map bare (option_copied clauses.entry)) result }
{
    if let Some(expr) = clauses {
        expr.try_validate(alloc, extensions)?;
    }
    Ok(())
}
