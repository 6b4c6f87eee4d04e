// Whether what a policy set binds is valid.
ghost use Rattle.std.specs.Prelude.{◌≡◌, true};
ghost use Rattle.cedar_extensions.specs.Table.{Table, as_table};
ghost use Rattle.cedar_policies.specs.Templates.{template_id, syntax_of, listed_slots};
ghost use Rattle.cedar_policies.specs.Policies.{policy_id};
ghost use Rattle.cedar_policy_set.specs.Entries.{is_link};
ghost use Rattle.cedar_policy_set.specs.Bounds.{bound_id, entry_of, policy_entry, ListsSlots};
ghost use Rattle.cedar_policy_set.specs.Validated.{ValidatesAll, ValidatesOne, ValidatesTemplate};

use crate::bounds::{Bound, BoundKind};
use crate::errors::PolicySetValidationError;
use crate::sets::PolicySet;
use cedar_extensions::extensions::Extensions;
use cedar_extensions::objects::ExtensionFunctionObject;
use cedar_policies::errors::TemplateValidationError;
use cedar_policies::policies::Policy;
use cedar_policies::templates::Template;
use std::alloc::Global;

impl PolicySet {
    /// Whether each template and static policy of the set is valid against the table of extensions, and each
    /// link is of a template that has slots; refused for the first that isn't, or for memory. A static policy
    /// whose clause holds a slot isn't valid, since it lists none.
    pub fn try_validate<F: ExtensionFunctionObject>(
        &self,
        alloc: Global,
        extensions: &Extensions<'_, F>,
    ) -> Result<(), PolicySetValidationError>
        ensures { ValidatesAll (as_table F.answers extensions.now) self.now result }
    {
        for bound in self.values() {
            validate(alloc, bound, extensions)?;
        }
        Ok(())
    }
}

// Whether it is valid.
fn validate<F: ExtensionFunctionObject>(
    alloc: Global,
    bound: &Bound,
    extensions: &Extensions<'_, F>,
) -> Result<(), PolicySetValidationError>
    requires { ListsSlots bound.now }
    ensures { ValidatesOne (as_table F.answers extensions.now) (bound_id bound.now) (entry_of bound.now) result }
{
    match bound.kind() {
        BoundKind::Template(template) => validate_template(alloc, template, extensions),
        BoundKind::Policy(policy) if policy.is_static() => {
            validate_template(alloc, policy.template(), extensions)
        }
        BoundKind::Policy(link) => validate_link(link),
    }
}

// Whether the template is valid.
fn validate_template<F: ExtensionFunctionObject>(
    alloc: Global,
    template: &Template,
    extensions: &Extensions<'_, F>,
) -> Result<(), PolicySetValidationError>
    ensures { ValidatesTemplate (as_table F.answers extensions.now) (template_id template.now) (listed_slots template.now) (syntax_of template.now) result }
{
    match template.try_validate(alloc, extensions) {
        Ok(()) => Ok(()),
        Err(TemplateValidationError::Memory(error)) => Err(PolicySetValidationError::Memory(error)),
        Err(error) => {
            let id = template.id().clone()?;
            Err(PolicySetValidationError::InvalidTemplate { id, error })
        }
    }
}

// Whether the link is of a template that has slots.
fn validate_link(link: &Policy) -> Result<(), PolicySetValidationError>
    requires { is_link (policy_entry link.now) ≡ true }
    ensures { (table : Table) → ValidatesOne table (policy_id link.now) (policy_entry link.now) result }
{
    if link.template().held_slots().is_empty() {
        let id = link.id().clone()?;
        return Err(PolicySetValidationError::LinkToSlotlessTemplate { id });
    }
    Ok(())
}
