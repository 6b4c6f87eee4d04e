//! Attributes and tags against tables of extension functions.
ghost use Rattle.cedar_extensions.specs.Table.{as_table};
ghost use Rattle.cedar_restricted.specs.PartialValues.{partial_of};
ghost use Rattle.cedar_entities.specs.Attributes.{seen_entries};
ghost use Rattle.cedar_entity_evaluation.specs.Calls.{calls_at, calls_among};
ghost use Rattle.cedar_entity_evaluation.specs.Validated.{ValidatesCalls};

use cedar_extensions::extensions::Extensions;
use cedar_extensions::objects::ExtensionFunctionObject;
use cedar_extensions::validation::ExprValidation;
use cedar_extensions::validation_errors::ExprValidationError;
use cedar_restricted::partial_values::PartialValue;
use std::alloc::Global;
use std::collections::btree_map;
use std::rc::RcStr;

// Whether the calls of what stands at a name fit the table. A value has none.
fn validate_attribute<F: ExtensionFunctionObject>(
    alloc: Global,
    attribute: &PartialValue,
    extensions: &Extensions<'_, F>,
) -> Result<(), ExprValidationError>
    ensures { ValidatesCalls (as_table F.answers extensions.now) (calls_at (partial_of attribute.now)) result }
{
    match attribute {
        PartialValue::Value(_value) => Ok(()),
        PartialValue::Residual(expr) => expr.try_validate(alloc, extensions),
    }
}

/// Whether the calls of attributes or tags fit the table.
pub(crate) fn validate_all<F: ExtensionFunctionObject>(
    alloc: Global,
    attributes: btree_map::Iter<'_, RcStr, PartialValue>,
    extensions: &Extensions<'_, F>,
) -> Result<(), ExprValidationError>
    ensures { ValidatesCalls (as_table F.answers extensions.now) (calls_among (seen_entries attributes.entry)) result }
{
    for (_name, attribute) in attributes {
        validate_attribute(alloc, attribute, extensions)?;
    }
    Ok(())
}
