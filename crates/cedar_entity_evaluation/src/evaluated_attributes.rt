//! The evaluation of attributes and tags.
ghost use Rattle.std.specs.Prelude.{◌≡◌, IfOk, IfErr};
ghost use Rattle.std.specs.Rc.{rc_str_bytes};
ghost use Rattle.cedar_extensions.specs.Table.{as_table};
ghost use Rattle.cedar_entities.specs.Attributes.{seen_entries};
ghost use Rattle.cedar_restricted.specs.Views.{restricted_entries};
ghost use Rattle.cedar_entity_evaluation.specs.Evaluated.{AreGiven, AreWithin};
ghost use Rattle.cedar_entity_evaluation.specs.Refused.{IfNoValue, IsFirstRefused};

use crate::evaluation_errors::{EntityAttrEvaluationError, EntityCreationError};
use cedar_extensions::evaluation_error::EvaluationError;
use cedar_extensions::extensions::Extensions;
use cedar_extensions::objects::ExtensionFunctionObject;
use cedar_literals::uids::EntityUID;
use cedar_names::shared::Shared;
use cedar_restricted::partial_values::PartialValue;
use cedar_restricted::restricted::RestrictedExpr;
use cedar_restricted_evaluation::interpret_restricted;
use std::alloc::{AllocError, Global};
use std::collections::BTreeMap;
use std::rc::RcStr;

/// What the expressions of an entity's attributes give, or of its tags, in the order of their names; the
/// first one without a value is refused.
pub fn evaluate_all<F: ExtensionFunctionObject>(
    alloc: Global,
    uid: EntityUID,
    was_attr: bool,
    exprs: BTreeMap<RcStr, RestrictedExpr>,
    extensions: &Extensions<'_, F>,
    depth: u32,
) -> Result<BTreeMap<RcStr, PartialValue>, EntityCreationError>
    ensures given { IfOk result (λ values. AreGiven (as_table F.answers extensions.now) (restricted_entries exprs.entries) (seen_entries values.entries)) }
    ensures limit { IfOk result (λ values. AreWithin depth (restricted_entries exprs.entries)) }
    ensures refused { IfErr result (λ error. IfNoValue error (λ e. (e.uid ≡ uid) × (e.was_attr ≡ was_attr)
        × IsFirstRefused (as_table F.answers extensions.now) depth (restricted_entries exprs.entries) (rc_str_bytes e.attr_or_tag) e.err)) }
{
    let mut values = BTreeMap::new(alloc);
    for (name, expr) in exprs {
        match interpret_restricted(alloc, expr.as_borrowed(), extensions, depth) {
            Ok(value) => {
                values.insert(name, value)?;
            }
            Err(err) => return Err(refusal(alloc, uid, name, was_attr, err)),
        }
    }
    Ok(values)
}

// The refusal of an attribute or tag that has no value. Want of memory is none of its own.
fn refusal(
    alloc: Global,
    uid: EntityUID,
    attr_or_tag: RcStr,
    was_attr: bool,
    err: EvaluationError,
) -> EntityCreationError
    ensures { IfNoValue result (λ e. (e.uid ≡ uid) × (e.was_attr ≡ was_attr) × (e.attr_or_tag ≡ attr_or_tag) × (e.err ≡ err)) }
{
    if let EvaluationError::Memory = &err {
        return EntityCreationError::Memory(AllocError);
    }
    match Shared::new(alloc, err) {
        Ok(err) => EntityCreationError::Evaluation(EntityAttrEvaluationError {
            uid,
            attr_or_tag,
            was_attr,
            err,
        }),
        Err(error) => EntityCreationError::Memory(error),
    }
}
