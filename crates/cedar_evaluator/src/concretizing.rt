// Requests with what is told of them.
ghost use Rattle.std.specs.Prelude.{◌≡◌, false, Some, IfOk, MatchOption, option_map};
ghost use Rattle.std.specs.Option.{option_copied};
ghost use Rattle.cedar_language.specs.Value.{RecordOf};
ghost use Rattle.cedar_extensions.specs.Table.{as_table};
ghost use Rattle.cedar_value_operators.specs.Operands.{uid_in};
ghost use Rattle.cedar_partial_evaluation.specs.Question.{Missing};
ghost use Rattle.cedar_restricted.specs.PartialValues.{partial_of};
ghost use Rattle.cedar_values.specs.Kinds.{keys_of, values_of};
ghost use Rattle.cedar_requests.specs.Contexts.{context_part};
ghost use Rattle.cedar_requests.specs.Creating.{is_record_value};
ghost use Rattle.cedar_requests.specs.Holding.{request_parts};
ghost use Rattle.cedar_requests.specs.Parts.{part_of};
ghost use Rattle.cedar_evaluator.specs.Concretizing.{TellsPart, TellsMaybeContext, TellsGivenContext, Concretizes, IsOfKind, IsOfGiven, IsOfType};

use crate::errors::ConcretizationError;
use cedar_extensions::extensions::Extensions;
use cedar_extensions::objects::ExtensionFunctionObject;
use cedar_literals::literals::Literal;
use cedar_literals::uids::{EntityType, EntityUID};
use cedar_names::shared::Shared;
use cedar_requests::{Context, EntityUIDEntry, Request};
use cedar_restricted::partial_values::PartialValue;
use cedar_substitution::finding::find_told;
use cedar_values::values::{Value, ValueKind};
use std::alloc::{AllocError, Global};
use std::collections::BTreeMap;
use std::rc::{Rc, RcStr};

/// The request with the values that are told, each for the variable or the unknown of its name. An entity
/// stands for a principal, an action or a resource that isn't given, and of the type that is stated; a
/// record stands for a context that isn't given, and one that is given is evaluated again with the values
/// in the places of its unknowns.
///
/// Refused `ValueError`, `VarConfictError` or `EntityTypeConfictError` for the first variable of which
/// another value is told, principal before action before resource before context; else `ValueEval` where
/// the context errs; and for memory. (Cedar language reference, "Partial evaluation".)
pub(crate) fn concretized<F: ExtensionFunctionObject>(
    alloc: Global,
    request: &Request,
    told: &BTreeMap<RcStr, Value>,
    extensions: &Extensions<'_, F>,
    depth: u32,
) -> Result<Request, ConcretizationError>
    ensures { Concretizes (as_table F.answers extensions.now) depth told.now.entries (request_parts request.now) result }
{
    let principal = entry_told(
        alloc,
        request.principal(),
        "principal",
        find_told(told, "principal"),
    )?;
    let action = entry_told(alloc, request.action(), "action", find_told(told, "action"))?;
    let resource = entry_told(
        alloc,
        request.resource(),
        "resource",
        find_told(told, "resource"),
    )?;
    let context = context_told(alloc, request.context(), told, extensions, depth)?;
    Ok(Request::new_unchecked(principal, action, resource, context))
}

// A principal, an action or a resource with what is told of it.
fn entry_told(
    alloc: Global,
    entry: &EntityUIDEntry,
    name: &str,
    told: Option<&Value>,
) -> Result<EntityUIDEntry, ConcretizationError>
    ensures { TellsPart name.now (part_of entry.now) (option_copied told.entry) result }
{
    let Some(value) = told else {
        return Ok(entry.clone(alloc)?);
    };
    let Some(uid) = value.as_entity() else {
        return Err(not_of_kind(alloc, name, "entity", value)?);
    };
    match entry {
        EntityUIDEntry::Known { euid, loc: _ } => {
            let existing = Value::from(Literal::from(euid.clone()?));
            Err(already_given(alloc, name, PartialValue::from(existing), value)?)
        }
        EntityUIDEntry::Unknown { ty, loc: _ } => {
            missing_told(alloc, ty.as_ref(), name, value, uid)
        }
    }
}

// One that isn't given, with the entity that is told of it.
fn missing_told(
    alloc: Global,
    ty: Option<&EntityType>,
    name: &str,
    value: &Value,
    uid: &Rc<EntityUID>,
) -> Result<EntityUIDEntry, ConcretizationError>
    requires { uid_in value.now ≡ Some uid.now.value }
    ensures { TellsPart name.now (Missing (option_copied ty.entry)) (Some value.now) result }
{
    if let Some(ty) = ty {
        if uid.entity_type() != ty {
            return Err(of_other_type(alloc, name, ty, value)?);
        }
    }
    Ok(EntityUIDEntry::Known {
        euid: uid.clone()?,
        loc: None,
    })
}

// The context with what is told of it and for its unknowns.
fn context_told<F: ExtensionFunctionObject>(
    alloc: Global,
    context: Option<&Context>,
    told: &BTreeMap<RcStr, Value>,
    extensions: &Extensions<'_, F>,
    depth: u32,
) -> Result<Option<Context>, ConcretizationError>
    ensures { TellsMaybeContext (as_table F.answers extensions.now) depth told.now.entries (option_map (λ given. context_part given.now) context.entry) result }
{
    if let Some(value) = find_told(told, "context") {
        return Ok(Some(given_context(alloc, context, value)?));
    }
    let Some(context) = context else {
        return Ok(None);
    };
    let context = context.clone(alloc)?;
    Ok(Some(context.substitute(alloc, told, extensions, depth)?))
}

// The record that is told of a context that isn't given.
fn given_context(
    alloc: Global,
    context: Option<&Context>,
    value: &Value,
) -> Result<Context, ConcretizationError>
    ensures { TellsGivenContext (option_map (λ given. context_part given.now) context.entry) value.now result }
{
    let Some(fields) = fields_of(value) else {
        return Err(not_of_kind(alloc, "context", "record", value)?);
    };
    match context {
        None => Ok(Context::Value(fields.clone()?)),
        Some(context) => {
            let existing = PartialValue::from(context.clone(alloc)?);
            Err(already_given(alloc, "context", existing, value)?)
        }
    }
}

// The attributes of the record that a value is.
fn fields_of(value: &Value) -> Option<&Rc<BTreeMap<RcStr, Value>>>
    ensures { MatchOption result (is_record_value value.now ≡ false) (λ fields. value.now ≡ RecordOf (keys_of fields.now.value.entries) (values_of fields.now.value.entries)) }
{
    match value.value_kind() {
        ValueKind::Record(fields) => Some(fields),
        ValueKind::Lit(_) | ValueKind::Set(_) | ValueKind::ExtensionValue(_) => None,
    }
}

fn not_of_kind(
    alloc: Global,
    name: &str,
    kind: &'static str,
    value: &Value,
) -> Result<ConcretizationError, AllocError>
    ensures { IfOk result (IsOfKind name.now kind.now value.now) }
{
    Ok(ConcretizationError::ValueError {
        id: RcStr::from_str(alloc, name)?,
        expected_type: kind,
        given_value: Shared::new(alloc, value.clone(alloc)?)?,
    })
}

fn already_given(
    alloc: Global,
    name: &str,
    existing: PartialValue,
    value: &Value,
) -> Result<ConcretizationError, AllocError>
    ensures { IfOk result (IsOfGiven name.now (partial_of existing) value.now) }
{
    Ok(ConcretizationError::VarConfictError {
        id: RcStr::from_str(alloc, name)?,
        existing_value: Shared::new(alloc, existing)?,
        given_value: Shared::new(alloc, value.clone(alloc)?)?,
    })
}

fn of_other_type(
    alloc: Global,
    name: &str,
    ty: &EntityType,
    value: &Value,
) -> Result<ConcretizationError, AllocError>
    ensures { IfOk result (IsOfType name.now ty.now value.now) }
{
    Ok(ConcretizationError::EntityTypeConfictError {
        id: RcStr::from_str(alloc, name)?,
        existing_value: ty.clone(alloc)?,
        given_value: Shared::new(alloc, value.clone(alloc)?)?,
    })
}
