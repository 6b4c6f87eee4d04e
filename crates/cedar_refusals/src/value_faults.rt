// Why the values of a body are refused.
use crate::body_faults::{BodyFault, span_of};
use crate::naming::is_variable;
use crate::seen::Seen;
use crate::shapes::part_at;
use cedar_extensions::evaluation_error::EvaluationError;
use cedar_extensions::objects::ExtensionFunctionObject;
use cedar_held::{refusal, string_of};
use cedar_literals::escapes::Escaped;
use cedar_restricted::borrowed::BorrowedRestrictedExpr;
use cedar_restricted::partial_values::PartialValue;
use cedar_restricted_evaluation::interpret_restricted;
use cedar_session::{Refusal, Verb};
use cedar_shapes::readers::ExprReaders;
use cedar_trees::expr::{Expr, ExprKind};
use std::alloc::{AllocError, Global};

/// The first value of a body by which it is so refused.
pub(crate) fn value_fault<F: ExtensionFunctionObject>(
    alloc: Global,
    seen: &Seen<'_, '_, F>,
    verb: Verb,
    refused: Refusal,
    body: BorrowedRestrictedExpr<'_>,
) -> Result<Option<BodyFault>, AllocError> {
    match verb {
        Verb::Add | Verb::Put => entities_fault(alloc, seen, refused, body),
        Verb::Ask => match part_at(body, "context") {
            Some(context) => fields_fault(alloc, seen, refused, "the context: key", context),
            None => Ok(None),
        },
        Verb::Tell => fields_fault(alloc, seen, refused, "the body: key", body),
        _ => Ok(None),
    }
}

fn entities_fault<F: ExtensionFunctionObject>(
    alloc: Global,
    seen: &Seen<'_, '_, F>,
    refused: Refusal,
    body: BorrowedRestrictedExpr<'_>,
) -> Result<Option<BodyFault>, AllocError> {
    let Some(entities) = body.as_set_elements() else {
        return Ok(None);
    };
    let mut number = 0usize;
    for entity in entities {
        number = number.saturating_add(1);
        if let Some(fault) = entity_fault(alloc, seen, refused, number, entity)? {
            return Ok(Some(fault));
        }
    }
    Ok(None)
}

fn entity_fault<F: ExtensionFunctionObject>(
    alloc: Global,
    seen: &Seen<'_, '_, F>,
    refused: Refusal,
    number: usize,
    entity: BorrowedRestrictedExpr<'_>,
) -> Result<Option<BodyFault>, AllocError> {
    if let Some(attrs) = part_at(entity, "attrs") {
        let what = format!(in alloc; "entity {number}: attribute")?;
        let fault = fields_fault(alloc, seen, refused, what.as_str(), attrs)?;
        if fault.is_some() {
            return Ok(fault);
        }
    }
    match part_at(entity, "tags") {
        Some(tags) => {
            let what = format!(in alloc; "entity {number}: tag")?;
            fields_fault(alloc, seen, refused, what.as_str(), tags)
        }
        None => Ok(None),
    }
}

fn fields_fault<F: ExtensionFunctionObject>(
    alloc: Global,
    seen: &Seen<'_, '_, F>,
    refused: Refusal,
    what: &str,
    record: BorrowedRestrictedExpr<'_>,
) -> Result<Option<BodyFault>, AllocError> {
    let Some(pairs) = record.as_record_pairs() else {
        return Ok(None);
    };
    for (key, value) in pairs {
        let fault = field_fault(alloc, seen, refused, value)?;
        if let Some(fault) = fault {
            return Ok(Some(behind_key(alloc, what, key.as_str(), fault)?));
        }
    }
    Ok(None)
}

fn behind_key(
    alloc: Global,
    what: &str,
    key: &str,
    fault: BodyFault,
) -> Result<BodyFault, AllocError> {
    let BodyFault { span, message } = fault;
    let key = Escaped::new(key);
    let message = format!(in alloc; "{what} \"{key}\": {message}")?;
    Ok(BodyFault { span, message })
}

fn field_fault<F: ExtensionFunctionObject>(
    alloc: Global,
    seen: &Seen<'_, '_, F>,
    refused: Refusal,
    value: BorrowedRestrictedExpr<'_>,
) -> Result<Option<BodyFault>, AllocError> {
    match refused {
        Refusal::BadUnknown => unnamed_fault(alloc, value),
        _ => match interpret_restricted(alloc, value, seen.extensions, seen.depth) {
            Ok(partial) => open_fault(alloc, refused, value, &partial),
            Err(error) => error_fault(alloc, refused, &error),
        },
    }
}

fn open_fault(
    alloc: Global,
    refused: Refusal,
    value: BorrowedRestrictedExpr<'_>,
    partial: &PartialValue,
) -> Result<Option<BodyFault>, AllocError> {
    if refused != Refusal::NotAValue {
        return Ok(None);
    }
    match partial {
        PartialValue::Value(_) => Ok(None),
        PartialValue::Residual(_) => {
            let message = String::from_str(alloc, "an unknown stands here")?;
            Ok(Some(BodyFault::of(value, message)))
        }
    }
}

fn error_fault(
    alloc: Global,
    refused: Refusal,
    error: &EvaluationError,
) -> Result<Option<BodyFault>, AllocError> {
    let found = refusal(error);
    if found == Refusal::Memory {
        return Err(AllocError);
    }
    if found != refused {
        return Ok(None);
    }
    let message = format!(in alloc; "{error}")?;
    Ok(Some(BodyFault {
        span: span_of(error.source_loc()),
        message,
    }))
}

/// The first call that names no unknown of its own.
fn unnamed_fault(
    alloc: Global,
    value: BorrowedRestrictedExpr<'_>,
) -> Result<Option<BodyFault>, AllocError> {
    let Some(call) = first_unnamed(alloc, value.as_expr())? else {
        return Ok(None);
    };
    let message = "`unknown` is called on no name, or on that of a variable";
    Ok(Some(BodyFault {
        span: span_of(call.source_loc()),
        message: String::from_str(alloc, message)?,
    }))
}

fn first_unnamed<'e>(alloc: Global, value: &'e Expr) -> Result<Option<&'e Expr>, AllocError> {
    for part in value.subexpressions(alloc)? {
        if is_unnamed(part) {
            return Ok(Some(part));
        }
    }
    Ok(None)
}

fn is_unnamed(part: &Expr) -> bool {
    let ExprKind::ExtensionFunctionApp { fn_name: _, args } = &part.expr_kind else {
        return false;
    };
    match args.first() {
        None => false,
        Some(name) => match string_of(name) {
            Some(name) => is_variable(name.as_str()),
            None => true,
        },
    }
}
