// Errors from what was met.
ghost use Rattle.std.specs.Prelude.{◌≡◌, ◌∷◌, [], IfOk};
ghost use Rattle.std.specs.Rc.{rc_str_bytes};
ghost use Rattle.std.specs.String.{string_bytes};
ghost use Rattle.cedar_language.specs.Value as kinds;
ghost use Rattle.cedar_literals.specs.Types.{value_type_of};
ghost use Rattle.cedar_values.specs.Types.{type_of_value};
ghost use Rattle.cedar_trees.specs.Bare.{bare};
ghost use Rattle.cedar_extensions.specs.Causes as causes;
ghost use Rattle.cedar_extensions.specs.Causes.{cause_of, place_of, types_of};
ghost use Rattle.cedar_extensions.specs.Failures.{OfKind, LimitMet, failure_of};

use crate::calls::{ExtensionFunctionExecutionError, WrongNumArgumentsError};
use crate::evaluation_error::EvaluationError;
use crate::missing::{
    EntityAttrDoesNotExistError, EntityDoesNotExistError, Named, RecordAttrDoesNotExistError,
};
use crate::operands::TypeError;
use crate::unevaluated::{NonValueError, RecursionLimitError, Residual, UnlinkedSlotError};
use cedar_literals::slots::SlotId;
use cedar_literals::types::{StaticallyTyped, Type};
use cedar_literals::uids::EntityUID;
use cedar_names::names::Name;
use cedar_names::places::Loc;
use cedar_names::shared::Shared;
use cedar_trees::expr::Expr;
use cedar_trees::unknowns::NonEmpty;
use cedar_values::values::Value;
use std::alloc::{AllocError, Global};
use std::rc::{Rc, RcStr};

impl EvaluationError {
    /// The entity `uid` isn't held.
    pub fn entity_does_not_exist(uid: Rc<EntityUID>, source_loc: Option<Loc>) -> EvaluationError
        ensures kind { failure_of result ≡ OfKind kinds.EntityDoesNotExist }
        ensures cause { cause_of result ≡ causes.NoEntity uid.value }
        ensures place { place_of result ≡ source_loc }
    {
        EvaluationError::from(EntityDoesNotExistError { uid, source_loc })
    }

    /// The entity is held, and doesn't have the attribute.
    pub fn entity_attr_does_not_exist(
        entity: Rc<EntityUID>,
        attr: RcStr,
        source_loc: Option<Loc>,
    ) -> EvaluationError
        ensures kind { failure_of result ≡ OfKind kinds.EntityAttrDoesNotExist }
        ensures cause { cause_of result ≡ causes.NoAttribute entity.value (rc_str_bytes attr) }
        ensures place { place_of result ≡ source_loc }
    {
        EvaluationError::from(EntityAttrDoesNotExistError {
            entity,
            attr_or_tag: attr,
            named: Named::Attribute,
            source_loc,
        })
    }

    /// The entity is held, and doesn't have the tag.
    pub fn entity_tag_does_not_exist(
        entity: Rc<EntityUID>,
        tag: RcStr,
        source_loc: Option<Loc>,
    ) -> EvaluationError
        ensures kind { failure_of result ≡ OfKind kinds.EntityAttrDoesNotExist }
        ensures cause { cause_of result ≡ causes.NoTag entity.value (rc_str_bytes tag) }
        ensures place { place_of result ≡ source_loc }
    {
        EvaluationError::from(EntityAttrDoesNotExistError {
            entity,
            attr_or_tag: tag,
            named: Named::Tag,
            source_loc,
        })
    }

    /// A record doesn't have the attribute.
    pub fn record_attr_does_not_exist(attr: RcStr, source_loc: Option<Loc>) -> EvaluationError
        ensures kind { failure_of result ≡ OfKind kinds.RecordAttrDoesNotExist }
        ensures cause { cause_of result ≡ causes.NoKey (rc_str_bytes attr) }
        ensures place { place_of result ≡ source_loc }
    {
        EvaluationError::from(RecordAttrDoesNotExistError { attr, source_loc })
    }

    /// A value of one of the types `expected` was asked for, and `actual` is of another. It is met
    /// where `actual` was written. Refused for memory alone.
    pub fn type_error(
        alloc: Global,
        expected: NonEmpty<Type>,
        actual: &Value,
    ) -> Result<EvaluationError, AllocError>
        ensures kind { IfOk result (λ error. failure_of error ≡ OfKind kinds.TypeError) }
        ensures cause { IfOk result (λ error. cause_of error ≡
            causes.OtherType (types_of expected) (type_of_value actual.now)) }
    {
        let source_loc = match actual.source_loc() {
            None => None,
            Some(loc) => Some(loc.clone(alloc)?),
        };
        Ok(EvaluationError::from(TypeError {
            expected: Shared::new(alloc, expected)?,
            actual: Shared::new(alloc, actual.type_of(alloc)?)?,
            source_loc,
        }))
    }

    /// A value of the type `expected` was asked for, and `actual` is of another. It is met where
    /// `actual` was written. Refused for memory alone.
    pub fn type_error_single(
        alloc: Global,
        expected: Type,
        actual: &Value,
    ) -> Result<EvaluationError, AllocError>
        ensures kind { IfOk result (λ error. failure_of error ≡ OfKind kinds.TypeError) }
        ensures cause { IfOk result (λ error. cause_of error ≡
            causes.OtherType (value_type_of expected ∷ []) (type_of_value actual.now)) }
    {
        let expected = NonEmpty {
            head: expected,
            tail: Vec::new(alloc),
        };
        EvaluationError::type_error(alloc, expected, actual)
    }

    /// The function takes `expected` arguments, and was given `actual`.
    pub fn wrong_num_arguments(
        function_name: Name,
        expected: usize,
        actual: usize,
        source_loc: Option<Loc>,
    ) -> EvaluationError
        ensures kind { failure_of result ≡ OfKind kinds.WrongNumArguments }
        ensures cause { cause_of result ≡ causes.OtherCount function_name expected actual }
        ensures place { place_of result ≡ source_loc }
    {
        let error = WrongNumArgumentsError::new(function_name, expected, actual, source_loc);
        EvaluationError::from(error)
    }

    /// No entity is linked to the slot.
    pub fn unlinked_slot(slot: SlotId, source_loc: Option<Loc>) -> EvaluationError
        ensures kind { failure_of result ≡ OfKind kinds.UnlinkedSlot }
        ensures cause { cause_of result ≡ causes.Unlinked slot }
        ensures place { place_of result ≡ source_loc }
    {
        EvaluationError::from(UnlinkedSlotError { slot, source_loc })
    }

    /// A function of the extension has no answer, and says why.
    pub fn failed_extension_function_application(
        extension_name: Name,
        msg: String,
        source_loc: Option<Loc>,
    ) -> EvaluationError
        ensures kind { failure_of result ≡ OfKind kinds.FailedExtensionFunctionExecution }
        ensures cause { cause_of result ≡ causes.NoAnswer extension_name (string_bytes msg) }
        ensures place { place_of result ≡ source_loc }
    {
        EvaluationError::from(ExtensionFunctionExecutionError {
            extension_name,
            msg,
            source_loc,
        })
    }

    /// A value was asked for, and `expr` is left, which depends on something unknown. It is met where
    /// `expr` was read. Refused for memory alone.
    pub fn non_value(alloc: Global, expr: Expr) -> Result<EvaluationError, AllocError>
        ensures kind { IfOk result (λ error. failure_of error ≡ OfKind kinds.NonValue) }
        ensures cause { IfOk result (λ error. cause_of error ≡ causes.Residual (bare expr)) }
        ensures place { IfOk result (λ error. place_of error ≡ expr.source_loc) }
    {
        let source_loc = match expr.source_loc() {
            None => None,
            Some(loc) => Some(loc.clone(alloc)?),
        };
        Ok(EvaluationError::from(NonValueError {
            expr: Shared::new(alloc, Residual { expr })?,
            source_loc,
        }))
    }

    /// The limit on nested evaluations was met.
    pub fn recursion_limit(source_loc: Option<Loc>) -> EvaluationError
        ensures limit { failure_of result ≡ LimitMet }
        ensures place { place_of result ≡ source_loc }
    {
        EvaluationError::from(RecursionLimitError { source_loc })
    }
}
