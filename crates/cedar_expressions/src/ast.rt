//! Names, values, expressions, restricted expressions and extension functions.

pub use cedar_builders::own_builder::ExprBuilder;
pub use cedar_extensions::extension::Extension;
pub use cedar_extensions::functions::{CallStyle, ExtensionFunction, ExtensionOutputValue};
pub use cedar_extensions::validation::ExprValidation;
pub use cedar_extensions::validation_errors::ExprValidationError;
pub use cedar_literals::bounded_display::{BoundedDisplay, BoundedToString};
pub use cedar_literals::literals::{InputInteger, Integer, Literal};
pub use cedar_literals::operators::{BinaryOp, UnaryOp};
pub use cedar_literals::patterns::{Pattern, PatternElem};
pub use cedar_literals::slots::{Slot, SlotId};
pub use cedar_literals::types::{StaticallyTyped, Type};
pub use cedar_literals::uids::{ACTION_ENTITY_TYPE, Eid, EntityType, EntityUID, EntityUIDImpl};
pub use cedar_literals::variables::Var;
pub use cedar_names::errors::{ConvertNameError, ParseNameError, ReservedNameError};
pub use cedar_names::identifiers::{AnyId, Id, UnreservedId, is_normalized_ident};
pub use cedar_names::names::{InternalName, Name};
pub use cedar_names::shared::Shared;
pub use cedar_names::texts::SharedText;
pub use cedar_restricted::borrowed::BorrowedRestrictedExpr;
pub use cedar_restricted::conversions::PartialValueToRestrictedExprError;
pub use cedar_restricted::elements::{RestrictedElements, RestrictedPairs};
pub use cedar_restricted::errors::{InvalidRestrictedExpressionError, RestrictedExpressionError};
pub use cedar_restricted::from_expr::{NotValue, TryFromExpr};
pub use cedar_restricted::partial_values::{
    ContainsUnknown, PartialValue, PartialValueToValueError,
};
pub use cedar_restricted::restricted::RestrictedExpr;
pub use cedar_restricted::shapes::RestrictedExprShapeOnly;
pub use cedar_restricted::split::split;
pub use cedar_restricted::to_expr::ToExpr;
pub use cedar_shapes::iteration::{ExprIterator, SlotRef, Slots, Unknowns};
pub use cedar_shapes::readers::ExprReaders;
pub use cedar_shapes::shapes::{ExprShape, ExprShapeOnly};
pub use cedar_shapes::types::FunctionTypes;
pub use cedar_substitution::errors::SubstitutionError;
pub use cedar_substitution::functions::{
    SubstitutionFunction, TypedSubstitution, UntypedSubstitution,
};
pub use cedar_substitution::into_expr::IntoExpr;
pub use cedar_substitution::substitution::SubstituteExprs;
pub use cedar_substitution::told_values::Substitute;
pub use cedar_trees::errors::{DuplicateKeyError, ExpressionConstructionError};
pub use cedar_trees::expr::{Expr, ExprKind};
pub use cedar_trees::unknowns::{NonEmpty, Unknown};
pub use cedar_values::extension_values::{Argument, ExtensionValue, RepresentableExtensionValue};
pub use cedar_values::values::{LiteralSet, Literals, Set, Value, ValueKind};
