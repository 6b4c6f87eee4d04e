//! Why a text is refused. Begin with `ParseErrors`, which calls on texts give: at least one `ParseError`, which
//! says whether the text is outside the loose grammar (`ToCSTError`), means nothing (`ToASTError`), is nested
//! too deep, or met want of memory; the conversion of a tree alone gives a `ConversionError`.

pub use crate::errors::{ParseError, ParseErrors};
pub use crate::iteration::{IntoIter, Iter};
pub use crate::literals::LiteralParseError;
pub use crate::restricted::RestrictedExpressionParseError;
pub use cedar_cst::errors::{EmptyNodeError, PlacedError};
pub use cedar_faults::{ConversionError, ToASTError, ToASTErrorKind};
pub use cedar_loose::ToCSTError;
pub use cedar_policy_conversion::PolicyError;
pub use cedar_policy_parts::{
    ExpectedStaticPolicy, ExpectedTemplate, InvalidActionType, Ref, SlotsInConditionClause,
    WrongEntityArgument,
};
pub use cedar_tokens::{
    ExpectedTokenConfig, Kinds, POLICY_TOKEN_CONFIG, UnescapeError, expected_to_string,
};
pub use cedar_trees::unknowns::NonEmpty;
