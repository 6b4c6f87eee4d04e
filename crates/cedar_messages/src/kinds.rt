// Errors by their names.
use cedar_parser::err::{ParseError, ToASTErrorKind, ToCSTError};

/// The name of an error of a text: that of its kind where a part of the text means nothing, what is met where the text is
/// outside the grammar, or else its own.
pub(crate) fn kind_of(error: &ParseError, text: &str) -> &'static str {
    match error {
        ParseError::ToCST(error) => met(error, text),
        ParseError::ToAST(error) => policy_kind(error.kind()),
        ParseError::Depth => "Depth",
        ParseError::Memory => "Memory",
    }
}

/// What is met where a text is outside the grammar: a token, no token, or the text's end.
fn met(error: &ToCSTError, text: &str) -> &'static str {
    match error.primary_source_span() {
        Some(span) if span.start >= text.len() => "UnrecognizedEof",
        Some(span) if span.start < span.end => "UnrecognizedToken",
        _ => "InvalidToken",
    }
}

/// Faults of policies, their scopes and clauses.
fn policy_kind(kind: &ToASTErrorKind) -> &'static str {
    match kind {
        ToASTErrorKind::DuplicateTemplateId(_) => "DuplicateTemplateId",
        ToASTErrorKind::DuplicatePolicyId(_) => "DuplicatePolicyId",
        ToASTErrorKind::ExpectedStaticPolicy(_) => "ExpectedStaticPolicy",
        ToASTErrorKind::ExpectedTemplate(_) => "ExpectedTemplate",
        ToASTErrorKind::DuplicateAnnotation(_) => "DuplicateAnnotation",
        ToASTErrorKind::SlotsInConditionClause(_) => "SlotsInConditionClause",
        ToASTErrorKind::InvalidEffect(_) => "InvalidEffect",
        ToASTErrorKind::InvalidCondition(_) => "InvalidCondition",
        ToASTErrorKind::EmptyClause(_) => "EmptyClause",
        ToASTErrorKind::MissingScopeVariable(_) => "MissingScopeVariable",
        ToASTErrorKind::ExtraScopeElement(_) => "ExtraScopeElement",
        ToASTErrorKind::InvalidScopeVariable(_) => "InvalidScopeVariable",
        ToASTErrorKind::IncorrectVariable { .. } => "IncorrectVariable",
        ToASTErrorKind::InvalidScopeOperator(_) => "InvalidScopeOperator",
        ToASTErrorKind::InvalidActionScopeOperator(_) => "InvalidActionScopeOperator",
        ToASTErrorKind::IsInActionScope => "IsInActionScope",
        ToASTErrorKind::IsWithEq => "IsWithEq",
        ToASTErrorKind::InvalidActionType(_) => "InvalidActionType",
        ToASTErrorKind::TypeConstraints => "TypeConstraints",
        ToASTErrorKind::WrongEntityArgument(_) => "WrongEntityArgument",
        ToASTErrorKind::InvertedIsIn => "InvertedIsIn",
        ToASTErrorKind::InvalidSlot(_) => "InvalidSlot",
        other => name_kind(other),
    }
}

/// Faults of names, calls and attributes.
fn name_kind(kind: &ToASTErrorKind) -> &'static str {
    match kind {
        ToASTErrorKind::ReservedIdentifier(_) => "ReservedIdentifier",
        ToASTErrorKind::InvalidIdentifier(_) => "InvalidIdentifier",
        ToASTErrorKind::ReservedNamespace(_) => "ReservedNamespace",
        ToASTErrorKind::ArbitraryVariable(_) => "ArbitraryVariable",
        ToASTErrorKind::InvalidAttribute(_) => "InvalidAttribute",
        ToASTErrorKind::InvalidHasRHS(_) => "InvalidHasRHS",
        ToASTErrorKind::PathAsAttribute(_) => "PathAsAttribute",
        ToASTErrorKind::FunctionCallOnMethod(_) => "FunctionCallOnMethod",
        ToASTErrorKind::MethodCallOnFunction(_) => "MethodCallOnFunction",
        ToASTErrorKind::NoMethods(_, _) => "NoMethods",
        ToASTErrorKind::UnknownMethod { .. } => "UnknownMethod",
        ToASTErrorKind::UnknownFunction { .. } => "UnknownFunction",
        ToASTErrorKind::VariableCall(_) => "VariableCall",
        ToASTErrorKind::ExpressionCall => "ExpressionCall",
        ToASTErrorKind::InvalidAccess { .. } => "InvalidAccess",
        ToASTErrorKind::InvalidIndex { .. } => "InvalidIndex",
        ToASTErrorKind::NonStringIndex => "NonStringIndex",
        ToASTErrorKind::MembershipInvariantViolation => "MembershipInvariantViolation",
        ToASTErrorKind::WrongArity { .. } => "WrongArity",
        other => operand_kind(other),
    }
}

/// Faults of operators and operands; all others have been named.
fn operand_kind(kind: &ToASTErrorKind) -> &'static str {
    match kind {
        ToASTErrorKind::InvalidSingleEq => "InvalidSingleEq",
        ToASTErrorKind::InvalidString(_) => "InvalidString",
        ToASTErrorKind::InvalidPattern(_) => "InvalidPattern",
        ToASTErrorKind::InvalidIsType(_) => "InvalidIsType",
        ToASTErrorKind::WrongNode { .. } => "WrongNode",
        ToASTErrorKind::AmbiguousOperators => "AmbiguousOperators",
        ToASTErrorKind::UnsupportedDivision => "UnsupportedDivision",
        ToASTErrorKind::UnsupportedModulo => "UnsupportedModulo",
        ToASTErrorKind::ExpressionConstructionError(_) => "ExpressionConstructionError",
        ToASTErrorKind::IntegerLiteralTooLarge(_) => "IntegerLiteralTooLarge",
        ToASTErrorKind::UnaryOpLimit(_) => "UnaryOpLimit",
        ToASTErrorKind::UnsupportedEntityLiterals => "UnsupportedEntityLiterals",
        ToASTErrorKind::EmptyNodeInvariantViolation => "EmptyNodeInvariantViolation",
        ToASTErrorKind::Unescape(_) => "Unescape",
        _ => "ToASTError",
    }
}
