// Texts that are read by the strict grammar, with no function of an extension but `unknown` in bodies.
use cedar_data::{GivenQuestion, TypeNames, read_data, read_question};
use cedar_extensions::extensions::Extensions;
use cedar_faults::ExtStyles;
use cedar_literals::literals::Literal;
use cedar_parser::err::{
    LiteralParseError, ParseError, ParseErrors, RestrictedExpressionParseError,
};
use cedar_parser::prelude::StylesOfExtensions;
use cedar_parser::strict::{
    parse_euid_strict, parse_expr_strict, parse_literal_strict, parse_policyset_strict,
    parse_restrictedexpr,
};
use cedar_policy_set::sets::PolicySet;
use cedar_restricted::restricted::RestrictedExpr;
use cedar_rows::{Answer, no_case, put};
use cedar_values::values::Value;
use std::alloc::{AllocError, Global};
use std::fmt::Display;

/// How deep a text may be nested.
const DEPTH: u32 = 4;

pub(crate) fn read(alloc: Global, verb: &str, text: &str) -> Answer {
    match verb {
        "body" | "data" | "literal" => of_bodies(alloc, verb, text, &bodies(alloc)?),
        "policies" | "expression" => of_policies(alloc, verb, text, &policies(alloc)?),
        "entity" => told(alloc, parse_euid_strict(alloc, text)),
        "question" => question(
            alloc,
            read_question(alloc, text, &mut TypeNames::new(alloc), DEPTH),
        ),
        _ => no_case(alloc),
    }
}

fn of_bodies(alloc: Global, verb: &str, text: &str, styles: &ExtStyles) -> Answer {
    match verb {
        "body" => body(alloc, parse_restrictedexpr(alloc, text, styles, DEPTH)),
        "data" => data(
            alloc,
            read_data(alloc, text, styles, &mut TypeNames::new(alloc), DEPTH),
        ),
        "literal" => literal(alloc, parse_literal_strict(alloc, text, styles, DEPTH)),
        _ => no_case(alloc),
    }
}

fn of_policies(alloc: Global, verb: &str, text: &str, styles: &ExtStyles) -> Answer {
    match verb {
        "policies" => set(alloc, parse_policyset_strict(alloc, text, styles, DEPTH)),
        "expression" => told(alloc, parse_expr_strict(alloc, text, styles, DEPTH)),
        _ => no_case(alloc),
    }
}

/// What was read straight, or that it is left to the parser.
fn data(alloc: Global, read: Result<Option<RestrictedExpr>, AllocError>) -> Answer {
    match read? {
        Some(body) => body.to_string(alloc),
        None => left(alloc),
    }
}

/// The principal, the action, the resource and the context of a question that was read straight, or that it is left to
/// the parser.
fn question(alloc: Global, read: Result<Option<GivenQuestion>, AllocError>) -> Answer {
    let Some(question) = read? else {
        return left(alloc);
    };
    let context = Value::record_arc(question.context.clone()?, None);
    let principal = question.principal.as_ref();
    let action = question.action.as_ref();
    let resource = question.resource.as_ref();
    format!(in alloc; "{principal} {action} {resource} {context}")
}

fn left(alloc: Global) -> Answer {
    String::from_str(alloc, "left to the parser")
}

fn bodies(alloc: Global) -> Result<ExtStyles, AllocError> {
    let extensions: Extensions<'_> = Extensions::all_available(alloc)?;
    ExtStyles::from_extensions(alloc, &extensions)
}

fn policies(alloc: Global) -> Result<ExtStyles, AllocError> {
    let extensions: Extensions<'_> = Extensions::all_available(alloc)?;
    ExtStyles::for_policies(alloc, &extensions)
}

/// What was read, or all errors with their places.
fn told<T: Display + Drop>(alloc: Global, read: Result<T, ParseErrors>) -> Answer {
    match read {
        Ok(value) => value.to_string(alloc),
        Err(errors) => all(alloc, &errors),
    }
}

fn set(alloc: Global, read: Result<PolicySet, ParseErrors>) -> Answer {
    match read {
        Ok(set) => crate::conversion::each(alloc, &set),
        Err(errors) => all(alloc, &errors),
    }
}

fn body(alloc: Global, read: Result<RestrictedExpr, RestrictedExpressionParseError>) -> Answer {
    match read {
        Ok(body) => body.to_string(alloc),
        Err(RestrictedExpressionParseError::Parse(errors)) => all(alloc, &errors),
        Err(error) => error.clone(alloc)?.to_string(alloc),
    }
}

fn literal(alloc: Global, read: Result<Literal, LiteralParseError>) -> Answer {
    match read {
        Ok(literal) => literal.to_string(alloc),
        Err(LiteralParseError::Parse(errors)) => all(alloc, &errors),
        Err(error) => error.clone(alloc)?.to_string(alloc),
    }
}

fn all(alloc: Global, errors: &ParseErrors) -> Answer {
    let mut told = String::new(alloc);
    for next in errors {
        add(&mut told, error(alloc, next))?;
    }
    Ok(told)
}

/// Adds an error behind others.
fn add(told: &mut String, next: Answer) -> Result<(), AllocError> {
    let between = if told.is_empty() { "" } else { "; " };
    put(told, between, next)
}

/// An error, after its place.
fn error(alloc: Global, error: &ParseError) -> Answer {
    match error {
        ParseError::ToCST(error) => match error.primary_source_span() {
            Some(span) => format!(in alloc; "{}..{}: {error}", span.start, span.end),
            None => error.to_string(alloc),
        },
        ParseError::ToAST(fault) => crate::conversion::fault(alloc, fault),
        _ => error.to_string(alloc),
    }
}
