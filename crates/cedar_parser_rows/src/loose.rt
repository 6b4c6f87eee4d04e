// Texts that are read into loose trees and printed again, or refused with a place.
use cedar_cst::node::Node;
use cedar_parser::err::{ParseError, ParseErrors, ToCSTError};
use cedar_parser::text_to_cst::{
    parse_expr, parse_ident, parse_name, parse_policies, parse_policy, parse_primary, parse_ref,
};
use cedar_rows::{Answer, no_case, tell};
use cedar_tokens::POLICY_TOKEN_CONFIG;
use std::alloc::Global;
use std::fmt::Display;

/// The errors that were told last.
pub(crate) type Told = Option<ParseErrors>;

/// The verb, and how deep the text may be nested, if that stands behind it.
fn with_depth(verb: &str) -> (&str, Option<u32>) {
    match verb.split_once('/') {
        Some((verb, depth)) => (verb, depth.parse::<u32>().ok()),
        None => (verb, None),
    }
}

pub(crate) fn read(alloc: Global, verb: &str, text: &str, errors: &mut Told) -> Answer {
    match with_depth(verb) {
        ("expression", Some(depth)) => shown(alloc, parse_expr(alloc, text, depth), errors),
        ("policies", Some(depth)) => shown(alloc, parse_policies(alloc, text, depth), errors),
        ("policy", Some(depth)) => shown(alloc, parse_policy(alloc, text, depth), errors),
        ("primary", Some(depth)) => shown(alloc, parse_primary(alloc, text, depth), errors),
        ("entity", None) => shown(alloc, parse_ref(alloc, text), errors),
        ("name", None) => shown(alloc, parse_name(alloc, text), errors),
        ("word", None) => shown(alloc, parse_ident(alloc, text), errors),
        _ => no_case(alloc),
    }
}

/// The tree as it is printed, or the errors, which are kept.
fn shown<T: Display + Drop>(
    alloc: Global,
    read: Result<Node<Option<T>>, ParseErrors>,
    kept: &mut Told,
) -> Answer {
    match read {
        Ok(tree) => printed(alloc, &tree),
        Err(errors) => {
            let text = refused(alloc, &errors)?;
            *kept = Some(errors);
            Ok(text)
        }
    }
}

fn printed<T: Display>(alloc: Global, tree: &Node<Option<T>>) -> Answer {
    match tree.as_inner() {
        Some(tree) => tree.to_string(alloc),
        None => String::from_str(alloc, "[error]"),
    }
}

/// The error of a text that is outside the grammar.
fn outside(errors: &ParseErrors) -> Option<&ToCSTError> {
    match &errors.0.head {
        ParseError::ToCST(error) => Some(error),
        _ => None,
    }
}

/// The place, and the error's text.
fn refused(alloc: Global, errors: &ParseErrors) -> Answer {
    let span = match outside(errors) {
        Some(error) => error.primary_source_span(),
        None => None,
    };
    match span {
        Some(span) => format!(in alloc; "{}..{}: {errors}", span.start, span.end),
        None => errors.to_string(alloc),
    }
}

/// What was expected where the last text is outside the grammar.
pub(crate) fn expected(alloc: Global, told: &Told) -> Answer {
    let Some(errors) = told else {
        return no_case(alloc);
    };
    match outside(errors) {
        Some(error) => tell(alloc, error.label(alloc, &POLICY_TOKEN_CONFIG)?),
        None => no_case(alloc),
    }
}
