// Texts that are read and converted, and printed again; and texts that mean nothing, with their faults.
use cedar_builders::own_builder::ExprBuilder;
use cedar_conversion::{to_any_ident, to_expr, to_valid_ident};
use cedar_cst::cst;
use cedar_cst::node::Node;
use cedar_faults::{ConversionError, ExtStyles, ToASTError};
use cedar_names::errors::ParseNameError;
use cedar_names::reading::FromNormalizedStr;
use cedar_parser::text_to_cst::{parse_expr, parse_ident, parse_policies, parse_policy};
use cedar_policies::static_policies::StaticPolicy;
use cedar_policies::templates::Template;
use cedar_policy_conversion::{
    PolicyError, to_policy, to_policy_or_template, to_policy_template, to_policyset,
    with_generated_policyids,
};
use cedar_policy_parts::PolicyID;
use cedar_policy_set::sets::PolicySet;
use cedar_rows::{Answer, no_case, put};
use cedar_trees::errors::ExpressionConstructionError;
use either::Either;
use std::alloc::Global;
use std::fmt::Display;

/// How deep a text may be nested.
const DEPTH: u32 = 16;

/// No functions and no methods.
pub(crate) fn none(alloc: Global) -> ExtStyles {
    ExtStyles::new(Vec::new(alloc), Vec::new(alloc))
}

/// The functions and methods that texts may call from now on.
pub(crate) fn listed(
    alloc: Global,
    functions: &str,
    methods: &str,
    held: &mut ExtStyles,
) -> Answer {
    match styles(alloc, functions, methods) {
        Ok(styles) => {
            *held = styles;
            String::from_str(alloc, "kept")
        }
        Err(error) => error.to_string(alloc),
    }
}

fn styles(alloc: Global, functions: &str, methods: &str) -> Result<ExtStyles, ParseNameError> {
    let functions = names(alloc, functions)?;
    Ok(ExtStyles::new(functions, names(alloc, methods)?))
}

/// What stands between the commas.
fn names<T: FromNormalizedStr + Drop>(
    alloc: Global,
    texts: &str,
) -> Result<Vec<T>, ParseNameError> {
    let mut names = Vec::new(alloc);
    for text in texts.split(',') {
        names.push(T::from_normalized_str(alloc, text)?)?;
    }
    Ok(names)
}

/// The expression of a text.
pub(crate) fn expression(alloc: Global, text: &str, styles: &ExtStyles) -> Answer {
    match parse_expr(alloc, text, DEPTH) {
        Ok(tree) => converted(alloc, to_expr::<ExprBuilder>(alloc, &tree, styles)),
        Err(errors) => errors.to_string(alloc),
    }
}

/// The policy set of a text, or its policies as they are written, under their numbers.
pub(crate) fn policies(alloc: Global, verb: &str, text: &str, styles: &ExtStyles) -> Answer {
    let tree = match parse_policies(alloc, text, DEPTH) {
        Ok(tree) => tree,
        Err(errors) => return errors.to_string(alloc),
    };
    match verb {
        "numbered" => numbered(alloc, &tree),
        "set" => match to_policyset(alloc, &tree, styles) {
            Ok(set) => each(alloc, &set),
            Err(error) => faults(alloc, &error),
        },
        _ => no_case(alloc),
    }
}

/// The policies of a tree, each with its id and its place.
fn numbered(alloc: Global, tree: &Node<Option<cst::Policies>>) -> Answer {
    let policies = match with_generated_policyids(alloc, tree) {
        Ok(policies) => policies,
        Err(error) => return faults(alloc, &error),
    };
    let mut told = String::new(alloc);
    for policy in policies {
        let (id, node) = policy?;
        let next = placed(alloc, &id, node)?;
        told.push_str(next.as_str())?;
    }
    Ok(told)
}

fn placed(alloc: Global, id: &PolicyID, node: &Node<Option<cst::Policy>>) -> Answer {
    match node.loc() {
        Some(loc) => format!(in alloc; "{id} at {}..{} ", loc.start(), loc.end()),
        None => format!(in alloc; "{id} nowhere "),
    }
}

/// The static policy or template of a text, under the id `p`.
pub(crate) fn policy(alloc: Global, verb: &str, text: &str, styles: &ExtStyles) -> Answer {
    match parse_policy(alloc, text, DEPTH) {
        Ok(tree) => policy_of(alloc, verb, &tree, styles),
        Err(errors) => errors.to_string(alloc),
    }
}

fn policy_of(
    alloc: Global,
    verb: &str,
    tree: &Node<Option<cst::Policy>>,
    styles: &ExtStyles,
) -> Answer {
    let id = PolicyID::from_string(alloc, "p")?;
    match verb {
        "static" => converted(alloc, to_policy(alloc, tree, id, styles)),
        "template" => converted(alloc, to_policy_template(alloc, tree, id, styles)),
        "either" => sorted(alloc, to_policy_or_template(alloc, tree, id, styles)),
        _ => no_case(alloc),
    }
}

/// The identifier that a word is, and what isn't one.
pub(crate) fn word(alloc: Global, verb: &str, text: &str) -> Answer {
    let node = match parse_ident(alloc, text) {
        Ok(node) => node,
        Err(errors) => return errors.to_string(alloc),
    };
    match verb {
        "any" => converted(
            alloc,
            to_any_ident::<ExpressionConstructionError>(alloc, &node),
        ),
        "valid" => converted(
            alloc,
            to_valid_ident::<ExpressionConstructionError>(alloc, &node),
        ),
        _ => no_case(alloc),
    }
}

/// What was made, as it is printed, or all faults.
fn converted<T: Display + Drop, E: Display + Drop>(
    alloc: Global,
    found: Result<T, ConversionError<E>>,
) -> Answer {
    match found {
        Ok(value) => value.to_string(alloc),
        Err(error) => faults(alloc, &error),
    }
}

/// Which of the two was made, or all faults.
fn sorted(alloc: Global, found: Result<Either<StaticPolicy, Template>, PolicyError>) -> Answer {
    match found {
        Ok(Either::Left(policy)) => format!(in alloc; "static {policy}"),
        Ok(Either::Right(template)) => format!(in alloc; "template {template}"),
        Err(error) => faults(alloc, &error),
    }
}

/// The policies and templates of a set, each after its id.
pub(crate) fn each(alloc: Global, set: &PolicySet) -> Answer {
    let mut told = String::new(alloc);
    for template in set.all_templates() {
        let next = format!(in alloc; "{}: {template} ", template.id());
        put(&mut told, "", next)?;
    }
    Ok(told)
}

/// All faults in their order, or the builder's own error.
pub(crate) fn faults<E: Display>(alloc: Global, error: &ConversionError<E>) -> Answer {
    let ConversionError::Faults(faults) = error else {
        return error.to_string(alloc);
    };
    let mut told = fault(alloc, &faults.head)?;
    for next in &faults.tail {
        put(&mut told, "; ", fault(alloc, next))?;
    }
    Ok(told)
}

/// A fault with its place.
pub(crate) fn fault(alloc: Global, fault: &ToASTError) -> Answer {
    match &fault.loc {
        Some(loc) => format!(in alloc; "{}..{}: {fault}", loc.start(), loc.end()),
        None => format!(in alloc; "nowhere: {fault}"),
    }
}
