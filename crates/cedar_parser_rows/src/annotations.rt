// Annotations of a policy, made by a maker that tells what it is handed.
use crate::conversion::faults;
use cedar_cst::cst;
use cedar_cst::node::Node;
use cedar_names::identifiers::AnyId;
use cedar_names::places::Loc;
use cedar_parser::text_to_cst::parse_policy;
use cedar_policy_conversion::{PolicyError, get_ast_annotations, to_kv_pair};
use cedar_rows::{Answer, no_case};
use std::alloc::Global;
use std::collections::BTreeMap;
use std::rc::RcStr;

/// How deep a text may be nested.
const DEPTH: u32 = 16;

/// What a maker is handed: a value, if one is written, and a place.
fn handed(alloc: Global, value: Option<RcStr>, loc: Option<Loc>) -> Answer {
    match loc {
        Some(loc) => format!(in alloc; "{value:?} at {}..{}", loc.start(), loc.end()),
        None => format!(in alloc; "{value:?} nowhere"),
    }
}

/// What is made of the annotations of a policy, or of the first one alone.
pub(crate) fn answer(alloc: Global, verb: &str, text: &str) -> Answer {
    let tree = match parse_policy(alloc, text, DEPTH) {
        Ok(tree) => tree,
        Err(errors) => return errors.to_string(alloc),
    };
    let Some(cst::Policy::Policy(policy)) = &tree.node else {
        return no_case(alloc);
    };
    match (verb, policy.annotations.first()) {
        ("first", Some(node)) => first(alloc, node),
        ("all", _) => all(alloc, &policy.annotations),
        _ => no_case(alloc),
    }
}

fn first(alloc: Global, node: &Node<Option<cst::Annotation>>) -> Answer {
    let made: Result<(AnyId, String), PolicyError> = to_kv_pair(
        alloc,
        node,
        |value, loc| handed(alloc, value, loc),
    );
    match made {
        Ok((key, text)) => format!(in alloc; "{key}: {text};"),
        Err(error) => faults(alloc, &error),
    }
}

fn all(alloc: Global, nodes: &Vec<Node<Option<cst::Annotation>>>) -> Answer {
    let made: Result<BTreeMap<AnyId, String>, PolicyError> = get_ast_annotations(
        alloc,
        nodes,
        |value, loc| handed(alloc, value, loc),
    );
    match made {
        Ok(notes) => listed(alloc, &notes),
        Err(error) => faults(alloc, &error),
    }
}

fn listed(alloc: Global, notes: &BTreeMap<AnyId, String>) -> Answer {
    let mut told = String::new(alloc);
    for (key, text) in notes {
        write!(told, "{key}: {text};")?;
    }
    Ok(told)
}
