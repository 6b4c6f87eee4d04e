// Whole scopes.
ghost use Rattle.std.specs.Prelude.{◌≡◌, ◌∷◌, drop, map, slice_get, IfErr};
ghost use Rattle.std.specs.Option.{option_map};
ghost use Rattle.cedar_grammar.specs.Token as token;
ghost use Rattle.cedar_grammar.specs.Converting.{constraint, action_constraint, scope_syntax};
ghost use Rattle.cedar_cst.specs.View.{shown_variable_def};
ghost use Rattle.cedar_policy_parts.specs.Actions.{action_of};
ghost use Rattle.cedar_faults.specs.Reasons.{IsFault};
ghost use Rattle.cedar_faults.specs.Converts.{and_then, Finds};
ghost use Rattle.cedar_faults.specs.Telling.{TellsOnly};
ghost use Rattle.cedar_policy_conversion.specs.Scopes.{scope_of};
ghost use Rattle.cedar_policy_conversion.specs.Scopes as scopes;
ghost use Rattle.cedar_policy_conversion.specs.PartsShow.{principal_shows, action_part_shows, resource_shows, extra_shows, extras_show, scope_shows};

use crate::actions::to_action_constraint;
use crate::constraints::to_principal_or_resource_constraint;
use cedar_cst::cst::VariableDef;
use cedar_cst::node::Node;
use cedar_faults::{ConversionError, ToASTErrorKind, flatten_tuple_4};
use cedar_literals::variables::Var;
use cedar_names::places::Loc;
use cedar_policy_parts::actions::ActionConstraint;
use cedar_policy_parts::constraints::PrincipalOrResource;
use cedar_policy_parts::principals::PrincipalConstraint;
use cedar_policy_parts::resources::ResourceConstraint;
use std::alloc::{AllocError, Global};
use std::rc::RcStr;

// The fault of a scope that lacks this variable.
fn lacking<E: Drop>(alloc: Global, var: Var, loc: Option<&Loc>) -> ConversionError<E>
    ensures fault { IsFault result }
    ensures kind { TellsOnly result (λ kind. kind ≡ ToASTErrorKind.MissingScopeVariable var) }
{
    ConversionError::fault(alloc, ToASTErrorKind::MissingScopeVariable(var), loc)
}

// What is asked of the principal.
fn to_principal<E: Drop>(
    alloc: Global,
    part: Option<&Node<Option<VariableDef>>>,
    loc: Option<&Loc>,
) -> Result<PrincipalConstraint, ConversionError<E>>
    ensures constraint { Finds (λ c. c) result (and_then (option_map (λ n. shown_variable_def n.now) part.entry) (constraint token.Principal)) }
    ensures shown { IfErr result (λ error. TellsOnly error (principal_shows (option_map (λ n. shown_variable_def n.now) part.entry))) }
{
    let Some(node) = part else {
        return Err(lacking(alloc, Var::Principal, loc));
    };
    let v = PrincipalOrResource::Principal;
    let asked = to_principal_or_resource_constraint(alloc, node, v)?;
    Ok(PrincipalConstraint::new(asked))
}

// What is asked of the action.
fn to_action<E: Drop>(
    alloc: Global,
    part: Option<&Node<Option<VariableDef>>>,
    loc: Option<&Loc>,
) -> Result<ActionConstraint, ConversionError<E>>
    ensures constraint { Finds action_of result (and_then (option_map (λ n. shown_variable_def n.now) part.entry) action_constraint) }
    ensures shown { IfErr result (λ error. TellsOnly error (action_part_shows (option_map (λ n. shown_variable_def n.now) part.entry))) }
{
    match part {
        Some(node) => to_action_constraint(alloc, node),
        None => Err(lacking(alloc, Var::Action, loc)),
    }
}

// What is asked of the resource.
fn to_resource<E: Drop>(
    alloc: Global,
    part: Option<&Node<Option<VariableDef>>>,
    loc: Option<&Loc>,
) -> Result<ResourceConstraint, ConversionError<E>>
    ensures constraint { Finds (λ c. c) result (and_then (option_map (λ n. shown_variable_def n.now) part.entry) (constraint token.Resource)) }
    ensures shown { IfErr result (λ error. TellsOnly error (resource_shows (option_map (λ n. shown_variable_def n.now) part.entry))) }
{
    let Some(node) = part else {
        return Err(lacking(alloc, Var::Resource, loc));
    };
    let v = PrincipalOrResource::Resource;
    let asked = to_principal_or_resource_constraint(alloc, node, v)?;
    Ok(ResourceConstraint::new(asked))
}

fn printed(alloc: Global, def: &VariableDef) -> Result<RcStr, AllocError> {
    RcStr::from_string(def.to_string(alloc)?)
}

// The fault of a further part.
fn extra<E: Drop>(alloc: Global, node: &Node<Option<VariableDef>>) -> ConversionError<E>
    ensures fault { IsFault result }
    ensures shown { TellsOnly result (extra_shows (shown_variable_def node.now)) }
{
    let Some(def) = &node.node else {
        return ConversionError::missing(alloc, node.loc());
    };
    match printed(alloc, def) {
        Ok(text) => {
            let kind = ToASTErrorKind::ExtraScopeElement(text);
            ConversionError::fault(alloc, kind, node.loc())
        }
        Err(_) => ConversionError::Memory,
    }
}

// The faults of further parts, at least one.
fn all_extra<E: Drop>(
    alloc: Global,
    first: &Node<Option<VariableDef>>,
    parts: &[Node<Option<VariableDef>>],
) -> ConversionError<E>
    ensures fault { IsFault result }
    ensures shown { TellsOnly result (extras_show (shown_variable_def first.now ∷ map shown_variable_def parts.now)) }
{
    let mut faults = extra(alloc, first);
    'parts: for part in parts {
        let fault = extra(alloc, part);
        faults = faults.and(fault);
    }
    faults
}

// That there are no more than three parts.
fn no_more<E: Drop>(
    alloc: Global,
    defs: &[Node<Option<VariableDef>>],
) -> Result<(), ConversionError<E>>
    ensures none { Finds (λ u. u) result (scopes.no_more (map shown_variable_def defs.now)) }
    ensures shown { IfErr result (λ error. TellsOnly error (extras_show (drop 3 (map shown_variable_def defs.now)))) }
{
    if defs.len() <= 3 {
        return Ok(());
    }
    Err(all_extra(alloc, &defs[3], &defs[4..]))
}

// The part at this place.
fn part(defs: &Vec<Node<Option<VariableDef>>>, index: usize) -> Option<&Node<Option<VariableDef>>>
    ensures { option_map (λ n. shown_variable_def n.now) result ≡ slice_get (map shown_variable_def defs.now.items) index }
{
    defs.get(index)
}

/// What a scope asks of the principal, of the action and of the resource, in this order; the faults of
/// all its parts where one is missing, has faults, or there are more. `loc` is the policy's place. (Cedar
/// language reference, "Policy scope".)
pub fn extract_scope<E: Drop>(
    alloc: Global,
    defs: &Vec<Node<Option<VariableDef>>>,
    loc: Option<&Loc>,
) -> Result<(PrincipalConstraint, ActionConstraint, ResourceConstraint), ConversionError<E>>
    ensures scope { Finds scope_of result (scope_syntax (map shown_variable_def defs.now.items)) }
    ensures shown { IfErr result (λ error. TellsOnly error (scope_shows (map shown_variable_def defs.now.items))) }
{
    let first = part(defs, 0);
    let second = part(defs, 1);
    let third = part(defs, 2);
    let principal = to_principal(alloc, first, loc);
    let action = to_action(alloc, second, loc);
    let resource = to_resource(alloc, third, loc);
    let only = no_more(alloc, defs);
    let (principal, action, resource, ()) = flatten_tuple_4(principal, action, resource, only)?;
    Ok((principal, action, resource))
}
