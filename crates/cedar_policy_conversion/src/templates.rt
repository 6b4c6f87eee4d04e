// Policies with or without slots.
ghost use Rattle.std.specs.Prelude.{◌≡◌, IfOk, IfErr};
ghost use Rattle.cedar_grammar.specs.Converting.{policy_syntax};
ghost use Rattle.cedar_grammar.specs.Policy.{slots};
ghost use Rattle.cedar_cst.specs.View.{shown_policy, view_policy_impl};
ghost use Rattle.cedar_policies.specs.Templates.{template_id, listed_slots, syntax_of};
ghost use Rattle.cedar_faults.specs.Converts.{Finds};
ghost use Rattle.cedar_faults.specs.Telling.{TellsOnly};
ghost use Rattle.cedar_policy_conversion.specs.Parts.{parts_syntax};
ghost use Rattle.cedar_policy_conversion.specs.Shows.{policy_shows};

use crate::sharing::SharedParts;
use crate::{PolicyError, extract_scope, to_annotations, to_clauses, to_effect};
use cedar_cst::cst;
use cedar_cst::cst::PolicyImpl;
use cedar_cst::node::Node;
use cedar_faults::{ConversionError, ExtStyles, flatten_tuple_2};
use cedar_names::places::Loc;
use cedar_policies::templates::Template;
use cedar_policy_parts::actions::ActionConstraint;
use cedar_policy_parts::annotations::Annotations;
use cedar_policy_parts::principals::PrincipalConstraint;
use cedar_policy_parts::resources::ResourceConstraint;
use cedar_policy_parts::{Effect, PolicyID};
use cedar_trees::expr::Expr;
use std::alloc::{AllocError, Global};
use std::rc::Rc;

// What a policy is made of.
#[derive(Drop)]
pub(crate) struct Parts {
    effect: Effect,
    annotations: Annotations,
    principal: PrincipalConstraint,
    action: ActionConstraint,
    resource: ResourceConstraint,
    clauses: Option<Expr>,
}

// The parts of a policy at this place, or the faults of all.
fn to_parts(
    alloc: Global,
    policy: &PolicyImpl,
    loc: Option<&Loc>,
    styles: &ExtStyles,
) -> Result<Parts, PolicyError>
    ensures syntax { Finds parts_syntax result (policy_syntax styles.now (view_policy_impl policy.now)) }
    ensures shown { IfErr result (λ error. TellsOnly error (policy_shows styles.now (view_policy_impl policy.now))) }
{
    let effect = to_effect(alloc, &policy.effect);
    let annotations = to_annotations(alloc, &policy.annotations);
    let scope = extract_scope(alloc, &policy.variables, loc);
    let clauses = to_clauses(alloc, styles, &policy.conds, loc);
    let head = flatten_tuple_2(effect, annotations);
    let body = flatten_tuple_2(scope, clauses);
    let ((effect, annotations), (scope, clauses)) = flatten_tuple_2(head, body)?;
    let (principal, action, resource) = scope;
    Ok(Parts {
        effect,
        annotations,
        principal,
        action,
        resource,
        clauses,
    })
}

// The template of these parts.
fn template_of(
    alloc: Global,
    id: PolicyID,
    loc: Option<&Loc>,
    parts: Parts,
) -> Result<Template, AllocError>
    ensures id { IfOk result (λ made. template_id made ≡ id) }
    ensures syntax { IfOk result (λ made. syntax_of made ≡ parts_syntax parts) }
    ensures lists { IfOk result (λ made. listed_slots made ≡ slots (syntax_of made)) }
{
    Template::new(
        alloc,
        id,
        loc.cloned()?,
        parts.annotations,
        parts.effect,
        parts.principal,
        parts.action,
        parts.resource,
        parts.clauses,
    )
}

// The same, which shares what `common` keeps.
fn sharing_template_of(
    alloc: Global,
    id: PolicyID,
    loc: Option<&Loc>,
    parts: Parts,
    common: &mut SharedParts,
) -> Result<Template, AllocError>
    ensures id { IfOk result (λ made. template_id made ≡ id) }
    ensures syntax { IfOk result (λ made. syntax_of made ≡ parts_syntax parts) }
    ensures lists { IfOk result (λ made. listed_slots made ≡ slots (syntax_of made)) }
{
    let Parts {
        effect,
        annotations,
        principal,
        action,
        resource,
        clauses,
    } = parts;
    let clauses = match clauses {
        Some(clauses) => Some(Rc::new(alloc, clauses)?),
        None => None,
    };
    Template::new_shared(
        alloc,
        id,
        loc.cloned()?,
        common.of_annotations(alloc, annotations)?,
        effect,
        common.of_principal(alloc, &principal)?,
        common.of_action(alloc, &action)?,
        common.of_resource(alloc, &resource)?,
        clauses,
    )
}

// The parts of a policy, or the faults of all.
#[tactic(auto, unfolding(cedar_grammar::specs::Converting::policy_syntax))]
fn parts_of(
    alloc: Global,
    node: &Node<Option<cst::Policy>>,
    styles: &ExtStyles,
) -> Result<Parts, PolicyError>
    ensures syntax { Finds parts_syntax result (policy_syntax styles.now (shown_policy node.now)) }
    ensures shown { IfErr result (λ error. TellsOnly error (policy_shows styles.now (shown_policy node.now))) }
{
    let Some(cst::Policy::Policy(policy)) = &node.node else {
        return Err(ConversionError::missing(alloc, node.loc()));
    };
    to_parts(alloc, policy, node.loc(), styles)
}

/// A policy, with or without slots, under an id. It lists the slots of its scope and its clauses. The faults of
/// all its parts are gathered: its annotations, its effect, its scope and its clauses. (Cedar language
/// reference, "Policy syntax".)
pub fn to_template(
    alloc: Global,
    node: &Node<Option<cst::Policy>>,
    id: PolicyID,
    styles: &ExtStyles,
) -> Result<Template, PolicyError>
    ensures syntax { Finds syntax_of result (policy_syntax styles.now (shown_policy node.now)) }
    ensures id { IfOk result (λ template. template_id template ≡ id) }
    ensures lists { IfOk result (λ template. listed_slots template ≡ slots (syntax_of template)) }
    ensures shown { IfErr result (λ error. TellsOnly error (policy_shows styles.now (shown_policy node.now))) }
{
    let parts = parts_of(alloc, node, styles)?;
    Ok(template_of(alloc, id, node.loc(), parts)?)
}

/// As `to_template`, for one of many policies that share what `common` keeps.
pub(crate) fn to_sharing_template(
    alloc: Global,
    node: &Node<Option<cst::Policy>>,
    id: PolicyID,
    styles: &ExtStyles,
    common: &mut SharedParts,
) -> Result<Template, PolicyError>
    ensures syntax { Finds syntax_of result (policy_syntax styles.now (shown_policy node.now)) }
    ensures id { IfOk result (λ template. template_id template ≡ id) }
    ensures lists { IfOk result (λ template. listed_slots template ≡ slots (syntax_of template)) }
    ensures shown { IfErr result (λ error. TellsOnly error (policy_shows styles.now (shown_policy node.now))) }
{
    let parts = parts_of(alloc, node, styles)?;
    Ok(sharing_template_of(alloc, id, node.loc(), parts, common)?)
}
