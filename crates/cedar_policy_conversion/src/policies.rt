// Policies by whether they have slots: in their scope, or in their clauses.
ghost use Rattle.std.specs.Prelude.{◌≡◌, Some, IfOk, IfErr};
ghost use Rattle.std.specs.Option.{option_map};
ghost use Rattle.cedar_grammar.specs.Converting.{policy_syntax};
ghost use Rattle.cedar_grammar.specs.Policy.{slots};
ghost use Rattle.cedar_cst.specs.View.{shown_policy};
ghost use Rattle.cedar_policies.specs.StaticPolicies.{static_id, static_syntax};
ghost use Rattle.cedar_policies.specs.Templates.{template_id, listed_slots, syntax_of};
ghost use Rattle.cedar_faults.specs.Converts.{and_then, Finds};
ghost use Rattle.cedar_policy_set.specs.Texts.{text_entry};
ghost use Rattle.cedar_faults.specs.Telling.{TellsOnly};
ghost use Rattle.cedar_policy_conversion.specs.Shows.{policy_shows, slots_show, static_policy_shows, template_shows};
ghost use Rattle.cedar_policy_conversion.specs.Kinds.{without_slots, with_slots, entry_made, id_made, ListsSlots};

use crate::PolicyError;
use crate::sharing::SharedParts;
use crate::templates::{to_sharing_template, to_template};
use cedar_cst::cst;
use cedar_cst::node::Node;
use cedar_faults::{ConversionError, ExtStyles, ToASTErrorKind};
use cedar_names::places::Loc;
use cedar_policies::static_policies::StaticPolicy;
use cedar_policies::templates::Template;
use cedar_policy_parts::errors::UnexpectedSlotError;
use cedar_policy_parts::{ExpectedStaticPolicy, ExpectedTemplate, PolicyID};
use either::Either;
use std::alloc::Global;

// The policy that a template without slots is; a fault where it has one.
fn as_static(
    alloc: Global,
    loc: Option<&Loc>,
    template: Template,
) -> Result<StaticPolicy, PolicyError>
    ensures syntax { Finds static_syntax result (without_slots (syntax_of template)) }
    ensures id { IfOk result (λ policy. static_id policy ≡ template_id template) }
    ensures shown { IfErr result (λ error. TellsOnly error (slots_show (Some (syntax_of template)))) }
{
    match StaticPolicy::from_template(template) {
        Ok(policy) => Ok(policy),
        Err(UnexpectedSlotError::FoundSlot(slot)) => {
            let kind = ToASTErrorKind::ExpectedStaticPolicy(ExpectedStaticPolicy { slot });
            Err(ConversionError::fault(alloc, kind, loc))
        }
        Err(UnexpectedSlotError::Memory(_)) => Err(ConversionError::Memory),
    }
}

/// A static policy under an id. (Cedar language reference, "Policies".) Refused with the faults of the policy,
/// in order, where it means nothing, for the first slot of its scope and its clauses, or for memory.
pub fn to_policy(
    alloc: Global,
    node: &Node<Option<cst::Policy>>,
    id: PolicyID,
    styles: &ExtStyles,
) -> Result<StaticPolicy, PolicyError>
    ensures syntax { Finds static_syntax result (and_then (policy_syntax styles.now (shown_policy node.now)) without_slots) }
    ensures id { IfOk result (λ policy. static_id policy ≡ id) }
    ensures shown { IfErr result (λ error. TellsOnly error (static_policy_shows styles.now (shown_policy node.now))) }
{
    let template = to_template(alloc, node, id, styles)?;
    as_static(alloc, node.loc(), template)
}

/// A template under an id. (Cedar language reference, "Policy templates".) Refused with the faults of the
/// policy, in order, where it means nothing, where neither its scope nor a clause has a slot, or for memory.
pub fn to_policy_template(
    alloc: Global,
    node: &Node<Option<cst::Policy>>,
    id: PolicyID,
    styles: &ExtStyles,
) -> Result<Template, PolicyError>
    ensures syntax { Finds syntax_of result (and_then (policy_syntax styles.now (shown_policy node.now)) with_slots) }
    ensures id { IfOk result (λ template. template_id template ≡ id) }
    ensures lists { IfOk result (λ template. listed_slots template ≡ slots (syntax_of template)) }
    ensures shown { IfErr result (λ error. TellsOnly error (template_shows styles.now (shown_policy node.now))) }
{
    let template = to_template(alloc, node, id, styles)?;
    if template.is_static() {
        let kind = ToASTErrorKind::ExpectedTemplate(ExpectedTemplate);
        return Err(ConversionError::fault(alloc, kind, node.loc()));
    }
    Ok(template)
}

// The template, which lists its slots, as a static policy where it has none.
fn sorted(template: Template) -> Either<StaticPolicy, Template>
    requires { listed_slots template ≡ slots (syntax_of template) }
    ensures entry { entry_made result ≡ text_entry (syntax_of template) }
    ensures id { id_made result ≡ template_id template }
    ensures lists { ListsSlots result }
{
    if !template.is_static() {
        return Either::Right(template);
    }
    match StaticPolicy::from_template(template) {
        Ok(policy) => Either::Left(policy),
        Err(_) => unreachable!(),
    }
}

/// A static policy under an id where it has no slot, and a template where it has one. (Cedar language
/// reference, "Policies" and "Policy templates".) Refused with the faults of the policy, in order, where it
/// means nothing, or for memory.
pub fn to_policy_or_template(
    alloc: Global,
    node: &Node<Option<cst::Policy>>,
    id: PolicyID,
    styles: &ExtStyles,
) -> Result<Either<StaticPolicy, Template>, PolicyError>
    ensures syntax { Finds entry_made result (option_map text_entry (policy_syntax styles.now (shown_policy node.now))) }
    ensures id { IfOk result (λ either. id_made either ≡ id) }
    ensures lists { IfOk result ListsSlots }
    ensures shown { IfErr result (λ error. TellsOnly error (policy_shows styles.now (shown_policy node.now))) }
{
    let template = to_template(alloc, node, id, styles)?;
    Ok(sorted(template))
}

/// As `to_policy_or_template`, for one of many policies that share what `common` keeps.
pub(crate) fn to_sharing_policy_or_template(
    alloc: Global,
    node: &Node<Option<cst::Policy>>,
    id: PolicyID,
    styles: &ExtStyles,
    common: &mut SharedParts,
) -> Result<Either<StaticPolicy, Template>, PolicyError>
    ensures syntax { Finds entry_made result (option_map text_entry (policy_syntax styles.now (shown_policy node.now))) }
    ensures id { IfOk result (λ either. id_made either ≡ id) }
    ensures lists { IfOk result ListsSlots }
    ensures shown { IfErr result (λ error. TellsOnly error (policy_shows styles.now (shown_policy node.now))) }
{
    let template = to_sharing_template(alloc, node, id, styles, common)?;
    Ok(sorted(template))
}
