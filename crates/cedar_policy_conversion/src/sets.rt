// The policies of a text.
ghost use Rattle.std.specs.Prelude.{IfErr, map};
ghost use Rattle.std.specs.Option.{option_map};
ghost use Rattle.cedar_grammar.specs.Converting.{each, policies_syntax, policy_syntax};
ghost use Rattle.cedar_cst.specs.View.{shown_policies, shown_policy};
ghost use Rattle.cedar_faults.specs.Converts.{Finds};
ghost use Rattle.cedar_policy_set.specs.Texts.{text_entries};
ghost use Rattle.cedar_faults.specs.Telling.{TellsOnly};
ghost use Rattle.cedar_policy_conversion.specs.Shows.{each_policy_shows, policies_show};

use crate::PolicyError;
use crate::gathered::GatheredPolicies;
use cedar_cst::cst;
use cedar_cst::node::Node;
use cedar_faults::{ConversionError, ExtStyles};
use cedar_policy_set::sets::PolicySet;
use std::alloc::Global;

// The policy set of these policies, under their numbers.
fn set_of(
    alloc: Global,
    nodes: &[Node<Option<cst::Policy>>],
    styles: &ExtStyles,
) -> Result<PolicySet, PolicyError>
    ensures set { Finds (λ set. set) result (option_map (text_entries 0) (each (policy_syntax styles.now) (map shown_policy nodes.now))) }
    ensures shown { IfErr result (λ error. TellsOnly error (each_policy_shows styles.now (map shown_policy nodes.now))) }
{
    let mut policies = GatheredPolicies::new(alloc);
    for node in nodes {
        policies = policies.with(alloc, node, styles);
    }
    policies.into_set()
}

/// The policy set of a text: its static policies and templates in its order, under the ids `policy0`,
/// `policy1` and so on. The faults of all policies are gathered. (Cedar language reference, "Policies".)
#[tactic(auto, unfolding(cedar_grammar::specs::Converting::policies_syntax))]
pub fn to_policyset(
    alloc: Global,
    node: &Node<Option<cst::Policies>>,
    styles: &ExtStyles,
) -> Result<PolicySet, PolicyError>
    ensures set { Finds (λ set. set) result (option_map (text_entries 0) (policies_syntax styles.now (shown_policies node.now))) }
    ensures shown { IfErr result (λ error. TellsOnly error (policies_show styles.now (shown_policies node.now))) }
{
    let Some(policies) = &node.node else {
        return Err(ConversionError::missing(alloc, node.loc()));
    };
    set_of(alloc, &policies.0, styles)
}
