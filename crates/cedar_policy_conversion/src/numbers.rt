// The policies of a text under their numbers.
ghost use Rattle.std.specs.Prelude.{◌≡◌, None, Some, IfOk, IfErr};
ghost use Rattle.cedar_grammar.specs.Syntax.{numbered};
ghost use Rattle.cedar_faults.specs.Telling.{TellsOnly};
ghost use Rattle.cedar_conversion.specs.Shown.{missing_shows};
ghost use Rattle.cedar_policy_conversion.specs.Numbered.{number_next, policies_left, HoldsPolicies};

use crate::PolicyError;
use cedar_cst::cst;
use cedar_cst::node::Node;
use cedar_faults::ConversionError;
use cedar_policy_parts::PolicyID;
use std::alloc::{AllocError, Global};

/// The id of the policy with this number in its text.
pub(crate) fn numbered_id(alloc: Global, number: usize) -> Result<PolicyID, AllocError>
    ensures { IfOk result (λ id. id ≡ numbered number) }
{
    let text = format!(in alloc; "policy{number}")?;
    PolicyID::from_string(alloc, text.as_str())
}

/// The policies of a text in its order, each with its id; want of memory for an id stands in its place.
#[derive(Drop)]
pub struct NumberedPolicies<'a> {
    alloc: Global,
    policies: &'a [Node<Option<cst::Policy>>],
    // how many of them were given
    number: usize,
}

impl<'a> Iterator for NumberedPolicies<'a> {
    type Item = Result<(PolicyID, &'a Node<Option<cst::Policy>>), AllocError>;

    ghost use Rattle.std.specs.Iterator.{item_count};
    ghost use Rattle.cedar_policy_conversion.specs.Numbered.{policies_left, YieldsNumbered};

    ghost next_gives = { YieldsNumbered };

    ghost remaining = { item_count policies_left };

    fn next(&mut self) -> Option<Result<(PolicyID, &'a Node<Option<cst::Policy>>), AllocError>> {
        let policy = self.policies.get(self.number)?;
        let id = numbered_id(self.alloc, self.number);
        self.number += 1;
        match id {
            Ok(id) => Some(Ok((id, policy))),
            Err(error) => Some(Err(error)),
        }
    }
}

/// The policies of a text in its order, each with the id of its number: `policy0`, `policy1` and so on,
/// whatever its annotations say. A fault where they are missing.
pub fn with_generated_policyids(
    alloc: Global,
    node: &Node<Option<cst::Policies>>,
) -> Result<NumberedPolicies<'_>, PolicyError>
    ensures first { IfOk result (λ policies. number_next policies ≡ 0) }
    ensures policies { IfOk result (λ policies. HoldsPolicies node.now.node (policies_left policies)) }
    ensures missing { IfErr result (λ error. node.now.node ≡ None) }
    ensures shown { IfErr result (λ error. TellsOnly error missing_shows) }
{
    let Some(policies) = &node.node else {
        return Err(ConversionError::missing(alloc, node.loc()));
    };
    Ok(NumberedPolicies {
        alloc,
        policies: &policies.0,
        number: 0,
    })
}
