// Links, static policies and templates taken out of a policy set.
ghost use Rattle.std.specs.Rc.{rc_str_bytes};
ghost use Rattle.cedar_held.specs.PolicyWorlds.{policies_in};
ghost use Rattle.cedar_held.specs.PolicyEdits.{UnlinksId, RemovesStatic, RemovesTemplate};
ghost use Rattle.cedar_held.specs.HoldingPolicies.{IsHeld};

use crate::worlds::policy_sets_are_worlds;
use cedar_policy_parts::PolicyID;
use cedar_policy_set::errors::{
    PolicySetPolicyRemovalError, PolicySetTemplateRemovalError, PolicySetUnlinkError,
};
use cedar_policy_set::sets::PolicySet;
use cedar_replies::Refusal;
use std::rc::RcStr;

// Takes a link away.
pub fn unlink(set: &mut PolicySet, id: &RcStr) -> Result<(), Refusal>
    requires { IsHeld set.old }
    ensures unlinked { UnlinksId (rc_str_bytes id.now) (policies_in set.old) result (policies_in set.new) }
    ensures held { IsHeld set.new }
{
    policy_sets_are_worlds();
    // The contract of `len` is what says that a set is whole.
    let _count = set.len();
    let id = PolicyID::from_smolstr(id.clone()?);
    match set.unlink(&id) {
        Ok(_) => Ok(()),
        Err(PolicySetUnlinkError::UnlinkingError(_)) => Err(Refusal::NoSuchPolicy),
        Err(PolicySetUnlinkError::NotLinkError(_)) => Err(Refusal::NotLink),
        Err(PolicySetUnlinkError::Memory(_)) => Err(Refusal::Memory),
    }
}

// Takes a static policy away.
pub fn remove_static(set: &mut PolicySet, id: &RcStr) -> Result<(), Refusal>
    requires { IsHeld set.old }
    ensures removed { RemovesStatic (rc_str_bytes id.now) (policies_in set.old) result (policies_in set.new) }
    ensures held { IsHeld set.new }
{
    policy_sets_are_worlds();
    let _count = set.len();
    let id = PolicyID::from_smolstr(id.clone()?);
    if !set.is_bound(&id) {
        return Err(Refusal::NoSuchPolicy);
    }
    match set.remove_static(&id) {
        Ok(_) => Ok(()),
        Err(PolicySetPolicyRemovalError::Memory(_)) => Err(Refusal::Memory),
        Err(_) => Err(Refusal::NotStatic),
    }
}

// Takes a template away that no link names.
pub fn remove_template(set: &mut PolicySet, id: &RcStr) -> Result<(), Refusal>
    requires { IsHeld set.old }
    ensures removed { RemovesTemplate (rc_str_bytes id.now) (policies_in set.old) result (policies_in set.new) }
    ensures held { IsHeld set.new }
{
    policy_sets_are_worlds();
    let _count = set.len();
    let id = PolicyID::from_smolstr(id.clone()?);
    match set.remove_template(&id) {
        Ok(_) => Ok(()),
        Err(PolicySetTemplateRemovalError::RemovePolicyNoTemplateError(_)) => {
            Err(Refusal::NoSuchTemplate)
        }
        Err(PolicySetTemplateRemovalError::NotTemplateError(_)) => Err(Refusal::NotTemplate),
        Err(PolicySetTemplateRemovalError::RemoveTemplateWithLinksError(_)) => {
            Err(Refusal::HasLinks)
        }
        Err(PolicySetTemplateRemovalError::Memory(_)) => Err(Refusal::Memory),
    }
}
