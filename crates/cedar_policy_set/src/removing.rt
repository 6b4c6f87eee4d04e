// Taking policies and templates away.
ghost use Rattle.std.specs.Prelude.{◌≡◌, IfOk, IfErr, OnOk, OnErr, Some, true, false};
ghost use Rattle.cedar_policies.specs.Templates.{template_id, syntax_of};
ghost use Rattle.cedar_policies.specs.Policies.{policy_id};
ghost use Rattle.cedar_policy_set.specs.Entries.{bound_at, without, has_links, is_link, is_static, template as a_template};
ghost use Rattle.cedar_policy_set.specs.Bounds.{policy_entry, entry_of};
ghost use Rattle.cedar_policy_set.specs.Refused.{IsUnlinkRefusal, IsPolicyRefusal, IsTemplateRefusal, is_link_at, is_static_at, is_policy_at, is_template_at};

use crate::bounds::{Bound, BoundKind};
use crate::errors::{
    PolicySetPolicyRemovalError, PolicySetTemplateRemovalError, PolicySetUnlinkError,
};
use crate::sets::PolicySet;
use cedar_policies::policies::Policy;
use cedar_policies::templates::Template;
use cedar_policy_parts::PolicyID;
use std::rc::Rc;

impl PolicySet {
    /// Takes a link away and gives it. Refused where the id isn't bound, or is bound to something else;
    /// memory may lack for the id in the refusal alone. A refused call changes nothing.
    pub fn unlink(&mut self, id: &PolicyID) -> Result<Policy, PolicySetUnlinkError>
        ensures removed { OnOk result (self.new ≡ without id.now self.old) }
        ensures link { OnOk result (is_link_at (bound_at self.old id.now) ≡ true) }
        ensures policy { IfOk result (λ policy. bound_at self.old id.now ≡ Some (policy_entry policy)) }
        ensures id { IfOk result (λ policy. policy_id policy ≡ id.now) }
        ensures refused { IfErr result (IsUnlinkRefusal (bound_at self.old id.now) id.now) }
        ensures err { OnErr result (self.new ≡ self.old) }
    {
        match self.bound(id) {
            None => return Err(PolicySetUnlinkError::UnlinkingError(id.clone()?)),
            Some(bound) if !bound.is_link() => {
                return Err(PolicySetUnlinkError::NotLinkError(id.clone()?));
            }
            Some(_) => {}
        }
        Ok(self.take_policy(id))
    }

    /// Takes a static policy away and gives it. Refused where the id is bound to no policy, or to a link;
    /// memory may lack for the id in the refusal alone. A refused call changes nothing.
    pub fn remove_static(&mut self, id: &PolicyID) -> Result<Policy, PolicySetPolicyRemovalError>
        ensures removed { OnOk result (self.new ≡ without id.now self.old) }
        ensures static_ { OnOk result (is_static_at (bound_at self.old id.now) ≡ true) }
        ensures policy { IfOk result (λ policy. bound_at self.old id.now ≡ Some (policy_entry policy)) }
        ensures id { IfOk result (λ policy. policy_id policy ≡ id.now) }
        ensures refused { IfErr result (IsPolicyRefusal (bound_at self.old id.now) id.now) }
        ensures err { OnErr result (self.new ≡ self.old) }
    {
        match self.get(id) {
            None => {
                let id = id.clone()?;
                return Err(PolicySetPolicyRemovalError::RemovePolicyNoLinkError(id));
            }
            Some(policy) if !policy.is_static() => {
                let id = id.clone()?;
                return Err(PolicySetPolicyRemovalError::RemovePolicyNoTemplateError(id));
            }
            Some(_) => {}
        }
        Ok(self.take_policy(id))
    }

    /// Takes a template away and gives it. Refused where the id isn't bound, is bound to a policy, or is
    /// named by a link; memory may lack for the id in the refusal alone. A refused call changes nothing.
    pub fn remove_template(
        &mut self,
        id: &PolicyID,
    ) -> Result<Rc<Template>, PolicySetTemplateRemovalError>
        ensures removed { OnOk result (self.new ≡ without id.now self.old) }
        ensures template { IfOk result (λ template. bound_at self.old id.now ≡ Some (a_template (syntax_of template.value))) }
        ensures id { IfOk result (λ template. template_id template.value ≡ id.now) }
        ensures unlinked { OnOk result (has_links self.old id.now ≡ false) }
        ensures refused { IfErr result (IsTemplateRefusal (bound_at self.old id.now) (has_links self.old id.now) id.now) }
        ensures err { OnErr result (self.new ≡ self.old) }
    {
        let Some(bound) = self.bound(id) else {
            let id = id.clone()?;
            return Err(PolicySetTemplateRemovalError::RemovePolicyNoTemplateError(id));
        };
        if let BoundKind::Policy(_) = bound.kind() {
            let id = id.clone()?;
            return Err(PolicySetTemplateRemovalError::NotTemplateError(id));
        }
        if self.has_links(id) {
            let id = id.clone()?;
            return Err(PolicySetTemplateRemovalError::RemoveTemplateWithLinksError(id));
        }
        Ok(self.take_template(id))
    }

    // Whether a link names the id as its template.
    fn has_links(&self, id: &PolicyID) -> bool
        ensures { result ≡ has_links self.now id.now }
    {
        for bound in self.values() {
            if bound.is_link_to(id) {
                return true;
            }
        }
        false
    }

    // Takes away an id that is bound to a policy.
    fn take_policy(&mut self, id: &PolicyID) -> Policy
        requires { is_policy_at (bound_at self.old id.now) ≡ true }
        ensures removed { self.new ≡ without id.now self.old }
        ensures policy { bound_at self.old id.now ≡ Some (policy_entry result) }
        ensures id { policy_id result ≡ id.now }
    {
        let Some(bound) = self.take_away(id) else {
            unreachable!();
        };
        match bound.into_kind() {
            BoundKind::Policy(policy) => policy,
            BoundKind::Template(_) => unreachable!(),
        }
    }

    // Takes away an id that is bound to a template without links.
    fn take_template(&mut self, id: &PolicyID) -> Rc<Template>
        requires template { is_template_at (bound_at self.old id.now) ≡ true }
        requires unlinked { has_links self.old id.now ≡ false }
        ensures removed { self.new ≡ without id.now self.old }
        ensures template { bound_at self.old id.now ≡ Some (a_template (syntax_of result.value)) }
        ensures id { template_id result.value ≡ id.now }
    {
        let Some(bound) = self.take_away(id) else {
            unreachable!();
        };
        match bound.into_kind() {
            BoundKind::Template(template) => template,
            BoundKind::Policy(_) => unreachable!(),
        }
    }
}
