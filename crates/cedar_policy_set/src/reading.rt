// What a policy set binds, by kinds.
ghost use Rattle.std.specs.Prelude.{◌≡◌, IfSome, option_map};
ghost use Rattle.std.specs.Option.{option_copied};
ghost use Rattle.cedar_policies.specs.Templates.{template_id, syntax_of};
ghost use Rattle.cedar_policies.specs.Policies.{policy_id};
ghost use Rattle.cedar_policy_set.specs.Entries.{bound_at, policy_only, own_template_at};
ghost use Rattle.cedar_policy_set.specs.Bounds.{policy_entry};

use crate::sets::PolicySet;
use cedar_policies::policies::Policy;
use cedar_policies::templates::Template;
use cedar_policy_parts::PolicyID;
use std::rc::Rc;

impl PolicySet {
    /// The static policy or link that an id is bound to.
    pub fn get(&self, id: &PolicyID) -> Option<&Policy>
        ensures entry { option_map policy_entry (option_copied result) ≡ policy_only (bound_at self.now id.now) }
        ensures id { IfSome result (λ policy. policy_id policy.now ≡ id.now) }
    {
        match self.bound(id) {
            Some(bound) => bound.as_policy(),
            None => None,
        }
    }

    /// The template that an id is bound to, or that of the static policy; shared.
    pub fn get_template_arc(&self, id: &PolicyID) -> Option<&Rc<Template>>
        ensures syntax { option_map (λ t. syntax_of t.value) (option_copied result) ≡ own_template_at (bound_at self.now id.now) }
        ensures id { IfSome result (λ template. template_id template.now.value ≡ id.now) }
    {
        match self.bound(id) {
            Some(bound) => bound.own_template(),
            None => None,
        }
    }

    /// The template that an id is bound to, or that of the static policy.
    pub fn get_template(&self, id: &PolicyID) -> Option<&Template>
        ensures syntax { option_map syntax_of (option_copied result) ≡ own_template_at (bound_at self.now id.now) }
        ensures id { IfSome result (λ template. template_id template.now ≡ id.now) }
    {
        match self.get_template_arc(id) {
            Some(template) => Some(template),
            None => None,
        }
    }
}
