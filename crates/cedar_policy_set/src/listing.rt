// Iterators over a policy set, each in the order of the set.
ghost use Rattle.std.specs.Prelude.{◌≡◌, true, IfOk, IfErr, OnOk};
ghost use Rattle.cedar_policy_set.specs.Entries.{bound_at, policies_of, static_policies_of, templates_of, slotted_templates_of, links_of};
ghost use Rattle.cedar_policy_set.specs.Refused.{IsListingRefusal, has_template_at};

use crate::bounds::{Bound, BoundKind};
use crate::errors::PolicySetGetLinksError;
use crate::map_values::{IntoValues, Values};
use crate::sets::PolicySet;
use cedar_policies::policies::Policy;
use cedar_policies::templates::Template;
use cedar_policy_parts::PolicyID;

/// The static policies and links of a set.
#[derive(Drop)]
pub struct Policies<'a> {
    bound: Values<'a, Bound>,
}

impl<'a> Iterator for Policies<'a> {
    type Item = &'a Policy;

    ghost use Rattle.std.specs.Iterator.{YieldsFirstBy, item_count};
    ghost use Rattle.cedar_policy_set.specs.Bounds.{policy_seen};
    ghost use Rattle.cedar_policy_set.specs.BoundsLeft.{policies_left};

    ghost next_gives = { YieldsFirstBy (λ x. policy_seen x.now) policies_left };

    ghost remaining = { item_count policies_left };

    fn next(&mut self) -> Option<&'a Policy> {
        while let Some(bound) = self.bound.next() {
            if let Some(policy) = bound.as_policy() {
                return Some(policy);
            }
        }
        None
    }
}

/// The static policies of a set.
#[derive(Drop)]
pub struct StaticPolicies<'a> {
    bound: Values<'a, Bound>,
}

impl<'a> Iterator for StaticPolicies<'a> {
    type Item = &'a Policy;

    ghost use Rattle.std.specs.Iterator.{YieldsFirstBy, item_count};
    ghost use Rattle.cedar_policy_set.specs.Bounds.{policy_seen};
    ghost use Rattle.cedar_policy_set.specs.BoundsLeft.{static_policies_left};

    ghost next_gives = { YieldsFirstBy (λ x. policy_seen x.now) static_policies_left };

    ghost remaining = { item_count static_policies_left };

    fn next(&mut self) -> Option<&'a Policy> {
        while let Some(bound) = self.bound.next() {
            if let Some(policy) = bound.as_static() {
                return Some(policy);
            }
        }
        None
    }
}

/// The templates of a set, those of its static policies among them.
#[derive(Drop)]
pub struct AllTemplates<'a> {
    bound: Values<'a, Bound>,
}

impl<'a> Iterator for AllTemplates<'a> {
    type Item = &'a Template;

    ghost use Rattle.std.specs.Iterator.{YieldsFirstBy, item_count};
    ghost use Rattle.cedar_policy_set.specs.Bounds.{template_seen};
    ghost use Rattle.cedar_policy_set.specs.BoundsLeft.{all_templates_left};

    ghost next_gives = { YieldsFirstBy (λ x. template_seen x.now) all_templates_left };

    ghost remaining = { item_count all_templates_left };

    fn next(&mut self) -> Option<&'a Template> {
        while let Some(bound) = self.bound.next() {
            if let Some(template) = bound.own_template() {
                return Some(template);
            }
        }
        None
    }
}

/// The templates of a set that have slots.
#[derive(Drop)]
pub struct Templates<'a> {
    bound: Values<'a, Bound>,
}

impl<'a> Iterator for Templates<'a> {
    type Item = &'a Template;

    ghost use Rattle.std.specs.Iterator.{YieldsFirstBy, item_count};
    ghost use Rattle.cedar_policy_set.specs.Bounds.{template_seen};
    ghost use Rattle.cedar_policy_set.specs.BoundsLeft.{templates_left};

    ghost next_gives = { YieldsFirstBy (λ x. template_seen x.now) templates_left };

    ghost remaining = { item_count templates_left };

    fn next(&mut self) -> Option<&'a Template> {
        while let Some(bound) = self.bound.next() {
            if let Some(template) = bound.slotted_template() {
                return Some(template);
            }
        }
        None
    }
}

/// The ids of the links of a template; of a static policy, which is its own template, its id.
#[derive(Drop)]
pub struct LinkedPolicies<'a> {
    bound: Values<'a, Bound>,
    template: &'a PolicyID,
}

impl<'a> Iterator for LinkedPolicies<'a> {
    type Item = &'a PolicyID;

    ghost use Rattle.std.specs.Iterator.{YieldsFirstBy, item_count};
    ghost use Rattle.cedar_policy_set.specs.BoundsLeft.{linked_left};

    ghost next_gives = { YieldsFirstBy (λ x. x.now) linked_left };

    ghost remaining = { item_count linked_left };

    fn next(&mut self) -> Option<&'a PolicyID> {
        while let Some(bound) = self.bound.next() {
            if bound.is_of_template(self.template) {
                return Some(bound.id());
            }
        }
        None
    }
}

/// The static policies and links of a set that is given up.
#[derive(Drop)]
pub struct IntoPolicies {
    bound: IntoValues<Bound>,
}

impl Iterator for IntoPolicies {
    type Item = Policy;

    ghost use Rattle.std.specs.Iterator.{YieldsFirstBy, item_count};
    ghost use Rattle.cedar_policy_set.specs.Bounds.{policy_seen};
    ghost use Rattle.cedar_policy_set.specs.BoundsLeft.{into_policies_left};

    ghost next_gives = { YieldsFirstBy policy_seen into_policies_left };

    ghost remaining = { item_count into_policies_left };

    fn next(&mut self) -> Option<Policy> {
        while let Some(bound) = self.bound.next() {
            if let BoundKind::Policy(policy) = bound.into_kind() {
                return Some(policy);
            }
        }
        None
    }
}

impl PolicySet {
    ghost use Rattle.cedar_policy_set.specs.BoundsLeft.{policies_left, static_policies_left, all_templates_left, templates_left, linked_left, into_policies_left};

    /// The static policies and links.
    pub fn policies(&self) -> Policies<'_>
        ensures { policies_left result ≡ policies_of self.now }
    {
        Policies {
            bound: self.values(),
        }
    }

    /// The static policies.
    pub fn static_policies(&self) -> StaticPolicies<'_>
        ensures { static_policies_left result ≡ static_policies_of self.now }
    {
        StaticPolicies {
            bound: self.values(),
        }
    }

    /// The templates, those of the static policies among them.
    pub fn all_templates(&self) -> AllTemplates<'_>
        ensures { all_templates_left result ≡ templates_of self.now }
    {
        AllTemplates {
            bound: self.values(),
        }
    }

    /// The templates that have slots.
    pub fn templates(&self) -> Templates<'_>
        ensures { templates_left result ≡ slotted_templates_of self.now }
    {
        Templates {
            bound: self.values(),
        }
    }

    /// The static policies and links, by value.
    pub fn into_policies(self) -> IntoPolicies
        ensures { into_policies_left result ≡ policies_of self }
    {
        IntoPolicies {
            bound: self.into_values(),
        }
    }

    /// The ids of the links of a template; of a static policy, which is its own template, its id. Refused
    /// where the id is bound to neither; memory may lack for the id in the refusal alone.
    pub fn get_linked_policies<'a>(
        &'a self,
        template_id: &'a PolicyID,
    ) -> Result<LinkedPolicies<'a>, PolicySetGetLinksError>
        ensures links { IfOk result (λ it. linked_left it ≡ links_of template_id.now self.now) }
        ensures bound { OnOk result (has_template_at (bound_at self.now template_id.now) ≡ true) }
        ensures refused { IfErr result (IsListingRefusal (bound_at self.now template_id.now) template_id.now) }
    {
        match self.get_template_arc(template_id) {
            None => Err(PolicySetGetLinksError::MissingTemplate(template_id.clone()?)),
            Some(_) => Ok(LinkedPolicies {
                bound: self.values(),
                template: template_id,
            }),
        }
    }
}
