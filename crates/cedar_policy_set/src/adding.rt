// Adding policies and templates.
ghost use Rattle.std.specs.Prelude.{◌≡◌, [], ◌∷◌, ◌++◌, IfOk, IfErr, OnOk, OnErr, None, Some, true, false, map};
ghost use Rattle.std.specs.Map.{values_of};
ghost use Rattle.std.specs.Option.{option_copied};
ghost use Rattle.cedar_language.specs.Order.{same_text};
ghost use Rattle.cedar_grammar.specs.Policy.{slots as slots_of};
ghost use Rattle.cedar_policies.specs.Templates.{template_id, syntax_of, listed_slots};
ghost use Rattle.cedar_policies.specs.StaticPolicies.{static_id, static_syntax};
ghost use Rattle.cedar_policies.specs.Policies.{policy_id, policy_template, policy_syntax};
ghost use Rattle.cedar_policy_set.specs.Entries.{static_policy, template as a_template, IsFull};
ghost use Rattle.cedar_policy_set.specs.Bounds.{policy_entry, policy_seen, entries_of, IsNamed, ListTheirSlots};
ghost use Rattle.cedar_policy_set.specs.Refused.{IsOccupied, taken, in_the_way, lacks_template, added, AddsAll};

use crate::bounds::{Bound, is_link};
use crate::errors::PolicySetError;
use crate::policy_map::PolicyMap;
use crate::sets::PolicySet;
use cedar_policies::linking::TemplateLinks;
use cedar_policies::policies::Policy;
use cedar_policies::static_policies::StaticPolicy;
use cedar_policies::templates::Template;
use cedar_policy_parts::PolicyID;
use std::alloc::{AllocError, Global};
use std::rc::Rc;

impl PolicySet {
    /// Binds the id of a template, which lists its slots here, also where it was made of a clause. Refused
    /// where the id is bound, also to an equal one, or for memory. A refused call changes nothing.
    pub fn add_template(&mut self, alloc: Global, template: Template) -> Result<(), PolicySetError>
        ensures added { OnOk result (self.new ≡ self.old ++ (template_id template, a_template (syntax_of template)) ∷ []) }
        ensures free { OnOk result (taken self.old (template_id template) ≡ None) }
        ensures refused { IfErr result (IsOccupied (taken self.old (template_id template))) }
        ensures err { OnErr result (self.new ≡ self.old) }
    {
        let id = template.id().clone()?;
        if self.is_bound(&id) {
            return Err(PolicySetError::Occupied { id });
        }
        let template = Rc::new(alloc, template.listed())?;
        self.bind(id, Bound::from_template(alloc, template)?)?;
        Ok(())
    }

    /// Binds the id of a static policy; refused where it is bound, also to an equal one, or for memory. A
    /// refused call changes nothing.
    pub fn add_static(&mut self, alloc: Global, policy: StaticPolicy) -> Result<(), PolicySetError>
        ensures added { OnOk result (self.new ≡ self.old ++ (static_id policy, static_policy (static_syntax policy)) ∷ []) }
        ensures free { OnOk result (taken self.old (static_id policy) ≡ None) }
        ensures refused { IfErr result (IsOccupied (taken self.old (static_id policy))) }
        ensures err { OnErr result (self.new ≡ self.old) }
    {
        let (_, policy) = Template::link_static_policy(alloc, policy)?;
        self.add(alloc, policy)
    }

    /// Binds the id of a static policy, or of a link and, where it isn't bound yet, before it that of its
    /// template. Refused where the id is bound, also to an equal policy, where the template's id is bound
    /// to something else, or for memory. A refused call changes nothing.
    pub fn add(&mut self, alloc: Global, policy: Policy) -> Result<(), PolicySetError>
        ensures added { OnOk result (self.new ≡ added self.old (policy_id policy) (policy_entry policy)) }
        ensures free { OnOk result (in_the_way self.old (policy_id policy) (policy_entry policy) ≡ None) }
        ensures refused { IfErr result (IsOccupied (in_the_way self.old (policy_id policy) (policy_entry policy))) }
        ensures err { OnErr result (self.new ≡ self.old) }
    {
        match self.in_the_way(&policy) {
            Some(id) => Err(PolicySetError::Occupied { id: id.clone()? }),
            None => Ok(self.add_free(alloc, policy)?),
        }
    }

    // Binds the id of a policy that nothing is in the way of.
    fn add_free(&mut self, alloc: Global, policy: Policy) -> Result<(), AllocError>
        requires { in_the_way self.old (policy_id policy) (policy_entry policy) ≡ None }
        ensures added { OnOk result (self.new ≡ added self.old (policy_id policy) (policy_entry policy)) }
        ensures err { OnErr result (self.new ≡ self.old) }
    {
        let _count = self.len();
        if self.lacks_template(&policy) {
            let more = with_its_template(alloc, policy)?;
            return self.bind_all(more);
        }
        let more = alone(alloc, policy)?;
        self.bind_all(more)
    }

    /// The set of this policy alone, a link after its template; refused where a link has the id of its
    /// template, or for memory.
    pub fn singleton(alloc: Global, policy: Policy) -> Result<PolicySet, PolicySetError>
        ensures added { IfOk result (λ set. set ≡ added [] (policy_id policy) (policy_entry policy)) }
        ensures free { OnOk result (in_the_way [] (policy_id policy) (policy_entry policy) ≡ None) }
        ensures refused { IfErr result (IsOccupied (in_the_way [] (policy_id policy) (policy_entry policy))) }
    {
        let mut set = PolicySet::new(alloc);
        set.add(alloc, policy)?;
        Ok(set)
    }

    /// The set to which these policies are added in turn; refused as the first is that isn't added.
    pub fn try_from_iter(alloc: Global, policies: Vec<Policy>) -> Result<PolicySet, PolicySetError>
        ensures { AddsAll [] (map policy_seen policies.items) result }
    {
        let mut set = PolicySet::new(alloc);
        for policy in policies {
            set.add(alloc, policy)?;
        }
        Ok(set)
    }

    // Whether it is a link of a template whose id isn't bound.
    fn lacks_template(&self, policy: &Policy) -> bool
        ensures lacks { result ≡ lacks_template self.now (policy_entry policy.now) }
        ensures full { IsFull (policy_entry policy.now) }
    {
        is_link(policy) && !self.is_bound(policy.template().id())
    }

    // The id for which a policy isn't added.
    fn in_the_way<'a>(&self, policy: &'a Policy) -> Option<&'a PolicyID>
        ensures { option_copied result ≡ in_the_way self.now (policy_id policy.now) (policy_entry policy.now) }
    {
        let id = policy.id();
        let template = policy.template();
        let template_id = template.id();
        if !is_link(policy) {
            return self.taken(id);
        }
        match self.bound(template_id) {
            None if id == template_id => Some(id),
            Some(bound) if !bound.is_template(template) => Some(template_id),
            _ => self.taken(id),
        }
    }

    // The id, where it is bound.
    fn taken<'a>(&self, id: &'a PolicyID) -> Option<&'a PolicyID>
        ensures { option_copied result ≡ taken self.now id.now }
    {
        if self.is_bound(id) { Some(id) } else { None }
    }
}

// A policy under its id.
fn alone(alloc: Global, policy: Policy) -> Result<PolicyMap<Bound>, AllocError>
    ensures named { IfOk result (λ more. IsNamed more) }
    ensures listed { IfOk result (λ more. ListTheirSlots (values_of more)) }
    ensures policy { IfOk result (λ more. entries_of more ≡ policy_seen policy ∷ []) }
{
    let mut more = PolicyMap::new(alloc);
    Bound::from_policy(alloc, policy)?.insert_into(&mut more)?;
    Ok(more)
}

// A link under its id, after its template under its own.
fn with_its_template(alloc: Global, link: Policy) -> Result<PolicyMap<Bound>, AllocError>
    requires { same_text (policy_id link) (template_id (policy_template link)) ≡ false }
    ensures named { IfOk result (λ more. IsNamed more) }
    ensures listed { IfOk result (λ more. ListTheirSlots (values_of more)) }
    ensures both { IfOk result (λ more. entries_of more ≡ (template_id (policy_template link), a_template (policy_syntax link)) ∷ policy_seen link ∷ []) }
{
    let mut more = PolicyMap::new(alloc);
    let template = listed(alloc, link.template_arc())?;
    Bound::from_template(alloc, template)?.insert_into(&mut more)?;
    Bound::from_policy(alloc, link)?.insert_into(&mut more)?;
    Ok(more)
}

// The template, or a copy that lists its slots where it doesn't.
fn listed(alloc: Global, template: &Rc<Template>) -> Result<Rc<Template>, AllocError>
    ensures id { IfOk result (λ made. template_id made.value ≡ template_id template.now.value) }
    ensures syntax { IfOk result (λ made. syntax_of made.value ≡ syntax_of template.now.value) }
    ensures lists { IfOk result (λ made. listed_slots made.value ≡ slots_of (syntax_of template.now.value)) }
{
    if template.check_invariant() {
        return Ok(template.clone()?);
    }
    let copy = template.as_ref().clone(alloc)?;
    Ok(Rc::new(alloc, copy.listed())?)
}
