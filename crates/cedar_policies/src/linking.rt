// Links of templates.
ghost use Rattle.std.specs.Prelude.{◌≡◌, ◌++◌, IfOk, IfErr, OnOk, filter, is_some, not, true};
ghost use Rattle.std.specs.List.{list_any};
ghost use Rattle.cedar_grammar.specs.Bindings.{binding_of};
ghost use Rattle.cedar_grammar.specs.Syntax.{is_slot};
ghost use Rattle.cedar_grammar.specs.Bindings.{binds_exactly};
ghost use Rattle.cedar_policy_parts.specs.Bindings.{where_bound, bound_slots};
ghost use Rattle.cedar_policies.specs.Slots.{slot_ids};
ghost use Rattle.cedar_policies.specs.Templates.{syntax_of};
ghost use Rattle.cedar_policies.specs.StaticPolicies.{static_id, static_syntax};
ghost use Rattle.cedar_policies.specs.Policies.{IsLink, IsOwn, TakesOwn, policy_template};
ghost use Rattle.cedar_policies.specs.Linking.{IsArityRefusal, ChecksArity};

use crate::errors::LinkingError;
use crate::held_slots::is_same;
use crate::policies::Policy;
use crate::static_policies::StaticPolicy;
use crate::templates::Template;
use cedar_literals::slots::{Slot, SlotId};
use cedar_names::conversions::FromIn;
use cedar_policy_parts::PolicyID;
use cedar_policy_parts::bindings::SlotEnv;
use cedar_policy_parts::errors::UnexpectedSlotError;
use std::alloc::{AllocError, Global};
use std::rc::Rc;

/// Policies made of templates; their type stands above the templates'.
pub trait TemplateLinks {
    /// Whether the entities given are for exactly the slots that the template holds, whether or not it lists
    /// them; refused with the slots that lack one and those that the template doesn't hold, or for memory.
    fn check_binding(
        alloc: Global,
        template: &Template,
        values: &SlotEnv,
    ) -> Result<(), LinkingError>
        ensures fits { OnOk result (binds_exactly values.now (syntax_of template.now) ≡ true) }
        ensures refused { IfErr result (IsArityRefusal values.now (syntax_of template.now)) };

    /// The link of this template under an id, with these entities for its slots; refused where they are
    /// not for exactly the slots that it holds, whether or not it lists them, with the slots that lack one
    /// and those that the template doesn't hold, or for memory.
    fn link(
        alloc: Global,
        template: Rc<Template>,
        new_id: PolicyID,
        values: SlotEnv,
    ) -> Result<Policy, LinkingError>
        ensures linked { IfOk result (IsLink template.value new_id values) }
        ensures fits { OnOk result (binds_exactly values (syntax_of template.value) ≡ true) }
        ensures refused { IfErr result (IsArityRefusal values (syntax_of template.value)) };

    /// The template as a policy that is its own, where it lists no slot; refused for the first that it lists
    /// otherwise, or for memory.
    fn try_as_policy(template: Rc<Template>) -> Result<Policy, UnexpectedSlotError>
        ensures { TakesOwn template.value result };

    /// The static policy as a template, and as a policy of it; refused for memory alone.
    fn link_static_policy(
        alloc: Global,
        policy: StaticPolicy,
    ) -> Result<(Rc<Template>, Policy), AllocError>
        ensures own { IfOk result (λ made. IsOwn (static_id policy) (static_syntax policy) made.1) }
        ensures template { IfOk result (λ made. made.0.value ≡ policy_template made.1) };
}

impl TemplateLinks for Template {
    fn check_binding(
        alloc: Global,
        template: &Template,
        values: &SlotEnv,
    ) -> Result<(), LinkingError> {
        let slots = template.held_slots();
        let unbound_values = unbound_slots(alloc, slots, values)?;
        let extra_values = extra_slots(alloc, slots, values)?;
        check_arity(unbound_values, extra_values)
    }

    fn link(
        alloc: Global,
        template: Rc<Template>,
        new_id: PolicyID,
        values: SlotEnv,
    ) -> Result<Policy, LinkingError> {
        Template::check_binding(alloc, &template, &values)?;
        Ok(Policy::new(template, Some(new_id), values))
    }

    fn try_as_policy(template: Rc<Template>) -> Result<Policy, UnexpectedSlotError> {
        match template.slots().first() {
            None => Ok(Policy::new(template, None, SlotEnv::new())),
            Some(slot) => Err(UnexpectedSlotError::FoundSlot(slot.clone()?)),
        }
    }

    fn link_static_policy(
        alloc: Global,
        policy: StaticPolicy,
    ) -> Result<(Rc<Template>, Policy), AllocError> {
        let template = Rc::new(alloc, Template::from_body(alloc, policy.into_body())?)?;
        let policy = Policy::new(template.clone()?, None, SlotEnv::new());
        Ok((template, policy))
    }
}

// Refused where some slot lacks an entity, or some other slot has one.
fn check_arity(unbound_values: Vec<SlotId>, extra_values: Vec<SlotId>) -> Result<(), LinkingError>
    ensures { ChecksArity unbound_values.items extra_values.items result }
{
    if unbound_values.is_empty() && extra_values.is_empty() {
        Ok(())
    } else {
        Err(LinkingError::ArityError {
            unbound_values,
            extra_values,
        })
    }
}

// The slots that lack an entity.
fn unbound_slots(alloc: Global, slots: &[Slot], values: &SlotEnv) -> Result<Vec<SlotId>, AllocError>
    ensures { IfOk result (λ made. made.items ≡ filter (λ s. not (is_some (binding_of values.now s))) (slot_ids slots.now)) }
{
    let mut unbound = Vec::new(alloc);
    for slot in slots {
        if !values.contains_key(&slot.id) {
            unbound.push(slot.id)?;
        }
    }
    Ok(unbound)
}

// The slots that are bound, and that aren't among these.
fn extra_slots(alloc: Global, slots: &[Slot], values: &SlotEnv) -> Result<Vec<SlotId>, AllocError>
    ensures { IfOk result (λ made. made.items ≡ filter (λ s. not (list_any (is_slot s) (slot_ids slots.now))) (bound_slots values.now)) }
{
    let mut extra = Vec::new(alloc);
    push_extra(&mut extra, slots, values, SlotId::principal())?;
    push_extra(&mut extra, slots, values, SlotId::resource())?;
    Ok(extra)
}

// Puts a slot to the others, where it is bound and isn't among those of the template.
fn push_extra(
    extra: &mut Vec<SlotId>,
    slots: &[Slot],
    values: &SlotEnv,
    slot: SlotId,
) -> Result<(), AllocError>
    ensures { OnOk result (extra.new.items ≡ extra.old.items ++ filter (λ s. not (list_any (is_slot s) (slot_ids slots.now))) (where_bound slot (binding_of values.now slot))) }
{
    if values.contains_key(&slot) && !is_listed(slots, slot) {
        extra.push(slot)?;
    }
    Ok(())
}

// Whether the slot is one of these.
fn is_listed(slots: &[Slot], slot: SlotId) -> bool
    ensures { result ≡ list_any (is_slot slot) (slot_ids slots.now) }
{
    for listed in slots {
        if is_same(slot, listed.id) {
            return true;
        }
    }
    false
}

impl FromIn<StaticPolicy> for Policy {
    type Error = AllocError;

    ghost use Rattle.std.specs.Prelude.{IfOk};
    ghost use Rattle.cedar_policies.specs.StaticPolicies.{static_id, static_syntax};
    ghost use Rattle.cedar_policies.specs.Policies.{IsOwn};

    ghost from_in_gives = { λ policy result. IfOk result (IsOwn (static_id policy) (static_syntax policy)) };

    fn from_in(alloc: Global, policy: StaticPolicy) -> Result<Policy, AllocError> {
        Ok(Template::link_static_policy(alloc, policy)?.1)
    }
}
