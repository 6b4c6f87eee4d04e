// Links of the templates of a policy set.
ghost use Rattle.std.specs.Prelude.{◌≡◌, IfOk};
ghost use Rattle.std.specs.Rc.{rc_str_bytes};
ghost use Rattle.cedar_held.specs.PolicyWorlds.{policies_in};
ghost use Rattle.cedar_held.specs.LinkBodies.{link_of};
ghost use Rattle.cedar_held.specs.PolicyEdits.{LinksBody};
ghost use Rattle.cedar_held.specs.HoldingPolicies.{IsHeld};
ghost use Rattle.cedar_held.specs.Links.{FindsTemplate, MakesLink};

use crate::LinkBody;
use crate::worlds::policy_sets_are_worlds;
use cedar_literals::slots::SlotId;
use cedar_policies::errors::LinkingError;
use cedar_policies::linking::TemplateLinks;
use cedar_policies::policies::Policy;
use cedar_policies::templates::Template;
use cedar_policy_parts::PolicyID;
use cedar_policy_parts::bindings::SlotEnv;
use cedar_policy_set::bounds::BoundKind;
use cedar_policy_set::errors::PolicySetError;
use cedar_policy_set::sets::PolicySet;
use cedar_replies::Refusal;
use std::alloc::{AllocError, Global};
use std::rc::{Rc, RcStr};

// Binds the id of a body to the link that it states.
pub fn link(alloc: Global, set: &mut PolicySet, body: &LinkBody<'_>) -> Result<(), Refusal>
    requires { IsHeld set.old }
    ensures linked { LinksBody (link_of body.now) (policies_in set.old) result (policies_in set.new) }
    ensures held { IsHeld set.new }
{
    policy_sets_are_worlds();
    let link = linked(alloc, set, body)?;
    match set.add(alloc, link) {
        Ok(()) => Ok(()),
        Err(PolicySetError::Occupied { .. }) => Err(Refusal::IdConflict),
        Err(PolicySetError::Memory(_)) => Err(Refusal::Memory),
    }
}

// The link that a body states, of a template of the set.
fn linked(alloc: Global, set: &PolicySet, body: &LinkBody<'_>) -> Result<Policy, Refusal>
    ensures { MakesLink set.now (link_of body.now) result }
{
    let template = template_at(set, body.template)?;
    let id = PolicyID::from_smolstr(body.id.clone()?);
    let slots = slots_of(alloc, body)?;
    match Template::link(alloc, template, id, slots) {
        Ok(link) => Ok(link),
        Err(LinkingError::Memory(_)) => Err(Refusal::Memory),
        Err(_) => Err(Refusal::Arity),
    }
}

// The template that an id is bound to.
fn template_at(set: &PolicySet, id: &RcStr) -> Result<Rc<Template>, Refusal>
    ensures { FindsTemplate set.now (rc_str_bytes id.now) result }
{
    let id = PolicyID::from_smolstr(id.clone()?);
    let Some(bound) = set.bound(&id) else {
        return Err(Refusal::NoSuchTemplate);
    };
    match bound.kind() {
        BoundKind::Policy(_) => Err(Refusal::NotTemplate),
        BoundKind::Template(template) => Ok(template.clone()?),
    }
}

// The entities that a body states for slots.
fn slots_of(alloc: Global, body: &LinkBody<'_>) -> Result<SlotEnv, AllocError>
    ensures { IfOk result (λ slots. slots ≡ (link_of body.now).bindings) }
{
    let mut slots = SlotEnv::new();
    if let Some(uid) = body.principal {
        slots.insert(SlotId::principal(), uid.clone(alloc)?);
    }
    if let Some(uid) = body.resource {
        slots.insert(SlotId::resource(), uid.clone(alloc)?);
    }
    Ok(slots)
}
