// What is told of what a session holds under its ids.
ghost use Rattle.std.specs.Prelude.{◌≡◌, string_bytes, IfNone, IfOk, IfSome, OnOk};
ghost use Rattle.cedar_held.specs.PolicyWorlds.{policies_in};
ghost use Rattle.cedar_policies.specs.Templates.{template_id};
ghost use Rattle.cedar_policy_set.specs.Texts.{AreToldBySlots};
ghost use Rattle.cedar_session.specs.Sessions.{world_of};
ghost use Rattle.cedar_messages.specs.Telling.{Adds, TellsEach};
ghost use Rattle.cedar_refusals.specs.Checks.{TellsPolicy};
ghost use Rattle.cedar_authoring.specs.Explaining.{TellsOne};
ghost use Rattle.cedar_authoring.specs.Pasts.{TellsOneOf};

use crate::origins::Origin;
use crate::past::Past;
use crate::standing::{Standings, tell_standing};
use cedar_extensions::objects::ExtensionFunctionObject;
use cedar_held::worlds::policy_sets_are_worlds;
use cedar_messages::telling::{on_one_line, tell_line};
use cedar_policies::templates::Template;
use cedar_policy_set::policy_map::PolicyMap;
use cedar_refusals::listing::described;
use cedar_refusals::naming::once;
use cedar_session::{PartialResponse, PolicyID, PolicySet, Session};
use std::alloc::{AllocError, Global};

/// What a session holds, and how it stands to the open question.
#[derive(Drop)]
pub(crate) struct Held<'s> {
    policies: &'s PolicySet,
    standings: Standings<'s>,
    // How many links each template has that has one.
    links: PolicyMap<usize>,
    // The names that aren't told.
    untold: Vec<&'s str>,
    ghost told_by_slots: { AreToldBySlots policies.now },
}

impl<'s> Held<'s> {
    /// What this session holds, as it stands by this response. Refused for memory alone.
    pub(crate) fn of<F: ExtensionFunctionObject>(
        alloc: Global,
        session: &'s Session<'_, '_, F>,
        response: &'s PartialResponse,
    ) -> Result<Held<'s>, AllocError>
        ensures policies { IfOk result (λ held. policies_in held.policies.now ≡ (world_of session.now).policies) }
        ensures response { IfOk result (λ held. held.standings.response.now ≡ response.now) }
    {
        let policies = session.policies();
        let links = count_links(alloc, policies)?;
        let untold = once(session.untold()?);
        Ok(Held {
            policies,
            standings: Standings::of(alloc, response)?,
            links,
            untold,
        })
    }

    /// Tells of each of these ids how the policy stands that is in force under it, or of the template how many links it
    /// has. Refused for memory alone.
    pub(crate) fn tell_each(
        &self,
        alloc: Global,
        told: &mut String,
        past: &Past<'_>,
        ids: &[PolicyID],
    ) -> Result<(), AllocError>
        ensures { OnOk result (Adds (TellsEach (TellsOneOf past.now (policies_in self.now.policies.now) self.now.standings.response.now) ids.now) (string_bytes told.old) (string_bytes told.new)) }
    {
        for id in ids {
            let origin = past.origin_of(self.policies, id);
            self.tell_one(alloc, told, origin, id)?;
        }
        Ok(())
    }

    /// Tells how a policy stands, where one is in force under the id, and of a template how many links it has.
    fn tell_one(
        &self,
        alloc: Global,
        told: &mut String,
        origin: Origin<'_, '_>,
        id: &PolicyID,
    ) -> Result<(), AllocError>
        ensures { OnOk result (Adds (TellsOne origin.entry.name.now (policies_in self.now.policies.now) self.now.standings.response.now id.now) (string_bytes told.old) (string_bytes told.new)) }
    {
        policy_sets_are_worlds();
        // Its contract says that the template of a link is bound.
        let _bound = self.policies.len();
        match self.policies.get(id) {
            Some(policy) => {
                let standing = self.standings.standing(id);
                tell_standing(
                    alloc,
                    told,
                    origin,
                    policy,
                    standing,
                    self.untold.as_slice(),
                )
            }
            None => self.tell_template(alloc, told, origin, self.policies.get_template(id)),
        }
    }

    /// Tells of a template, where there is one, how many links it has.
    fn tell_template(
        &self,
        alloc: Global,
        told: &mut String,
        origin: Origin<'_, '_>,
        template: Option<&Template>,
    ) -> Result<(), AllocError>
        ensures none { IfNone template.entry (OnOk result (string_bytes told.new ≡ string_bytes told.old)) }
        ensures some { IfSome template.entry (λ t. OnOk result (Adds (TellsPolicy origin.entry.name.now (template_id t.now)) (string_bytes told.old) (string_bytes told.new))) }
    {
        let Some(template) = template else {
            return Ok(());
        };
        let what = described(alloc, Some(template))?;
        let links = links_told(alloc, self.links_of(template.id()))?;
        let what = format!(in alloc; "{what}, {links}")?;
        let what = on_one_line(alloc, what.as_str())?;
        let line = format!(in alloc; "{} {}", template.id().as_str(), what.as_str())?;
        let place = origin.place(template.loc());
        tell_line(alloc, told, origin.name, place, line.as_str(), "")
    }

    fn links_of(&self, template: &PolicyID) -> usize {
        self.links.get(template).copied().unwrap_or(0)
    }
}

/// How many links each template has that has one.
fn count_links(alloc: Global, policies: &PolicySet) -> Result<PolicyMap<usize>, AllocError> {
    let mut links = PolicyMap::new(alloc);
    for policy in policies.policies() {
        if !policy.is_static() {
            add_link(&mut links, policy.template().id())?;
        }
    }
    Ok(links)
}

fn add_link(links: &mut PolicyMap<usize>, template: &PolicyID) -> Result<(), AllocError> {
    let before = links.get(template).copied().unwrap_or(0);
    links.insert(template.clone()?, before.saturating_add(1))?;
    Ok(())
}

fn links_told(alloc: Global, count: usize) -> Result<String, AllocError> {
    match count {
        0 => String::from_str(alloc, "no links"),
        1 => String::from_str(alloc, "1 link"),
        _ => format!(in alloc; "{count} links"),
    }
}
