// Linking templates.
ghost use Rattle.std.specs.Prelude.{◌≡◌, IfOk, IfErr, OnOk, OnErr};
ghost use Rattle.cedar_policy_set.specs.Refused.{IsLinked, IsLinkRefusal};

use crate::bounds::{Bound, BoundKind};
use crate::sets::PolicySet;
use cedar_policies::errors::LinkingError;
use cedar_policies::linking::TemplateLinks;
use cedar_policies::templates::Template;
use cedar_policy_parts::PolicyID;
use cedar_policy_parts::bindings::SlotEnv;
use std::alloc::Global;

impl PolicySet {
    /// Binds a new id to the link of a template with these entities. Refused where no template has the id,
    /// which a static policy isn't, where the entities aren't for exactly its slots, where the new id is
    /// bound, or for memory; the first of these that stands is answered. A refused call changes nothing.
    pub fn link(
        &mut self,
        alloc: Global,
        template_id: PolicyID,
        new_id: PolicyID,
        values: SlotEnv,
    ) -> Result<(), LinkingError>
        ensures linked { OnOk result (IsLinked self.old template_id new_id values self.new) }
        ensures refused { IfErr result (IsLinkRefusal self.old template_id new_id values) }
        ensures err { OnErr result (self.new ≡ self.old) }
    {
        let Some(bound) = self.bound(&template_id) else {
            return Err(LinkingError::NoSuchTemplate { id: template_id });
        };
        let BoundKind::Template(template) = bound.kind() else {
            return Err(LinkingError::NoSuchTemplate { id: template_id });
        };
        let template = template.clone()?;
        let policy = Template::link(alloc, template, new_id.clone()?, values)?;
        if self.is_bound(&new_id) {
            return Err(LinkingError::PolicyIdConflict { id: new_id });
        }
        let bound = Bound::from_policy(alloc, policy)?;
        self.bind(new_id, bound)?;
        Ok(())
    }
}
