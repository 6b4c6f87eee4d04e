// Schemas, as the validator asks for them.
ghost use Rattle.std.specs.Prelude.{◌≡◌, cond, map, IfOk, Option, Some, None, option_map};
ghost use Rattle.std.specs.Option.{option_copied, option_map_or};
ghost use Rattle.std.specs.List.{list_any};
ghost use Rattle.std.specs.Map.Iter.{deref};
ghost use Rattle.std.specs.BTreeSet.{contains};
ghost use Rattle.cedar_language.specs.Uid as language;
ghost use Rattle.cedar_language.specs.Order.{same_uid, name_cmp};
ghost use Rattle.cedar_typing.specs.Types.{no_fields};
ghost use Rattle.cedar_typing.specs.Schema.{Signature};
ghost use Rattle.cedar_schema.specs.Types.{fields_of};
ghost use Rattle.cedar_schema_resolution.specs.Shapes.{shape_view};
ghost use Rattle.cedar_validator_schema.specs.Applying.{application_view};
ghost use Rattle.cedar_validator_schema.specs.Actions.{application_at};
ghost use Rattle.cedar_validator_schema.specs.Views.{schema_view};

use crate::actions::Actions;
use crate::applying::ValidatorAction;
use crate::entity_types::EntityTypes;
use crate::hierarchies::Hierarchy;
use cedar_names::texts::SharedText;
use cedar_schema::{AttributeType, TypeName};
use cedar_schema_resolution::{EntityShape, Uid};
use std::alloc::{AllocError, Global};
use std::collections::{BTreeMap, BTreeSet};
use std::rc::Rc;

/// A schema: what a schema's text declares, by full names, with all names in it resolved. Contracts see the schema of typing
/// (`schema_view`), which takes the signatures of extension functions from their table. (Cedar language reference, "Schema".)
///
/// Its memory is linear in what is declared: who is within whom is found by a walk for each question, along the parents that
/// are written.
#[derive(Drop)]
pub struct ValidatorSchema {
    pub(crate) entity_types: EntityTypes,
    pub(crate) actions: Actions,
    pub(crate) action_types: BTreeSet<TypeName>,
    // what entities of those types have: nothing
    pub(crate) action_shape: EntityShape,
}

impl ValidatorSchema {
    // The shape of the types of actions.
    fn shape_of_actions(&self, name: &TypeName) -> Option<&EntityShape>
        ensures { option_map (λ s. shape_view s.now) result
            ≡ cond (contains name_cmp self.now.action_types name.now) (Some (shape_view self.now.action_shape)) None }
    {
        if self.action_types.contains(name) {
            Some(&self.action_shape)
        } else {
            None
        }
    }

    /// What entities of a type have: of a declared type, and of the types of declared actions, which have no attributes and
    /// no tags. None of another.
    pub fn entity_type(&self, name: &TypeName) -> Option<&EntityShape>
        ensures { (s : language.Name → Option Signature) → option_map (λ shape. shape_view shape.now) result ≡ (schema_view s self.now).entity name.now }
    {
        match self.entity_types.shape(name) {
            Some(shape) => Some(shape),
            None => self.shape_of_actions(name),
        }
    }

    /// Whether a policy may name an entity: one of a declared type, of an enumeration those that it lists; or a declared
    /// action.
    pub fn may_name(&self, uid: &Uid) -> bool
        ensures { (s : language.Name → Option Signature) → result ≡ (schema_view s self.now).may_name uid.now }
    {
        self.entity_types.may_have(uid.type_name(), uid.id()) || self.is_action(uid)
    }

    /// Whether entities of a type may have ancestors of another: one or more of what is written behind `in` lead there. It
    /// looks at each type that is reached once; refused for memory alone.
    pub fn may_reach(
        &self,
        alloc: Global,
        from: &TypeName,
        to: &TypeName,
    ) -> Result<bool, AllocError>
        ensures { IfOk result (λ reaches. (s : language.Name → Option Signature) → reaches ≡ (schema_view s self.now).may_reach from.now to.now) }
    {
        self.entity_types.parents.reaches(alloc, from, to)
    }

    /// Whether it is a declared action.
    pub fn is_action(&self, uid: &Uid) -> bool
        ensures { (s : language.Name → Option Signature) → result ≡ (schema_view s self.now).is_action uid.now }
    {
        self.actions.get(uid).is_some()
    }

    /// Whether an action is within a group, by one or more of the groups that are written. It looks at each group that is
    /// reached once; refused for memory alone.
    pub fn action_reaches(
        &self,
        alloc: Global,
        action: &Uid,
        group: &Uid,
    ) -> Result<bool, AllocError>
        ensures { IfOk result (λ reaches. (s : language.Name → Option Signature) → reaches ≡ (schema_view s self.now).action_reaches action.now group.now) }
    {
        self.actions.groups.reaches(alloc, action, group)
    }

    /// The uids of the declared actions, in rising order. Refused for memory alone.
    pub fn actions(&self, alloc: Global) -> Result<Vec<&Uid>, AllocError>
        ensures { IfOk result (λ listed. (s : language.Name → Option Signature) (u : language.Uid)
            → list_any (same_uid u) (map deref listed.items) ≡ (schema_view s self.now).is_action u) }
    {
        let mut listed = Vec::new(alloc);
        for uid in self.actions.by_uid.keys() {
            listed.push(uid)?;
        }
        Ok(listed)
    }

    /// What a declared action applies to.
    pub fn action(&self, uid: &Uid) -> Option<&ValidatorAction>
        ensures { option_map application_view (option_copied result) ≡ application_at self.now.actions uid.now }
    {
        self.actions.get(uid)
    }

    /// Whether an action applies to principals and resources of these types; one that isn't declared applies to none.
    pub fn applies(&self, action: &Uid, principal: &TypeName, resource: &TypeName) -> bool
        ensures { (s : language.Name → Option Signature) → result ≡ (schema_view s self.now).applies action.now principal.now resource.now }
    {
        match self.actions.get(action) {
            Some(found) => found.applies_to(principal, resource),
            None => false,
        }
    }

    /// The attributes of the context of a declared action. One that isn't declared has no attributes.
    pub fn context(&self, action: &Uid) -> Option<&Rc<BTreeMap<SharedText, AttributeType>>>
        ensures { (s : language.Name → Option Signature) → option_map_or (λ c. fields_of c.now.value) result no_fields
            ≡ (schema_view s self.now).context action.now }
    {
        Some(&self.actions.get(action)?.context)
    }

    /// The groups that an action is in, as they are written.
    pub fn groups(&self) -> &Hierarchy<Uid>
        ensures { result.now ≡ self.now.actions.groups }
    {
        &self.actions.groups
    }

    /// The types that entities of a type may have parents of, as they are written.
    pub fn parents(&self) -> &Hierarchy<TypeName>
        ensures { result.now ≡ self.now.entity_types.parents }
    {
        &self.entity_types.parents
    }
}
