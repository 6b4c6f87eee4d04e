// Entities that are made of bodies.
ghost use Rattle.std.specs.Prelude.{◌≡◌, IfOk, false, []};
ghost use Rattle.cedar_extensions.specs.Table.{as_table};
ghost use Rattle.cedar_entities.specs.Attributes.{attributes_of};
ghost use Rattle.cedar_world.specs.Values.{some_field};
ghost use Rattle.cedar_held.specs.Entities.{written_of, lent_fields};
ghost use Rattle.cedar_held.specs.Fields.{unrestricted};
ghost use Rattle.cedar_held.specs.Making.{IsMade, set_listed};

use crate::EntityBody;
use crate::entry_fields::evaluated_fields;
use cedar_entities::entity::Entity;
use cedar_extensions::extensions::Extensions;
use cedar_extensions::objects::ExtensionFunctionObject;
use cedar_literals::uids::EntityUID;
use cedar_replies::Refusal;
use cedar_restricted::partial_values::PartialValue;
use std::alloc::{AllocError, Global};
use std::collections::{BTreeMap, BTreeSet};
use std::rc::RcStr;

/// The uids, as a set. It errs for want of memory alone.
pub fn set_of(alloc: Global, uids: &[EntityUID]) -> Result<BTreeSet<EntityUID>, AllocError>
    ensures { IfOk result (λ made. set_listed made.keys ≡ set_listed uids.now) }
{
    let mut made = BTreeSet::new(alloc);
    for uid in uids {
        made.insert(uid.clone(alloc)?)?;
    }
    Ok(made)
}

// The entity of these parts, which keeps no ancestors beside its parents.
fn entity(
    alloc: Global,
    body: &EntityBody<'_>,
    attrs: BTreeMap<RcStr, PartialValue>,
    tags: BTreeMap<RcStr, PartialValue>,
) -> Result<Entity, AllocError>
    ensures { IfOk result (λ made. made ≡ record {
      uid = body.now.uid.now;
      attributes = attributes_of attrs.entries;
      tags = attributes_of tags.entries;
      parents = set_listed body.now.parents.items;
      indirect = set_listed [];
    }) }
{
    let uid = body.uid.clone(alloc)?;
    let parents = Vec::from_clones(alloc, &body.parents)?;
    Entity::new_with_attr_partial_value(alloc, uid, attrs, Vec::new(alloc), parents, tags)
}

// The entity of a body, or none where some attribute or tag holds an unknown.
pub fn entity_of<F: ExtensionFunctionObject>(
    alloc: Global,
    body: &EntityBody<'_>,
    extensions: &Extensions<'_, F>,
    depth: u32,
) -> Result<Option<Entity>, Refusal>
    requires attributes { some_field unrestricted (lent_fields body.now.attrs) ≡ false }
    requires tags { some_field unrestricted (lent_fields body.now.tags) ≡ false }
    ensures { IsMade (as_table F.answers extensions.now) depth (written_of body.now) result }
{
    let attrs = evaluated_fields(alloc, body.attrs, extensions, depth)?;
    let tags = evaluated_fields(alloc, body.tags, extensions, depth)?;
    match attrs {
        None => Ok(None),
        Some(attrs) => match tags {
            None => Ok(None),
            Some(tags) => Ok(Some(entity(alloc, body, attrs, tags)?)),
        },
    }
}
