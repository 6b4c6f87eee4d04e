//! Entities that are made of expressions.
ghost use Rattle.std.specs.Prelude.{IfOk, IfErr};
ghost use Rattle.std.specs.FinSet as set;
ghost use Rattle.cedar_extensions.specs.Table.{as_table};
ghost use Rattle.cedar_entities.specs.Data.{EntityData};
ghost use Rattle.cedar_restricted.specs.Views.{restricted_entries};
ghost use Rattle.cedar_entity_evaluation.specs.Evaluated.{IsEvaluated, AreWithin};
ghost use Rattle.cedar_entity_evaluation.specs.Refused.{IsCreationRefusal};

use crate::evaluated_attributes::evaluate_all;
use crate::evaluation_errors::EntityCreationError;
use cedar_entities::entity::Entity;
use cedar_extensions::extensions::Extensions;
use cedar_extensions::objects::ExtensionFunctionObject;
use cedar_literals::uids::EntityUID;
use cedar_restricted::restricted::RestrictedExpr;
use std::alloc::Global;
use std::collections::BTreeMap;
use std::rc::RcStr;

/// What is made of an entity's parts, its attributes and tags being expressions.
pub trait EvaluateEntity: Sized {
    // what the entity holds
    ghost held: { Self → EntityData };

    /// The entity of these parts, its attributes and tags evaluated within the limit `depth`: each has the
    /// value of its expression, or what is left of it where something in it is unknown. Parents and other ancestors
    /// come in any order and any number of times.
    ///
    /// Refused for the first attribute whose expression has no value, in the order of names, or where all
    /// have one for the first such tag; and for want of memory.
    fn new<F: ExtensionFunctionObject>(
        alloc: Global,
        uid: EntityUID,
        attrs: BTreeMap<RcStr, RestrictedExpr>,
        indirect_ancestors: Vec<EntityUID>,
        parents: Vec<EntityUID>,
        tags: BTreeMap<RcStr, RestrictedExpr>,
        extensions: &Extensions<'_, F>,
        depth: u32,
    ) -> Result<Self, EntityCreationError>
        ensures evaluated { IfOk result (λ made. IsEvaluated (as_table F.answers extensions.now) uid (restricted_entries attrs.entries) (restricted_entries tags.entries)
            (set.from_list parents.items) (set.from_list indirect_ancestors.items) (held made)) }
        ensures attributes_limit { IfOk result (λ made. AreWithin depth (restricted_entries attrs.entries)) }
        ensures tags_limit { IfOk result (λ made. AreWithin depth (restricted_entries tags.entries)) }
        ensures refused { IfErr result (IsCreationRefusal (as_table F.answers extensions.now) depth uid (restricted_entries attrs.entries) (restricted_entries tags.entries)) };
}

impl EvaluateEntity for Entity {
    ghost held = { λ entity. entity };

    fn new<F: ExtensionFunctionObject>(
        alloc: Global,
        uid: EntityUID,
        attrs: BTreeMap<RcStr, RestrictedExpr>,
        indirect_ancestors: Vec<EntityUID>,
        parents: Vec<EntityUID>,
        tags: BTreeMap<RcStr, RestrictedExpr>,
        extensions: &Extensions<'_, F>,
        depth: u32,
    ) -> Result<Entity, EntityCreationError> {
        let attrs = evaluate_all(alloc, uid.clone(alloc)?, true, attrs, extensions, depth)?;
        let tags = evaluate_all(alloc, uid.clone(alloc)?, false, tags, extensions, depth)?;
        Ok(Entity::new_with_attr_partial_value(
            alloc,
            uid,
            attrs,
            indirect_ancestors,
            parents,
            tags,
        )?)
    }
}
