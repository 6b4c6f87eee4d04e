// Entities on a stack, stores of these, and what both are refused for.
use cedar_extensions::extensions::Extensions;
use cedar_literals::uids::EntityUID;
use cedar_names::errors::ParseNameError;
use cedar_restricted::errors::RestrictedExpressionError;
use cedar_restricted::partial_values::PartialValue;
use cedar_restricted::restricted::RestrictedExpr;
use cedar_rows::{Answer, append, no_case, push, refused, said, show, tell};
use cedar_store::ast::Entity;
use cedar_store::entities::{Dereference, Entities, EntitiesError, TCComputation};
use cedar_store::prelude::{EntitiesValidation, EntityValidation, EvaluateEntity, TCNode};
use cedar_store::transitive_closure::TcError;
use cedar_trees::expr::Expr;
use std::alloc::{AllocError, Global};
use std::collections::BTreeMap;
use std::mem;
use std::rc::RcStr;

type Parts = BTreeMap<RcStr, RestrictedExpr>;

/// The entities on the stack, the parts of the next one, the store at hand, and another one.
pub(crate) struct Stores {
    entities: Vec<Entity>,
    attrs: Parts,
    tags: Parts,
    open: BTreeMap<RcStr, PartialValue>,
    /// The store that was made last.
    pub(crate) store: Entities,
    other: Entities,
}

impl Drop for Stores {
    fn drop(self) {
        let Stores {
            entities: _,
            attrs: _,
            tags: _,
            open: _,
            store: _,
            other: _,
        } = self;
    }
}

/// Nothing was made yet.
pub(crate) fn none(alloc: Global) -> Stores {
    Stores {
        entities: Vec::new(alloc),
        attrs: BTreeMap::new(alloc),
        tags: BTreeMap::new(alloc),
        open: BTreeMap::new(alloc),
        store: Entities::new(alloc),
        other: Entities::new(alloc),
    }
}

/// The user of this id.
pub(crate) fn user(alloc: Global, id: &str) -> Result<EntityUID, ParseNameError> {
    EntityUID::with_eid_and_type(alloc, "User", id)
}

/// Those of the ids between commas.
fn users(alloc: Global, ids: &str) -> Result<Vec<EntityUID>, ParseNameError> {
    let mut uids = Vec::new(alloc);
    for id in ids.split_terminator(',') {
        uids.push(user(alloc, id)?)?;
    }
    Ok(uids)
}

fn hold<V: Drop>(alloc: Global, name: &str, value: V, parts: &mut BTreeMap<RcStr, V>) -> Answer {
    parts.insert(RcStr::from_str(alloc, name)?, value)?;
    tell(alloc, parts.len())
}

fn restrict(
    alloc: Global,
    name: &str,
    expr: Result<RestrictedExpr, RestrictedExpressionError>,
    parts: &mut Parts,
) -> Answer {
    match expr {
        Ok(expr) => hold(alloc, name, expr, parts),
        Err(error) => refused(alloc, error),
    }
}

/// The expression on top is an attribute or a tag of the next entity, or what is left of an attribute.
pub(crate) fn part(
    alloc: Global,
    verb: &str,
    name: &str,
    exprs: &mut Vec<Expr>,
    held: &mut Stores,
) -> Answer {
    let Some(expr) = exprs.pop() else {
        return no_case(alloc);
    };
    match verb {
        "attr" => restrict(
            alloc,
            name,
            RestrictedExpr::new(alloc, expr),
            &mut held.attrs,
        ),
        "tag" => restrict(
            alloc,
            name,
            RestrictedExpr::new(alloc, expr),
            &mut held.tags,
        ),
        "open" => hold(alloc, name, PartialValue::from(expr), &mut held.open),
        _ => no_case(alloc),
    }
}

/// An entity of the parts at hand that are evaluated, with these parents; or of what is left of attributes.
pub(crate) fn make(
    alloc: Global,
    verb: &str,
    id: &str,
    parents: &str,
    table: &Extensions<'_>,
    held: &mut Stores,
) -> Answer {
    let (uid, parents) = match (user(alloc, id), users(alloc, parents)) {
        (Ok(uid), Ok(parents)) => (uid, parents),
        _ => return no_case(alloc),
    };
    let beside = Vec::new(alloc);
    match verb {
        "evaluated" => {
            let attrs = mem::replace(&mut held.attrs, BTreeMap::new(alloc));
            let tags = mem::replace(&mut held.tags, BTreeMap::new(alloc));
            let entity = Entity::new(alloc, uid, attrs, beside, parents, tags, table, 9);
            push(alloc, &mut held.entities, entity)
        }
        "whole" => {
            let attrs = mem::replace(&mut held.open, BTreeMap::new(alloc));
            let tags = BTreeMap::new(alloc);
            let entity = Entity::new_with_attr_partial_value(
                alloc, uid, attrs, beside, parents, tags,
            );
            push(alloc, &mut held.entities, entity)
        }
        "bare" => push(alloc, &mut held.entities, Entity::with_uid(alloc, uid)),
        _ => no_case(alloc),
    }
}

/// That it was done, or the error.
fn done(alloc: Global, found: Result<(), AllocError>) -> Answer {
    found?;
    String::from_str(alloc, "ok")
}

fn edges(alloc: Global, found: Result<Vec<&EntityUID>, AllocError>) -> Answer {
    let mut text = String::new(alloc);
    for uid in &found? {
        append(&mut text, uid.to_string(alloc))?;
    }
    Ok(text)
}

/// The topmost entity is changed, copied or asked.
pub(crate) fn ask(
    alloc: Global,
    verb: &str,
    id: &str,
    table: &Extensions<'_>,
    held: &mut Stores,
) -> Answer {
    let (Some(entity), Ok(uid)) = (held.entities.last_mut(), user(alloc, id)) else {
        return no_case(alloc);
    };
    match verb {
        "add-parent" => done(alloc, entity.add_parent(uid)),
        "add-ancestor" => done(alloc, entity.add_indirect_ancestor(uid)),
        "add-edge" => done(alloc, entity.add_edge_to(uid)),
        "reset-edges" => done(alloc, entity.reset_edges()),
        "edges" => edges(alloc, entity.out_edges(alloc)),
        "direct-edges" => edges(alloc, entity.direct_edges(alloc)),
        "copy" => show(alloc, entity.clone(alloc)),
        "is-valid" => said(alloc, entity.try_validate(alloc, table).is_ok()),
        "validate" => match held.entities.pop() {
            Some(entity) => push(alloc, &mut held.entities, entity.validate(alloc, table)),
            None => no_case(alloc),
        },
        _ => no_case(alloc),
    }
}

/// The store where an edit gives one; else why it gives none.
fn kept(alloc: Global, at: &mut Entities, edited: Result<Entities, EntitiesError>) -> Answer {
    match edited {
        Ok(store) => {
            *at = store;
            tell(alloc, at.len())
        }
        Err(EntitiesError::TransitiveClosureError(TcError::HasCycle(_cycle))) => {
            String::from_str(alloc, "cycle")
        }
        Err(error) => refused(alloc, error),
    }
}

/// How the closure comes about by each way to fill a store.
fn computation(verb: &str) -> TCComputation {
    match verb {
        "of-closed" => TCComputation::AssumeAlreadyComputed,
        "of-enforced" => TCComputation::EnforceAlreadyComputed,
        _ => TCComputation::ComputeNow,
    }
}

/// All entities on the stack are put into the store, or become another one; those of these ids are removed; or what the
/// store is asked.
pub(crate) fn fill(
    alloc: Global,
    verb: &str,
    ids: &str,
    table: &Extensions<'_>,
    held: &mut Stores,
) -> Answer {
    let computation = computation(verb);
    match verb {
        "add" => {
            let entities = mem::replace(&mut held.entities, Vec::new(alloc));
            let store = mem::replace(&mut held.store, Entities::new(alloc));
            kept(
                alloc,
                &mut held.store,
                store.add_entities(alloc, entities, computation),
            )
        }
        "put" => {
            let entities = mem::replace(&mut held.entities, Vec::new(alloc));
            let store = mem::replace(&mut held.store, Entities::new(alloc));
            kept(
                alloc,
                &mut held.store,
                store.upsert_entities(alloc, entities, computation),
            )
        }
        "of" | "of-closed" | "of-enforced" => {
            let entities = mem::replace(&mut held.entities, Vec::new(alloc));
            let made = Entities::from_entities(alloc, entities, computation);
            kept(alloc, &mut held.store, made)
        }
        "remove" => match users(alloc, ids) {
            Ok(uids) => {
                let gone = uids.into_iter().collect(alloc)?;
                let store = mem::replace(&mut held.store, Entities::new(alloc));
                kept(
                    alloc,
                    &mut held.store,
                    store.remove_entities(alloc, &gone, computation),
                )
            }
            Err(error) => refused(alloc, error),
        },
        "partial" => {
            held.store = mem::replace(&mut held.store, Entities::new(alloc)).partial();
            said(alloc, held.store.is_partial())
        }
        _ => asked(alloc, verb, ids, table, held),
    }
}

/// What the store is asked.
fn asked(alloc: Global, verb: &str, id: &str, table: &Extensions<'_>, held: &mut Stores) -> Answer {
    match verb {
        "show" => held.store.to_string(alloc),
        "at" => match user(alloc, id) {
            Ok(uid) => found(alloc, held.store.entity(alloc, &uid)),
            Err(error) => refused(alloc, error),
        },
        "validate" => match held.store.try_validate(alloc, table) {
            Ok(()) => String::from_str(alloc, "valid"),
            Err(error) => refused(alloc, error),
        },
        "copy" => {
            held.other = held.store.clone(alloc)?;
            said(alloc, held.store.deep_eq(&held.other))
        }
        _ => no_case(alloc),
    }
}

fn found(alloc: Global, entity: Result<Dereference<'_, Entity>, AllocError>) -> Answer {
    match entity? {
        Dereference::NoSuchEntity => String::from_str(alloc, "no such entity"),
        Dereference::Residual(expr) => expr.to_string(alloc),
        Dereference::Data(entity) => entity.to_string(alloc),
    }
}
