// The kinds of requests of a schema.
ghost use Rattle.std.specs.Prelude.{◌≡◌, ◌++◌, map, IfOk, OnOk, Option};
ghost use Rattle.std.specs.List.{list_any};
ghost use Rattle.cedar_language.specs.Uid as language;
ghost use Rattle.cedar_typing.specs.Schema.{Signature};
ghost use Rattle.cedar_schema_grammar.specs.Environments.{application, pairs};
ghost use Rattle.cedar_validator.specs.SchemaTypes.{requests_in, types_view};
ghost use Rattle.cedar_validator.specs.Environments.{request_view, same_request};

use crate::actions::ActionTypes;
use crate::environments::RequestType;
use crate::schema_types::SchemaTypes;
use cedar_literals::uids::{EntityType, EntityUID};
use std::alloc::{AllocError, Global};
use std::rc::Rc;

// Adds the requests of an action and a type of principals: one for each type of resources.
fn add_resources(
    alloc: Global,
    action: &Rc<EntityUID>,
    principal: &EntityType,
    resources: &[EntityType],
    listed: &mut Vec<RequestType>,
) -> Result<(), AllocError>
    ensures { OnOk result (map request_view listed.new.items
        ≡ map request_view listed.old.items ++ map (application action.now.value principal.now) resources.now) }
{
    for resource in resources {
        listed.push(RequestType {
            principal: principal.clone(alloc)?,
            action: action.clone()?,
            resource: resource.clone(alloc)?,
        })?;
    }
    Ok(())
}

// Adds the requests of an action: one for each type of principals and each type of resources.
fn add_principals(
    alloc: Global,
    action: &Rc<EntityUID>,
    principals: &[EntityType],
    resources: &[EntityType],
    listed: &mut Vec<RequestType>,
) -> Result<(), AllocError>
    ensures { OnOk result (map request_view listed.new.items
        ≡ map request_view listed.old.items ++ pairs action.now.value principals.now resources.now) }
{
    for principal in principals {
        add_resources(alloc, action, principal, resources, listed)?;
    }
    Ok(())
}

// Adds the requests of an action that is declared.
fn add_requests(
    alloc: Global,
    uid: &EntityUID,
    action: &ActionTypes,
    listed: &mut Vec<RequestType>,
) -> Result<(), AllocError>
    ensures { OnOk result (map request_view listed.new.items
        ≡ map request_view listed.old.items ++ pairs uid.now action.now.principals.items action.now.resources.items) }
{
    let copy = uid.clone(alloc)?;
    let shared = Rc::new(alloc, copy)?;
    add_principals(
        alloc,
        &shared,
        &action.principals,
        &action.resources,
        listed,
    )
}

impl SchemaTypes {
    /// The kinds of requests of the schema: of each action, in rising order of their uids, one for each type of principals and
    /// each type of resources that it applies to, as they are written. Refused for memory alone.
    pub fn request_types(&self, alloc: Global) -> Result<Vec<RequestType>, AllocError>
        ensures listed { IfOk result (λ listed. map request_view listed.items ≡ requests_in self.now.actions.entries) }
        ensures applied { IfOk result (λ listed. (s : language.Name → Option Signature) (u : language.Uid) (n m : language.Name)
            → list_any (same_request (application u n m)) (map request_view listed.items) ≡ (types_view s self.now).applies u n m) }
    {
        let mut listed = Vec::new(alloc);
        for (uid, action) in &self.actions {
            add_requests(alloc, uid, action, &mut listed)?;
        }
        Ok(listed)
    }
}
