// Requests.
ghost use Rattle.std.specs.Prelude.{◌≡◌, IfOk, option_map, Some};
ghost use Rattle.std.specs.Option.{option_copied};
ghost use Rattle.cedar_partial_evaluation.specs.Question.{Given};
ghost use Rattle.cedar_extensions.specs.Table.{as_table};
ghost use Rattle.cedar_requests.specs.Parts.{part_of, entry_place};
ghost use Rattle.cedar_requests.specs.Contexts.{context_part};
ghost use Rattle.cedar_requests.specs.Holding.{request_parts, request_places, request_type};
ghost use Rattle.cedar_requests.specs.Asking.{IsAnswerOf, IsAcceptedBy, verdict};

use crate::contexts::Context;
use crate::entries::EntityUIDEntry;
use crate::errors::RequestError;
use crate::schemas::RequestSchema;
use cedar_extensions::extensions::Extensions;
use cedar_extensions::objects::ExtensionFunctionObject;
use cedar_literals::uids::{EntityType, EntityUID};
use cedar_names::places::Loc;
use std::alloc::{AllocError, Global};

/// What is asked: who asks, what is to be done, what it is to be done to, and the context. Each of these
/// may be missing. Contracts see them by `request_parts`. (Cedar language reference, "Request".)
#[derive(Debug)]
pub struct Request {
    principal: EntityUIDEntry,
    action: EntityUIDEntry,
    resource: EntityUIDEntry,
    context: Option<Context>,
}

// By hand, so that letting go of one is a call.
impl Drop for Request {
    fn drop(self) {
        let Request {
            principal: _,
            action: _,
            resource: _,
            context: _,
        } = self;
    }
}

/// The types of a request: of its principal and its resource, and its action.
#[derive(Debug, PartialEq, Eq, Drop)]
pub struct RequestType {
    /// The type of the principal.
    pub principal: EntityType,
    /// The action.
    pub action: EntityUID,
    /// The type of the resource.
    pub resource: EntityType,
}

impl RequestType {
    /// A copy that shares the names; refused for memory alone.
    pub fn clone(&self, alloc: Global) -> Result<RequestType, AllocError>
        ensures { IfOk result (λ copy. copy ≡ self.now) }
    {
        let principal = self.principal.clone(alloc)?;
        let action = self.action.clone(alloc)?;
        Ok(RequestType {
            principal,
            action,
            resource: self.resource.clone(alloc)?,
        })
    }
}

impl Request {
    /// The request of these uids, each read at the place beside it, and of this context. Where a schema is
    /// given it is asked by `validate_request`. Refused with the schema's error, and for memory alone.
    pub fn new<S: RequestSchema, F: ExtensionFunctionObject>(
        alloc: Global,
        principal: (EntityUID, Option<Loc>),
        action: (EntityUID, Option<Loc>),
        resource: (EntityUID, Option<Loc>),
        context: Context,
        schema: Option<&S>,
        extensions: &Extensions<'_, F>,
    ) -> Result<Request, RequestError<S::Error>>
        ensures held { IfOk result (λ request. request_parts request ≡ record {
          principal = Given principal.0;
          action = Given action.0;
          resource = Given resource.0;
          context = Some (context_part context);
        }) }
        ensures schema { IsAcceptedBy S.validates (option_copied schema.entry) (record {
          principal = Given principal.0;
          action = Given action.0;
          resource = Given resource.0;
          context = Some (context_part context);
        }) (as_table F.answers extensions.now) result }
        ensures places { IfOk result (λ request. request_places request ≡
            record { principal = principal.1; action = action.1; resource = resource.1 }) }
    {
        let principal = EntityUIDEntry::known(alloc, principal.0, principal.1)?;
        let action = EntityUIDEntry::known(alloc, action.0, action.1)?;
        let resource = EntityUIDEntry::known(alloc, resource.0, resource.1)?;
        let request = Request::new_unchecked(principal, action, resource, Some(context));
        match accepted(request, schema, extensions) {
            Ok(request) => Ok(request),
            Err(error) => Err(RequestError::Schema(error)),
        }
    }

    /// The request of these parts. Where a schema is given it is asked by `validate_request`. Takes no
    /// memory; refused with the schema's error alone.
    pub fn new_with_unknowns<S: RequestSchema, F: ExtensionFunctionObject>(
        principal: EntityUIDEntry,
        action: EntityUIDEntry,
        resource: EntityUIDEntry,
        context: Option<Context>,
        schema: Option<&S>,
        extensions: &Extensions<'_, F>,
    ) -> Result<Request, S::Error>
        ensures held { IfOk result (λ request. request_parts request ≡ record {
          principal = part_of principal;
          action = part_of action;
          resource = part_of resource;
          context = option_map context_part context;
        }) }
        ensures schema { IsAnswerOf S.validates (option_copied schema.entry) (record {
          principal = part_of principal;
          action = part_of action;
          resource = part_of resource;
          context = option_map context_part context;
        }) (as_table F.answers extensions.now) (verdict result) }
        ensures places { IfOk result (λ request. request_places request ≡
            record { principal = entry_place principal; action = entry_place action; resource = entry_place resource }) }
    {
        let request = Request::new_unchecked(principal, action, resource, context);
        accepted(request, schema, extensions)
    }

    /// The request of these parts, of which no schema is asked.
    pub fn new_unchecked(
        principal: EntityUIDEntry,
        action: EntityUIDEntry,
        resource: EntityUIDEntry,
        context: Option<Context>,
    ) -> Request
        ensures held { request_parts result ≡ record {
          principal = part_of principal;
          action = part_of action;
          resource = part_of resource;
          context = option_map context_part context;
        } }
        ensures places { request_places result ≡
            record { principal = entry_place principal; action = entry_place action; resource = entry_place resource } }
    {
        Request {
            principal,
            action,
            resource,
            context,
        }
    }

    /// Who asks.
    pub fn principal(&self) -> &EntityUIDEntry
        ensures entity { part_of result.now ≡ (request_parts self.now).principal }
        ensures place { entry_place result.now ≡ (request_places self.now).principal }
    {
        &self.principal
    }

    /// What is to be done.
    pub fn action(&self) -> &EntityUIDEntry
        ensures entity { part_of result.now ≡ (request_parts self.now).action }
        ensures place { entry_place result.now ≡ (request_places self.now).action }
    {
        &self.action
    }

    /// What it is to be done to.
    pub fn resource(&self) -> &EntityUIDEntry
        ensures entity { part_of result.now ≡ (request_parts self.now).resource }
        ensures place { entry_place result.now ≡ (request_places self.now).resource }
    {
        &self.resource
    }

    /// The context, where one is given.
    pub fn context(&self) -> Option<&Context>
        ensures { option_map (λ context. context_part context.now) result ≡ (request_parts self.now).context }
    {
        self.context.as_ref()
    }

    /// The types of the principal and the resource, and the action; none where one of the three isn't
    /// given by its uid. Refused for memory alone.
    pub fn to_request_type(&self, alloc: Global) -> Result<Option<RequestType>, AllocError>
        ensures { IfOk result (λ found. found ≡ request_type (request_parts self.now)) }
    {
        let Some(principal) = self.principal.uid() else {
            return Ok(None);
        };
        let Some(action) = self.action.uid() else {
            return Ok(None);
        };
        let Some(resource) = self.resource.uid() else {
            return Ok(None);
        };
        Ok(Some(RequestType {
            principal: principal.entity_type().clone(alloc)?,
            action: action.clone(alloc)?,
            resource: resource.entity_type().clone(alloc)?,
        }))
    }

    /// A copy that shares the uids and the context's entries; refused for memory alone.
    pub fn clone(&self, alloc: Global) -> Result<Request, AllocError>
        ensures held { IfOk result (λ copy. request_parts copy ≡ request_parts self.now) }
        ensures places { IfOk result (λ copy. request_places copy ≡ request_places self.now) }
    {
        let principal = self.principal.clone(alloc)?;
        let action = self.action.clone(alloc)?;
        let resource = self.resource.clone(alloc)?;
        let context = match &self.context {
            None => None,
            Some(context) => Some(context.clone(alloc)?),
        };
        Ok(Request::new_unchecked(principal, action, resource, context))
    }
}

// The request, where no schema is given or the one given accepts it; else its error.
fn accepted<S: RequestSchema, F: ExtensionFunctionObject>(
    request: Request,
    schema: Option<&S>,
    extensions: &Extensions<'_, F>,
) -> Result<Request, S::Error>
    ensures held { IfOk result (λ kept. request_parts kept ≡ request_parts request) }
    ensures places { IfOk result (λ kept. request_places kept ≡ request_places request) }
    ensures schema { IsAnswerOf S.validates (option_copied schema.entry) (request_parts request) (as_table F.answers extensions.now) (verdict result) }
{
    let Some(schema) = schema else {
        return Ok(request);
    };
    match schema.validate_request(&request, extensions) {
        Ok(()) => Ok(request),
        Err(error) => Err(error),
    }
}
