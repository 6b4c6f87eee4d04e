// Requests held against a schema.
ghost use Rattle.std.specs.Prelude.{◌≡◌, Some, IfOk, is_some};
ghost use Rattle.std.specs.List.{list_any};
ghost use Rattle.std.specs.Option.{option_copied, option_map};
ghost use Rattle.cedar_language.specs.Order.{same_name};
ghost use Rattle.cedar_validator_schema.specs.Actions.{application_at};
ghost use Rattle.cedar_validator_schema.specs.Applying.{application_view};
ghost use Rattle.cedar_validator_schema.specs.Views.{shape_in};
ghost use Rattle.cedar_requests.specs.Contexts.{context_part};
ghost use Rattle.cedar_conformance.specs.Requests as faults;
ghost use Rattle.cedar_conformance.specs.Requests.{type_fault, types_fault, listed_fault, uids_fault, takers_fault, applied_fault, context_fault, may_name_in};
ghost use Rattle.cedar_conformance.specs.Verdicts.{IsVerdict};

use crate::errors::RequestValidationError;
use crate::names::{is_name_of, type_name_of, uid_of};
use crate::values::have_attributes;
use cedar_extensions::extensions::Extensions;
use cedar_extensions::objects::ExtensionFunctionObject;
use cedar_literals::uids::{EntityType, EntityUID};
use cedar_requests::contexts::Context;
use cedar_requests::requests::Request;
use cedar_requests::schemas::RequestSchema;
use cedar_schema::TypeName;
use cedar_validator_schema::{ValidatorAction, ValidatorSchema};
use std::alloc::{AllocError, Global};

/// A schema that requests are held against: by `validate_request` exactly those are accepted that conform, by what is known of
/// them. A missing part is held to the type that is stated of it, and what is left of a context, where something in it isn't
/// known, to nothing until it is whole. The first fault is told: of the types that are declared, of the entities that are
/// listed, of what the action applies to, and of the context. Refused for memory beside these. (Cedar language reference,
/// "Schema", actions.)
#[derive(Clone, Copy)]
pub struct CoreSchema<'a> {
    schema: &'a ValidatorSchema,
    alloc: Global,
}

impl<'a> CoreSchema<'a> {
    /// The schema, for requests.
    pub fn new(alloc: Global, schema: &'a ValidatorSchema) -> CoreSchema<'a>
        ensures { result.schema.now ≡ schema.now }
    {
        CoreSchema { schema, alloc }
    }

    // Whether a type is declared.
    fn is_declared(&self, entity_type: &EntityType) -> Result<bool, AllocError>
        ensures { IfOk result (λ declared. declared ≡ is_some (shape_in self.now.schema.now entity_type.now)) }
    {
        let name = type_name_of(self.alloc, entity_type)?;
        Ok(self.schema.entity_type(&name).is_some())
    }

    // Whether a policy may name an entity.
    fn may_name(&self, uid: &EntityUID) -> Result<bool, AllocError>
        ensures { IfOk result (λ may. may ≡ may_name_in self.now.schema.now uid.now) }
    {
        let uid = uid_of(self.alloc, uid)?;
        Ok(self.schema.may_name(&uid))
    }

    fn check_principal_type(&self, of: Option<&EntityType>) -> Result<(), RequestValidationError>
        ensures { IsVerdict (type_fault self.now.schema.now faults.UndeclaredPrincipalType (option_copied of.entry)) result }
    {
        let Some(entity_type) = of else {
            return Ok(());
        };
        if self.is_declared(entity_type)? {
            return Ok(());
        }
        let entity_type = entity_type.clone(self.alloc)?;
        Err(RequestValidationError::UndeclaredPrincipalType(entity_type))
    }

    fn check_resource_type(&self, of: Option<&EntityType>) -> Result<(), RequestValidationError>
        ensures { IsVerdict (type_fault self.now.schema.now faults.UndeclaredResourceType (option_copied of.entry)) result }
    {
        let Some(entity_type) = of else {
            return Ok(());
        };
        if self.is_declared(entity_type)? {
            return Ok(());
        }
        let entity_type = entity_type.clone(self.alloc)?;
        Err(RequestValidationError::UndeclaredResourceType(entity_type))
    }

    fn check_listed(&self, uid: Option<&EntityUID>) -> Result<(), RequestValidationError>
        ensures { IsVerdict (listed_fault (may_name_in self.now.schema.now) (option_copied uid.entry)) result }
    {
        let Some(uid) = uid else {
            return Ok(());
        };
        if self.may_name(uid)? {
            return Ok(());
        }
        Err(RequestValidationError::InvalidEnumEntity(uid.clone(self.alloc)?))
    }

    #[tactic(auto, using(crate::proofs::Told::told_first, crate::proofs::Told::told_next))]
    fn check_types(
        &self,
        principal: Option<&EntityType>,
        resource: Option<&EntityType>,
    ) -> Result<(), RequestValidationError>
        ensures { IsVerdict (types_fault self.now.schema.now (option_copied principal.entry) (option_copied resource.entry)) result }
    {
        self.check_principal_type(principal)?;
        self.check_resource_type(resource)
    }

    #[tactic(auto, using(crate::proofs::Told::told_first, crate::proofs::Told::told_next))]
    fn check_uids(
        &self,
        principal: Option<&EntityUID>,
        resource: Option<&EntityUID>,
    ) -> Result<(), RequestValidationError>
        ensures { IsVerdict (uids_fault self.now.schema.now (option_copied principal.entry) (option_copied resource.entry)) result }
    {
        self.check_listed(principal)?;
        self.check_listed(resource)
    }

    fn check_principals(
        &self,
        taken: &[TypeName],
        principal: Option<&EntityType>,
        action: &EntityUID,
    ) -> Result<(), RequestValidationError>
        ensures { IsVerdict (takers_fault taken.now (λ n. faults.InvalidPrincipalType n action.now) (option_copied principal.entry)) result }
    {
        let Some(principal) = principal else {
            return Ok(());
        };
        if is_among(taken, principal) {
            return Ok(());
        }
        let principal = principal.clone(self.alloc)?;
        let action = action.clone(self.alloc)?;
        Err(RequestValidationError::InvalidPrincipalType(principal, action))
    }

    fn check_resources(
        &self,
        taken: &[TypeName],
        resource: Option<&EntityType>,
        action: &EntityUID,
    ) -> Result<(), RequestValidationError>
        ensures { IsVerdict (takers_fault taken.now (λ n. faults.InvalidResourceType n action.now) (option_copied resource.entry)) result }
    {
        let Some(resource) = resource else {
            return Ok(());
        };
        if is_among(taken, resource) {
            return Ok(());
        }
        let resource = resource.clone(self.alloc)?;
        let action = action.clone(self.alloc)?;
        Err(RequestValidationError::InvalidResourceType(resource, action))
    }

    #[tactic(auto, using(crate::proofs::Told::told_first, crate::proofs::Told::told_next))]
    fn check_takers(
        &self,
        declared: &ValidatorAction,
        principal: Option<&EntityType>,
        action: &EntityUID,
        resource: Option<&EntityType>,
    ) -> Result<(), RequestValidationError>
        ensures { IsVerdict (applied_fault (Some (application_view declared.now)) action.now (option_copied principal.entry) (option_copied resource.entry)) result }
    {
        self.check_principals(declared.principals(), principal, action)?;
        self.check_resources(declared.resources(), resource, action)
    }

    fn check_action(
        &self,
        principal: Option<&EntityType>,
        action: &EntityUID,
        resource: Option<&EntityType>,
    ) -> Result<(), RequestValidationError>
        ensures { IsVerdict (applied_fault (application_at self.now.schema.now.actions action.now) action.now
            (option_copied principal.entry) (option_copied resource.entry)) result }
    {
        let uid = uid_of(self.alloc, action)?;
        match self.schema.action(&uid) {
            Some(declared) => self.check_takers(declared, principal, action, resource),
            None => Err(RequestValidationError::UndeclaredAction(action.clone(self.alloc)?)),
        }
    }

    fn check_context(
        &self,
        context: &Context,
        action: &EntityUID,
    ) -> Result<(), RequestValidationError>
        ensures { IsVerdict (context_fault (application_at self.now.schema.now.actions action.now) action.now (context_part context.now)) result }
    {
        let uid = uid_of(self.alloc, action)?;
        let Some(declared) = self.schema.action(&uid) else {
            return Err(RequestValidationError::UndeclaredAction(action.clone(self.alloc)?));
        };
        let Context::Value(entries) = context else {
            return Ok(());
        };
        if have_attributes(entries, declared.context()) {
            return Ok(());
        }
        Err(RequestValidationError::InvalidContext(action.clone(self.alloc)?))
    }
}

// Whether a type is one of these.
fn is_among(names: &[TypeName], entity_type: &EntityType) -> bool
    ensures { result ≡ list_any (same_name entity_type.now) names.now }
{
    names
        .iter()
        .any(|name| is_name_of(entity_type.name(), name))
}

impl RequestSchema for CoreSchema<'_> {
    ghost use Rattle.std.specs.Prelude.{None};
    ghost use Rattle.cedar_conformance.specs.Requests.{request_fault, scope_fault, context_fault};
    ghost use Rattle.cedar_conformance.specs.Verdicts.{IsVerdict};
    ghost use Rattle.cedar_validator_schema.specs.Actions.{application_at};

    type Error = RequestValidationError;

    ghost validates = { λ schema request extensions result. IsVerdict (request_fault schema.schema.now request) result };

    ghost validates_context = { λ schema context action extensions result.
        IsVerdict (context_fault (application_at schema.schema.now.actions action) action context) result };

    ghost validates_scope = { λ schema principal action resource result. IsVerdict (scope_fault schema.schema.now principal action resource) result };

    #[tactic(auto, using(crate::proofs::Told::told_first, crate::proofs::Told::told_next))]
    fn validate_request<F: ExtensionFunctionObject>(
        &self,
        request: &Request,
        _extensions: &Extensions<'_, F>,
    ) -> Result<(), RequestValidationError> {
        let (principal, resource) = (request.principal(), request.resource());
        self.check_types(principal.get_type(), resource.get_type())?;
        self.check_uids(principal.uid(), resource.uid())?;
        let Some(action) = request.action().uid() else {
            return Ok(());
        };
        self.check_action(principal.get_type(), action, resource.get_type())?;
        match request.context() {
            Some(context) => self.check_context(context, action),
            None => Ok(()),
        }
    }

    fn validate_context<F: ExtensionFunctionObject>(
        &self,
        context: &Context,
        action: &EntityUID,
        _extensions: &Extensions<'_, F>,
    ) -> Result<(), RequestValidationError> {
        self.check_context(context, action)
    }

    #[tactic(auto, using(crate::proofs::Told::told_first, crate::proofs::Told::told_next))]
    fn validate_scope_variables(
        &self,
        principal: Option<&EntityUID>,
        action: Option<&EntityUID>,
        resource: Option<&EntityUID>,
    ) -> Result<(), RequestValidationError> {
        let principal_type = type_of(principal);
        let resource_type = type_of(resource);
        self.check_types(principal_type, resource_type)?;
        self.check_uids(principal, resource)?;
        match action {
            Some(action) => self.check_action(principal_type, action, resource_type),
            None => Ok(()),
        }
    }
}

// The type of an entity that is given.
fn type_of(uid: Option<&EntityUID>) -> Option<&EntityType>
    ensures { option_copied result ≡ option_map (λ u. u.type_name) (option_copied uid.entry) }
{
    match uid {
        Some(uid) => Some(uid.entity_type()),
        None => None,
    }
}
