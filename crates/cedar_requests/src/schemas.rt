// Schemas that requests are held against.

use crate::contexts::Context;
use crate::requests::Request;
use cedar_extensions::extensions::Extensions;
use cedar_extensions::objects::ExtensionFunctionObject;
use cedar_literals::uids::EntityUID;
use std::convert::Infallible;

/// What accepts or refuses requests, their contexts and the variables of their scopes.
/// (Cedar language reference, "Schema".)
pub trait RequestSchema {
    ghost use Rattle.std.specs.Prelude.{Option, Result};
    ghost use Rattle.std.specs.Option.{option_copied};
    ghost use Rattle.either.specs.declared.Either as either;
    ghost use Rattle.cedar_language.specs.Uid as language;
    ghost use Rattle.cedar_language.specs.Tree as tree;
    ghost use Rattle.cedar_language.specs.Value as value;
    ghost use Rattle.cedar_extensions.specs.Table as table;
    ghost use Rattle.cedar_requests.specs.Contexts.{context_part};
    ghost use Rattle.cedar_requests.specs.Holding.{RequestParts, request_parts};

    /// Why something is refused.
    type Error: Drop;

    // holds of each answer that the schema may give of a request
    ghost validates: { Self → RequestParts → table.Table → Result (Unit {0}) Self.Error → Type 0 };

    // of a context at an action
    ghost validates_context: { Self → either.Either value.Value tree.Tree → language.Uid → table.Table → Result (Unit {0}) Self.Error → Type 0 };

    // and of a principal, an action and a resource, each of which may be missing
    ghost validates_scope: { Self → Option language.Uid → Option language.Uid → Option language.Uid → Result (Unit {0}) Self.Error → Type 0 };

    /// Accepts the request, or says why it doesn't.
    fn validate_request<F: ExtensionFunctionObject>(
        &self,
        request: &Request,
        extensions: &Extensions<'_, F>,
    ) -> Result<(), Self::Error>
        ensures { validates self.now (request_parts request.now) (table.as_table F.answers extensions.now) result };

    /// Accepts the context of a request for this action, or says why it doesn't.
    fn validate_context<F: ExtensionFunctionObject>(
        &self,
        context: &Context,
        action: &EntityUID,
        extensions: &Extensions<'_, F>,
    ) -> Result<(), Self::Error>
        ensures { validates_context self.now (context_part context.now) action.now (table.as_table F.answers extensions.now) result };

    /// Accepts the principal, the action and the resource, those that are given, or says why it doesn't.
    fn validate_scope_variables(
        &self,
        principal: Option<&EntityUID>,
        action: Option<&EntityUID>,
        resource: Option<&EntityUID>,
    ) -> Result<(), Self::Error>
        ensures { validates_scope self.now (option_copied principal.entry) (option_copied action.entry) (option_copied resource.entry) result };
}

/// The schema that accepts everything.
#[derive(Clone, Copy, Debug)]
pub struct RequestSchemaAllPass;

impl RequestSchema for RequestSchemaAllPass {
    ghost use Rattle.std.specs.Prelude.{◌≡◌, Ok};

    type Error = Infallible;

    ghost validates = { λ schema request extensions result. result ≡ Ok tt };

    ghost validates_context = { λ schema context action extensions result. result ≡ Ok tt };

    ghost validates_scope = { λ schema principal action resource result. result ≡ Ok tt };

    fn validate_request<F: ExtensionFunctionObject>(
        &self,
        _request: &Request,
        _extensions: &Extensions<'_, F>,
    ) -> Result<(), Infallible> {
        Ok(())
    }

    fn validate_context<F: ExtensionFunctionObject>(
        &self,
        _context: &Context,
        _action: &EntityUID,
        _extensions: &Extensions<'_, F>,
    ) -> Result<(), Infallible> {
        Ok(())
    }

    fn validate_scope_variables(
        &self,
        _principal: Option<&EntityUID>,
        _action: Option<&EntityUID>,
        _resource: Option<&EntityUID>,
    ) -> Result<(), Infallible> {
        Ok(())
    }
}
