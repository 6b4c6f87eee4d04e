// A schema that refuses everything.
use cedar_extensions::extensions::Extensions;
use cedar_extensions::objects::ExtensionFunctionObject;
use cedar_literals::uids::EntityUID;
use cedar_requests::{Context, Request, RequestSchema};
use thiserror::Error;

/// The one error of the schema.
#[derive(Debug, Drop, Error)]
#[error("the schema refuses it")]
pub(crate) struct Refused;

/// The schema.
pub(crate) struct RefusesAll;

impl RequestSchema for RefusesAll {
    ghost use Rattle.std.specs.Result.{IsErr};

    type Error = Refused;

    ghost validates = { λ schema request extensions result. IsErr result };

    ghost validates_context = { λ schema context action extensions result. IsErr result };

    ghost validates_scope = { λ schema principal action resource result. IsErr result };

    fn validate_request<F: ExtensionFunctionObject>(
        &self,
        _request: &Request,
        _extensions: &Extensions<'_, F>,
    ) -> Result<(), Refused> {
        Err(Refused)
    }

    fn validate_context<F: ExtensionFunctionObject>(
        &self,
        _context: &Context,
        _action: &EntityUID,
        _extensions: &Extensions<'_, F>,
    ) -> Result<(), Refused> {
        Err(Refused)
    }

    fn validate_scope_variables(
        &self,
        _principal: Option<&EntityUID>,
        _action: Option<&EntityUID>,
        _resource: Option<&EntityUID>,
    ) -> Result<(), Refused> {
        Err(Refused)
    }
}
