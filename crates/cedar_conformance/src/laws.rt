// What holds of requests that are accepted.
ghost use Rattle.cedar_conformance.specs.Laws.{AcceptedRequestsConform};

use cedar_typing::types_are_decided;

/// A request whose parts are all given and whose context is whole, and which is accepted, is one of an environment of the schema:
/// its action is declared and applies to principals and resources of these types, and each variable has the type that the
/// environment says. So what is shown of policies in each environment holds of them there.
pub fn accepted_requests_conform()
    ensures { AcceptedRequestsConform }
{
    types_are_decided();
}
