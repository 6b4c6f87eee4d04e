//! The authorizer: what answers requests by the policies of a set and the entities of a store. Begin with
//! `Authorizer::new`, and then `is_authorized`, or `is_authorized_core` where parts of the request may be
//! unknown; `is_authorized_without_false` where nothing is asked of the policies that aren't satisfied.
ghost use Rattle.std.specs.Prelude.{◌≡◌, IfOk};
ghost use Rattle.cedar_extensions.specs.Table.{as_table};
ghost use Rattle.cedar_evaluator.specs.Asking.{untold, IsEvaluatorOf};
ghost use Rattle.cedar_requests.specs.Holding.{request_parts};
ghost use Rattle.cedar_substitution.specs.Told.{told_for};
ghost use Rattle.cedar_evaluator.specs.Authorizing.{table_of, limit_of, Responds, RespondsWithoutFalse, RespondsBy};

use crate::asking::evaluator_of;
use crate::partial_response::PartialResponse;
use crate::scopes::Scopes;
use cedar_entities::store::Entities;
use cedar_extensions::extensions::Extensions;
use cedar_extensions::objects::{ExtensionFunctionObject, NoFunction};
use cedar_interpreter::Evaluator;
use cedar_policy_set::sets::PolicySet;
use cedar_requests::Request;
use cedar_values::values::Value;
use std::alloc::{AllocError, Global};
use std::collections::BTreeMap;
use std::fmt;
use std::rc::{Rc, RcStr};

/// Answers requests by policies and entities; policies may call the functions of its extensions, and no
/// evaluation nests deeper than its limit. Contracts see these by `table_of` and `limit_of`.
pub struct Authorizer<'e, 'f, F = NoFunction> {
    pub(crate) extensions: &'e Extensions<'f, F>,
    pub(crate) depth: u32,
}

impl<F> fmt::Debug for Authorizer<'_, '_, F> {
    fn fmt<W: fmt::Write>(&self, f: &mut fmt::Formatter<W>) -> fmt::Result {
        f.debug_struct("Authorizer")
            .field("extensions", &self.extensions)
            .field("depth", &self.depth)
            .finish()
    }
}

impl<F> Drop for Authorizer<'_, '_, F> {
    fn drop(self) {
        let Authorizer {
            extensions: _,
            depth: _,
        } = self;
    }
}

impl<'e, 'f, F: ExtensionFunctionObject> Authorizer<'e, 'f, F> {
    /// The authorizer with these functions and this limit of depth, the outermost expression being at 1.
    pub fn new(extensions: &'e Extensions<'f, F>, depth: u32) -> Authorizer<'e, 'f, F>
        ensures table { table_of F.answers result ≡ as_table F.answers extensions.now }
        ensures limit { limit_of result ≡ depth }
    {
        Authorizer { extensions, depth }
    }

    // The evaluator of a request; refused for memory alone.
    fn asked<'s>(
        &self,
        alloc: Global,
        request: &Request,
        entities: &'s Entities,
    ) -> Result<Evaluator<'s, 'e, 'f, F>, AllocError>
        ensures { IfOk result (IsEvaluatorOf F.answers (untold (request_parts request.now)) entities.now (table_of F.answers self.now) (limit_of self.now)) }
    {
        evaluator_of(alloc, request, entities, self.extensions, self.depth)
    }

    /// What each policy in force, a static policy or a link, comes to for this request. An error of one is
    /// kept with it, and counts as not satisfied, `RecursionLimit` among them; refused for memory alone.
    /// (Cedar language reference, "Authorization".)
    pub fn is_authorized_core(
        &self,
        alloc: Global,
        request: Request,
        policies: &PolicySet,
        entities: &Entities,
    ) -> Result<PartialResponse, AllocError>
        ensures { IfOk result (λ response. Responds (untold (request_parts request)) entities.now (table_of F.answers self.now) (limit_of self.now) policies.now response) }
    {
        let evaluator = self.asked(alloc, &request, entities)?;
        responded(alloc, &evaluator, entities, request, policies, true)
    }

    /// The same where these values are told for unknowns.
    pub(crate) fn answer_told(
        &self,
        alloc: Global,
        request: Request,
        told: &BTreeMap<RcStr, Value>,
        policies: &PolicySet,
        entities: &Entities,
    ) -> Result<PartialResponse, AllocError>
        ensures { IfOk result (λ response. Responds (record { request = request_parts request; told = told_for told.now.entries }) entities.now (table_of F.answers self.now) (limit_of self.now) policies.now response) }
    {
        let evaluator = self.asked(alloc, &request, entities)?;
        let evaluator = evaluator.with_told(told);
        responded(alloc, &evaluator, entities, request, policies, true)
    }

    /// What [`Authorizer::is_authorized_core`] answers, but without the policies that aren't satisfied:
    /// `false_permits` and `false_forbids` are empty, and of a policy that errs the error alone is kept. What is
    /// decided, the reasons, the open policies and the errors are the same, at less cost where most policies
    /// don't hold. Refused for memory alone.
    pub fn is_authorized_without_false(
        &self,
        alloc: Global,
        request: Request,
        policies: &PolicySet,
        entities: &Entities,
    ) -> Result<PartialResponse, AllocError>
        ensures { IfOk result (λ response. RespondsWithoutFalse (untold (request_parts request)) entities.now (table_of F.answers self.now) (limit_of self.now) policies.now response) }
    {
        let evaluator = self.asked(alloc, &request, entities)?;
        responded(alloc, &evaluator, entities, request, policies, false)
    }
}

// What the policies of a set come to for a request, by its evaluator over these entities, with those that aren't
// satisfied or without them; refused for memory alone.
fn responded<F: ExtensionFunctionObject>(
    alloc: Global,
    evaluator: &Evaluator<'_, '_, '_, F>,
    entities: &Entities,
    request: Request,
    policies: &PolicySet,
    with_false: bool,
) -> Result<PartialResponse, AllocError>
    ensures { IfOk result (RespondsBy F.answers with_false evaluator.now (request_parts request) policies.now) }
{
    let _count = policies.len();
    let scopes = Scopes::new(entities, evaluator);
    let mut response = PartialResponse::empty(alloc, Rc::new(alloc, request)?);
    response.gather(alloc, evaluator, &scopes, policies, with_false)?;
    Ok(response)
}
