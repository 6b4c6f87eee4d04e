// Responses to requests of which more is told.
ghost use Rattle.std.specs.Prelude.{◌≡◌, IfOk, IfErr};
ghost use Rattle.std.specs.List.{IsDistinct};
ghost use Rattle.std.specs.Map.{keys_of};
ghost use Rattle.cedar_language.specs.Order.{same_text};
ghost use Rattle.cedar_policy_set.specs.Entries.{policies_of};
ghost use Rattle.cedar_evaluator.specs.Authorizing.{table_of, limit_of};
ghost use Rattle.cedar_evaluator.specs.Reauthorizing.{IsNoSet, Reauthorizes};
ghost use Rattle.cedar_evaluator.specs.Residuals.{residuals_with, is_any};

use crate::authorizer::Authorizer;
use crate::concretizing::concretized;
use crate::errors::ReauthorizationError;
use crate::partial_response::PartialResponse;
use cedar_entities::store::Entities;
use cedar_extensions::objects::ExtensionFunctionObject;
use cedar_policy_set::errors::PolicySetError;
use cedar_policy_set::sets::PolicySet;
use cedar_values::values::Value;
use std::alloc::Global;
use std::collections::BTreeMap;
use std::rc::RcStr;

impl PartialResponse {
    /// The response once these values are told, each for the variable or the unknown of its name: of what is
    /// left of each policy, what it comes to for the request with what is told of it. This response stays as
    /// it is.
    ///
    /// Refused `PolicySetError` where an id stands twice among what is left, with the first that does; none does
    /// in the response to a policy set. Else `ConcretizationError` where the values aren't taken for the request:
    /// for the first variable of which a value of another kind is told, that the request gives already, or of
    /// which it states another type, or since the context errs with them; and for memory.
    /// (Cedar language reference, "Partial evaluation".)
    pub fn reauthorize<F: ExtensionFunctionObject>(
        &self,
        alloc: Global,
        told: &BTreeMap<RcStr, Value>,
        authorizer: &Authorizer<'_, '_, F>,
        entities: &Entities,
    ) -> Result<PartialResponse, ReauthorizationError>
        ensures { Reauthorizes entities.now (table_of F.answers authorizer.now) (limit_of authorizer.now) told.now.entries self.now result }
    {
        let policies = self.residual_set(alloc)?;
        let request = concretized(
            alloc,
            &self.request,
            told,
            authorizer.extensions,
            authorizer.depth,
        )?;
        Ok(authorizer.answer_told(alloc, request, told, &policies, entities)?)
    }

    // What is left of all policies, as a set.
    fn residual_set(&self, alloc: Global) -> Result<PolicySet, PolicySetError>
        ensures bound { IfOk result (λ set. policies_of set ≡ residuals_with is_any self.now) }
        ensures apart { IfOk result (λ set. IsDistinct same_text (keys_of (residuals_with is_any self.now))) }
        ensures refused { IfErr result (IsNoSet (residuals_with is_any self.now)) }
    {
        let policies = self.all_residuals(alloc)?;
        PolicySet::try_from_iter(alloc, policies)
    }
}
