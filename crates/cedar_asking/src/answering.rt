// The answer to a request, and the one once more is told.
ghost use Rattle.std.specs.Prelude.{◌≡◌, IfOk};
ghost use Rattle.cedar_extensions.specs.Table.{as_table};
ghost use Rattle.cedar_evaluator.specs.Holding.{holding_in};
ghost use Rattle.cedar_evaluator.specs.Responses.{judged_held};
ghost use Rattle.cedar_language.specs.Answering.{in_must, in_may};
ghost use Rattle.cedar_replies.specs.Replies.{answer_of};
ghost use Rattle.cedar_requests.specs.Holding.{request_parts};
ghost use Rattle.cedar_world.specs.Answer.{ids_of};
ghost use Rattle.cedar_language.specs.Answering.{ids_with};
ghost use Rattle.cedar_asking.specs.Responses.{SaysResponse, AnswersAgain, AnswersRequest, IsToldAs};

use crate::listing::listed_errors;
use crate::{
    questions_are_kept, responses_answer_questions, tells_are_answered, tells_are_refused,
    worlds_are_shown,
};
use cedar_entities::store::Entities;
use cedar_evaluator::authorizer::Authorizer;
use cedar_evaluator::errors::{ConcretizationError, ReauthorizationError};
use cedar_evaluator::partial_response::PartialResponse;
use cedar_extensions::extensions::Extensions;
use cedar_extensions::objects::ExtensionFunctionObject;
use cedar_held::refusal;
use cedar_policy_set::sets::PolicySet;
use cedar_replies::{Answer, Erring, PolicyIds, Refusal};
use cedar_requests::Request;
use cedar_telling::joined;
use cedar_values::values::Value;
use std::alloc::{AllocError, Global};
use std::collections::BTreeMap;
use std::rc::RcStr;

// The policies that must be reasons and those that may be, as a response tells them; where no policy is open,
// these are the same.
fn reasons(alloc: Global, response: &PartialResponse) -> Result<(PolicyIds, PolicyIds), AllocError>
    ensures must { IfOk result (λ sets. sets.0 ≡ ids_of (ids_with (in_must (judged_held (holding_in response.now))) (judged_held (holding_in response.now)))) }
    ensures may { IfOk result (λ sets. sets.1 ≡ ids_of (ids_with (in_may (judged_held (holding_in response.now))) (judged_held (holding_in response.now)))) }
{
    let must = PolicyIds::new(response.must_be_determining_ids(alloc)?);
    if response.residual_permits.is_empty() && response.residual_forbids.is_empty() {
        let may = must.clone()?;
        return Ok((must, may));
    }
    let may = PolicyIds::new(response.may_be_determining_ids(alloc)?);
    Ok((must, may))
}

// What a response says, as an answer tells it. It is refused `Depth` where some error is a limit that was
// met, and `Memory`.
fn answer_by(alloc: Global, response: &PartialResponse) -> Result<Answer, Refusal>
    ensures { SaysResponse response.now result }
{
    let listed = listed_errors(alloc, response.errors.as_slice())?;
    let (must, may) = reasons(alloc, response)?;
    Ok(Answer {
        decision: response.decision(),
        must,
        may,
        erring: Erring::new(listed)?,
    })
}

/// What the policies and entities of a world answer to the request of a question: what is decided, the
/// policies that must and that may be reasons, and those that err, each with the kind of its error; and the
/// response that says so, by which [`answer_told`] goes on. (Cedar language reference, "Authorization".)
///
/// It is refused `Depth` where the evaluation of some policy nests deeper than `depth`, and `Memory`.
pub fn answer<F: ExtensionFunctionObject>(
    alloc: Global,
    request: Request,
    policies: &PolicySet,
    entities: &Entities,
    extensions: &Extensions<'_, F>,
    depth: u32,
) -> Result<(PartialResponse, Answer), Refusal>
    ensures { AnswersRequest (as_table F.answers extensions.now) depth policies.now entities.now (request_parts request) result }
{
    cedar_world::worlds_have_facts();
    worlds_are_shown();
    responses_answer_questions();
    questions_are_kept();
    let _count = policies.len();
    let authorizer = Authorizer::new(extensions, depth);
    let response = authorizer.is_authorized_without_false(alloc, request, policies, entities)?;
    let answer = answer_by(alloc, &response)?;
    Ok((response, answer))
}

// Why nothing is told. Only a context that errs is refused, where the values told are of their unknowns' kinds.
fn why_not_told(error: &ReauthorizationError) -> Refusal
    ensures { IsToldAs error.now result }
{
    match error {
        ReauthorizationError::ConcretizationError(error) => match error {
            ConcretizationError::ValueEval(error) => refusal(error),
            ConcretizationError::Memory(_) => Refusal::Memory,
            ConcretizationError::ValueError { .. } => Refusal::WrongKind,
            ConcretizationError::VarConfictError { .. } => Refusal::AlreadyTold,
            ConcretizationError::EntityTypeConfictError { .. } => Refusal::WrongKind,
        },
        ReauthorizationError::PolicySetError(_) => Refusal::IdConflict,
        ReauthorizationError::Memory(_) => Refusal::Memory,
    }
}

/// The answer to a question once more is told: its first response taken up again with all values told, joined
/// with the answer that was given last. Until a name is told that stands in what the response leaves of a policy,
/// that is the answer that was given last. (Cedar language reference, "Partial evaluation".)
///
/// It is refused `Evaluation` where the context errs with these values, `Depth` where the evaluation of a
/// context that names an unknown, or of some policy, nests deeper than `depth`, and `Memory`.
pub fn answer_told<F: ExtensionFunctionObject>(
    alloc: Global,
    first: &PartialResponse,
    told: &BTreeMap<RcStr, Value>,
    last: &Answer,
    entities: &Entities,
    extensions: &Extensions<'_, F>,
    depth: u32,
) -> Result<Answer, Refusal>
    ensures { AnswersAgain (as_table F.answers extensions.now) depth first.now told.now.entries (answer_of last.now) entities.now result }
{
    tells_are_answered();
    tells_are_refused();
    let authorizer = Authorizer::new(extensions, depth);
    let again = match first.reauthorize(alloc, told, &authorizer, entities) {
        Ok(again) => again,
        Err(error) => return Err(why_not_told(&error)),
    };
    let new = answer_by(alloc, &again)?;
    Ok(joined(alloc, last, &new)?)
}
