//! Laws of the libraries, as a caller's proof cites them: by calls that run no code. What they say of responses and of
//! expressions is said here of a request without a context, over no entities, and of responses by no policies.
ghost use Rattle.std.specs.Prelude.{◌≡◌, None, false, IfOk};
ghost use Rattle.cedar_extensions.specs.Table.{as_table};
ghost use Rattle.cedar_partial_evaluation.specs.ReadUnknowns.{calls_unknown};
ghost use Rattle.cedar_trees.specs.Bare.{bare};
ghost use Rattle.cedar_requests.specs.Holding.{request_parts};
ghost use Rattle.cedar_evaluator.specs.Holding.{holding_in};
ghost use Rattle.cedar_evaluator.specs.MadeStores.{HasMadeFacts};
ghost use Rattle.cedar_law_examples.specs.Answered.{AnswersNothing, AnswersExpression};

use cedar_evaluator::ast::{Expr, PartialValue, Request, SlotEnv};
use cedar_evaluator::evaluator::{EvaluationError, evaluator_of};
use cedar_evaluator::laws::{
    expressions_answer_requests, responses_answer_requests, stores_are_made, tables_make_values,
};
use cedar_evaluator::prelude::ExtensionFunctionObject;
use cedar_evaluator::{Authorizer, Extensions, PartialResponse};
use cedar_store::ast::PolicySet;
use cedar_store::entities::Entities;
use std::alloc::{AllocError, Global};

/// The limit of depth that sessions have.
const DEPTH: u32 = 256;

/// The store of no entities, which has facts that are made again with the functions of this table.
pub fn no_entities<F: ExtensionFunctionObject>(
    alloc: Global,
    extensions: &Extensions<'_, F>,
) -> Entities
    ensures { HasMadeFacts result (as_table F.answers extensions.now) }
{
    tables_make_values(extensions);
    stores_are_made();
    Entities::new(alloc)
}

/// What an expression comes to means under each filling of the question that the request asks what the expression
/// means, and is a result to which it settles, where there is one.
pub fn evaluate<F: ExtensionFunctionObject>(
    alloc: Global,
    extensions: &Extensions<'_, F>,
    request: &Request,
    expr: &Expr,
) -> Result<PartialValue, EvaluationError>
    requires context { (request_parts request.now).context ≡ None }
    requires calls { calls_unknown (bare expr.now) ≡ false }
    ensures { AnswersExpression (request_parts request.now) (bare expr.now) result }
{
    expressions_answer_requests();
    let entities = no_entities(alloc, extensions);
    let evaluator = evaluator_of(alloc, request, &entities, extensions, DEPTH)?;
    let slots = SlotEnv::new();
    evaluator.partial_interpret(alloc, expr, &slots)
}

/// The response by no policies says of the question that the request asks what holds under each filling, and all that
/// is settled.
pub fn respond<F: ExtensionFunctionObject>(
    alloc: Global,
    extensions: &Extensions<'_, F>,
    request: Request,
) -> Result<PartialResponse, AllocError>
    requires { (request_parts request).context ≡ None }
    ensures { IfOk result (λ response. AnswersNothing (request_parts request) (holding_in response)) }
{
    responses_answer_requests();
    let entities = no_entities(alloc, extensions);
    let policies = PolicySet::new(alloc);
    let authorizer = Authorizer::new(extensions, DEPTH);
    let response = authorizer.is_authorized_core(alloc, request, &policies, &entities)?;
    Ok(response)
}
