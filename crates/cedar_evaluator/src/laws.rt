//! The laws of the layer: each is a function without a body whose contract is the law, so that a caller's proof
//! can cite it by a call. They say what a response says of the question that a request asks, also once values are
//! told, which stores have the facts of which contracts speak, that `==` of contexts is sameness, places aside,
//! and what a context is once values are told for its unknowns.
ghost use Rattle.cedar_extensions.specs.Table.{as_table};
ghost use Rattle.cedar_evaluator.specs.Expressions.{ExpressionsAnswerRequests};
ghost use Rattle.cedar_evaluator.specs.MadeStores.{StoresAreMade, MakesValues};
ghost use Rattle.cedar_evaluator.specs.Questions.{ResponsesAnswerRequests, KnownRequestsAreAnswered, LaterResponsesAnswerRequests};

use cedar_extensions::extensions::Extensions;
use cedar_extensions::objects::ExtensionFunctionObject;
pub use cedar_operators::stores_have_facts;
pub use cedar_requests::laws as contexts;
use cedar_requests::laws::told_contexts_stay;

/// A closed store of built values that isn't partial has facts of which the other laws speak, with the functions of
/// a table that makes values.
pub fn stores_are_made()
    ensures { StoresAreMade }
{
    stores_have_facts();
}

/// Each table makes values: what its functions give is built.
pub fn tables_make_values<F: ExtensionFunctionObject>(extensions: &Extensions<'_, F>)
    ensures { MakesValues (as_table F.answers extensions.now) }
{
    let _same = extensions;
}

/// What `Evaluator::partial_interpret` answers to an expression, by an evaluator of a request, means under each filling
/// of a question that the request asks what the expression means, and is a result to which it settles, where there is
/// one. (Cedar language reference, "Partial evaluation".)
pub fn expressions_answer_requests()
    ensures { ExpressionsAnswerRequests }
{
    cedar_partial_evaluation::question_answers_are_fair();
    cedar_partial_evaluation::question_answers_are_prompt();
    cedar_partial_evaluation::filled_is_meant();
    cedar_partial_evaluation::answers_are_prompt();
}

/// What a response says of a question that its request asks holds under each filling of it, and is as sharp as
/// what is settled of the conditions; what settles to an error is told, with a kind to which it settles.
/// (Cedar language reference, "Partial evaluation".)
pub fn responses_answer_requests()
    ensures { ResponsesAnswerRequests }
{
    cedar_partial_evaluation::answers_are_prompt();
    cedar_partial_evaluation::early_answers_are_fair();
    cedar_partial_evaluation::early_answers_are_prompt();
    cedar_partial_evaluation::early_kinds_are_settled();
}

/// Where the conditions mention only what the request gives, a response says just what Cedar's rules say, kinds
/// of errors included. (Cedar language reference, "Authorization".)
pub fn known_requests_are_answered()
    ensures { KnownRequestsAreAnswered }
{
    cedar_language::rules_are_exact();
    cedar_partial_evaluation::leaves_dont_matter();
    cedar_partial_evaluation::known_is_meaning();
}

/// What a response says that is taken up again with the values told holds under each filling that keeps them,
/// and is as sharp as what is settled then; once all is told it is the known answer. What errs is told by one
/// of the two responses. (Cedar language reference, "Partial evaluation".)
pub fn later_responses_answer_requests()
    ensures { LaterResponsesAnswerRequests }
{
    cedar_partial_evaluation::answers_are_prompt();
    cedar_partial_evaluation::reauthorizing_is_fair();
    cedar_partial_evaluation::reauthorizing_is_sharp();
    cedar_partial_evaluation::errors_are_named();
    cedar_partial_evaluation::reauthorizing_is_exact();
    told_contexts_stay();
}
