// Evaluators made of requests.
ghost use Rattle.std.specs.Prelude.{◌≡◌, option_map, IfOk};
ghost use Rattle.cedar_extensions.specs.Table.{as_table};
ghost use Rattle.cedar_restricted.specs.PartialValues.{partial_of};
ghost use Rattle.cedar_restricted_evaluation.specs.Evaluations.{part_answer};
ghost use Rattle.cedar_requests.specs.Contexts.{context_part};
ghost use Rattle.cedar_requests.specs.Holding.{request_parts};
ghost use Rattle.cedar_evaluator.specs.Asking.{context_asked, untold, StandFor, IsEvaluatorOf};

use cedar_entities::store::Entities;
use cedar_extensions::extensions::Extensions;
use cedar_extensions::objects::ExtensionFunctionObject;
use cedar_interpreter::{AskedVariables, Evaluator};
use cedar_literals::variables::Var;
use cedar_requests::{Context, Request};
use cedar_restricted::partial_values::PartialValue;
use cedar_trees::unknowns::Unknown;
use std::alloc::{AllocError, Global};
use std::rc::RcStr;

/// The evaluator of a request over these entities and functions. What the request doesn't give is
/// unknown, and named as its variable. No evaluation nests deeper than `depth`, the outermost
/// expression being at 1. Refused for memory alone. (Cedar language reference, "Request".)
pub fn evaluator_of<'s, 'e, 'f, F: ExtensionFunctionObject>(
    alloc: Global,
    request: &Request,
    entities: &'s Entities,
    extensions: &'e Extensions<'f, F>,
    depth: u32,
) -> Result<Evaluator<'s, 'e, 'f, F>, AllocError>
    ensures { IfOk result (IsEvaluatorOf F.answers (untold (request_parts request.now)) entities.now (as_table F.answers extensions.now) depth) }
{
    let asked = variables_of(alloc, request)?;
    Evaluator::asked(alloc, asked, entities, extensions, depth)
}

// What stands for the variables of a request; refused for memory alone.
fn variables_of(alloc: Global, request: &Request) -> Result<AskedVariables, AllocError>
    ensures { IfOk result (StandFor (request_parts request.now)) }
{
    let principal = request.principal().evaluate(alloc, Var::Principal)?;
    let action = request.action().evaluate(alloc, Var::Action)?;
    let resource = request.resource().evaluate(alloc, Var::Resource)?;
    let context = context_of(alloc, request.context())?;
    Ok(AskedVariables {
        principal,
        action,
        resource,
        context,
    })
}

// What stands for the context, which is shared; refused for memory alone.
fn context_of(alloc: Global, context: Option<&Context>) -> Result<PartialValue, AllocError>
    ensures { IfOk result (λ p. part_answer (partial_of p) ≡ context_asked (option_map (λ given. context_part given.now) context.entry)) }
{
    match context {
        Some(context) => Ok(PartialValue::from(context.clone(alloc)?)),
        None => {
            let name = RcStr::from_str(alloc, "context")?;
            Ok(PartialValue::unknown(Unknown::new_untyped(name)))
        }
    }
}
