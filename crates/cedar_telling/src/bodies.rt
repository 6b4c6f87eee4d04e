// The request that a body states.
ghost use Rattle.cedar_held.specs.Fields.{Serves};
ghost use Rattle.cedar_extensions.specs.Table.{as_table};
ghost use Rattle.cedar_restricted.specs.Views.{restricted_tree};
ghost use Rattle.cedar_grammar.specs.UnknownCalls.{holds_call};
ghost use Rattle.cedar_world.specs.Setting.{Setting};
ghost use Rattle.cedar_telling.specs.Bodies.{IsWrittenAsData, holds_call_in, IsWhyNone, EvaluatesContext, AsksBody};

use crate::questions::ask_body;
use crate::questions_are_asked;
use crate::unknowns::is_badly_named;
use cedar_extensions::extensions::Extensions;
use cedar_extensions::objects::ExtensionFunctionObject;
use cedar_held::refusal;
use cedar_held::version_laws::trees_are_read;
use cedar_replies::Refusal;
use cedar_requests::{Context, ContextCreationError, Request};
use cedar_restricted::borrowed::BorrowedRestrictedExpr;
use cedar_restricted::restricted::RestrictedExpr;
use cedar_trees::expr::Expr;
use std::alloc::Global;

// Why no context is made of a record, of which no key stands twice.
fn why_none(error: &ContextCreationError) -> Refusal
    ensures { IsWhyNone error.now result }
{
    match error {
        ContextCreationError::Evaluation(error) => refusal(error),
        ContextCreationError::Memory(_) => Refusal::Memory,
        ContextCreationError::NotARecord(_) => Refusal::Shape,
        ContextCreationError::ExpressionConstruction(_) => Refusal::Shape,
    }
}

// What the record that a body has for its context is evaluated to, where each unknown in it has a name of
// its own.
fn context_of<F: ExtensionFunctionObject>(
    alloc: Global,
    written: Option<&Expr>,
    extensions: &Extensions<'_, F>,
    depth: u32,
) -> Result<Option<Context>, Refusal>
    requires { IsWrittenAsData written }
    ensures { (by : Setting) → Serves (as_table F.answers extensions.now) by (holds_call_in written.entry) → EvaluatesContext by (as_table F.answers extensions.now) depth written.entry result }
{
    trees_are_read();
    let Some(record) = written else {
        return Ok(None);
    };
    let expr = BorrowedRestrictedExpr::new_unchecked(record);
    match Context::from_expr(alloc, expr, extensions, depth) {
        Ok(_) if is_badly_named(record) => Err(Refusal::BadUnknown),
        Ok(context) => Ok(Some(context)),
        Err(error) => Err(why_none(&error)),
    }
}

/// The request of the question that a body states: its entities, what is left out being unknown, perhaps
/// with its type, and its context evaluated, where `unknown("n")` names an unknown. (Cedar language
/// reference, "Request".)
///
/// It is refused `Shape` where the body is no record of entities for some of `principal`, `action` and
/// `resource`, names of types for `principal_type` and `resource_type` at most where the entity isn't given,
/// and a record for `context` or none; `Evaluation` where some part of the context that holds no
/// unknown errs; `BadUnknown` where `unknown` is called there on what is no text, or on the name of a
/// variable; `Depth` only where the body is higher than `depth`; and `Memory`.
pub fn request_of<F: ExtensionFunctionObject>(
    alloc: Global,
    body: &RestrictedExpr,
    extensions: &Extensions<'_, F>,
    depth: u32,
) -> Result<Request, Refusal>
    ensures { (by : Setting) → Serves (as_table F.answers extensions.now) by (holds_call (restricted_tree body.now)) → AsksBody by (as_table F.answers extensions.now) depth (restricted_tree body.now) result }
{
    questions_are_asked();
    let Some(asked) = ask_body(alloc, body.as_ref())? else {
        return Err(Refusal::Shape);
    };
    let context = context_of(alloc, asked.context, extensions, depth)?;
    Ok(Request::new_unchecked(asked.principal, asked.action, asked.resource, context))
}
