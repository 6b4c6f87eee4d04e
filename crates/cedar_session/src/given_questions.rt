// Questions of which all is given: their requests, and their bodies once more.
ghost use Rattle.std.specs.Prelude.{◌≡◌, ℕ, IfOk, Ok};
ghost use Rattle.cedar_data.specs.Questions.{question_tree};
ghost use Rattle.cedar_extensions.specs.Table.{Table};
ghost use Rattle.std.specs.Rc.{rc_str_bytes};
ghost use Rattle.cedar_language.specs.Tree as tree;
ghost use Rattle.cedar_requests.specs.Holding.{request_parts};
ghost use Rattle.cedar_data.specs.Simple.{record_value};
ghost use Rattle.cedar_restricted.specs.Expressing.{Expresses};
ghost use Rattle.cedar_restricted.specs.Views.{restricted_tree, restricted_entries};
ghost use Rattle.cedar_session.specs.Asking.{parts_asked, entries_asked};
ghost use Rattle.cedar_telling.specs.Bodies.{AsksBody};
ghost use Rattle.cedar_world.specs.Setting.{Setting};

use cedar_data::{Attributes, GivenQuestion};
use cedar_literals::literals::Literal;
use cedar_literals::uids::EntityUID;
use cedar_names::conversions::FromIn;
use cedar_requests::{Context, Request};
use cedar_restricted::restricted::RestrictedExpr;
use cedar_telling::{entity_given, questions_are_asked};
use cedar_trees::errors::ExpressionConstructionError;
use cedar_values::values::Value;
use std::alloc::{AllocError, Global};
use std::rc::{Rc, RcStr};

// The request that has the parts of the question.
fn request_of_parts(question: &GivenQuestion) -> Result<Request, AllocError>
    ensures { IfOk result (λ request. request_parts request ≡ parts_asked question.now) }
{
    let principal = entity_given(&question.principal)?;
    let action = entity_given(&question.action)?;
    let resource = entity_given(&question.resource)?;
    let attributes = question.context.clone()?;
    Ok(Request::new_unchecked(
        principal,
        action,
        resource,
        Some(Context::Value(attributes)),
    ))
}

/// The request of the question. Refused for memory alone.
pub(crate) fn request_given(question: &GivenQuestion) -> Result<Request, AllocError>
    ensures { (by : Setting) (table : Table) (depth : ℕ) → IfOk result (λ request. AsksBody by table depth (question_tree question.now) (Ok request)) }
{
    questions_are_asked();
    let request = request_of_parts(question)?;
    Ok(request)
}

// The entry of this key, whose value is the entity.
fn entity_entry(
    alloc: Global,
    key: &str,
    uid: &Rc<EntityUID>,
) -> Result<(RcStr, RestrictedExpr), AllocError>
    ensures key { IfOk result (λ entry. rc_str_bytes entry.0 ≡ key.now) }
    ensures entity { IfOk result (λ entry. restricted_tree entry.1 ≡ tree.Lit (tree.Entity uid.now.value)) }
{
    let key = RcStr::from_str(alloc, key)?;
    let literal = Literal::EntityUID(uid.clone()?);
    Ok((key, RestrictedExpr::val(literal)))
}

// The entry of this key, whose value writes a record of literals and of such records.
fn record_entry(
    alloc: Global,
    key: &str,
    attributes: &Rc<Attributes>,
) -> Result<(RcStr, RestrictedExpr), AllocError>
    ensures key { IfOk result (λ entry. rc_str_bytes entry.0 ≡ key.now) }
    ensures record { IfOk result (λ entry. Expresses (record_value attributes.now.value.entries) (restricted_tree entry.1)) }
{
    let key = RcStr::from_str(alloc, key)?;
    let record = Value::record_arc(attributes.clone()?, None);
    Ok((key, RestrictedExpr::from_in(alloc, record)?))
}

// The entries of the body that states the question, in the order in which they are read.
fn entries_given(
    alloc: Global,
    question: &GivenQuestion,
) -> Result<Vec<(RcStr, RestrictedExpr)>, AllocError>
    ensures { IfOk result (λ entries. restricted_entries entries.items ≡ entries_asked question.now) }
{
    let principal = entity_entry(alloc, "principal", &question.principal)?;
    let action = entity_entry(alloc, "action", &question.action)?;
    let resource = entity_entry(alloc, "resource", &question.resource)?;
    let context = record_entry(alloc, "context", &question.context)?;
    Ok(vec![in alloc; principal, action, resource, context]?)
}

/// The body that states the question. Refused for memory alone.
pub(crate) fn body_given(
    alloc: Global,
    question: &GivenQuestion,
) -> Result<RestrictedExpr, AllocError>
    ensures { IfOk result (λ body. restricted_tree body ≡ question_tree question.now) }
{
    let entries = entries_given(alloc, question)?;
    match RestrictedExpr::record(alloc, entries) {
        Ok(body) => Ok(body),
        Err(ExpressionConstructionError::Memory(error)) => Err(error),
        Err(ExpressionConstructionError::DuplicateKey(_)) => unreachable!(),
    }
}
