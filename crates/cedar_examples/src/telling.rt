//! A question of which parts are unknown, and values that are told for them in two portions: by the
//! authorizer, whose response is made anew with each portion, and by a session, which keeps the open
//! question.

use crate::DEPTH;
use crate::asking::{known, member, read_policies};
use crate::frames::{print_answer, print_ids};
use anyhow::Result;
use cedar_evaluator::ast::{Context, EntityUIDEntry, Request};
use cedar_evaluator::{Authorizer, Extensions, PartialResponse, ResidualIds};
use cedar_expressions::ast::{Literal, Value};
use cedar_parser::ExtStyles;
use cedar_parser::prelude::StylesOfExtensions;
use cedar_parser::strict::parse_restrictedexpr;
use cedar_session::Session;
use cedar_store::ast::{EntityUID, PolicyID};
use cedar_store::entities::{Entities, TCComputation};
use cedar_store::prelude::FromIn;
use std::alloc::Global;
use std::collections::BTreeMap;
use std::io;
use std::rc::RcStr;

/// They stand under `policy0` and `policy1`.
const POLICIES: &str = r#"
permit(principal in Group::"staff", action, resource) when { context.hour < 18 };
forbid(principal == User::"mallory", action, resource);
"#;

/// The context, in which the hour is unknown.
const CONTEXT: &str = r#"{hour: unknown("hour")}"#;

/// The question as a session reads it: a part that isn't there is unknown too.
const QUESTION: &str = r#"
{action: Action::"view", resource: Photo::"1", context: {hour: unknown("hour")}}
"#;

/// Asks and tells in both ways.
pub(crate) fn show(rt: &impl Print, alloc: Global, extensions: &Extensions<'_>) -> Result<()> {
    println!(rt; "telling")?;
    by_the_authorizer(rt, alloc, extensions)?;
    by_a_session(rt, alloc, extensions)
}

fn by_the_authorizer(rt: &impl Print, alloc: Global, extensions: &Extensions<'_>) -> Result<()> {
    println!(rt; "  by the authorizer")?;
    let policies = read_policies(alloc, extensions, POLICIES)?;
    let entities = staff(alloc)?;
    let authorizer = Authorizer::new(extensions, DEPTH);
    let request = question(alloc, extensions)?;
    let response = authorizer.is_authorized_core(alloc, request, &policies, &entities)?;
    tell_in_portions(rt, alloc, &authorizer, &entities, &response)
}

fn staff(alloc: Global) -> Result<Entities> {
    let entities = vec![in alloc; member(alloc, "User", "alice", "staff")?]?;
    Ok(Entities::from_entities(alloc, entities, TCComputation::ComputeNow)?)
}

/// A request without a principal, in whose context the hour is unknown.
fn question(alloc: Global, extensions: &Extensions<'_>) -> Result<Request> {
    let context = read_context(alloc, extensions)?;
    let action = known(alloc, "Action", "view")?;
    let resource = known(alloc, "Photo", "1")?;
    Ok(Request::new_unchecked(EntityUIDEntry::unknown(), action, resource, Some(context)))
}

/// The context of the text: in data, but not in policies, `unknown` may be called.
fn read_context(alloc: Global, extensions: &Extensions<'_>) -> Result<Context> {
    let styles = ExtStyles::from_extensions(alloc, extensions)?;
    let expr = parse_restrictedexpr(alloc, CONTEXT, &styles, DEPTH)?;
    Ok(Context::from_expr(alloc, expr.as_borrowed(), extensions, DEPTH)?)
}

/// Once it is told who asks, the forbid has no part in the answer; once the hour is told, nothing is open.
fn tell_in_portions(
    rt: &impl Print,
    alloc: Global,
    authorizer: &Authorizer<'_, '_>,
    entities: &Entities,
    asked: &PartialResponse,
) -> Result<()> {
    print_response(rt, alloc, "asked", asked)?;
    let alice = EntityUID::with_eid_and_type(alloc, "User", "alice")?;
    let alice = Literal::from_in(alloc, alice)?;
    let second = tell(alloc, authorizer, entities, asked, "principal", alice)?;
    print_response(rt, alloc, "told the principal", &second)?;
    let hour = Literal::from(9);
    let third = tell(alloc, authorizer, entities, &second, "hour", hour)?;
    print_response(rt, alloc, "told the hour", &third)
}

/// The response once a value is told under the name of an unknown. A part of the request that is missing is
/// an unknown of its variable's name.
fn tell(
    alloc: Global,
    authorizer: &Authorizer<'_, '_>,
    entities: &Entities,
    response: &PartialResponse,
    name: &str,
    literal: Literal,
) -> Result<PartialResponse> {
    let told = one_value(alloc, name, literal)?;
    Ok(response.reauthorize(alloc, &told, authorizer, entities)?)
}

fn one_value(alloc: Global, name: &str, literal: Literal) -> Result<BTreeMap<RcStr, Value>> {
    let name = RcStr::from_str(alloc, name)?;
    let mut told = BTreeMap::new(alloc);
    told.insert(name, Value::from(literal))?;
    Ok(told)
}

/// Prints what is decided, if anything is, the policies that must be reasons, those that may be, and those of
/// which something is left.
fn print_response(
    rt: &impl Print,
    alloc: Global,
    asked: &str,
    response: &PartialResponse,
) -> Result<()> {
    println!(rt; "    {asked}: {:?}", response.decision())?;
    print_reasons(rt, "must", response.must_be_determining_ids(alloc)?)?;
    print_reasons(rt, "may", response.may_be_determining_ids(alloc)?)?;
    Ok(print_open(rt, response.nontrivial_residual_ids())?)
}

fn print_reasons(rt: &impl Print, word: &str, ids: Vec<PolicyID>) -> io::Result<()> {
    print_ids(rt, word, ids.as_slice())
}

fn print_open(rt: &impl Print, ids: ResidualIds<'_>) -> io::Result<()> {
    for id in ids {
        println!(rt; "      open {id}")?;
    }
    Ok(())
}

fn by_a_session(rt: &impl Print, alloc: Global, extensions: &Extensions<'_>) -> Result<()> {
    println!(rt; "  by a session")?;
    let mut session = Session::new(alloc, extensions, DEPTH)?;
    ask_and_tell(rt, &mut session)
}

/// The same of a session. Values are told under the same names.
fn ask_and_tell(rt: &impl Print, session: &mut Session<'_, '_>) -> Result<()> {
    session.put(r#"[{uid: User::"alice", parents: [Group::"staff"]}]"#)?;
    session.load(POLICIES)?;
    print_answer(rt, "asked", session.ask(QUESTION)?)?;
    let answer = session.tell(r#"{principal: User::"alice"}"#)?;
    print_answer(rt, "told the principal", answer)?;
    let answer = session.tell("{hour: 9}")?;
    print_answer(rt, "told the hour", answer)?;
    Ok(())
}
