// How policies stand, as a response has it.
ghost use Rattle.std.specs.Prelude.{◌≡◌, is_some, string_bytes, IfOk, OnOk, map};
ghost use Rattle.cedar_evaluator.specs.Holding.{error_seen};
ghost use Rattle.cedar_evaluator.specs.declared.partial_response.PartialResponse.{PartialResponse as Response};
ghost use Rattle.cedar_policies.specs.Policies.{policy_id};
ghost use Rattle.cedar_messages.specs.Telling.{Adds, AreBelow};
ghost use Rattle.cedar_authoring.specs.Standing.{has_erred, is_open, is_satisfied, standing_words, AreOf, AreOneMore, TellsStanding};
ghost use Rattle.cedar_authoring.specs.Standing.{HaveErred};
ghost use Rattle.cedar_authoring.specs.StandingWords.{words_of};

use crate::awaiting::{awaited, push_standing};
use crate::origins::Origin;
use cedar_evaluator::AuthorizationError;
use cedar_extensions::evaluation_error::EvaluationError;
use cedar_messages::telling::{push_indented, tell_line};
use cedar_policies::policies::Policy;
use cedar_policy_set::policy_map::PolicyMap;
use cedar_refusals::listing::described;
use cedar_refusals::naming::listed;
use cedar_session::{PartialResponse, PolicyID};
use cedar_trees::expr::Expr;
use std::alloc::{AllocError, Global};

/// How a policy stands.
#[derive(Clone, Copy)]
pub(crate) enum Standing<'r> {
    Satisfied,
    NotSatisfied,
    Errs(&'r EvaluationError),
    /// With what is left of its condition.
    Open(&'r Expr),
}

impl<'r> Standing<'r> {
    /// How a line that tells of it ends.
    fn words(self) -> &'static str
        ensures { result.now ≡ words_of self.entry }
    {
        match self {
            Standing::Satisfied => " is satisfied",
            Standing::NotSatisfied => " is not satisfied",
            Standing::Errs(_) => " errs",
            Standing::Open(_) => " is open",
        }
    }
}

/// How policies stood when a question was asked, each found by its id.
#[derive(Drop)]
pub(crate) struct Standings<'r> {
    pub(crate) response: &'r PartialResponse,
    // Why policies err.
    errors: PolicyMap<&'r EvaluationError>,
    ghost errors_are: { HaveErred errors response.now },
}

impl<'r> Standings<'r> {
    /// How they stood by this response. Refused for memory alone.
    pub(crate) fn of(
        alloc: Global,
        response: &'r PartialResponse,
    ) -> Result<Standings<'r>, AllocError>
        ensures { IfOk result (λ standings. standings.response.now ≡ response.now) }
    {
        let errors = errors_by_id(alloc, response.errors.as_slice())?;
        Ok(Standings { response, errors })
    }

    /// How the policy of this id stands.
    pub(crate) fn standing(&self, id: &PolicyID) -> Standing<'r>
        ensures { words_of result ≡ standing_words self.now.response.now id.now }
    {
        if is_satisfied(self.response, id) {
            return Standing::Satisfied;
        }
        if let Some(rest) = rest_of(self.response, id) {
            return Standing::Open(rest);
        }
        match self.error(id) {
            Some(error) => Standing::Errs(error),
            None => Standing::NotSatisfied,
        }
    }

    /// Why the policy of this id errs, if it does.
    pub(crate) fn error(&self, id: &PolicyID) -> Option<&'r EvaluationError>
        ensures { is_some result ≡ has_erred self.now.response.now id.now }
    {
        self.errors.get(id).copied()
    }
}

/// Why policies err, by their ids.
fn errors_by_id<'r>(
    alloc: Global,
    errors: &'r [AuthorizationError],
) -> Result<PolicyMap<&'r EvaluationError>, AllocError>
    ensures { IfOk result (λ by_id. AreOf by_id (map error_seen errors.now)) }
{
    let mut by_id = PolicyMap::new(alloc);
    for failed in errors {
        add_error(&mut by_id, failed)?;
    }
    Ok(by_id)
}

fn add_error<'r>(
    by_id: &mut PolicyMap<&'r EvaluationError>,
    failed: &'r AuthorizationError,
) -> Result<(), AllocError>
    ensures { OnOk result (AreOneMore by_id.old by_id.new (error_seen failed.now).0) }
{
    let (id, error) = parts_of(failed);
    by_id.insert(copy_of(id)?, error)?;
    Ok(())
}

/// The id of a policy that errs, and why it does.
fn parts_of(failed: &AuthorizationError) -> (&PolicyID, &EvaluationError)
    ensures { result.0.now ≡ (error_seen failed.now).0 }
{
    match failed {
        AuthorizationError::PolicyEvaluationError { id, error } => (id, error),
    }
}

fn copy_of(id: &PolicyID) -> Result<PolicyID, AllocError>
    ensures { IfOk result (λ copy. copy ≡ id.now) }
{
    id.clone()
}

pub(crate) fn is_satisfied(response: &PartialResponse, id: &PolicyID) -> bool
    ensures { result ≡ is_satisfied response.now id.now }
{
    response.satisfied_permits.contains_key(id) || response.satisfied_forbids.contains_key(id)
}

/// What is left of the policy of this id, if it is open.
fn rest_of<'r>(response: &'r PartialResponse, id: &PolicyID) -> Option<&'r Expr>
    ensures { is_some result ≡ is_open response.now id.now }
{
    if let Some(kept) = response.residual_permits.get(id) {
        return Some(&kept.0);
    }
    match response.residual_forbids.get(id) {
        Some(kept) => Some(&kept.0),
        None => None,
    }
}

/// Tells how a policy of a text stands.
pub(crate) fn tell_standing(
    alloc: Global,
    told: &mut String,
    origin: Origin<'_, '_>,
    policy: &Policy,
    standing: Standing<'_>,
    untold: &[&str],
) -> Result<(), AllocError>
    ensures { (response : Response) → words_of standing.entry ≡ standing_words response (policy_id policy.now) → OnOk result (Adds (TellsStanding origin.entry.name.now response (policy_id policy.now)) (string_bytes told.old) (string_bytes told.new)) }
{
    let place = origin.place(policy.loc());
    let what = described(alloc, Some(policy.template()))?;
    let line = format!(in alloc;
        "{} {}{}",
        policy.id().as_str(),
        what.as_str(),
        standing.words()
    )?;
    let below = shown(alloc, origin, standing, untold)?;
    tell_line(
        alloc,
        told,
        origin.name,
        place,
        line.as_str(),
        below.as_str(),
    )
}

/// What is shown below the line of a policy: why it errs, or what is left of it.
fn shown(
    alloc: Global,
    origin: Origin<'_, '_>,
    standing: Standing<'_>,
    untold: &[&str],
) -> Result<String, AllocError>
    ensures { IfOk result (λ shown. AreBelow (string_bytes shown)) }
{
    match standing {
        Standing::Satisfied => Ok(String::new(alloc)),
        Standing::NotSatisfied => Ok(String::new(alloc)),
        Standing::Errs(error) => why(alloc, origin, error),
        Standing::Open(rest) => left(alloc, rest, untold),
    }
}

/// Why a policy errs, and where.
fn why(alloc: Global, origin: Origin<'_, '_>, error: &EvaluationError) -> Result<String, AllocError>
    ensures { IfOk result (λ why. AreBelow (string_bytes why)) }
{
    let message = match origin.place(error.source_loc()) {
        None => format!(in alloc; "{error}")?,
        Some(at) => format!(in alloc; "{}:{}:{}: {error}", origin.name, at.line, at.column)?,
    };
    let mut told = String::new(alloc);
    push_indented(&mut told, message.as_str())?;
    Ok(told)
}

/// What is left of a policy, and the names for which it waits.
fn left(alloc: Global, rest: &Expr, untold: &[&str]) -> Result<String, AllocError>
    ensures { IfOk result (λ left. AreBelow (string_bytes left)) }
{
    let mut standing = Vec::new(alloc);
    push_standing(alloc, &mut standing, rest)?;
    let names = awaited(alloc, untold, standing.as_slice())?;
    let names = listed(alloc, names.as_slice())?;
    let rest = format!(in alloc; "{rest}")?;
    let waits = format!(in alloc; "waits for {names}")?;
    let mut told = String::new(alloc);
    push_indented(&mut told, rest.as_str())?;
    push_indented(&mut told, waits.as_str())?;
    Ok(told)
}
