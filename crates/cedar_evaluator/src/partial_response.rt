//! Responses to requests of which parts may be unknown. Begin with `PartialResponse`: what is found of the
//! policies, in groups, and what is decided and by which of them; once values are told, `reauthorize` takes
//! it up again.
ghost use Rattle.std.specs.Prelude.{◌≡◌, ◌++◌, ◌||◌, IfOk, OnOk, option_map};
ghost use Rattle.std.specs.Map.{keys_of};
ghost use Rattle.cedar_language.specs.Answering.{decision, decision_by, in_must, in_may};
ghost use Rattle.cedar_policy_parts.specs.Decisions.{decision_of};
ghost use Rattle.cedar_language.specs.Answering.{ids_with};
ghost use Rattle.cedar_evaluator.specs.Given.{gathered, AreGiven};
ghost use Rattle.cedar_evaluator.specs.Deciding.{has_any};
ghost use Rattle.cedar_evaluator.specs.Responses.{judged_held};
ghost use Rattle.cedar_evaluator.specs.Holding.{holding_in};

use crate::errors::AuthorizationError;
use cedar_policy_parts::annotations::Annotations;
use cedar_policy_parts::{Decision, PolicyID};
use cedar_policy_set::policy_map::PolicyMap;
use cedar_requests::Request;
use cedar_trees::expr::Expr;
use std::alloc::{AllocError, Global};
use std::fmt;
use std::rc::Rc;

/// Whether a policy that isn't satisfied erred.
#[derive(Clone, Copy, Debug, PartialEq, Eq, PartialOrd, Ord, Hash)]
pub enum ErrorState {
    /// Its condition is `false`.
    NoError,
    /// It errs, which counts as not satisfied.
    Error,
}

/// What is found of the policies of a set for a request: of each effect those that are satisfied, those
/// that aren't, and those of whose condition something is left since part of the request is unknown. Each
/// group stands in the order of the set. Contracts see it by `holding_in`.
/// (Cedar language reference, "Authorization" and "Partial evaluation".)
pub struct PartialResponse {
    /// The permits that are satisfied.
    pub satisfied_permits: PolicyMap<Rc<Annotations>>,
    /// The permits that aren't satisfied, each with whether it erred.
    pub false_permits: PolicyMap<(ErrorState, Rc<Annotations>)>,
    /// The permits that are open, each with what is left of its condition.
    pub residual_permits: PolicyMap<(Rc<Expr>, Rc<Annotations>)>,
    /// The forbids that are satisfied.
    pub satisfied_forbids: PolicyMap<Rc<Annotations>>,
    /// The forbids that aren't satisfied, each with whether it erred.
    pub false_forbids: PolicyMap<(ErrorState, Rc<Annotations>)>,
    /// The forbids that are open, each with what is left of its condition.
    pub residual_forbids: PolicyMap<(Rc<Expr>, Rc<Annotations>)>,
    /// The errors, in the order of the policies.
    pub errors: Vec<AuthorizationError>,
    pub(crate) request: Rc<Request>,
}

// By hand, so that letting go of one is a call.
impl Drop for PartialResponse {
    fn drop(self) {
        let PartialResponse {
            satisfied_permits: _satisfied_permits,
            false_permits: _false_permits,
            residual_permits: _residual_permits,
            satisfied_forbids: _satisfied_forbids,
            false_forbids: _false_forbids,
            residual_forbids: _residual_forbids,
            errors: _errors,
            request: _request,
        } = self;
    }
}

/// What is decided, and the errors.
impl fmt::Debug for PartialResponse {
    fn fmt<W: fmt::Write>(&self, f: &mut fmt::Formatter<W>) -> fmt::Result {
        let decision = self.decision();
        f.debug_struct("PartialResponse")
            .field("decision", &decision)
            .field("errors", &self.errors)
            .finish_non_exhaustive()
    }
}

// The map of these entries.
fn mapped<V: Drop>(alloc: Global, entries: Vec<(PolicyID, V)>) -> Result<PolicyMap<V>, AllocError>
    ensures { IfOk result (λ map. map ≡ gathered entries.items) }
{
    let mut map = PolicyMap::new(alloc);
    for (id, value) in entries {
        map.insert(id, value)?;
    }
    Ok(map)
}

// Whether a group has a policy.
fn has_any<V>(group: &PolicyMap<V>) -> bool
    ensures { result ≡ has_any group.now }
{
    !group.is_empty()
}

// What is decided by whether there is a satisfied forbid, a satisfied permit, an open permit and an open
// forbid.
fn decided(
    forbidden: bool,
    permitted: bool,
    permits_open: bool,
    forbids_open: bool,
) -> Option<Decision>
    ensures { option_map decision_of result ≡ decision_by forbidden permitted permits_open forbids_open }
{
    if forbidden || !permitted && !permits_open {
        return Some(Decision::Deny);
    }
    if forbids_open || !permitted {
        return None;
    }
    Some(Decision::Allow)
}

// Appends the ids of a group.
fn push_keys<V>(ids: &mut Vec<PolicyID>, group: &PolicyMap<V>) -> Result<(), AllocError>
    ensures { OnOk result (ids.new.items ≡ ids.old.items ++ keys_of group.now) }
{
    for (id, _) in group.iter() {
        ids.push(id.clone()?)?;
    }
    Ok(())
}

// The ids of a group, in a list with room for them.
fn keys<V>(alloc: Global, group: &PolicyMap<V>) -> Result<Vec<PolicyID>, AllocError>
    ensures { IfOk result (λ ids. ids.items ≡ keys_of group.now) }
{
    let mut ids = Vec::with_capacity(alloc, group.len())?;
    push_keys(&mut ids, group)?;
    Ok(ids)
}

impl PartialResponse {
    /// What is found of the policies for a request, by their groups. Of an id that stands twice in a group the
    /// last is kept, in the place of the first. Refused for memory alone.
    pub fn new(
        alloc: Global,
        satisfied_permits: Vec<(PolicyID, Rc<Annotations>)>,
        false_permits: Vec<(PolicyID, (ErrorState, Rc<Annotations>))>,
        residual_permits: Vec<(PolicyID, (Rc<Expr>, Rc<Annotations>))>,
        satisfied_forbids: Vec<(PolicyID, Rc<Annotations>)>,
        false_forbids: Vec<(PolicyID, (ErrorState, Rc<Annotations>))>,
        residual_forbids: Vec<(PolicyID, (Rc<Expr>, Rc<Annotations>))>,
        errors: Vec<AuthorizationError>,
        request: Rc<Request>,
    ) -> Result<PartialResponse, AllocError>
        ensures { IfOk result (λ response. AreGiven satisfied_permits.items false_permits.items residual_permits.items satisfied_forbids.items false_forbids.items residual_forbids.items errors.items request response) }
    {
        Ok(PartialResponse {
            satisfied_permits: mapped(alloc, satisfied_permits)?,
            false_permits: mapped(alloc, false_permits)?,
            residual_permits: mapped(alloc, residual_permits)?,
            satisfied_forbids: mapped(alloc, satisfied_forbids)?,
            false_forbids: mapped(alloc, false_forbids)?,
            residual_forbids: mapped(alloc, residual_forbids)?,
            errors,
            request,
        })
    }

    /// What is decided, whatever the unknown parts are, and nothing where that is open. Takes no memory.
    pub fn decision(&self) -> Option<Decision>
        ensures { option_map decision_of result ≡ decision (judged_held (holding_in self.now)) }
    {
        decided(
            has_any(&self.satisfied_forbids),
            has_any(&self.satisfied_permits),
            has_any(&self.residual_permits),
            has_any(&self.residual_forbids),
        )
    }

    // Whether a forbid is satisfied or open.
    fn has_forbids(&self) -> bool
        ensures { result ≡ (has_any self.now.satisfied_forbids || has_any self.now.residual_forbids) }
    {
        has_any(&self.satisfied_forbids) || has_any(&self.residual_forbids)
    }

    /// The ids of the policies that are reasons whatever the unknown parts are; refused for memory alone.
    pub fn must_be_determining_ids(&self, alloc: Global) -> Result<Vec<PolicyID>, AllocError>
        ensures { IfOk result (λ ids. ids.items ≡ ids_with (in_must (judged_held (holding_in self.now))) (judged_held (holding_in self.now))) }
    {
        if self.has_forbids() {
            keys(alloc, &self.satisfied_forbids)
        } else {
            keys(alloc, &self.satisfied_permits)
        }
    }

    /// The ids of the policies that are reasons for some values of the unknown parts, as far as this response
    /// tells; refused for memory alone.
    pub fn may_be_determining_ids(&self, alloc: Global) -> Result<Vec<PolicyID>, AllocError>
        ensures { IfOk result (λ ids. ids.items ≡ ids_with (in_may (judged_held (holding_in self.now))) (judged_held (holding_in self.now))) }
    {
        let mut ids = if has_any(&self.satisfied_forbids) {
            keys(alloc, &self.satisfied_forbids)?
        } else {
            let mut ids = keys(alloc, &self.satisfied_permits)?;
            push_keys(&mut ids, &self.residual_permits)?;
            ids
        };
        push_keys(&mut ids, &self.residual_forbids)?;
        Ok(ids)
    }
}
