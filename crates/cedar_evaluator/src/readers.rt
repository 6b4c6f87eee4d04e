//! The policies of a `PartialResponse`, by what was found of them, each as what is left of it: `true` where it is
//! satisfied, and `false` where it isn't or erred. Begin with `all_residuals`, or with `get` for one policy.
ghost use Rattle.std.specs.Prelude.{◌≡◌, true, false, ◌++◌, map, IfOk, OnOk};
ghost use Rattle.std.specs.Map.{lookup};
ghost use Rattle.cedar_language.specs.Answering.{in_must, in_may, residual_forbid};
ghost use Rattle.cedar_language.specs.Order.{same_text};
ghost use Rattle.cedar_language.specs.Tree.{Lit, Boolean};
ghost use Rattle.cedar_policy_parts.specs.Effects.{effect_of};
ghost use Rattle.cedar_policy_set.specs.Bounds.{policy_seen};
ghost use Rattle.cedar_policies.specs.Bodies.{shared_tree};
ghost use Rattle.cedar_evaluator.specs.Holding.{holding_in};
ghost use Rattle.cedar_evaluator.specs.Residuals.{residual_policy, left_satisfied, left_false, left_open, residuals_with, is_any, is_satisfied, is_residual, of_effect, residual_at, IsFound};
ghost use Rattle.cedar_evaluator.specs.Responses.{judged_held};

use crate::partial_response::{ErrorState, PartialResponse};
use cedar_literals::literals::Literal;
use cedar_policies::policies::Policy;
use cedar_policy_parts::annotations::Annotations;
use cedar_policy_parts::{Effect, PolicyID};
use cedar_policy_set::policy_map::PolicyMap;
use cedar_trees::expr::Expr;
use std::alloc::{AllocError, Global};
use std::rc::Rc;

// The policy that is left of one: this clause, for every request.
fn policy_of(
    alloc: Global,
    effect: Effect,
    id: &PolicyID,
    rest: &Rc<Expr>,
    annotations: &Rc<Annotations>,
) -> Result<Policy, AllocError>
    ensures { IfOk result (λ policy. policy_seen policy ≡ residual_policy (effect_of effect) id.now (shared_tree rest.now) annotations.now.value) }
{
    let id = id.clone()?;
    let loc = match rest.source_loc() {
        None => None,
        Some(loc) => Some(loc.clone(alloc)?),
    };
    let rest = rest.clone()?;
    let annotations = annotations.clone()?;
    Policy::from_when_clause_annos(alloc, effect, rest, id, loc, annotations)
}

// What is left where nothing is open.
fn truth(alloc: Global, satisfied: bool) -> Result<Rc<Expr>, AllocError>
    ensures { IfOk result (λ clause. shared_tree clause ≡ Lit (Boolean satisfied)) }
{
    Ok(Rc::new(alloc, Expr::val(Literal::Bool(satisfied)))?)
}

// Appends what is left of a group of satisfied policies.
fn push_satisfied(
    alloc: Global,
    policies: &mut Vec<Policy>,
    effect: Effect,
    group: &PolicyMap<Rc<Annotations>>,
) -> Result<(), AllocError>
    ensures { OnOk result (map policy_seen policies.new.items ≡ map policy_seen policies.old.items ++ map (left_satisfied (effect_of effect)) group.now) }
{
    let clause = truth(alloc, true)?;
    for (id, annotations) in group.iter() {
        policies.push(policy_of(alloc, effect, id, &clause, annotations)?)?;
    }
    Ok(())
}

// Appends what is left of a group of policies that aren't satisfied.
fn push_false(
    alloc: Global,
    policies: &mut Vec<Policy>,
    effect: Effect,
    group: &PolicyMap<(ErrorState, Rc<Annotations>)>,
) -> Result<(), AllocError>
    ensures { OnOk result (map policy_seen policies.new.items ≡ map policy_seen policies.old.items ++ map (left_false (effect_of effect)) group.now) }
{
    let clause = truth(alloc, false)?;
    for (id, kept) in group.iter() {
        policies.push(policy_of(alloc, effect, id, &clause, &kept.1)?)?;
    }
    Ok(())
}

// Appends what is left of a group of open policies.
fn push_open(
    alloc: Global,
    policies: &mut Vec<Policy>,
    effect: Effect,
    group: &PolicyMap<(Rc<Expr>, Rc<Annotations>)>,
) -> Result<(), AllocError>
    ensures { OnOk result (map policy_seen policies.new.items ≡ map policy_seen policies.old.items ++ map (left_open (effect_of effect)) group.now) }
{
    for (id, kept) in group.iter() {
        policies.push(policy_of(alloc, effect, id, &kept.0, &kept.1)?)?;
    }
    Ok(())
}

// What is left of the policy of an id among open policies, if it is one of them.
fn open_at(
    alloc: Global,
    effect: Effect,
    id: &PolicyID,
    group: &PolicyMap<(Rc<Expr>, Rc<Annotations>)>,
) -> Result<Option<Policy>, AllocError>
    ensures { IfOk result (IsFound id.now (lookup (same_text id.now) (map (left_open (effect_of effect)) group.now))) }
{
    match group.get(id) {
        None => Ok(None),
        Some(kept) => Ok(Some(policy_of(alloc, effect, id, &kept.0, &kept.1)?)),
    }
}

// The same among satisfied policies.
fn satisfied_at(
    alloc: Global,
    effect: Effect,
    id: &PolicyID,
    group: &PolicyMap<Rc<Annotations>>,
) -> Result<Option<Policy>, AllocError>
    ensures { IfOk result (IsFound id.now (lookup (same_text id.now) (map (left_satisfied (effect_of effect)) group.now))) }
{
    match group.get(id) {
        None => Ok(None),
        Some(annotations) => {
            let clause = truth(alloc, true)?;
            Ok(Some(policy_of(alloc, effect, id, &clause, annotations)?))
        }
    }
}

// The same among policies that aren't satisfied.
fn false_at(
    alloc: Global,
    effect: Effect,
    id: &PolicyID,
    group: &PolicyMap<(ErrorState, Rc<Annotations>)>,
) -> Result<Option<Policy>, AllocError>
    ensures { IfOk result (IsFound id.now (lookup (same_text id.now) (map (left_false (effect_of effect)) group.now))) }
{
    match group.get(id) {
        None => Ok(None),
        Some(kept) => {
            let clause = truth(alloc, false)?;
            Ok(Some(policy_of(alloc, effect, id, &clause, &kept.1)?))
        }
    }
}

// The same among all of an effect.
fn found_at(
    alloc: Global,
    effect: Effect,
    id: &PolicyID,
    residuals: &PolicyMap<(Rc<Expr>, Rc<Annotations>)>,
    satisfied: &PolicyMap<Rc<Annotations>>,
    others: &PolicyMap<(ErrorState, Rc<Annotations>)>,
) -> Result<Option<Policy>, AllocError>
    ensures { IfOk result (IsFound id.now (lookup (same_text id.now) (of_effect (effect_of effect) residuals.now satisfied.now others.now))) }
{
    match open_at(alloc, effect, id, residuals)? {
        Some(policy) => Ok(Some(policy)),
        None => match satisfied_at(alloc, effect, id, satisfied)? {
            Some(policy) => Ok(Some(policy)),
            None => false_at(alloc, effect, id, others),
        },
    }
}

impl PartialResponse {
    /// What is left of the policies that are satisfied, permits before forbids: of each its effect under
    /// its id, with its annotations, for every request. Refused for memory alone.
    pub fn definitely_satisfied(&self, alloc: Global) -> Result<Vec<Policy>, AllocError>
        ensures { IfOk result (λ policies. map policy_seen policies.items ≡ residuals_with is_satisfied self.now) }
    {
        let mut policies = Vec::new(alloc);
        push_satisfied(
            alloc,
            &mut policies,
            Effect::Permit,
            &self.satisfied_permits,
        )?;
        push_satisfied(
            alloc,
            &mut policies,
            Effect::Forbid,
            &self.satisfied_forbids,
        )?;
        Ok(policies)
    }

    /// What is left of the policies that are reasons for some values of the unknown parts, as far as this
    /// response tells; refused for memory alone.
    pub fn may_be_determining(&self, alloc: Global) -> Result<Vec<Policy>, AllocError>
        ensures { IfOk result (λ policies. map policy_seen policies.items ≡ residuals_with (in_may (judged_held (holding_in self.now))) self.now) }
    {
        let mut policies = Vec::new(alloc);
        if self.satisfied_forbids.is_empty() {
            push_satisfied(
                alloc,
                &mut policies,
                Effect::Permit,
                &self.satisfied_permits,
            )?;
            push_open(alloc, &mut policies, Effect::Permit, &self.residual_permits)?;
        } else {
            push_satisfied(
                alloc,
                &mut policies,
                Effect::Forbid,
                &self.satisfied_forbids,
            )?;
        }
        push_open(alloc, &mut policies, Effect::Forbid, &self.residual_forbids)?;
        Ok(policies)
    }

    /// What is left of the policies that are reasons whatever the unknown parts are; refused for memory
    /// alone.
    pub fn must_be_determining(&self, alloc: Global) -> Result<Vec<Policy>, AllocError>
        ensures { IfOk result (λ policies. map policy_seen policies.items ≡ residuals_with (in_must (judged_held (holding_in self.now))) self.now) }
    {
        let mut policies = Vec::new(alloc);
        if self.satisfied_forbids.is_empty() && self.residual_forbids.is_empty() {
            push_satisfied(
                alloc,
                &mut policies,
                Effect::Permit,
                &self.satisfied_permits,
            )?;
        } else {
            push_satisfied(
                alloc,
                &mut policies,
                Effect::Forbid,
                &self.satisfied_forbids,
            )?;
        }
        Ok(policies)
    }

    /// What is left of the open policies, permits before forbids; refused for memory alone.
    pub fn nontrivial_residuals(&self, alloc: Global) -> Result<Vec<Policy>, AllocError>
        ensures { IfOk result (λ policies. map policy_seen policies.items ≡ residuals_with is_residual self.now) }
    {
        let mut policies = Vec::new(alloc);
        push_open(alloc, &mut policies, Effect::Permit, &self.residual_permits)?;
        push_open(alloc, &mut policies, Effect::Forbid, &self.residual_forbids)?;
        Ok(policies)
    }

    /// What is left of the open forbids; refused for memory alone.
    pub fn nontrivial_forbids(&self, alloc: Global) -> Result<Vec<Policy>, AllocError>
        ensures { IfOk result (λ policies. map policy_seen policies.items ≡ residuals_with residual_forbid self.now) }
    {
        let mut policies = Vec::new(alloc);
        push_open(alloc, &mut policies, Effect::Forbid, &self.residual_forbids)?;
        Ok(policies)
    }

    /// What is left of all policies: `true` of those that are satisfied, and `false` of those that aren't
    /// or erred. Permits come before forbids, and of each the satisfied ones, the others, and the open ones.
    /// Refused for memory alone.
    pub fn all_residuals(&self, alloc: Global) -> Result<Vec<Policy>, AllocError>
        ensures { IfOk result (λ policies. map policy_seen policies.items ≡ residuals_with is_any self.now) }
    {
        let mut policies = Vec::new(alloc);
        push_satisfied(
            alloc,
            &mut policies,
            Effect::Permit,
            &self.satisfied_permits,
        )?;
        push_false(alloc, &mut policies, Effect::Permit, &self.false_permits)?;
        push_open(alloc, &mut policies, Effect::Permit, &self.residual_permits)?;
        push_satisfied(
            alloc,
            &mut policies,
            Effect::Forbid,
            &self.satisfied_forbids,
        )?;
        push_false(alloc, &mut policies, Effect::Forbid, &self.false_forbids)?;
        push_open(alloc, &mut policies, Effect::Forbid, &self.residual_forbids)?;
        Ok(policies)
    }

    /// What is left of the policy of this id, if the response has one: `true` where it is satisfied, and
    /// `false` where it isn't or erred. Refused for memory alone.
    pub fn get(&self, alloc: Global, id: &PolicyID) -> Result<Option<Policy>, AllocError>
        ensures { IfOk result (IsFound id.now (residual_at self.now id.now)) }
    {
        let permit = found_at(
            alloc,
            Effect::Permit,
            id,
            &self.residual_permits,
            &self.satisfied_permits,
            &self.false_permits,
        )?;
        match permit {
            Some(policy) => Ok(Some(policy)),
            None => found_at(
                alloc,
                Effect::Forbid,
                id,
                &self.residual_forbids,
                &self.satisfied_forbids,
                &self.false_forbids,
            ),
        }
    }
}
