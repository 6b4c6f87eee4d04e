// The scopes of policies, decided by the entities that a request gives. What looks at a scope is inlined, since
// each policy in force is asked so.
ghost use Rattle.std.specs.Prelude.{◌≡◌, ℕ, Some, true, false};
ghost use Rattle.std.specs.List.{list_any};
ghost use Rattle.std.specs.Option.{option_map, option_copied};
ghost use Rattle.cedar_language.specs.Facts.{Facts};
ghost use Rattle.cedar_language.specs.Order.{same_uid};
ghost use Rattle.cedar_language.specs.Tree.{Action};
ghost use Rattle.cedar_grammar.specs.Policy.{constraint_tree, action_tree};
ghost use Rattle.cedar_partial_evaluation.specs.Partial.{LeafAnswers};
ghost use Rattle.cedar_grammar.specs.Scopes.{action_meets};
ghost use Rattle.cedar_policy_parts.specs.Actions.{action_of, held_uids};
ghost use Rattle.cedar_policy_parts.specs.Asked.{constraint_of};
ghost use Rattle.cedar_entities.specs.declared.store.Entities.{Entities as Store};
ghost use Rattle.cedar_extensions.specs.Table.{Table};
ghost use Rattle.cedar_operators.specs.Hierarchy.{is_within_entity};
ghost use Rattle.cedar_operators.specs.Store.{HasFacts};
ghost use Rattle.cedar_evaluator.specs.Asking.{Inquiry, IsEvaluatorOf};
ghost use Rattle.cedar_policy_set.specs.ScopeNaming.{is_settled};
ghost use Rattle.cedar_evaluator.specs.Scopes.{IsDecided, IsTold, IsGivenAs, AreScopesOf, Decides, WhereAsked, WhereGiven};
ghost use Rattle.cedar_evaluator.specs.Scopes.{action_asked, constraint_met, principal_asked, resource_asked, scope_asked, unasked};

use cedar_entities::store::Entities;
use cedar_extensions::objects::ExtensionFunctionObject;
use cedar_interpreter::{Evaluator, GivenEntity};
use cedar_literals::slots::SlotId;
use cedar_literals::uids::EntityUID;
use cedar_literals::variables::Var;
use cedar_policies::policies::Policy;
use cedar_policy_parts::actions::ActionConstraint;
use cedar_policy_parts::constraints::PrincipalOrResourceConstraint;
use std::rc::Rc;

/// The entities that a request gives for the variables of scopes, as its evaluator lends them. Over a store that
/// is partial none is given, since what isn't held there isn't known.
#[derive(Clone, Copy)]
pub(crate) struct Scopes<'v> {
    pub(crate) principal: Option<GivenEntity<'v, 'v>>,
    pub(crate) action: Option<GivenEntity<'v, 'v>>,
    pub(crate) resource: Option<GivenEntity<'v, 'v>>,
}

// Whether an entity is one of these, or in one.
fn is_in_some(given: &GivenEntity<'_, '_>, uids: &[Rc<EntityUID>]) -> bool
    ensures { result ≡ list_any (is_within_entity given.now.uid.now (option_copied given.now.entity)) (held_uids uids.now) }
{
    for uid in uids {
        if given.is_in(uid) {
            return true;
        }
    }
    false
}

fn is_target(given: &GivenEntity<'_, '_>, target: Option<&EntityUID>) -> Option<bool>
    ensures { result ≡ option_map (same_uid given.now.uid.now) (option_copied target.entry) }
{
    match target {
        Some(uid) => Some(given.is(uid)),
        None => None,
    }
}

fn is_in_target(given: &GivenEntity<'_, '_>, target: Option<&EntityUID>) -> Option<bool>
    ensures { result ≡ option_map (is_within_entity given.now.uid.now (option_copied given.now.entity)) (option_copied target.entry) }
{
    match target {
        Some(uid) => Some(given.is_in(uid)),
        None => None,
    }
}

// Whether an entity is as a scope asks; not said where a slot isn't bound.
#[inline(always)]
fn meets(
    given: &GivenEntity<'_, '_>,
    constraint: &PrincipalOrResourceConstraint,
    bound: Option<&EntityUID>,
) -> Option<bool>
    ensures { result ≡ constraint_met (is_within_entity given.now.uid.now (option_copied given.now.entity)) given.now.uid.now (option_copied bound.entry) (constraint_of constraint.now) }
{
    match constraint {
        PrincipalOrResourceConstraint::Any => Some(true),
        PrincipalOrResourceConstraint::Eq(named) => is_target(given, named.uid_or_bound(bound)),
        PrincipalOrResourceConstraint::In(named) => is_in_target(given, named.uid_or_bound(bound)),
        PrincipalOrResourceConstraint::Is(ty) => Some(given.is_of(ty)),
        PrincipalOrResourceConstraint::IsIn(ty, named) => {
            if given.is_of(ty) {
                is_in_target(given, named.uid_or_bound(bound))
            } else {
                Some(false)
            }
        }
    }
}

// Whether an entity is as a scope asks of the action.
fn meets_action(given: &GivenEntity<'_, '_>, constraint: &ActionConstraint) -> bool
    ensures { result ≡ action_meets (λ a. is_within_entity given.now.uid.now (option_copied given.now.entity)) (action_of constraint.now) given.now.uid.now }
{
    match constraint {
        ActionConstraint::Any => true,
        ActionConstraint::Eq(uid) => given.is(uid),
        ActionConstraint::In(uids) => is_in_some(given, uids),
    }
}

// What a scope asks where no entity is given: decided where it asks nothing.
fn without_entity(constraint: &PrincipalOrResourceConstraint) -> Option<bool>
    ensures { result ≡ unasked (constraint_of constraint.now) }
{
    match constraint {
        PrincipalOrResourceConstraint::Any => Some(true),
        PrincipalOrResourceConstraint::Eq(_)
        | PrincipalOrResourceConstraint::In(_)
        | PrincipalOrResourceConstraint::Is(_)
        | PrincipalOrResourceConstraint::IsIn(_, _) => None,
    }
}

// What a scope asks of the principal or of the resource, as far as it is decided.
#[inline(always)]
fn part_meets(
    given: &Option<GivenEntity<'_, '_>>,
    constraint: &PrincipalOrResourceConstraint,
    bound: Option<&EntityUID>,
) -> Option<bool>
    ensures { WhereGiven given.now (option_copied bound.entry) (λ facts holds v s. IsDecided facts holds (constraint_tree v s (constraint_of constraint.now)) result) }
{
    match given {
        Some(entity) => meets(entity, constraint, bound),
        None => without_entity(constraint),
    }
}

// Whether the slot that a scope names, if it does, is bound.
#[inline(always)]
fn is_settled(constraint: &PrincipalOrResourceConstraint, bound: Option<&EntityUID>) -> bool
    ensures { result ≡ is_settled (option_copied bound.entry) (constraint_of constraint.now) }
{
    match constraint {
        PrincipalOrResourceConstraint::Any | PrincipalOrResourceConstraint::Is(_) => true,
        PrincipalOrResourceConstraint::Eq(named)
        | PrincipalOrResourceConstraint::In(named)
        | PrincipalOrResourceConstraint::IsIn(_, named) => named.uid_or_bound(bound).is_some(),
    }
}

// Whether `part_meets` tells of it.
#[inline(always)]
fn is_part_told(
    given: &Option<GivenEntity<'_, '_>>,
    constraint: &PrincipalOrResourceConstraint,
    bound: Option<&EntityUID>,
) -> bool
    ensures { WhereGiven given.now (option_copied bound.entry) (λ facts holds v s. result ≡ true → IsTold facts holds (constraint_tree v s (constraint_of constraint.now))) }
{
    match given {
        Some(_) => is_settled(constraint, bound),
        None => without_entity(constraint).is_some(),
    }
}

// What a scope asks of the action, as far as it is decided.
fn action_meets(given: &Option<GivenEntity<'_, '_>>, constraint: &ActionConstraint) -> Option<bool>
    ensures { (facts : Facts) (store : Store) (holds : LeafAnswers) → HasFacts store facts → IsGivenAs store (holds.variable Action) given.now → IsDecided facts holds (action_tree (action_of constraint.now)) result }
{
    match given {
        Some(entity) => Some(meets_action(entity, constraint)),
        None => match constraint {
            ActionConstraint::Any => Some(true),
            ActionConstraint::Eq(_) | ActionConstraint::In(_) => None,
        },
    }
}

impl<'v> Scopes<'v> {
    /// What the request of an evaluator over these entities gives. Nothing is looked up, and no memory taken.
    pub(crate) fn new<F: ExtensionFunctionObject>(
        entities: &Entities,
        evaluator: &'v Evaluator<'_, '_, '_, F>,
    ) -> Scopes<'v>
        ensures { (i : Inquiry) (store : Store) (table : Table) (depth : ℕ) → IsEvaluatorOf F.answers i store table depth evaluator.now → AreScopesOf i store result }
    {
        if entities.is_partial() {
            return Scopes {
                principal: None,
                action: None,
                resource: None,
            };
        }
        Scopes {
            principal: evaluator.given_entity(Var::Principal),
            action: evaluator.given_entity(Var::Action),
            resource: evaluator.given_entity(Var::Resource),
        }
    }

    #[inline(always)]
    fn principal_meets(&self, policy: &Policy) -> Option<bool>
        ensures { Decides self.now policy.now principal_asked result }
    {
        let constraint = policy.template().principal_constraint();
        let bound = policy.env().get(&SlotId::principal());
        part_meets(&self.principal, constraint.as_inner(), bound)
    }

    #[inline(always)]
    fn action_meets(&self, policy: &Policy) -> Option<bool>
        ensures { Decides self.now policy.now action_asked result }
    {
        action_meets(&self.action, policy.action_constraint())
    }

    #[inline(always)]
    fn resource_meets(&self, policy: &Policy) -> Option<bool>
        ensures { Decides self.now policy.now resource_asked result }
    {
        let constraint = policy.template().resource_constraint();
        let bound = policy.env().get(&SlotId::resource());
        part_meets(&self.resource, constraint.as_inner(), bound)
    }

    // Whether it is told of the principal that it is as the scope asks, or that it isn't. Nothing is looked up.
    #[inline(always)]
    fn is_principal_told(&self, policy: &Policy) -> bool
        ensures { WhereAsked self.now policy.now (λ facts holds. result ≡ true → IsTold facts holds (principal_asked policy.now)) }
    {
        let constraint = policy.template().principal_constraint();
        let bound = policy.env().get(&SlotId::principal());
        is_part_told(&self.principal, constraint.as_inner(), bound)
    }

    /// Whether the scope of a policy holds, read from the left: the principal, the action, the resource. Not
    /// said where the request doesn't give what decides it.
    // The action is looked at first: of the policies that are found by the principal most ask for another one.
    #[inline(always)]
    pub(crate) fn hold(&self, policy: &Policy) -> Option<bool>
        ensures { Decides self.now policy.now scope_asked result }
    {
        match self.action_meets(policy) {
            Some(true) => self.hold_for_action(policy),
            Some(false) => self.fail_for_action(policy),
            None => self.hold_by_principal(policy),
        }
    }

    // The same of a policy whose scope the action meets.
    #[inline(always)]
    fn hold_for_action(&self, policy: &Policy) -> Option<bool>
        ensures { WhereAsked self.now policy.now (λ facts holds. IsDecided facts holds (action_asked policy.now) (Some true) → IsDecided facts holds (scope_asked policy.now) result) }
    {
        match self.principal_meets(policy) {
            Some(true) => self.resource_meets(policy),
            Some(false) => Some(false),
            None => None,
        }
    }

    // The same of a policy whose scope the action doesn't meet: false, once the principal before it is told.
    #[inline(always)]
    fn fail_for_action(&self, policy: &Policy) -> Option<bool>
        ensures { WhereAsked self.now policy.now (λ facts holds. IsDecided facts holds (action_asked policy.now) (Some false) → IsDecided facts holds (scope_asked policy.now) result) }
    {
        if self.is_principal_told(policy) {
            Some(false)
        } else {
            None
        }
    }

    // The same where the action isn't told: the principal alone decides, where it doesn't meet the scope.
    fn hold_by_principal(&self, policy: &Policy) -> Option<bool>
        ensures { Decides self.now policy.now scope_asked result }
    {
        match self.principal_meets(policy) {
            Some(false) => Some(false),
            Some(true) | None => None,
        }
    }
}
