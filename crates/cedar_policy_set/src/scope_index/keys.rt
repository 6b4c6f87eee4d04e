// By which entity of its scope a policy is found.
ghost use Rattle.std.specs.Prelude.{◌≡◌};
ghost use Rattle.std.specs.Option.{option_copied};
ghost use Rattle.cedar_policy_parts.specs.Actions.{action_of};
ghost use Rattle.cedar_policy_parts.specs.Asked.{constraint_of};
ghost use Rattle.cedar_policies.specs.Policies.{bindings_of, policy_syntax};
ghost use Rattle.cedar_policy_set.specs.ScopeNaming.{named_action};
ghost use Rattle.cedar_policy_set.specs.ScopeKeys.{IsAskedAs, IsKey};

use cedar_literals::slots::SlotId;
use cedar_literals::uids::EntityUID;
use cedar_policies::policies::Policy;
use cedar_policy_parts::actions::ActionConstraint;
use cedar_policy_parts::constraints::PrincipalOrResourceConstraint;

// What a scope asks of the principal, or of the resource.
#[derive(Drop)]
pub(crate) enum Asked<'p> {
    // that it is this
    Equal(&'p EntityUID),
    // that it is in this
    Within(&'p EntityUID),
    // nothing by an entity
    Unnamed,
    // what its slot is bound to, which is bound to nothing
    Open,
}

// The entity by which a policy is found, and where its scope names it; or two of them.
#[derive(Drop)]
pub(crate) enum Key<'p> {
    Principal(&'p EntityUID),
    Action(&'p EntityUID),
    Resource(&'p EntityUID),
    // both, of which either will do
    Pair(&'p EntityUID, &'p EntityUID),
    Nothing,
}

fn asked_by<'p>(
    constraint: &'p PrincipalOrResourceConstraint,
    bound: Option<&'p EntityUID>,
) -> Asked<'p>
    ensures { IsAskedAs (option_copied bound.entry) (constraint_of constraint.now) result }
{
    match constraint {
        PrincipalOrResourceConstraint::Any | PrincipalOrResourceConstraint::Is(_) => Asked::Unnamed,
        PrincipalOrResourceConstraint::Eq(named) => match named.uid_or_bound(bound) {
            Some(uid) => Asked::Equal(uid),
            None => Asked::Open,
        },
        PrincipalOrResourceConstraint::In(named) | PrincipalOrResourceConstraint::IsIn(_, named) =>
            match named.uid_or_bound(bound) {
                Some(uid) => Asked::Within(uid),
                None => Asked::Open,
            },
    }
}

// The action that a scope names, where it names one alone.
fn the_action(constraint: &ActionConstraint) -> Option<&EntityUID>
    ensures { option_copied result ≡ named_action (action_of constraint.now) }
{
    let mut uids = constraint.iter_euids();
    match (uids.next(), uids.next()) {
        (Some(uid), None) => Some(uid.as_ref()),
        _ => None,
    }
}

// What says most comes first: what one variable is, then what one is in, then the action. A policy for all in a group
// and one resource has two keys, so that it is found by the principal where the resource isn't known.
pub(crate) fn key_of(policy: &Policy) -> Key<'_>
    ensures { IsKey (bindings_of policy.now) (policy_syntax policy.now) result }
{
    let template = policy.template();
    let bindings = policy.env();
    let principal = asked_by(
        template.principal_constraint().as_inner(),
        bindings.get(&SlotId::principal()),
    );
    let resource = asked_by(
        template.resource_constraint().as_inner(),
        bindings.get(&SlotId::resource()),
    );
    match (principal, resource) {
        (Asked::Open, _) => Key::Nothing,
        (Asked::Equal(uid), _) => Key::Principal(uid),
        (Asked::Within(group), Asked::Equal(resource)) => Key::Pair(group, resource),
        (Asked::Within(uid), _) => Key::Principal(uid),
        (Asked::Unnamed, Asked::Equal(uid) | Asked::Within(uid)) => Key::Resource(uid),
        (Asked::Unnamed, Asked::Unnamed | Asked::Open) => {
            match the_action(template.action_constraint()) {
                Some(uid) => Key::Action(uid),
                None => Key::Nothing,
            }
        }
    }
}
