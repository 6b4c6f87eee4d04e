// The templates and policies of the set at hand, and what is made of them.
use crate::sets::Sets;
use cedar_extensions::extensions::Extensions;
use cedar_literals::slots::Slot;
use cedar_names::conversions::FromIn;
use cedar_policies::linking::TemplateLinks;
use cedar_policies::policies::Policy;
use cedar_policies::static_policies::StaticPolicy;
use cedar_policies::templates::Template;
use cedar_policy_parts::actions::ActionConstraint;
use cedar_policy_parts::bindings::SlotEnv;
use cedar_policy_parts::constraints::PrincipalOrResource;
use cedar_policy_parts::errors::UnexpectedSlotError;
use cedar_policy_parts::resources::ResourceConstraint;
use cedar_policy_parts::{ExpectedStaticPolicy, PolicyID};
use cedar_policy_set::sets::PolicySet;
use cedar_rows::{Answer, append, no_case, show};
use std::alloc::{AllocError, Global};
use std::convert::AsStr;
use std::rc::Rc;

/// What is asked of the template of this id, or made of a copy of it.
pub(crate) fn of_template(
    alloc: Global,
    verb: &str,
    id: &str,
    table: &Extensions<'_>,
    held: &Sets,
) -> Answer {
    let Some(template) = held.set.get_template(&PolicyID::from_string(alloc, id)?) else {
        return no_case(alloc);
    };
    let id = PolicyID::from_string(alloc, "z")?;
    match verb {
        "condition" => show(alloc, template.condition(alloc)),
        "renamed" => show(alloc, template.new_id(alloc, id)),
        "copied" => show(alloc, template.clone(alloc)),
        "of-body" => show(
            alloc,
            Template::from_in(alloc, template.body().clone(alloc)?),
        ),
        "as-static" => show(alloc, StaticPolicy::try_from(template.clone(alloc)?)),
        "as-policy" => {
            let shared = Rc::new(alloc, template.clone(alloc)?)?;
            show(alloc, Template::try_as_policy(shared))
        }
        "validate" => match template.try_validate(alloc, table) {
            Ok(()) => String::from_str(alloc, "valid"),
            Err(error) => show(alloc, error.clone(alloc)),
        },
        "annotations" => show(alloc, template.annotations().clone(alloc)),
        "action-types" => action_types(alloc, template),
        "unlinked" => unlinked(alloc, template),
        "displayed" => {
            let constraint = template.principal_constraint().clone(alloc)?.into_inner();
            constraint.display(alloc, PrincipalOrResource::Resource)
        }
        "made-static" => show(alloc, made_static(alloc, template)),
        "principal" => show(alloc, template.body().principal_constraint_expr(alloc)),
        "action" => show(alloc, template.body().action_constraint_expr(alloc)),
        "resource" => show(alloc, template.body().resource_constraint_expr(alloc)),
        _ => of_static(alloc, verb, StaticPolicy::try_from(template.clone(alloc)?)),
    }
}

/// The static policy of the template's effect and of scopes that name nothing but its principal.
fn made_static(alloc: Global, template: &Template) -> Result<StaticPolicy, UnexpectedSlotError> {
    let id = PolicyID::from_string(alloc, "z")?;
    StaticPolicy::new(
        alloc,
        id,
        None,
        template.annotations().clone(alloc)?,
        template.effect(),
        template.principal_constraint().clone(alloc)?,
        ActionConstraint::any(),
        ResourceConstraint::any(),
        None,
    )
}

/// What is told of the types of actions in the template's scope.
fn action_types(alloc: Global, template: &Template) -> Answer {
    let constraint = template.action_constraint().clone(alloc)?;
    match constraint.contains_only_action_types(alloc) {
        Ok(constraint) => constraint.to_string(alloc),
        Err(error) => show(alloc, error.clone(alloc)),
    }
}

/// What is told where the template is linked with no entities.
fn unlinked(alloc: Global, template: &Template) -> Answer {
    let shared = Rc::new(alloc, template.clone(alloc)?)?;
    match Template::link(
        alloc,
        shared,
        PolicyID::from_string(alloc, "z")?,
        SlotEnv::new(),
    ) {
        Ok(policy) => policy.to_string(alloc),
        Err(error) => show(alloc, error.clone(alloc)),
    }
}

/// What is made of the static policy that a template is.
fn of_static(alloc: Global, verb: &str, own: Result<StaticPolicy, UnexpectedSlotError>) -> Answer {
    let Ok(own) = own else {
        return no_case(alloc);
    };
    match verb {
        "static-copied" => show(alloc, own.clone(alloc)),
        "static-renamed" => show(alloc, own.new_id(alloc, PolicyID::from_string(alloc, "z")?)),
        "static-condition" => show(alloc, own.condition(alloc)),
        "static-policy" => show(alloc, Policy::from_in(alloc, own)),
        "static-alone" => show(
            alloc,
            PolicySet::singleton(alloc, Policy::from_in(alloc, own)?),
        ),
        "static-template" => show(alloc, Rc::<Template>::from_in(alloc, own)),
        "static-linked" => match Template::link_static_policy(alloc, own) {
            Ok((_template, policy)) => policy.to_string(alloc),
            Err(error) => Err(error),
        },
        _ => no_case(alloc),
    }
}

/// The link under the id `m` of a link's template under the id `z`; none of a static policy.
fn relinked(alloc: Global, policy: &Policy) -> Answer {
    if policy.is_static() {
        return no_case(alloc);
    }
    let id = PolicyID::from_string(alloc, "z")?;
    let template = Rc::new(alloc, policy.template().new_id(alloc, id)?)?;
    show(
        alloc,
        policy.relink(alloc, template, PolicyID::from_string(alloc, "m")?),
    )
}

/// The entities that the policy has as unknowns.
fn unknowns(alloc: Global, policy: &Policy) -> Answer {
    let mut text = String::new(alloc);
    for uid in &policy.unknown_entities(alloc)? {
        append(&mut text, uid.to_string(alloc))?;
    }
    Ok(text)
}

fn lent<T: AsStr>(alloc: Global, value: &T) -> Answer {
    String::from_str(alloc, value.as_str())
}

/// What is asked of the policy of this id, or told where a static policy was expected.
pub(crate) fn of_policy(alloc: Global, verb: &str, id: &str, held: &Sets) -> Answer {
    let Some(policy) = held.set.get(&PolicyID::from_string(alloc, id)?) else {
        return no_case(alloc);
    };
    match verb {
        "id-text" => lent(alloc, policy.id()),
        "relinked" => relinked(alloc, policy),
        "bindings" => policy.env().to_string(alloc),
        "condition" => show(alloc, policy.condition(alloc)),
        "principal" => show(alloc, policy.principal_constraint(alloc)),
        "resource" => show(alloc, policy.resource_constraint(alloc)),
        "unknowns" => unknowns(alloc, policy),
        "unexpected" => unexpected(alloc, policy.template().slots()),
        _ => no_case(alloc),
    }
}

/// What is told of the first slot where a static policy was expected.
fn unexpected(alloc: Global, slots: &[Slot]) -> Answer {
    let error = match slots.first() {
        Some(slot) => UnexpectedSlotError::FoundSlot(Slot {
            id: slot.id,
            loc: None,
        }),
        None => UnexpectedSlotError::Memory(AllocError),
    };
    show(alloc, ExpectedStaticPolicy::try_from(error))
}
