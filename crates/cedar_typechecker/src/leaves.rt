// The types of leaves.
ghost use Rattle.std.specs.Prelude.{◌≡◌, Option};
ghost use Rattle.cedar_literals.specs.Literals.{literal_of};
ghost use Rattle.cedar_literals.specs.Variables.{variable_of};
ghost use Rattle.cedar_typing.specs.Schema.{is_action_type};
ghost use Rattle.cedar_typing.specs.Results.{plainly};
ghost use Rattle.cedar_typing.specs.Leaves as typing;
ghost use Rattle.cedar_typechecker.specs.Results.{fault_view, FindsType};

use crate::environment::RequestEnv;
use crate::faults::{TypingError, TypingFault};
use crate::types::{BoolType, ExprType};
use cedar_literals::literals::Literal;
use cedar_literals::slots::SlotId;
use cedar_literals::uids::{EntityType, EntityUID};
use cedar_literals::variables::Var;
use std::alloc::Global;

// Whether it is the type of actions.
fn is_action(name: &EntityType) -> bool
    ensures { result ≡ is_action_type name.now }
{
    name.is_action()
}

// What is told of an entity that isn't listed.
fn unlisted(name: &EntityType) -> TypingFault
    ensures { fault_view result ≡ typing.unlisted name.now }
{
    if is_action(name) {
        TypingFault::UnrecognizedActionId
    } else {
        TypingFault::InvalidEnumEntity
    }
}

// What is told of an entity whose type isn't declared.
fn undeclared(name: &EntityType) -> TypingFault
    ensures { fault_view result ≡ typing.undeclared name.now }
{
    if is_action(name) {
        TypingFault::UnrecognizedActionId
    } else {
        TypingFault::UnrecognizedEntityType
    }
}

fn uid_type<E: RequestEnv>(env: &E, alloc: Global, uid: &EntityUID) -> Result<ExprType, TypingError>
    ensures { FindsType (typing.uid_type (E.environment env.now).schema ((E.environment env.now).schema.entity uid.now.type_name) uid.now) result }
{
    let name = uid.entity_type();
    if env.entity(name).is_none() {
        return Err(TypingError::Faulty(undeclared(name)));
    }
    if !env.may_name(uid)? {
        return Err(TypingError::Faulty(unlisted(name)));
    }
    Ok(ExprType::Entity(name.clone(alloc)?))
}

/// The type of a literal: an entity must be one that a policy may name.
pub(crate) fn literal_type<E: RequestEnv>(
    env: &E,
    alloc: Global,
    literal: &Literal,
) -> Result<ExprType, TypingError>
    ensures { FindsType (typing.literal_type (E.environment env.now).schema (literal_of literal.now)) result }
{
    match literal {
        Literal::Bool(b) => Ok(ExprType::Boolean(BoolType::known(*b))),
        Literal::Long(_) => Ok(ExprType::Long),
        Literal::String(_) => Ok(ExprType::String),
        Literal::EntityUID(uid) => uid_type(env, alloc, uid),
    }
}

/// The type of a variable.
pub(crate) fn variable_type<E: RequestEnv>(
    env: &E,
    alloc: Global,
    var: Var,
) -> Result<ExprType, TypingError>
    ensures { FindsType (plainly (typing.variable_type (E.environment env.now) (variable_of var))) result }
{
    match var {
        Var::Principal => Ok(ExprType::Entity(env.principal().clone(alloc)?)),
        Var::Action => Ok(ExprType::Entity(env.action().entity_type().clone(alloc)?)),
        Var::Resource => Ok(ExprType::Entity(env.resource().clone(alloc)?)),
        Var::Context => Ok(ExprType::Record(env.context().clone()?)),
    }
}

/// The type of a slot, which must be bound.
pub(crate) fn slot_type<E: RequestEnv>(
    env: &E,
    alloc: Global,
    slot: SlotId,
) -> Result<ExprType, TypingError>
    ensures { FindsType (typing.slot_type ((E.environment env.now).slot slot)) result }
{
    match env.slot(slot) {
        Some(name) => Ok(ExprType::Entity(name.clone(alloc)?)),
        None => Err(TypingError::Faulty(TypingFault::UnboundSlot)),
    }
}
