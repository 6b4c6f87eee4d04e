// The types of `==` and `in`.
ghost use Rattle.std.specs.Prelude.{◌≡◌, [], ◌∷◌, IfOk, map};
ghost use Rattle.std.specs.Option.{option_map, option_copied};
ghost use Rattle.cedar_language.specs.Order.{same};
ghost use Rattle.cedar_language.specs.Tree.{no_trees, a_tree};
ghost use Rattle.cedar_language.specs.Value.{Plain};
ghost use Rattle.cedar_grammar.specs.Build.{trees};
ghost use Rattle.cedar_literals.specs.Literals.{literal_of};
ghost use Rattle.cedar_trees.specs.Bare.{bare};
ghost use Rattle.cedar_typing.specs.Relations as typing;
ghost use Rattle.cedar_typing.specs.Results.{plainly};
ghost use Rattle.cedar_typing.specs.Types.{lub as least};
ghost use Rattle.cedar_typechecker.specs.Types.{type_view};
ghost use Rattle.cedar_typechecker.specs.Relations.{uid_in, reached_in, items_in};
ghost use Rattle.cedar_typechecker.specs.Results.{FindsType};

use crate::environment::RequestEnv;
use crate::faults::{TypingError, TypingFault};
use crate::types::{BoolType, ExprType};
use cedar_literals::literals::Literal;
use cedar_literals::uids::{EntityType, EntityUID};
use cedar_literals::variables::Var;
use cedar_trees::expr::{Expr, ExprKind};
use std::alloc::{AllocError, Global};
use std::rc::Rc;

// The literal that an operand is, whatever the question; refused for memory alone.
fn constant<E: RequestEnv>(env: &E, expr: &Expr) -> Result<Option<Literal>, AllocError>
    ensures { IfOk result (λ found. option_map literal_of found ≡ typing.constant (E.environment env.now) (bare expr.now)) }
{
    match &expr.expr_kind {
        ExprKind::Lit(literal) => Ok(Some(literal.clone()?)),
        ExprKind::Var(Var::Action) => Ok(Some(Literal::EntityUID(env.action().clone()?))),
        _ => Ok(None),
    }
}

// The type of `==` by the types of its operands: entities of two types are never one, and other values of two types are not
// compared.
#[tactic(auto, using(crate::proofs::Reaching::compared, crate::proofs::Reaching::not_compared, crate::proofs::Reaching::unlike_first, crate::proofs::Reaching::unlike_second, crate::proofs::Reaching::unlike_both))]
fn equal_by_types(alloc: Global, left: &ExprType, right: &ExprType) -> Result<ExprType, TypingError>
    ensures { FindsType (typing.equal_by_types (least (type_view left.now) (type_view right.now))
        (type_view left.now) (type_view right.now)) result }
{
    if let Some(_) = left.lub(alloc, right)? {
        return Ok(ExprType::Boolean(BoolType::Unsure));
    }
    let Some(_) = left.as_entity() else {
        return Err(TypingError::Faulty(TypingFault::IncompatibleTypes));
    };
    let Some(_) = right.as_entity() else {
        return Err(TypingError::Faulty(TypingFault::IncompatibleTypes));
    };
    Ok(ExprType::Boolean(BoolType::AlwaysFalse))
}

fn same_literal(left: &Literal, right: &Literal) -> bool
    ensures { result ≡ same (Plain (literal_of left.now)) (Plain (literal_of right.now)) }
{
    left == right
}

/// The type of `left == right`, by those of both: known of two constants.
#[tactic(auto, using(crate::proofs::Reaching::no_constant, crate::proofs::Reaching::one_constant, crate::proofs::Reaching::two_constants))]
pub(crate) fn equal_type<E: RequestEnv>(
    env: &E,
    alloc: Global,
    left: &Expr,
    right: &Expr,
    left_type: &ExprType,
    right_type: &ExprType,
) -> Result<ExprType, TypingError>
    ensures { FindsType (typing.equal_type (E.environment env.now) (a_tree (bare left.now) (a_tree (bare right.now) no_trees))
        (type_view left_type.now ∷ type_view right_type.now ∷ [])) result }
{
    let Some(left) = constant(env, left)? else {
        return equal_by_types(alloc, left_type, right_type);
    };
    let Some(right) = constant(env, right)? else {
        return equal_by_types(alloc, left_type, right_type);
    };
    Ok(ExprType::Boolean(BoolType::known(same_literal(&left, &right))))
}

// The type of `in` by the types of entities: never where entities of the first type have no ancestors of the second.
fn within_type<E: RequestEnv>(
    env: &E,
    descendant: &EntityType,
    ancestor: &EntityType,
) -> Result<ExprType, AllocError>
    ensures { IfOk result (λ t. plainly (type_view t)
        ≡ typing.within_type (E.environment env.now).schema descendant.now ancestor.now) }
{
    if descendant == ancestor || env.may_reach(descendant, ancestor)? {
        Ok(ExprType::Boolean(BoolType::Unsure))
    } else {
        Ok(ExprType::Boolean(BoolType::AlwaysFalse))
    }
}

// The entity that an operand is, whatever the question.
fn constant_entity<'a, E: RequestEnv>(env: &'a E, expr: &'a Expr) -> Option<&'a Rc<EntityUID>>
    ensures { option_map (λ uid. uid.now.value) result ≡ uid_in (typing.constant (E.environment env.now) (bare expr.now)) }
{
    match &expr.expr_kind {
        ExprKind::Lit(Literal::EntityUID(uid)) => Some(uid),
        ExprKind::Var(Var::Action) => Some(env.action()),
        _ => None,
    }
}

// Whether the action is another or below it.
fn is_action_within<E: RequestEnv>(
    env: &E,
    action: &EntityUID,
    ancestor: &EntityUID,
) -> Result<bool, AllocError>
    ensures { IfOk result (λ is_within. is_within ≡ typing.action_is_within (E.environment env.now).schema action.now ancestor.now) }
{
    if action == ancestor {
        return Ok(true);
    }
    env.action_reaches(action, ancestor)
}

// The items of a set that is written.
fn items_of(expr: &Expr) -> Option<&[Expr]>
    ensures { option_map (λ items. trees (map bare items.now)) result ≡ items_in (bare expr.now) }
{
    match &expr.expr_kind {
        ExprKind::Set(items) => Some(items.as_slice()),
        _ => None,
    }
}

// Whether the action is one of these entities or below one; none where one of them isn't a constant.
#[tactic(auto, using(crate::proofs::Reaching::reaches_more, crate::proofs::Reaching::reaches_none, crate::proofs::Reaching::reaches_end))]
fn is_action_within_items<E: RequestEnv>(
    env: &E,
    action: &EntityUID,
    items: &[Expr],
) -> Result<Option<bool>, AllocError>
    ensures { IfOk result (λ found. found ≡ option_map (typing.action_is_within_some (E.environment env.now).schema action.now)
        (typing.entities_in (E.environment env.now) (trees (map bare items.now)))) }
{
    let mut is_within = false;
    for item in items {
        let Some(uid) = constant_entity(env, item) else {
            return Ok(None);
        };
        let is_within_this = is_action_within(env, action, uid)?;
        is_within = is_within || is_within_this;
    }
    Ok(Some(is_within))
}

// Whether the action is one of the entities that a right operand lists, or below one; none where it lists none.
#[tactic(auto, using(crate::proofs::Reaching::lists_items, crate::proofs::Reaching::lists_one, crate::proofs::Reaching::lists_none))]
fn is_action_within_listed<E: RequestEnv>(
    env: &E,
    action: &EntityUID,
    right: &Expr,
) -> Result<Option<bool>, AllocError>
    ensures { IfOk result (λ found. found ≡ option_map (typing.action_is_within_some (E.environment env.now).schema action.now)
        (typing.listed (E.environment env.now) (bare right.now))) }
{
    if let Some(items) = items_of(right) {
        return is_action_within_items(env, action, items);
    }
    match constant_entity(env, right) {
        Some(uid) => Ok(Some(is_action_within(env, action, uid)?)),
        None => Ok(None),
    }
}

// The type of `in` of operands of these types of entities: known of an action in listed entities.
#[tactic(auto, using(crate::proofs::Reaching::an_action, crate::proofs::Reaching::no_action, crate::proofs::Reaching::no_entity))]
fn entities_type<E: RequestEnv>(
    env: &E,
    left: &Expr,
    right: &Expr,
    descendant: &EntityType,
    ancestor: &EntityType,
) -> Result<ExprType, AllocError>
    ensures { IfOk result (λ t. plainly (type_view t) ≡ typing.in_entities (E.environment env.now)
        (a_tree (bare left.now) (a_tree (bare right.now) no_trees)) descendant.now ancestor.now) }
{
    let Some(action) = constant_entity(env, left) else {
        return within_type(env, descendant, ancestor);
    };
    if !env.is_action(action) {
        return within_type(env, descendant, ancestor);
    }
    match is_action_within_listed(env, action, right)? {
        Some(is_within) => Ok(ExprType::Boolean(BoolType::known(is_within))),
        None => within_type(env, descendant, ancestor),
    }
}

// The type of the entities that a right operand of `in` is or has, if it is one or has such elements alone.
#[tactic(auto, using(crate::proofs::Reaching::reached_element, crate::proofs::Reaching::reached_itself))]
fn reached_type(right_type: &ExprType) -> Option<&EntityType>
    ensures { option_copied result ≡ reached_in (type_view right_type.now) }
{
    match right_type.as_element() {
        Some(element) => element.as_entity(),
        None => right_type.as_entity(),
    }
}

/// The type of `left in right`, by those of both: of an entity, and an entity or a set of one entity type.
#[tactic(auto, using(crate::proofs::Reaching::in_of, crate::proofs::Reaching::in_of_none, crate::proofs::Reaching::in_of_one))]
pub(crate) fn in_type<E: RequestEnv>(
    env: &E,
    left: &Expr,
    right: &Expr,
    left_type: &ExprType,
    right_type: &ExprType,
) -> Result<ExprType, TypingError>
    ensures { FindsType (typing.in_type (E.environment env.now) (a_tree (bare left.now) (a_tree (bare right.now) no_trees))
        (type_view left_type.now ∷ type_view right_type.now ∷ [])) result }
{
    let Some(descendant) = left_type.as_entity() else {
        return Err(TypingError::Faulty(TypingFault::UnexpectedType));
    };
    let Some(ancestor) = reached_type(right_type) else {
        return Err(TypingError::Faulty(TypingFault::UnexpectedType));
    };
    Ok(entities_type(env, left, right, descendant, ancestor)?)
}
