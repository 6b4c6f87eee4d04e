// Entities, lists of them, and which are actions.
ghost use Rattle.std.specs.Prelude.{◌≡◌, ◌⊎◌, ◌++◌, ◌∷◌, [], List, Option, Some, IfOk, IfErr, MatchOption, filter, map};
ghost use Rattle.std.specs.Option.{option_map};
ghost use Rattle.cedar_language.specs.Uid.{Uid};
ghost use Rattle.cedar_grammar.specs.Policies.{ends_in_action};
ghost use Rattle.cedar_grammar.specs.Loose as loose;
ghost use Rattle.cedar_grammar.specs.Converting.{each, action, actions_among};
ghost use Rattle.cedar_grammar.specs.Converting as converting;
ghost use Rattle.cedar_policy_parts.specs.Actions.{held_uids};
ghost use Rattle.cedar_cst.specs.View.{shown_expr, shown_primary};
ghost use Rattle.cedar_faults.specs.Reasons.{IsFault};
ghost use Rattle.cedar_faults.specs.Converts.{and_then, Finds};
ghost use Rattle.cedar_faults.specs.Telling.{Told, TellsOnly};
ghost use Rattle.cedar_policy_conversion.specs.Entities.{primary_entity, entity, as_action, refs_of};
ghost use Rattle.cedar_policy_conversion.specs.Entities as entities;
ghost use Rattle.cedar_policy_conversion.specs.PartsShow.{no_actions_show, primary_entity_shows, entity_shows, entities_show, action_shows, actions_show};

use crate::misfits::{ENTITY, ENTITY_OR_SET, no_entity, no_list, no_primary, other_slot};
use crate::parentheses::inside_parens;
use cedar_conversion::{alone, to_ref};
use cedar_cst::cst::{Expr, Primary};
use cedar_cst::node::Node;
use cedar_faults::{ConversionError, ToASTErrorKind, flatten_tuple_2};
use cedar_literals::uids::EntityUID;
use cedar_literals::variables::Var;
use cedar_names::places::Loc;
use cedar_policy_parts::{InvalidActionType, Ref};
use cedar_trees::unknowns::NonEmpty;
use either::Either;
use std::alloc::{AllocError, Global};
use std::rc::Rc;

/// What a scope compares the action with by `in`: one entity, or a list of them. Contracts see them in
/// their order.
#[derive(Debug, Drop)]
pub enum OneOrMultipleRefs {
    /// One entity, without brackets.
    Single(EntityUID),
    /// A list between brackets.
    Multiple(Vec<EntityUID>),
}

impl OneOrMultipleRefs {
    /// The entities, in their order; refused for memory alone.
    pub fn into_euids(self, alloc: Global) -> Result<Vec<Rc<EntityUID>>, AllocError>
        ensures { IfOk result (λ euids. held_uids euids.items ≡ refs_of self) }
    {
        match self {
            OneOrMultipleRefs::Single(uid) => {
                let mut euids = Vec::new(alloc);
                euids.push(Rc::new(alloc, uid)?)?;
                Ok(euids)
            }
            OneOrMultipleRefs::Multiple(uids) => shared(alloc, uids),
        }
    }
}

fn shared(alloc: Global, uids: Vec<EntityUID>) -> Result<Vec<Rc<EntityUID>>, AllocError>
    ensures { IfOk result (λ euids. held_uids euids.items ≡ uids.items) }
{
    let mut euids = Vec::new(alloc);
    for uid in uids {
        euids.push(Rc::new(alloc, uid)?)?;
    }
    Ok(euids)
}

// Whether the last identifier of its type is `Action`.
fn is_action(uid: &EntityUID) -> bool
    ensures { result ≡ ends_in_action uid.now.type_name }
{
    uid.is_action()
}

// The entity that a primary is.
fn primary_to_entity<E: Drop>(
    alloc: Global,
    node: &Node<Option<Primary>>,
    expected: &'static str,
) -> Result<EntityUID, ConversionError<E>>
    ensures entity { Finds (λ uid. uid) result (primary_entity (shown_primary node.now)) }
    ensures shown { IfErr result (λ error. TellsOnly error (primary_entity_shows (shown_primary node.now))) }
{
    match &node.node {
        None => Err(ConversionError::missing(alloc, node.loc())),
        Some(primary) => match primary {
            Primary::Ref(entity) => to_ref(alloc, entity),
            Primary::Slot(slot) => match &slot.node {
                Some(slot) => Err(other_slot(alloc, slot, &Var::Action, expected, node.loc())),
                None => Err(ConversionError::missing(alloc, node.loc())),
            },
            Primary::EList(_) => Err(no_list(alloc, Either::Left(Ref::Single), node.loc())),
            Primary::Literal(_) => Err(no_entity(alloc, node, expected)),
            Primary::Name(_) => Err(no_entity(alloc, node, expected)),
            Primary::Expr(_) => Err(no_entity(alloc, node, expected)),
            Primary::RInits(_) => Err(no_entity(alloc, node, expected)),
        },
    }
}

// The entity that stands alone in any number of parentheses.
fn to_entity<E: Drop>(
    alloc: Global,
    node: &Node<Option<Expr>>,
    expected: &'static str,
) -> Result<EntityUID, ConversionError<E>>
    ensures entity { Finds (λ uid. uid) result (entity (shown_expr node.now)) }
    ensures shown { IfErr result (λ error. TellsOnly error (entity_shows (shown_expr node.now))) }
{
    match inside_parens(node) {
        Ok(primary) => primary_to_entity(alloc, primary, expected),
        Err(other) => Err(no_primary(alloc, other, expected)),
    }
}

// The fault of entities that are no actions, at least one.
fn no_actions<E: Drop>(
    head: Rc<EntityUID>,
    tail: Vec<Rc<EntityUID>>,
    alloc: Global,
    loc: Option<&Loc>,
) -> ConversionError<E>
    ensures fault { IsFault result }
    ensures kind { TellsOnly result (λ kind. kind ≡ ToASTErrorKind.InvalidActionType (record { euids = record { head = head; tail = tail } })) }
{
    let euids = NonEmpty { head, tail };
    let kind = ToASTErrorKind::InvalidActionType(InvalidActionType { euids });
    ConversionError::fault(alloc, kind, loc)
}

// The entity, where it is an action.
fn only_action<E: Drop>(
    alloc: Global,
    uid: EntityUID,
    loc: Option<&Loc>,
) -> Result<EntityUID, ConversionError<E>>
    ensures action { Finds (λ u. u) result (as_action uid) }
    ensures shown { IfErr result (λ error. TellsOnly error (no_actions_show (Some (uid ∷ [])))) }
{
    if is_action(&uid) {
        Ok(uid)
    } else {
        Err(no_actions(Rc::new(alloc, uid)?, Vec::new(alloc), alloc, loc))
    }
}

/// The action that stands alone in any number of parentheses; faults where anything else stands, or an
/// entity whose type's last identifier isn't `Action`. (Cedar language reference, "Policy scope".)
pub fn to_action<E: Drop>(
    alloc: Global,
    node: &Node<Option<Expr>>,
) -> Result<EntityUID, ConversionError<E>>
    ensures action { Finds (λ uid. uid) result (action (shown_expr node.now)) }
    ensures shown { IfErr result (λ error. TellsOnly error (action_shows (shown_expr node.now))) }
{
    let uid = to_entity(alloc, node, ENTITY)?;
    only_action(alloc, uid, node.loc())
}

// One more entity at the end, or the faults of all.
fn pushed<E: Drop>(
    uids: Result<Vec<EntityUID>, ConversionError<E>>,
    next: Result<EntityUID, ConversionError<E>>,
) -> Result<Vec<EntityUID>, ConversionError<E>>
    ensures pushed { (v : Option (List Uid)) (w : Option Uid) → Finds (λ us. us.items) uids v → Finds (λ u. u) next w →
        Finds (λ us. us.items) result (and_then v (λ us. and_then w (λ u. Some (us ++ u ∷ [])))) }
    ensures told { IfErr result (λ error. TellsOnly error (λ kind. Told uids kind ⊎ Told next kind)) }
{
    let (mut uids, next) = flatten_tuple_2(uids, next)?;
    uids.push(next)?;
    Ok(uids)
}

// The entities of a list, or the faults of all that are none.
fn to_entities<E: Drop>(
    alloc: Global,
    items: &Vec<Node<Option<Expr>>>,
) -> Result<Vec<EntityUID>, ConversionError<E>>
    ensures entities { Finds (λ uids. uids.items) result (each entity (map shown_expr items.now.items)) }
    ensures shown { IfErr result (λ error. TellsOnly error (entities_show (loose.exprs (map shown_expr items.now.items)))) }
{
    let mut uids = Ok(Vec::new(alloc));
    'items: for item in items {
        let next = to_entity(alloc, item, ENTITY);
        uids = pushed(uids, next);
    }
    uids
}

// Those that are no actions.
fn other_entities(alloc: Global, uids: &Vec<EntityUID>) -> Result<Vec<Rc<EntityUID>>, AllocError>
    ensures { IfOk result (λ others. held_uids others.items ≡ entities.others uids.now.items) }
{
    let mut others = Vec::new(alloc);
    'uids: for uid in uids {
        if !is_action(uid) {
            others.push(Rc::new(alloc, uid.clone(alloc)?)?)?;
        }
    }
    Ok(others)
}

// The entities, where all are actions.
fn only_actions<E: Drop>(
    alloc: Global,
    uids: Vec<EntityUID>,
    loc: Option<&Loc>,
) -> Result<Vec<EntityUID>, ConversionError<E>>
    ensures actions { Finds (λ us. us.items) result (each as_action uids.items) }
    ensures shown { IfErr result (λ error. TellsOnly error (no_actions_show (Some uids.items))) }
{
    let mut others = other_entities(alloc, &uids)?;
    if others.is_empty() {
        return Ok(uids);
    }
    let head = others.remove(0);
    Err(no_actions(head, others, alloc, loc))
}

// The list that an expression is.
fn listed(node: &Node<Option<Expr>>) -> Option<&Vec<Node<Option<Expr>>>>
    ensures { option_map (λ items. loose.exprs (map shown_expr items.now.items)) result ≡ and_then (converting.alone (shown_expr node.now)) entities.listed }
{
    match alone(node) {
        None => None,
        Some(primary) => list_of(primary),
    }
}

fn list_of(node: &Node<Option<Primary>>) -> Option<&Vec<Node<Option<Expr>>>>
    ensures { option_map (λ items. loose.exprs (map shown_expr items.now.items)) result ≡ entities.listed (shown_primary node.now) }
{
    match &node.node {
        None => None,
        Some(primary) => match primary {
            Primary::EList(items) => Some(items),
            Primary::Literal(_) => None,
            Primary::Ref(_) => None,
            Primary::Name(_) => None,
            Primary::Slot(_) => None,
            Primary::Expr(_) => None,
            Primary::RInits(_) => None,
        },
    }
}

/// The action, or the list of actions, that an expression is; faults where anything else stands, of all
/// items of the list, or entities whose type's last identifier isn't `Action`. (Cedar language reference,
/// "Policy scope".)
pub fn to_refs<E: Drop>(
    alloc: Global,
    node: &Node<Option<Expr>>,
) -> Result<OneOrMultipleRefs, ConversionError<E>>
    ensures actions { Finds refs_of result (actions_among (shown_expr node.now) (converting.alone (shown_expr node.now))) }
    ensures shown { IfErr result (λ error. TellsOnly error (actions_show (shown_expr node.now))) }
{
    match listed(node) {
        Some(items) => {
            let uids = to_entities(alloc, items)?;
            Ok(OneOrMultipleRefs::Multiple(only_actions(alloc, uids, node.loc())?))
        }
        None => {
            let uid = to_entity(alloc, node, ENTITY_OR_SET)?;
            Ok(OneOrMultipleRefs::Single(only_action(alloc, uid, node.loc())?))
        }
    }
}
