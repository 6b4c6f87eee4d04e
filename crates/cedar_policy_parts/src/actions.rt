// What a scope asks of the action.
ghost use Rattle.std.specs.Prelude.{◌≡◌, [], ◌∷◌, IfOk, MatchOption, map};
ghost use Rattle.std.specs.Slice.Iter.{iter_rest};
ghost use Rattle.cedar_grammar.specs.Policy.{any_action, action_equals, action_within_any, action_tree};
ghost use Rattle.cedar_trees.specs.Bare.{bare};
ghost use Rattle.cedar_policy_parts.specs.Actions.{action_of, uids_of, types_of, held_uids, entity_literal, others, RefusesOthers};
ghost use Rattle.cedar_policy_parts.specs.ActionsLeft.{types_left};

use crate::errors::{ActionTypeError, InvalidActionType};
use cedar_literals::literals::Literal;
use cedar_literals::uids::{EntityType, EntityUID};
use cedar_literals::variables::Var;
use cedar_trees::expr::Expr;
use cedar_trees::unknowns::NonEmpty;
use std::alloc::{AllocError, Global};
use std::rc::Rc;
use std::{fmt, slice};

/// What a scope asks of the action; `action in E` is `action in [E]`. Contracts see it through
/// `action_of`; `==` looks past places. (Cedar language reference, "Policy scope".)
#[derive(Debug)]
pub enum ActionConstraint {
    /// Nothing.
    Any,
    /// That it is in one of these, or is one.
    In(Vec<Rc<EntityUID>>),
    /// That it is this.
    Eq(Rc<EntityUID>),
}

impl ActionConstraint {
    /// Nothing is asked.
    pub fn any() -> ActionConstraint
        ensures { action_of result ≡ any_action }
    {
        ActionConstraint::Any
    }

    /// That it is in one of these, or is one.
    pub fn is_in(euids: Vec<Rc<EntityUID>>) -> ActionConstraint
        ensures { action_of result ≡ action_within_any (held_uids euids.items) }
    {
        ActionConstraint::In(euids)
    }

    /// That it is this action.
    pub fn is_eq(euid: Rc<EntityUID>) -> ActionConstraint
        ensures { action_of result ≡ action_equals euid.value }
    {
        ActionConstraint::Eq(euid)
    }

    /// The condition that it is; refused for memory alone.
    pub fn as_expr(&self, alloc: Global) -> Result<Expr, AllocError>
        ensures { IfOk result (λ made. bare made ≡ action_tree (action_of self.now)) }
    {
        match self {
            ActionConstraint::Any => Ok(Expr::val(Literal::from(true))),
            ActionConstraint::In(euids) => {
                let items = Expr::set(alloc, literals(alloc, euids)?)?;
                Expr::is_in(alloc, Expr::var(Var::Action), items)
            }
            ActionConstraint::Eq(euid) => {
                let literal = Expr::val(Literal::EntityUID(euid.clone()?));
                Expr::is_eq(alloc, Expr::var(Var::Action), literal)
            }
        }
    }

    // The uids that it names.
    fn euids(&self) -> &[Rc<EntityUID>]
        ensures { held_uids result.now ≡ uids_of (action_of self.now) }
    {
        match self {
            ActionConstraint::Any => &[],
            ActionConstraint::In(euids) => euids,
            ActionConstraint::Eq(euid) => slice::from_ref(euid),
        }
    }

    /// The uids that it names, in their order.
    pub fn iter_euids(&self) -> slice::Iter<'_, Rc<EntityUID>>
        ensures { held_uids (iter_rest result) ≡ uids_of (action_of self.now) }
    {
        self.euids().iter()
    }

    /// The types of the uids that it names, in their order.
    pub fn iter_entity_type_names(&self) -> EntityTypeNames<'_>
        ensures { types_left result ≡ types_of (action_of self.now) }
    {
        EntityTypeNames {
            euids: self.iter_euids(),
        }
    }

    /// Whether each uid that it names has a type whose last identifier is `Action`; refused with those
    /// that have another, in their order, or for memory.
    pub fn check_action_types(&self, alloc: Global) -> Result<(), ActionTypeError>
        ensures { RefusesOthers (others (uids_of (action_of self.now))) result }
    {
        let Some((first, rest)) = split_first_other(self.euids()) else {
            return Ok(());
        };
        let euids = NonEmpty {
            head: first.clone()?,
            tail: cloned_others(alloc, rest)?,
        };
        Err(ActionTypeError::InvalidActionType(InvalidActionType { euids }))
    }

    /// The same constraint, where each uid that it names has a type whose last identifier is `Action`;
    /// refused with those that have another, in their order, or for memory.
    pub fn contains_only_action_types(
        self,
        alloc: Global,
    ) -> Result<ActionConstraint, ActionTypeError>
        ensures refused { RefusesOthers (others (uids_of (action_of self))) result }
        ensures same { IfOk result (λ constraint. action_of constraint ≡ action_of self) }
    {
        self.check_action_types(alloc)?;
        Ok(self)
    }

    /// A copy that shares the uids; refused for memory alone.
    pub fn clone(&self, alloc: Global) -> Result<ActionConstraint, AllocError>
        ensures { IfOk result (λ copy. action_of copy ≡ action_of self.now) }
    {
        match self {
            ActionConstraint::Any => Ok(ActionConstraint::Any),
            ActionConstraint::In(euids) => Ok(ActionConstraint::In(cloned(alloc, euids)?)),
            ActionConstraint::Eq(euid) => Ok(ActionConstraint::Eq(euid.clone()?)),
        }
    }
}

// The uids as literals.
fn literals(alloc: Global, euids: &[Rc<EntityUID>]) -> Result<Vec<Expr>, AllocError>
    ensures { IfOk result (λ made. map bare made.items ≡ map entity_literal (held_uids euids.now)) }
{
    let mut made = Vec::new(alloc);
    for euid in euids {
        made.push(Expr::val(Literal::EntityUID(euid.clone()?)))?;
    }
    Ok(made)
}

// Copies that share the uids.
pub(crate) fn cloned(
    alloc: Global,
    euids: &[Rc<EntityUID>],
) -> Result<Vec<Rc<EntityUID>>, AllocError>
    ensures { IfOk result (λ copies. held_uids copies.items ≡ held_uids euids.now) }
{
    let mut copies = Vec::new(alloc);
    for euid in euids {
        copies.push(euid.clone()?)?;
    }
    Ok(copies)
}

// The first uid that is no action, and those after it.
fn split_first_other(euids: &[Rc<EntityUID>]) -> Option<(&Rc<EntityUID>, &[Rc<EntityUID>])>
    ensures { MatchOption result
        (others (held_uids euids.now) ≡ [])
        (λ found. others (held_uids euids.now) ≡ found.0.now.value ∷ others (held_uids found.1.now)) }
{
    let mut rest = euids;
    while let Some((first, after)) = rest.split_first() {
        if !first.is_action() {
            return Some((first, after));
        }
        rest = after;
    }
    None
}

// Those that are no actions.
fn cloned_others(alloc: Global, euids: &[Rc<EntityUID>]) -> Result<Vec<Rc<EntityUID>>, AllocError>
    ensures { IfOk result (λ copies. held_uids copies.items ≡ others (held_uids euids.now)) }
{
    let mut copies = Vec::new(alloc);
    let mut left = euids;
    while let Some((first, after)) = split_first_other(left) {
        copies.push(first.clone()?)?;
        left = after;
    }
    Ok(copies)
}

// By hand, so that letting go of one is a call.
impl Drop for ActionConstraint {
    fn drop(self) {
        match self {
            ActionConstraint::Any => {}
            ActionConstraint::In(_euids) => {}
            ActionConstraint::Eq(_euid) => {}
        }
    }
}

impl PartialEq for ActionConstraint {
    ghost use Rattle.std.specs.Ordering.{on};
    ghost use Rattle.std.specs.Cmp.{partial_equiv_from_equiv, on_equiv};
    ghost use Rattle.cedar_policy_parts.specs.Actions.{action_of};
    ghost use Rattle.cedar_policy_parts.specs.SameScopes.{same_action, same_action_equiv};

    ghost eq = { on action_of same_action };

    ghost laws = { partial_equiv_from_equiv (on_equiv action_of same_action_equiv) };

    fn eq(&self, other: &ActionConstraint) -> bool {
        match (self, other) {
            (ActionConstraint::Any, ActionConstraint::Any) => true,
            (ActionConstraint::In(a), ActionConstraint::In(b)) => a == b,
            (ActionConstraint::Eq(a), ActionConstraint::Eq(b)) => a == b,
            _ => false,
        }
    }
}

impl Eq for ActionConstraint {
    ghost use Rattle.std.specs.Cmp.{on_equiv};
    ghost use Rattle.cedar_policy_parts.specs.Actions.{action_of};
    ghost use Rattle.cedar_policy_parts.specs.SameScopes.{same_action_equiv};

    ghost laws = { on_equiv action_of same_action_equiv };
}

/// The types of the uids that a constraint names.
#[derive(Drop)]
pub struct EntityTypeNames<'a> {
    euids: slice::Iter<'a, Rc<EntityUID>>,
}

impl<'a> Iterator for EntityTypeNames<'a> {
    type Item = &'a EntityType;

    ghost use Rattle.std.specs.Iterator.{YieldsFirstRef, item_count};
    ghost use Rattle.cedar_policy_parts.specs.ActionsLeft.{types_left};

    ghost next_gives = { YieldsFirstRef types_left };

    ghost remaining = { item_count types_left };

    fn next(&mut self) -> Option<&'a EntityType> {
        let euid = self.euids.next()?;
        Some(euid.entity_type())
    }
}

impl fmt::Display for ActionConstraint {
    fn fmt<W: fmt::Write>(&self, f: &mut fmt::Formatter<W>) -> fmt::Result {
        match self {
            ActionConstraint::Any => write!(f, "action"),
            ActionConstraint::In(euids) => {
                write!(f, "action in [")?;
                write_separated(euids, f)?;
                write!(f, "]")
            }
            ActionConstraint::Eq(euid) => write!(f, "action == {euid}"),
        }
    }
}

// The uids, with a comma between each two.
fn write_separated<W: fmt::Write>(
    euids: &[Rc<EntityUID>],
    f: &mut fmt::Formatter<W>,
) -> fmt::Result {
    let Some((first, rest)) = euids.split_first() else {
        return Ok(());
    };
    write!(f, "{first}")?;
    for euid in rest {
        write!(f, ",{euid}")?;
    }
    Ok(())
}
