// Entities, and the slots of templates.
ghost use Rattle.std.specs.Prelude.{◌≡◌, IfErr};
ghost use Rattle.cedar_grammar.specs.Loose as loose;
ghost use Rattle.cedar_grammar.specs.Converting.{primary_target, target};
ghost use Rattle.cedar_cst.specs.LeafView.{shown_slot};
ghost use Rattle.cedar_cst.specs.View.{shown_expr, shown_primary};
ghost use Rattle.cedar_policy_parts.specs.References.{target_of};
ghost use Rattle.cedar_faults.specs.Converts.{Finds};
ghost use Rattle.cedar_faults.specs.Telling.{TellsOnly};
ghost use Rattle.cedar_policy_conversion.specs.Own.{own_word};
ghost use Rattle.cedar_policy_conversion.specs.PartsShow.{own_slot_shows, primary_target_shows, target_shows};

use crate::misfits::{ENTITY_OR_SLOT, no_entity, no_list, no_primary, other_slot};
use crate::parentheses::inside_parens;
use cedar_conversion::to_ref;
use cedar_cst::cst::{Expr, Primary, Slot};
use cedar_cst::node::Node;
use cedar_faults::ConversionError;
use cedar_literals::variables::Var;
use cedar_names::places::Loc;
use cedar_policy_parts::Ref;
use cedar_policy_parts::constraints::PrincipalOrResource;
use cedar_policy_parts::references::EntityReference;
use either::Either;
use std::alloc::Global;
use std::rc::Rc;

// The slot, where it is the variable's own.
fn slot_to_reference<E: Drop>(
    alloc: Global,
    node: &Node<Option<Slot>>,
    v: PrincipalOrResource,
    loc: Option<&Loc>,
) -> Result<EntityReference, ConversionError<E>>
    ensures target { Finds target_of result (primary_target (own_word v) (loose.slot (shown_slot node.now))) }
    ensures shown { IfErr result (λ error. TellsOnly error (own_slot_shows (own_word v) (shown_slot node.now))) }
{
    let Some(slot) = &node.node else {
        return Err(ConversionError::missing(alloc, loc));
    };
    if slot.matches(Var::from(v)) {
        Ok(EntityReference::Slot(loc.cloned()?))
    } else {
        Err(other_slot(alloc, slot, &v, ENTITY_OR_SLOT, loc))
    }
}

// The entity, or the slot, that a primary is.
fn primary_to_reference<E: Drop>(
    alloc: Global,
    node: &Node<Option<Primary>>,
    v: PrincipalOrResource,
) -> Result<EntityReference, ConversionError<E>>
    ensures target { Finds target_of result (primary_target (own_word v) (shown_primary node.now)) }
    ensures shown { IfErr result (λ error. TellsOnly error (primary_target_shows (own_word v) (shown_primary node.now))) }
{
    match &node.node {
        None => Err(ConversionError::missing(alloc, node.loc())),
        Some(primary) => match primary {
            Primary::Ref(entity) => {
                let euid = to_ref(alloc, entity)?;
                Ok(EntityReference::EUID(Rc::new(alloc, euid)?))
            }
            Primary::Slot(slot) => slot_to_reference(alloc, slot, v, node.loc()),
            Primary::EList(_) => {
                let expected = Either::Right((Ref::Single, Ref::Template));
                Err(no_list(alloc, expected, node.loc()))
            }
            Primary::Literal(_) => Err(no_entity(alloc, node, ENTITY_OR_SLOT)),
            Primary::Name(_) => Err(no_entity(alloc, node, ENTITY_OR_SLOT)),
            Primary::Expr(_) => Err(no_entity(alloc, node, ENTITY_OR_SLOT)),
            Primary::RInits(_) => Err(no_entity(alloc, node, ENTITY_OR_SLOT)),
        },
    }
}

/// The entity, or the slot of the variable, in any number of parentheses; faults where anything else
/// stands. (Cedar language reference, "Policy scope" and "Policy templates".)
pub fn to_ref_or_slot<E: Drop>(
    alloc: Global,
    node: &Node<Option<Expr>>,
    v: PrincipalOrResource,
) -> Result<EntityReference, ConversionError<E>>
    ensures target { Finds target_of result (target (own_word v) (shown_expr node.now)) }
    ensures shown { IfErr result (λ error. TellsOnly error (target_shows (own_word v) (shown_expr node.now))) }
{
    match inside_parens(node) {
        Ok(primary) => primary_to_reference(alloc, primary, v),
        Err(other) => Err(no_primary(alloc, other, ENTITY_OR_SLOT)),
    }
}
