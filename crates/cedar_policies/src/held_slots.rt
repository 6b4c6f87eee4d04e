// The slots that a policy holds.
ghost use Rattle.std.specs.Prelude.{◌≡◌, IfOk, option_map};
ghost use Rattle.std.specs.List.{list_any};
ghost use Rattle.std.specs.Option.{option_copied};
ghost use Rattle.cedar_grammar.specs.Policy.{holds_slot, is_slot, scope_slots, slots as slots_of};
ghost use Rattle.cedar_trees.specs.Bare.{bare};
ghost use Rattle.cedar_policies.specs.Bodies.{body_syntax};
ghost use Rattle.cedar_policies.specs.Slots.{slot_ids, AreSlotsOf, FindsSlot};
ghost use Rattle.cedar_shapes.specs.Leaves.{slots_among};
ghost use Rattle.cedar_shapes.specs.Positions.{positions};

use crate::bodies::TemplateBody;
use cedar_literals::slots::{Slot, SlotId};
use cedar_shapes::readers::ExprReaders;
use cedar_trees::expr::Expr;
use std::alloc::{AllocError, Global};

/// The slots of the scope and of the clauses, each once, the principal's first. The scope's comes with its place
/// there, and another one with that of the first such slot of a walk over the clauses. Refused for memory alone.
pub(crate) fn held_slots(alloc: Global, body: &TemplateBody) -> Result<Vec<Slot>, AllocError>
    ensures { IfOk result (λ slots. slot_ids slots.items ≡ slots_of (body_syntax body.now)) }
{
    let met = clause_slots(alloc, body.non_scope_constraints())?;
    let mut slots = Vec::new(alloc);
    if let Some(slot) = held_slot(alloc, body, &met, SlotId::principal())? {
        slots.push(slot)?;
    }
    if let Some(slot) = held_slot(alloc, body, &met, SlotId::resource())? {
        slots.push(slot)?;
    }
    Ok(slots)
}

// This slot, where the scope or a clause holds it; the clauses' slots are these.
fn held_slot(
    alloc: Global,
    body: &TemplateBody,
    met: &[Slot],
    id: SlotId,
) -> Result<Option<Slot>, AllocError>
    requires { AreSlotsOf (body_syntax body.now).body met.now }
    ensures { IfOk result (FindsSlot (holds_slot (body_syntax body.now) id) id) }
{
    match scope_slot(alloc, body, id)? {
        Some(slot) => Ok(Some(slot)),
        None => first_slot(met, id),
    }
}

// This slot, where the scope holds it.
fn scope_slot(alloc: Global, body: &TemplateBody, id: SlotId) -> Result<Option<Slot>, AllocError>
    ensures { IfOk result (FindsSlot (list_any (is_slot id) (scope_slots (body_syntax body.now))) id) }
{
    if id.is_principal() {
        body.principal_constraint().slot(alloc)
    } else {
        body.resource_constraint().slot(alloc)
    }
}

// The slots of the clauses, in the order of one walk over them.
fn clause_slots(alloc: Global, clauses: Option<&Expr>) -> Result<Vec<Slot>, AllocError>
    ensures { IfOk result (λ met. AreSlotsOf (option_map bare (option_copied clauses.entry)) met.items) }
{
    match clauses {
        None => Ok(Vec::new(alloc)),
        Some(expr) => expr_slots(alloc, expr),
    }
}

// The slots of an expression, in the order of one walk over it.
fn expr_slots(alloc: Global, expr: &Expr) -> Result<Vec<Slot>, AllocError>
    ensures { IfOk result (λ met. slot_ids met.items ≡ slots_among (positions (bare expr.now))) }
{
    let mut met = Vec::new(alloc);
    for slot in expr.slots(alloc)? {
        met.push(slot.to_slot(alloc)?)?;
    }
    Ok(met)
}

// This slot, where it is among these: the first of them.
fn first_slot(met: &[Slot], id: SlotId) -> Result<Option<Slot>, AllocError>
    ensures { IfOk result (FindsSlot (list_any (is_slot id) (slot_ids met.now)) id) }
{
    for slot in met {
        if is_same(id, slot.id) {
            return Ok(Some(slot.clone()?));
        }
    }
    Ok(None)
}

// Whether both are the same slot.
pub(crate) fn is_same(a: SlotId, b: SlotId) -> bool
    ensures { result ≡ is_slot a b }
{
    if a.is_principal() {
        b.is_principal()
    } else {
        b.is_resource()
    }
}
