// Slots of templates, where none may stand.
ghost use Rattle.std.specs.Prelude.{◌≡◌, [], IfOk, IfErr, MatchOption, Some};
ghost use Rattle.std.specs.Option.{option_copied};
ghost use Rattle.cedar_grammar.specs.Converting.{without_slots};
ghost use Rattle.cedar_language.specs.Slots.{tree_slots};
ghost use Rattle.cedar_trees.specs.Bare.{bare};
ghost use Rattle.cedar_parser.specs.Faults.{IsSlotFault, slots_show, TellOnly};
ghost use Rattle.cedar_parser.specs.Strict.{Writes};

use crate::errors::{ParseError, ParseErrors};
use cedar_faults::{ToASTError, ToASTErrorKind};
use cedar_shapes::iteration::SlotRef;
use cedar_shapes::readers::ExprReaders;
use cedar_trees::expr::Expr;
use std::alloc::{AllocError, Global};
use std::rc::RcStr;

// The fault of a slot, at its place.
fn fault_of(alloc: Global, slot: &SlotRef) -> Result<ToASTError, AllocError>
    ensures kind { IfOk result (λ fault. IsSlotFault slot.now.id fault.kind) }
    ensures place { IfOk result (λ fault. fault.loc ≡ option_copied slot.now.loc) }
{
    let text = RcStr::from_string(slot.id.to_string(alloc)?)?;
    ToASTError::at(alloc, ToASTErrorKind::InvalidSlot(text), slot.loc)
}

// The fault of the first slot that a walk over an expression meets.
fn slot_fault(alloc: Global, expr: &Expr) -> Result<Option<ToASTError>, AllocError>
    ensures { IfOk result (λ found. MatchOption found (tree_slots (bare expr.now) ≡ []) (λ fault. slots_show (Some (bare expr.now)) fault.kind)) }
{
    match expr.slots(alloc)?.next() {
        None => Ok(None),
        Some(slot) => Ok(Some(fault_of(alloc, &slot)?)),
    }
}

/// The same expression, where no slot stands in it; else the fault of one that does, or `Memory`.
pub(crate) fn without_slots(alloc: Global, expr: Expr) -> Result<Expr, ParseErrors>
    ensures same { IfOk result (λ made. made ≡ expr) }
    ensures tree { Writes bare result (without_slots (bare expr)) }
    ensures shown { IfErr result (λ errors. TellOnly errors (slots_show (Some (bare expr)))) }
{
    match slot_fault(alloc, &expr) {
        Ok(None) => Ok(expr),
        Ok(Some(fault)) => Err(ParseErrors::one(alloc, ParseError::ToAST(fault))),
        Err(_) => Err(ParseErrors::one(alloc, ParseError::Memory)),
    }
}
