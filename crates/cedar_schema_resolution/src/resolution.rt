// Common types, each resolved after those that it mentions.
ghost use Rattle.std.specs.Prelude.{◌≡◌, ◌<◌, ℕ, [], ◌∷◌, length, slice_index, OnOk, IfErr};
ghost use Rattle.cedar_schema_grammar.specs.Declared.{type_name};
ghost use Rattle.cedar_schema_resolution.specs.Declarations.{declared_view, type_view};
ghost use Rattle.cedar_schema_resolution.specs.Resolved.{AreResolved, IsFilled, IsAcyclic, ToldAt, TellsCycle};

use crate::declarations::{Declarations, DeclaredType};
use crate::numbers::CommonNumbers;
use cedar_schema::{OrderError, TypeName, TypeTable, order_by_targets};
use cedar_schema_grammar::{common_types_settle, hierarchies_are_transitive};
use std::alloc::{AllocError, AllocFailed, Global};

/// Why common types have no types.
#[derive(Drop)]
pub enum ResolutionError {
    /// The common type of this name is written in itself, or in what is written in it.
    CycleInCommonTypeReferences(TypeName),
    /// Memory ran out.
    Memory,
}

impl From<AllocError> for ResolutionError {
    ghost use Rattle.cedar_schema_resolution.specs.declared.resolution.ResolutionError.TheVariants.{Memory};

    ghost from_gives = { λ _ e. e ≡ Memory };

    fn from(_error: AllocError) -> ResolutionError {
        ResolutionError::Memory
    }
}

impl<T: Drop> From<AllocFailed<T>> for ResolutionError {
    ghost use Rattle.cedar_schema_resolution.specs.declared.resolution.ResolutionError.TheVariants.{Memory};

    ghost from_gives = { λ _ e. e ≡ Memory };

    fn from(_failed: AllocFailed<T>) -> ResolutionError {
        ResolutionError::Memory
    }
}

// Resolves the common type of a number, if it is the first of its name.
fn resolve_one(
    alloc: Global,
    declared: &Declarations<'_>,
    numbers: &CommonNumbers,
    number: usize,
    table: &mut TypeTable,
) -> Result<(), AllocError>
    requires { number < length declared.now.types.items }
    ensures { OnOk result (AreResolved (declared_view declared.now) numbers.now (number ∷ []) table.old table.new) }
{
    let common = &declared.types[number];
    let name = common.name(alloc)?;
    if !numbers.has(&name, number) {
        return Ok(());
    }
    let known = table.written_type(alloc, common.namespace.words(), common.written)?;
    table.declare(name, known)?;
    Ok(())
}

// Resolves the common types of these numbers, one after another.
fn resolve_each(
    alloc: Global,
    declared: &Declarations<'_>,
    numbers: &CommonNumbers,
    order: &[usize],
    table: &mut TypeTable,
) -> Result<(), AllocError>
    requires { (k : ℕ) → k < length order.now → slice_index order.now k < length declared.now.types.items }
    ensures { OnOk result (AreResolved (declared_view declared.now) numbers.now order.now table.old table.new) }
{
    for number in order {
        resolve_one(alloc, declared, numbers, *number, table)?;
    }
    Ok(())
}

// The error that tells a common type which is within itself.
fn told_cycle(alloc: Global, common: &DeclaredType<'_>) -> ResolutionError
    ensures { ToldAt (type_name (type_view common.now)) result }
{
    match common.name(alloc) {
        Ok(name) => ResolutionError::CycleInCommonTypeReferences(name),
        Err(_) => ResolutionError::Memory,
    }
}

/// Resolves the common types that are declared: a table without their types gets, of each, the type that it stands for. Each is
/// resolved once, in time linear in what is declared.
///
/// `CycleInCommonTypeReferences` tells one that is within itself, `Memory` that memory ran out; the table may then have some.
pub fn resolve_common_types(
    alloc: Global,
    declared: &Declarations<'_>,
    table: &mut TypeTable,
) -> Result<(), ResolutionError>
    ensures filled { OnOk result (IsFilled (declared_view declared.now) table.old table.new) }
    ensures acyclic { OnOk result (IsAcyclic (declared_view declared.now)) }
    ensures cycle { IfErr result (TellsCycle (declared_view declared.now)) }
{
    hierarchies_are_transitive();
    common_types_settle();
    let numbers = CommonNumbers::of(alloc, declared)?;
    let edges = numbers.mentioned(alloc, &declared.types)?;
    match order_by_targets(alloc, &edges) {
        Ok(order) => Ok(resolve_each(alloc, declared, &numbers, &order, table)?),
        Err(OrderError::Cycle(number)) => Err(told_cycle(alloc, &declared.types[number])),
        Err(OrderError::Memory) => Err(ResolutionError::Memory),
    }
}
