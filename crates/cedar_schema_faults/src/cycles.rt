// Common types and actions that are within themselves.
ghost use Rattle.std.specs.Prelude.{◌≡◌, Some, IfOk, map, option_map};
ghost use Rattle.cedar_schema_grammar.specs.Declared.{Library, Declared, action_uid};
ghost use Rattle.cedar_schema_grammar.specs.Faults.{CycleInActionHierarchy};
ghost use Rattle.cedar_schema_resolution.specs.BuiltIn.{HasTypes};
ghost use Rattle.cedar_schema_resolution.specs.Declarations.{action_view, declared_view};
ghost use Rattle.cedar_schema_faults.specs.Actions.{HaveNumbers};
ghost use Rattle.cedar_schema_faults.specs.Cycles.{AreResolvedOr, AreApartOr};
ghost use Rattle.cedar_schema_faults.specs.Views.{fault_view};

use crate::actions::ActionNumbers;
use crate::kinds::{SchemaError, SchemaErrorKind};
use crate::uids::ActionUid;
use cedar_schema::{OrderError, TypeName, TypeTable, order_by_targets};
use cedar_schema_grammar::hierarchies_are_transitive;
use cedar_schema_resolution::{
    Declarations, DeclaredAction, DeclaredType, ExtensionType, ResolutionError, declared_table,
    resolve_common_types,
};
use std::alloc::{AllocError, Global};

/// A table of types, in which common types are resolved, or the error that one of them is within itself.
#[derive(Drop)]
pub struct CommonTypes {
    pub table: TypeTable,
    pub cycle: Option<SchemaError>,
}

// Where the common type of this name is declared.
fn place_of(
    alloc: Global,
    types: &[DeclaredType<'_>],
    name: &TypeName,
) -> Result<usize, AllocError> {
    for common in types {
        if common.name(alloc)? == *name {
            return Ok(common.own.place);
        }
    }
    Ok(0)
}

impl CommonTypes {
    /// Those of what is declared. Refused for memory alone.
    pub fn of(
        alloc: Global,
        declared: &Declarations<'_>,
        extensions: &[ExtensionType],
    ) -> Result<CommonTypes, AllocError>
        ensures { IfOk result (λ types. (l : Library) → HasTypes l extensions.now
            → AreResolvedOr (declared_view declared.now) l types.table (option_map fault_view types.cycle)) }
    {
        let mut table = declared_table(alloc, declared, extensions)?;
        match resolve_common_types(alloc, declared, &mut table) {
            Ok(()) => Ok(CommonTypes { table, cycle: None }),
            Err(ResolutionError::CycleInCommonTypeReferences(name)) => {
                let place = place_of(alloc, &declared.types, &name)?;
                let kind = SchemaErrorKind::CycleInCommonTypeReferences(name);
                let table = declared_table(alloc, declared, extensions)?;
                let cycle = Some(SchemaError { kind, place });
                Ok(CommonTypes { table, cycle })
            }
            Err(ResolutionError::Memory) => Err(AllocError),
        }
    }
}

// The error that an action is within itself.
fn told_cycle(alloc: Global, action: &DeclaredAction<'_>) -> Result<Option<SchemaError>, AllocError>
    ensures { IfOk result (λ cycle. option_map fault_view cycle ≡ Some (CycleInActionHierarchy (action_uid (action_view action.now)))) }
{
    let kind = SchemaErrorKind::CycleInActionHierarchy(ActionUid::of(alloc, action)?);
    let place = action.own.place;
    Ok(Some(SchemaError { kind, place }))
}

/// The error that an action is within itself, if one is. It takes time linear in what is declared, times its logarithm. Refused
/// for memory alone.
pub fn action_cycle(
    alloc: Global,
    actions: &[DeclaredAction<'_>],
    numbers: &ActionNumbers,
) -> Result<Option<SchemaError>, AllocError>
    requires { HaveNumbers (map action_view actions.now) numbers.now }
    ensures { IfOk result (λ cycle. (d : Declared) → map action_view actions.now ≡ d.actions → AreApartOr d (option_map fault_view cycle)) }
{
    hierarchies_are_transitive();
    let edges = numbers.all_groups(alloc, actions)?;
    match order_by_targets(alloc, &edges) {
        Ok(_) => Ok(None),
        Err(OrderError::Cycle(number)) => told_cycle(alloc, &actions[number]),
        Err(OrderError::Memory) => Err(AllocError),
    }
}
