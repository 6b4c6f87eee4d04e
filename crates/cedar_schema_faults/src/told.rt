// Faults that are told, one behind another.
ghost use Rattle.std.specs.Prelude.{◌≡◌, [], ◌∷◌, ◌++◌, OnOk};
ghost use Rattle.cedar_schema_faults.specs.Views.{kind_view, faults_view};

use crate::kinds::{SchemaError, SchemaErrorKind};
use std::alloc::AllocError;

/// Tells a fault of what starts at this byte of the text.
pub(crate) fn tell(
    kind: SchemaErrorKind,
    place: usize,
    told: &mut Vec<SchemaError>,
) -> Result<(), AllocError>
    ensures { OnOk result (faults_view told.new ≡ faults_view told.old ++ kind_view kind ∷ []) }
{
    told.push(SchemaError { kind, place })?;
    Ok(())
}
