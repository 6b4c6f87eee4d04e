// What the names of a schema stand for.

use crate::actions::ActionNumbers;
use cedar_schema::TypeTable;
use cedar_schema_resolution::EntityNames;

/// What the names of a schema stand for, as faults are told by it.
#[derive(Drop)]
pub struct SchemaNames {
    /// What names of types stand for.
    pub table: TypeTable,
    /// Whether each common type that has a type has it there. It hasn't where one is within itself.
    pub is_resolved: bool,
    /// The names of entity types.
    pub entities: EntityNames,
    /// The numbers of actions.
    pub actions: ActionNumbers,
}
