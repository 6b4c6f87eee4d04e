//! What a schema's text declares, by names, and its common types resolved.
#![tactic(auto)]

mod built_in;
mod declarations;
mod mentions;
mod numbers;
mod parents;
mod resolution;
mod shapes;
mod table;
#[cfg(test)]
mod tests;
mod uids;

pub use built_in::ExtensionType;
pub use declarations::{Declarations, DeclaredAction, DeclaredEntity, DeclaredType, EntityBody};
pub use numbers::CommonNumbers;
pub use parents::EntityNames;
pub use resolution::{ResolutionError, resolve_common_types};
pub use shapes::EntityShape;
pub use table::declared_table;
pub use uids::{Uid, action_path};
