//! The laws of the layer, crate by crate; that of shapes; and that of the unknowns which calls name.

pub use cedar_literals::{literal_laws as literals, uid_laws as uids};
pub use cedar_names::laws as names;
pub use cedar_restricted::{partial_value_laws as partial_values, restricted_laws as restricted};
pub use cedar_restricted_evaluation::written_names_are_read;
pub use cedar_shapes::shapes::shapes_are_ordered;
pub use cedar_substitution::laws as substitution;
pub use cedar_values::laws as values;
