//! What the crates of the layer share among themselves, and what crates above may call too: escaped texts
//! and texts of values, constructs of parts that are made, and the parts of an expression.

pub use cedar_literals::escapes;
pub use cedar_shapes::parts;
pub use cedar_trees::kinds;
pub use cedar_values::texts;
