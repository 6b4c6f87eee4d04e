//! Places in texts.

pub use cedar_names::places::{Loc, Span};
