//! The traits of the layer, whose methods a caller can't call without having them in reach, and those two of
//! the layer below by which values are made here: `from_in` and `from_normalized_str`.

pub use crate::ast::{EntityValidation, EvaluateEntity, Merging, TemplateLinks};
pub use crate::entities::EntitiesValidation;
pub use crate::transitive_closure::TCNode;
pub use cedar_names::conversions::FromIn;
pub use cedar_names::reading::FromNormalizedStr;
