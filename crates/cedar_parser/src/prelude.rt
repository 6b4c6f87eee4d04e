//! The traits of the layer, whose methods a caller can't call without having them in reach: by
//! `StylesOfExtensions` the names that texts may call are made from a table of extensions.

pub use crate::styles::StylesOfExtensions;
