//! Operators of Cedar that read a store of entities: what they give for values, and with which kind of
//! error they err.
#![tactic(auto)]

mod attributes;
mod held;
mod hierarchy;
mod lookups;
mod store_laws;
mod tags;

pub use attributes::{get_attr, has_attr, has_path};
pub use hierarchy::is_in;
pub use store_laws::stores_have_facts;
pub use tags::{get_tag, has_tag};
