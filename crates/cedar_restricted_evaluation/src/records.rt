// Records of what the entries of others are evaluated to.
ghost use Rattle.std.specs.Prelude.{◌≡◌, IfOk, map, length};
ghost use Rattle.std.specs.Rc.{rc_str_bytes};

use std::alloc::{AllocError, Global};
use std::collections::BTreeMap;
use std::rc::RcStr;

/// The map that has these items, one after another, at the keys of `entries`: what is found of the
/// entries of a record stands in it at their keys. Refused for memory alone.
pub fn keyed<T, U: Drop>(
    alloc: Global,
    entries: &BTreeMap<RcStr, T>,
    items: Vec<U>,
) -> Result<BTreeMap<RcStr, U>, AllocError>
    requires { length items.items ≡ length entries.now.entries }
    ensures keys { IfOk result (λ made. map (λ e. rc_str_bytes e.0) made.entries ≡ map (λ e. rc_str_bytes e.0) entries.now.entries) }
    ensures items { IfOk result (λ made. map (λ e. e.1) made.entries ≡ items.items) }
{
    let mut made = BTreeMap::new(alloc);
    let mut left = items.into_iter();
    for (key, _entry) in entries {
        if let Some(item) = left.next() {
            made.insert(key.clone()?, item)?;
        }
    }
    Ok(made)
}
