//! Walks over what stands under policy ids.
ghost use Rattle.std.specs.Prelude.{◌≡◌, length};
ghost use Rattle.std.specs.Iterator.{at_most};
ghost use Rattle.std.specs.Map.{values_of};
ghost use Rattle.std.specs.Map.Iter.{TakesFirst, deref};

use cedar_policy_parts::PolicyID;
use std::marker::Model;
use std::{slice, vec};

/// What stands under the ids of a map, lent, in their order.
#[derive(Drop)]
pub struct Values<'a, V> {
    pub(crate) entries: slice::Iter<'a, (PolicyID, V)>,
}

impl<'a, V> Model for Values<'a, V> {
    ghost use Rattle.std.specs.Prelude.{List};
    ghost use Rattle.std.specs.Map.{values_of};
    ghost use Rattle.std.specs.Slice.Iter.{iter_rest};

    ghost Value = { List V };

    ghost view = { λ a. values_of (iter_rest a.entries) };
}

impl<'a, V> Iterator for Values<'a, V> {
    type Item = &'a V;

    ghost next_gives = { TakesFirst deref };

    ghost remaining = { λ s. at_most (length s) };

    fn next(&mut self) -> Option<&'a V> {
        let (_, value) = self.entries.next()?;
        Some(value)
    }
}

/// What stood under the ids of a map that is given up, in their order.
#[derive(Drop)]
pub struct IntoValues<V> {
    pub(crate) entries: vec::IntoIter<(PolicyID, V)>,
}

impl<V> Model for IntoValues<V> {
    ghost use Rattle.std.specs.Prelude.{List};
    ghost use Rattle.std.specs.Map.{values_of};
    ghost use Rattle.std.specs.Vec.Iter.{into_iter_items};

    ghost Value = { List V };

    ghost view = { λ a. values_of (into_iter_items a.entries) };
}

impl<V: Drop> Iterator for IntoValues<V> {
    type Item = V;

    ghost next_gives = { TakesFirst (λ v. v) };

    ghost remaining = { λ s. at_most (length s) };

    fn next(&mut self) -> Option<V> {
        let (_, value) = self.entries.next()?;
        Some(value)
    }
}
