//! Walks over uids.
ghost use Rattle.std.specs.Prelude.{◌≡◌};
ghost use Rattle.std.specs.Iterator.{YieldsFirstRef};
ghost use Rattle.std.specs.Slice.Iter.{iter_rest};
ghost use Rattle.cedar_entities.specs.Lists.{beside};

use crate::uid_lists::EntityUIDs;
use cedar_literals::uids::EntityUID;
use std::marker::Model;
use std::slice;

/// A walk over uids in rising order: those of one list, or of one and then of another, without those that stand in
/// the first too.
#[derive(Drop)]
pub struct Uids<'a> {
    pub(crate) first: slice::Iter<'a, EntityUID>,
    pub(crate) others: slice::Iter<'a, EntityUID>,
    pub(crate) passed: &'a EntityUIDs,
}

impl<'a> Model for Uids<'a> {
    ghost use Rattle.std.specs.Prelude.{List, ◌++◌};
    ghost use Rattle.std.specs.Slice.Iter.{iter_rest};
    ghost use Rattle.cedar_language.specs.Uid.{Uid};
    ghost use Rattle.cedar_entities.specs.Lists.{beside};

    ghost Value = { List Uid };

    ghost view = { λ a. iter_rest a.first ++ beside a.passed.now (iter_rest a.others) };
}

// The next uid that isn't one of those passed.
fn next_beside<'a>(
    uids: &mut slice::Iter<'a, EntityUID>,
    passed: &EntityUIDs,
) -> Option<&'a EntityUID>
    ensures { YieldsFirstRef (λ it. beside passed.now (iter_rest it)) uids.old result uids.new }
{
    while let Some(uid) = uids.next() {
        if !passed.contains(uid) {
            return Some(uid);
        }
    }
    None
}

impl<'a> Iterator for Uids<'a> {
    type Item = &'a EntityUID;

    ghost use Rattle.std.specs.Iterator.{YieldsFirstRef, item_count};

    ghost next_gives = { YieldsFirstRef (λ it. it) };

    ghost remaining = { item_count (λ it. it) };

    fn next(&mut self) -> Option<&'a EntityUID> {
        match self.first.next() {
            Some(uid) => Some(uid),
            None => next_beside(&mut self.others, self.passed),
        }
    }
}
