// The parts of restricted expressions, one after another.
ghost use Rattle.std.specs.Prelude.{◌≡◌, true, map};
ghost use Rattle.std.specs.Slice.Iter.{iter_rest};
ghost use Rattle.cedar_language.specs.Restricted.{are_restricted};
ghost use Rattle.cedar_grammar.specs.Build.{trees};
ghost use Rattle.cedar_trees.specs.Bare.{bare, bare_entries};

use crate::borrowed::BorrowedRestrictedExpr;
use cedar_trees::expr::Expr;
use std::collections::{BTreeMap, btree_map};
use std::rc::RcStr;
use std::slice;

/// The elements of a set, or the arguments of a call.
#[derive(Drop)]
pub struct RestrictedElements<'a> {
    items: slice::Iter<'a, Expr>,
    pub ghost restricted: { are_restricted (trees (map bare (iter_rest items))) ≡ true },
}

impl<'a> RestrictedElements<'a> {
    ghost use Rattle.cedar_restricted.specs.Left.{elements_left};

    pub(crate) fn of(items: &'a [Expr]) -> RestrictedElements<'a>
        requires { are_restricted (trees (map bare items.now)) ≡ true }
        ensures { elements_left result ≡ map bare items.now }
    {
        RestrictedElements {
            items: items.iter(),
        }
    }
}

impl<'a> Iterator for RestrictedElements<'a> {
    type Item = BorrowedRestrictedExpr<'a>;

    ghost use Rattle.std.specs.Iterator.{YieldsFirstBy, item_count};
    ghost use Rattle.cedar_restricted.specs.Views.{borrowed_tree};
    ghost use Rattle.cedar_restricted.specs.Left.{elements_left};

    ghost next_gives = { YieldsFirstBy borrowed_tree elements_left };

    ghost remaining = { item_count elements_left };

    fn next(&mut self) -> Option<BorrowedRestrictedExpr<'a>> {
        let expr = self.items.next()?;
        Some(BorrowedRestrictedExpr::new_unchecked(expr))
    }
}

/// The keys and values of a record.
#[derive(Drop)]
pub struct RestrictedPairs<'a> {
    entries: btree_map::Iter<'a, RcStr, Expr>,
    pub ghost restricted: { are_restricted (trees (map (λ e. e.1) (bare_entries entries))) ≡ true },
}

impl<'a> RestrictedPairs<'a> {
    ghost use Rattle.cedar_restricted.specs.Left.{pairs_left};

    pub(crate) fn of(entries: &'a BTreeMap<RcStr, Expr>) -> RestrictedPairs<'a>
        requires { are_restricted (trees (map (λ e. e.1) (bare_entries entries.now.entries))) ≡ true }
        ensures { pairs_left result ≡ bare_entries entries.now.entries }
    {
        RestrictedPairs {
            entries: entries.iter(),
        }
    }
}

impl<'a> Iterator for RestrictedPairs<'a> {
    type Item = (&'a RcStr, BorrowedRestrictedExpr<'a>);

    ghost use Rattle.std.specs.Iterator.{YieldsFirstBy, item_count};
    ghost use Rattle.std.specs.Rc.{rc_str_bytes};
    ghost use Rattle.cedar_restricted.specs.Views.{borrowed_tree};
    ghost use Rattle.cedar_restricted.specs.Left.{pairs_left};

    ghost next_gives = { YieldsFirstBy (λ pair. (rc_str_bytes pair.0.now, borrowed_tree pair.1)) pairs_left };

    ghost remaining = { item_count pairs_left };

    fn next(&mut self) -> Option<(&'a RcStr, BorrowedRestrictedExpr<'a>)> {
        let (key, expr) = self.entries.next()?;
        Some((key, BorrowedRestrictedExpr::new_unchecked(expr)))
    }
}
