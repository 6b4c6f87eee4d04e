// The entries of contexts, one after the other.
ghost use Rattle.std.specs.Prelude.{◌≡◌, true, IfOk};
ghost use Rattle.std.specs.List.Sorted.{IsStrictlySortedBy};
ghost use Rattle.cedar_language.specs.Order.{text_cmp};
ghost use Rattle.cedar_language.specs.Restricted.{is_restricted};
ghost use Rattle.cedar_grammar.specs.Build.{keys};
ghost use Rattle.cedar_trees.specs.Bare.{bare_entries, record_tree};
ghost use Rattle.cedar_restricted.specs.PartialValues.{PartExpresses};
ghost use Rattle.cedar_restricted.specs.Views.{restricted_entries};
ghost use Rattle.cedar_requests.specs.Contexts.{context_part};
ghost use Rattle.cedar_requests.specs.Entries.{entries_left};

use crate::contexts::Context;
use crate::evaluating::entries_of;
use cedar_names::conversions::FromIn;
use cedar_restricted::borrowed::BorrowedRestrictedExpr;
use cedar_restricted::restricted::RestrictedExpr;
use cedar_trees::expr::Expr;
use std::alloc::{AllocError, Global};
use std::collections::BTreeMap;
use std::rc::RcStr;
use std::vec;

/// The entries of a context, each an expression beside its key. Contracts see those that are left by
/// `entries_left`.
#[derive(Drop)]
pub struct ContextEntries {
    entries: vec::IntoIter<(RcStr, RestrictedExpr)>,
}

impl Iterator for ContextEntries {
    type Item = (RcStr, RestrictedExpr);

    ghost use Rattle.std.specs.Iterator.{YieldsFirstBy, item_count};
    ghost use Rattle.cedar_requests.specs.Entries.{entry_tree, entries_left};

    ghost next_gives = { YieldsFirstBy entry_tree entries_left };

    ghost remaining = { item_count entries_left };

    fn next(&mut self) -> Option<(RcStr, RestrictedExpr)> {
        self.entries.next()
    }
}

impl Context {
    /// Its entries by rising keys, each as an expression: what writes its value, or what is left of it.
    /// The record of them is what the context is written as. Refused for memory alone, before the first
    /// of them is given.
    pub fn into_iter(self, alloc: Global) -> Result<ContextEntries, AllocError>
        ensures entries { IfOk result (λ entries. PartExpresses (context_part self) (record_tree (entries_left entries))) }
        ensures rising { IfOk result (λ entries. IsStrictlySortedBy text_cmp (keys (entries_left entries))) }
    {
        let record = RestrictedExpr::from_in(alloc, self)?.into_expr();
        let entries = entries_of(&record)?;
        Ok(ContextEntries {
            entries: owned(alloc, &entries)?.into_iter(),
        })
    }
}

// Copies of these entries that share their parts.
fn owned(
    alloc: Global,
    entries: &BTreeMap<RcStr, Expr>,
) -> Result<Vec<(RcStr, RestrictedExpr)>, AllocError>
    requires { is_restricted (record_tree (bare_entries entries.now.entries)) ≡ true }
    ensures entries { IfOk result (λ copies. restricted_entries copies.items ≡ bare_entries entries.now.entries) }
    ensures rising { IfOk result (λ copies. IsStrictlySortedBy text_cmp (keys (restricted_entries copies.items))) }
{
    let mut copies = Vec::new(alloc);
    for (key, expr) in entries {
        let expr = BorrowedRestrictedExpr::new_unchecked(expr);
        copies.push((key.clone()?, expr.to_owned(alloc)?))?;
    }
    Ok(copies)
}
