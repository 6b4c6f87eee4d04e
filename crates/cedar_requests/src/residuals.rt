// What is left of contexts.
ghost use Rattle.std.specs.Prelude.{◌≡◌, true, false};
ghost use Rattle.cedar_language.specs.Restricted.{is_restricted};
ghost use Rattle.cedar_trees.specs.Bare.{bare_entries, record_tree};
ghost use Rattle.cedar_restricted.specs.Expressing.{is_ground};

use cedar_trees::expr::Expr;
use std::collections::BTreeMap;
use std::rc::{Rc, RcStr};

/// The entries of a context in which something is unknown: expressions of literals, unknowns, sets,
/// records and calls of extension functions alone, and an unknown somewhere among them. They are shared.
#[derive(Debug)]
pub struct ResidualEntries {
    entries: Rc<BTreeMap<RcStr, Expr>>,
    pub ghost restricted: { is_restricted (record_tree (bare_entries entries.value.entries)) ≡ true },
    pub ghost waits: { is_ground (record_tree (bare_entries entries.value.entries)) ≡ false },
}

// By hand, so that letting go of them is a call.
impl Drop for ResidualEntries {
    fn drop(self) {
        let ResidualEntries { entries: _ } = self;
    }
}

impl ResidualEntries {
    ghost use Rattle.cedar_requests.specs.Residuals.{residual_entries};

    /// These entries, which are restricted and hold an unknown.
    pub fn new(entries: Rc<BTreeMap<RcStr, Expr>>) -> ResidualEntries
        requires restricted { is_restricted (record_tree (bare_entries entries.value.entries)) ≡ true }
        requires waits { is_ground (record_tree (bare_entries entries.value.entries)) ≡ false }
        ensures { residual_entries result ≡ bare_entries entries.value.entries }
    {
        ResidualEntries { entries }
    }

    /// The expressions, by their keys.
    pub fn entries(&self) -> &Rc<BTreeMap<RcStr, Expr>>
        ensures { bare_entries result.now.value.entries ≡ residual_entries self.now }
    {
        &self.entries
    }

    /// The expressions, by their keys.
    pub fn into_entries(self) -> Rc<BTreeMap<RcStr, Expr>>
        ensures entries { bare_entries result.value.entries ≡ residual_entries self }
        ensures restricted { is_restricted (record_tree (bare_entries result.value.entries)) ≡ true }
        ensures waits { is_ground (record_tree (bare_entries result.value.entries)) ≡ false }
    {
        let ResidualEntries { entries } = self;
        entries
    }
}
