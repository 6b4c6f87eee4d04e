// The policies that err.
ghost use Rattle.std.specs.Prelude.{◌≡◌, true, IfOk};
ghost use Rattle.std.specs.FinMap as finite;
ghost use Rattle.cedar_replies.specs.Erring.{have_kinds, with_kinds};

use crate::error_kind::ErrorKind;
use cedar_policy_parts::PolicyID;
use std::alloc::{AllocError, Global};
use std::marker::Model;

/// The ids of policies that err, each with the kind of its error, in the order of the ids' bytes.
#[derive(Debug, Drop)]
pub struct Erring {
    entries: Vec<(PolicyID, ErrorKind)>,
}

impl Model for Erring {
    ghost use Rattle.std.specs.Prelude.{◌≡◌, true, map};
    ghost use Rattle.std.specs.Coded.{codes, coded_list, coded_ℕ};
    ghost use Rattle.std.specs.FinMap as finite;
    ghost use Rattle.std.specs.List.Sorted.{IsStrictlySortedBy};
    ghost use Rattle.cedar_language.specs.Value.{Kind};
    ghost use Rattle.cedar_world.specs.Orders.{TextMap, text_cmp};
    ghost use Rattle.cedar_replies.specs.Erring.{have_kinds, with_kinds};

    ghost Value = { TextMap Kind };

    ghost coded = { finite.code (coded_list coded_ℕ) (Prim.hlevel codes) };

    ghost view = { λ set. finite.from_entries (with_kinds set.entries.items) };

    ghost invariant = { λ set. (have_kinds set.entries.items ≡ true) × IsStrictlySortedBy text_cmp (map (λ e. e.0) set.entries.items) };
}

impl Erring {
    /// No policy errs.
    pub fn none(alloc: Global) -> Erring
        ensures { result ≡ finite.empty }
    {
        Erring {
            entries: Vec::new(alloc),
        }
    }

    /// The erring policies of a list. Of an id that stands twice the kind first met is kept. It errs
    /// for want of memory to sort by alone.
    pub fn new(mut entries: Vec<(PolicyID, ErrorKind)>) -> Result<Erring, AllocError>
        requires { have_kinds entries.items ≡ true }
        ensures { IfOk result (λ set. set ≡ finite.from_entries (with_kinds entries.items)) }
    {
        entries.sort_by(|a, b| a.0.cmp(&b.0))?;
        entries.dedup_by(|later, kept| later.0 == kept.0);
        Ok(Erring { entries })
    }

    /// The ids and their kinds, each id once, in the order of the ids' bytes.
    pub fn as_slice(&self) -> &[(PolicyID, ErrorKind)]
        ensures entries { with_kinds result.now ≡ finite.entries self.now }
        ensures kinds { have_kinds result.now ≡ true }
    {
        self.entries.as_slice()
    }
}

impl Clone for Erring {
    ghost is_clone = { λ set copy. copy ≡ set };

    fn clone(&self) -> Result<Erring, AllocError> {
        Ok(Erring {
            entries: self.entries.clone()?,
        })
    }
}
