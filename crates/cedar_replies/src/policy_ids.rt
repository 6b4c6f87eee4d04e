// Sets of policies' ids.
ghost use Rattle.std.specs.Prelude.{◌≡◌};
ghost use Rattle.std.specs.FinMap as finite;
ghost use Rattle.cedar_world.specs.Answer.{ids_of};

use crate::runs::{merge_runs, rise};
use cedar_policy_parts::PolicyID;
use std::alloc::AllocError;
use std::marker::Model;

/// A set of policies' ids, in the order of their bytes.
#[derive(Debug, Drop)]
pub struct PolicyIds {
    ids: Vec<PolicyID>,
}

impl Model for PolicyIds {
    ghost use Rattle.std.specs.Coded.{coded_list, coded_ℕ};
    ghost use base.Stored.{coded_unit};
    ghost use Rattle.std.specs.FinMap as finite;
    ghost use Rattle.std.specs.List.Sorted.{IsStrictlySortedBy};
    ghost use Rattle.cedar_world.specs.Orders.{text_cmp};
    ghost use Rattle.cedar_world.specs.Answer.{Ids, ids_of};

    ghost Value = { Ids };

    ghost coded = { finite.code (coded_list coded_ℕ) coded_unit };

    ghost view = { λ set. ids_of set.ids.items };

    ghost invariant = { λ set. IsStrictlySortedBy text_cmp set.ids.items };
}

impl PolicyIds {
    /// The set of these ids. It takes no memory.
    pub fn new(mut ids: Vec<PolicyID>) -> PolicyIds
        ensures { result ≡ ids_of ids.items }
    {
        merge_runs(ids.as_mut_slice());
        if rise(ids.as_slice()) {
            return PolicyIds { ids };
        }
        ids.sort_unstable();
        ids.dedup();
        PolicyIds { ids }
    }

    /// The ids, each once, in the order of their bytes.
    pub fn as_slice(&self) -> &[PolicyID]
        ensures { result.now ≡ finite.keys self.now }
    {
        self.ids.as_slice()
    }

    /// The ids, each once, in the order of their bytes.
    pub fn into_vec(self) -> Vec<PolicyID>
        ensures { result.items ≡ finite.keys self }
    {
        let PolicyIds { ids } = self;
        ids
    }
}

impl Clone for PolicyIds {
    ghost is_clone = { λ set copy. copy ≡ set };

    fn clone(&self) -> Result<PolicyIds, AllocError> {
        Ok(PolicyIds {
            ids: self.ids.clone()?,
        })
    }
}
