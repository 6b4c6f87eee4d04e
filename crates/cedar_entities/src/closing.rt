//! The ancestors that are kept.

use crate::entity::Entity;
use crate::errors::EntitiesError;
use cedar_closure::{enforce_tc_and_dag, rebuild_tc, rebuild_tc_at};
use cedar_literals::uids::EntityUID;
use std::alloc::Global;
use std::collections::BTreeMap;

/// What is to become of the ancestors that are kept when a store is edited.
#[derive(Debug, PartialEq, Eq, Clone, Copy)]
pub enum TCComputation {
    /// What was handed in is taken as it is: the caller knows that it is whole.
    AssumeAlreadyComputed,
    /// What was handed in is taken as it is, and refused if it isn't its own closure without a cycle.
    EnforceAlreadyComputed,
    /// The ancestors of each entity are computed from the parents; a cycle is refused.
    ComputeNow,
}

impl TCComputation {
    ghost use Rattle.std.specs.Prelude.{OnOk, OnErr, IfOk, IfErr, IfSome, IsTrue};
    ghost use Rattle.cedar_entities.specs.Kept.{in_map, IsByUid, IsWhole, KeepsBeside};
    ghost use Rattle.cedar_entities.specs.Beside.{among, IsSameBeside};
    ghost use Rattle.cedar_entities.specs.Modes.{IsComputed, IsEnforced, IsClosedAs, IsClosureRefusal};
    ghost use Rattle.cedar_entities.specs.declared.closing.TCComputation.TheVariants.{ComputeNow, EnforceAlreadyComputed};

    // Keeps beside the parents what they reach.
    fn compute(
        alloc: Global,
        entities: &mut BTreeMap<EntityUID, Entity>,
    ) -> Result<(), EntitiesError>
        ensures computed { OnOk result (IsComputed (in_map entities.old) (in_map entities.new)) }
        ensures by_uid { IsByUid (in_map entities.old) → IsByUid (in_map entities.new) }
        ensures refused { IfErr result (IsClosureRefusal ComputeNow (in_map entities.old)) }
    {
        rebuild_tc(alloc, entities, true)?;
        Ok(())
    }

    /// Keeps beside the parents what they reach, where this is done for all but these uids.
    pub(crate) fn compute_at(
        alloc: Global,
        entities: &mut BTreeMap<EntityUID, Entity>,
        stale: &[EntityUID],
    ) -> Result<(), EntitiesError>
        requires { KeepsBeside stale.now (in_map entities.old) }
        ensures computed { OnOk result (IsComputed (in_map entities.old) (in_map entities.new)) }
        ensures by_uid { IsByUid (in_map entities.old) → IsByUid (in_map entities.new) }
        ensures refused { IfErr result (IsClosureRefusal ComputeNow (in_map entities.old)) }
        ensures beside { OnErr result (IsSameBeside (among stale.now) (in_map entities.old) (in_map entities.new)) }
    {
        rebuild_tc_at(alloc, entities, stale, true)?;
        Ok(())
    }

    // Keeps beside the parents what they reach, for all or for those that are stale.
    fn compute_stale(
        alloc: Global,
        entities: &mut BTreeMap<EntityUID, Entity>,
        stale: Option<Vec<EntityUID>>,
    ) -> Result<(), EntitiesError>
        requires { IfSome stale (λ uids. KeepsBeside uids.items (in_map entities.old)) }
        ensures computed { OnOk result (IsComputed (in_map entities.old) (in_map entities.new)) }
        ensures by_uid { IsByUid (in_map entities.old) → IsByUid (in_map entities.new) }
        ensures refused { IfErr result (IsClosureRefusal ComputeNow (in_map entities.old)) }
    {
        match stale {
            Some(uids) => TCComputation::compute_at(alloc, entities, &uids),
            None => TCComputation::compute(alloc, entities),
        }
    }

    // Refuses ancestors that aren't their own closure.
    fn enforce(alloc: Global, entities: &BTreeMap<EntityUID, Entity>) -> Result<(), EntitiesError>
        ensures enforced { OnOk result (IsEnforced (in_map entities.now) (in_map entities.now)) }
        ensures refused { IfErr result (IsClosureRefusal EnforceAlreadyComputed (in_map entities.now)) }
    {
        enforce_tc_and_dag(alloc, entities)?;
        Ok(())
    }

    /// Closes the ancestors of a map's entities, or sees that they are closed; those that are stale alone, where
    /// it is said which are. Answers whether they are then known to be what the parents reach.
    pub(crate) fn close(
        self,
        alloc: Global,
        entities: &mut BTreeMap<EntityUID, Entity>,
        stale: Option<Vec<EntityUID>>,
    ) -> Result<bool, EntitiesError>
        requires { IfSome stale (λ uids. KeepsBeside uids.items (in_map entities.old)) }
        ensures closed { OnOk result (IsClosedAs self (in_map entities.old) (in_map entities.new)) }
        ensures known { IfOk result (λ known. IsTrue known → IsWhole (in_map entities.new)) }
        ensures by_uid { IsByUid (in_map entities.old) → IsByUid (in_map entities.new) }
        ensures refused { IfErr result (IsClosureRefusal self (in_map entities.old)) }
    {
        match self {
            TCComputation::AssumeAlreadyComputed => Ok(false),
            TCComputation::EnforceAlreadyComputed => {
                TCComputation::enforce(alloc, entities)?;
                Ok(false)
            }
            TCComputation::ComputeNow => {
                TCComputation::compute_stale(alloc, entities, stale)?;
                Ok(true)
            }
        }
    }
}
