// The policies of a text put to those of a policy set.
ghost use Rattle.std.specs.Prelude.{◌≡◌, List, map, IfOk, OnErr};
ghost use Rattle.std.specs.Map.{keys_of};
ghost use Rattle.cedar_world.specs.PolicyEdits.{Loads};
ghost use Rattle.cedar_grammar.specs.Syntax.{PolicySyntax};
ghost use Rattle.cedar_policy_set.specs.Texts.{text_entries};
ghost use Rattle.cedar_held.specs.PolicyWorlds.{policies_in};
ghost use Rattle.cedar_store.specs.Renaming.{new_id};
ghost use Rattle.cedar_held.specs.HoldingPolicies.{IsHeld, IsText};

use crate::worlds::texts_are_loaded;
use cedar_policy_parts::PolicyID;
use cedar_policy_set::sets::PolicySet;
use cedar_store::ast::{Merging, Renaming, renamed_id, renaming_of};
use std::alloc::{AllocError, Global};

// Puts the policies of a text to those of the set; answers the ids under which they now stand.
pub fn load(
    alloc: Global,
    set: &mut PolicySet,
    policies: &PolicySet,
) -> Result<Vec<PolicyID>, AllocError>
    requires held { IsHeld set.old }
    requires text { IsText policies.now }
    ensures loaded { IfOk result (λ ids. (ss : List PolicySyntax) → policies.now ≡ text_entries 0 ss → Loads (policies_in set.old) ss ids.items (policies_in set.new)) }
    ensures held { IsHeld set.new }
    ensures err { OnErr result (policies_in set.new ≡ policies_in set.old) }
{
    texts_are_loaded();
    // The contract of `len` is what says that a set is whole, and how many ids it binds at the most.
    let _mine = set.len();
    let _theirs = policies.len();
    let renaming = renaming_of(alloc, set, policies)?;
    let ids = new_ids(alloc, policies, &renaming)?;
    set.join(alloc, policies, &renaming)?;
    Ok(ids)
}

// The ids under which the policies stand after a renaming, in their order.
fn new_ids(
    alloc: Global,
    policies: &PolicySet,
    renaming: &Renaming,
) -> Result<Vec<PolicyID>, AllocError>
    ensures { IfOk result (λ ids. ids.items ≡ map (new_id renaming.now) (keys_of policies.now)) }
{
    let mut ids = Vec::new(alloc);
    for bound in policies.values() {
        ids.push(renamed_id(renaming, bound.id())?)?;
    }
    Ok(ids)
}
