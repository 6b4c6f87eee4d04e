// What a session holds.
ghost use Rattle.std.specs.Prelude.{◌≡◌, None};
ghost use Rattle.std.specs.FinMap as finite;

use crate::asked::Asked;
use crate::called_names::CalledNames;
use cedar_held::{HeldEntities, HeldPolicies};
use std::alloc::Global;

/// What a session holds, apart from its table and its limit.
#[derive(Drop)]
pub(crate) struct Held {
    pub(crate) names: CalledNames,
    pub(crate) policies: HeldPolicies,
    pub(crate) entities: HeldEntities,
    pub(crate) asked: Option<Asked>,
}

impl Held {
    /// No policies and entities, no open question, and no names. Takes no memory.
    pub(crate) fn nothing(alloc: Global) -> Held
        ensures bodies { result.names.bodies ≡ None }
        ensures policy_names { result.names.policies ≡ None }
        ensures policies { result.policies ≡ finite.empty }
        ensures entities { result.entities ≡ finite.empty }
        ensures asked { result.asked ≡ None }
    {
        Held {
            names: CalledNames::new(),
            policies: HeldPolicies::new(alloc),
            entities: HeldEntities::new(alloc),
            asked: None,
        }
    }
}
