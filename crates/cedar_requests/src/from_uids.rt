// Entries from uids.
use crate::entries::EntityUIDEntry;
use cedar_literals::uids::EntityUID;
use cedar_names::conversions::FromIn;
use std::alloc::{AllocError, Global};

impl FromIn<EntityUID> for EntityUIDEntry {
    type Error = AllocError;

    ghost use Rattle.std.specs.Prelude.{◌≡◌, IfOk};
    ghost use Rattle.cedar_partial_evaluation.specs.Question.{Given};
    ghost use Rattle.cedar_requests.specs.Parts.{part_of};

    ghost from_in_gives = { λ uid result. IfOk result (λ entry. part_of entry ≡ Given uid) };

    /// The entity of this uid; refused for memory alone. Its place is the uid's, of which no contract speaks.
    fn from_in(alloc: Global, uid: EntityUID) -> Result<EntityUIDEntry, AllocError> {
        let loc = match uid.loc() {
            None => None,
            Some(loc) => Some(loc.clone(alloc)?),
        };
        EntityUIDEntry::known(alloc, uid, loc)
    }
}
