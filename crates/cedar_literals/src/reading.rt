// Reading uids from texts.
ghost use Rattle.std.specs.Prelude.{MatchOption};
ghost use Rattle.cedar_literals.specs.Reading.{IsNoUid, IsCut};

use crate::uids::{Eid, EntityType, EntityUID};
use crate::unescaping::unescaped;
use cedar_names::errors::ParseNameError;
use cedar_names::reading::FromNormalizedStr;
use std::alloc::Global;

impl FromNormalizedStr for EntityUID {
    ghost use Rattle.cedar_literals.specs.Reading.{ReadsUid};

    ghost reads = { ReadsUid };

    fn from_normalized_str(alloc: Global, text: &str) -> Result<EntityUID, ParseNameError> {
        let Some((type_name, id)) = split_uid(text) else {
            return Err(ParseNameError::NotNormalized);
        };
        let eid = Eid::new(unescaped(alloc, id)?);
        let entity_type = EntityType::from_normalized_str(alloc, type_name)?;
        Ok(EntityUID::from_components(entity_type, eid, None))
    }
}

// The name of the type, and what stands between the quotes.
fn split_uid(text: &str) -> Option<(&str, &str)>
    ensures { MatchOption result (IsNoUid text.now) (λ x. IsCut text.now x.0.now x.1.now) }
{
    let (front, back) = text.split_once('"')?;
    let colon = front.strip_suffix(':')?;
    let name = colon.strip_suffix(':')?;
    let id = back.strip_suffix('"')?;
    Some((name, id))
}
