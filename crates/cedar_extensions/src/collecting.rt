// Maps from pairs whose keys differ.
ghost use Rattle.cedar_extensions.specs.Collecting.{Collects};

use std::alloc::{AllocError, AllocFailed, Global};
use std::collections::HashMap;
use std::fmt::Display;
use std::hash::Hash;
use thiserror::Error;

/// Why pairs aren't collected in a map: a key stands twice, or memory ran out.
#[derive(Debug, PartialEq, Eq, Drop, Error)]
#[error_bound(K: Display)]
pub enum CollectError<K> {
    /// This key stands twice.
    #[error("key `{0}` stands multiple times")]
    Duplicate(K),
    /// Memory ran out.
    #[error(transparent)]
    Memory(AllocError),
}

impl<K, T: Drop> From<AllocFailed<T>> for CollectError<K> {
    ghost use Rattle.std.specs.Prelude.{◌≡◌, alloc_error};
    ghost use Rattle.cedar_extensions.specs.declared.collecting.CollectError.TheVariants.{Memory};

    ghost from_gives = { λ _ made. made ≡ Memory alloc_error };

    fn from(_error: AllocFailed<T>) -> CollectError<K> {
        CollectError::Memory(AllocError)
    }
}

/// The map of these pairs. Refused for the first key that stands before it too, and for memory.
pub fn collect_no_duplicates<K: Hash + Eq + Drop, V: Drop>(
    alloc: Global,
    pairs: Vec<(K, V)>,
) -> Result<HashMap<K, V>, CollectError<K>>
    ensures { Collects K.eq pairs.items result }
{
    let mut map = HashMap::new(alloc);
    for (key, value) in pairs {
        if map.contains_key(&key) {
            return Err(CollectError::Duplicate(key));
        }
        map.insert(key, value)?;
    }
    Ok(map)
}
