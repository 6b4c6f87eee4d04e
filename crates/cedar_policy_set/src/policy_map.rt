//! What stands under policy ids.
ghost use Rattle.std.specs.Prelude.{◌≡◌, ◌↔◌, ◌^◌, ◌-◌, ◌<◌, ◌++◌, List, [], ◌∷◌, All, IsTrue, IfOk, IfSome, IfNone, OnOk, OnErr, None, is_some, length, option_map, position, remove, slice_get, take};
ghost use Rattle.std.specs.List.{IsDistinct};
ghost use Rattle.std.specs.Map.{keys_of, lookup, remove_entry, values_of};
ghost use Rattle.std.specs.Map.Iter.{deref_pair};
ghost use Rattle.std.specs.Option.{option_copied, unwrap_or};
ghost use Rattle.std.specs.Slice.Iter.{iter_rest};
ghost use Rattle.cedar_language.specs.Uid.{Text};
ghost use Rattle.cedar_language.specs.Order.{same_text};
ghost use Rattle.cedar_policy_set.specs.Places.{put, AreKept, Tells};

use crate::map_values::{IntoValues, Values};
use crate::places::Places;
use cedar_policy_parts::PolicyID;
use std::alloc::{AllocError, Global};
use std::marker::Model;
use std::{fmt, mem, slice};

// So many entries are looked at one by one; a map that has had more of them keeps an order of its ids.
const FEW: usize = 64;

/// What stands under policy ids, in the order in which it came. An id is found by an order of ids where there
/// are many, else by a look at each, so that no choice of ids makes it slow, and a removal changes nothing of
/// what stands before it. Contracts see the ids, each with what stands there.
#[derive(Drop)]
pub struct PolicyMap<V> {
    // none while the entries have been few
    places: Option<Places>,
    entries: Vec<(PolicyID, V)>,
}

impl<V> Model for PolicyMap<V> {
    ghost use Rattle.std.specs.Prelude.{List};
    ghost use Rattle.std.specs.Map.{keys_of};
    ghost use Rattle.cedar_language.specs.Uid.{Text};
    ghost use Rattle.cedar_policy_set.specs.Places.{AreKept};

    ghost Value = { List (Text × V) };

    ghost view = { λ m. m.entries.items };

    ghost invariant = { λ m. AreKept m.places (keys_of m.entries.items) };
}

/// Each id with what stands there.
impl<V: fmt::Debug> fmt::Debug for PolicyMap<V> {
    fn fmt<W: fmt::Write>(&self, f: &mut fmt::Formatter<W>) -> fmt::Result {
        let mut map = f.debug_map();
        for (id, value) in &self.entries {
            map.entry(id, value);
        }
        map.finish()
    }
}

/// Each id with a copy of what stands there.
impl<V: Clone> Clone for PolicyMap<V> {
    ghost use Rattle.std.specs.List.{AllZip};

    ghost is_clone = { λ map copy. AllZip (λ e f. (f.0 ≡ e.0) × V.is_clone e.1 f.1) map copy };

    fn clone(&self) -> Result<PolicyMap<V>, AllocError> {
        let entries = self.entries.clone()?;
        let places = places_like(*entries.allocator(), &self.places, &entries)?;
        Ok(PolicyMap { places, entries })
    }
}

impl<V> PolicyMap<V> {
    ghost use Rattle.std.specs.List.{AllZip};

    /// The map of nothing; takes no memory.
    pub fn new(alloc: Global) -> PolicyMap<V>
        ensures { result ≡ [] }
    {
        PolicyMap {
            places: None,
            entries: Vec::new(alloc),
        }
    }

    /// A copy, which holds a copy of what stands under each id; refused for memory alone.
    pub fn clone(&self, _alloc: Global) -> Result<PolicyMap<V>, AllocError>
    where
        V: Clone,
        ensures { IfOk result (AllZip (λ e f. (f.0 ≡ e.0) × V.is_clone e.1 f.1) self.now) }
    {
        Clone::clone(self)
    }

    /// The allocator that it takes memory from, which is the only one there is: no contract tells it.
    pub fn allocator(&self) -> &Global {
        self.entries.allocator()
    }

    /// How many ids there are.
    pub fn len(&self) -> usize
        ensures len { result ≡ length self.now }
        ensures small { result < 2 ^ 63 }
        ensures distinct { IsDistinct same_text (keys_of self.now) }
    {
        self.entries.len()
    }

    /// Whether there is no id.
    pub fn is_empty(&self) -> bool
        ensures { IsTrue result ↔ (length self.now ≡ 0) }
    {
        self.entries.is_empty()
    }

    /// The position of an id in their order.
    pub fn get_index_of(&self, id: &PolicyID) -> Option<usize>
        ensures { result ≡ position (same_text id.now) (keys_of self.now) }
    {
        match &self.places {
            Some(places) => places.position(id),
            None => position_among(&self.entries, id),
        }
    }

    /// What stands under an id.
    pub fn get(&self, id: &PolicyID) -> Option<&V>
        ensures { option_copied result ≡ lookup (same_text id.now) self.now }
    {
        let position = self.get_index_of(id)?;
        Some(&self.entries[position].1)
    }

    /// Whether something stands under an id.
    pub fn contains_key(&self, id: &PolicyID) -> bool
        ensures { result ≡ is_some (lookup (same_text id.now) self.now) }
    {
        self.get(id).is_some()
    }

    /// The id at a position in their order, with what stands there.
    pub fn get_index(&self, position: usize) -> Option<(&PolicyID, &V)>
        ensures { option_map deref_pair result ≡ slice_get self.now position }
    {
        let (id, value) = self.entries.get(position)?;
        Some((id, value))
    }

    /// The ids with what stands there, lent, in their order.
    pub fn iter(&self) -> slice::Iter<'_, (PolicyID, V)>
        ensures { iter_rest result ≡ self.now }
    {
        self.entries.iter()
    }

    /// What stands under the ids, lent, in their order.
    pub fn values(&self) -> Values<'_, V>
        ensures { result ≡ values_of self.now }
    {
        Values {
            entries: self.entries.iter(),
        }
    }

    /// What stands under the ids, given up, in their order.
    pub fn into_values(self) -> IntoValues<V>
        ensures { result ≡ values_of self }
    {
        IntoValues {
            entries: self.into_entries().into_iter(),
        }
    }

    /// Puts it last, under an id that isn't there. Refused for memory alone; a refused call changes nothing.
    pub fn push(&mut self, id: PolicyID, value: V) -> Result<(), AllocError>
    where
        V: Drop,
        requires { lookup (same_text id) self.old ≡ None }
        ensures pushed { OnOk result (self.new ≡ self.old ++ (id, value) ∷ []) }
        ensures err { OnErr result (self.new ≡ self.old) }
    {
        self.entries.reserve(1)?;
        let alloc = *self.entries.allocator();
        place_next(alloc, &mut self.places, &self.entries, &id)?;
        self.entries.push((id, value))?;
        Ok(())
    }

    /// Puts it under an id: in the place of what stands there, which is given back, or last. Refused for memory
    /// alone; a refused call changes nothing.
    pub fn insert(&mut self, id: PolicyID, value: V) -> Result<Option<V>, AllocError>
    where
        V: Drop,
        ensures put { OnOk result (self.new ≡ put self.old id value) }
        ensures before { IfOk result (λ before. before ≡ lookup (same_text id) self.old) }
        ensures err { OnErr result (self.new ≡ self.old) }
    {
        match self.get_index_of(&id) {
            Some(position) => Ok(Some(mem::replace(&mut self.entries[position].1, value))),
            None => {
                self.push(id, value)?;
                Ok(None)
            }
        }
    }

    /// Takes an id away, and gives what stood there. Where memory lacks to keep the order of ids, they are looked
    /// for one by one until the next id comes; nothing is refused.
    pub fn shift_remove(&mut self, id: &PolicyID) -> Option<V>
        ensures value { result ≡ lookup (same_text id.now) self.old }
        ensures entries { self.new ≡ remove_entry (same_text id.now) self.old }
        ensures unique { IsDistinct same_text (keys_of self.new) }
    {
        let (_, value) = self.shift_remove_full(id)?;
        Some(value)
    }

    /// The same, and gives the position too at which it stood.
    pub fn shift_remove_full(&mut self, id: &PolicyID) -> Option<(usize, V)>
        ensures position { option_map (λ r. r.0) result ≡ position (same_text id.now) (keys_of self.old) }
        ensures value { option_map (λ r. r.1) result ≡ lookup (same_text id.now) self.old }
        ensures entries { self.new ≡ remove_entry (same_text id.now) self.old }
        ensures unique { IsDistinct same_text (keys_of self.new) }
    {
        let alloc = *self.entries.allocator();
        let position = take_place(alloc, &mut self.places, &self.entries, id)?;
        let (_, value) = self.entries.remove(position);
        Some((position, value))
    }

    /// Puts these last, in their order, of which no id is there. Refused for memory alone; a refused call changes
    /// nothing.
    pub fn append(&mut self, more: PolicyMap<V>) -> Result<(), AllocError>
    where
        V: Drop,
        requires { IsDistinct same_text (keys_of (self.old ++ more)) }
        ensures appended { OnOk result (self.new ≡ self.old ++ more) }
        ensures err { OnErr result (self.new ≡ self.old) }
    {
        let len = self.len();
        for (id, value) in more.into_entries() {
            if let Err(error) = self.push(id, value) {
                self.truncate(len);
                return Err(error);
            }
        }
        Ok(())
    }

    // The ids with what stands there, given up.
    fn into_entries(self) -> Vec<(PolicyID, V)>
        ensures { result.items ≡ self }
    {
        let PolicyMap {
            places: _places,
            entries,
        } = self;
        entries
    }

    // Takes away what stands from a position on. The places are made again when the next comes.
    fn truncate(&mut self, len: usize)
    where
        V: Drop,
        ensures { self.new ≡ take len self.old }
    {
        self.places = None;
        self.entries.truncate(len);
    }
}

// The position of an id, looked for at each entry.
fn position_among<V>(entries: &[(PolicyID, V)], id: &PolicyID) -> Option<usize>
    ensures { result ≡ position (λ entry. same_text id.now entry.0) entries.now }
{
    entries.iter().position(|(other, _)| is_same(id, other))
}

// Whether both are one id. Ids that are numbered, as `policy10` and `policy11`, mostly differ in their last byte.
fn is_same(id: &PolicyID, other: &PolicyID) -> bool
    ensures { result ≡ same_text id.now other.now }
{
    last_byte(id) == last_byte(other) && id == other
}

// The last byte of an id, and 0 where it has none.
fn last_byte(id: &PolicyID) -> u8
    ensures { result ≡ unwrap_or (slice_get id.now (length id.now - 1)) 0 }
{
    id.as_str().as_bytes().last().copied().unwrap_or(0)
}

// An id comes last. The places are made once the entries aren't few.
fn place_next<V>(
    alloc: Global,
    places: &mut Option<Places>,
    entries: &[(PolicyID, V)],
    id: &PolicyID,
) -> Result<(), AllocError>
    requires kept { AreKept places.old (keys_of entries.now) }
    requires free { lookup (same_text id.now) entries.now ≡ None }
    requires small { length entries.now < 2 ^ 63 }
    ensures placed { OnOk result (AreKept places.new (keys_of entries.now ++ id.now ∷ [])) }
    ensures err { OnErr result (AreKept places.new (keys_of entries.now)) }
{
    match places {
        Some(places) => place_last(places, entries, id),
        None if entries.len() < FEW => Ok(()),
        None => {
            let mut made = places_of(alloc, entries)?;
            place_last(&mut made, entries, id)?;
            *places = Some(made);
            Ok(())
        }
    }
}

// An id comes last in the places of these.
fn place_last<V>(
    places: &mut Places,
    entries: &[(PolicyID, V)],
    id: &PolicyID,
) -> Result<(), AllocError>
    requires told { Tells places.old (keys_of entries.now) }
    requires free { lookup (same_text id.now) entries.now ≡ None }
    requires small { length entries.now < 2 ^ 63 }
    ensures placed { OnOk result (Tells places.new (keys_of entries.now ++ id.now ∷ [])) }
    ensures err { OnErr result (Tells places.new (keys_of entries.now)) }
{
    places.push(copy_of(id)?)
}

// Takes an id out of the places, where there are any, and tells where it stands. No places are left where memory
// lacks.
fn take_place<V>(
    alloc: Global,
    places: &mut Option<Places>,
    entries: &[(PolicyID, V)],
    id: &PolicyID,
) -> Option<usize>
    requires kept { AreKept places.old (keys_of entries.now) }
    requires small { length entries.now < 2 ^ 63 }
    ensures position { result ≡ position (same_text id.now) (keys_of entries.now) }
    ensures kept { IfSome result (λ position. AreKept places.new (remove (keys_of entries.now) position)) }
    ensures none { IfNone result (AreKept places.new (keys_of entries.now)) }
{
    thin_out(alloc, places, entries);
    match places {
        None => position_among(entries, id),
        Some(told) => {
            let position = told.position(id)?;
            if told.take_out(id, position).is_err() {
                *places = None;
            }
            Some(position)
        }
    }
}

// Makes the places again where more ids were taken out of them than are left.
fn thin_out<V>(alloc: Global, places: &mut Option<Places>, entries: &[(PolicyID, V)])
    requires kept { AreKept places.old (keys_of entries.now) }
    requires small { length entries.now < 2 ^ 63 }
    ensures { AreKept places.new (keys_of entries.now) }
{
    let is_sparse = match places {
        Some(told) => told.is_sparse(),
        None => false,
    };
    if is_sparse {
        *places = places_of(alloc, entries).ok();
    }
}

// The places of these ids, where there are places.
fn places_like<V>(
    alloc: Global,
    places: &Option<Places>,
    entries: &[(PolicyID, V)],
) -> Result<Option<Places>, AllocError>
    requires distinct { IsDistinct same_text (keys_of entries.now) }
    requires small { length entries.now < 2 ^ 63 }
    ensures { IfOk result (λ made. AreKept made (keys_of entries.now)) }
{
    match places {
        Some(_) => Ok(Some(places_of(alloc, entries)?)),
        None => Ok(None),
    }
}

// The places of these ids.
fn places_of<V>(alloc: Global, entries: &[(PolicyID, V)]) -> Result<Places, AllocError>
    requires distinct { IsDistinct same_text (keys_of entries.now) }
    requires small { length entries.now < 2 ^ 63 }
    ensures { IfOk result (λ places. Tells places (keys_of entries.now)) }
{
    let mut places = Places::new(alloc);
    for (id, _) in entries {
        places.push(copy_of(id)?)?;
    }
    Ok(places)
}

// The id again. Refused for memory alone.
fn copy_of(id: &PolicyID) -> Result<PolicyID, AllocError>
    ensures { IfOk result (λ copy. copy ≡ id.now) }
{
    Ok(id.clone()?)
}
