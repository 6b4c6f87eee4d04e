// How members of a set are looked up: literals by their hashes, where they are many.
ghost use Rattle.std.specs.Prelude.{◌≡◌, ◌↔◌, IsTrue, IfOk};
ghost use Rattle.std.specs.Option.{option_map, option_copied};
ghost use Rattle.std.specs.List.{Contains};
ghost use Rattle.std.specs.List.Sorted.{IsStrictlySortedBy};
ghost use Rattle.cedar_language.specs.Order.{value_cmp};
ghost use Rattle.cedar_literals.specs.Literals.{literal_of};
ghost use Rattle.cedar_values.specs.Kinds.{plain_of};
ghost use Rattle.cedar_values.specs.LiteralSets as literal_sets;
ghost use Rattle.cedar_values.specs.Lookups.{digest_of, hash_of, FitsMembers, PlacesMembers};
ghost use Rattle.cedar_values.specs.Readers.{literal_in};

use crate::values::orders::cmp_literal;
use crate::values::{Value, ValueKind};
use cedar_literals::literals::Literal;
use std::alloc::{AllocError, Global};
use std::hash::{FoldHasher, Hash, Hasher};

// Among fewer members halving the list costs no more than hashing.
const HASHED_FROM: usize = 16;

// How members are looked up: by halving the list, and where they are many literals, by their hashes.
// Whoever picks the members can make hashes tie, so these are no table, but a list in rising order.
#[derive(Drop)]
pub(super) enum Lookup {
    Values,
    FewLiterals,
    HashedLiterals(Vec<HashedPlace>),
}

// The hash of a member, and where it stands among the members.
#[derive(Clone, Copy)]
pub(super) struct HashedPlace {
    hash: u64,
    position: usize,
}

impl Lookup {
    // The one that fits these members; refused for memory alone.
    pub(super) fn of(alloc: Global, members: &[Value]) -> Result<Lookup, AllocError>
        ensures { IfOk result (λ lookup. FitsMembers lookup members.now) }
    {
        if !are_literals(members) {
            return Ok(Lookup::Values);
        }
        if members.len() < HASHED_FROM {
            return Ok(Lookup::FewLiterals);
        }
        Ok(Lookup::HashedLiterals(places_of(alloc, members)?))
    }
}

impl Value {
    // The literal that it is, if it is one.
    pub(super) fn as_literal(&self) -> Option<&Literal>
        ensures { literal_in self.now ≡ option_map literal_of (option_copied result) }
    {
        match &self.value {
            ValueKind::Lit(literal) => Some(literal),
            ValueKind::Set(_) | ValueKind::Record(_) | ValueKind::ExtensionValue(_) => None,
        }
    }

    fn is_literal(&self) -> bool
        ensures { result ≡ literal_sets.is_literal self.now }
    {
        self.as_literal().is_some()
    }
}

fn are_literals(members: &[Value]) -> bool
    ensures { result ≡ literal_sets.are_literals members.now }
{
    members.iter().all(|member| member.is_literal())
}

// Where each member stands, in rising order of its hash.
fn places_of(alloc: Global, members: &[Value]) -> Result<Vec<HashedPlace>, AllocError>
    ensures { IfOk result (λ places. PlacesMembers places.items members.now) }
{
    let mut places = Vec::with_capacity(alloc, members.len())?;
    for member in members {
        places.push(HashedPlace {
            hash: hash_of(member),
            position: places.len(),
        })?;
    }
    places.sort_unstable_by_key(|place| place.hash);
    Ok(places)
}

// The hash by which a member is looked up.
fn hash_of(member: &Value) -> u64
    ensures { result ≡ hash_of member.now }
{
    match &member.value {
        ValueKind::Lit(literal) => hash_of_literal(literal),
        ValueKind::Set(_) | ValueKind::Record(_) | ValueKind::ExtensionValue(_) => digest(member),
    }
}

// A long has its bits for its hash: so the places of longs rise as these do, but for those below 0, and aren't sorted.
fn hash_of_literal(literal: &Literal) -> u64
    ensures { result ≡ hash_of (plain_of literal.now) }
{
    match literal {
        Literal::Long(n) => n.cast_unsigned(),
        Literal::Bool(_) | Literal::String(_) | Literal::EntityUID(_) => digest(literal),
    }
}

fn digest<T: Hash>(item: &T) -> u64
    ensures { result ≡ digest_of (T.hash_input item.now) }
{
    let mut hasher = FoldHasher::default();
    item.hash(&mut hasher);
    hasher.finish()
}

// Whether a literal is a member: its hash tells, or where another literal has the same hash, the list.
pub(super) fn has_hashed(places: &[HashedPlace], members: &[Value], literal: &Literal) -> bool
    requires places { PlacesMembers places.now members.now }
    requires rising { IsStrictlySortedBy value_cmp members.now }
    ensures { IsTrue result ↔ Contains members.now (plain_of literal.now) }
{
    match places.binary_search_by_key(&hash_of_literal(literal), |place| place.hash) {
        Err(_) => false,
        Ok(at) => {
            stands_at(members, places[at].position, literal) || has_literal(members, literal)
        }
    }
}

fn stands_at(members: &[Value], position: usize, literal: &Literal) -> bool
    ensures { IsTrue result → Contains members.now (plain_of literal.now) }
{
    match members.get(position) {
        None => false,
        Some(member) => cmp_literal(member, literal).is_eq(),
    }
}

// Whether a literal is a member, by halving the list.
pub(super) fn has_literal(members: &[Value], literal: &Literal) -> bool
    requires { IsStrictlySortedBy value_cmp members.now }
    ensures { IsTrue result ↔ Contains members.now (plain_of literal.now) }
{
    members
        .binary_search_by(|member| cmp_literal(member, literal))
        .is_ok()
}

// Whether a value is a member, by halving the list.
pub(super) fn has_value(members: &[Value], value: &Value) -> bool
    requires { IsStrictlySortedBy value_cmp members.now }
    ensures { IsTrue result ↔ Contains members.now value.now }
{
    members.binary_search(value).is_ok()
}
