// The uids that occur in values.
ghost use Rattle.std.specs.Prelude.{◌≡◌, ◌||◌, IfOk, OnOk};
ghost use Rattle.std.specs.BTreeSet.{contains};
ghost use Rattle.cedar_language.specs.Order.{all_of};
ghost use Rattle.cedar_language.specs.Uid.{Uid};
ghost use Rattle.cedar_literals.specs.Literals.{literal_of};
ghost use Rattle.cedar_language.specs.Order.{uid_cmp};
ghost use Rattle.cedar_values.specs.Kinds.{value_of, values_of};
ghost use Rattle.cedar_values.specs.Occurring.{occurs_in, occurs_among, is_uid};

use crate::values::{Set, Value, ValueKind};
use cedar_literals::literals::Literal;
use cedar_literals::uids::EntityUID;
use std::alloc::{AllocError, Global};
use std::collections::{BTreeMap, BTreeSet};
use std::rc::RcStr;

impl ValueKind {
    /// The uids that occur in it as literals; refused for memory alone.
    pub fn all_literal_uids(&self, alloc: Global) -> Result<BTreeSet<EntityUID>, AllocError>
        ensures { IfOk result (λ uids. (u : Uid) → contains uid_cmp uids u ≡ occurs_in (value_of self.now) u) }
    {
        let mut uids = BTreeSet::new(alloc);
        gather_uids(alloc, self, &mut uids)?;
        Ok(uids)
    }
}

impl Value {
    /// The uids that occur in it as literals; refused for memory alone.
    pub fn all_literal_uids(&self, alloc: Global) -> Result<BTreeSet<EntityUID>, AllocError>
        ensures { IfOk result (λ uids. (u : Uid) → contains uid_cmp uids u ≡ occurs_in self.now u) }
    {
        self.value.all_literal_uids(alloc)
    }
}

#[cycle(gather_uids)]
fn gather_uids(
    alloc: Global,
    kind: &ValueKind,
    uids: &mut BTreeSet<EntityUID>,
) -> Result<(), AllocError>
    ensures { OnOk result ((u : Uid) → contains uid_cmp uids.new u ≡ (contains uid_cmp uids.old u || occurs_in (value_of kind.now) u)) }
{
    match kind {
        ValueKind::Lit(literal) => gather_literal(alloc, literal, uids),
        ValueKind::Set(set) => gather_members(alloc, set, uids),
        ValueKind::Record(fields) => gather_fields(alloc, fields, uids),
        ValueKind::ExtensionValue(_) => Ok(()),
    }
}

#[cycle(gather_uids)]
fn gather_members(
    alloc: Global,
    set: &Set,
    uids: &mut BTreeSet<EntityUID>,
) -> Result<(), AllocError>
    ensures { OnOk result ((u : Uid) → contains uid_cmp uids.new u ≡ (contains uid_cmp uids.old u || occurs_among (all_of set.now) u)) }
{
    for member in set.members.authoritative.iter() {
        gather_uids(alloc, &member.value, uids)?;
    }
    Ok(())
}

#[cycle(gather_uids)]
fn gather_fields(
    alloc: Global,
    fields: &BTreeMap<RcStr, Value>,
    uids: &mut BTreeSet<EntityUID>,
) -> Result<(), AllocError>
    ensures { OnOk result ((u : Uid) → contains uid_cmp uids.new u ≡ (contains uid_cmp uids.old u || occurs_among (values_of fields.now.entries) u)) }
{
    for (_key, value) in fields {
        gather_uids(alloc, &value.value, uids)?;
    }
    Ok(())
}

fn gather_literal(
    alloc: Global,
    literal: &Literal,
    uids: &mut BTreeSet<EntityUID>,
) -> Result<(), AllocError>
    ensures { OnOk result ((u : Uid) → contains uid_cmp uids.new u ≡ (contains uid_cmp uids.old u || is_uid (literal_of literal.now) u)) }
{
    if let Literal::EntityUID(uid) = literal {
        uids.insert(EntityUID::clone(uid, alloc)?)?;
    }
    Ok(())
}
