// Slots of templates.
ghost use Rattle.std.specs.Prelude.{◌≡◌, ◌↔◌, IsTrue};
ghost use Rattle.cedar_language.specs.Tree.{PrincipalSlot, ResourceSlot};

use cedar_names::places::Loc;
use std::fmt;
use std::marker::Model;

#[derive(Clone, Copy, Debug, PartialEq, Eq, PartialOrd, Ord, Hash)]
enum ValidSlotId {
    Principal,
    Resource,
}

/// Which slot of a template: the one for its principal, or the one for its resource.
#[derive(Clone, Copy, Debug, PartialEq, Eq, PartialOrd, Ord, Hash)]
pub struct SlotId {
    slot: ValidSlotId,
}

impl Model for SlotId {
    ghost use Rattle.cedar_language.specs.Tree as tree;

    ghost Value = { tree.SlotId };

    ghost use Rattle.cedar_literals.specs.Slots.{slot_of, valid_slot, valid_slot_of};

    ghost view = { λ a. slot_of a.slot };

    ghost inverse = { λ slot. record { slot = valid_slot slot } };

    ghost inverse_ok = { λ a h i. record { slot = valid_slot_of a.slot i } };
}

impl SlotId {
    /// The slot `?principal`.
    pub fn principal() -> SlotId
        ensures { result ≡ PrincipalSlot }
    {
        SlotId {
            slot: ValidSlotId::Principal,
        }
    }

    /// The slot `?resource`.
    pub fn resource() -> SlotId
        ensures { result ≡ ResourceSlot }
    {
        SlotId {
            slot: ValidSlotId::Resource,
        }
    }

    /// Whether it is `?principal`.
    pub fn is_principal(&self) -> bool
        ensures { IsTrue result ↔ (self.now ≡ PrincipalSlot) }
    {
        match self.slot {
            ValidSlotId::Principal => true,
            ValidSlotId::Resource => false,
        }
    }

    /// Whether it is `?resource`.
    pub fn is_resource(&self) -> bool
        ensures { IsTrue result ↔ (self.now ≡ ResourceSlot) }
    {
        match self.slot {
            ValidSlotId::Principal => false,
            ValidSlotId::Resource => true,
        }
    }
}

impl fmt::Display for SlotId {
    ghost use Rattle.std.specs.Prelude.{Some};
    ghost use Rattle.cedar_literals.specs.Slots.{slot_text};

    ghost output = { λ slot. Some (slot_text slot) };

    fn fmt<W: fmt::Write>(&self, f: &mut fmt::Formatter<W>) -> fmt::Result {
        match self.slot {
            ValidSlotId::Principal => write!(f, "?principal"),
            ValidSlotId::Resource => write!(f, "?resource"),
        }
    }
}

/// A slot where it is written. `==` and hash look past the place.
#[derive(Clone, Debug, Drop)]
#[derive_where(PartialEq, Eq, Hash)]
pub struct Slot {
    pub id: SlotId,
    #[derive_where(skip(EqHashOrd))]
    pub loc: Option<Loc>,
}
