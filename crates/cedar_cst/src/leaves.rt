// What the trees of the loose syntax end in.
ghost use Rattle.std.specs.Prelude.{◌≡◌, ◌↔◌, Some, IsTrue};
ghost use Rattle.cedar_literals.specs.Variables.{variable_of};
ghost use Rattle.cedar_cst.specs.LeafView.{view_slot};
ghost use Rattle.cedar_cst.specs.Slots.{own_slot};

use crate::node::Node;
use cedar_literals::slots::SlotId;
use cedar_literals::variables::Var;
use std::rc::RcStr;

/// A word: an identifier, or one of Cedar's own.
#[derive(Clone, Debug, PartialEq, Eq, Drop)]
pub enum Ident {
    Principal,
    Action,
    Resource,
    Context,
    True,
    False,
    Permit,
    Forbid,
    When,
    Unless,
    In,
    Has,
    Like,
    Is,
    If,
    Then,
    Else,
    /// Any other word.
    Ident(RcStr),
    /// What should be a word and isn't one.
    Invalid(String),
}

/// A string, as it is written between its quotes: with its escapes.
#[derive(Clone, Debug, PartialEq, Eq, Drop)]
pub enum Str {
    /// A string.
    String(RcStr),
    /// What should be a string and isn't one.
    Invalid(RcStr),
}

/// A name: `path::path::name`.
#[derive(Clone, Debug, PartialEq, Eq, Drop)]
pub struct Name {
    /// The words of the namespace, in the text's order.
    pub path: Vec<Node<Option<Ident>>>,
    /// The last word.
    pub name: Node<Option<Ident>>,
}

/// An entity.
#[derive(Clone, Debug, PartialEq, Eq, Drop)]
pub enum Ref {
    /// `path::"eid"`
    Uid {
        path: Node<Option<Name>>,
        eid: Node<Option<Str>>,
    },
    /// `path::{a: 1}`, which stands for nothing.
    Ref {
        path: Node<Option<Name>>,
        rinits: Vec<Node<Option<RefInit>>>,
    },
}

/// An entry of an entity that is written so: a key and its value.
#[derive(Clone, Debug, PartialEq, Eq, Drop)]
pub struct RefInit(pub Node<Option<Ident>>, pub Node<Option<Literal>>);

/// A literal. A string stands in a box, so that other literals are small.
#[derive(Clone, Debug, PartialEq, Eq, Drop)]
pub enum Literal {
    True,
    False,
    /// A number, without a sign.
    Num(u64),
    Str(Box<Node<Option<Str>>>),
}

/// A slot of a template.
#[derive(Clone, Debug, PartialEq, Eq, Drop)]
pub enum Slot {
    /// `?principal`
    Principal,
    /// `?resource`
    Resource,
    /// `?` and any other word: the word.
    Other(RcStr),
}

impl Slot {
    /// Whether it is the slot that may stand for this variable in a scope: `?principal` for the
    /// principal, `?resource` for the resource, none for the others. (Cedar language reference,
    /// "Policy templates".)
    pub fn matches(&self, var: Var) -> bool
        ensures { IsTrue result ↔ (own_slot (variable_of var) ≡ Some (view_slot self.now)) }
    {
        match (self, var) {
            (Slot::Principal, Var::Principal) | (Slot::Resource, Var::Resource) => true,
            _ => false,
        }
    }
}

/// The slot of a template as it is written.
impl From<SlotId> for Slot {
    ghost use Rattle.std.specs.Prelude.{◌≡◌};
    ghost use Rattle.cedar_cst.specs.LeafView.{view_slot};
    ghost use Rattle.cedar_cst.specs.Slots.{written_slot};

    ghost from_gives = { λ id slot. view_slot slot ≡ written_slot id };

    fn from(id: SlotId) -> Slot {
        match id.is_principal() {
            true => Slot::Principal,
            false => Slot::Resource,
        }
    }
}

/// An operator between the operands of a comparison.
#[derive(Clone, Copy, Debug, PartialEq, Eq)]
pub enum RelOp {
    Less,
    LessEq,
    GreaterEq,
    Greater,
    NotEq,
    Eq,
    In,
    /// A single `=`.
    InvalidSingleEq,
}

/// An operator between the operands of a sum.
#[derive(Clone, Copy, Debug, PartialEq, Eq)]
pub enum AddOp {
    Plus,
    Minus,
}

/// An operator between the operands of a product.
#[derive(Clone, Copy, Debug, PartialEq, Eq)]
pub enum MultOp {
    Times,
    Divide,
    Mod,
}

/// The signs before an operand: one to four of a sign, or more.
#[derive(Clone, Copy, Debug, PartialEq, Eq)]
pub enum NegOp {
    Bang(u8),
    OverBang,
    Dash(u8),
    OverDash,
}
