// Values that are lent from where they are held: nothing of them is copied.
ghost use Rattle.std.specs.Prelude.{◌≡◌, IfSome};
ghost use Rattle.std.specs.Rc.{rc_str_bytes};
ghost use Rattle.cedar_language.specs.Tree as tree;
ghost use Rattle.cedar_language.specs.Order.{all_of};
ghost use Rattle.cedar_language.specs.Value.{Plain, SetOf};
ghost use Rattle.cedar_literals.specs.Literals.{literal_of};
ghost use Rattle.cedar_restricted.specs.PartialValues.{partial_of};
ghost use Rattle.either.specs.declared.Either.TheVariants.{Left};
ghost use Rattle.cedar_interpreter.specs.Glancing.{value_lent};

use cedar_literals::literals::{Integer, Literal};
use cedar_literals::uids::EntityUID;
use cedar_restricted::partial_values::PartialValue;
use cedar_trees::expr::Expr;
use cedar_values::values::{Set, Value, ValueKind};
use std::rc::{Rc, RcStr};

/// A value that an expression has.
#[derive(Clone, Copy)]
pub(crate) enum Lent<'a> {
    /// A Boolean.
    Bool(bool),
    /// A long.
    Long(Integer),
    /// A text.
    Text(&'a RcStr),
    /// An entity.
    Entity(&'a Rc<EntityUID>),
    /// A set, a record or an extension value.
    Held(&'a Value),
    /// The set of these literals, as it is written.
    Written(&'a Vec<Expr>),
}

impl<'a> Lent<'a> {
    /// A literal, lent.
    pub(crate) fn of_literal(literal: &'a Literal) -> Lent<'a>
        ensures { value_lent result ≡ Plain (literal_of literal.now) }
    {
        match literal {
            Literal::Bool(b) => Lent::Bool(*b),
            Literal::Long(n) => Lent::Long(*n),
            Literal::String(text) => Lent::Text(text),
            Literal::EntityUID(uid) => Lent::Entity(uid),
        }
    }

    /// A value, lent.
    pub(crate) fn of_value(value: &'a Value) -> Lent<'a>
        ensures { value_lent result ≡ value.now }
    {
        match value.value_kind() {
            ValueKind::Lit(literal) => Lent::of_literal(literal),
            ValueKind::Set(_) | ValueKind::Record(_) | ValueKind::ExtensionValue(_) => {
                Lent::Held(value)
            }
        }
    }

    /// A partial value, lent, if it is a value.
    pub(crate) fn of_partial(part: &'a PartialValue) -> Option<Lent<'a>>
        ensures { IfSome result (λ seen. partial_of part.now ≡ Left (value_lent seen)) }
    {
        match part {
            PartialValue::Value(value) => Some(Lent::of_value(value)),
            PartialValue::Residual(_) => None,
        }
    }

    /// The Boolean that it is.
    pub(crate) fn truth(self) -> Option<bool>
        ensures { IfSome result (λ b. value_lent self.entry ≡ Plain (tree.Boolean b)) }
    {
        match self {
            Lent::Bool(b) => Some(b),
            Lent::Long(_) | Lent::Text(_) | Lent::Entity(_) => None,
            Lent::Held(_) | Lent::Written(_) => None,
        }
    }

    /// The long that it is.
    pub(crate) fn long(self) -> Option<Integer>
        ensures { IfSome result (λ n. value_lent self.entry ≡ Plain (tree.Long n)) }
    {
        match self {
            Lent::Long(n) => Some(n),
            Lent::Bool(_) | Lent::Text(_) | Lent::Entity(_) => None,
            Lent::Held(_) | Lent::Written(_) => None,
        }
    }

    /// The text that it is.
    pub(crate) fn text(self) -> Option<&'a RcStr>
        ensures { IfSome result (λ text. value_lent self.entry ≡ Plain (tree.String (rc_str_bytes text.now))) }
    {
        match self {
            Lent::Text(text) => Some(text),
            Lent::Bool(_) | Lent::Long(_) | Lent::Entity(_) => None,
            Lent::Held(_) | Lent::Written(_) => None,
        }
    }

    /// The entity that it is.
    pub(crate) fn entity(self) -> Option<&'a Rc<EntityUID>>
        ensures { IfSome result (λ uid. value_lent self.entry ≡ Plain (tree.Entity uid.now.value)) }
    {
        match self {
            Lent::Entity(uid) => Some(uid),
            Lent::Bool(_) | Lent::Long(_) | Lent::Text(_) => None,
            Lent::Held(_) | Lent::Written(_) => None,
        }
    }

    /// The set, record or extension value that is held.
    pub(crate) fn held(self) -> Option<&'a Value>
        ensures { IfSome result (λ value. value_lent self.entry ≡ value.now) }
    {
        match self {
            Lent::Held(value) => Some(value),
            Lent::Bool(_) | Lent::Long(_) | Lent::Text(_) | Lent::Entity(_) => None,
            Lent::Written(_) => None,
        }
    }

    /// The set that is held.
    pub(crate) fn set(self) -> Option<&'a Set>
        ensures { IfSome result (λ set. value_lent self.entry ≡ SetOf (all_of set.now)) }
    {
        match self.held()?.value_kind() {
            ValueKind::Set(set) => Some(set),
            ValueKind::Lit(_) | ValueKind::Record(_) | ValueKind::ExtensionValue(_) => None,
        }
    }
}
