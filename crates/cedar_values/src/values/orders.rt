// Equality and order of values: literals before sets, sets before records, records before extension
// values; sets by their members in order, records by their keys and then by what stands at them.
ghost use Rattle.std.specs.Prelude.{◌≡◌};
ghost use Rattle.std.specs.Cmp.Lexicographic.{slice_cmp};
ghost use Rattle.cedar_language.specs.Order.{value_cmp, code_all, nodes_cmp, text_cmp, all_of};
ghost use Rattle.cedar_values.specs.Kinds.{value_of, plain_of, keys_of, values_of};
ghost use Rattle.cedar_values.specs.Orders as orders;

use crate::values::{Set, Value, ValueKind};
use cedar_literals::literals::Literal;
use std::cmp::Ordering;
use std::collections::BTreeMap;
use std::rc::RcStr;

fn kind_number(kind: &ValueKind) -> u8
    ensures { result ≡ orders.kind_number (value_of kind.now) }
{
    match kind {
        ValueKind::Lit(Literal::Bool(_)) => 0,
        ValueKind::Lit(Literal::Long(_)) => 1,
        ValueKind::Lit(Literal::String(_)) => 2,
        ValueKind::Lit(Literal::EntityUID(_)) => 3,
        ValueKind::Set(_) => 4,
        ValueKind::Record(_) => 5,
        ValueKind::ExtensionValue(_) => 6,
    }
}

// What is no literal stands above it.
pub(super) fn cmp_literal(value: &Value, literal: &Literal) -> Ordering
    ensures { result ≡ value_cmp value.now (plain_of literal.now) }
{
    match &value.value {
        ValueKind::Lit(own) => own.cmp(literal),
        ValueKind::Set(_) | ValueKind::Record(_) | ValueKind::ExtensionValue(_) => {
            Ordering::Greater
        }
    }
}

#[cycle(cmp_kinds)]
fn cmp_kinds(a: &ValueKind, b: &ValueKind) -> Ordering
    ensures { result ≡ value_cmp (value_of a.now) (value_of b.now) }
{
    match (a, b) {
        (ValueKind::Lit(x), ValueKind::Lit(y)) => x.cmp(y),
        (ValueKind::Set(x), ValueKind::Set(y)) => cmp_sets(x, y),
        (ValueKind::Record(x), ValueKind::Record(y)) => match cmp_keys(x, y) {
            Ordering::Equal => cmp_fields(x, y),
            unequal => unequal,
        },
        (ValueKind::ExtensionValue(x), ValueKind::ExtensionValue(y)) => x.value().cmp(y.value()),
        _ => kind_number(a).cmp(&kind_number(b)),
    }
}

#[cycle(cmp_kinds)]
fn cmp_sets(a: &Set, b: &Set) -> Ordering
    ensures { result ≡ nodes_cmp (code_all (all_of a.now)) (code_all (all_of b.now)) }
{
    let mut others = b.members.authoritative.iter();
    for x in a.members.authoritative.iter() {
        match others.next() {
            None => return Ordering::Greater,
            Some(y) => {
                let first = cmp_kinds(&x.value, &y.value);
                if first != Ordering::Equal {
                    return first;
                }
            }
        }
    }
    match others.next() {
        None => Ordering::Equal,
        Some(_) => Ordering::Less,
    }
}

#[cycle(cmp_kinds)]
fn cmp_fields(a: &BTreeMap<RcStr, Value>, b: &BTreeMap<RcStr, Value>) -> Ordering
    ensures { result ≡ nodes_cmp (code_all (values_of a.now.entries)) (code_all (values_of b.now.entries)) }
{
    let mut others = b.iter();
    for (_key, x) in a {
        match others.next() {
            None => return Ordering::Greater,
            Some((_, y)) => {
                let first = cmp_kinds(&x.value, &y.value);
                if first != Ordering::Equal {
                    return first;
                }
            }
        }
    }
    match others.next() {
        None => Ordering::Equal,
        Some(_) => Ordering::Less,
    }
}

fn cmp_keys(a: &BTreeMap<RcStr, Value>, b: &BTreeMap<RcStr, Value>) -> Ordering
    ensures { result ≡ slice_cmp text_cmp (keys_of a.now.entries) (keys_of b.now.entries) }
{
    let mut others = b.iter();
    for (k, _value) in a {
        match others.next() {
            None => return Ordering::Greater,
            Some((l, _)) => {
                let first = k.cmp(l);
                if first != Ordering::Equal {
                    return first;
                }
            }
        }
    }
    match others.next() {
        None => Ordering::Equal,
        Some(_) => Ordering::Less,
    }
}

impl PartialEq for ValueKind {
    ghost use Rattle.cedar_values.specs.Orders.{same_kind, same_kind_partial};

    ghost eq = { same_kind };

    ghost laws = { same_kind_partial };

    fn eq(&self, other: &ValueKind) -> bool {
        cmp_kinds(self, other) == Ordering::Equal
    }
}

impl Eq for ValueKind {
    ghost use Rattle.cedar_values.specs.Orders.{same_kind_equiv};

    ghost laws = { same_kind_equiv };
}

impl PartialEq for Value {
    ghost use Rattle.cedar_language.specs.Order.{same};
    ghost use Rattle.cedar_values.specs.Orders.{same_partial};

    ghost eq = { same };

    ghost laws = { same_partial };

    fn eq(&self, other: &Value) -> bool {
        self.cmp(other).is_eq()
    }
}

impl Eq for Value {
    ghost use Rattle.cedar_values.specs.Orders.{same_equiv};

    ghost laws = { same_equiv };
}

impl PartialOrd for Value {
    ghost use Rattle.std.specs.Ordering.{as_partial_cmp};
    ghost use Rattle.cedar_language.specs.Order.{value_cmp};
    ghost use Rattle.cedar_values.specs.Orders.{value_cmp_partial};

    ghost partial_cmp = { as_partial_cmp value_cmp };

    ghost laws = { value_cmp_partial };

    fn partial_cmp(&self, other: &Value) -> Option<Ordering> {
        Some(self.cmp(other))
    }
}

impl Ord for Value {
    ghost use Rattle.std.specs.Prelude.{refl};
    ghost use Rattle.cedar_language.specs.Order.{value_cmp};
    ghost use Rattle.cedar_language.specs.OrderLaws.{value_cmp_total};

    ghost cmp = { value_cmp };

    ghost total = { value_cmp_total };

    ghost matches_partial_cmp = { λ x y. refl };

    ghost matches_eq = { λ x y. refl };

    // Two longs at once: where a set is made of many, this is asked most.
    fn cmp(&self, other: &Value) -> Ordering {
        match (&self.value, &other.value) {
            (ValueKind::Lit(Literal::Long(n)), ValueKind::Lit(Literal::Long(m))) => n.cmp(m),
            (kind, other) => cmp_kinds(kind, other),
        }
    }
}

impl PartialEq for Set {
    ghost use Rattle.cedar_values.specs.Orders.{same_set, same_set_partial};

    ghost eq = { same_set };

    ghost laws = { same_set_partial };

    fn eq(&self, other: &Set) -> bool {
        cmp_sets(self, other) == Ordering::Equal
    }
}

impl Eq for Set {
    ghost use Rattle.cedar_values.specs.Orders.{same_set_equiv};

    ghost laws = { same_set_equiv };
}

impl PartialOrd for Set {
    ghost use Rattle.std.specs.Ordering.{as_partial_cmp};
    ghost use Rattle.cedar_values.specs.Orders.{set_cmp, set_cmp_partial};

    ghost partial_cmp = { as_partial_cmp set_cmp };

    ghost laws = { set_cmp_partial };

    fn partial_cmp(&self, other: &Set) -> Option<Ordering> {
        Some(self.cmp(other))
    }
}

impl Ord for Set {
    ghost use Rattle.std.specs.Prelude.{refl};
    ghost use Rattle.cedar_values.specs.Orders.{set_cmp, set_cmp_total};

    ghost cmp = { set_cmp };

    ghost total = { set_cmp_total };

    ghost matches_partial_cmp = { λ x y. refl };

    ghost matches_eq = { λ x y. refl };

    fn cmp(&self, other: &Set) -> Ordering {
        cmp_sets(self, other)
    }
}
