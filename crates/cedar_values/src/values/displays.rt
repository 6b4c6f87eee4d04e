// How values are printed.

use crate::texts::{write_key, write_separator};
use crate::values::{Set, Value, ValueKind};
use cedar_literals::bounded_display::BoundedDisplay;
use cedar_literals::text_bounds::one_less;
use std::collections::BTreeMap;
use std::fmt;
use std::rc::RcStr;

#[cycle(write_kinds)]
fn write_kind<W: fmt::Write>(
    kind: &ValueKind,
    f: &mut fmt::Formatter<W>,
    n: Option<usize>,
) -> fmt::Result {
    match kind {
        ValueKind::Lit(literal) => write!(f, "{literal}"),
        ValueKind::Set(set) => {
            write!(f, "[")?;
            write_members(set, f, n)?;
            write!(f, "]")
        }
        ValueKind::Record(fields) => {
            write!(f, "{{")?;
            write_fields(fields, f, n)?;
            write!(f, "}}")
        }
        ValueKind::ExtensionValue(value) => write!(f, "{value}"),
    }
}

#[cycle(write_kinds)]
fn write_members<W: fmt::Write>(
    set: &Set,
    f: &mut fmt::Formatter<W>,
    n: Option<usize>,
) -> fmt::Result {
    let mut is_first = true;
    let mut left = n;
    for member in set.members.authoritative.iter() {
        write_separator(is_first, f)?;
        if left == Some(0) {
            return write!(f, ".. ");
        }
        write_kind(&member.value, f, n)?;
        left = one_less(left);
        is_first = false;
    }
    Ok(())
}

#[cycle(write_kinds)]
fn write_fields<W: fmt::Write>(
    fields: &BTreeMap<RcStr, Value>,
    f: &mut fmt::Formatter<W>,
    n: Option<usize>,
) -> fmt::Result {
    let mut is_first = true;
    let mut left = n;
    for (key, value) in fields {
        write_separator(is_first, f)?;
        if left == Some(0) {
            return write!(f, ".. ");
        }
        write_key(key.as_str(), f)?;
        write_kind(&value.value, f, n)?;
        left = one_less(left);
        is_first = false;
    }
    Ok(())
}

impl BoundedDisplay for ValueKind {
    ghost use Rattle.std.specs.Prelude.{None};

    ghost bounded_output = { λ kind n. None };

    fn fmt<W: fmt::Write>(&self, f: &mut fmt::Formatter<W>, n: Option<usize>) -> fmt::Result {
        write_kind(self, f, n)
    }
}

impl BoundedDisplay for Value {
    ghost use Rattle.std.specs.Prelude.{None};

    ghost bounded_output = { λ value n. None };

    fn fmt<W: fmt::Write>(&self, f: &mut fmt::Formatter<W>, n: Option<usize>) -> fmt::Result {
        write_kind(&self.value, f, n)
    }
}

impl fmt::Display for ValueKind {
    fn fmt<W: fmt::Write>(&self, f: &mut fmt::Formatter<W>) -> fmt::Result {
        self.fmt_unbounded(f)
    }
}

impl fmt::Display for Value {
    fn fmt<W: fmt::Write>(&self, f: &mut fmt::Formatter<W>) -> fmt::Result {
        self.fmt_unbounded(f)
    }
}
