// How extension values are printed: as the calls that make them.

use crate::extension_values::{Argument, RepresentableExtensionValue};
use crate::texts::{write_key, write_separator};
use std::collections::BTreeMap;
use std::fmt;
use std::rc::RcStr;

#[cycle(write_arguments)]
fn write_argument<W: fmt::Write>(argument: &Argument, f: &mut fmt::Formatter<W>) -> fmt::Result {
    match argument {
        Argument::Lit(literal) => write!(f, "{literal}"),
        Argument::Set(members) => {
            write!(f, "[")?;
            write_arguments(members, f)?;
            write!(f, "]")
        }
        Argument::Record(fields) => {
            write!(f, "{{")?;
            write_fields(fields, f)?;
            write!(f, "}}")
        }
        Argument::ExtensionValue(value) => write_call(value, f),
    }
}

#[cycle(write_arguments)]
fn write_call<W: fmt::Write>(
    value: &RepresentableExtensionValue,
    f: &mut fmt::Formatter<W>,
) -> fmt::Result {
    let func = &value.func;
    write!(f, "{func}(")?;
    write_arguments(&value.args, f)?;
    write!(f, ")")
}

#[cycle(write_arguments)]
fn write_arguments<W: fmt::Write>(
    arguments: &[Argument],
    f: &mut fmt::Formatter<W>,
) -> fmt::Result {
    let mut is_first = true;
    for argument in arguments {
        write_separator(is_first, f)?;
        write_argument(argument, f)?;
        is_first = false;
    }
    Ok(())
}

#[cycle(write_arguments)]
fn write_fields<W: fmt::Write>(
    fields: &BTreeMap<RcStr, Argument>,
    f: &mut fmt::Formatter<W>,
) -> fmt::Result {
    let mut is_first = true;
    for (key, argument) in fields {
        write_separator(is_first, f)?;
        write_key(key.as_str(), f)?;
        write_argument(argument, f)?;
        is_first = false;
    }
    Ok(())
}

impl fmt::Display for RepresentableExtensionValue {
    fn fmt<W: fmt::Write>(&self, f: &mut fmt::Formatter<W>) -> fmt::Result {
        write_call(self, f)
    }
}
