// How entries, contexts and requests are shown.
use crate::contexts::Context;
use crate::entries::EntityUIDEntry;
use crate::requests::Request;
use cedar_literals::escapes::Escaped;
use cedar_trees::expr::Expr;
use cedar_values::texts::{write_key, write_separator};
use cedar_values::values::Value;
use std::collections::BTreeMap;
use std::fmt;
use std::rc::RcStr;

fn write_values<W: fmt::Write>(
    entries: &BTreeMap<RcStr, Value>,
    f: &mut fmt::Formatter<W>,
) -> fmt::Result {
    write!(f, "{{")?;
    let mut is_first = true;
    for (key, value) in entries {
        write_separator(is_first, f)?;
        write_key(key.as_str(), f)?;
        write!(f, "{value}")?;
        is_first = false;
    }
    write!(f, "}}")
}

fn write_exprs<W: fmt::Write>(
    entries: &BTreeMap<RcStr, Expr>,
    f: &mut fmt::Formatter<W>,
) -> fmt::Result {
    write!(f, "{{")?;
    let mut is_first = true;
    for (key, expr) in entries {
        write_separator(is_first, f)?;
        let key = Escaped::new(key.as_str());
        write!(f, "\"{key}\": {expr}")?;
        is_first = false;
    }
    write!(f, "}}")
}

/// The text of the record of its values, or of what is left of it.
impl fmt::Display for Context {
    fn fmt<W: fmt::Write>(&self, f: &mut fmt::Formatter<W>) -> fmt::Result {
        match self {
            Context::Value(entries) => write_values(entries, f),
            Context::RestrictedResidual(residual) => write_exprs(residual.entries(), f),
        }
    }
}

fn write_entry<W: fmt::Write>(entry: &EntityUIDEntry, f: &mut fmt::Formatter<W>) -> fmt::Result {
    match entry {
        EntityUIDEntry::Known { euid, loc: _ } => write!(f, "{euid}"),
        EntityUIDEntry::Unknown { ty: None, loc: _ } => f.write_str("unknown"),
        EntityUIDEntry::Unknown {
            ty: Some(ty),
            loc: _,
        } => write!(f, "unknown of type {ty}"),
    }
}

/// Its uids, or what is known of them, and its context.
impl fmt::Display for Request {
    fn fmt<W: fmt::Write>(&self, f: &mut fmt::Formatter<W>) -> fmt::Result {
        f.write_str("request with principal ")?;
        write_entry(self.principal(), f)?;
        f.write_str(", action ")?;
        write_entry(self.action(), f)?;
        f.write_str(", resource ")?;
        write_entry(self.resource(), f)?;
        f.write_str(", and context ")?;
        match self.context() {
            None => f.write_str("unknown"),
            Some(context) => write!(f, "{context}"),
        }
    }
}
