//! How stores are printed: their entities in the order of their uids. That takes no memory.

use crate::store::Entities;
use std::fmt;

/// The entities in the order of their uids, each with a line feed behind it.
impl fmt::Display for Entities {
    fn fmt<W: fmt::Write>(&self, f: &mut fmt::Formatter<W>) -> fmt::Result {
        if self.is_empty() {
            return write!(f, "<empty Entities>");
        }
        for entity in self {
            writeln!(f, "{entity}")?;
        }
        Ok(())
    }
}

/// Its text.
impl fmt::Debug for Entities {
    fn fmt<W: fmt::Write>(&self, f: &mut fmt::Formatter<W>) -> fmt::Result {
        write!(f, "{self}")
    }
}
